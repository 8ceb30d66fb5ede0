//! What no clause says of the call with workers: that values are found again, that the gate is told once, that two
//! sessions run at a time, and that a session is stolen. The texts are those of the program's description.

use crate::{Gate, Status, run_main};
use bs_io::{MemSink, MemSource};
use std::alloc::{AllocError, Global};
use std::sync::Wait;
use std::sync::atomic::{AtomicU64, Ordering};
use std::test::Fail;
use std::thread;
use std::thread::Threads;

/// Holds two jobs until the other one was reached too, gives up at last, and counts what it is told.
#[derive(Drop)]
struct Watch {
    first: usize,
    second: usize,
    reached: AtomicU64,
    gave_up: AtomicU64,
    ends: AtomicU64,
    found: AtomicU64,
}

impl Watch {
    /// Holds these two jobs, or nobody where they are one.
    fn of(first: usize, second: usize) -> Watch {
        Watch {
            first,
            second,
            reached: AtomicU64::new(0),
            gave_up: AtomicU64::new(0),
            ends: AtomicU64::new(0),
            found: AtomicU64::new(0),
        }
    }
}

impl Gate for Watch {
    fn reach(&self, _worker: usize, job: usize) {
        if self.first == self.second || (job != self.first && job != self.second) {
            return;
        }
        self.reached.fetch_add(1, Ordering::SeqCst);
        for _ in 0..100_000_000u64 {
            if self.reached.load(Ordering::SeqCst) >= 2 {
                return;
            }
            thread::yield_now();
        }
        self.gave_up.fetch_add(1, Ordering::SeqCst);
    }

    fn ended(&self, found: u64) {
        self.ends.fetch_add(1, Ordering::SeqCst);
        self.found.store(found, Ordering::SeqCst);
    }
}

const SESSION: &[u8] = b"session\ntree t 1,2,2,3\ntree u 1,2,3,2\nsame t u\nend\n";

const TEXT: &[u8] = b"\ntree t 1,2,3,2\ntree u 1,2,3,2\nsame yes\n";

const EULER: &[u8] = b"tableau euler 1\na 0\nb 1\nend\n";

const MODIFIED: &[u8] =
    b"session\nseries a method euler\nseries m modified a\nprint m 3\nseries e exact\nseries x substitute m e\nequal x a 6\nend\n";

/// The status of the call with these words on this input, and what it wrote.
fn run_on<R: Threads + Wait + Sync>(
    rt: &R,
    alloc: Global,
    words: &[&str],
    input: Vec<u8>,
    gate: &Watch,
) -> Result<(Status, MemSink), AllocError> {
    let mut strings: Vec<String> = Vec::new(alloc);
    for word in words {
        strings.push(String::from_str(alloc, word)?)?;
    }
    let mut source = MemSource::new(input, 4096, Vec::new(alloc));
    let mut sink = MemSink::new(alloc, 1000, 4096, Vec::new(alloc))?;
    let mut errs = MemSink::new(alloc, 1000, 4096, Vec::new(alloc))?;
    let status = run_main(
        rt,
        alloc,
        strings.as_slice(),
        &mut source,
        &mut sink,
        &mut errs,
        gate,
    );
    Ok((status, sink))
}

/// So many sessions that compare two trees.
fn sessions(alloc: Global, count: usize) -> Result<Vec<u8>, AllocError> {
    let mut input = Vec::new(alloc);
    for _ in 0..count {
        input.extend_from_slice(SESSION)?;
    }
    Ok(input)
}

/// The text of so many of them, at most nine.
fn text(alloc: Global, count: u8) -> Result<Vec<u8>, AllocError> {
    let mut text = Vec::new(alloc);
    for number in 0..count.min(9) {
        text.extend_from_slice(b"session ")?;
        text.push(b'1' + number)?;
        text.extend_from_slice(TEXT)?;
    }
    Ok(text)
}

#[test]
fn values_are_found_again(rt: HostRuntime) -> Result<(), Fail> {
    let alloc = rt.alloc();
    for (entries, least, most) in [("4096", 78, u64::MAX), ("0", 0, 0)] {
        let mut input = EULER.to_vec(alloc)?;
        input.extend_from_slice(MODIFIED)?;
        input.extend_from_slice(MODIFIED)?;
        let gate = Watch::of(0, 0);
        let words = ["--workers", "1", "--memo", entries];
        let (status, _) = run_on(&rt, alloc, &words, input, &gate)?;
        assert_eq!(rt; status, Status::Done);
        assert_eq!(rt; gate.ends.load(Ordering::SeqCst), 1);
        let found = gate.found.load(Ordering::SeqCst);
        assert!(rt; least <= found && found <= most);
    }
    Ok(())
}

#[test]
fn two_sessions_run_at_a_time(rt: HostRuntime) -> Result<(), Fail> {
    let alloc = rt.alloc();
    let gate = Watch::of(0, 1);
    let words = ["--workers", "2"];
    let (status, sink) = run_on(&rt, alloc, &words, sessions(alloc, 2)?, &gate)?;
    assert_eq!(rt; status, Status::Done);
    assert_eq!(rt; sink.bytes(), text(alloc, 2)?.as_slice());
    assert_eq!(rt; gate.gave_up.load(Ordering::SeqCst), 0);
    Ok(())
}

#[test]
fn a_session_is_stolen(rt: HostRuntime) -> Result<(), Fail> {
    let alloc = rt.alloc();
    let gate = Watch::of(0, 2);
    let words = ["--workers", "2"];
    let (status, sink) = run_on(&rt, alloc, &words, sessions(alloc, 3)?, &gate)?;
    assert_eq!(rt; status, Status::Done);
    assert_eq!(rt; sink.bytes(), text(alloc, 3)?.as_slice());
    assert_eq!(rt; gate.gave_up.load(Ordering::SeqCst), 0);
    Ok(())
}
