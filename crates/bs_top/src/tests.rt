//! What no clause says: that a run succeeds where memory is ample, and the texts and limits of the program's
//! description. The expected bytes are those of that description.
ghost use Rattle.std.specs.Prelude.{◌≢◌};

use super::*;
use bs_io::{MemSink, MemSource};
use std::alloc::{AllocError, Global};
use std::test::Fail;

const INPUT: &[u8] = b"session\ntree t 1,2,2,3\ntree u 1,2,3,2\nsame t u\nend\n";

const TEXT: &[u8] = b"session 1\ntree t 1,2,3,2\ntree u 1,2,3,2\nsame yes\n";

/// How many bytes a call takes, and which call fails.
#[derive(Clone, Copy)]
struct Calls {
    step: usize,
    failing: u64,
    ghost some: { step ≢ 0 },
}

const CALM: Calls = Calls {
    step: 4096,
    failing: 0,
};

#[derive(Drop)]
struct Outcome {
    status: Status,
    sink: MemSink,
    errs: MemSink,
}

fn run_on(
    alloc: Global,
    words: &[String],
    input: Vec<u8>,
    reads: Calls,
    writes: Calls,
    reports: Calls,
) -> Result<Outcome, AllocError> {
    let mut source = MemSource::new(input, reads.step, [reads.failing].to_vec(alloc)?);
    let mut sink = MemSink::new(alloc, 1000, writes.step, [writes.failing].to_vec(alloc)?)?;
    let mut errs = MemSink::new(alloc, 1000, reports.step, [reports.failing].to_vec(alloc)?)?;
    let status = run_alone(alloc, words, &mut source, &mut sink, &mut errs);
    Ok(Outcome { status, sink, errs })
}

fn run_with(
    alloc: Global,
    input: &[u8],
    reads: Calls,
    writes: Calls,
) -> Result<Outcome, AllocError> {
    run_on(alloc, &[], input.to_vec(alloc)?, reads, writes, CALM)
}

#[test]
fn one_session(rt: HostRuntime) -> Result<(), Fail> {
    let by_one = Calls {
        step: 1,
        failing: 0,
    };
    let by_ten = Calls {
        step: 10,
        failing: 0,
    };
    for calls in [by_one, by_ten, CALM] {
        let outcome = run_with(rt.alloc(), INPUT, calls, calls)?;
        assert_eq!(rt; outcome.status, Status::Done);
        assert_eq!(rt; outcome.sink.bytes(), TEXT);
        assert_eq!(rt; outcome.errs.bytes(), b"".as_slice());
    }
    Ok(())
}

#[test]
fn refused_scripts(rt: HostRuntime) -> Result<(), Fail> {
    let inputs: [(&[u8], &[u8]); 4] = [
        (b"session\ntree t 1\n", b"bseries: line 2: end missing\n"),
        (b"format 2\n", b"bseries: line 1: unknown format\n"),
        (b"tableau one 1\nb 1\n", b"bseries: line 2: line missing\n"),
        (
            b"tableau one 1\na 1/0\n",
            b"bseries: line 2: bad fraction\n",
        ),
    ];
    for (input, line) in inputs {
        let outcome = run_with(rt.alloc(), input, CALM, CALM)?;
        assert_eq!(rt; outcome.status.code(), 3);
        assert_eq!(rt; outcome.sink.bytes(), b"".as_slice());
        assert_eq!(rt; outcome.errs.bytes(), line);
    }
    Ok(())
}

#[test]
fn a_word(rt: HostRuntime) -> Result<(), Fail> {
    let alloc = rt.alloc();
    let words = [String::from_str(alloc, "--help")?];
    let outcome = run_on(alloc, &words, INPUT.to_vec(alloc)?, CALM, CALM, CALM)?;
    assert_eq!(rt; outcome.status, Status::Usage);
    assert_eq!(rt; outcome.sink.bytes(), b"".as_slice());
    let line = b"usage: bseries [--workers N] [--memo N] [--make SEED]\n".as_slice();
    assert_eq!(rt; outcome.errs.bytes(), line);
    Ok(())
}

#[test]
fn a_read_and_a_write_that_fail(rt: HostRuntime) -> Result<(), Fail> {
    let alloc = rt.alloc();
    let outcome = run_with(
        alloc,
        INPUT,
        Calls {
            step: 4,
            failing: 2,
        },
        CALM,
    )?;
    assert_eq!(rt; outcome.status, Status::ReadFault);
    assert_eq!(rt; outcome.sink.bytes(), b"".as_slice());
    assert_eq!(rt; outcome.errs.bytes(), b"bseries: read failed\n".as_slice());
    let outcome = run_with(
        alloc,
        INPUT,
        CALM,
        Calls {
            step: 10,
            failing: 2,
        },
    )?;
    assert_eq!(rt; outcome.status, Status::WriteFault);
    assert_eq!(rt; outcome.sink.bytes(), b"session 1\n".as_slice());
    assert_eq!(rt; outcome.errs.bytes(), b"bseries: write failed\n".as_slice());
    Ok(())
}

#[test]
fn the_longest_input(rt: HostRuntime) -> Result<(), Fail> {
    let alloc = rt.alloc();
    let reads = Calls {
        step: 65_536,
        failing: 0,
    };
    let input = vec![in alloc; b'#'; 16_777_216]?;
    let outcome = run_on(alloc, &[], input, reads, CALM, CALM)?;
    assert_eq!(rt; outcome.status, Status::Done);
    assert_eq!(rt; outcome.sink.bytes(), b"".as_slice());
    let input = vec![in alloc; b'#'; 16_777_217]?;
    let outcome = run_on(alloc, &[], input, reads, CALM, CALM)?;
    assert_eq!(rt; outcome.status, Status::TooLong);
    assert_eq!(rt;
        outcome.errs.bytes(),
        b"bseries: input too long\n".as_slice()
    );
    Ok(())
}

#[test]
fn errs_that_fail(rt: HostRuntime) -> Result<(), Fail> {
    let alloc = rt.alloc();
    let reports = Calls {
        step: 4,
        failing: 3,
    };
    let refused = b"format 2\n".to_vec(alloc)?;
    let outcome = run_on(alloc, &[], refused, CALM, CALM, reports)?;
    assert_eq!(rt; outcome.status.code(), 3);
    assert_eq!(rt; outcome.errs.bytes(), b"bseries:".as_slice());
    let outcome = run_on(alloc, &[], INPUT.to_vec(alloc)?, CALM, CALM, reports)?;
    assert_eq!(rt; outcome.status, Status::Done);
    Ok(())
}

#[test]
fn lines_and_codes(rt: HostRuntime) -> Result<(), Fail> {
    let alloc = rt.alloc();
    let last = Status::Refused {
        line: u64::MAX,
        reason: Reason::Word,
    };
    let cases: [(Status, u8, &[u8]); 4] = [
        (Status::Done, 0, b""),
        (
            Status::Usage,
            2,
            b"usage: bseries [--workers N] [--memo N] [--make SEED]\n",
        ),
        (
            last,
            3,
            b"bseries: line 18446744073709551615: unknown line\n",
        ),
        (Status::NoMemory, 6, b"bseries: out of memory\n"),
    ];
    for (status, code, line) in cases {
        let mut errs = MemSink::new(alloc, 100, 7, Vec::new(alloc))?;
        assert_eq!(rt; report(&mut errs, &status), Ok(()));
        assert_eq!(rt; errs.bytes(), line);
        assert_eq!(rt; status.code(), code);
    }
    assert_eq!(rt;
        [
            Status::ReadFault.code(),
            Status::WriteFault.code(),
            Status::TooLong.code()
        ],
        [4, 5, 7]
    );
    Ok(())
}
