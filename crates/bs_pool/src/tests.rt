//! What no clause says: two workers are at work at a time, a job is stolen, and there is memory for many jobs.
ghost use Rattle.std.specs.Prelude.{◌≤◌};

use crate::{Gate, OpenGate, Work, run_jobs};
use std::alloc::{AllocError, Global};
use std::sync::Wait;
use std::sync::atomic::{AtomicU64, Ordering};
use std::test::*;
use std::thread;
use std::thread::Threads;

/// Answers a job by its number, in a byte.
#[derive(Drop)]
struct Echo {
    alloc: Global,
}

impl Work for Echo {
    ghost use Rattle.std.specs.Prelude.{⊤, [], ◌∷◌};

    type Local = usize;

    ghost answer = { λ w j. j ∷ [] };

    ghost good = { λ w l. ⊤ };

    ghost number = { λ w l. l };

    fn run<R: Wait>(&self, _rt: &R, _local: &mut usize, job: usize) -> Result<Vec<u8>, AllocError> {
        let mut bytes = Vec::new(self.alloc);
        if job < 256 {
            bytes.push(job as u8)?;
        } else {
            return Err(AllocError);
        }
        Ok(bytes)
    }
}

/// Holds the jobs `first` and `second` until the other one was reached too, and gives up at last.
#[derive(Drop)]
struct Pair {
    first: usize,
    second: usize,
    reached: AtomicU64,
    gave_up: AtomicU64,
    ended: AtomicU64,
}

impl Pair {
    fn of(first: usize, second: usize) -> Pair {
        Pair {
            first,
            second,
            reached: AtomicU64::new(0),
            gave_up: AtomicU64::new(0),
            ended: AtomicU64::new(0),
        }
    }
}

impl Gate for Pair {
    fn reach(&self, _worker: usize, job: usize) {
        if job != self.first && job != self.second {
            return;
        }
        self.reached.fetch_add(1, Ordering::SeqCst);
        for _ in 0..100_000_000u64 {
            if self.reached.load(Ordering::SeqCst) >= 2 {
                return;
            }
            thread::yield_now();
        }
        self.gave_up.fetch_add(1, Ordering::SeqCst);
    }

    fn ended(&self, found: u64) {
        self.ended.store(found, Ordering::SeqCst);
    }
}

fn run_two<R: Threads + Wait + Sync>(
    rt: &R,
    alloc: Global,
    gate: &Pair,
    jobs: usize,
) -> Result<(Vec<usize>, Vec<Vec<u8>>), AllocError>
    requires { jobs ≤ 256 }
{
    let mut locals = Vec::new(alloc);
    locals.push(7usize)?;
    locals.push(9usize)?;
    let (back, answers) = run_jobs(rt, alloc, &Echo { alloc }, gate, locals, jobs);
    Ok((back, answers?))
}

#[test]
fn two_workers_hold_each_other(rt: HostRuntime) -> Result<(), Fail> {
    let gate = Pair::of(0, 1);
    let (back, answers) = run_two(&rt, rt.alloc(), &gate, 2)?;
    assert_eq!(rt; back.as_slice(), [7, 9].as_slice());
    assert_eq!(rt; answers.len(), 2);
    assert_eq!(rt; gate.gave_up.load(Ordering::SeqCst), 0);
    Ok(())
}

#[test]
fn a_worker_steals(rt: HostRuntime) -> Result<(), Fail> {
    let gate = Pair::of(0, 2);
    let (back, answers) = run_two(&rt, rt.alloc(), &gate, 3)?;
    assert_eq!(rt; back.as_slice(), [7, 9].as_slice());
    assert_eq!(rt; answers.len(), 3);
    assert_eq!(rt; answers[2].as_slice(), [2].as_slice());
    assert_eq!(rt; gate.gave_up.load(Ordering::SeqCst), 0);
    Ok(())
}

#[test]
fn many_jobs(rt: HostRuntime) -> Result<(), Fail> {
    let alloc = rt.alloc();
    let mut locals = Vec::new(alloc);
    for worker in 0..16usize {
        locals.push(worker)?;
    }
    let (back, answers) = run_jobs(&rt, alloc, &Echo { alloc }, &OpenGate, locals, 256);
    assert_eq!(rt; back.len(), 16);
    assert_eq!(rt; back[5], 5);
    let answers = answers?;
    assert_eq!(rt; answers.len(), 256);
    assert_eq!(rt; answers[200].as_slice(), [200].as_slice());
    Ok(())
}
