//! What a worker does.
ghost use Rattle.std.specs.Prelude.{◌≡◌, ◌<◌, ◌≤◌, false, All, map, length};
ghost use Rattle.bs_pool.specs.Hands.{Spent};
ghost use Rattle.bs_pool.specs.Seats.{own, AllDone};
ghost use Rattle.bs_pool.specs.Moves.{Did, Grown, Both};

use crate::seat::{Member, Seat};
use crate::{Gate, Work};
use std::sync::Wait;
use std::sync::atomic::{AtomicBool, Ordering};
use std::thread;
use std::thread::Threads;

/// Does one job and keeps its answer, or else remembers that there was no memory.
pub fn do_job<W: Work, G: Gate, R: Wait>(
    rt: &R,
    work: &W,
    gate: &G,
    local: &mut W::Local,
    seat: &mut Seat,
    job: usize,
)
    requires good { W.good work.now local.old }
    requires done { AllDone (W.answer work.now) seat.old }
    ensures good { W.good work.now local.new }
    ensures number { W.number work.now local.new ≡ W.number work.now local.old }
    ensures done { AllDone (W.answer work.now) seat.new }
    ensures did { Did job seat.old seat.new }
{
    gate.reach(seat.worker, job);
    match work.run(rt, local, job) {
        Ok(bytes) => {
            if seat.done.push((job, bytes)).is_err() {
                seat.short = true;
            }
        }
        Err(_) => seat.short = true,
    }
}

/// Does jobs until none is left, or somebody has found no memory.
pub fn serve<W: Work, G: Gate, R: Wait>(
    rt: &R,
    work: &W,
    gate: &G,
    no_memory: &AtomicBool,
    local: &mut W::Local,
    seat: &mut Seat,
)
    requires good { W.good work.now local.old }
    requires done { AllDone (W.answer work.now) seat.old }
    ensures good { W.good work.now local.new }
    ensures number { W.number work.now local.new ≡ W.number work.now local.old }
    ensures done { AllDone (W.answer work.now) seat.new }
    ensures grown { Grown seat.old seat.new }
    ensures spent { seat.new.short ≡ false → Spent (own seat.new) }
{
    for _ in rt.forever() {
        if seat.short || no_memory.load(Ordering::SeqCst) {
            seat.short = true;
            no_memory.store(true, Ordering::SeqCst);
            return;
        }
        match seat.next_job(rt) {
            Some(job) => do_job(rt, work, gate, local, seat, job),
            None => return,
        }
    }
    unreachable!()
}

/// Lets each worker serve in a thread of its own.
pub fn serve_all<W: Work, G: Gate, R: Threads + Wait + Sync>(
    rt: &R,
    work: &W,
    gate: &G,
    no_memory: &AtomicBool,
    members: &mut [Member<W::Local>],
)
    requires workers { (0 < length members.old) × (length members.old ≤ 64) }
    requires good { All (λ m. W.good work.now m.local) members.old }
    requires done { All (λ m. AllDone (W.answer work.now) m.seat) members.old }
    ensures good { All (λ m. W.good work.now m.local) members.new }
    ensures number { map (λ m. W.number work.now m.local) members.new ≡ map (λ m. W.number work.now m.local) members.old }
    ensures done { All (λ m. AllDone (W.answer work.now) m.seat) members.new }
    ensures grown { Both (λ m n. Grown m.seat n.seat) members.old members.new }
{
    let workers = members.len();
    thread::for_each_mut(
        rt,
        members,
        workers,
        &|_, member: &mut Member<W::Local>|
            requires good { W.good work.now member.now.local }
            requires done { AllDone (W.answer work.now) member.now.seat }
            ensures good { W.good work.entry.now member.exit.now.local }
            ensures number { W.number work.entry.now member.exit.now.local ≡ W.number work.entry.now member.entry.now.local }
            ensures done { AllDone (W.answer work.entry.now) member.exit.now.seat }
            ensures grown { Grown member.entry.now.seat member.exit.now.seat }
        {
            serve(
                rt,
                work,
                gate,
                no_memory,
                &mut member.local,
                &mut member.seat,
            )
        },
    );
}
