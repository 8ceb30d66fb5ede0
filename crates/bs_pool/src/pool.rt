//! Runs the jobs.
ghost use Rattle.std.specs.Prelude.{◌≡◌, ℕ, ◌<◌, ◌≤◌, false, List, All, map, IfOk, vec_len, vec_capacity};
ghost use Rattle.bs_pool.specs.Answers.{AreAnswers};
ghost use Rattle.bs_pool.specs.Places.{Empty};
ghost use Rattle.bs_pool.specs.Hands.{below};
ghost use Rattle.bs_pool.specs.Seats.{jobs_of_all, AllDone, Fresh, Ready};
ghost use Rattle.bs_pool.specs.Moves.{Both, Grown, Ended};

use crate::deal::make_seats;
use crate::gather::{complete, put_all};
use crate::members::{sit_down, stand_up};
use crate::recall::recall;
use crate::seat::{Member, Seat};
use crate::serve::{serve, serve_all};
use crate::{Gate, Work};
use std::alloc::{AllocError, Global};
use std::sync::Wait;
use std::sync::atomic::AtomicBool;
use std::thread::Threads;

/// Runs the jobs below `jobs`, one worker with each local.
///
/// Want of memory is the only error: of a job, or of the pool itself, which takes all that it needs before the first
/// worker begins. Each worker that hears of it stops.
pub fn run_jobs<W: Work, G: Gate, R: Threads + Wait + Sync>(
    rt: &R,
    alloc: Global,
    work: &W,
    gate: &G,
    locals: Vec<W::Local>,
    jobs: usize,
) -> (Vec<W::Local>, Result<Vec<Vec<u8>>, AllocError>)
    requires few_workers { (0 < vec_len locals) × (vec_len locals ≤ 64) }
    requires good_locals { All (W.good work.now) locals.items }
    requires few_jobs { jobs ≤ 256 }
    ensures locals_stay_good { All (W.good work.now) result.0.items }
    ensures numbers_stay { map (W.number work.now) result.0.items ≡ map (W.number work.now) locals.items }
    ensures each_job_answered { IfOk result.1 (λ v. AreAnswers (W.answer work.now) jobs v.items) }
{
    let (seats, places, members) = match make_all(alloc, locals.len(), jobs) {
        Ok(made) => made,
        Err(want) => return (locals, Err(want)),
    };
    let mut locals = locals;
    let mut seats = seats;
    let no_memory = AtomicBool::new(false);
    work_together(rt, work, gate, &no_memory, &mut locals, &mut seats, members);
    recall(alloc, &mut seats);
    serve_left(rt, work, gate, &no_memory, &mut locals, &mut seats);
    let answers = gather(alloc, seats, places);
    (locals, answers)
}

// All that takes memory before a worker begins.
fn make_all<L>(
    alloc: Global,
    workers: usize,
    jobs: usize,
) -> Result<(Vec<Seat>, Vec<Option<Vec<u8>>>, Vec<Member<L>>), AllocError>
    requires { (0 < workers) × (workers ≤ 64) × (jobs ≤ 256) }
    ensures seats { IfOk result (λ r. (vec_len r.0 ≡ workers) × Ready jobs r.0.items) }
    ensures places { IfOk result (λ r. (vec_len r.1 ≡ jobs) × Empty r.1.items) }
    ensures members { IfOk result (λ r. (vec_len r.2 ≡ 0) × (workers ≤ vec_capacity r.2)) }
{
    let seats = make_seats(alloc, workers, jobs)?;
    let mut places = Vec::with_capacity(alloc, jobs)?;
    for _ in 0..jobs {
        places.push(None)?;
    }
    Ok((seats, places, Vec::with_capacity(alloc, workers)?))
}

// Lets the workers serve, each with its local and at its seat.
fn work_together<W: Work, G: Gate, R: Threads + Wait + Sync>(
    rt: &R,
    work: &W,
    gate: &G,
    no_memory: &AtomicBool,
    locals: &mut Vec<W::Local>,
    seats: &mut Vec<Seat>,
    members: Vec<Member<W::Local>>,
)
    requires workers { (0 < vec_len locals.old) × (vec_len locals.old ≤ 64) }
    requires as_many { vec_len seats.old ≡ vec_len locals.old }
    requires members { (vec_len members ≡ 0) × (vec_len locals.old ≤ vec_capacity members) }
    requires good { All (W.good work.now) locals.old.items }
    requires fresh { All Fresh seats.old.items }
    ensures good { All (W.good work.now) locals.new.items }
    ensures number { map (W.number work.now) locals.new.items ≡ map (W.number work.now) locals.old.items }
    ensures done { All (AllDone (W.answer work.now)) seats.new.items }
    ensures grown { Both Grown seats.old.items seats.new.items }
{
    let mut members = members;
    sit_down(locals, seats, &mut members);
    serve_all(rt, work, gate, no_memory, members.as_mut_slice());
    stand_up(&mut members, locals, seats);
    members.destroy_empty();
}

// Each worker once more, one after another, with no thief left: a deque that it finds empty was emptied.
fn serve_left<W: Work, G: Gate, R: Wait>(
    rt: &R,
    work: &W,
    gate: &G,
    no_memory: &AtomicBool,
    locals: &mut Vec<W::Local>,
    seats: &mut Vec<Seat>,
)
    requires as_many { vec_len seats.old ≡ vec_len locals.old }
    requires good { All (W.good work.now) locals.old.items }
    requires done { All (AllDone (W.answer work.now)) seats.old.items }
    ensures good { All (W.good work.now) locals.new.items }
    ensures number { map (W.number work.now) locals.new.items ≡ map (W.number work.now) locals.old.items }
    ensures done { All (AllDone (W.answer work.now)) seats.new.items }
    ensures ended { Both Ended seats.old.items seats.new.items }
{
    for worker in 0..seats.len() {
        serve(
            rt,
            work,
            gate,
            no_memory,
            &mut locals[worker],
            &mut seats[worker],
        );
    }
}

// The answers, from what was done at all seats.
fn gather(
    alloc: Global,
    seats: Vec<Seat>,
    places: Vec<Option<Vec<u8>>>,
) -> Result<Vec<Vec<u8>>, AllocError>
    requires empty { Empty places.items }
    requires once { All (λ s. s.short ≡ false) seats.items → (x : ℕ) → jobs_of_all x seats.items ≡ below x (vec_len places) }
    ensures { IfOk result (λ v. (answer : ℕ → List ℕ) → All (AllDone answer) seats.items → AreAnswers answer (vec_len places) v.items) }
{
    if any_short(&seats) {
        return Err(AllocError);
    }
    let mut places = places;
    put_all(seats, &mut places);
    complete(alloc, places)
}

// Whether a job found no memory.
fn any_short(seats: &[Seat]) -> bool
    ensures { result ≡ false → All (λ s. s.short ≡ false) seats.now }
{
    for seat in seats {
        if seat.short {
            return true;
        }
    }
    false
}
