//! The seats, with the jobs dealt, before the first worker begins.
ghost use Rattle.std.specs.Prelude.{◌≡◌, ℕ, ◌+◌, ◌<◌, ◌≤◌, false, [], ◌∷◌, ◌++◌, All, IfOk, OnOk, map, vec_len};
ghost use Rattle.bs_pool.specs.Hands.{times, below};
ghost use Rattle.bs_pool.specs.Seats.{own, deque_of, crew_of, carried, put_of_all, New, Ready};
ghost use Rattle.bs_pool.specs.Moves.{Both, Put, Parted, Gave};

use crate::hand::{Deals, Owner};
use crate::seat::Seat;
use crate::thief::{Thief, make_thief};
use std::alloc::{AllocError, Global};

/// A seat for each worker, with its share of the jobs, and with room for every answer.
pub fn make_seats(alloc: Global, workers: usize, jobs: usize) -> Result<Vec<Seat>, AllocError>
    requires { (0 < workers) × (workers ≤ 64) × (jobs ≤ 256) }
    ensures { IfOk result (λ v. (vec_len v ≡ workers) × Ready jobs v.items) }
{
    let mut seats = Vec::with_capacity(alloc, workers)?;
    for worker in 0..workers {
        seats.push(make_seat(alloc, worker, workers, jobs)?)?;
    }
    deal(&mut seats, jobs)?;
    hire(alloc, &mut seats)?;
    Ok(seats)
}

// A seat with no jobs and no thieves, and with room for the answer of every job.
fn make_seat(alloc: Global, worker: usize, workers: usize, jobs: usize) -> Result<Seat, AllocError>
    requires { 0 < workers }
    ensures { IfOk result (λ s. New s × ((own s).put ≡ [])) }
{
    let deque = Owner::fifo_as(alloc, jobs.div_ceil(workers))?;
    Ok(Seat {
        worker,
        deque,
        thieves: Vec::new(alloc),
        done: Vec::with_capacity(alloc, jobs)?,
        short: false,
    })
}

impl Seat {
    // Puts a job into its deque. One that is full answers as if there were no memory; none is.
    fn put(&mut self, job: usize) -> Result<(), AllocError>
        ensures { OnOk result (Put job self.old self.new) }
    {
        match self.deque.push_as::<Deals>(job) {
            Ok(()) => Ok(()),
            Err(_) => Err(AllocError),
        }
    }

    // A thief for its deque.
    fn part(&mut self) -> Result<Thief, AllocError>
        requires { 1 < (own self.old).parts }
        ensures { IfOk result (λ t. Parted t self.old self.new) }
    {
        make_thief(&mut self.deque)
    }
}

// Deals the jobs, one to each worker in turn.
fn deal(seats: &mut Vec<Seat>, jobs: usize) -> Result<(), AllocError>
    requires some { 0 < vec_len seats.old }
    requires new { All New seats.old.items }
    requires none { (x : ℕ) → put_of_all x seats.old.items ≡ 0 }
    ensures long { vec_len seats.new ≡ vec_len seats.old }
    ensures new { OnOk result (All New seats.new.items) }
    ensures put { OnOk result ((x : ℕ) → put_of_all x seats.new.items ≡ below x jobs) }
{
    let workers = seats.len();
    for job in 0..jobs {
        seats[job % workers].put(job)?;
    }
    Ok(())
}

// Gives each seat a thief for each deque, its own too, so that they stand in the order of the deques.
fn hire(alloc: Global, seats: &mut Vec<Seat>) -> Result<(), AllocError>
    requires many { vec_len seats.old ≤ 64 }
    requires new { All New seats.old.items }
    ensures long { vec_len seats.new ≡ vec_len seats.old }
    ensures ready { OnOk result ((jobs : ℕ) → ((x : ℕ) → put_of_all x seats.old.items ≡ below x jobs) → Ready jobs seats.new.items) }
{
    for worker in 0..seats.len() {
        let crew = make_crew(alloc, seats)?;
        seats[worker].thieves = crew;
    }
    Ok(())
}

// A thief for each deque.
fn make_crew(alloc: Global, seats: &mut Vec<Seat>) -> Result<Vec<Thief>, AllocError>
    requires { All (λ s. 1 < (own s).parts) seats.old.items }
    ensures long { vec_len seats.new ≡ vec_len seats.old }
    ensures parted { OnOk result (Both Gave seats.old.items seats.new.items) }
    ensures crew { IfOk result (λ v. (crew_of v.items ≡ map deque_of seats.old.items) × ((x : ℕ) → carried x v.items ≡ 0)) }
{
    let mut crew = Vec::with_capacity(alloc, seats.len())?;
    for worker in 0..seats.len() {
        crew.push(seats[worker].part()?)?;
    }
    Ok(crew)
}
