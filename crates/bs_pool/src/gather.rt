//! The answers, each in its place.
ghost use Rattle.std.specs.Prelude.{◌≡◌, ℕ, ◌+◌, List, [], ◌∷◌, All, IfOk, map, vec_len};
ghost use Rattle.bs_pool.specs.Answers.{AreAnswers};
ghost use Rattle.bs_pool.specs.Places.{Placed, Filled};
ghost use Rattle.bs_pool.specs.Hands.{times};
ghost use Rattle.bs_pool.specs.Seats.{job_of, jobs_of_all, AllDone, IsDone};

use crate::seat::Seat;
use std::alloc::{AllocError, Global};

/// Puts an answer in the place of its job.
fn put_one(job: usize, bytes: Vec<u8>, places: &mut Vec<Option<Vec<u8>>>)
    ensures long { vec_len places.new ≡ vec_len places.old }
    ensures placed { (answer : ℕ → List ℕ) → bytes.items ≡ answer job → Placed answer places.old.items → Placed answer places.new.items }
    ensures filled { (f : ℕ → ℕ) → Filled f places.old.items → Filled (λ x. f x + times x (job ∷ [])) places.new.items }
{
    if job < places.len() {
        places[job] = Some(bytes);
    }
}

/// Puts what was done at one seat in its places.
fn put_done(done: Vec<(usize, Vec<u8>)>, places: &mut Vec<Option<Vec<u8>>>)
    ensures long { vec_len places.new ≡ vec_len places.old }
    ensures placed { (answer : ℕ → List ℕ) → All (IsDone answer) done.items → Placed answer places.old.items → Placed answer places.new.items }
    ensures filled { (f : ℕ → ℕ) → Filled f places.old.items → Filled (λ x. f x + times x (map job_of done.items)) places.new.items }
{
    for (job, bytes) in done {
        put_one(job, bytes, places);
    }
}

/// Puts what was done at all seats in its places.
pub fn put_all(seats: Vec<Seat>, places: &mut Vec<Option<Vec<u8>>>)
    ensures long { vec_len places.new ≡ vec_len places.old }
    ensures placed { (answer : ℕ → List ℕ) → All (AllDone answer) seats.items → Placed answer places.old.items → Placed answer places.new.items }
    ensures filled { (f : ℕ → ℕ) → Filled f places.old.items → Filled (λ x. f x + jobs_of_all x seats.items) places.new.items }
{
    for seat in seats {
        put_done(seat.done, places);
    }
}

/// The answers, each from its place. Something is in every place, so none is missing.
pub fn complete(alloc: Global, places: Vec<Option<Vec<u8>>>) -> Result<Vec<Vec<u8>>, AllocError>
    requires { Filled (λ _. 1) places.items }
    ensures { IfOk result (λ v. (answer : ℕ → List ℕ) → Placed answer places.items → AreAnswers answer (vec_len places) v.items) }
{
    let mut places = places;
    let mut answers = Vec::with_capacity(alloc, places.len())?;
    for job in 0..places.len() {
        let Some(bytes) = places[job].take() else {
            unreachable!();
        };
        answers.push(bytes)?;
    }
    Ok(answers)
}
