//! A pool of workers that share numbered jobs.
//!
//! Each worker has a local value of its own and a deque of jobs. Every job is dealt before the first worker begins, to
//! each worker in turn; a worker does its own jobs first, the oldest first, and then steals from the others. One that
//! finds no memory lets the others stop.
//!
//! A contract sees of a `Work` the answer of each job, which locals are good, and the number that each local keeps.
//! `run_jobs` answers every job in its place, and gives each local back in its place, good and with its number.
//! No clause says which worker does a job, nor that two of them run at a time.
#![tactic(auto)]

mod deal;
mod gate;
mod gather;
mod hand;
mod members;
mod pool;
mod recall;
mod seat;
mod serve;
mod take;
#[cfg(test)]
mod tests;
mod thief;
mod work;

pub use gate::{Gate, OpenGate};
pub use pool::run_jobs;
pub use work::Work;
