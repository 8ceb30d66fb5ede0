//! A worker: its local, and its seat.
ghost use Rattle.std.specs.Prelude.{◌<◌};
ghost use Rattle.crossbeam_deque.specs.Handles.{worker_view};

use crate::hand::Owner;
use crate::thief::Thief;

/// What a worker needs beside its local, and what it has done. Its owner has at least one part of its deque.
#[derive(Drop)]
pub struct Seat {
    /// The worker's number.
    pub worker: usize,
    /// The jobs that were dealt to it, the oldest first.
    pub deque: Owner,
    /// Takes jobs from each worker, in the order of their numbers.
    pub thieves: Vec<Thief>,
    /// Each job that it has done, with the job's answer.
    pub done: Vec<(usize, Vec<u8>)>,
    /// A job found no memory, its own or another worker's: its worker stops.
    pub short: bool,
    ghost share: { 0 < (worker_view deque).parts },
}

/// A worker at work.
pub struct Member<L> {
    pub local: L,
    pub seat: Seat,
}
