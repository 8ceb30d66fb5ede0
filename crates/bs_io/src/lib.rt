//! The outside, as a program sees it: a source that gives bytes, a sink that takes them, and what reads and writes
//! them whole.
//!
//! A contract sees of a source the bytes that are left, where it tells them, and of a sink those that were written.
//! Of both it sees the number of faults so far: a call may fail only where that number rose.
//! `MemSource` and `MemSink` are in memory, tell all, and fail at the calls that they are told to. `StdSource` and
//! `StdSink` stand for a stream of the system, and tell nothing but their faults.
//!
//! Only `read_all` and `MemSink::new` take memory.
#![tactic(auto)]

mod count;
mod memory;
mod sink;
mod source;
mod standard;
#[cfg(test)]
mod tests;

pub use memory::{MemSink, MemSource};
pub use sink::{Sink, write_all};
pub use source::{ReadAllFault, Source, read_all};
pub use standard::{StdSink, StdSource};

/// The outside failed: the number of faults of the object that was called rose.
#[derive(Clone, Copy, Debug, PartialEq, Eq)]
pub struct Failed;
