//! All trees of an order, one after the other, in strictly decreasing order of their canonical sequences.
//!
//! Each is made from the one before it in about as many steps as it has nodes. No call takes memory.
#![tactic(auto)]

pub mod laws;
mod number;
mod successor;
#[cfg(test)]
mod tests;
mod trees;
mod walk;

pub use number::{count, count_to};
pub use trees::{EnumFault, Trees};
pub use walk::Walk;

/// The largest number of trees, of all orders up to one, that `Trees` goes over.
pub const MAX_TREES: u64 = 8192;
