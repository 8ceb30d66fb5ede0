//! Lists of trees, order conditions of a method, and the order that they tell, as replies.
//!
//! Contracts see a walk over all trees to an order (`UpTo`) as the list of the sequences that are left.
#![tactic(auto)]

mod conditions;
pub mod laws;
mod trees;
mod up_to;

pub use conditions::{write_conditions, write_order};
pub use trees::write_trees;
pub use up_to::UpTo;

/// The most trees of a list of order conditions, of a list of coefficients, and of a comparison of series.
pub const MAX_CONDITIONS: u64 = 2048;
