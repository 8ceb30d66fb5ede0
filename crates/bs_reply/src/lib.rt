//! Reply lines: what a session says, as bytes.
#![tactic(auto)]

mod laws;
mod line;
#[cfg(test)]
mod tests;
mod verdict;
mod write;

pub use laws::{numbers_are_read_alike, order_said_is_the_trees};
pub use line::{Line, Word};
pub use verdict::Verdict;
pub use write::write_line;
