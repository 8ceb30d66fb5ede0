//! The lists of a tree's splittings and of its partitions as text. The lists themselves are not made: a line of a tree is written from
//! texts that are made once for its first child and for the tree without it.
#![tactic(auto)]

mod parts;
mod scribe;
mod sides;
mod splits;
#[cfg(test)]
mod tests;
mod texts;

pub use parts::write_partitions;
pub use splits::write_splits;
