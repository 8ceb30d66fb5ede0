//! Trees by number, each with the lists of its splittings and of its partitions by the numbers of their trees, made once.
#![tactic(auto)]

mod arena;
mod catalog;
mod gathering;
mod making;
mod memo;
mod rows;
#[cfg(test)]
mod tests;
mod way;

pub use catalog::{Catalog, Halves};
pub use gathering::Gathered;
pub use rows::Rows;
pub use way::Way;
