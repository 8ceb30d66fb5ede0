//! Partitions of a tree: each edge is kept or cut, and the parts that this leaves hang on a skeleton.
#![tactic(auto)]

pub mod laws;
mod parts;
#[cfg(test)]
mod plain;
#[cfg(test)]
mod tests;
mod walk;

pub use parts::{Part, Parts};
