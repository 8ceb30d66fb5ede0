//! Splittings of a tree: a part that holds the root is kept, or nothing, and the rest is cut off as a forest.
#![tactic(auto)]

pub mod laws;
#[cfg(test)]
mod plain;
mod splits;
#[cfg(test)]
mod tests;
mod walk;

pub use splits::{Split, Splits};
