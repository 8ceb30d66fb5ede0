//! What the names of a session stand for: tableaux of the script above it, trees, and series with the book of their expressions.
#![tactic(auto)]

mod live;
#[cfg(test)]
mod live_tests;
mod namespace;
mod seen;

pub use live::{LiveTree, LiveTrees};
pub use namespace::Namespace;
pub use seen::Seen;
