//! Coloured rooted trees, and their canonical sequences.
#![tactic(auto)]

mod build;
mod code;
pub mod code_laws;
mod code_list;
#[cfg(test)]
mod code_tests;
mod insertion;
pub mod laws;
mod pairs;
#[cfg(test)]
mod plain;
#[cfg(test)]
mod table;
#[cfg(test)]
mod tests;
mod tree;

pub use build::is_level_sequence;
pub use code::Code;
pub use code_list::CodeList;
pub use pairs::Pairs;
pub use tree::{GraftFault, GraftRefused, Tree};

/// The largest number of nodes of a tree.
pub const MAX_NODES: usize = 16;

/// The number of colours; a colour is below it.
pub const COLOURS: u8 = 4;
