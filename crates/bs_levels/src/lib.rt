//! Trees as text: a word of levels, and perhaps a word of colours.
#![tactic(auto)]

mod count;
mod laws;
mod nodes;
mod number;
mod read;
mod split;
#[cfg(test)]
mod tests;
mod write;

pub use laws::{written_codes_are_read, written_levels_are_read, written_words_are_read};
pub use read::{LevelFault, LevelRefusal, read_code, read_tree};
pub use write::{write_colours, write_levels, write_tree};
