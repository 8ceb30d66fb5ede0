//! The options of the command line.
//!
//! `read_words` is given the words after the program's name. Contracts say what it answers in the definitions of `clap`:
//! which words are in the usage, and which values they name.
#![tactic(auto)]

#[cfg(test)]
mod tests;
mod words;

pub use words::{Options, WordsFault, read_words};
