//! A made input: for each seed a script of three tableaux and 64 sessions, and a summary of what it gives.
//!
//! `make_input` and `summary` take memory.
#![tactic(auto)]

mod generator;
mod laws;
mod make;
mod report;
mod tally;
#[cfg(test)]
mod tests;

pub use laws::made_inputs_are_scripts;
pub use make::make_input;
pub use report::summary;

/// The sessions of a made input.
pub const MADE_SESSIONS: u64 = 64;

/// The commands of each of its sessions.
pub const MADE_COMMANDS: u64 = 35;

/// The trees of each of its sessions.
pub const MADE_TREES: u64 = 8;
