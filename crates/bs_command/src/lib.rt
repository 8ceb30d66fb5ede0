//! The commands of a session, each carried out as far as its reply: it is written, or it waits for an answer, or the work on it is begun.
//!
//! What a command answers is `command` of `specs/Commands.antt`.
#![tactic(auto)]

mod change;
mod coefficients;
mod commands;
mod error;
mod number;
mod operation;
mod series;
#[cfg(test)]
mod tests;
mod verb;
mod words;

pub use change::{Carried, Change};
pub use commands::command;
pub use error::{Error, Fault};
pub use number::NumberFault;
pub use operation::Operation;
pub use verb::Verb;

/// The largest order of a tree at which one coefficient is asked for.
pub const MAX_COEFF_ORDER: usize = 12;
