//! Scripts: the tableaux and sessions that an input spells, or its first line that is refused, with the reason.
//!
//! A contract sees a `Script` as its `ScriptLines`: names, tables and sessions of commands. What an input says is
//! `script` of `specs/Grammar.antt`; `read` is that function.
//!
//! Only `read` takes memory.
#![tactic(auto)]

mod cursor;
mod laws;
mod opening;
mod reader;
mod reason;
mod script;
#[cfg(test)]
mod tests;
mod texts;
mod words;

pub use laws::refusal_rests_on_its_prefix;
pub use reader::read;
pub use reason::{Reason, ScriptFault};
pub use script::{Script, SessionText};
pub use texts::Texts;

/// The most tableaux in a script.
pub const MAX_TABLES: usize = 256;

/// The most sessions in a script.
pub const MAX_SESSIONS: usize = 256;

/// The most commands in a session.
pub const MAX_COMMANDS: usize = 4096;
