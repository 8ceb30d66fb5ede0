//! The store of trees as a machine over events: its states, what each event needs and does, and what holds of all runs.
//!
//! The code has the table of one stripe, the list of one party, and the whole store as a value. The machine itself stands in `specs/`.
#![tactic(auto)]

mod changes;
mod edits;
mod event;
mod hand;
mod key;
pub mod laws;
mod machine;
mod name;
mod names;
mod table;
#[cfg(test)]
mod tests;

pub use event::{Event, Outcome};
pub use hand::{Hand, Taken};
pub use key::Key;
pub use machine::Core;
pub use name::{Name, stripe_of};
pub use names::Names;
pub use table::{Entries, Entry, Held, Table};
