//! One stripe of the store: entries by their slots, found by their keys.
//!
//! A stripe keeps no codes: an entry has the colour of a root and the names of its children.
#![tactic(auto)]

pub mod laws;
mod place;
mod stripe;
#[cfg(test)]
mod tests;

pub use place::Entry;
pub use stripe::{AddRefused, Lowered, Stripe};
