//! Drivers of sessions: they answer what a session asks, and give its replies.
#![tactic(auto)]

mod alone;
mod recall;
mod shared;
#[cfg(test)]
mod tests;
mod trees;

pub use alone::run_session_alone;
pub use shared::run_session_shared;
