//! One session of a script, as a pure machine: it carries out the session's commands, and asks others to keep its trees, to compare
//! them, and whether they remember its coefficients.
//!
//! A contract sees a `Session` as its `State`. What a session replies is `session_replies` of `specs/Replies.antt`.
#![tactic(auto)]

mod answer;
mod asked;
mod session;

pub use answer::Answer;
pub use session::Session;

/// The most bytes that the accepted replies of a session may have.
pub const MAX_REPLIES: usize = 8_388_608;
