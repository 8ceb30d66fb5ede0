//! Remembered values of series over a shared store: a bounded table that many threads share.
#![tactic(auto)]

mod calls;
mod close;
mod key;
pub mod laws;
mod memo;
mod stripe;
#[cfg(test)]
mod tests;

pub use key::MemoKey;
pub use memo::{Memo, MemoRefused};
pub use stripe::{Kept, MemoName, MemoStripe};
