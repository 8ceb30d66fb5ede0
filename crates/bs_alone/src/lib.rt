//! The sheet of a session's remembered coefficients.
#![tactic(auto)]

mod laws;
mod packed;
mod sheet;
#[cfg(test)]
mod tests;

pub use laws::{fitting_is_kept, keeping_changes_one_pair};
pub use sheet::Sheet;
