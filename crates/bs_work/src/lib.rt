//! The work on replies that want coefficients, and what a session asks for.
#![tactic(auto)]

mod step;
mod task;
mod work;

pub use step::Step;
pub use task::Task;
pub use work::{Job, Work};
