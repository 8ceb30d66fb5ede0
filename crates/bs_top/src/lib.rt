//! Bytes to bytes: what the program reads, what it writes for it, and the status that it ends with.
#![tactic(auto)]

mod made;
mod run;
mod status;
#[cfg(test)]
mod tests;
mod text;
mod workers;
#[cfg(test)]
mod workers_tests;

pub use bs_pool::{Gate, OpenGate};
pub use bs_script::Reason;
pub use run::{INPUT_LIMIT, report, run_alone};
pub use status::Status;
pub use workers::run_main;
