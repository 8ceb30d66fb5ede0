//! The sessions of a script side by side: workers share them out, over one store of trees and one memo of values.
//!
//! `run_sessions` answers the text of each session in its place. A contract says of a text what the script says of the
//! session alone; no clause says which worker runs a session, nor that two of them run at a time.
#![tactic(auto)]

mod jobs;
mod passes;
mod run;

pub use run::{MAX_WORKERS, run_sessions};
