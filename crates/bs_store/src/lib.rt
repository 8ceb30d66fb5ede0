//! Many threads, one store that keeps each tree once.
#![tactic(auto)]

mod calls;
mod change;
mod close;
pub mod laws;
mod lent;
mod meeting;
mod parts;
mod pass;
mod reader;
mod room;
mod store;
mod view;
mod walk;
mod walk_read;

pub use parts::StoreParts;
pub use pass::Pass;
pub use room::{Room, StoreName};
pub use store::Store;
pub use view::{Board, Hand, Numbered, View};
pub use walk::Interned;
