//! Runge-Kutta methods of one or more colours: tables of fractions, read from the lines of a block.
#![tactic(auto)]

mod builder;
mod laws;
pub mod methods;
mod tableau;
#[cfg(test)]
mod tests;
mod words;

pub use builder::{Builder, TableauFault};
pub use laws::written_weight_is_the_elementary_weight;
pub use tableau::Tableau;
pub use words::Words;

/// The largest number of stages of a tableau.
pub const MAX_STAGES: usize = 16;

/// The largest number of colours of a tableau.
pub const MAX_COLOURS: usize = 4;
