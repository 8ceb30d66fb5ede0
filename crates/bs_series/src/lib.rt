//! Series expressions: the book of a session's series, and the exact and written values of a series at a tree.
#![tactic(auto)]

mod book;
mod fronts;
mod key;
mod kind;
mod laws;
mod leaf;
mod make;
#[cfg(test)]
mod tests;

pub use book::Book;
pub use fronts::written_values_need_a_front;
pub use kind::{Kind, SeriesFault, SeriesId};
pub use laws::{
    adjoint_is_the_signed_inverse, inverse_solves_its_equation, keys_decide,
    modified_solves_its_equation, modifying_solves_its_equation, needed_pairs_come_of_the_plan,
    plans_go_over_the_items, plans_keep_colours, plans_read_smaller_pairs, values_are_their_plans,
    written_value_is_the_value,
};

/// The largest depth of an expression, written out; one without operands has depth 1.
pub const MAX_DEPTH: usize = 16;

/// The largest number of nodes of an expression, written out.
pub const MAX_SIZE: usize = 64;
