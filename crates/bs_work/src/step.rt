//! What a session asks for.

use bs_frac::Coef;
use bs_series::SeriesId;
use bs_tree::Code;

/// What a session wants done.
#[derive(Drop)]
pub enum Step {
    /// Keep a tree. The trees of a session are numbered from 0, in the order in which they are named.
    Intern {
        tree: u32,
        code: Code,
    },
    /// Give a tree back.
    Release {
        tree: u32,
    },
    /// Compare two trees.
    Same {
        left: u32,
        right: u32,
    },
    /// Is the value of this series at this tree remembered? The id is one of the session's book.
    Look {
        series: SeriesId,
        code: Code,
    },
    /// Remember this value of this series at this tree.
    Keep {
        series: SeriesId,
        code: Code,
        coef: Coef,
    },
    /// Nothing more: these are the session's replies.
    Done {
        reply: Vec<u8>,
    },
}
