//! A series at a tree.
use bs_series::SeriesId;
use bs_tree::Code;

/// A series at a tree, by the tree's code.
#[derive(Clone, Copy)]
pub(crate) struct Pair {
    pub(crate) series: SeriesId,
    pub(crate) code: Code,
}
