//! What a session asked last.

use bs_names::LiveTree;

/// What the next answer is about.
#[derive(Clone, Copy)]
pub(crate) enum Asked {
    /// Nothing: what was asked for has no answer, or nothing was asked yet.
    Nothing,
    /// Whether two trees are isomorphic.
    Same { left: LiveTree, right: LiveTree },
    /// The value of a series at a tree, for the work that is going on.
    Value,
}
