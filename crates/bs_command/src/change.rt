//! What a command comes to, once its errors are excluded.

use bs_names::LiveTree;
use bs_series::SeriesId;
use bs_tree::Code;

/// What an accepted command changes.
#[derive(Clone, Copy)]
pub enum Change<'a> {
    /// Nothing.
    Nothing,
    /// The name stands for this tree from now on.
    Name { name: &'a [u8], code: Code },
    /// The name is free from now on.
    Drop { name: &'a [u8] },
    /// The name stands for this series from now on.
    Define { name: &'a [u8], series: SeriesId },
}

/// How far a command was carried out.
#[derive(Clone, Copy)]
pub enum Carried<'a> {
    /// The reply is written.
    Replied { change: Change<'a> },
    /// The reply wants to know whether two trees are isomorphic.
    Asked { left: LiveTree, right: LiveTree },
    /// The reply wants coefficients, and the work on it is begun.
    Begun,
}
