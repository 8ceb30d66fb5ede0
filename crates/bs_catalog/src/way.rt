//! Ways in which a row of a tree is made of a row of its first child and of one of the tree without that child. Contracts of crates
//! above name them.

/// A way to make a row.
#[derive(Clone, Copy)]
pub enum Way {
    /// The first child is cut off whole: a splitting.
    CutOff,
    /// The first child's root is kept: a splitting.
    Keep,
    /// The edge above the first child is kept: a partition.
    Join,
    /// That edge is cut: a partition.
    Sever,
}
