//! What a reply line says.

use bs_frac::{Coef, Frac};
use bs_tree::Code;

/// What a list is of.
#[derive(Clone, Copy, Debug, PartialEq, Eq)]
pub enum Word {
    Trees,
    Split,
    Partition,
    Conditions,
}

/// One reply line. A name is written as it is.
#[derive(Clone, Copy)]
pub enum Line<'a> {
    /// A session begins. Sessions are counted from 1.
    Head {
        number: u64,
    },
    /// A command was refused, for the reason of this number.
    Error {
        number: u8,
    },
    /// A tree has a name now.
    Tree {
        name: &'a [u8],
        code: Code,
    },
    /// A name is free again.
    Drop {
        name: &'a [u8],
    },
    /// Whether two trees are isomorphic.
    Same {
        yes: bool,
    },
    /// The numbers of a tree. Its order is the code's own.
    Info {
        code: Code,
        symmetry: u64,
        density: u64,
        alpha: u64,
    },
    /// The elementary weight of a method at a tree.
    Weight {
        coef: Coef,
    },
    /// A list begins. It has so many lines more.
    Count {
        word: Word,
        number: u64,
    },
    /// A tree of a list.
    Listed {
        code: Code,
    },
    /// The splitting of a tree that keeps nothing: the whole tree is cut off.
    NothingKept {
        code: Code,
    },
    /// An order condition: the elementary weight of a method at a tree, and the weight that it has to have.
    Condition {
        code: Code,
        coef: Coef,
        target: Frac,
    },
    /// The order of a method, as far as it was asked for; with `overflow` where no more is known.
    Order {
        number: u64,
        overflow: bool,
    },
    /// A series has a name now: its value at the empty tree, and the number of its colours.
    Series {
        name: &'a [u8],
        empty: Frac,
        colours: u8,
    },
    /// The coefficient of a series at a tree.
    Coeff {
        coef: Coef,
    },
    /// A series is written out, its value at the empty tree first. It has so many lines more.
    Print {
        number: u64,
        empty: Frac,
    },
    /// A tree of a series that is written out, and the coefficient there.
    Term {
        code: Code,
        coef: Coef,
    },
    /// Two series are equal, as far as it was asked for.
    EqualYes,
    /// Two series differ at the empty tree.
    EqualEmpty {
        left: Frac,
        right: Frac,
    },
    /// Two series differ at a tree, or an overflow there leaves it open.
    EqualAt {
        code: Code,
        left: Coef,
        right: Coef,
    },
}
