//! The trees of an order where they are few, and how many there are.
//!
//! Contracts see a `Trees` as a walk: its order, its number of colours and the list of the sequences that are left.
ghost use Rattle.std.specs.Prelude.{◌≡◌, ◌+◌, ◌<◌, ◌≤◌, ◌↔◌, All, IfOk, IfSome, drop, length, slice_get};
ghost use Rattle.std.specs.Result.{IsErrAnd};
ghost use Rattle.bs_enum.specs.AllTrees.{tree_count, trees_to};
ghost use Rattle.bs_enum.specs.Walk.{whole};

use crate::MAX_TREES;
use crate::number::{count, count_upto};
use crate::walk::Walk;
use bs_tree::{COLOURS, Code, MAX_NODES};
use std::marker::Model;
use thiserror::Error;

/// Why there is no list of trees.
#[derive(Clone, Copy, PartialEq, Eq, Debug, Error)]
pub enum EnumFault {
    /// The trees of all orders up to this one are more than MAX_TREES.
    #[error("too many trees")]
    TooMany,
}

/// The trees of an order with colours below a number, in strictly decreasing order, where those of all orders up to it are
/// at most MAX_TREES.
#[derive(Drop)]
pub struct Trees {
    walk: Walk,
    len: usize,
}

impl Model for Trees {
    ghost use Rattle.std.specs.Prelude.{◌≡◌};
    ghost use Rattle.bs_enum.specs.Walk.{Ahead};
    ghost use Rattle.bs_enum.specs.AllTrees.{tree_count};

    ghost Value = { Ahead };

    ghost view = { λ a. a.walk };

    ghost invariant = { λ a. a.len ≡ tree_count a.walk.order a.walk.colours };
}

impl Trees {
    /// All trees of this order.
    pub fn new(order: usize, colours: usize) -> Result<Trees, EnumFault>
        requires some_nodes { 0 < order }
        requires few_nodes { order ≤ MAX_NODES }
        requires some_colours { 0 < colours }
        requires few_colours { colours ≤ COLOURS }
        ensures all { IfOk result (λ trees. trees ≡ whole order colours) }
        ensures too_many { IsErrAnd result (λ fault. fault ≡ EnumFault.TooMany) ↔ (MAX_TREES < trees_to order colours) }
    {
        if count(order, colours) > MAX_TREES {
            return Err(EnumFault::TooMany);
        }
        Ok(Trees {
            walk: Walk::new(order, colours),
            len: count_upto(order, colours, MAX_TREES) as usize,
        })
    }

    /// The number of all trees of exactly this order, however many were given.
    pub fn len(&self) -> usize
        ensures { result ≡ tree_count self.now.order self.now.colours }
    {
        self.len
    }

    /// The next tree; `None` where all were given. About as many steps as the tree has nodes.
    pub fn next(&mut self) -> Option<Code>
        ensures tree { result ≡ slice_get self.old.left 0 }
        ensures rest { self.new ≡ record self.old { left = drop 1 self.old.left } }
        ensures order { IfSome result (λ code. length code ≡ self.old.order) }
        ensures colours { IfSome result (λ code. All (λ pair. pair.1 < self.old.colours) code) }
    {
        self.walk.next()
    }
}
