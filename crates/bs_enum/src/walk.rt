//! A walk over all trees of an order, however many there are.
//!
//! Contracts see a `Walk` as its order, its number of colours and the list of the sequences that are left.
ghost use Rattle.std.specs.Prelude.{◌≡◌, ◌<◌, ◌≤◌, All, IfSome, drop, length, slice_get};
ghost use Rattle.bs_enum.specs.Walk.{whole};

use crate::successor::{first, successor};
use bs_tree::{COLOURS, Code, MAX_NODES};
use std::marker::Model;

/// The trees of an order with colours below a number, in strictly decreasing order.
#[derive(Drop)]
pub struct Walk {
    order: usize,
    colours: u8,
    coming: Option<Code>,
}

impl Model for Walk {
    ghost use Rattle.std.specs.Prelude.{◌<◌, ◌≤◌};
    ghost use Rattle.bs_enum.specs.Walk.{Ahead, IsListed, from_here};
    ghost use Rattle.bs_tree.specs.declared.TheConstants.{COLOURS};

    ghost Value = { Ahead };

    ghost view = { λ a. record { order = a.order; colours = a.colours; left = from_here a.order a.colours a.coming } };

    ghost invariant = { λ a. (a.colours ≤ COLOURS) × IsListed a.order a.colours a.coming };
}

impl Walk {
    /// A walk over all trees of this order. It does not ask how many there are: `count_to` tells.
    pub fn new(order: usize, colours: usize) -> Walk
        requires some_nodes { 0 < order }
        requires few_nodes { order ≤ MAX_NODES }
        requires some_colours { 0 < colours }
        requires few_colours { colours ≤ COLOURS }
        ensures { result ≡ whole order colours }
    {
        let colours = colours as u8;
        Walk {
            order,
            colours,
            coming: Some(first(order, colours)),
        }
    }

    /// The next tree; `None` where all were given. About as many steps as the tree has nodes.
    pub fn next(&mut self) -> Option<Code>
        ensures tree { result ≡ slice_get self.old.left 0 }
        ensures rest { self.new ≡ record self.old { left = drop 1 self.old.left } }
        ensures order { IfSome result (λ code. length code ≡ self.old.order) }
        ensures colours { IfSome result (λ code. All (λ pair. pair.1 < self.old.colours) code) }
    {
        let Some(code) = self.coming else {
            return None;
        };
        self.coming = successor(&code, self.colours);
        Some(code)
    }
}
