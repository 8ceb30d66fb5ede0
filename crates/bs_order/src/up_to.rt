//! A walk over all trees to an order.
//!
//! Contracts see an `UpTo` as its number of colours and the list of the sequences that are left.

ghost use Rattle.std.specs.Prelude.{◌≡◌, ◌<◌, ◌≤◌, ◌∷◌, [], ℕ, All, IfSome, MatchOption};
ghost use Rattle.bs_enum.specs.AllTrees.{trees_up_to};
ghost use Rattle.bs_order.specs.Behind.{walk_left, left_to, IsWalkOf};

use bs_enum::Walk;
use bs_tree::{COLOURS, Code, MAX_NODES};
use std::marker::Model;

/// The trees to an order, by rising order, and within one in strictly decreasing order.
#[derive(Drop)]
pub struct UpTo {
    /// Over the order that was begun last.
    walk: Option<Walk>,
    /// This order, or 0.
    order: usize,
    last: usize,
    colours: usize,
}

impl Model for UpTo {
    ghost use Rattle.std.specs.Prelude.{◌<◌, ◌≤◌};
    ghost use Rattle.bs_tree.specs.declared.TheConstants.{MAX_NODES, COLOURS};
    ghost use Rattle.bs_order.specs.Behind.{Behind, left_to, IsWalkOf};

    ghost Value = { Behind };

    ghost view = { λ a. record { colours = a.colours; left = left_to a.walk a.order a.last a.colours } };

    ghost invariant = { λ a. (a.order ≤ a.last) × (a.last ≤ MAX_NODES) × (0 < a.colours) × (a.colours ≤ COLOURS) × IsWalkOf a.colours a.walk };
}

impl UpTo {
    /// A walk over all trees to this order. It does not ask how many there are: `count_to` tells.
    pub fn new(order: usize, colours: usize) -> UpTo
        requires few_nodes { order ≤ MAX_NODES }
        requires some_colours { 0 < colours }
        requires few_colours { colours ≤ COLOURS }
        ensures colours { result.colours ≡ colours }
        ensures left { result.left ≡ trees_up_to order colours }
    {
        UpTo {
            walk: None,
            order: 0,
            last: order,
            colours,
        }
    }

    /// The next tree; `None` where all were given.
    pub fn next(&mut self) -> Option<Code>
        ensures left { MatchOption result (self.old.left ≡ []) (λ code. self.old.left ≡ code ∷ self.new.left) }
        ensures same { self.new.colours ≡ self.old.colours }
        ensures colours { IfSome result (λ code. All (λ pair. pair.1 < self.old.colours) code) }
    {
        next_to(&mut self.walk, &mut self.order, self.last, self.colours)
    }
}

/// The next tree of the walk, or else of the orders behind it.
fn next_to(walk: &mut Option<Walk>, order: &mut usize, last: usize, colours: usize) -> Option<Code>
    requires within { order.old ≤ last }
    requires few_nodes { last ≤ MAX_NODES }
    requires some_colours { 0 < colours }
    requires few_colours { colours ≤ COLOURS }
    requires walk { IsWalkOf colours walk.old }
    ensures left { MatchOption result (left_to walk.old order.old last colours ≡ []) (λ code. left_to walk.old order.old last colours ≡ code ∷ left_to walk.new order.new last colours) }
    ensures within { order.new ≤ last }
    ensures walk { IsWalkOf colours walk.new }
    ensures colours { IfSome result (λ code. All (λ pair. pair.1 < colours) code) }
{
    'orders: loop {
        if let Some(code) = next_in(walk) {
            return Some(code);
        }
        if *order >= last {
            return None;
        }
        *order += 1;
        *walk = Some(Walk::new(*order, colours));
    }
}

/// The next tree of the walk, where there is one.
fn next_in(walk: &mut Option<Walk>) -> Option<Code>
    ensures left { MatchOption result (walk_left walk.old ≡ []) (λ code. walk_left walk.old ≡ code ∷ walk_left walk.new) }
    ensures walk { (k : ℕ) → IsWalkOf k walk.old → IsWalkOf k walk.new }
    ensures colours { (k : ℕ) → IsWalkOf k walk.old → IfSome result (λ code. All (λ pair. pair.1 < k) code) }
{
    match walk {
        None => None,
        Some(walk) => walk.next(),
    }
}
