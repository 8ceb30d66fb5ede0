//! The next smaller canonical sequence of the same order.
//!
//! The last pair that is not the least one, (2, 0), goes down. Where its colour can fall, it falls by one, and the nodes
//! behind it hang below each other with the greatest colour. Where its colour is 0, its parent's subtree before it stands
//! there again and again (Beyer and Hedetniemi, 1980).
ghost use Rattle.std.specs.Prelude.{◌≡◌, ℕ, ◌+◌, ◌-◌, ◌<◌, ◌≤◌, ◌++◌, ◌∷◌, ◌↔◌, All, Contains, IfSome, IsTrue, Some, length, drop, slice_get};
ghost use Rattle.bs_enum.specs.AllTrees.{all_trees};
ghost use Rattle.bs_enum.specs.Walk.{from_here, IsListed};
ghost use Rattle.bs_enum.specs.Successor.{chain, turned, IsLeast};

use bs_tree::{COLOURS, Code, MAX_NODES, Pairs};

/// The greatest sequence of the order: each node the only child of the one before it, with the greatest colour.
pub(crate) fn first(order: usize, colours: u8) -> Code
    requires some_nodes { 0 < order }
    requires few_nodes { order ≤ MAX_NODES }
    requires some_colours { 0 < colours }
    requires few_colours { colours ≤ COLOURS }
    ensures { result ≡ (1, colours - 1) ∷ chain 1 colours (order - 1) }
{
    let mut pairs = Pairs::new();
    pairs.push((1, colours - 1));
    push_chain(&mut pairs, 1, colours, order - 1);
    Code::of_canonical(pairs)
}

/// The code that comes behind this one in the list of all trees of its order.
pub(crate) fn successor(code: &Code, colours: u8) -> Option<Code>
    requires listed { Contains (all_trees (length code.now) colours) code.now }
    requires few_colours { colours ≤ COLOURS }
    ensures next { from_here (length code.now) colours (Some code.now) ≡ code.now ∷ from_here (length code.now) colours result }
    ensures listed { IsListed (length code.now) colours result }
{
    let pairs = code.pairs();
    let place = last_free(pairs);
    let (front, behind) = pairs.split_at(place);
    let pair = behind[0];
    if pair.1 > 0 {
        let next = lowered(front, pair, colours, behind.len() - 1);
        return Some(Code::of_canonical(next));
    }
    if place > 0 {
        let next = copied(front, parent_of(front, pair.0), behind.len());
        return Some(Code::of_canonical(next));
    }
    None
}

fn is_least(pair: (u8, u8)) -> bool
    ensures { IsTrue result ↔ IsLeast pair }
{
    pair.0 == 2 && pair.1 == 0
}

/// The last place whose pair is not the least, or that of the root.
fn last_free(pairs: &[(u8, u8)]) -> usize
    requires { 0 < length pairs.now }
    ensures within { result < length pairs.now }
    ensures behind { All IsLeast (drop (result + 1) pairs.now) }
    ensures free { 0 < result → IfSome (slice_get pairs.now result) (λ pair. ¬ IsLeast pair) }
{
    let mut place = pairs.len() - 1;
    'places: while place > 0 {
        if !is_least(pairs[place]) {
            return place;
        }
        place -= 1;
    }
    0
}

/// The last node above this level: the parent of a node of this level that follows.
fn parent_of(front: &[(u8, u8)], level: u8) -> usize
    requires some { 0 < length front.now }
    requires root { IfSome (slice_get front.now 0) (λ root. root.0 < level) }
    ensures within { result < length front.now }
    ensures above { IfSome (slice_get front.now result) (λ pair. pair.0 < level) }
    ensures between { All (λ pair. level ≤ pair.0) (drop (result + 1) front.now) }
{
    let mut place = front.len() - 1;
    'nodes: while front[place].0 >= level {
        place -= 1;
    }
    place
}

/// The pairs, then this one with a colour one less, then a chain below it.
fn lowered(front: &[(u8, u8)], pair: (u8, u8), colours: u8, more: usize) -> Pairs
    requires room { length front.now + more < MAX_NODES }
    requires level { pair.0 ≤ MAX_NODES }
    requires colour { 0 < pair.1 }
    requires colours { 0 < colours }
    ensures { result ≡ front.now ++ (pair.0, pair.1 - 1) ∷ chain pair.0 colours more }
{
    let mut pairs = Pairs::new();
    push_all(&mut pairs, front);
    pairs.push((pair.0, pair.1 - 1));
    push_chain(&mut pairs, pair.0, colours, more);
    pairs
}

/// The pairs, then those from the parent on, again and again.
fn copied(front: &[(u8, u8)], parent: usize, count: usize) -> Pairs
    requires room { length front.now + count ≤ MAX_NODES }
    requires parent { parent < length front.now }
    ensures { result ≡ front.now ++ turned count (drop parent front.now) }
{
    let mut pairs = Pairs::new();
    push_all(&mut pairs, front);
    push_copies(&mut pairs, front.len() - parent, count);
    pairs
}

fn push_all(pairs: &mut Pairs, more: &[(u8, u8)])
    requires { length pairs.old + length more.now ≤ MAX_NODES }
    ensures { pairs.new ≡ pairs.old ++ more.now }
{
    'more: for pair in more {
        pairs.push(*pair);
    }
}

fn push_chain(pairs: &mut Pairs, level: u8, colours: u8, count: usize)
    requires room { length pairs.old + count ≤ MAX_NODES }
    requires level { level ≤ MAX_NODES }
    requires colours { 0 < colours }
    ensures { pairs.new ≡ pairs.old ++ chain level colours count }
{
    'nodes: for node in 0..count {
        pairs.push(link(level, colours, node));
    }
}

/// The pair at this place of a chain below a node of this level.
fn link(level: u8, colours: u8, node: usize) -> (u8, u8)
    requires level { level ≤ MAX_NODES }
    requires node { node < MAX_NODES }
    requires colours { 0 < colours }
    ensures { result ≡ (level + 1 + node, colours - 1) }
{
    (level + 1 + node as u8, colours - 1)
}

/// Appends this many pairs, each the one that stands `period` places before it.
fn push_copies(pairs: &mut Pairs, period: usize, count: usize)
    requires room { length pairs.old + count ≤ MAX_NODES }
    requires some { 0 < period }
    requires known { period ≤ length pairs.old }
    ensures { pairs.new ≡ pairs.old ++ turned count (drop (length pairs.old - period) pairs.old) }
{
    'copies: for _ in 0..count {
        let known = pairs.as_slice();
        let pair = known[known.len() - period];
        pairs.push(pair);
    }
}
