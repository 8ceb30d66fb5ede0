//! Codes: canonical sequences of trees, in place.
//!
//! Contracts see a `Code` as its list of pairs (level, colour). Each is the canonical sequence of a tree of 1 to MAX_NODES
//! nodes with colours below 4. No call takes memory but `tree`.
ghost use Rattle.std.specs.Prelude.{◌≡◌, ◌<◌, ◌≤◌, ◌↔◌, IsTrue, All, [], ◌∷◌, length, slice_get, IfSome, IfOk, Some, ◌+◌, drop};
ghost use Rattle.std.specs.Cmp.{partial_order_from_total};
ghost use Rattle.std.specs.Cmp.Rules.{comparing};
ghost use Rattle.std.specs.Ordering.{as_partial_cmp};
ghost use Rattle.std.proofs.Common.{rules};
ghost use Rattle.bs_tree.specs.Canonical.{level_sequence, canonical_sequence, sequence_cmp};
ghost use Rattle.bs_tree.specs.Code.{is_level_sequence, IsCode, joined, tree_of, code_of_pairs, child_codes, same_code};
ghost use Rattle.bs_tree.specs.CodeEquality.{sequence_equivalence};
ghost use Rattle.bs_tree.specs.Isomorphic.{isomorphic};
ghost use Rattle.bs_tree.specs.Numbers.{symmetry, density, alpha};
ghost use Rattle.bs_tree.specs.OrderLaws.{sequence_total};
ghost use Rattle.bs_tree.specs.Pruned.{pruned};
ghost use Rattle.bs_tree.specs.Subtrees.{first_count, tree_at};

use crate::build::{
    child_pairs, code_of, count_at, first_count, is_level_sequence, kept_pairs,
    product_of_class_sizes, product_of_sizes,
};
use crate::code_list::CodeList;
use crate::pairs::Pairs;
use crate::tree::{Tree, factorial, labellings};
use crate::{COLOURS, MAX_NODES};
use std::alloc::{AllocError, Global};
use std::cmp::Ordering;
use std::marker::Model;

/// The canonical sequence of a tree.
#[derive(Clone, Copy)]
pub struct Code {
    pairs: Pairs,
}

impl Model for Code {
    ghost use Rattle.std.specs.Prelude.{ℕ, List};
    ghost use Rattle.bs_tree.specs.Code.{IsCode};

    ghost Value = { List (ℕ × ℕ) };

    ghost view = { λ a. a.pairs };

    ghost invariant = { λ a. IsCode a.pairs };

    ghost inverse = { λ v. record { pairs = v } };
}

impl PartialEq for Code {
    ghost eq = { same_code };

    ghost laws = { Prim.search (comparing, rules, sequence_total) };

    fn eq(&self, other: &Code) -> bool {
        matches!(self.compare(other), Ordering::Equal)
    }
}

impl Eq for Code {
    ghost laws = { sequence_equivalence };
}

impl Ord for Code {
    ghost cmp = { sequence_cmp };

    ghost total = { sequence_total };

    ghost matches_partial_cmp = { Prim.search (comparing, rules) };

    ghost matches_eq = { Prim.search (comparing, rules) };

    fn cmp(&self, other: &Code) -> Ordering {
        self.compare(other)
    }
}

impl PartialOrd for Code {
    ghost partial_cmp = { as_partial_cmp sequence_cmp };

    ghost laws = { partial_order_from_total sequence_total };

    fn partial_cmp(&self, other: &Code) -> Option<Ordering> {
        Some(self.cmp(other))
    }
}

impl Code {
    /// The code of the tree of one node.
    pub fn leaf(colour: u8) -> Code
        requires { colour < COLOURS }
        ensures { result ≡ (1, colour) ∷ [] }
    {
        let mut pairs = Pairs::new();
        pairs.push((1, colour));
        Code { pairs }
    }

    /// The code of the tree that the pairs (level, colour) describe, in whatever order its children come.
    ///
    /// `None` where there is no pair or more than MAX_NODES, the first level is not 1, another is below 2 or more than one
    /// above the level before it, or a colour is not below COLOURS.
    pub fn of_pairs(pairs: &[(u8, u8)]) -> Option<Code>
        ensures { result ≡ code_of_pairs pairs.now }
    {
        if is_level_sequence(pairs) {
            Some(Code::of_level_sequence(pairs))
        } else {
            None
        }
    }

    /// The code of the tree that the level sequence describes, in whatever order its children come.
    pub fn of_level_sequence(pairs: &[(u8, u8)]) -> Code
        requires { IsTrue (is_level_sequence pairs.now) }
        ensures { result ≡ canonical_sequence (tree_of pairs.now) }
    {
        code_of(pairs)
    }

    /// The code that these pairs are already, as a caller has proved.
    pub fn of_canonical(pairs: Pairs) -> Code
        requires { IsCode pairs }
        ensures { result ≡ pairs }
    {
        Code { pairs }
    }

    /// The root of this colour over the trees of these codes, which is the sequence as it stands.
    pub(crate) fn join(colour: u8, codes: &CodeList) -> Code
        requires code { IsCode (joined colour codes.now) }
        ensures { result ≡ joined colour codes.now }
    {
        let mut pairs = Pairs::new();
        pairs.push((1, colour));
        'codes: for code in codes.codes() {
            pairs.push_deeper(code.pairs());
        }
        Code { pairs }
    }

    /// The number of nodes.
    pub fn order(&self) -> usize
        ensures value { result ≡ length self.now }
        ensures small { result ≤ MAX_NODES }
        ensures some { 0 < result }
        ensures code { IsCode self.now }
    {
        self.pairs.as_slice().len()
    }

    /// The density of the tree: the order times the densities of the children.
    pub fn density(&self) -> u64
        ensures value { result ≡ density (tree_of self.now) }
        ensures positive { 0 < result }
    {
        product_of_sizes(self.pairs())
    }

    /// The symmetry of the tree: the product of the symmetries of the children and of m! for each class of m isomorphic ones.
    pub fn symmetry(&self) -> u64
        ensures value { result ≡ symmetry (tree_of self.now) }
        ensures positive { 0 < result }
    {
        product_of_class_sizes(self.pairs())
    }

    /// The factorial of the order over the symmetry and the density: the number of monotonic labellings.
    pub fn alpha(&self) -> u64
        ensures value { result ≡ alpha (tree_of self.now) }
        ensures positive { 0 < result }
    {
        labellings(factorial(self.order()), self.symmetry(), self.density())
    }

    /// The level of a node, the nodes counted from 0 in preorder; the root's is 1.
    pub fn level(&self, node: usize) -> u8
        requires { node < length self.now }
        ensures value { IfSome (slice_get self.now node) (λ pair. result ≡ pair.0) }
        ensures small { result ≤ MAX_NODES }
        ensures some { 0 < result }
    {
        self.pairs()[node].0
    }

    /// The colour of a node, the nodes counted from 0 in preorder.
    pub fn colour(&self, node: usize) -> u8
        requires { node < length self.now }
        ensures value { IfSome (slice_get self.now node) (λ pair. result ≡ pair.1) }
        ensures small { result < COLOURS }
    {
        self.pairs()[node].1
    }

    /// Whether the colour of each node is below this number.
    pub fn has_colours_below(&self, colours: usize) -> bool
        ensures { IsTrue result ↔ All (λ pair. pair.1 < colours) self.now }
    {
        self.pairs()
            .iter()
            .all(|pair| usize::from(pair.1) < colours)
    }

    /// The number of the root's children.
    pub fn arity(&self) -> usize
        ensures value { result ≡ length (child_codes self.now) }
        ensures small { result < MAX_NODES }
    {
        count_at(self.pairs(), 2)
    }

    /// The code of the root's child at this place, the children counted from 0 in decreasing order.
    pub fn child(&self, place: usize) -> Code
        requires { place < length (child_codes self.now) }
        ensures value { slice_get (child_codes self.now) place ≡ Some result }
        ensures smaller { length result < length self.now }
    {
        let mut pairs = Pairs::new();
        pairs.push_raised(child_pairs(self.pairs(), place));
        Code { pairs }
    }

    /// The place behind the subtree of a node, the nodes counted from 0 in preorder.
    pub fn subtree_end(&self, node: usize) -> usize
        requires { node < length self.now }
        ensures value { result ≡ node + first_count (drop node self.now) }
        ensures within { result ≤ length self.now }
        ensures later { node < result }
    {
        node + first_count(&self.pairs()[node..])
    }

    /// The code of the subtree of a node, the nodes counted from 0 in preorder.
    pub fn subtree(&self, node: usize) -> Code
        requires { node < length self.now }
        ensures { result ≡ canonical_sequence (tree_at self.now node) }
    {
        code_of(&self.pairs()[node..self.subtree_end(node)])
    }

    /// The code of the subtree of a node without the nodes below it whose letter is false, and without all below these.
    ///
    /// Each node of the whole tree has its letter, in preorder; those outside the subtree and the one of its root are not read.
    pub fn pruned(&self, node: usize, kept: &[bool]) -> Code
        requires node { node < length self.now }
        requires letters { length self.now ≤ length kept.now }
        ensures { result ≡ canonical_sequence (pruned (tree_at self.now node) (drop (node + 1) kept.now)) }
    {
        let end = self.subtree_end(node);
        let rest = kept_pairs(&self.pairs()[node..end], &kept[node..end]);
        code_of(rest.as_slice())
    }

    /// The pairs (level, colour) in preorder.
    pub fn pairs(&self) -> &[(u8, u8)]
        ensures value { result.now ≡ self.now }
        ensures levels { All (λ p. (0 < p.0) × (p.0 ≤ MAX_NODES)) result.now }
        ensures colours { All (λ p. p.1 < COLOURS) result.now }
        ensures small { length result.now ≤ MAX_NODES }
        ensures code { IsCode result.now }
    {
        self.pairs.as_slice()
    }

    /// The order of codes: pairs by level first, then by colour; lists lexicographically, a proper prefix the smaller.
    pub fn compare(&self, other: &Code) -> Ordering
        ensures { result ≡ sequence_cmp self.now other.now }
    {
        self.pairs().cmp(other.pairs())
    }

    /// Whether the trees are equal up to the order of the children of each node.
    pub fn isomorphic(&self, other: &Code) -> bool
        ensures { result ≡ isomorphic (tree_of self.now) (tree_of other.now) }
    {
        let (left, right) = (self.pairs(), other.pairs());
        left.cmp(right).is_eq()
    }

    /// A tree with this level sequence, so with its children in decreasing order. It takes memory for the tree alone.
    pub fn tree(&self, alloc: Global) -> Result<Tree, AllocError>
        ensures value { IfOk result (λ tree. tree ≡ tree_of self.now) }
        ensures sequence { IfOk result (λ tree. level_sequence tree ≡ self.now) }
    {
        Tree::of_pairs(alloc, self.pairs())
    }
}
