//! Level sequences, and the trees and codes that they describe.
ghost use Rattle.std.specs.Prelude.{◌≡◌, ◌+◌, ◌^◌, ◌<◌, ◌≤◌, IsTrue, IfOk, Some, length, nat_lt, nat_le, nat_eq, ◌&&◌, count_by, slice_get, slice_index_or, drop, ◌∷◌};
ghost use Rattle.std.specs.List.{list_all, prefix_len, starts_with};
ghost use Rattle.bs_tree.specs.Tree.{trees};
ghost use Rattle.bs_tree.specs.Canonical.{canonical_sequence};
ghost use Rattle.bs_tree.specs.Code.{is_level_sequence, has_valid_levels, follows, tree_of};
ghost use Rattle.bs_tree.specs.Subtrees.{subtree_of, level_below, first_count, sizes, same_pair, repeats, later_same, class_sizes, IsSubtree};
ghost use Rattle.bs_tree.specs.Pruned.{kept_pairs};

use crate::code::Code;
use crate::pairs::Pairs;
use crate::tree::Tree;
use crate::{COLOURS, MAX_NODES};
use std::alloc::{AllocError, Global};

/// Whether the pairs (level, colour) describe a tree: at most MAX_NODES of them, the first level 1, each further level
/// from 2 to one more than the one before it, colours below COLOURS.
pub fn is_level_sequence(pairs: &[(u8, u8)]) -> bool
    ensures { result ≡ is_level_sequence pairs.now }
{
    is_short(pairs) && has_valid_levels(pairs) && has_small_colours(pairs)
}

fn is_short(pairs: &[(u8, u8)]) -> bool
    ensures { result ≡ nat_le (length pairs.now) MAX_NODES }
{
    pairs.len() <= MAX_NODES
}

fn has_small_colours(pairs: &[(u8, u8)]) -> bool
    ensures { result ≡ list_all (λ p. nat_lt p.1 COLOURS) pairs.now }
{
    pairs.iter().all(|pair| pair.1 < COLOURS)
}

fn has_valid_levels(pairs: &[(u8, u8)]) -> bool
    ensures { result ≡ has_valid_levels pairs.now }
{
    !pairs.is_empty() && pairs[0].0 == 1 && follows(&pairs[1..])
}

/// Behind a node of level 1.
fn follows(pairs: &[(u8, u8)]) -> bool
    ensures { result ≡ follows 1 pairs.now }
{
    let mut last: u8 = 1;
    'pairs: for pair in pairs {
        if !may_follow(last, pair.0) {
            return false;
        }
        last = pair.0;
    }
    true
}

/// Whether a node of this level may come behind one of level `last`, below the root.
fn may_follow(last: u8, level: u8) -> bool
    ensures { result ≡ (nat_le 2 level && nat_le level (last + 1)) }
{
    2 <= level && level - 1 <= last
}

/// How many pairs the tree has that the list begins with.
pub(crate) fn first_count(pairs: &[(u8, u8)]) -> usize
    requires { 0 < length pairs.now }
    ensures value { result ≡ first_count pairs.now }
    ensures within { result ≤ length pairs.now }
    ensures some { 0 < result }
{
    1 + deeper_count(pairs[0].0, &pairs[1..])
}

/// How many pairs come before the first whose level is not greater.
fn deeper_count(level: u8, pairs: &[(u8, u8)]) -> usize
    ensures value { result ≡ prefix_len (λ q. nat_lt level q.0) pairs.now }
    ensures within { result ≤ length pairs.now }
{
    pairs.iter().take_while(|pair| level < pair.0).count()
}

/// The pairs of the root's child at this place, counted from 0.
pub(crate) fn child_pairs(pairs: &[(u8, u8)], place: usize) -> &[(u8, u8)]
    requires subtree { IsSubtree pairs.now }
    requires place { place < length (trees (subtree_of pairs.now).below) }
    ensures subtree { IsSubtree result.now }
    ensures level { level_below result.now ≡ level_below pairs.now + 1 }
    ensures child { slice_get (trees (subtree_of pairs.now).below) place ≡ Some (subtree_of result.now) }
{
    let mut rest = &pairs[1..];
    'passed: for _ in 0..place {
        let (_, later) = rest.split_at(first_count(rest));
        rest = later;
    }
    rest.split_at(first_count(rest)).0
}

/// How many nodes have this level.
pub(crate) fn count_at(pairs: &[(u8, u8)], level: u8) -> usize
    ensures { result ≡ count_by (λ p. nat_eq p.0 level) pairs.now }
{
    pairs.iter().filter(|pair| pair.0 == level).count()
}

/// The product over the nodes of their numbers of descendants, each with itself.
pub(crate) fn product_of_sizes(pairs: &[(u8, u8)]) -> u64
    requires { sizes pairs.now < 2 ^ 64 }
    ensures { result ≡ sizes pairs.now }
{
    let mut product: u64 = 1;
    'nodes: for node in 0..pairs.len() {
        product *= first_count(&pairs[node..]) as u64;
    }
    product
}

/// Whether the list begins with `first`.
fn begins_with(pairs: &[(u8, u8)], first: &[(u8, u8)]) -> bool
    ensures value { result ≡ starts_with same_pair pairs.now first.now }
    ensures room { IsTrue result → length first.now ≤ length pairs.now }
{
    pairs.starts_with(first)
}

/// How often the list begins with `first`, one time behind the other.
fn repeats(first: &[(u8, u8)], pairs: &[(u8, u8)]) -> usize
    requires { 0 < length first.now }
    ensures value { result ≡ repeats first.now pairs.now }
    ensures few { result ≤ length pairs.now }
{
    let mut rest = pairs;
    let mut count = 0;
    'times: while begins_with(rest, first) {
        rest = &rest[first.len()..];
        count += 1;
    }
    count
}

/// How often the pairs of the first tree come again right behind it.
fn later_same(pairs: &[(u8, u8)]) -> usize
    requires { 0 < length pairs.now }
    ensures value { result ≡ later_same pairs.now }
    ensures few { result < length pairs.now }
{
    let (first, later) = pairs.split_at(first_count(pairs));
    repeats(first, later)
}

/// The product over the nodes of one plus the number of equal trees that come right behind the node's.
pub(crate) fn product_of_class_sizes(pairs: &[(u8, u8)]) -> u64
    requires { class_sizes pairs.now < 2 ^ 64 }
    ensures { result ≡ class_sizes pairs.now }
{
    let mut product: u64 = 1;
    'nodes: for node in 0..pairs.len() {
        product *= later_same(&pairs[node..]) as u64 + 1;
    }
    product
}

/// The root, and of the pairs below it those that stay where each node whose letter is false is cut off with all below it.
pub(crate) fn kept_pairs(pairs: &[(u8, u8)], kept: &[bool]) -> Pairs
    requires some { 0 < length pairs.now }
    requires small { length pairs.now ≤ MAX_NODES }
    requires letters { length kept.now ≡ length pairs.now }
    ensures { result ≡ slice_index_or pairs.now 0 (0, 0) ∷ kept_pairs 0 (drop 1 pairs.now) (drop 1 kept.now) }
{
    let mut rest = Pairs::new();
    rest.push(pairs[0]);
    let mut node = 1;
    'nodes: while node < pairs.len() {
        if kept[node] {
            rest.push(pairs[node]);
            node += 1;
        } else {
            node += first_count(&pairs[node..]);
        }
    }
    rest
}

/// The code of the tree whose level sequence, at any level, the list is.
pub(crate) fn code_of(pairs: &[(u8, u8)]) -> Code
    requires subtree { IsSubtree pairs.now }
    ensures { result ≡ canonical_sequence (subtree_of pairs.now) }
{
    let mut rest = Pairs::new();
    rest.push_from(pairs[0].0, pairs);
    rest.insert_each();
    Code::of_canonical(rest)
}

/// The tree whose level sequence, at any level, the list is.
fn tree_under(alloc: Global, pairs: &[(u8, u8)]) -> Result<Tree, AllocError>
    requires subtree { IsSubtree pairs.now }
    ensures { IfOk result (λ tree. tree ≡ subtree_of pairs.now) }
{
    let mut tree = Tree::leaf(alloc, pairs[0].1);
    let mut rest = &pairs[1..];
    'children: while !rest.is_empty() {
        let (first, later) = rest.split_at(first_count(rest));
        let child = tree_under(alloc, first)?;
        let Ok(()) = tree.hang(child) else {
            return Err(AllocError);
        };
        rest = later;
    }
    Ok(tree)
}

impl Tree {
    /// The tree that the pairs (level, colour) describe. It takes memory for the tree alone.
    pub fn of_pairs(alloc: Global, pairs: &[(u8, u8)]) -> Result<Tree, AllocError>
        requires { IsTrue (is_level_sequence pairs.now) }
        ensures { IfOk result (λ tree. tree ≡ tree_of pairs.now) }
    {
        tree_under(alloc, pairs)
    }
}
