//! One item of the walk: its skeleton, its parts, and where the next item differs.
//!
//! Each node has a letter, in preorder: `true` where the edge above it is kept. The root's is not read.
ghost use Rattle.std.specs.Prelude.{◌≡◌, ◌<◌, ◌≤◌, ◌+◌, [], ◌∷◌, drop, length, option_map, replicate, suc, IfSome};
ghost use Rattle.bs_part.specs.Partition.{codes_of, rooted};
ghost use Rattle.bs_part.specs.Known.{AreEnds, AreKnown, IsPart, StaysKnown};
ghost use Rattle.bs_part.specs.Walk.{cut_after, hung_pairs, item_by, last_kept, letters, part_pairs, skeleton_of};
ghost use Rattle.bs_tree.specs.Canonical.{canonical_sequence};
ghost use Rattle.bs_tree.specs.Code.{IsCode, tree_of};

use crate::parts::Part;
use bs_tree::{Code, CodeList, MAX_NODES, Pairs};

/// The ends of the subtrees of the nodes; 0 for a leaf, whose part no edge changes, and behind the last node.
pub(crate) fn ends_of(code: &Code) -> [usize; MAX_NODES]
    ensures { AreEnds code.now result }
{
    let mut ends = [0; MAX_NODES];
    'nodes: for node in 0..code.order() {
        let end = code.subtree_end(node);
        if end > node + 1 {
            ends[node] = end;
        }
    }
    ends
}

/// The item that keeps the edges above these nodes. A part that is known is not made again, and each of the item's is known
/// afterwards.
pub(crate) fn part_of(code: &Code, kept: &[bool], known: &mut [Option<Code>]) -> Part
    requires letters { length code.now ≤ length kept.now }
    requires room { length code.now ≤ length known.old }
    requires known { AreKnown code.now kept.now known.old }
    ensures item { record { skeleton = result.skeleton; parts = result.parts } ≡ item_by code.now (letters code.now kept.now) }
    ensures known { AreKnown code.now kept.now known.new }
    ensures room { length known.new ≡ length known.old }
{
    Part {
        skeleton: skeleton(code, kept),
        parts: parts(code, kept, known),
    }
}

/// The parts, by their roots in preorder.
fn parts(code: &Code, kept: &[bool], known: &mut [Option<Code>]) -> CodeList
    requires letters { length code.now ≤ length kept.now }
    requires room { length code.now ≤ length known.old }
    requires known { AreKnown code.now kept.now known.old }
    ensures parts { result ≡ (item_by code.now (letters code.now kept.now)).parts }
    ensures known { AreKnown code.now kept.now known.new }
    ensures room { length known.new ≡ length known.old }
{
    let count = code.order();
    let mut parts = CodeList::new();
    parts.push(part_at(code, kept, known, 0));
    'nodes: for node in 1..count {
        if !kept[node] {
            parts.push(part_at(code, kept, known, node));
        }
    }
    parts
}

/// The part whose root is this node.
fn part_at(code: &Code, kept: &[bool], known: &mut [Option<Code>], node: usize) -> Code
    requires node { node < length code.now }
    requires letters { length code.now ≤ length kept.now }
    requires room { length code.now ≤ length known.old }
    requires known { AreKnown code.now kept.now known.old }
    ensures part { IsPart code.now kept.now node result }
    ensures known { AreKnown code.now kept.now known.new }
    ensures room { length known.new ≡ length known.old }
{
    if let Some(part) = known[node] {
        return part;
    }
    let part = code.pruned(node, kept);
    known[node] = Some(part);
    part
}

/// Forgets the parts whose root's subtree ends behind this node.
pub(crate) fn forget(known: &mut [Option<Code>], ends: &[usize], node: usize)
    requires { length known.old ≤ length ends.now }
    ensures stays { StaysKnown ends.now node known.old known.new }
    ensures room { length known.new ≡ length known.old }
{
    'places: for place in 0..known.len() {
        if ends[place] > node {
            known[place] = None;
        }
    }
}

/// One node of colour 0 for each part.
fn skeleton(code: &Code, kept: &[bool]) -> Code
    requires { length code.now ≤ length kept.now }
    ensures { result ≡ canonical_sequence (skeleton_of (tree_of code.now) (letters code.now kept.now)) }
{
    let pairs = skeleton_pairs(code, kept);
    Code::of_level_sequence(pairs.as_slice())
}

/// The skeleton's pairs (level, colour), its nodes in the order of the parts.
fn skeleton_pairs(code: &Code, kept: &[bool]) -> Pairs
    requires { length code.now ≤ length kept.now }
    ensures value { result ≡ (1, 0) ∷ hung_pairs (replicate (MAX_NODES + 1) 1) (drop 1 code.now) (drop 1 kept.now) }
    ensures code { IsCode code.now }
{
    let mut pairs = Pairs::new();
    pairs.push((1, 0));
    // For each level of the tree: the level in the skeleton of the part that its last node is in.
    let mut levels = [1u8; MAX_NODES + 1];
    'nodes: for node in 1..code.order() {
        let level = usize::from(code.level(node));
        let above = levels[level - 1];
        if kept[node] {
            levels[level] = above;
        } else {
            pairs.push((above + 1, 0));
            levels[level] = above + 1;
        }
    }
    pairs
}

/// The last node whose edge is kept.
pub(crate) fn last_kept(code: &Code, kept: &[bool]) -> Option<usize>
    requires { length code.now ≤ length kept.now }
    ensures value { result ≡ option_map (λ i. suc i) (last_kept (letters code.now kept.now)) }
    ensures within { IfSome result (λ node. node < length code.now) }
    ensures small { length code.now ≤ MAX_NODES }
{
    let mut last = None;
    'nodes: for node in 1..code.order() {
        if kept[node] {
            last = Some(node);
        }
    }
    last
}

/// Cuts the edge above this node and keeps all behind it.
pub(crate) fn cut_next(kept: &mut [bool], node: usize)
    requires { node < length kept.old }
    ensures { kept.new ≡ cut_after node kept.old }
{
    kept[node] = false;
    'later: for place in node + 1..kept.len() {
        kept[place] = true;
    }
}
