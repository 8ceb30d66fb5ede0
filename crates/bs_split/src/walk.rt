//! One item of the walk: which nodes are kept, what is cut off, and where the next item differs.
//!
//! Each node has a letter, in preorder: `true` where it is kept. The root's is not read, nor are those below a node that is cut.
ghost use Rattle.std.specs.Prelude.{◌≡◌, ◌<◌, ◌≤◌, drop, length, option_map, suc, IfSome};
ghost use Rattle.bs_split.specs.Splitting.{codes_of, rooted};
ghost use Rattle.bs_split.specs.Words.{cuts_by};
ghost use Rattle.bs_split.specs.Walk.{advanced, cut_pairs, last_cut, last_pairs};
ghost use Rattle.bs_tree.specs.Code.{IsCode, tree_of};

use crate::splits::Split;
use bs_tree::{Code, CodeList, MAX_NODES};

/// The item that keeps the root and these nodes.
pub(crate) fn rooted(code: &Code, kept: &[bool]) -> Split
    requires { length code.now ≤ length kept.now }
    ensures { record { kept = result.kept; forest = result.forest } ≡ codes_of (rooted (tree_of code.now).colour (cuts_by (tree_of code.now).below (drop 1 kept.now))) }
{
    let forest = cut_trees(code, kept);
    Split {
        kept: Some(code.pruned(0, kept)),
        forest,
    }
}

/// The trees that are cut off, by their roots in preorder.
fn cut_trees(code: &Code, kept: &[bool]) -> CodeList
    requires { length code.now ≤ length kept.now }
    ensures cut { result ≡ cut_pairs 0 (drop 1 code.now) (drop 1 kept.now) }
    ensures code { IsCode code.now }
{
    let mut forest = CodeList::new();
    let count = code.order();
    let mut node = 1;
    'nodes: while node < count {
        if kept[node] {
            node += 1;
        } else {
            forest.push(code.subtree(node));
            node = code.subtree_end(node);
        }
    }
    forest
}

/// The last node that is cut while its parent is kept.
pub(crate) fn last_cut(code: &Code, kept: &[bool]) -> Option<usize>
    requires { length code.now ≤ length kept.now }
    ensures value { result ≡ option_map (λ i. suc i) (last_cut (tree_of code.now).below (drop 1 kept.now)) }
    ensures within { IfSome result (λ node. node < length code.now) }
    ensures small { length code.now ≤ MAX_NODES }
{
    let mut last = None;
    let count = code.order();
    let mut node = 1;
    'nodes: while node < count {
        if kept[node] {
            node += 1;
        } else {
            last = Some(node);
            node = code.subtree_end(node);
        }
    }
    last
}

/// Keeps this node and cuts all behind it.
pub(crate) fn keep_next(kept: &mut [bool], node: usize)
    requires { node < length kept.old }
    ensures { kept.new ≡ advanced node kept.old }
{
    kept[node] = true;
    'later: for place in node + 1..kept.len() {
        kept[place] = false;
    }
}
