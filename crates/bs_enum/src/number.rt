//! The numbers of trees, counted by walking.
ghost use Rattle.std.specs.Prelude.{◌≡◌, ◌+◌, ◌<◌, ◌≤◌, min};
ghost use Rattle.bs_enum.specs.AllTrees.{tree_count, trees_to};

use crate::MAX_TREES;
use crate::walk::Walk;
use bs_tree::{COLOURS, MAX_NODES};

/// The number of trees of exactly this order, or `most` where there are more.
pub(crate) fn count_upto(order: usize, colours: usize, most: u64) -> u64
    requires some_nodes { 0 < order }
    requires few_nodes { order ≤ MAX_NODES }
    requires some_colours { 0 < colours }
    requires few_colours { colours ≤ COLOURS }
    ensures { result ≡ min (tree_count order colours) most }
{
    let mut walk = Walk::new(order, colours);
    'trees: for count in 0..most {
        if walk.next().is_none() {
            return count;
        }
    }
    most
}

/// The number of trees of order 1 to `order`, or one more than the limit where it is greater than that.
pub fn count_to(order: usize, colours: usize, limit: u64) -> u64
    requires few_nodes { order ≤ MAX_NODES }
    requires some_colours { 0 < colours }
    requires few_colours { colours ≤ COLOURS }
    requires limit { limit ≤ MAX_TREES }
    ensures { result ≡ min (trees_to order colours) (limit + 1) }
{
    let mut total = 0;
    'orders: for smaller in 0..order {
        total += count_upto(smaller + 1, colours, limit + 1 - total);
    }
    total
}

/// The number of trees of order 1 to `order`, or MAX_TREES + 1 where it is greater than MAX_TREES.
pub fn count(order: usize, colours: usize) -> u64
    requires few_nodes { order ≤ MAX_NODES }
    requires some_colours { 0 < colours }
    requires few_colours { colours ≤ COLOURS }
    ensures { result ≡ min (trees_to order colours) (MAX_TREES + 1) }
{
    count_to(order, colours, MAX_TREES)
}
