//! Level sequences put in canonical order, in place: the tree of each node, from the last node to the first, goes behind the
//! greater ones of the trees that follow it below the same parent.
ghost use Rattle.std.specs.Prelude.{◌≡◌, ◌+◌, ◌<◌, ◌≤◌, ◌++◌, length, take, drop};
ghost use Rattle.bs_tree.specs.Insertion.{greater_first, greater_count, first_inserted, inserted};

use crate::build::first_count;

/// How many pairs the tree has that `later` begins with, where it is greater than `tree`; else 0.
fn greater_first(later: &[(u8, u8)], tree: &[(u8, u8)]) -> usize
    ensures value { result ≡ greater_first later.now tree.now }
    ensures within { result ≤ length later.now }
{
    if later.is_empty() {
        return 0;
    }
    // Most trees are no greater: the first pairs tell so, before the end of the tree is looked for.
    if later.cmp(tree).is_le() {
        return 0;
    }
    let first = later.split_at(first_count(later)).0;
    if first.cmp(tree).is_gt() {
        first.len()
    } else {
        0
    }
}

/// How many pairs the trees have that `later` begins with and that are greater than `tree`.
fn greater_count(tree: &[(u8, u8)], later: &[(u8, u8)]) -> usize
    ensures value { result ≡ greater_count tree.now later.now }
    ensures within { result ≤ length later.now }
{
    let mut passed = 0;
    'greater: loop {
        let count = greater_first(&later[passed..], tree);
        if count == 0 {
            return passed;
        }
        passed += count;
    }
}

/// How many pairs the trees have that follow the first tree, of `count` pairs, and are greater.
fn passed_count(pairs: &[(u8, u8)], count: usize) -> usize
    requires { count ≤ length pairs.now }
    ensures value { result ≡ greater_count (take count pairs.now) (drop count pairs.now) }
    ensures within { count + result ≤ length pairs.now }
{
    let (first, later) = pairs.split_at(count);
    greater_count(first, later)
}

/// Puts the first `count` pairs behind the others, by reversals, which need no room.
fn turn(pairs: &mut [(u8, u8)], count: usize)
    requires { count ≤ length pairs.old }
    ensures { pairs.new ≡ drop count pairs.old ++ take count pairs.old }
{
    if count == pairs.len() {
        return;
    }
    pairs[..count].reverse();
    pairs[count..].reverse();
    pairs.reverse();
}

/// Puts the first tree behind the greater ones of those that follow it.
fn insert_first(pairs: &mut [(u8, u8)])
    requires { 0 < length pairs.old }
    ensures { pairs.new ≡ first_inserted pairs.old }
{
    let count = first_count(pairs);
    let passed = passed_count(pairs, count);
    turn(&mut pairs[..count + passed], count);
}

/// Puts the tree of each node in, from the last node to the first.
pub(crate) fn insert_each(pairs: &mut [(u8, u8)])
    ensures { pairs.new ≡ inserted pairs.old }
{
    let mut node = pairs.len();
    'nodes: while node > 0 {
        node -= 1;
        insert_first(&mut pairs[node..]);
    }
}
