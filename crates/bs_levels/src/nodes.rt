//! The pairs (level, colour) of a tree from its words, at most MAX_NODES of them.

ghost use Rattle.std.specs.Prelude.{◌≡◌, ◌+◌, ◌-◌, ◌<◌, ◌≤◌, suc, length, Some, None, IsTrue, IsSome, IfSome, IfNone, replicate};
ghost use Rattle.std.specs.List.{zip};
ghost use Rattle.std.specs.Option.{option_copied};
ghost use Rattle.bs_levels.specs.Levels.{is_valid, from_one, colours_for};

use crate::count::{Column, read_numbers};
use arrayvec::ArrayVec;
use bs_tree::MAX_NODES;

/// The largest colour of a node.
const LARGEST_COLOUR: u8 = 3;

fn zeros(count: usize) -> ArrayVec<u8, MAX_NODES>
    requires { count ≤ MAX_NODES }
    ensures { result.items ≡ replicate count 0 }
{
    let mut zeros = ArrayVec::new();
    for place in 0..count {
        zeros.push(0);
    }
    zeros
}

/// The colours of this many nodes, 0 where no word is given; None where the word isn't one of as many colours.
///
/// Where there are more than MAX_NODES nodes, the colours are not all kept.
pub(crate) fn colour_column(colours: Option<&[u8]>, count: usize) -> Option<ArrayVec<u8, MAX_NODES>>
    ensures refused { IfNone result (colours_for count (option_copied colours.entry) ≡ None) }
    ensures one_each { IfSome result (λ column. IsSome (colours_for count (option_copied colours.entry))) }
    ensures kept { IfSome result (λ column. count ≤ MAX_NODES → colours_for count (option_copied colours.entry) ≡ Some column.items) }
{
    let Some(word) = colours else {
        return Some(zeros(count.min(MAX_NODES)));
    };
    let Some(
        Column {
            count: found,
            numbers,
        },
    ) = read_numbers(word, LARGEST_COLOUR)
    else {
        return None;
    };
    if found == count { Some(numbers) } else { None }
}

/// The level where the first is counted as 1.
fn counted_from(first: u8, level: u8) -> u8
    requires above { first ≤ level }
    requires fits { level < first + 255 }
    ensures { result ≡ suc level - first }
{
    level - first + 1
}

/// The pairs of a tree with these levels and colours.
pub(crate) fn node_pairs(levels: &[u8], colours: &[u8]) -> ArrayVec<(u8, u8), MAX_NODES>
    requires valid { IsTrue (is_valid levels.now) }
    requires small { length levels.now ≤ MAX_NODES }
    requires one_each { length colours.now ≡ length levels.now }
    ensures { result.items ≡ zip (from_one levels.now) colours.now }
{
    let mut pairs = ArrayVec::new();
    for node in 0..levels.len() {
        pairs.push((counted_from(levels[0], levels[node]), colours[node]));
    }
    pairs
}
