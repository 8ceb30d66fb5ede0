//! Reading the numbers of a word, with no list of more than MAX_NODES of them.

ghost use Rattle.std.specs.Prelude.{◌≡◌, ◌<◌, ◌≤◌, ◌++◌, ◌&&◌, suc, nat_lt, nat_le, [], ◌∷◌, length, Some, None, option_map, IfNone, IfSome};
ghost use Rattle.std.specs.Option.{option_map_or};
ghost use Rattle.bs_levels.specs.Words.{numbers, pieces, before, levels_of};
ghost use Rattle.bs_levels.specs.Levels.{node_count};

use crate::number::read_number;
use crate::split::split_first;
use arrayvec::ArrayVec;
use bs_tree::MAX_NODES;

/// The first number of a word, and what stands behind its comma, if there is one.
pub(crate) fn first_number(word: &[u8], limit: u8) -> Option<(u8, Option<&[u8]>)>
    ensures no_number { IfNone result (numbers limit (pieces word.now) ≡ None) }
    ensures number { IfSome result (λ first. numbers limit (pieces word.now)
        ≡ before (Some first.0) (numbers limit (option_map_or (λ rest. pieces rest.now) first.1 []))) }
    ensures shorter { IfSome result (λ first. IfSome first.1 (λ rest. length rest.now < length word.now)) }
{
    let (part, rest) = split_first(word);
    match read_number(part, limit) {
        None => None,
        Some(number) => Some((number, rest)),
    }
}

/// The numbers of a word: how many, and all of them where they are at most MAX_NODES.
pub(crate) struct Column {
    pub count: usize,
    pub numbers: ArrayVec<u8, MAX_NODES>,
}

/// Puts the number last where there is room.
fn keep(numbers: &mut ArrayVec<u8, MAX_NODES>, number: u8)
    ensures { length numbers.old.items < MAX_NODES → numbers.new.items ≡ numbers.old.items ++ number ∷ [] }
{
    if !numbers.is_full() {
        numbers.push(number);
    }
}

/// The numbers of the word, or None where it isn't a word of numbers up to `limit`.
pub(crate) fn read_numbers(word: &[u8], limit: u8) -> Option<Column>
    ensures counted { option_map (λ column. column.count) result ≡ option_map (λ ns. length ns) (numbers limit (pieces word.now)) }
    ensures kept { IfSome result (λ column. column.count ≤ MAX_NODES → numbers limit (pieces word.now) ≡ Some column.numbers.items) }
{
    let mut numbers = ArrayVec::new();
    let mut count = 0;
    let mut rest = Some(word);
    'numbers: while let Some(text) = rest {
        let Some((number, after)) = first_number(text, limit) else {
            return None;
        };
        keep(&mut numbers, number);
        count += 1;
        rest = after;
    }
    Some(Column { count, numbers })
}

/// Above the first level, and at most one more than the last.
fn follows(first: u8, last: u8, level: u8) -> bool
    ensures { result ≡ (nat_lt first level && nat_le level (suc last)) }
{
    level > first && level - 1 <= last
}

/// The levels of the word, or None where they are no valid levels.
pub(crate) fn read_levels(word: &[u8]) -> Option<Column>
    ensures counted { option_map (λ column. column.count) result ≡ node_count (levels_of word.now) }
    ensures kept { IfSome result (λ column. column.count ≤ MAX_NODES → levels_of word.now ≡ Some column.numbers.items) }
{
    let Some((first, behind)) = first_number(word, u8::MAX) else {
        return None;
    };
    let mut numbers = ArrayVec::new();
    numbers.push(first);
    let mut last = first;
    let mut count = 1;
    let mut rest = behind;
    'levels: while let Some(text) = rest {
        let Some((level, after)) = first_number(text, u8::MAX) else {
            return None;
        };
        if !follows(first, last, level) {
            return None;
        }
        keep(&mut numbers, level);
        last = level;
        count += 1;
        rest = after;
    }
    Some(Column { count, numbers })
}
