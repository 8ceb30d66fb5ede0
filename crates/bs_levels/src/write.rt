//! Writing a tree as text.

ghost use Rattle.std.specs.Prelude.{◌≡◌, ◌+◌, ◌*◌, ◌≤◌, ◌++◌, [], ◌∷◌, length, decimal, vec_len, vec_capacity, OnOk, OnErr, if◌then◌else◌};
ghost use Rattle.bs_levels.specs.Words.{comma};
ghost use Rattle.bs_levels.specs.TreeText.{levels_text, colours_text, tree_text, has_colours as has_colours_of};

use bs_tree::{Code, MAX_NODES};
use itoa::Buffer;
use std::alloc::AllocError;

/// The most bytes that a number takes.
const NUMBER_ROOM: usize = 3;

/// The most bytes that a number and its comma take.
const ITEM_ROOM: usize = 4;

/// Appends a number in decimal digits; most are one digit. There is room.
#[tactic(auto, using(std::proofs::lemmas::Fmt::decimal_digit))]
fn push_number(number: u8, out: &mut Vec<u8>)
    requires { vec_len out.old + NUMBER_ROOM ≤ vec_capacity out.old }
    ensures written { out.new.items ≡ out.old.items ++ decimal number }
    ensures len { vec_len out.new ≤ vec_len out.old + NUMBER_ROOM }
    ensures capacity { vec_capacity out.old ≤ vec_capacity out.new }
{
    if number < 10 {
        out.push(b'0' + number).unwrap();
    } else {
        let mut buffer = Buffer::new();
        out.extend_from_slice(buffer.format(number).as_bytes())
            .unwrap();
    }
}

/// Appends a number, behind a comma unless it is the first. There is room.
fn push_item(number: u8, is_first: bool, out: &mut Vec<u8>)
    requires { vec_len out.old + ITEM_ROOM ≤ vec_capacity out.old }
    ensures written { out.new.items ≡ out.old.items ++ (if is_first then [] else comma ∷ []) ++ decimal number }
    ensures len { vec_len out.new ≤ vec_len out.old + ITEM_ROOM }
    ensures capacity { vec_capacity out.old ≤ vec_capacity out.new }
{
    if !is_first {
        out.push(b',').unwrap();
    }
    push_number(number, out);
}

/// Appends the levels of the pairs. There is room.
fn push_levels(pairs: &[(u8, u8)], out: &mut Vec<u8>)
    requires { vec_len out.old + ITEM_ROOM * length pairs.now ≤ vec_capacity out.old }
    ensures written { out.new.items ≡ out.old.items ++ levels_text pairs.now }
    ensures len { vec_len out.new ≤ vec_len out.old + ITEM_ROOM * length pairs.now }
    ensures capacity { vec_capacity out.old ≤ vec_capacity out.new }
{
    'pairs: for (node, pair) in pairs.iter().enumerate() {
        push_item(pair.0, node == 0, out);
    }
}

/// Appends the colours of the pairs. There is room.
fn push_colours(pairs: &[(u8, u8)], out: &mut Vec<u8>)
    requires { vec_len out.old + ITEM_ROOM * length pairs.now ≤ vec_capacity out.old }
    ensures written { out.new.items ≡ out.old.items ++ colours_text pairs.now }
    ensures len { vec_len out.new ≤ vec_len out.old + ITEM_ROOM * length pairs.now }
    ensures capacity { vec_capacity out.old ≤ vec_capacity out.new }
{
    'pairs: for (node, pair) in pairs.iter().enumerate() {
        push_item(pair.1, node == 0, out);
    }
}

/// Some node has another colour than 0.
fn has_colours(pairs: &[(u8, u8)]) -> bool
    ensures { result ≡ has_colours_of pairs.now }
{
    pairs.iter().any(|pair| pair.1 != 0)
}

/// Appends the levels with commas between them.
pub fn write_levels(code: &Code, out: &mut Vec<u8>) -> Result<(), AllocError>
    ensures written { OnOk result (out.new.items ≡ out.old.items ++ levels_text code.now) }
    ensures unchanged { OnErr result (out.new.items ≡ out.old.items) }
{
    out.reserve(ITEM_ROOM * MAX_NODES)?;
    push_levels(code.pairs(), out);
    Ok(())
}

/// Appends the colours with commas between them.
pub fn write_colours(code: &Code, out: &mut Vec<u8>) -> Result<(), AllocError>
    ensures written { OnOk result (out.new.items ≡ out.old.items ++ colours_text code.now) }
    ensures unchanged { OnErr result (out.new.items ≡ out.old.items) }
{
    out.reserve(ITEM_ROOM * MAX_NODES)?;
    push_colours(code.pairs(), out);
    Ok(())
}

/// Appends the levels, and where a colour isn't 0 also a colon and the colours.
pub fn write_tree(code: &Code, out: &mut Vec<u8>) -> Result<(), AllocError>
    ensures written { OnOk result (out.new.items ≡ out.old.items ++ tree_text code.now) }
    ensures unchanged { OnErr result (out.new.items ≡ out.old.items) }
{
    let pairs = code.pairs();
    out.reserve(2 * ITEM_ROOM * MAX_NODES + 1)?;
    push_levels(pairs, out);
    if has_colours(pairs) {
        out.push(b':')?;
        push_colours(pairs, out);
    }
    Ok(())
}
