//! The partitions as a plain list by words of keep and cut. Slow, for the tests.

use bs_tree::Code;
use std::alloc::{AllocError, Global};

/// One partition, its parts in a vector.
#[derive(Drop)]
pub(crate) struct Item {
    pub(crate) skeleton: Option<Code>,
    pub(crate) parts: Vec<Code>,
}

/// One item for each word.
pub(crate) fn items(alloc: Global, code: Code) -> Result<Vec<Item>, AllocError> {
    let pairs = code.pairs();
    let mut items = Vec::new(alloc);
    let mut words = 1u32;
    for _ in 1..pairs.len() {
        words = words.saturating_mul(2);
    }
    for word in 0..words {
        let letters = letters(alloc, word, pairs.len())?;
        items.push(item_of(alloc, pairs, &letters)?)?;
    }
    Ok(items)
}

/// The root's letter, and then the binary digits of the word, the highest first; `true` where the edge above the node is cut.
fn letters(alloc: Global, word: u32, count: usize) -> Result<Vec<bool>, AllocError> {
    let mut letters = Vec::new(alloc);
    let mut rest = word;
    for _ in 1..count {
        letters.push(rest % 2 == 1)?;
        rest /= 2;
    }
    letters.push(true)?;
    letters.reverse();
    Ok(letters)
}

fn is_top(letters: &[bool], node: usize) -> bool {
    letters.get(node).copied().unwrap_or(false)
}

/// The last node before this one that has a smaller level, and the root's own place.
fn parent(pairs: &[(u8, u8)], node: usize) -> usize {
    let mut found = 0;
    for (place, pair) in pairs.iter().take(node).enumerate() {
        if pairs.get(node).is_some_and(|here| pair.0 < here.0) {
            found = place;
        }
    }
    found
}

/// The root of the node's part.
fn top_of(pairs: &[(u8, u8)], letters: &[bool], node: usize) -> usize {
    let mut place = node;
    for _ in 0..pairs.len() {
        if !is_top(letters, place) {
            place = parent(pairs, place);
        }
    }
    place
}

/// How many parts the path from the root to this part's root goes through.
fn depth(pairs: &[(u8, u8)], letters: &[bool], top: usize) -> u8 {
    let mut place = top;
    let mut count = 1u8;
    for _ in 0..pairs.len() {
        if place > 0 {
            place = top_of(pairs, letters, parent(pairs, place));
            count = count.saturating_add(1);
        }
    }
    count
}

fn item_of(alloc: Global, pairs: &[(u8, u8)], letters: &[bool]) -> Result<Item, AllocError> {
    let mut skeleton = Vec::new(alloc);
    let mut parts = Vec::new(alloc);
    for top in 0..pairs.len() {
        if is_top(letters, top) {
            skeleton.push((depth(pairs, letters, top), 0))?;
            if let Some(code) = part(alloc, pairs, letters, top)? {
                parts.push(code)?;
            }
        }
    }
    Ok(Item {
        skeleton: Code::of_pairs(&skeleton),
        parts,
    })
}

/// The code of the nodes whose part has this root.
fn part(
    alloc: Global,
    pairs: &[(u8, u8)],
    letters: &[bool],
    top: usize,
) -> Result<Option<Code>, AllocError> {
    let mut nodes = Vec::new(alloc);
    let Some(root) = pairs.get(top) else {
        return Ok(None);
    };
    for (node, pair) in pairs.iter().enumerate() {
        if top_of(pairs, letters, node) == top {
            nodes.push((pair.0.saturating_sub(root.0).saturating_add(1), pair.1))?;
        }
    }
    Ok(Code::of_pairs(&nodes))
}
