//! The splittings as a plain list by words of keep and cut. Slow, for the tests.

use bs_tree::Code;
use std::alloc::{AllocError, Global};

/// One splitting, its forest in a vector.
#[derive(Drop)]
pub(crate) struct Item {
    pub(crate) kept: Option<Code>,
    pub(crate) forest: Vec<Code>,
}

/// The item that keeps nothing, then one for each word in which no node below a cut one is kept.
pub(crate) fn items(alloc: Global, code: Code) -> Result<Vec<Item>, AllocError> {
    let pairs = code.pairs();
    let mut items = Vec::new(alloc);
    let mut whole = Vec::new(alloc);
    whole.push(code)?;
    items.push(Item {
        kept: None,
        forest: whole,
    })?;
    let mut words = 1u32;
    for _ in 1..pairs.len() {
        words = words.saturating_mul(2);
    }
    for word in 0..words {
        let letters = letters(alloc, word, pairs.len())?;
        if is_choice(pairs, &letters) {
            items.push(kept_item(alloc, pairs, &letters)?)?;
        }
    }
    Ok(items)
}

/// The root's letter, and then the binary digits of the word, the highest first.
fn letters(alloc: Global, word: u32, count: usize) -> Result<Vec<bool>, AllocError> {
    let mut letters = Vec::new(alloc);
    let mut rest = word;
    for _ in 1..count {
        letters.push(rest % 2 == 1)?;
        rest /= 2;
    }
    letters.push(true)?;
    letters.reverse();
    Ok(letters)
}

/// Whether each node that is kept has a parent that is kept.
fn is_choice(pairs: &[(u8, u8)], letters: &[bool]) -> bool {
    (0..pairs.len()).all(|node| !is_kept(letters, node) || is_kept(letters, parent(pairs, node)))
}

fn is_kept(letters: &[bool], node: usize) -> bool {
    letters.get(node).copied().unwrap_or(false)
}

/// The last node before this one that has a smaller level, and the root's own place.
fn parent(pairs: &[(u8, u8)], node: usize) -> usize {
    let mut found = 0;
    for (place, pair) in pairs.iter().take(node).enumerate() {
        if pairs.get(node).is_some_and(|here| pair.0 < here.0) {
            found = place;
        }
    }
    found
}

fn kept_item(alloc: Global, pairs: &[(u8, u8)], letters: &[bool]) -> Result<Item, AllocError> {
    let mut rest = Vec::new(alloc);
    let mut forest = Vec::new(alloc);
    for (node, pair) in pairs.iter().enumerate() {
        if is_kept(letters, node) {
            rest.push(*pair)?;
        } else if is_kept(letters, parent(pairs, node))
            && let Some(code) = subtree(alloc, pairs, node)?
        {
            forest.push(code)?;
        }
    }
    Ok(Item {
        kept: Code::of_pairs(&rest),
        forest,
    })
}

/// The code of the run of greater levels behind this node, with the node itself.
fn subtree(alloc: Global, pairs: &[(u8, u8)], node: usize) -> Result<Option<Code>, AllocError> {
    let mut run = Vec::new(alloc);
    let Some(root) = pairs.get(node) else {
        return Ok(None);
    };
    for (place, pair) in pairs.iter().skip(node).enumerate() {
        if place > 0 && pair.0 <= root.0 {
            break;
        }
        run.push((pair.0.saturating_sub(root.0).saturating_add(1), pair.1))?;
    }
    Ok(Code::of_pairs(&run))
}
