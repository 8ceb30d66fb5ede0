//! The canonical sequence as it is defined: the greatest level sequence of all isomorphic trees. Slow, for the tests of small trees.

use std::alloc::{AllocError, Global};

/// The most sequences that are tried: more than any tree of six nodes has.
const TRIED: usize = 1000;

/// The greatest of the sequences that exchanges of neighbouring subtrees lead to, which are those of all orders of the children of each node.
pub(crate) fn greatest(alloc: Global, pairs: &[(u8, u8)]) -> Result<Vec<(u8, u8)>, AllocError> {
    let mut found = Vec::new(alloc);
    add(&mut found, pairs.to_vec(alloc)?)?;
    for next in 0..TRIED {
        add_exchanges(alloc, &mut found, next)?;
    }
    let mut best = pairs.to_vec(alloc)?;
    for sequence in found {
        if best < sequence {
            best = sequence;
        }
    }
    Ok(best)
}

/// Adds what one exchange makes of the sequence at this place.
fn add_exchanges(
    alloc: Global,
    found: &mut Vec<Vec<(u8, u8)>>,
    place: usize,
) -> Result<(), AllocError> {
    for node in 0..found.get(place).map_or(0, |sequence| sequence.len()) {
        if let Some(sequence) = found.get(place) {
            let other = exchanged(alloc, sequence, node)?;
            add(found, other)?;
        }
    }
    Ok(())
}

/// Adds a sequence that is not there yet.
fn add(found: &mut Vec<Vec<(u8, u8)>>, sequence: Vec<(u8, u8)>) -> Result<(), AllocError> {
    if found.iter().all(|other| *other != sequence) {
        found.push(sequence)?;
    }
    Ok(())
}

/// The sequence with the subtree at this node behind the next one of its parent, where there is one.
fn exchanged(alloc: Global, pairs: &[(u8, u8)], node: usize) -> Result<Vec<(u8, u8)>, AllocError> {
    let (before, rest) = pairs.split_at(node.min(pairs.len()));
    let (subtree, later) = first_subtree(rest);
    let (other, last) = match (subtree.first(), later.first()) {
        (Some(here), Some(next)) if here.0 == next.0 => first_subtree(later),
        _ => later.split_at(0),
    };
    let mut result = Vec::new(alloc);
    for part in [before, other, subtree, last] {
        result.extend_from_slice(part)?;
    }
    Ok(result)
}

/// The subtree that the pairs begin with, and the pairs behind it.
fn first_subtree(pairs: &[(u8, u8)]) -> (&[(u8, u8)], &[(u8, u8)]) {
    let Some(root) = pairs.first() else {
        return pairs.split_at(0);
    };
    let size = 1
        + pairs
            .iter()
            .skip(1)
            .take_while(|pair| pair.0 > root.0)
            .count();
    pairs.split_at(size.min(pairs.len()))
}
