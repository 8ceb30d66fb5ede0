//! Reading a tree from a word of levels and perhaps a word of colours.

ghost use Rattle.std.specs.Prelude.{◌≡◌, Ok, Err, IsTrue, IfOk, IfErr, MatchResult};
ghost use Rattle.std.specs.Option.{option_copied};
ghost use Rattle.bs_tree.specs.Code.{is_level_sequence, tree_of};
ghost use Rattle.bs_levels.specs.Levels.{tree_of_words};
ghost use Rattle.bs_levels.specs.Faults.{Fails, refusal_of, code_of_words};

use crate::count::{Column, read_levels};
use crate::nodes::{colour_column, node_pairs};
use arrayvec::ArrayVec;
use bs_tree::{Code, MAX_NODES, Tree};
use std::alloc::{AllocError, Global};
use thiserror::Error;

/// Why two words are no tree, in the order in which they are tested.
#[derive(Clone, Copy, Debug, PartialEq, Eq, Error)]
pub enum LevelRefusal {
    #[error("the levels are not those of a tree")]
    BadLevels,
    #[error("the colours are not one for each node")]
    BadColours,
    #[error("the tree has too many nodes")]
    TooLarge,
}

/// Why no tree is made of two words: a refusal of the words, or no memory for the tree.
#[derive(Debug, Drop, Error)]
pub enum LevelFault {
    #[error("the levels are not those of a tree")]
    BadLevels,
    #[error("the colours are not one for each node")]
    BadColours,
    #[error("the tree has too many nodes")]
    TooLarge,
    #[error("out of memory")]
    Memory(AllocError),
}

impl From<LevelRefusal> for LevelFault {
    ghost use Rattle.std.specs.Prelude.{◌≡◌};
    ghost use Rattle.bs_levels.specs.Faults.{fault_of};

    ghost from_gives = { λ refusal fault. fault ≡ fault_of refusal };

    fn from(refusal: LevelRefusal) -> LevelFault {
        match refusal {
            LevelRefusal::BadLevels => LevelFault::BadLevels,
            LevelRefusal::BadColours => LevelFault::BadColours,
            LevelRefusal::TooLarge => LevelFault::TooLarge,
        }
    }
}

/// The pairs of the tree that the words describe, in their order, or the first refusal.
fn read_pairs(
    levels: &[u8],
    colours: Option<&[u8]>,
) -> Result<ArrayVec<(u8, u8), MAX_NODES>, LevelRefusal>
    ensures sequence { IfOk result (λ pairs. IsTrue (is_level_sequence pairs.items)) }
    ensures tree { IfOk result (λ pairs. tree_of_words levels.now (option_copied colours.entry) ≡ Ok (tree_of pairs.items)) }
    ensures refused { IfErr result (λ refusal. tree_of_words levels.now (option_copied colours.entry) ≡ Err (refusal_of refusal)) }
{
    let Some(Column { count, numbers }) = read_levels(levels) else {
        return Err(LevelRefusal::BadLevels);
    };
    let Some(colours) = colour_column(colours, count) else {
        return Err(LevelRefusal::BadColours);
    };
    if count > MAX_NODES {
        return Err(LevelRefusal::TooLarge);
    }
    Ok(node_pairs(numbers.as_slice(), colours.as_slice()))
}

/// Reads the canonical sequence of a tree. Without colours each node has colour 0.
pub fn read_code(levels: &[u8], colours: Option<&[u8]>) -> Result<Code, LevelRefusal>
    ensures { result ≡ code_of_words levels.now (option_copied colours.entry) }
{
    match read_pairs(levels, colours) {
        Ok(pairs) => Ok(Code::of_level_sequence(pairs.as_slice())),
        Err(refusal) => Err(refusal),
    }
}

/// Reads a tree. Without colours each node has colour 0. Takes memory for the tree alone, and only where the words
/// describe one.
pub fn read_tree(alloc: Global, levels: &[u8], colours: Option<&[u8]>) -> Result<Tree, LevelFault>
    ensures { MatchResult result (λ t. tree_of_words levels.now (option_copied colours.entry) ≡ Ok t)
        (λ e. Fails e (tree_of_words levels.now (option_copied colours.entry))) }
{
    match read_pairs(levels, colours) {
        Ok(pairs) => match Tree::of_pairs(alloc, pairs.as_slice()) {
            Ok(tree) => Ok(tree),
            Err(AllocError) => Err(LevelFault::Memory(AllocError)),
        },
        Err(refusal) => Err(refusal.into()),
    }
}
