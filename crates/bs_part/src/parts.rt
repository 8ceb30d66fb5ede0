//! The walk over the partitions of a tree.
//!
//! Contracts see a `Parts` as the list of the items that are left, each a `Part` with its codes. No call takes memory. An
//! item of a tree of n nodes takes about n^2 steps, and there are 2^(n-1) items. From one item to the next only the parts
//! are made again that the edges changed may be in.
ghost use Rattle.std.specs.Prelude.{◌≡◌, ◌+◌, [], ◌∷◌, MatchOption};
ghost use Rattle.bs_part.specs.Partition.{part_codes};

use crate::walk::{cut_next, ends_of, forget, last_kept, part_of};
use bs_steps::Steps;
use bs_tree::{Code, CodeList, MAX_NODES};
use std::marker::Model;
use std::sync::ledger::Ledger;

/// One partition of a tree.
#[derive(Clone, Copy)]
pub struct Part {
    /// The code of the skeleton: one node of colour 0 for each part, below the part that the edge to it was cut from.
    pub skeleton: Code,
    /// The codes of the parts, by their roots in preorder, so the part that holds the root is first.
    pub parts: CodeList,
}

/// The partitions of a tree that are left, one after the other.
#[derive(Drop)]
pub struct Parts {
    code: Code,
    kept: [bool; MAX_NODES],
    ends: [usize; MAX_NODES],
    known: [Option<Code>; MAX_NODES],
    done: bool,
}

impl Model for Parts {
    ghost use Rattle.std.specs.Prelude.{ℕ, List, ◌≡◌, length};
    ghost use Rattle.bs_tree.specs.declared.TheConstants.{MAX_NODES};
    ghost use Rattle.bs_part.specs.Known.{AreEnds, AreKnown};
    ghost use Rattle.bs_part.specs.Partition.{PartCodes};
    ghost use Rattle.bs_part.specs.Walk.{left};

    ghost Value = { List PartCodes };

    ghost view = { λ a. left a.done a.code a.kept };

    ghost invariant = { λ a. (length a.kept ≡ MAX_NODES) × (length a.ends ≡ MAX_NODES) × (length a.known ≡ MAX_NODES)
        × AreEnds a.code a.ends × AreKnown a.code a.kept a.known };
}

impl Parts {
    /// All partitions of the tree: each edge is kept before it is cut, and the choice at the second node varies slowest.
    pub fn new(code: Code) -> Parts
        ensures { result ≡ part_codes code }
    {
        let ends = ends_of(&code);
        Parts {
            code,
            kept: [true; MAX_NODES],
            ends,
            known: [None; MAX_NODES],
            done: false,
        }
    }

    /// The next partition. `None` after the last. Counts one step for each partition.
    pub fn next<L: Ledger>(&mut self, steps: &mut Steps<L>) -> Option<Part>
        ensures item { MatchOption result ((self.old ≡ []) × (self.new ≡ [])) (λ item. self.old ≡ record { skeleton = item.skeleton; parts = item.parts } ∷ self.new) }
        ensures counted { MatchOption result (steps.new ≡ steps.old) (λ _. steps.new ≡ steps.old + 1) }
    {
        if self.done {
            return None;
        }
        let item = part_of(&self.code, &self.kept, &mut self.known);
        match last_kept(&self.code, &self.kept) {
            Some(node) => {
                cut_next(&mut self.kept, node);
                forget(&mut self.known, &self.ends, node);
            }
            None => self.done = true,
        }
        steps.tick();
        Some(item)
    }
}
