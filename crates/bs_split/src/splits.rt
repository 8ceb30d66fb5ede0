//! The walk over the splittings of a tree.
//!
//! Contracts see a `Splits` as the list of the items that are left, each a `Split` with its codes. No call takes memory.
ghost use Rattle.std.specs.Prelude.{◌≡◌, ◌+◌, [], ◌∷◌, MatchOption, None};
ghost use Rattle.bs_split.specs.Splitting.{split_codes};

use crate::walk::{keep_next, last_cut, rooted};
use bs_steps::Steps;
use bs_tree::{Code, CodeList, MAX_NODES};
use std::marker::Model;
use std::sync::ledger::Ledger;

/// One splitting of a tree.
#[derive(Clone, Copy)]
pub struct Split {
    /// The code of what is kept.
    pub kept: Option<Code>,
    /// The codes of the trees that are cut off, by their roots in preorder.
    pub forest: CodeList,
}

/// Where the walk stands.
#[derive(Clone, Copy)]
enum Stage {
    /// Before the item that keeps nothing.
    Whole,
    /// Before the item that keeps the nodes of the word.
    Rooted,
    /// Behind the last item.
    Done,
}

/// The splittings of a tree that are left, one after the other.
#[derive(Drop)]
pub struct Splits {
    code: Code,
    kept: [bool; MAX_NODES],
    stage: Stage,
}

impl Model for Splits {
    ghost use Rattle.std.specs.Prelude.{ℕ, List, ◌≡◌, length};
    ghost use Rattle.bs_tree.specs.declared.TheConstants.{MAX_NODES};
    ghost use Rattle.bs_split.specs.Splitting.{SplitCodes};
    ghost use Rattle.bs_split.specs.Walk.{left};

    ghost Value = { List SplitCodes };

    ghost view = { λ a. left a.stage a.code a.kept };

    ghost invariant = { λ a. length a.kept ≡ MAX_NODES };
}

impl Splits {
    /// All splittings of the tree: first the one that keeps nothing, then those that keep the root, a cut before a keep
    /// and the choice at the root's first child varying slowest.
    pub fn new(code: Code) -> Splits
        ensures { result ≡ split_codes code }
    {
        Splits {
            code,
            kept: [false; MAX_NODES],
            stage: Stage::Whole,
        }
    }

    /// The next splitting. `None` after the last. Counts one step for each splitting.
    pub fn next<L: Ledger>(&mut self, steps: &mut Steps<L>) -> Option<Split>
        ensures item { MatchOption result ((self.old ≡ []) × (self.new ≡ [])) (λ item. self.old ≡ record { kept = item.kept; forest = item.forest } ∷ self.new) }
        ensures counted { MatchOption result (steps.new ≡ steps.old) (λ _. steps.new ≡ steps.old + 1) }
    {
        let item = match self.stage {
            Stage::Whole => {
                self.kept = [false; MAX_NODES];
                self.stage = Stage::Rooted;
                whole(self.code)
            }
            Stage::Rooted => {
                let item = rooted(&self.code, &self.kept);
                match last_cut(&self.code, &self.kept) {
                    Some(node) => keep_next(&mut self.kept, node),
                    None => self.stage = Stage::Done,
                }
                item
            }
            Stage::Done => return None,
        };
        steps.tick();
        Some(item)
    }
}

/// The item that keeps nothing.
fn whole(code: Code) -> Split
    ensures kept { result.kept ≡ None }
    ensures forest { result.forest ≡ code ∷ [] }
{
    let mut forest = CodeList::new();
    forest.push(code);
    Split { kept: None, forest }
}
