//! The trees that a session has named.
//!
//! Contracts see `LiveTrees` as a list of names and trees, each name once; `at name` of it is the tree of a name.
//! Only `insert` takes memory. A call finds its name by the name's hash.
ghost use Rattle.std.specs.Prelude.{◌≡◌, ◌+◌, ℕ, List, [], ◌∷◌, length, Some, None, IsPermutation, OnOk, OnErr, OnSome, IfSome, IfNone, MatchOption};
ghost use Rattle.bs_names.specs.Names.{at, Sets};

use bs_tree::Code;
use indexmap::IndexMap;
use std::alloc::{AllocError, Global};
use std::marker::Model;

/// A tree that a session has named: its number, and its code.
#[derive(Clone, Copy)]
pub struct LiveTree {
    pub number: u32,
    pub code: Code,
}

/// Live trees by their names.
#[derive(Drop)]
pub struct LiveTrees {
    alloc: Global,
    trees: IndexMap<Vec<u8>, LiveTree>,
}

impl Model for LiveTrees {
    ghost use Rattle.std.specs.Prelude.{ℕ, List};
    ghost use Rattle.bs_names.specs.Names.{named};
    ghost use Rattle.bs_names.specs.declared.live.LiveTree.{LiveTree};

    ghost Value = { List (List ℕ × LiveTree) };

    ghost view = { λ a. named (λ k. k.items) a.trees.entries };
}

impl LiveTrees {
    /// No tree. Takes no memory.
    pub fn new(alloc: Global) -> LiveTrees
        ensures { result ≡ [] }
    {
        LiveTrees {
            alloc,
            trees: IndexMap::new(alloc),
        }
    }

    /// The tree of a name. Takes no memory.
    pub fn find(&self, name: &[u8]) -> Option<LiveTree>
        ensures { result ≡ at name.now self.now }
    {
        self.trees.get(name).copied()
    }

    /// Names a tree. Where memory is wanted, nothing has changed.
    pub fn insert(&mut self, name: &[u8], tree: LiveTree) -> Result<(), AllocError>
        requires free { at name.now self.old ≡ None }
        ensures ok { OnOk result (Sets self.old self.new name.now (Some tree)) }
        ensures len { OnOk result (length self.new ≡ length self.old + 1) }
        ensures one_more { OnOk result (IsPermutation ((name.now, tree) ∷ self.old) self.new) }
        ensures err { OnErr result (self.new ≡ self.old) }
    {
        let stored = Vec::from_slice(self.alloc, name)?;
        self.trees.insert(stored, tree)?;
        Ok(())
    }

    /// Takes the tree of a name out, where it has one. Takes no memory.
    pub fn remove(&mut self, name: &[u8]) -> Option<LiveTree>
        ensures value { result ≡ at name.now self.old }
        ensures gone { Sets self.old self.new name.now None }
        ensures len { OnSome result (length self.new + 1 ≡ length self.old) }
        ensures one_less { IfSome result (λ tree. IsPermutation ((name.now, tree) ∷ self.new) self.old) }
        ensures absent { IfNone result (self.new ≡ self.old) }
    {
        self.trees.swap_remove(name)
    }

    /// Takes one tree out, whichever; None where there is none. Takes no memory.
    pub fn pop(&mut self) -> Option<LiveTree>
        ensures taken { MatchOption result (self.old ≡ []) (λ tree. (name : List ℕ) × (at name self.old ≡ Some tree)
            × Sets self.old self.new name None × (length self.new + 1 ≡ length self.old)
            × IsPermutation ((name, tree) ∷ self.new) self.old) }
        ensures empty { IfNone result (self.new ≡ self.old) }
    {
        let (_, tree) = self.trees.pop()?;
        Some(tree)
    }
}
