//! A list of pairs (level, colour), kept in place.
//!
//! Contracts see a `Pairs` as the list of its pairs. No call takes memory.
ghost use Rattle.std.specs.Prelude.{◌≡◌, ℕ, ◌+◌, ◌<◌, ◌≤◌, ◌++◌, [], ◌∷◌, length, map, All};
ghost use Rattle.bs_tree.specs.Code.{deeper};
ghost use Rattle.bs_tree.specs.Insertion.{from_level, inserted};
ghost use Rattle.bs_tree.specs.Subtrees.{raised};

use crate::MAX_NODES;
use crate::insertion::insert_each;
use std::marker::Model;

/// At most MAX_NODES pairs, in place.
#[derive(Clone, Copy)]
pub struct Pairs {
    len: usize,
    nodes: [(u8, u8); MAX_NODES],
}

impl Model for Pairs {
    ghost use Rattle.std.specs.Prelude.{◌≡◌, ℕ, List, ◌-◌, ◌<◌, ◌≤◌, ◌++◌, take, drop, length, replicate};
    ghost use Rattle.bs_tree.specs.CodeBack.{pairs_back};
    ghost use Rattle.bs_tree.specs.declared.TheConstants.{MAX_NODES};

    ghost Value = { List (ℕ × ℕ) };

    ghost view = { λ a. take a.len a.nodes };

    ghost invariant = { λ a. (length a.nodes ≡ MAX_NODES) × (a.len ≤ MAX_NODES) × (drop a.len a.nodes ≡ replicate (MAX_NODES - a.len) (0, 0)) };

    ghost inverse = { λ v. record { len = length v; nodes = v ++ replicate (MAX_NODES - length v) (0, 0) } };

    ghost inverse_ok = { λ a h. pairs_back a.len a.nodes h.0 h.1 h.2 };
}

impl Pairs {
    /// The list with no pair.
    pub fn new() -> Pairs
        ensures { result ≡ [] }
    {
        Pairs {
            len: 0,
            nodes: [(0, 0); MAX_NODES],
        }
    }

    /// Puts the pair last.
    pub fn push(&mut self, pair: (u8, u8))
        requires { length self.old < MAX_NODES }
        ensures { self.new ≡ self.old ++ pair ∷ [] }
    {
        self.nodes[self.len] = pair;
        self.len += 1;
    }

    /// The pairs in order.
    pub fn as_slice(&self) -> &[(u8, u8)]
        ensures value { result.now ≡ self.now }
        ensures small { length result.now ≤ MAX_NODES }
    {
        &self.nodes[..self.len]
    }

    /// Appends the pairs, each one level deeper.
    pub(crate) fn push_deeper(&mut self, pairs: &[(u8, u8)])
        requires room { length self.old + length pairs.now ≤ MAX_NODES }
        requires levels { All (λ p. p.0 < 255) pairs.now }
        ensures { self.new ≡ self.old ++ deeper pairs.now }
    {
        'pairs: for pair in pairs {
            self.push((pair.0 + 1, pair.1));
        }
    }

    /// Appends the pairs, each one level higher.
    pub(crate) fn push_raised(&mut self, pairs: &[(u8, u8)])
        requires room { length self.old + length pairs.now ≤ MAX_NODES }
        requires levels { All (λ p. 0 < p.0) pairs.now }
        ensures { self.new ≡ self.old ++ raised pairs.now }
    {
        'pairs: for pair in pairs {
            self.push((pair.0 - 1, pair.1));
        }
    }

    /// Appends the pairs, their levels counted from 1 for this root's.
    pub(crate) fn push_from(&mut self, root: u8, pairs: &[(u8, u8)])
        requires room { length self.old + length pairs.now ≤ MAX_NODES }
        requires levels { All (λ p. (root ≤ p.0) × (p.0 < root + 255)) pairs.now }
        ensures { self.new ≡ self.old ++ from_level root pairs.now }
    {
        'pairs: for pair in pairs {
            self.push((pair.0 - root + 1, pair.1));
        }
    }

    /// Puts the tree of each node behind the greater ones of those that follow it below the same parent.
    pub(crate) fn insert_each(&mut self)
        ensures { self.new ≡ inserted self.old }
    {
        insert_each(&mut self.nodes[..self.len]);
    }
}
