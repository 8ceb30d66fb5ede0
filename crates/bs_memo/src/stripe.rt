//! One stripe of remembered values as it lies under its lock, with a pass of its own that holds the names of its entries.
ghost use Rattle.std.specs.Prelude.{◌≡◌, ◌<◌, ◌≤◌, IsTrue};
ghost use Rattle.bs_memo.specs.Entries.{Fits};
ghost use Rattle.bs_memo.specs.Stripes.{stripe_for};

use crate::key::MemoKey;
use bs_core::Name;
use bs_frac::Coef;
use bs_store::{Pass, StoreName};
use lru::LruCache;
use std::marker::{Brand, Model, PhantomData};

/// Tells contracts the tableaux of a memo, beside the table of its store.
pub trait MemoName: StoreName {
    ghost use Rattle.std.specs.Prelude.{List};
    ghost use Rattle.bs_tableau.specs.Table.{Table};

    ghost tables: { List Table };
}

impl MemoName for Brand {
    ghost use Rattle.std.specs.Prelude.{[]};

    ghost tables = { [] };
}

/// What a keep did.
#[derive(Clone, Copy, PartialEq, Eq, Debug)]
pub enum Kept {
    /// The value is in the table.
    Stored,
    /// The table has no room at all.
    Skipped,
}

/// A stripe. Contracts see its number, the number of the memo's stripes, its capacity, its entries, the most recently
/// used first, and its pass.
#[derive(Drop)]
pub struct MemoStripe<N: MemoName> {
    pub(crate) number: usize,
    pub(crate) stripes: usize,
    pub(crate) capacity: usize,
    pub(crate) cache: LruCache<MemoKey, Coef>,
    pub(crate) found: u64,
    pub(crate) pass: Pass,
    pub(crate) name: PhantomData<N>,
}

impl<N: MemoName> Model for MemoStripe<N> {
    ghost use Rattle.std.specs.Prelude.{◌≡◌, ◌≤◌, max, length};
    ghost use Rattle.bs_memo.specs.Entries.{Fits};
    ghost use Rattle.bs_memo.specs.Stripes.{OfStripe};

    ghost Value = { OfStripe };

    ghost view = { λ m. record { number = m.number; stripes = m.stripes; capacity = m.capacity; entries = m.cache.entries; pass = m.pass } };

    ghost invariant = { λ m. (m.pass.store ≡ N.table) × (m.cache.cap ≡ max 1 m.capacity) × (length m.cache.entries ≤ m.capacity) × Fits N.tables m.pass.held m.cache.entries };
}

impl<N: MemoName> MemoStripe<N> {
    /// Nothing. Its pass is of the store of its name, and holds one pair for each entry, with the entry's name, and
    /// nothing else; each value is the written value of the entry's series at the tree that the pass holds.
    pub fn known(&self)
        ensures store { self.now.pass.store ≡ N.table }
        ensures fits { Fits N.tables self.now.pass.held self.now.entries }
    {
        let _pass = &self.pass;
    }

    /// Whether it is the stripe of this number among so many, with this capacity. Takes no memory.
    pub(crate) fn is_at(&self, number: usize, stripes: usize, capacity: usize) -> bool
        ensures number { IsTrue result → self.now.number ≡ number }
        ensures stripes { IsTrue result → self.now.stripes ≡ stripes }
        ensures capacity { IsTrue result → self.now.capacity ≡ capacity }
    {
        self.number == number && self.stripes == stripes && self.capacity == capacity
    }

    /// How many looks found their entry here.
    pub(crate) fn found(&self) -> u64 {
        self.found
    }
}

/// The stripe of a name among so many: so entries of one stripe of the store are spread. Takes no memory.
pub(crate) fn stripe_for(name: Name, stripes: usize) -> usize
    requires some { 0 < stripes }
    requires few { stripes ≤ 256 }
    ensures value { result ≡ stripe_for stripes name }
    ensures small { result < stripes }
{
    (usize::from(name.stripe) + (name.slot % stripes as u64) as usize) % stripes
}
