//! The edge sums of one tableau that are worked out already.
//!
//! Contracts see a `Memory` as the tableau that it is about: what it remembers changes the time that an answer takes alone.

ghost use Rattle.std.specs.Prelude.{◌≡◌, ℕ, ◌<◌, ◌↔◌, All, IsTrue, IfOk, IfSome, Some, length, slice_get};
ghost use Rattle.bs_frac.specs.Written.{checked};
ghost use Rattle.bs_tree.specs.Code.{child_codes, tree_of};
ghost use Rattle.bs_tree.specs.Tree.{trees};
ghost use Rattle.bs_tableau.specs.WrittenWeight.{written_weight};
ghost use Rattle.bs_weight.specs.Remembered.{AreStageValues, AreEdgeSums};

use crate::elementary::root_sum;
use crate::walk::{Stages, edge_sums, multiply, ones};
use bs_frac::Coef;
use bs_tableau::Tableau;
use bs_tree::Code;
use std::alloc::{AllocError, Global};
use std::marker::Model;

/// The number of slots. Each leads to one entry at most.
const SLOTS: usize = 4096;

/// What stands in a slot that leads to no entry.
const NOWHERE: u16 = u16::MAX;

/// The edge sums of the tree of a code, for each stage of its parent.
#[derive(Drop)]
pub(crate) struct Entry {
    code: Code,
    sums: Stages,
}

/// The edge sums of a tableau, by the codes of their trees: an entry has a slot by its code, and a newer one of the same slot
/// takes its place.
#[derive(Drop)]
pub(crate) struct Memory {
    table: Tableau,
    slots: Vec<u16>,
    entries: Vec<Entry>,
}

impl Model for Memory {
    ghost use Rattle.bs_tableau.specs.Table.{Table};
    ghost use Rattle.bs_weight.specs.Remembered.{AreRemembered};

    ghost Value = { Table };

    ghost view = { λ a. a.table };

    ghost invariant = { λ a. AreRemembered a.table a.entries.items };
}

impl Memory {
    /// No edge sums yet.
    pub(crate) fn new(alloc: Global, table: &Tableau) -> Result<Memory, AllocError>
        ensures { IfOk result (λ memory. memory ≡ table.now) }
    {
        let table = table.try_clone(alloc)?;
        let slots = vec![in alloc; NOWHERE; SLOTS]?;
        Ok(Memory {
            table,
            slots,
            entries: Vec::new(alloc),
        })
    }

    /// Whether it is about this tableau.
    pub(crate) fn is_about(&self, table: &Tableau) -> bool
        ensures { IsTrue result ↔ (self.now ≡ table.now) }
    {
        self.table.same(table)
    }

    /// The place of the entry of a code, if it has one.
    fn place(&self, slot: usize) -> usize {
        match self.slots.get(slot) {
            Some(place) => usize::from(*place),
            None => usize::from(NOWHERE),
        }
    }

    /// The entry of a code, if it has one.
    fn recall(&self, code: &Code) -> Option<&Entry>
        ensures { IfSome result (λ entry. AreEdgeSums self.now code.now entry.now.sums) }
    {
        let place = self.place(slot_of(code));
        let entry = self.entries.get(place)?;
        if entry.code == *code {
            Some(entry)
        } else {
            None
        }
    }

    /// Remembers an entry, unless memory is wanted.
    fn keep(&mut self, entry: Entry)
        requires { AreEdgeSums self.old entry.code entry.sums }
        ensures { self.new ≡ self.old }
    {
        let slot = slot_of(&entry.code);
        let place = self.place(slot);
        let count = self.entries.len();
        if place < count {
            self.entries[place] = entry;
        } else if self.entries.reserve(1).is_ok() {
            self.entries.push_reserved(entry);
            self.lead(slot, count);
        }
    }

    /// Lets a slot lead to this place.
    fn lead(&mut self, slot: usize, place: usize)
        ensures { self.new ≡ self.old }
    {
        if let (Ok(place), Some(there)) = (u16::try_from(place), self.slots.get_mut(slot)) {
            *there = place;
        }
    }

    /// Works the edge sums of a tree out from its stage values.
    fn work_out(&self, code: &Code, values: &Stages) -> Entry
        requires colours { All (λ pair. pair.1 < self.now.colours) code.now }
        requires values { AreStageValues self.now code.now values.now }
        ensures code { result.code ≡ code.now }
        ensures sums { AreEdgeSums self.now code.now result.sums }
    {
        let own = *code;
        let colour = usize::from(code.pairs()[0].1);
        Entry {
            code: own,
            sums: edge_sums(&self.table, colour, values),
        }
    }

    /// The stage values of the tree of a code: at each stage the product of its children's edge sums.
    fn stage_values(&mut self, code: &Code) -> Stages
        requires { All (λ pair. pair.1 < self.old.colours) code.now }
        ensures values { AreStageValues self.old code.now result }
        ensures same { self.new ≡ self.old }
    {
        let stages = self.table.stages();
        let mut values = ones();
        'children: for place in 0..code.arity() {
            let child = child_of(code, place);
            match self.recall(&child) {
                Some(entry) => multiply(stages, &mut values, &entry.sums),
                None => {
                    let below = self.stage_values(&child);
                    let entry = self.work_out(&child, &below);
                    multiply(stages, &mut values, &entry.sums);
                    self.keep(entry);
                }
            }
        }
        values
    }

    /// The elementary weight of the tree of a code.
    pub(crate) fn weight(&mut self, code: &Code) -> Coef
        requires { All (λ pair. pair.1 < self.old.colours) code.now }
        ensures value { result ≡ written_weight checked self.old (tree_of code.now) }
        ensures same { self.new ≡ self.old }
    {
        let values = self.stage_values(code);
        let colour = usize::from(code.pairs()[0].1);
        root_sum(&self.table, colour, &values)
    }
}

/// The code of the child at this place.
fn child_of(code: &Code, place: usize) -> Code
    requires { place < length (child_codes code.now) }
    ensures tree { slice_get (trees (tree_of code.now).below) place ≡ Some (tree_of result) }
    ensures colours { (k : ℕ) → All (λ pair. pair.1 < k) code.now → All (λ pair. pair.1 < k) result }
    ensures smaller { length result < length code.now }
{
    prove!(0 < code.order());
    code.child(place)
}

/// The slot of a code.
fn slot_of(code: &Code) -> usize
    ensures { result < SLOTS }
{
    let mut mixed = 0u64;
    for (level, colour) in code.pairs() {
        let pair = u64::from(*level) << 2 | u64::from(*colour);
        mixed = (mixed ^ pair).wrapping_mul(0x9e37_79b9_7f4a_7c15);
    }
    (mixed >> 40) as usize % SLOTS
}
