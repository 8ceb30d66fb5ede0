//! What a state of the store is made of: pairs, entries, and the table of each stripe.
ghost use Rattle.std.specs.Prelude.{◌≡◌, ◌+◌, ◌<◌, ◌^◌, ◌==◌, ◌&&◌, ◌++◌, [], ◌∷◌, nat_lt, IsTrue, length, IfOk, OnOk, OnErr, slice_index_or};
ghost use Rattle.std.specs.List.{position, remove};
ghost use Rattle.bs_tree.specs.Code.{same_code, child_codes};
ghost use Rattle.bs_core.specs.Machine.{linked, freed, freed_by, no_table, is_dense, may_enter, added, raised, lowered, one_more, raise_in, lower_in, slots, codes, is_entry, is_full_below};
ghost use Rattle.bs_core.specs.declared.table.Entry.{Entry};

use crate::name::Name;
use crate::names::Names;
use bs_tree::Code;
use std::alloc::{AllocError, Global};
use std::marker::Model;

/// A name that a party holds, with the code that it stands for.
#[derive(Clone, Copy)]
pub struct Held {
    pub name: Name,
    pub code: Code,
}

/// An entry of a stripe: links are the names of the root's children, in the order of the code.
#[derive(Drop)]
pub struct Entry {
    pub slot: u64,
    pub code: Code,
    pub links: Names,
    pub count: u64,
}

/// The entries of a stripe. A contract sees the list of them.
#[derive(Drop)]
pub struct Entries {
    items: Vec<Entry>,
}

impl Model for Entries {
    ghost use Rattle.std.specs.Prelude.{List};
    ghost use Rattle.bs_core.specs.declared.table.Entry.{Entry};

    ghost Value = { List Entry };

    ghost view = { λ a. a.items.items };
}

/// The table of a stripe: no entry has had a slot at the mark or above.
#[derive(Drop)]
pub struct Table {
    pub mark: u64,
    pub entries: Entries,
}

/// One more, but at the type's end.
fn one_more(count: u64) -> u64
    ensures { result ≡ one_more count }
{
    if count == u64::MAX { count } else { count + 1 }
}

/// Takes the entry at this place out.
fn take_out(entries: &mut Vec<Entry>, place: usize)
    requires { place < length entries.old.items }
    ensures { entries.new.items ≡ remove entries.old.items place }
{
    let _gone = entries.remove(place);
}

/// The place of the first entry of this code.
fn place_of_code(entries: &[Entry], code: &Code) -> Option<usize>
    ensures { result ≡ position (λ e. same_code code.now e.code) entries.now }
{
    entries.iter().position(|entry| *code == entry.code)
}

/// The place of the first entry of this slot and this code.
fn place_of_entry(entries: &[Entry], slot: u64, code: &Code) -> Option<usize>
    ensures { result ≡ position (λ e. (slot == e.slot) && same_code code.now e.code) entries.now }
{
    entries
        .iter()
        .position(|entry| slot == entry.slot && *code == entry.code)
}

/// The links of an entry with the codes of the children.
fn links_of(alloc: Global, names: &[Name], code: &Code) -> Result<Vec<Held>, AllocError>
    ensures { IfOk result (λ pairs. pairs.items ≡ linked names.now (child_codes code.now)) }
{
    let mut pairs = Vec::new(alloc);
    let arity = code.arity();
    'links: for place in 0..names.len() {
        if place >= arity {
            return Ok(pairs);
        }
        let name = names[place];
        let child = code.child(place);
        pairs.push(Held { name, code: child })?;
    }
    Ok(pairs)
}

impl Table {
    /// The table with no entry. Takes no memory.
    pub fn new(alloc: Global) -> Table
        ensures { result ≡ no_table }
    {
        Table {
            mark: 0,
            entries: Entries::new(alloc),
        }
    }

    /// Whether the slot is below the mark, or is the mark while each slot below it has an entry.
    pub fn is_dense(&self, slot: u64) -> bool
        ensures { result ≡ is_dense slot self.now }
    {
        slot < self.mark || slot == self.mark && self.entries.is_full_below(self.mark)
    }

    /// Whether an Intern of this code may have this slot.
    pub fn may_enter(&self, slot: u64, code: &Code) -> bool
        ensures { result ≡ may_enter slot code.now self.now }
    {
        if self.entries.has_entry(slot, code) {
            return true;
        }
        !self.entries.has_code(code) && !self.entries.has_slot(slot) && self.is_dense(slot)
    }

    /// A new entry at a dense slot, with count 1.
    pub fn add(&mut self, slot: u64, code: &Code, links: Names) -> Result<(), AllocError>
        requires { IsTrue (is_dense slot self.old) }
        ensures ok { OnOk result (self.new ≡ added slot code.now links self.old) }
        ensures err { OnErr result (self.new ≡ self.old) }
    {
        let at_mark = slot == self.mark;
        self.entries.push(Entry {
            slot,
            code: *code,
            links,
            count: 1,
        })?;
        if at_mark {
            self.mark = slot + 1;
        }
        Ok(())
    }

    /// The links of the entry of this slot, with the children's codes, where its count is 1; else none.
    pub fn freed(&self, alloc: Global, slot: u64) -> Result<Vec<Held>, AllocError>
        ensures { IfOk result (λ pairs. pairs.items ≡ freed slot self.now.entries) }
    {
        match self.entries.place_of(slot) {
            Some(place) => self.entries.freed_at(alloc, place),
            None => Ok(Vec::new(alloc)),
        }
    }

    /// One more at the entry of this slot.
    pub fn raise(&mut self, slot: u64)
        ensures { self.new ≡ raised slot self.old }
    {
        self.entries.raise(slot);
    }

    /// One less at the entry of this slot.
    pub fn lower(&mut self, slot: u64)
        ensures { self.new ≡ lowered slot self.old }
    {
        self.entries.lower(slot);
    }
}

impl Entries {
    /// No entries. Takes no memory.
    pub fn new(alloc: Global) -> Entries
        ensures { result ≡ [] }
    {
        Entries {
            items: Vec::new(alloc),
        }
    }

    pub fn len(&self) -> usize
        ensures value { result ≡ length self.now }
        ensures small { result < 2 ^ 63 }
    {
        self.items.len()
    }

    /// Whether there is no entry.
    pub fn is_empty(&self) -> bool
        ensures { result ≡ (length self.now == 0) }
    {
        self.items.is_empty()
    }

    /// Puts the entry last.
    pub(crate) fn push(&mut self, entry: Entry) -> Result<(), AllocError>
        ensures ok { OnOk result (self.new ≡ self.old ++ entry ∷ []) }
        ensures err { OnErr result (self.new ≡ self.old) }
        ensures small { length self.old < 2 ^ 63 }
    {
        self.items.push(entry)?;
        Ok(())
    }

    /// The place of the first entry of this slot.
    pub(crate) fn place_of(&self, slot: u64) -> Option<usize>
        ensures { result ≡ position (λ e. slot == e.slot) self.now }
    {
        self.items.iter().position(|entry| slot == entry.slot)
    }

    /// The links of the entry at this place, with the children's codes, where its count is 1; else none.
    fn freed_at(&self, alloc: Global, place: usize) -> Result<Vec<Held>, AllocError>
        requires { place < length self.now }
        ensures { IfOk result (λ pairs. (d : Entry) → pairs.items ≡ freed_by (slice_index_or self.now place d)) }
    {
        let entry = &self.items[place];
        if entry.count == 1 {
            links_of(alloc, entry.links.as_slice(), &entry.code)
        } else {
            Ok(Vec::new(alloc))
        }
    }

    /// Whether an entry has this slot.
    pub fn has_slot(&self, slot: u64) -> bool
        ensures { result ≡ nat_lt 0 (slots slot self.now) }
    {
        self.place_of(slot).is_some()
    }

    /// Whether an entry has this code.
    pub fn has_code(&self, code: &Code) -> bool
        ensures { result ≡ nat_lt 0 (codes code.now self.now) }
    {
        place_of_code(&self.items, code).is_some()
    }

    /// Whether an entry has this slot and this code.
    pub fn has_entry(&self, slot: u64, code: &Code) -> bool
        ensures { result ≡ is_entry slot code.now self.now }
    {
        place_of_entry(&self.items, slot, code).is_some()
    }

    /// Whether each slot below this one has an entry.
    pub fn is_full_below(&self, slot: u64) -> bool
        ensures { result ≡ is_full_below slot self.now }
    {
        'slots: for below in 0..slot {
            if !self.has_slot(below) {
                return false;
            }
        }
        true
    }

    /// Counts one more at the entries of this slot. A count at its type's end stays.
    pub(crate) fn raise(&mut self, slot: u64)
        ensures { self.new ≡ raise_in slot self.old }
    {
        'entries: for place in 0..self.items.len() {
            if slot == self.items[place].slot {
                self.items[place].count = one_more(self.items[place].count);
            }
        }
    }

    /// Counts one less at the first entry of this slot, which leaves where it counted 1. A count at its type's end stays.
    pub(crate) fn lower(&mut self, slot: u64)
        ensures { self.new ≡ lower_in slot self.old }
    {
        if let Some(place) = self.place_of(slot) {
            let count = self.items[place].count;
            if count == 1 {
                take_out(&mut self.items, place);
            } else if count != u64::MAX {
                self.items[place].count = count.saturating_sub(1);
            }
        }
    }
}
