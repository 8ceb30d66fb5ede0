//! One stripe. A contract sees a `Stripe` as the entries by their slots.
ghost use Rattle.std.specs.Prelude.{◌≡◌, ◌<◌, ℕ, [], IsTrue, IsSome, IfOk, IfErr, IfSome, OnOk, OnErr, Some, None, Option, length, false, is_some};
ghost use Rattle.std.specs.HashMap.{get, Updates, IsUnchanged};
ghost use Rattle.std.specs.Vec.{vec_len, vec_capacity};
ghost use Rattle.bs_core.specs.KeyEquality.{same_key};
ghost use Rattle.bs_stripe.specs.Places.{entry_at, find, live, raised, lowered, gives, is_dense, added, new_entry};
ghost use Rattle.bs_stripe.specs.Chains.{entries, IsKept};

use crate::place::{Entry, Place, count_of, empty, fill, is_taken, lower, raise};
use bs_core::Key;
use std::alloc::{AllocError, Global};
use std::collections::HashMap;
use std::marker::Model;

/// The entries of one stripe.
#[derive(Drop)]
pub struct Stripe {
    alloc: Global,
    vacant: Option<u64>,
    places: Vec<Place>,
    slots: HashMap<Key, u64>,
    live: u64,
}

impl Model for Stripe {
    ghost use Rattle.std.specs.Prelude.{List, Option};
    ghost use Rattle.std.specs.HashMap.{get};
    ghost use Rattle.bs_core.specs.KeyEquality.{same_key};
    ghost use Rattle.bs_stripe.specs.declared.place.Entry.{Entry};
    ghost use Rattle.bs_stripe.specs.Chains.{entries, IsKept};

    ghost Value = { List (Option Entry) };

    ghost view = { λ a. entries a.places.items };

    ghost invariant = { λ a. IsKept a.vacant a.places.items (get same_key a.slots) a.live };
}

/// What a release of an entry gives.
#[derive(Drop)]
pub enum Lowered {
    /// The entry stays.
    Kept,
    /// The entry left, and its key.
    Gone(Key),
}

/// No memory for an entry, and its key back.
#[derive(Drop)]
pub struct AddRefused {
    pub key: Key,
    pub fault: AllocError,
}

/// Makes room for one place more, and gives the key its slot.
fn reserve(
    alloc: Global,
    slots: &mut HashMap<Key, u64>,
    places: &mut Vec<Place>,
    key: &Key,
    slot: u64,
) -> Result<(), AllocError>
    ensures places { places.new.items ≡ places.old.items }
    ensures room { OnOk result (vec_len places.new < vec_capacity places.new) }
    ensures ok { OnOk result (Updates same_key slots.old slots.new key.now (Some slot)) }
    ensures err { OnErr result (IsUnchanged slots.old slots.new) }
{
    let copy = key.copy(alloc)?;
    places.reserve(1)?;
    slots.insert(copy, slot)?;
    Ok(())
}

impl Stripe {
    /// The stripe with no entry. Takes no memory.
    pub fn new(alloc: Global) -> Stripe
        ensures { result ≡ [] }
    {
        Stripe {
            alloc,
            vacant: None,
            places: Vec::new(alloc),
            slots: HashMap::new(alloc),
            live: 0,
        }
    }

    /// The slot of the entry that has this key. Takes no memory.
    pub fn find(&self, key: &Key) -> Option<u64>
        ensures value { result ≡ find key.now self.now }
        ensures taken { IfSome result (λ slot. IsSome (entry_at slot self.now)) }
    {
        self.slots.get(key).copied()
    }

    /// Whether a slot has an entry. Takes no memory.
    pub fn has(&self, slot: u64) -> bool
        ensures { result ≡ is_some (entry_at slot self.now) }
    {
        let place = slot as usize;
        place < self.places.len() && is_taken(&self.places[place])
    }

    /// A new entry with count 1, at a vacant slot below the mark, or at the mark where there is none.
    pub fn add(&mut self, key: Key) -> Result<u64, AddRefused>
        requires { find key self.old ≡ None }
        ensures vacant { IfOk result (λ slot. entry_at slot self.old ≡ None) }
        ensures dense { IfOk result (λ slot. IsTrue (is_dense slot self.old)) }
        ensures ok { IfOk result (λ slot. self.new ≡ added slot key self.old) }
        ensures here { IfOk result (λ slot. entry_at slot self.new ≡ new_entry key) }
        ensures err { OnErr result (self.new ≡ self.old) }
        ensures back { IfErr result (λ refused. refused.key ≡ key) }
    {
        match self.vacant {
            Some(slot) => {
                let room = reserve(self.alloc, &mut self.slots, &mut self.places, &key, slot);
                if let Err(fault) = room {
                    return Err(AddRefused { key, fault });
                }
                self.vacant = fill(&mut self.places[slot as usize], Entry { key, count: 1 });
                self.live += 1;
                Ok(slot)
            }
            None => {
                let slot = self.places.len() as u64;
                let room = reserve(self.alloc, &mut self.slots, &mut self.places, &key, slot);
                if let Err(fault) = room {
                    return Err(AddRefused { key, fault });
                }
                let entry = Entry { key, count: 1 };
                self.places.push_reserved(Place::Taken(entry));
                self.live += 1;
                Ok(slot)
            }
        }
    }

    /// The entry of a slot counts one more. A count at its type's end stays. Takes no memory.
    pub fn raise(&mut self, slot: u64)
        requires { IsSome (entry_at slot self.old) }
        ensures { self.new ≡ raised slot self.old }
    {
        raise(&mut self.places[slot as usize]);
    }

    /// The entry of a slot counts one less, and leaves where it counted 1. A count at its type's end stays. Takes no memory.
    pub fn lower(&mut self, slot: u64) -> Lowered
        requires { IsSome (entry_at slot self.old) }
        ensures state { self.new ≡ lowered slot self.old }
        ensures gives { result ≡ gives slot self.old }
    {
        if count_of(&self.places[slot as usize]) != 1 {
            lower(&mut self.places[slot as usize]);
            return Lowered::Kept;
        }
        match empty(&mut self.places[slot as usize], self.vacant) {
            Some(entry) => {
                let _slot = self.slots.remove(&entry.key);
                self.vacant = Some(slot);
                self.live = self.live.saturating_sub(1);
                Lowered::Gone(entry.key)
            }
            None => Lowered::Kept,
        }
    }

    /// The key of the entry of a slot. Takes no memory.
    pub fn key(&self, slot: u64) -> &Key
        requires { IsSome (entry_at slot self.now) }
        ensures { IfSome (entry_at slot self.now) (λ e. result.now ≡ e.key) }
    {
        match &self.places[slot as usize] {
            Place::Taken(entry) => &entry.key,
            Place::Vacant(_) => unreachable!(),
        }
    }

    /// The count of the entry of a slot. Takes no memory.
    pub fn count(&self, slot: u64) -> u64
        requires { IsSome (entry_at slot self.now) }
        ensures { IfSome (entry_at slot self.now) (λ e. result ≡ e.count) }
    {
        count_of(&self.places[slot as usize])
    }

    /// The number of entries. Takes no memory.
    pub fn live(&self) -> u64
        ensures { result ≡ live self.now }
    {
        self.live
    }
}
