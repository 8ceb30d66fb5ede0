//! The places of a stripe: one for each slot below the mark.
ghost use Rattle.std.specs.Prelude.{◌≡◌, is_some};
ghost use Rattle.bs_core.specs.Machine.{one_more};
ghost use Rattle.bs_stripe.specs.Places.{one_less};
ghost use Rattle.bs_stripe.specs.Chains.{entry_in, next_of, raise_in, less_in, count_in};
ghost use Rattle.bs_stripe.specs.declared.place.Place.TheVariants.{Taken, Vacant};

use bs_core::Key;
use std::mem;

/// What a stripe has at a slot.
#[derive(Drop)]
pub struct Entry {
    pub key: Key,
    pub count: u64,
}

/// An entry, or the next vacant slot after this one.
#[derive(Drop)]
pub enum Place {
    Taken(Entry),
    Vacant(Option<u64>),
}

/// The count of the entry of a place; 0, where there is none.
pub(crate) fn count_of(place: &Place) -> u64
    ensures { result ≡ count_in place.now }
{
    match place {
        Place::Taken(entry) => entry.count,
        Place::Vacant(_) => 0,
    }
}

/// Whether a place has an entry.
pub(crate) fn is_taken(place: &Place) -> bool
    ensures { result ≡ is_some (entry_in place.now) }
{
    match place {
        Place::Taken(_) => true,
        Place::Vacant(_) => false,
    }
}

/// One more, but at the type's end.
fn one_more(count: u64) -> u64
    ensures { result ≡ one_more count }
{
    if count == u64::MAX { count } else { count + 1 }
}

/// One less, but at the type's end.
fn one_less(count: u64) -> u64
    ensures { result ≡ one_less count }
{
    if count < u64::MAX {
        count.saturating_sub(1)
    } else {
        count
    }
}

/// The entry of a place counts one more.
pub(crate) fn raise(place: &mut Place)
    ensures { place.new ≡ raise_in place.old }
{
    match place {
        Place::Taken(entry) => {
            entry.count = one_more(entry.count);
        }
        Place::Vacant(_) => {}
    }
}

/// The entry of a place counts one less.
pub(crate) fn lower(place: &mut Place)
    ensures { place.new ≡ less_in place.old }
{
    match place {
        Place::Taken(entry) => {
            entry.count = one_less(entry.count);
        }
        Place::Vacant(_) => {}
    }
}

/// The place has this entry; the slot that was next after it.
pub(crate) fn fill(place: &mut Place, entry: Entry) -> Option<u64>
    ensures place { place.new ≡ Taken entry }
    ensures next { result ≡ next_of place.old }
{
    match mem::replace(place, Place::Taken(entry)) {
        Place::Taken(_) => None,
        Place::Vacant(next) => next,
    }
}

/// The place is vacant; the entry that it had.
pub(crate) fn empty(place: &mut Place, next: Option<u64>) -> Option<Entry>
    ensures place { place.new ≡ Vacant next }
    ensures entry { result ≡ entry_in place.old }
{
    match mem::replace(place, Place::Vacant(next)) {
        Place::Taken(entry) => Some(entry),
        Place::Vacant(_) => None,
    }
}
