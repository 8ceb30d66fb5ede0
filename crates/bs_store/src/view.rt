//! What the seats of a store know, and how a step changes it. No value of these types but `Size` is ever made.
use atomic_table::{Join, Play, Split, Table, TableRule};
use bs_core::{Held, Table as Entries};
use std::alloc::Global;
use std::collections::LinkedList;
use std::marker::PhantomData;

/// The table of one stripe, with its number.
pub struct Numbered {
    pub number: u16,
    pub table: Entries,
}

/// A pass: its pairs, how many it has gained, and what it reads along.
pub struct Hand {
    pub number: usize,
    pub held: LinkedList<Held>,
    pub gains: u64,
    pub path: LinkedList<Held>,
}

/// What a seat knows.
pub struct View {
    pub tables: LinkedList<Numbered>,
    pub hands: LinkedList<Hand>,
}

/// How many stripes and passes a store has.
#[derive(Drop)]
pub struct Size {
    pub stripes: u16,
    pub passes: usize,
}

/// All views together are one good state.
pub struct Kept;

impl TableRule<(), View, Size> for Kept {
    ghost use Rattle.bs_store.specs.Rule.{Kept, all_of};

    ghost holds = { λ k s. Kept k.stripes k.passes s.views };

    ghost first = { λ k. all_of k.stripes k.passes };
}

pub type Board = Table<(), View, Size, Kept, Global>;

/// The last pass leaves.
pub struct LastHand;

impl Split<View> for LastHand {
    ghost use Rattle.bs_store.specs.Rule.{without_last, last_hand};

    ghost left = { without_last };

    ghost right = { last_hand };
}

/// The first pass leaves.
pub struct FirstHand;

impl Split<View> for FirstHand {
    ghost use Rattle.std.specs.Prelude.{[]};
    ghost use Rattle.bs_store.specs.Rule.{view, rest_of, first_of};

    ghost left = { λ v. view v.tables (rest_of v.hands) };

    ghost right = { λ v. view [] (first_of v.hands) };
}

/// The first table leaves.
pub struct FirstTable;

impl Split<View> for FirstTable {
    ghost use Rattle.std.specs.Prelude.{[]};
    ghost use Rattle.bs_store.specs.Rule.{view, rest_of, first_of};

    ghost left = { λ v. view (rest_of v.tables) v.hands };

    ghost right = { λ v. view (first_of v.tables) [] };
}

/// Two views become one.
pub struct Both;

impl Join<View> for Both {
    ghost use Rattle.bs_store.specs.Rule.{both, nothing};

    ghost both = { both };

    ghost spent = { nothing };
}

/// The view stays, and is a part of a good state.
pub struct Look;

impl Play<(), View> for Look {
    ghost use Rattle.bs_store.specs.Rule.{Looked};

    ghost then = { Looked };
}

/// The event of one change.
pub trait Deed {
    ghost use Rattle.bs_core.specs.declared.event.Event.{Event};

    ghost event: { Event };
}

impl Deed for std::marker::Brand {
    ghost use Rattle.bs_store.specs.Seats.{no_event};

    ghost event = { no_event };
}

/// The step of an event.
pub struct Change<E> {
    deed: PhantomData<E>,
}

impl<E: Deed> Play<(), View> for Change<E> {
    ghost use Rattle.bs_store.specs.Rule.{Changed};

    ghost then = { Changed E.event };
}
