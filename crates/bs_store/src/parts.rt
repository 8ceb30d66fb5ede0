//! How a store is made: the table and the passes first, and then, under the store's name, a lock for each stripe.
ghost use Rattle.std.specs.Prelude.{◌≡◌, ◌+◌, ◌<◌, ◌≤◌, List, [], ◌∷◌, IfOk, All, vec_len, length};
ghost use Rattle.bs_store.specs.declared.view.Hand.{Hand};
ghost use Rattle.bs_store.specs.declared.view.Numbered.{Numbered};
ghost use Rattle.bs_store.specs.Rule.{view, Known, new_hand, new_numbered, new_hands, new_tables, rest_of};
ghost use Rattle.bs_store.specs.Seats.{new_pass, NewPasses, IsAt};

use crate::pass::Pass;
use crate::room::{Room, StoreName};
use crate::store::Store;
use crate::view::{Board, FirstHand, FirstTable, Look, Size, View};
use atomic_table::{Seat, Table};
use bs_stripe::Stripe;
use std::alloc::{AllocError, Global};
use std::marker::{Model, PhantomData};
use std::sync::Mutex;

/// A stripe with its number and its seat, before the store has a name.
#[derive(Drop)]
pub(crate) struct Desk {
    pub(crate) number: u16,
    pub(crate) stripe: Stripe,
    pub(crate) seat: Seat<(), View>,
}

impl Model for Desk {
    ghost use Rattle.std.specs.Prelude.{◌≡◌, ◌<◌, []};
    ghost use Rattle.bs_stripe.specs.Laws.{kept_of};
    ghost use Rattle.bs_store.specs.Rule.{Known};
    ghost use Rattle.bs_store.specs.Seats.{OfDesk, table_of, first_table};

    ghost Value = { OfDesk };

    ghost view = { λ d. record { table = d.seat.table_id; number = d.number } };

    ghost invariant = { λ d. (d.seat.me.1 ≡ []) × (d.seat.me.0.tables ≡ table_of d.number (first_table d.seat.me.0.tables)) × (d.stripe ≡ kept_of (first_table d.seat.me.0.tables)) × Known d.seat.me.0 × (d.number < d.seat.table_id.words) };
}

/// A store before it has a name. Contracts see its table, and how many stripes and passes it has.
#[derive(Drop)]
pub struct StoreParts {
    alloc: Global,
    board: Board,
    desks: Vec<Desk>,
}

impl Model for StoreParts {
    ghost use Rattle.std.specs.Prelude.{◌≡◌, ◌<◌, ◌≤◌, vec_len, All};
    ghost use Rattle.bs_store.specs.Seats.{OfStore, IsAt};

    ghost Value = { OfStore };

    ghost view = { λ s. record { table = s.board.shared.table_id; stripes = s.board.shared.key.stripes; passes = s.board.shared.key.passes } };

    ghost invariant = { λ s. (0 < s.board.shared.table_id.words) × (s.board.shared.table_id.slots ≡ 0) × (vec_len s.desks ≡ s.board.shared.key.stripes) × (0 < vec_len s.desks) × (vec_len s.desks ≤ 256) × All (IsAt s.board.shared.table_id) s.desks.items };
}

/// The first pass of the maker's view.
fn next_pass(board: &Board, maker: &mut Seat<(), View>, number: usize) -> Pass
    requires board { (maker.old.table_id ≡ board.now.shared.table_id) × (0 < board.now.shared.table_id.words) }
    requires known { Known maker.old.me.0 }
    requires first { (hs : List Hand) × (maker.old.me.0.hands ≡ new_hand number ∷ hs) }
    ensures maker { (maker.new.table_id ≡ maker.old.table_id) × (maker.new.me ≡ (view maker.old.me.0.tables (rest_of maker.old.me.0.hands), maker.old.me.1)) × Known maker.new.me.0 }
    ensures pass { result ≡ new_pass board.now.shared.table_id number }
{
    let seat = board.shared.split_seat::<FirstHand>(maker);
    Pass {
        number,
        badge: seat.into_badge(),
    }
}

/// The first table of the maker's view, with an empty stripe.
fn next_desk(alloc: Global, board: &Board, maker: &mut Seat<(), View>, number: u16) -> Desk
    requires board { (maker.old.table_id ≡ board.now.shared.table_id) × (0 < board.now.shared.table_id.words) }
    requires word { number < board.now.shared.table_id.words }
    requires known { Known maker.old.me.0 }
    requires first { (ts : List Numbered) × (maker.old.me.0.tables ≡ new_numbered number ∷ ts) }
    ensures maker { (maker.new.table_id ≡ maker.old.table_id) × (maker.new.me ≡ (view (rest_of maker.old.me.0.tables) maker.old.me.0.hands, maker.old.me.1)) × Known maker.new.me.0 }
    ensures desk { result ≡ record { table = board.now.shared.table_id; number = number } }
{
    let seat = board.shared.split_seat::<FirstTable>(maker);
    Desk {
        number,
        stripe: Stripe::new(alloc),
        seat,
    }
}

/// All passes of the maker's view, in order.
fn make_passes(
    alloc: Global,
    board: &Board,
    maker: &mut Seat<(), View>,
    passes: usize,
) -> Result<Vec<Pass>, AllocError>
    requires board { (maker.old.table_id ≡ board.now.shared.table_id) × (0 < board.now.shared.table_id.words) }
    requires known { Known maker.old.me.0 }
    requires hands { maker.old.me.0.hands ≡ new_hands 0 passes }
    ensures maker { (maker.new.table_id ≡ maker.old.table_id) × (maker.new.me.0.tables ≡ maker.old.me.0.tables) × (maker.new.me.1 ≡ maker.old.me.1) × Known maker.new.me.0 }
    ensures passes { IfOk result (λ v. (vec_len v ≡ passes) × NewPasses board.now.shared.table_id v.items) }
{
    let mut made = Vec::with_capacity(alloc, passes)?;
    'passes: for number in 0..passes {
        made.push(next_pass(board, maker, number))?;
    }
    Ok(made)
}

/// All tables of the maker's view, in order, each with an empty stripe.
fn make_desks(
    alloc: Global,
    board: &Board,
    maker: &mut Seat<(), View>,
    stripes: u16,
) -> Result<Vec<Desk>, AllocError>
    requires board { (maker.old.table_id ≡ board.now.shared.table_id) × (0 < board.now.shared.table_id.words) }
    requires words { stripes ≤ board.now.shared.table_id.words }
    requires known { Known maker.old.me.0 }
    requires tables { maker.old.me.0.tables ≡ new_tables 0 stripes }
    ensures desks { IfOk result (λ v. (vec_len v ≡ stripes) × All (IsAt board.now.shared.table_id) v.items) }
{
    let mut made = Vec::with_capacity(alloc, usize::from(stripes))?;
    'stripes: for number in 0..stripes {
        made.push(next_desk(alloc, board, maker, number))?;
    }
    Ok(made)
}

impl StoreParts {
    /// The table of a store, and all of its passes: each holds nothing, and the pass at place i has the number i.
    pub fn new(
        alloc: Global,
        stripes: u16,
        passes: usize,
    ) -> Result<(StoreParts, Vec<Pass>), AllocError>
        requires stripes { (0 < stripes) × (stripes ≤ 256) }
        requires passes { (0 < passes) × (passes ≤ 256) }
        ensures parts { IfOk result (λ r. (r.0.stripes ≡ stripes) × (r.0.passes ≡ passes)) }
        ensures passes { IfOk result (λ r. (vec_len r.1 ≡ passes) × NewPasses r.0.table r.1.items) }
    {
        let size = Size { stripes, passes };
        let words = Vec::from_elem(alloc, 0u64, usize::from(stripes))?;
        let (board, mut maker) = Table::of_words(alloc, words.as_slice(), &size)?;
        board.shared.load::<Look>(&mut maker, 0);
        let made = make_passes(alloc, &board, &mut maker, passes)?;
        let desks = make_desks(alloc, &board, &mut maker, stripes)?;
        Ok((
            StoreParts {
                alloc,
                board,
                desks,
            },
            made,
        ))
    }
}

/// A desk under a store's name.
fn room_of<N: StoreName>(desk: Desk) -> Room<N>
    requires { desk.table ≡ N.table }
{
    let Desk {
        number,
        stripe,
        seat,
    } = desk;
    Room {
        number,
        stripe,
        seat,
        name: PhantomData,
    }
}

/// A lock for each desk.
fn lock_all<N: StoreName>(
    alloc: Global,
    desks: Vec<Desk>,
) -> Result<Vec<Mutex<Room<N>>>, AllocError>
    requires { All (IsAt N.table) desks.items }
    ensures { IfOk result (λ v. vec_len v ≡ vec_len desks) }
{
    let mut stripes = Vec::with_capacity(alloc, desks.len())?;
    'desks: for desk in desks {
        stripes.push(Mutex::new(room_of(desk)))?;
    }
    Ok(stripes)
}

impl<N: StoreName> Store<N> {
    /// Puts the stripes under their locks. A refusal hands nothing back.
    pub fn open(parts: StoreParts) -> Result<Store<N>, AllocError>
        requires { parts.table ≡ N.table }
        ensures { IfOk result (λ s. s ≡ parts) }
    {
        let StoreParts {
            alloc,
            board,
            desks,
        } = parts;
        let stripes = lock_all(alloc, desks)?;
        Ok(Store {
            alloc,
            stripes,
            board,
            name: PhantomData,
        })
    }
}
