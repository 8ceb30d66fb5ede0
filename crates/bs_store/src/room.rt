//! One stripe as it lies under its lock, with a seat that knows its table and the passes that are inside.
ghost use Rattle.std.specs.Prelude.{◌≡◌, ◌<◌, ◌≤◌, [], ◌∷◌, ◌++◌, length};
ghost use Rattle.bs_store.specs.Rule.{hands_at, list_in, path_in, Known, view, front, lasts};
ghost use Rattle.bs_store.specs.Closing.{all_entries};
ghost use Rattle.bs_store.specs.Seats.{with_hands, alone, first_hand, Told};

use crate::view::{Board, Both, LastHand, Look, View};
use atomic_table::Seat;
use bs_stripe::Stripe;
use std::marker::{Brand, Model, PhantomData};

/// Tells contracts the table of a store.
pub trait StoreName {
    ghost use Rattle.atomic_table.specs.Seated.{TableId};

    ghost table: { TableId };
}

impl StoreName for Brand {
    ghost use Rattle.bs_store.specs.Seats.{no_store};

    ghost table = { no_store };
}

/// A stripe, its number, and its seat. Contracts see the number, the table with its codes, and the passes inside.
#[derive(Drop)]
pub struct Room<N: StoreName> {
    pub(crate) number: u16,
    pub(crate) stripe: Stripe,
    pub(crate) seat: Seat<(), View>,
    pub(crate) name: PhantomData<N>,
}

impl<N: StoreName> Model for Room<N> {
    ghost use Rattle.std.specs.Prelude.{◌≡◌, ◌<◌, []};
    ghost use Rattle.bs_stripe.specs.Laws.{kept_of};
    ghost use Rattle.bs_store.specs.Rule.{Known};
    ghost use Rattle.bs_store.specs.Seats.{InRoom, table_of, first_table};

    ghost Value = { InRoom };

    ghost view = { λ r. record { number = r.number; table = first_table r.seat.me.0.tables; hands = r.seat.me.0.hands } };

    ghost invariant = { λ r. (r.seat.table_id ≡ N.table) × (r.seat.me.1 ≡ []) × (r.seat.me.0.tables ≡ table_of r.number (first_table r.seat.me.0.tables)) × (r.stripe ≡ kept_of (first_table r.seat.me.0.tables)) × Known r.seat.me.0 × (r.number < N.table.words) };
}

impl<N: StoreName> Room<N> {
    /// The stripe's number.
    pub(crate) fn number(&self) -> u16
        ensures { result ≡ self.now.number }
    {
        self.number
    }

    /// Its seat, and how many entries its stripe has.
    pub(crate) fn into_seat(self) -> (Seat<(), View>, u64)
        ensures seat { (result.0.table_id ≡ N.table) × (result.0.me.1 ≡ []) }
        ensures tables { (length result.0.me.0.tables ≡ 1) × (all_entries result.0.me.0.tables ≡ result.1) }
    {
        let Room {
            number: _,
            stripe,
            seat,
            name: _,
        } = self;
        let live = stripe.live();
        (seat, live)
    }

    /// A pass goes in, as the last one.
    pub(crate) fn enter(&mut self, board: &Board, pass: Seat<(), View>)
        requires board { (board.now.shared.table_id ≡ N.table) × (0 < board.now.shared.table_id.words) }
        requires pass { (pass.table_id ≡ N.table) × (pass.me ≡ (alone (first_hand pass.me.0.hands), [])) }
        ensures room { self.new ≡ with_hands self.old (self.old.hands ++ first_hand pass.me.0.hands ∷ []) }
        ensures inside { 1 ≤ hands_at (first_hand pass.me.0.hands).number self.new.hands }
        ensures held { list_in (first_hand pass.me.0.hands).number self.new.hands ≡ (first_hand pass.me.0.hands).held }
        ensures path { path_in (first_hand pass.me.0.hands).number self.new.hands ≡ (first_hand pass.me.0.hands).path }
        ensures told { Told self.new.hands }
    {
        board.shared.join_seat::<Both>(&mut self.seat, pass);
        board.shared.load::<Look>(&mut self.seat, 0);
    }

    /// The last pass goes out.
    pub(crate) fn leave(&mut self, board: &Board) -> Seat<(), View>
        requires board { (board.now.shared.table_id ≡ N.table) × (0 < board.now.shared.table_id.words) }
        ensures room { self.new ≡ with_hands self.old (front self.old.hands) }
        ensures pass { (result.table_id ≡ N.table) × (result.me ≡ (view [] (lasts self.old.hands), [])) × Known result.me.0 }
    {
        board.shared.split_seat::<LastHand>(&mut self.seat)
    }
}
