//! A pass that reads: it goes in and out of rooms, and stands on a path of pairs meanwhile.
//!
//! The path keeps the entries that are still to be read: each of its pairs but the first is a link of the entry of an earlier one.
ghost use Rattle.std.specs.Prelude.{◌≡◌, ◌+◌, ◌<◌, ◌≤◌, ◌++◌, [], ◌∷◌, length};
ghost use Rattle.arrayvec.specs.ArrayVec.{array_vec_len};
ghost use Rattle.bs_tree.specs.Code.{root_colour};
ghost use Rattle.bs_core.specs.Codes.{children};
ghost use Rattle.bs_core.specs.Machine.{times, code_at};
ghost use Rattle.bs_store.specs.Rule.{Known, both, front, lasts, links_at, pathed, without_last};
ghost use Rattle.bs_store.specs.Seats.{IsPass, alone, hand, first_hand, first_table, hand_of, table_of, with_hands};
ghost use Rattle.bs_store.specs.Reading.{There, entered, backwards, step_on, Looks, IsReader};
ghost use Rattle.bs_store.specs.Walks.{Sound};

use crate::room::{Room, StoreName};
use crate::store::Store;
use crate::view::{Board, Look, View};
use crate::walk_read::{Pending, push_backwards};
use arrayvec::ArrayVec;
use atomic_table::{Badge, Join, Seat, Split};
use bs_core::Name;
use bs_tree::MAX_NODES;
use std::marker::{Brand, Model, PhantomData};
use std::mem;

/// The path of a step.
pub trait OnPath {
    ghost use Rattle.std.specs.Prelude.{List};
    ghost use Rattle.bs_core.specs.declared.table.Held.{Held};

    ghost path: { List Held };
}

impl OnPath for Brand {
    ghost use Rattle.std.specs.Prelude.{[]};

    ghost path = { [] };
}

/// A pass comes in, and stands on this path.
pub struct EnterOn<E> {
    path: PhantomData<E>,
}

impl<E: OnPath> Join<View> for EnterOn<E> {
    ghost use Rattle.std.specs.Prelude.{map};
    ghost use Rattle.bs_store.specs.Rule.{both, nothing, pathed, view};

    ghost both = { λ v w. both v (view w.tables (map (pathed E.path) w.hands)) };

    ghost spent = { nothing };
}

/// The last pass leaves, and stands on this path.
pub struct LeaveOn<E> {
    path: PhantomData<E>,
}

impl<E: OnPath> Split<View> for LeaveOn<E> {
    ghost use Rattle.std.specs.Prelude.{[], map};
    ghost use Rattle.bs_store.specs.Rule.{lasts, pathed, view, without_last};

    ghost left = { without_last };

    ghost right = { λ v. view [] (map (pathed E.path) (lasts v.hands)) };
}

/// A pass that reads. Contracts see the pass, and the pairs that it stands on.
#[derive(Drop)]
pub struct Reader {
    pub(crate) number: usize,
    pub(crate) badge: Badge<View>,
}

impl Model for Reader {
    ghost use Rattle.bs_store.specs.Seats.{hand_of};
    ghost use Rattle.bs_store.specs.Reading.{OfReader, IsReader, of_hand};

    ghost Value = { OfReader };

    ghost view = { λ r. of_hand r.badge.table_id r.number (hand_of r.badge.views) };

    ghost invariant = { λ r. IsReader r.number r.badge.views };
}

impl Reader {
    /// Nothing. It says that among what the pass holds, and on the path, names and trees determine each other.
    pub(crate) fn known(&self)
        ensures held { Sound self.now.pass.held }
        ensures path { Sound self.now.path }
    {
        let _badge = &self.badge;
    }

    /// Its seat in rest, where it stands on no path.
    pub(crate) fn into_badge(self) -> Badge<View>
        requires { self.path ≡ [] }
        ensures pass { IsPass self.pass.number result.views }
        ensures store { result.table_id ≡ self.pass.store }
        ensures hand { hand_of result.views ≡ hand self.pass.number self.pass.held self.pass.gains }
    {
        let Reader { number: _, badge } = self;
        badge
    }
}

/// The seat of a pass that reads. None is left in its place.
fn take_reading(number: usize, badge: &mut Badge<View>) -> Seat<(), View>
    requires { IsReader number badge.old.views }
    ensures { (result.table_id ≡ badge.old.table_id) × (result.me ≡ (alone (hand_of badge.old.views), [])) }
{
    mem::replace(badge, Badge::blank()).into_seat::<()>()
}

/// A seat takes in that of a pass, which stands on its path; where it has none, on the held pair of this name.
fn enter_seat<E: OnPath>(
    board: &Board,
    seat: &mut Seat<(), View>,
    pass: Seat<(), View>,
    _name: Name,
)
    requires board { (seat.old.table_id ≡ board.now.shared.table_id) × (pass.table_id ≡ board.now.shared.table_id) × (0 < board.now.shared.table_id.words) }
    requires pass { pass.me ≡ (alone (first_hand pass.me.0.hands), []) }
    requires there { There _name (first_hand pass.me.0.hands).held (first_hand pass.me.0.hands).path }
    requires path { E.path ≡ entered _name (first_hand pass.me.0.hands).held (first_hand pass.me.0.hands).path }
    ensures same { (seat.new.table_id ≡ seat.old.table_id) × (seat.new.me.1 ≡ seat.old.me.1) }
    ensures joined { seat.new.me.0 ≡ both seat.old.me.0 (alone (pathed E.path (first_hand pass.me.0.hands))) }
    ensures known { Known seat.new.me.0 }
{
    board.shared.join_seat::<EnterOn<E>>(seat, pass);
    board.shared.load::<Look>(seat, 0);
}

/// The last pass of a seat leaves after a look, on the path that is left to read.
fn leave_seat<E: OnPath>(
    board: &Board,
    seat: &mut Seat<(), View>,
    _name: Name,
    _pending: &ArrayVec<Pending, MAX_NODES>,
) -> Seat<(), View>
    requires board { (seat.old.table_id ≡ board.now.shared.table_id) × (0 < board.now.shared.table_id.words) }
    requires known { Known seat.old.me.0 }
    requires table { seat.old.me.0.tables ≡ table_of _name.stripe (first_table seat.old.me.0.tables) }
    requires last { lasts seat.old.me.0.hands ≡ first_hand (lasts seat.old.me.0.hands) ∷ [] }
    requires there { 0 < times _name (first_hand (lasts seat.old.me.0.hands)).path }
    requires path { E.path ≡ step_on _name _pending.now.items (first_table seat.old.me.0.tables) (first_hand (lasts seat.old.me.0.hands)) }
    ensures same { (seat.new.table_id ≡ seat.old.table_id) × (seat.new.me ≡ (without_last seat.old.me.0, seat.old.me.1)) }
    ensures pass { (result.table_id ≡ seat.old.table_id) × (result.me ≡ (alone (pathed E.path (first_hand (lasts seat.old.me.0.hands))), [])) }
    ensures known { Known result.me.0 }
{
    board.shared.split_seat::<LeaveOn<E>>(seat)
}

impl<N: StoreName> Room<N> {
    /// A pass that reads comes in, as the last one.
    fn enter_reading(&mut self, board: &Board, pass: Seat<(), View>, name: Name)
        requires board { (board.now.shared.table_id ≡ N.table) × (0 < board.now.shared.table_id.words) }
        requires pass { (pass.table_id ≡ N.table) × (pass.me ≡ (alone (first_hand pass.me.0.hands), [])) }
        requires there { There name (first_hand pass.me.0.hands).held (first_hand pass.me.0.hands).path }
        ensures { self.new ≡ with_hands self.old (self.old.hands ++ pathed (entered name (first_hand pass.me.0.hands).held (first_hand pass.me.0.hands).path) (first_hand pass.me.0.hands) ∷ []) }
    {
        enter_seat::<Brand>(board, &mut self.seat, pass, name);
    }

    /// The colour of the entry of a name on the path of the last pass. Its links are put last, in inverse order.
    fn look(&self, next: Pending, pending: &mut ArrayVec<Pending, MAX_NODES>) -> u8
        requires stripe { next.name.stripe ≡ self.now.number }
        requires last { lasts self.now.hands ≡ first_hand (lasts self.now.hands) ∷ [] }
        requires there { 0 < times next.name (first_hand (lasts self.now.hands)).path }
        requires depth { next.depth < MAX_NODES }
        requires room { array_vec_len pending.old + length (children (code_at next.name (first_hand (lasts self.now.hands)).path)) ≤ MAX_NODES }
        ensures colour { result ≡ root_colour (code_at next.name (first_hand (lasts self.now.hands)).path) }
        ensures all { length (links_at next.name.slot self.now.table.entries) ≡ length (children (code_at next.name (first_hand (lasts self.now.hands)).path)) }
        ensures links { pending.new.items ≡ pending.old.items ++ backwards (next.depth + 1) (links_at next.name.slot self.now.table.entries) }
    {
        let _seat = &self.seat;
        let key = self.stripe.key(next.name.slot);
        push_backwards(pending, key.children(), next.depth + 1);
        key.colour()
    }

    /// The last pass goes out after a look, on the path that is left to read.
    fn leave_reading(
        &mut self,
        board: &Board,
        name: Name,
        pending: &ArrayVec<Pending, MAX_NODES>,
    ) -> Seat<(), View>
        requires board { (board.now.shared.table_id ≡ N.table) × (0 < board.now.shared.table_id.words) }
        requires stripe { name.stripe ≡ self.old.number }
        requires last { lasts self.old.hands ≡ first_hand (lasts self.old.hands) ∷ [] }
        requires there { 0 < times name (first_hand (lasts self.old.hands)).path }
        ensures room { self.new ≡ with_hands self.old (front self.old.hands) }
        ensures pass { (result.table_id ≡ N.table) × (result.me ≡ (alone (pathed (step_on name pending.now.items self.old.table (first_hand (lasts self.old.hands))) (first_hand (lasts self.old.hands))), [])) × Known result.me.0 }
    {
        leave_seat::<Brand>(board, &mut self.seat, name, pending)
    }
}

/// Looks at the entry of a name on the path, in its stripe's room, which is lent.
pub(crate) fn look_in<N: StoreName>(
    store: &Store<N>,
    room: &mut Room<N>,
    reader: &mut Reader,
    next: Pending,
    pending: &mut ArrayVec<Pending, MAX_NODES>,
) -> u8
    requires own { reader.old.pass.store ≡ store.now.table }
    requires stripe { next.name.stripe ≡ room.old.number }
    requires there { There next.name reader.old.pass.held reader.old.path }
    requires depth { next.depth < MAX_NODES }
    requires room { array_vec_len pending.old + length (children (code_at next.name (entered next.name reader.old.pass.held reader.old.path))) ≤ MAX_NODES }
    ensures room { room.new.number ≡ room.old.number }
    ensures colour { result ≡ root_colour (code_at next.name (entered next.name reader.old.pass.held reader.old.path)) }
    ensures looks { Looks next (code_at next.name (entered next.name reader.old.pass.held reader.old.path)) pending.old.items pending.new.items (entered next.name reader.old.pass.held reader.old.path) reader.new.path }
    ensures pass { reader.new.pass ≡ reader.old.pass }
{
    let number = reader.number;
    let seat = take_reading(number, &mut reader.badge);
    room.enter_reading(&store.board, seat, next.name);
    let colour = room.look(next, pending);
    let seat = room.leave_reading(&store.board, next.name, pending);
    reader.badge = seat.into_badge();
    colour
}
