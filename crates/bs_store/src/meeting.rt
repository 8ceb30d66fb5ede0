//! Two passes meet: afterwards their names are known to agree.
ghost use Rattle.std.specs.Prelude.{◌≡◌, ◌<◌, []};
ghost use Rattle.bs_store.specs.Rule.{Known};
ghost use Rattle.bs_store.specs.Seats.{AgreeBoth, alone, first_hand};

use crate::pass::{Pass, take_seat};
use crate::view::{Board, Both, LastHand, Look, View};
use atomic_table::Seat;

/// The first seat takes in the second, looks, and gives it back.
fn meet_seats(
    board: &Board,
    a: Seat<(), View>,
    b: Seat<(), View>,
) -> (Seat<(), View>, Seat<(), View>)
    requires board { (a.table_id ≡ board.now.shared.table_id) × (b.table_id ≡ board.now.shared.table_id) × (0 < board.now.shared.table_id.words) }
    requires first { a.me ≡ (alone (first_hand a.me.0.hands), []) }
    requires second { b.me ≡ (alone (first_hand b.me.0.hands), []) }
    ensures first { (result.0.table_id ≡ a.table_id) × (result.0.me ≡ a.me) × Known a.me.0 }
    ensures second { (result.1.table_id ≡ b.table_id) × (result.1.me ≡ b.me) × Known b.me.0 }
    ensures agree { AgreeBoth (first_hand a.me.0.hands).held (first_hand b.me.0.hands).held }
{
    let mut a = a;
    board.shared.join_seat::<Both>(&mut a, b);
    board.shared.load::<Look>(&mut a, 0);
    let b = board.shared.split_seat::<LastHand>(&mut a);
    (a, b)
}

pub(crate) fn meet_at(board: &Board, a: &mut Pass, b: &mut Pass)
    requires board { (a.old.store ≡ board.now.shared.table_id) × (b.old.store ≡ board.now.shared.table_id) × (0 < board.now.shared.table_id.words) }
    ensures same { (a.new ≡ a.old) × (b.new ≡ b.old) }
    ensures agree { AgreeBoth a.old.held b.old.held }
{
    let one = take_seat(a.number, &mut a.badge);
    let other = take_seat(b.number, &mut b.badge);
    let (one, other) = meet_seats(board, one, other);
    a.badge = one.into_badge();
    b.badge = other.into_badge();
}
