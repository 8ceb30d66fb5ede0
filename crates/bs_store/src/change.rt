//! The one step that changes what seats know, and what a stripe does in it.
ghost use Rattle.std.specs.Prelude.{◌≡◌, ◌<◌, IfOk, OnErr};
ghost use Rattle.bs_store.specs.Rule.{Local, moved, Known};
ghost use Rattle.bs_store.specs.Seats.{Added};

use crate::view::{Board, Change, Deed, View};
use atomic_table::Seat;
use bs_core::{Key, Name};
use bs_stripe::Stripe;
use bs_tree::Code;
use std::alloc::AllocError;

/// The step of an event: one fetch on the stripe's word. The words say nothing, and any fetch will do.
fn step<E: Deed>(board: &Board, seat: &mut Seat<(), View>, word: usize)
    requires board { (seat.old.table_id ≡ board.now.shared.table_id) × (word < board.now.shared.table_id.words) }
    requires may { Local board.now.shared.key.stripes E.event seat.old.me.0 }
    ensures same { (seat.new.table_id ≡ seat.old.table_id) × (seat.new.me.1 ≡ seat.old.me.1) }
    ensures changed { (seat.new.me.0 ≡ moved E.event seat.old.me.0) × Known seat.new.me.0 }
{
    board.shared.fetch_add::<Change<E>>(seat, word, 1);
}

/// The step of an event. The event's parts are for contracts alone.
pub(crate) fn change<E: Deed>(
    board: &Board,
    seat: &mut Seat<(), View>,
    word: usize,
    _party: usize,
    _other: usize,
    _name: Name,
)
    requires board { (seat.old.table_id ≡ board.now.shared.table_id) × (word < board.now.shared.table_id.words) }
    requires may { Local board.now.shared.key.stripes E.event seat.old.me.0 }
    ensures same { (seat.new.table_id ≡ seat.old.table_id) × (seat.new.me.1 ≡ seat.old.me.1) }
    ensures changed { (seat.new.me.0 ≡ moved E.event seat.old.me.0) × Known seat.new.me.0 }
{
    step::<E>(board, seat, word);
}

/// The step of an event that has a code.
pub(crate) fn change_coded<E: Deed>(
    board: &Board,
    seat: &mut Seat<(), View>,
    word: usize,
    _party: usize,
    _code: &Code,
    _name: Name,
)
    requires board { (seat.old.table_id ≡ board.now.shared.table_id) × (word < board.now.shared.table_id.words) }
    requires may { Local board.now.shared.key.stripes E.event seat.old.me.0 }
    ensures same { (seat.new.table_id ≡ seat.old.table_id) × (seat.new.me.1 ≡ seat.old.me.1) }
    ensures changed { (seat.new.me.0 ≡ moved E.event seat.old.me.0) × Known seat.new.me.0 }
{
    step::<E>(board, seat, word);
}

/// The slot of a key's entry, and whether the entry is new.
#[derive(Clone, Copy)]
pub(crate) struct Found {
    pub(crate) slot: u64,
    pub(crate) new: bool,
}

/// The entry of the key counts one more.
pub(crate) fn find_or_add(stripe: &mut Stripe, key: Key) -> Result<Found, AllocError>
    ensures ok { IfOk result (λ found. Added key found.slot found.new stripe.old stripe.new) }
    ensures err { OnErr result (stripe.new ≡ stripe.old) }
{
    match stripe.find(&key) {
        Some(slot) => {
            stripe.raise(slot);
            Ok(Found { slot, new: false })
        }
        None => match stripe.add(key) {
            Ok(slot) => Ok(Found { slot, new: true }),
            Err(refused) => Err(refused.fault),
        },
    }
}
