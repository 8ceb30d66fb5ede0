//! What a pass does in the room of one stripe, which is lent: it goes in, a change is made, and it comes out.
ghost use Rattle.std.specs.Prelude.{◌≡◌, ◌≢◌, ◌+◌, ◌<◌, [], ◌∷◌, ◌++◌, IfOk, OnOk, OnErr};
ghost use Rattle.bs_core.specs.Codes.{children, stripe_of};
ghost use Rattle.bs_core.specs.Keys.{key_of};
ghost use Rattle.bs_core.specs.Machine.{times, code_at, without, pair, HasAll};
ghost use Rattle.bs_store.specs.Walks.{SamePass, Released, Interns};

use crate::laws::{change_give, change_hold, change_intern, change_release};
use crate::pass::{Pass, take_seat};
use crate::room::{Room, StoreName};
use crate::store::Store;
use crate::walk::Interned;
use bs_core::{Key, Name};
use bs_stripe::Lowered;
use bs_tree::Code;
use std::alloc::AllocError;

/// Interns one node, whose children the pass holds.
pub(crate) fn intern_in<N: StoreName>(
    store: &Store<N>,
    room: &mut Room<N>,
    pass: &mut Pass,
    code: &Code,
    key: Key,
) -> Result<Interned, AllocError>
    requires own { pass.old.store ≡ store.now.table }
    requires stripe { stripe_of store.now.stripes code.now ≡ room.old.number }
    requires children { HasAll (children code.now) pass.old.held }
    requires key { key ≡ key_of code.now pass.old.held }
    ensures room { room.new.number ≡ room.old.number }
    ensures same { SamePass pass.old pass.new }
    ensures stripe { IfOk result (λ i. i.name.stripe ≡ room.old.number) }
    ensures ok { IfOk result (λ i. Interns code.now i.name i.new pass.old.held pass.new.held) }
    ensures gains { OnOk result (pass.new.gains ≡ pass.old.gains + 1) }
    ensures err { OnErr result (pass.new ≡ pass.old) }
{
    let number = pass.number;
    let seat = take_seat(number, &mut pass.badge);
    room.enter(&store.board, seat);
    let interned = change_intern(store, room, number, code, key);
    let seat = room.leave(&store.board);
    pass.badge = seat.into_badge();
    interned
}

/// Holds a name once more.
pub(crate) fn hold_in<N: StoreName>(
    store: &Store<N>,
    room: &mut Room<N>,
    pass: &mut Pass,
    name: Name,
)
    requires own { pass.old.store ≡ store.now.table }
    requires stripe { name.stripe ≡ room.old.number }
    requires held { 0 < times name pass.old.held }
    ensures room { room.new.number ≡ room.old.number }
    ensures same { SamePass pass.old pass.new }
    ensures held { pass.new.held ≡ pass.old.held ++ pair name (code_at name pass.old.held) ∷ [] }
    ensures gains { pass.new.gains ≡ pass.old.gains + 1 }
{
    let number = pass.number;
    let seat = take_seat(number, &mut pass.badge);
    room.enter(&store.board, seat);
    change_hold(store, room, number, name);
    let seat = room.leave(&store.board);
    pass.badge = seat.into_badge();
}

/// Holds a name once less. Where its entry leaves, the pass holds the entry's links.
pub(crate) fn release_in<N: StoreName>(
    store: &Store<N>,
    room: &mut Room<N>,
    pass: &mut Pass,
    name: Name,
) -> Lowered
    requires own { pass.old.store ≡ store.now.table }
    requires stripe { name.stripe ≡ room.old.number }
    requires held { 0 < times name pass.old.held }
    ensures room { room.new.number ≡ room.old.number }
    ensures same { SamePass pass.old pass.new }
    ensures held { Released result name pass.old.held pass.new.held }
    ensures gains { pass.new.gains ≡ pass.old.gains }
{
    let number = pass.number;
    let seat = take_seat(number, &mut pass.badge);
    room.enter(&store.board, seat);
    let lowered = change_release(store, room, number, name);
    let seat = room.leave(&store.board);
    pass.badge = seat.into_badge();
    lowered
}

/// Moves a pair.
pub(crate) fn give_in<N: StoreName>(
    store: &Store<N>,
    room: &mut Room<N>,
    from: &mut Pass,
    to: &mut Pass,
    name: Name,
)
    requires own { (from.old.store ≡ store.now.table) × (to.old.store ≡ store.now.table) }
    requires stripe { name.stripe ≡ room.old.number }
    requires held { 0 < times name from.old.held }
    ensures room { room.new.number ≡ room.old.number }
    ensures same { SamePass from.old from.new × SamePass to.old to.new }
    ensures from { (from.new.held ≡ without name from.old.held) × (from.new.gains ≡ from.old.gains) }
    ensures to { (to.new.held ≡ to.old.held ++ pair name (code_at name from.old.held) ∷ []) × (to.new.gains ≡ to.old.gains) }
{
    let source = from.number;
    let target = to.number;
    let one = take_seat(source, &mut from.badge);
    let other = take_seat(target, &mut to.badge);
    room.enter(&store.board, one);
    room.enter(&store.board, other);
    change_give(store, room, source, target, name);
    let other = room.leave(&store.board);
    let one = room.leave(&store.board);
    from.badge = one.into_badge();
    to.badge = other.into_badge();
}
