//! The four changes of a store, each one step of the machine on the table and the lists that are lent, and what each view knows.
ghost use Rattle.std.specs.Prelude.{◌≡◌, ◌≢◌, ◌<◌, ◌≤◌, ◌==◌, [], IsTrue, IfOk, OnErr};
ghost use Rattle.bs_core.specs.Codes.{children, stripe_of};
ghost use Rattle.bs_core.specs.Keys.{key_of};
ghost use Rattle.bs_core.specs.Machine.{codes, times, code_at, freed, needs, HasAll};
ghost use Rattle.bs_core.specs.declared.event.Event.TheVariants.{Intern, Hold, Release, Give};
ghost use Rattle.bs_store.specs.Closing.{NewPassesAreAll, NumbersDecide};
ghost use Rattle.bs_store.specs.Events.{ChangesAreEvents};
ghost use Rattle.bs_store.specs.Laws.{ViewsAgreeOnNames};
ghost use Rattle.bs_store.specs.Rule.{hands_at, list_in, path_in};
ghost use Rattle.bs_store.specs.Seats.{room_after, Leaves};

use crate::change::{change, change_coded, find_or_add};
use crate::room::{Room, StoreName};
use crate::store::Store;
use crate::walk::Interned;
use bs_core::{Key, Name};
use bs_stripe::Lowered;
use bs_tree::Code;
use std::alloc::AllocError;
use std::marker::Brand;

/// An Intern: the pass holds the code's name once more. Where the entry is new, the children's pairs become its links.
pub fn change_intern<N: StoreName>(
    store: &Store<N>,
    room: &mut Room<N>,
    pass: usize,
    code: &Code,
    key: Key,
) -> Result<Interned, AllocError>
    requires stripe { stripe_of store.now.stripes code.now ≡ room.old.number }
    requires inside { (1 ≤ hands_at pass room.old.hands) × (path_in pass room.old.hands ≡ []) }
    requires children { HasAll (children code.now) (list_in pass room.old.hands) }
    requires key { key ≡ key_of code.now (list_in pass room.old.hands) }
    ensures allowed { IfOk result (λ i. IsTrue (needs store.now.stripes (Intern pass code.now i.name) (list_in pass room.old.hands) room.old.table)) }
    ensures stripe { IfOk result (λ i. i.name.stripe ≡ room.old.number) }
    ensures new { IfOk result (λ i. i.new ≡ (codes code.now room.old.table.entries == 0)) }
    ensures room { IfOk result (λ i. room.new ≡ room_after (Intern pass code.now i.name) room.old) }
    ensures err { OnErr result (room.new ≡ room.old) }
{
    let _order = code.order();
    let found = find_or_add(&mut room.stripe, key)?;
    let name = Name {
        stripe: room.number,
        slot: found.slot,
    };
    change_coded::<Brand>(
        &store.board,
        &mut room.seat,
        usize::from(room.number),
        pass,
        code,
        name,
    );
    Ok(Interned {
        name,
        new: found.new,
    })
}

/// A Hold: the pass holds the name once more. Takes no memory.
pub fn change_hold<N: StoreName>(store: &Store<N>, room: &mut Room<N>, pass: usize, name: Name)
    requires stripe { name.stripe ≡ room.old.number }
    requires inside { (1 ≤ hands_at pass room.old.hands) × (path_in pass room.old.hands ≡ []) }
    requires held { 0 < times name (list_in pass room.old.hands) }
    ensures { room.new ≡ room_after (Hold pass name) room.old }
{
    room.stripe.raise(name.slot);
    change::<Brand>(
        &store.board,
        &mut room.seat,
        usize::from(room.number),
        pass,
        pass,
        name,
    );
}

/// A Release: the pass holds the name once less. Where the entry leaves, its links are pairs of the pass from then on.
/// Takes no memory.
pub fn change_release<N: StoreName>(
    store: &Store<N>,
    room: &mut Room<N>,
    pass: usize,
    name: Name,
) -> Lowered
    requires stripe { name.stripe ≡ room.old.number }
    requires inside { (1 ≤ hands_at pass room.old.hands) × (path_in pass room.old.hands ≡ []) }
    requires held { 0 < times name (list_in pass room.old.hands) }
    ensures room { room.new ≡ room_after (Release pass name) room.old }
    ensures gone { Leaves result (code_at name (list_in pass room.old.hands)) (freed name.slot room.old.table.entries) }
{
    let lowered = room.stripe.lower(name.slot);
    change::<Brand>(
        &store.board,
        &mut room.seat,
        usize::from(room.number),
        pass,
        pass,
        name,
    );
    lowered
}

/// A Give: one pair goes from one pass to the other. Takes no memory.
pub fn change_give<N: StoreName>(
    store: &Store<N>,
    room: &mut Room<N>,
    from: usize,
    to: usize,
    name: Name,
)
    requires stripe { name.stripe ≡ room.old.number }
    requires differ { from ≢ to }
    requires from { (1 ≤ hands_at from room.old.hands) × (path_in from room.old.hands ≡ []) }
    requires to { (1 ≤ hands_at to room.old.hands) × (path_in to room.old.hands ≡ []) }
    requires held { 0 < times name (list_in from room.old.hands) }
    ensures { room.new ≡ room_after (Give from to name) room.old }
{
    change::<Brand>(
        &store.board,
        &mut room.seat,
        usize::from(room.number),
        from,
        to,
        name,
    );
}

/// Wherever the rule holds of all views, each view agrees on names.
pub fn a_view_agrees_on_names()
    ensures { ViewsAgreeOnNames }
{}

/// The change of a view by an event is that event of the machine, from a state that all views fit to another one.
pub fn changes_are_events()
    ensures { ChangesAreEvents }
{}

/// The passes of a new store meet what its closing asks for, and so do passes that were dealt out and came home.
pub fn passes_have_all_numbers()
    ensures new { NewPassesAreAll }
    ensures home { NumbersDecide }
{}
