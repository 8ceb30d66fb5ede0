//! What each event needs and does, on the tables of all stripes and the lists of all parties.
ghost use Rattle.std.specs.Prelude.{◌≡◌, ◌<◌, ◌==◌, ◌&&◌, true, length, nat_lt, IfOk, OnOk, OnErr};
ghost use Rattle.bs_tree.specs.Code.{child_codes};
ghost use Rattle.bs_core.specs.Codes.{stripe_of};
ghost use Rattle.bs_core.specs.Machine.{state_of, times, has_all, may_enter, allowed, after, pair, code_at, list_at, table_at, HasParties};
ghost use Rattle.bs_core.specs.declared.event.Event.TheVariants.{Intern, Hold, Release, Give, Keep};

use crate::edits::{add_at, drop_at, lower_at, push_all_at, push_at, put_at, raise_at};
use crate::event::Event;
use crate::hand::Hand;
use crate::name::{Name, stripe_of};
use crate::table::{Held, Table};
use bs_tree::Code;
use std::alloc::{AllocError, Global};

/// Whether an Intern may be, over the table of its stripe and the list of its party.
fn may_intern(
    alloc: Global,
    table: &Table,
    hand: &Hand,
    stripes: u16,
    code: &Code,
    name: Name,
) -> Result<bool, AllocError>
    requires { 0 < stripes }
    ensures { IfOk result (λ may. may ≡ ((name.stripe == stripe_of stripes code.now) && (has_all (child_codes code.now) hand.now && may_enter name.slot code.now table.now))) }
{
    if name.stripe != stripe_of(code, stripes) {
        return Ok(false);
    }
    match hand.taken(alloc, code)? {
        Some(_) => Ok(table.may_enter(name.slot, code)),
        None => Ok(false),
    }
}

/// Whether the event is allowed.
pub(crate) fn is_allowed(
    alloc: Global,
    tables: &[Table],
    hands: &[Hand],
    stripes: u16,
    event: &Event,
) -> Result<bool, AllocError>
    requires stripes { 0 < stripes }
    requires parties { HasParties (length hands.now) event.now }
    ensures { IfOk result (λ may. may ≡ allowed stripes event.now (state_of tables.now hands.now)) }
{
    let name = event.name();
    let stripe = usize::from(name.stripe);
    if stripe >= tables.len() {
        return Ok(false);
    }
    let hand = &hands[event.party() as usize];
    match event {
        Event::Intern { code, .. } => may_intern(alloc, &tables[stripe], hand, stripes, code, name),
        _ => Ok(hand.has(name)),
    }
}

/// The pair of this name that a party has first.
fn pair_of(hands: &[Hand], party: u32, name: Name) -> Held
    requires { party < length hands.now }
    ensures { result ≡ pair name (code_at name (list_at party hands.now)) }
{
    let code = hands[party as usize].code_of(name);
    Held { name, code }
}

/// One more pair of a name that the party has.
fn hold(
    tables: &mut Vec<Table>,
    hands: &mut Vec<Hand>,
    party: u32,
    name: Name,
) -> Result<(), AllocError>
    requires stripe { name.stripe < length tables.old.items }
    requires party { party < length hands.old.items }
    ensures ok { OnOk result (state_of tables.new.items hands.new.items ≡ after (Hold party name) (state_of tables.old.items hands.old.items)) }
    ensures err { OnErr result (state_of tables.new.items hands.new.items ≡ state_of tables.old.items hands.old.items) }
{
    let pair = pair_of(hands, party, name);
    push_at(hands, party, pair)?;
    raise_at(tables, name);
    Ok(())
}

/// A pair is given back; the links of an entry that leaves come to the party.
fn release(
    alloc: Global,
    tables: &mut Vec<Table>,
    hands: &mut Vec<Hand>,
    party: u32,
    name: Name,
) -> Result<(), AllocError>
    requires stripe { name.stripe < length tables.old.items }
    requires party { party < length hands.old.items }
    requires pair { 0 < times name (list_at party hands.old.items) }
    ensures ok { OnOk result (state_of tables.new.items hands.new.items ≡ after (Release party name) (state_of tables.old.items hands.old.items)) }
    ensures err { OnErr result (state_of tables.new.items hands.new.items ≡ state_of tables.old.items hands.old.items) }
{
    let links = tables[usize::from(name.stripe)].freed(alloc, name.slot)?;
    push_all_at(hands, party, &links)?;
    drop_at(hands, party, name);
    lower_at(tables, name);
    Ok(())
}

/// A pair goes to another party, or to the end of the same list.
fn give(
    tables: &[Table],
    hands: &mut Vec<Hand>,
    from: u32,
    to: u32,
    name: Name,
) -> Result<(), AllocError>
    requires from { from < length hands.old.items }
    requires to { to < length hands.old.items }
    requires pair { 0 < times name (list_at from hands.old.items) }
    ensures ok { OnOk result (state_of tables.now hands.new.items ≡ after (Give from to name) (state_of tables.now hands.old.items)) }
    ensures err { OnErr result (hands.new.items ≡ hands.old.items) }
{
    let pair = pair_of(hands, from, name);
    push_at(hands, to, pair)?;
    drop_at(hands, from, name);
    Ok(())
}

/// The memo gets a pair of a name that the party has.
fn keep(
    tables: &mut Vec<Table>,
    hands: &mut Vec<Hand>,
    party: u32,
    memo: u32,
    name: Name,
) -> Result<(), AllocError>
    requires stripe { name.stripe < length tables.old.items }
    requires party { party < length hands.old.items }
    requires memo { memo < length hands.old.items }
    ensures ok { OnOk result (state_of tables.new.items hands.new.items ≡ after (Keep party memo name) (state_of tables.old.items hands.old.items)) }
    ensures err { OnErr result (state_of tables.new.items hands.new.items ≡ state_of tables.old.items hands.old.items) }
{
    let pair = pair_of(hands, party, name);
    push_at(hands, memo, pair)?;
    raise_at(tables, name);
    Ok(())
}

/// The party gets a pair of this name and code, and the entry counts one more, or comes with the children's pairs as links.
fn intern(
    alloc: Global,
    tables: &mut Vec<Table>,
    hands: &mut Vec<Hand>,
    party: u32,
    code: &Code,
    name: Name,
) -> Result<(), AllocError>
    requires stripe { name.stripe < length tables.old.items }
    requires party { party < length hands.old.items }
    requires children { has_all (child_codes code.now) (list_at party hands.old.items) ≡ true }
    requires slot { may_enter name.slot code.now (table_at name.stripe tables.old.items) ≡ true }
    ensures ok { OnOk result (state_of tables.new.items hands.new.items ≡ after (Intern party code.now name) (state_of tables.old.items hands.old.items)) }
    ensures err { OnErr result (state_of tables.new.items hands.new.items ≡ state_of tables.old.items hands.old.items) }
{
    let pair = Held { name, code: *code };
    if tables[usize::from(name.stripe)].entries.has_code(code) {
        push_at(hands, party, pair)?;
        raise_at(tables, name);
        return Ok(());
    }
    match hands[party as usize].taken(alloc, code)? {
        Some(taken) => {
            let mut rest = taken.rest;
            rest.push(pair)?;
            add_at(tables, name, code, taken.names)?;
            put_at(hands, party, rest);
            Ok(())
        }
        None => Ok(()),
    }
}

/// Does what an allowed event does, or nothing where there is no memory.
pub(crate) fn apply(
    alloc: Global,
    tables: &mut Vec<Table>,
    hands: &mut Vec<Hand>,
    stripes: u16,
    event: &Event,
) -> Result<(), AllocError>
    requires { allowed stripes event.now (state_of tables.old.items hands.old.items) ≡ true }
    ensures ok { OnOk result (state_of tables.new.items hands.new.items ≡ after event.now (state_of tables.old.items hands.old.items)) }
    ensures err { OnErr result (state_of tables.new.items hands.new.items ≡ state_of tables.old.items hands.old.items) }
{
    let _stripes = stripes;
    match event {
        Event::Intern { party, code, name } => intern(alloc, tables, hands, *party, code, *name),
        Event::Hold { party, name } => hold(tables, hands, *party, *name),
        Event::Release { party, name } => release(alloc, tables, hands, *party, *name),
        Event::Give { from, to, name } => give(tables, hands, *from, *to, *name),
        Event::Look { .. } => Ok(()),
        Event::Keep { party, memo, name } => keep(tables, hands, *party, *memo, *name),
        Event::Evict { memo, name } => release(alloc, tables, hands, *memo, *name),
    }
}
