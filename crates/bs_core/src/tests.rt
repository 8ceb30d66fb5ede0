//! Worked rows: how many entries stand, which slots are free, and what a count at its type's end does.
ghost use Rattle.std.specs.Prelude.{◌≡◌, length};
ghost use Rattle.bs_core.specs.Machine.{HasParties};

use crate::{Core, Event, Hand, Held, Key, Name, Names, Outcome, Table, stripe_of};
use bs_tree::Code;
use std::alloc::Global;
use std::test::Fail;

/// The code of these levels, all of colour 0.
fn code_of(alloc: Global, levels: &[u8]) -> Result<Code, Fail> {
    let mut pairs = Vec::new(alloc);
    for level in levels {
        pairs.push((*level, 0))?;
    }
    Ok(Code::of_pairs(&pairs).ok_or("no level sequence")?)
}

/// Whether the entry came at this slot, which it may have.
fn adds(alloc: Global, table: &mut Table, slot: u64, code: &Code) -> Result<bool, Fail> {
    let may = table.may_enter(slot, code);
    if may && table.is_dense(slot) {
        table.add(slot, code, Names::new(alloc))?;
    }
    Ok(may)
}

/// Four leaves of different colours, one of which leaves and gives its slot back.
#[test]
fn slots_are_dense(rt: HostRuntime) -> Result<(), Fail> {
    let alloc = rt.alloc();
    let leaves = [Code::leaf(0), Code::leaf(1), Code::leaf(2), Code::leaf(3)];
    let leaves = &leaves[..];
    let mut table = Table::new(alloc);
    assert!(rt; !table.may_enter(1, &leaves[0]));
    assert!(rt; adds(alloc, &mut table, 0, &leaves[0])?);
    assert!(rt; adds(alloc, &mut table, 1, &leaves[1])?);
    table.lower(0);
    assert!(rt; !table.entries.has_code(&leaves[0]));
    assert!(rt; !table.may_enter(2, &leaves[2]));
    assert!(rt; adds(alloc, &mut table, 0, &leaves[2])?);
    assert!(rt; adds(alloc, &mut table, 2, &leaves[3])?);
    table.raise(1);
    table.lower(1);
    assert!(rt; table.entries.has_code(&leaves[1]));
    assert!(rt; table.mark == 3);
    assert!(rt; table.entries.len() == 3);
    Ok(())
}

/// A code that is there has the slot of its entry, and no other.
#[test]
fn a_code_has_one_entry(rt: HostRuntime) -> Result<(), Fail> {
    let alloc = rt.alloc();
    let tree = code_of(alloc, &[1, 2, 3, 2])?;
    let mut table = Table::new(alloc);
    assert!(rt; table.entries.is_empty());
    assert!(rt; adds(alloc, &mut table, 0, &tree)?);
    assert!(rt; table.may_enter(0, &tree));
    assert!(rt; !table.may_enter(1, &tree));
    assert!(rt; table.entries.has_entry(0, &tree));
    assert!(rt; table.entries.has_slot(0) && !table.entries.has_slot(1));
    assert!(rt; table.entries.is_full_below(1) && !table.entries.is_full_below(2));
    Ok(())
}

/// The first pair of a name leaves, a pair that comes goes last.
#[test]
fn a_party_holds_pairs(rt: HostRuntime) -> Result<(), Fail> {
    let alloc = rt.alloc();
    let (first, second) = (Name { stripe: 0, slot: 0 }, Name { stripe: 0, slot: 1 });
    let pairs = [
        Held {
            name: first,
            code: Code::leaf(0),
        },
        Held {
            name: second,
            code: Code::leaf(1),
        },
    ];
    let mut hand = Hand::new(alloc);
    hand.push_all(&pairs)?;
    hand.push(Held {
        name: first,
        code: Code::leaf(0),
    })?;
    hand.drop_first(first);
    assert!(rt; hand.held().len() == 2);
    assert!(rt; hand.held()[0].name == second && hand.held()[1].name == first);
    assert!(rt; hand.code_of(second) == Code::leaf(1));
    hand.drop_first(first);
    assert!(rt; !hand.has(first) && hand.has(second));
    Ok(())
}

/// A tree whose children are a chain and a leaf: the party's pairs become links, and come back when the entry leaves.
#[test]
fn children_become_links(rt: HostRuntime) -> Result<(), Fail> {
    let alloc = rt.alloc();
    let tree = code_of(alloc, &[1, 2, 3, 2])?;
    let (leaf, chain) = (code_of(alloc, &[1])?, code_of(alloc, &[1, 2])?);
    let mut hand = Hand::new(alloc);
    hand.push(Held {
        name: Name { stripe: 0, slot: 0 },
        code: leaf,
    })?;
    assert!(rt; hand.taken(alloc, &tree)?.is_none());
    hand.push(Held {
        name: Name { stripe: 0, slot: 1 },
        code: chain,
    })?;
    let Some(taken) = hand.taken(alloc, &tree)? else {
        return Ok(());
    };
    assert!(rt; taken.rest.held().is_empty());
    assert!(rt; taken.names.as_slice().len() == 2 && taken.names.as_slice()[0].slot == 1);
    let mut table = Table::new(alloc);
    if table.is_dense(0) {
        table.add(0, &tree, taken.names)?;
    }
    let links = table.freed(alloc, 0)?;
    assert!(rt; links.len() == 2 && links[1].name.slot == 0);
    table.raise(0);
    assert!(rt; table.freed(alloc, 0)?.is_empty());
    Ok(())
}

/// The entry of this slot, in a store of one stripe.
fn at(slot: u64) -> Name
    ensures { result ≡ record { stripe = 0; slot = slot } }
{
    Name { stripe: 0, slot }
}

/// Whether the event was done, in a store of two parties.
fn is_done(core: &mut Core, event: Event) -> Result<bool, Fail>
    requires event { HasParties 2 event }
    requires parties { length core.old.lists ≡ 2 }
    ensures { length core.new.lists ≡ 2 }
{
    Ok(core.step(&event)? == Outcome::Done)
}

/// Whether the first party got a pair of this code at this slot.
fn interns(core: &mut Core, code: &Code, slot: u64) -> Result<bool, Fail>
    requires { length core.old.lists ≡ 2 }
    ensures { length core.new.lists ≡ 2 }
{
    is_done(
        core,
        Event::Intern {
            party: 0,
            code: *code,
            name: at(slot),
        },
    )
}

/// Whether the first party gave a pair of this slot back.
fn releases(core: &mut Core, slot: u64) -> Result<bool, Fail>
    requires { length core.old.lists ≡ 2 }
    ensures { length core.new.lists ≡ 2 }
{
    is_done(
        core,
        Event::Release {
            party: 0,
            name: at(slot),
        },
    )
}

/// A leaf at slot 1 of an empty stripe, at slot 0, and released by a party that does not have it.
#[test]
fn events_that_are_allowed(rt: HostRuntime) -> Result<(), Fail> {
    let alloc = rt.alloc();
    let mut core = Core::new(alloc, 1, 2)?;
    assert!(rt; !interns(&mut core, &Code::leaf(0), 1)?);
    assert!(rt; interns(&mut core, &Code::leaf(0), 0)?);
    let other = Event::Release {
        party: 1,
        name: at(0),
    };
    assert!(rt; !is_done(&mut core, other)?);
    assert!(rt; !interns(&mut core, &code_of(alloc, &[1, 2, 2])?, 1)?);
    let give = Event::Give {
        from: 0,
        to: 1,
        name: at(0),
    };
    assert!(rt; is_done(&mut core, give)?);
    assert!(rt; core.held(0).is_empty() && core.held(1).len() == 1);
    assert!(rt; is_done(&mut core, other)?);
    assert!(rt; core.live() == 0);
    Ok(())
}

/// Whether the first party got 1,2,3,2 at slot 2 by its children in order.
fn interns_branched(alloc: Global, core: &mut Core) -> Result<bool, Fail>
    requires { length core.old.lists ≡ 2 }
    ensures { length core.new.lists ≡ 2 }
{
    let first = interns(core, &Code::leaf(0), 0)?;
    let second = interns(core, &code_of(alloc, &[1, 2])?, 1)?;
    let third = interns(core, &Code::leaf(0), 0)?;
    let fourth = interns(core, &code_of(alloc, &[1, 2, 3, 2])?, 2)?;
    Ok(first && second && third && fourth)
}

/// Whether the first party got 1,2,2,2 at slot 3.
fn interns_bushy(alloc: Global, core: &mut Core) -> Result<bool, Fail>
    requires { length core.old.lists ≡ 2 }
    ensures { length core.new.lists ≡ 2 }
{
    let first = interns(core, &Code::leaf(0), 0)?;
    let second = interns(core, &Code::leaf(0), 0)?;
    let third = interns(core, &Code::leaf(0), 0)?;
    let fourth = interns(core, &code_of(alloc, &[1, 2, 2, 2])?, 3)?;
    Ok(first && second && third && fourth)
}

/// Whether the first party gave back a pair of each of these slots.
fn releases_all(
    core: &mut Core,
    first: u64,
    second: u64,
    third: u64,
    fourth: u64,
) -> Result<bool, Fail>
    requires { length core.old.lists ≡ 2 }
    ensures { length core.new.lists ≡ 2 }
{
    let first = releases(core, first)?;
    let second = releases(core, second)?;
    let third = releases(core, third)?;
    let fourth = releases(core, fourth)?;
    Ok(first && second && third && fourth)
}

/// Subtrees are shared: 1,2,3,2 and 1,2,2,2 have four entries together, and each release leaves what the other needs.
#[test]
fn subtrees_are_shared(rt: HostRuntime) -> Result<(), Fail> {
    let alloc = rt.alloc();
    let mut core = Core::new(alloc, 1, 2)?;
    assert!(rt; interns_branched(alloc, &mut core)?);
    assert!(rt; core.live() == 3 && core.held(0).len() == 1);
    assert!(rt; interns_bushy(alloc, &mut core)?);
    assert!(rt; core.live() == 4 && core.held(0).len() == 2);
    assert!(rt; releases_all(&mut core, 2, 1, 0, 0)?);
    assert!(rt; core.live() == 2 && core.held(0).len() == 1);
    assert!(rt; releases_all(&mut core, 3, 0, 0, 0)?);
    assert!(rt; core.live() == 0 && core.held(0).is_empty());
    Ok(())
}

/// 31 * 1 + 2 = 33 for a leaf of colour 2; then (33 * 31 + 2) * 31 + 0 = 31775 with a child of colour 0.
#[test]
fn stripes_of_codes(rt: HostRuntime) -> Result<(), Fail> {
    assert!(rt; stripe_of(&Code::leaf(2), 5) == 3);
    let tree = Code::of_pairs(&[(1, 2), (2, 0)]).ok_or("no level sequence")?;
    assert!(rt; stripe_of(&tree, 100) == 75);
    assert!(rt; stripe_of(&tree, 1) == 0);
    Ok(())
}

#[test]
fn a_key_keeps_names(rt: HostRuntime) -> Result<(), Fail> {
    let alloc = rt.alloc();
    let mut names = [Name { stripe: 1, slot: 0 }; 6];
    names[5] = Name { stripe: 2, slot: 5 };
    let key = Key::new(alloc, 2, &names[..])?.copy(alloc)?;
    assert!(rt; key.colour() == 2);
    assert!(rt; key.children().len() == 6 && key.children()[5].slot == 5);
    Ok(())
}

#[test]
fn events_name_parties(rt: HostRuntime) -> Result<(), Fail> {
    let name = Name { stripe: 0, slot: 7 };
    let give = Event::Give {
        from: 1,
        to: 2,
        name,
    };
    assert!(rt; give.party() == 1 && give.other() == 2 && give.name() == name);
    let evict = Event::Evict { memo: 3, name };
    assert!(rt; evict.party() == 3 && evict.other() == 3);
    Ok(())
}
