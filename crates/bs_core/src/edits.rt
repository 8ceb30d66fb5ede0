//! Changes of one table, or of the list of one party, in place.
ghost use Rattle.std.specs.Prelude.{◌≡◌, ◌<◌, ◌++◌, [], ◌∷◌, length, IsTrue, OnOk, OnErr};
ghost use Rattle.bs_core.specs.Machine.{at_place, raised, lowered, added, without, is_dense, table_at};

use crate::hand::Hand;
use crate::name::Name;
use crate::names::Names;
use crate::table::{Held, Table};
use bs_tree::Code;
use std::alloc::AllocError;

/// The entry of this name counts one more.
pub(crate) fn raise_at(tables: &mut Vec<Table>, name: Name)
    requires { name.stripe < length tables.old.items }
    ensures { tables.new.items ≡ at_place name.stripe (raised name.slot) tables.old.items }
{
    tables[usize::from(name.stripe)].raise(name.slot);
}

/// The entry of this name counts one less.
pub(crate) fn lower_at(tables: &mut Vec<Table>, name: Name)
    requires { name.stripe < length tables.old.items }
    ensures { tables.new.items ≡ at_place name.stripe (lowered name.slot) tables.old.items }
{
    tables[usize::from(name.stripe)].lower(name.slot);
}

/// A new entry of this name, with count 1.
pub(crate) fn add_at(
    tables: &mut Vec<Table>,
    name: Name,
    code: &Code,
    links: Names,
) -> Result<(), AllocError>
    requires stripe { name.stripe < length tables.old.items }
    requires dense { IsTrue (is_dense name.slot (table_at name.stripe tables.old.items)) }
    ensures ok { OnOk result (tables.new.items ≡ at_place name.stripe (added name.slot code.now links) tables.old.items) }
    ensures err { OnErr result (tables.new.items ≡ tables.old.items) }
{
    tables[usize::from(name.stripe)].add(name.slot, code, links)
}

/// The pair comes to the party.
pub(crate) fn push_at(hands: &mut Vec<Hand>, party: u32, pair: Held) -> Result<(), AllocError>
    requires { party < length hands.old.items }
    ensures ok { OnOk result (hands.new.items ≡ at_place party (λ l. l ++ pair ∷ []) hands.old.items) }
    ensures err { OnErr result (hands.new.items ≡ hands.old.items) }
{
    hands[party as usize].push(pair)
}

/// The pairs come to the party, all or none.
pub(crate) fn push_all_at(
    hands: &mut Vec<Hand>,
    party: u32,
    pairs: &[Held],
) -> Result<(), AllocError>
    requires { party < length hands.old.items }
    ensures ok { OnOk result (hands.new.items ≡ at_place party (λ l. l ++ pairs.now) hands.old.items) }
    ensures err { OnErr result (hands.new.items ≡ hands.old.items) }
{
    hands[party as usize].push_all(pairs)
}

/// The first pair of this name leaves the party.
pub(crate) fn drop_at(hands: &mut Vec<Hand>, party: u32, name: Name)
    requires { party < length hands.old.items }
    ensures { hands.new.items ≡ at_place party (without name) hands.old.items }
{
    hands[party as usize].drop_first(name);
}

/// The party has these pairs in place of its own.
pub(crate) fn put_at(hands: &mut Vec<Hand>, party: u32, pairs: Hand)
    requires { party < length hands.old.items }
    ensures { hands.new.items ≡ at_place party (λ _. pairs) hands.old.items }
{
    hands[party as usize] = pairs;
}
