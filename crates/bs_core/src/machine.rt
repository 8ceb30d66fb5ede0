//! The whole store as a value. A contract sees a `Core` as a state of the machine.
ghost use Rattle.std.specs.Prelude.{◌≡◌, ◌<◌, ◌≤◌, ◌^◌, ◌-◌, ℕ, length, take, min, IfOk, OnOk, OnErr};
ghost use Rattle.bs_core.specs.Machine.{opening, step, run, live, list_at, state_of, HasParties};
ghost use Rattle.bs_core.specs.Canonical.{Each, Canonical};
ghost use Rattle.bs_core.specs.Laws.{NamesDecideTrees};

use crate::changes::{apply, is_allowed};
use crate::event::{Event, Outcome};
use crate::hand::Hand;
use crate::table::{Held, Table};
use std::alloc::{AllocError, Global};
use std::marker::Model;

/// The tables of all stripes and the lists of all parties.
#[derive(Drop)]
pub struct Core {
    alloc: Global,
    stripes: u16,
    tables: Vec<Table>,
    hands: Vec<Hand>,
}

impl Model for Core {
    ghost use Rattle.std.specs.Prelude.{◌≡◌, ◌<◌, length};
    ghost use Rattle.bs_core.specs.Machine.{State, state_of};
    ghost use Rattle.bs_core.specs.Canonical.{Canonical};

    ghost Value = { State };

    ghost view = { λ a. state_of a.tables.items a.hands.items };

    ghost invariant = { λ a. (0 < a.stripes) × (a.stripes ≡ length a.tables.items) × Canonical (length a.tables.items) (state_of a.tables.items a.hands.items) };
}

/// As many empty tables.
fn no_tables(alloc: Global, stripes: u16) -> Result<Vec<Table>, AllocError>
    ensures { IfOk result (λ tables. tables.items ≡ (opening stripes 0).tables) }
{
    let mut tables = Vec::new(alloc);
    'tables: for _ in 0..stripes {
        tables.push(Table::new(alloc))?;
    }
    Ok(tables)
}

/// As many empty lists.
fn no_hands(alloc: Global, parties: u32) -> Result<Vec<Hand>, AllocError>
    ensures { IfOk result (λ hands. hands.items ≡ (opening 0 parties).lists) }
{
    let mut hands = Vec::new(alloc);
    'hands: for _ in 0..parties {
        hands.push(Hand::new(alloc))?;
    }
    Ok(hands)
}

/// The number of entries of all tables, or `u64::MAX` where there are more.
fn live_in(tables: &[Table]) -> u64
    ensures { result ≡ min (live tables.now) (2 ^ 64 - 1) }
{
    let mut live: u64 = 0;
    'tables: for table in tables {
        live = live.saturating_add(table.entries.len() as u64);
    }
    live
}

impl Core {
    /// The store of this many stripes and parties in which nothing is.
    pub fn new(alloc: Global, stripes: u16, parties: u32) -> Result<Core, AllocError>
        requires stripes { (0 < stripes) × (stripes ≤ 256) }
        requires parties { (0 < parties) × (parties ≤ 256) }
        ensures { IfOk result (λ core. core ≡ opening stripes parties) }
    {
        let tables = no_tables(alloc, stripes)?;
        let hands = no_hands(alloc, parties)?;
        Ok(Core {
            alloc,
            stripes,
            tables,
            hands,
        })
    }

    /// One event. One that is not allowed changes nothing, nor does one for which there is no memory.
    pub fn step(&mut self, event: &Event) -> Result<Outcome, AllocError>
        requires { HasParties (length self.old.lists) event.now }
        ensures state { OnOk result (self.new ≡ (step (length self.old.tables) event.now self.old).state) }
        ensures outcome { IfOk result (λ outcome. outcome ≡ (step (length self.old.tables) event.now self.old).outcome) }
        ensures err { OnErr result (self.new ≡ self.old) }
        ensures canonical { Canonical (length self.old.tables) self.new }
        ensures stripes { length self.new.tables ≡ length self.old.tables }
        ensures parties { length self.new.lists ≡ length self.old.lists }
    {
        event.known();
        let may = is_allowed(self.alloc, &self.tables, &self.hands, self.stripes, event)?;
        if !may {
            return Ok(Outcome::NotAllowed);
        }
        apply(
            self.alloc,
            &mut self.tables,
            &mut self.hands,
            self.stripes,
            event,
        )?;
        Ok(Outcome::Done)
    }

    /// The events in order. Where there is no memory for one, those before it have been done.
    pub fn run(&mut self, events: &[Event]) -> Result<(), AllocError>
        requires { Each (HasParties (length self.old.lists)) events.now }
        ensures ok { OnOk result (self.new ≡ run (length self.old.tables) events.now self.old) }
        ensures err { OnErr result ((k : ℕ) × (k < length events.now) × (self.new ≡ run (length self.old.tables) (take k events.now) self.old)) }
        ensures names { NamesDecideTrees self.new }
        ensures stripes { length self.new.tables ≡ length self.old.tables }
        ensures parties { length self.new.lists ≡ length self.old.lists }
    {
        self.known();
        'events: for event in events {
            self.step(event)?;
        }
        Ok(())
    }

    /// Tells that the state is canonical, so that pairs have equal names exactly where their trees are isomorphic.
    pub fn known(&self)
        ensures canonical { Canonical (length self.now.tables) self.now }
        ensures names { NamesDecideTrees self.now }
    {
        let _alloc = &self.alloc;
    }

    /// The pairs of a party in order.
    pub fn held(&self, party: u32) -> &[Held]
        requires { party < length self.now.lists }
        ensures { result.now ≡ list_at party self.now.lists }
    {
        self.hands[party as usize].held()
    }

    /// The number of entries, or `u64::MAX` where there are more.
    pub fn live(&self) -> u64
        ensures { result ≡ min (live self.now.tables) (2 ^ 64 - 1) }
    {
        live_in(&self.tables)
    }
}
