//! Events of the store, and how they end.
ghost use Rattle.std.specs.Prelude.{◌≡◌};
ghost use Rattle.bs_core.specs.Machine.{party_in, other_in, name_in};
ghost use Rattle.bs_core.specs.Canonical.{HasCode};

use crate::name::Name;
use bs_tree::Code;

/// What a party does. Parties are numbered from 0; a memo is a party.
#[derive(Clone, Copy)]
pub enum Event {
    /// The party, which holds the code's children, gets a pair of this name and code.
    Intern { party: u32, code: Code, name: Name },
    /// The party gets one more pair of a name that it holds.
    Hold { party: u32, name: Name },
    /// The party gives a pair back.
    Release { party: u32, name: Name },
    /// A pair goes from one party to another.
    Give { from: u32, to: u32, name: Name },
    /// The memo is asked about a name that the party holds.
    Look { party: u32, memo: u32, name: Name },
    /// The memo gets a pair of a name that the party holds.
    Keep { party: u32, memo: u32, name: Name },
    /// The memo gives a pair back.
    Evict { memo: u32, name: Name },
}

/// How an event ended. One that is not allowed changes nothing.
#[derive(Clone, Copy, PartialEq, Eq, Debug)]
pub enum Outcome {
    Done,
    NotAllowed,
}

impl Event {
    /// Tells that the code of an Intern is one.
    pub fn known(&self)
        ensures { HasCode self.now }
    {
        match self {
            Event::Intern { code, .. } => {
                let _order = code.order();
            }
            Event::Hold { .. } => {}
            Event::Release { .. } => {}
            Event::Give { .. } => {}
            Event::Look { .. } => {}
            Event::Keep { .. } => {}
            Event::Evict { .. } => {}
        }
    }

    /// The first party that it names.
    pub fn party(&self) -> u32
        ensures { result ≡ party_in self.now }
    {
        match self {
            Event::Intern { party, .. } => *party,
            Event::Hold { party, .. } => *party,
            Event::Release { party, .. } => *party,
            Event::Give { from, .. } => *from,
            Event::Look { party, .. } => *party,
            Event::Keep { party, .. } => *party,
            Event::Evict { memo, .. } => *memo,
        }
    }

    /// The second party that it names; the first, where there is no other.
    pub fn other(&self) -> u32
        ensures { result ≡ other_in self.now }
    {
        match self {
            Event::Give { to, .. } => *to,
            Event::Look { memo, .. } => *memo,
            Event::Keep { memo, .. } => *memo,
            Event::Intern { party, .. } => *party,
            Event::Hold { party, .. } => *party,
            Event::Release { party, .. } => *party,
            Event::Evict { memo, .. } => *memo,
        }
    }

    /// The name that it speaks of.
    pub fn name(&self) -> Name
        ensures { result ≡ name_in self.now }
    {
        match self {
            Event::Intern { name, .. } => *name,
            Event::Hold { name, .. } => *name,
            Event::Release { name, .. } => *name,
            Event::Give { name, .. } => *name,
            Event::Look { name, .. } => *name,
            Event::Keep { name, .. } => *name,
            Event::Evict { name, .. } => *name,
        }
    }
}
