//! Lists of names. A contract sees a `Names` as that list.
ghost use Rattle.std.specs.Prelude.{◌≡◌, ◌++◌, [], ◌∷◌, IfOk, OnOk, OnErr};

use crate::name::Name;
use smallvec::SmallVec;
use std::alloc::{AllocError, Global};
use std::marker::Model;

/// Names in order. Up to four stand in place, more in an allocation.
#[derive(Drop)]
pub struct Names {
    names: SmallVec<Name, 4>,
}

impl Model for Names {
    ghost use Rattle.std.specs.Prelude.{List};
    ghost use Rattle.bs_core.specs.declared.name.Name.{Name};

    ghost Value = { List Name };

    ghost view = { λ a. a.names.items };
}

impl Names {
    /// The list with no name. Takes no memory.
    pub fn new(alloc: Global) -> Names
        ensures { result ≡ [] }
    {
        Names {
            names: SmallVec::new(alloc),
        }
    }

    /// A copy of these names.
    pub fn from_slice(alloc: Global, names: &[Name]) -> Result<Names, AllocError>
        ensures { IfOk result (λ list. list ≡ names.now) }
    {
        let names = SmallVec::from_slice(alloc, names)?;
        Ok(Names { names })
    }

    /// Puts the name last.
    pub fn push(&mut self, name: Name) -> Result<(), AllocError>
        ensures ok { OnOk result (self.new ≡ self.old ++ name ∷ []) }
        ensures err { OnErr result (self.new ≡ self.old) }
    {
        self.names.push(name)?;
        Ok(())
    }

    /// The names in order.
    pub fn as_slice(&self) -> &[Name]
        ensures { result.now ≡ self.now }
    {
        self.names.as_slice()
    }
}
