//! What a stripe compares in place of whole codes.
ghost use Rattle.std.specs.Prelude.{◌≡◌, ◌<◌, ◌≤◌, length, IfOk};
ghost use Rattle.std.specs.Cmp.{partial_equiv_from_equiv};
ghost use Rattle.std.specs.Hash.{same_Alike};
ghost use Rattle.bs_core.specs.KeyEquality.{same_key, key_equivalence, same_key-Decides, key_writes};
ghost use Rattle.bs_core.specs.Keys.{Key};

use crate::name::Name;
use crate::names::Names;
use bs_tree::{COLOURS, MAX_NODES};
use std::alloc::{AllocError, Global};
use std::hash::{Hash, Hasher};
use std::marker::Model;

/// The colour of a root, and the names of its children in order.
#[derive(Drop)]
pub struct Key {
    colour: u8,
    children: Names,
}

impl Model for Key {
    ghost use Rattle.std.specs.Prelude.{◌<◌, length};
    ghost use Rattle.bs_tree.specs.declared.TheConstants.{MAX_NODES, COLOURS};
    ghost use Rattle.bs_core.specs.Keys.{Key};

    ghost Value = { Key };

    ghost view = { λ a. record { colour = a.colour; children = a.children } };

    ghost invariant = { λ a. (a.colour < COLOURS) × (length a.children < MAX_NODES) };
}

impl PartialEq for Key {
    ghost eq = { same_key };

    ghost laws = { partial_equiv_from_equiv key_equivalence };

    fn eq(&self, other: &Key) -> bool {
        self.colour == other.colour && self.children.as_slice() == other.children.as_slice()
    }
}

impl Eq for Key {
    ghost laws = { key_equivalence };
}

impl Hash for Key {
    ghost hash_input = { key_writes };

    ghost respects_eq = { (same_Alike key_writes same_key-Decides).fed };

    fn hash<H: Hasher>(&self, state: &mut H) {
        self.colour.hash(state);
        self.children.as_slice().hash(state);
    }
}

impl Key {
    /// The key of a root of this colour over children of these names.
    pub fn new(alloc: Global, colour: u8, children: &[Name]) -> Result<Key, AllocError>
        requires colour { colour < COLOURS }
        requires few { length children.now < MAX_NODES }
        ensures { IfOk result (λ key. key ≡ record { colour = colour; children = children.now }) }
    {
        let children = Names::from_slice(alloc, children)?;
        Ok(Key { colour, children })
    }

    /// The colour of the root.
    pub fn colour(&self) -> u8
        ensures value { result ≡ self.now.colour }
        ensures small { result < COLOURS }
    {
        self.colour
    }

    /// The names of the children in order.
    pub fn children(&self) -> &[Name]
        ensures value { result.now ≡ self.now.children }
        ensures few { length result.now < MAX_NODES }
    {
        self.children.as_slice()
    }

    /// The same key once more.
    pub fn copy(&self, alloc: Global) -> Result<Key, AllocError>
        ensures { IfOk result (λ key. key ≡ self.now) }
    {
        let children = Names::from_slice(alloc, self.children.as_slice())?;
        Ok(Key {
            colour: self.colour,
            children,
        })
    }
}
