//! The list of pairs that a party holds. A contract sees a `Hand` as that list.
ghost use Rattle.std.specs.Prelude.{◌≡◌, ◌<◌, ◌++◌, [], ◌∷◌, nat_lt, is_some, IfOk, IfSome, OnOk, OnErr};
ghost use Rattle.std.specs.List.{position};
ghost use Rattle.bs_tree.specs.Code.{same_code, child_codes};
ghost use Rattle.bs_core.specs.Machine.{times, code_at, without, is_name, has_all, taken, left};

use crate::name::Name;
use crate::names::Names;
use crate::table::Held;
use bs_tree::Code;
use std::alloc::{AllocError, Global};
use std::marker::Model;

/// The pairs of a party, in the order in which they came.
#[derive(Drop)]
pub struct Hand {
    held: Vec<Held>,
}

impl Model for Hand {
    ghost use Rattle.std.specs.Prelude.{List};
    ghost use Rattle.bs_core.specs.declared.table.Held.{Held};

    ghost Value = { List Held };

    ghost view = { λ a. a.held.items };
}

/// The place of the first pair with this name.
fn place_of(held: &[Held], name: Name) -> Option<usize>
    ensures { result ≡ position (λ p. is_name name p.name) held.now }
{
    held.iter().position(|pair| name == pair.name)
}

/// The place of the first pair with this code.
fn place_of_code(held: &[Held], code: &Code) -> Option<usize>
    ensures { result ≡ position (λ p. same_code code.now p.code) held.now }
{
    held.iter().position(|pair| *code == pair.code)
}

/// What a list gives for the children of a code.
#[derive(Drop)]
pub struct Taken {
    pub names: Names,
    pub rest: Hand,
}

impl Hand {
    /// No pair. Takes no memory.
    pub fn new(alloc: Global) -> Hand
        ensures { result ≡ [] }
    {
        Hand {
            held: Vec::new(alloc),
        }
    }

    /// The pairs in order.
    pub fn held(&self) -> &[Held]
        ensures { result.now ≡ self.now }
    {
        &self.held
    }

    /// Whether a pair has this name.
    pub fn has(&self, name: Name) -> bool
        ensures { result ≡ nat_lt 0 (times name self.now) }
    {
        place_of(&self.held, name).is_some()
    }

    /// The code of the first pair with this name; a leaf's, where there is none.
    pub fn code_of(&self, name: Name) -> Code
        ensures { result ≡ code_at name self.now }
    {
        match place_of(&self.held, name) {
            Some(place) => self.held[place].code,
            None => Code::leaf(0),
        }
    }

    /// Puts the pair last.
    pub fn push(&mut self, pair: Held) -> Result<(), AllocError>
        ensures ok { OnOk result (self.new ≡ self.old ++ pair ∷ []) }
        ensures err { OnErr result (self.new ≡ self.old) }
    {
        self.held.push(pair)?;
        Ok(())
    }

    /// Puts the pairs last, all or none.
    pub fn push_all(&mut self, pairs: &[Held]) -> Result<(), AllocError>
        ensures ok { OnOk result (self.new ≡ self.old ++ pairs.now) }
        ensures err { OnErr result (self.new ≡ self.old) }
    {
        self.held.extend_from_slice(pairs)?;
        Ok(())
    }

    /// Takes the first pair with this name out.
    pub fn drop_first(&mut self, name: Name)
        ensures { self.new ≡ without name self.old }
    {
        if let Some(place) = place_of(&self.held, name) {
            let _gone = self.held.remove(place);
        }
    }

    /// The names of pairs for the children of a code, each pair used for one child, and the other pairs.
    ///
    /// `None` where a child has no pair left.
    pub fn taken(&self, alloc: Global, code: &Code) -> Result<Option<Taken>, AllocError>
        ensures all { IfOk result (λ found. is_some found ≡ has_all (child_codes code.now) self.now) }
        ensures names { IfOk result (λ found. IfSome found (λ t. t.names ≡ taken (child_codes code.now) self.now)) }
        ensures rest { IfOk result (λ found. IfSome found (λ t. t.rest ≡ left (child_codes code.now) self.now)) }
    {
        let mut names = Names::new(alloc);
        let mut rest = Vec::from_slice(alloc, &self.held)?;
        'children: for place in 0..code.arity() {
            let child = code.child(place);
            match place_of_code(&rest, &child) {
                Some(at) => {
                    let pair = rest.remove(at);
                    names.push(pair.name)?;
                }
                None => return Ok(None),
            }
        }
        Ok(Some(Taken {
            names,
            rest: Hand { held: rest },
        }))
    }
}
