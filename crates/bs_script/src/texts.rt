//! A list of texts in one buffer. A contract sees a `Texts` as that list.

ghost use Rattle.std.specs.Prelude.{◌≡◌, ◌+◌, ◌<◌, ◌≤◌, List, [], ◌∷◌, ◌++◌, ℕ, length, Some, OnOk, OnErr, slice_get};
ghost use Rattle.bs_script.specs.Texts.{piece, pieces, AreEnds};

use std::alloc::{AllocError, Global};
use std::marker::Model;

/// Texts, one after another, with the place where each ends.
#[derive(Drop)]
pub struct Texts {
    bytes: Vec<u8>,
    ends: Vec<usize>,
}

impl Model for Texts {
    ghost use Rattle.std.specs.Prelude.{ℕ, List, length};
    ghost use Rattle.bs_script.specs.Texts.{pieces, AreEnds};

    ghost Value = { List (List ℕ) };

    ghost view = { λ a. pieces a.bytes.items 0 a.ends.items };

    ghost invariant = { λ a. AreEnds 0 a.ends.items (length a.bytes.items) };
}

/// Where the text at this place begins, and where it ends.
fn bounds_of(ends: &[usize], place: usize) -> (usize, usize)
    requires { place < length ends.now }
    ensures piece { (text : List ℕ) → slice_get (pieces text 0 ends.now) place ≡ Some (piece text result.0 result.1) }
    ensures within { (last : ℕ) → AreEnds 0 ends.now last → (result.0 ≤ result.1) × (result.1 ≤ last) }
{
    if place == 0 {
        (0, ends[0])
    } else {
        (ends[place - 1], ends[place])
    }
}

impl Texts {
    /// No texts. Takes no memory.
    pub fn new(alloc: Global) -> Texts
        ensures { result ≡ [] }
    {
        Texts {
            bytes: Vec::new(alloc),
            ends: Vec::new(alloc),
        }
    }

    pub fn len(&self) -> usize
        ensures { result ≡ length self.now }
    {
        self.ends.len()
    }

    pub fn get(&self, place: usize) -> &[u8]
        requires { place < length self.now }
        ensures { slice_get self.now place ≡ Some result.now }
    {
        let (from, to) = bounds_of(&self.ends, place);
        &self.bytes[from..to]
    }

    /// Adds a copy of the text.
    pub fn push(&mut self, text: &[u8]) -> Result<(), AllocError>
        ensures ok { OnOk result (self.new ≡ self.old ++ text.now ∷ []) }
        ensures err { OnErr result (self.new ≡ self.old) }
    {
        self.ends.reserve(1)?;
        self.bytes.extend_from_slice(text)?;
        self.ends.push_reserved(self.bytes.len());
        Ok(())
    }
}
