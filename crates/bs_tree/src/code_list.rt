//! A list of codes, kept in place.
//!
//! Contracts see a `CodeList` as the list of its codes. No call takes memory.
ghost use Rattle.std.specs.Prelude.{◌≡◌, ◌+◌, ◌<◌, ◌≤◌, ◌++◌, [], ◌∷◌, IsSorted, IsPermutation, IfSome, Some, count_by, drop, length, slice_get, nat_eq};
ghost use Rattle.std.specs.Ordering.{flip_args};
ghost use Rattle.bs_tree.specs.Canonical.{sequence_cmp};
ghost use Rattle.bs_tree.specs.Code.{same_code};

use crate::MAX_NODES;
use crate::code::Code;
use std::marker::Model;

/// A list of at most MAX_NODES codes.
#[derive(Clone, Copy)]
pub struct CodeList {
    len: usize,
    codes: [Code; MAX_NODES],
}

impl Model for CodeList {
    ghost use Rattle.std.specs.Prelude.{◌≡◌, ℕ, List, ◌-◌, ◌≤◌, ◌++◌, take, drop, length, replicate};
    ghost use Rattle.bs_tree.specs.CodeBack.{code_padding, codes_back};
    ghost use Rattle.bs_tree.specs.declared.TheConstants.{MAX_NODES};

    ghost Value = { List (List (ℕ × ℕ)) };

    ghost view = { λ a. take a.len a.codes };

    ghost invariant = { λ a. (length a.codes ≡ MAX_NODES) × (a.len ≤ MAX_NODES) × (drop a.len a.codes ≡ replicate (MAX_NODES - a.len) code_padding) };

    ghost inverse = { λ v. record { len = length v; codes = v ++ replicate (MAX_NODES - length v) code_padding } };

    ghost inverse_ok = { λ a h. codes_back a.len a.codes h.0 h.1 h.2 };
}

impl CodeList {
    /// The list with no code.
    pub fn new() -> CodeList
        ensures { result ≡ [] }
    {
        CodeList {
            len: 0,
            codes: [Code::leaf(0); MAX_NODES],
        }
    }

    /// The number of codes.
    pub fn len(&self) -> usize
        ensures value { result ≡ length self.now }
        ensures small { result ≤ MAX_NODES }
    {
        self.len
    }

    /// Whether there is no code.
    pub fn is_empty(&self) -> bool
        ensures { result ≡ nat_eq (length self.now) 0 }
    {
        self.len() == 0
    }

    /// Puts the code last.
    pub fn push(&mut self, code: Code)
        requires { length self.old < MAX_NODES }
        ensures { self.new ≡ self.old ++ code ∷ [] }
    {
        self.codes[self.len] = code;
        self.len += 1;
    }

    /// The code at this place, counted from 0.
    pub fn get(&self, place: usize) -> Code
        requires { place < length self.now }
        ensures { slice_get self.now place ≡ Some result }
    {
        self.codes()[place]
    }

    pub(crate) fn codes(&self) -> &[Code]
        ensures value { result.now ≡ self.now }
        ensures small { length result.now ≤ MAX_NODES }
    {
        &self.codes[..self.len]
    }

    /// How many codes behind this place equal the one there.
    pub(crate) fn count_later(&self, place: usize) -> usize
        requires { place < length self.now }
        ensures { IfSome (slice_get self.now place) (λ code. result ≡ count_by (λ c. same_code c code) (drop (place + 1) self.now)) }
    {
        let codes = self.codes();
        let code = codes[place];
        codes[place + 1..].iter().filter(|c| **c == code).count()
    }

    /// Puts the greater codes first.
    pub(crate) fn sort(&mut self)
        ensures order { IsSorted (flip_args sequence_cmp) self.new }
        ensures same { IsPermutation self.old self.new }
    {
        let codes = &mut self.codes[..self.len];
        codes.sort_unstable();
        codes.reverse();
    }
}
