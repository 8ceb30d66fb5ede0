//! Trees by number, with what is remembered of pairs of them. Contracts see an `Arena` as its list of codes.
ghost use Rattle.std.specs.Prelude.{◌≡◌, ◌+◌, ◌<◌, ◌≤◌, ◌++◌, ◌∷◌, [], All, length, IfOk, IfSome, OnOk, Some, slice_get};
ghost use Rattle.bs_tree.specs.Code.{child_codes, deeper};
ghost use Rattle.bs_tree.specs.declared.TheConstants.{MAX_NODES};
ghost use Rattle.bs_catalog.specs.Shelf.{Code as Pair_list, Numbers};
ghost use Rattle.bs_catalog.specs.Making.{attached, merged, without_first};
ghost use Rattle.bs_catalog.specs.Memo.{Extends, Makes};

use crate::memo::Memo;
use bs_tree::{Code, MAX_NODES, Pairs};
use indexmap::IndexMap;
use std::alloc::{AllocError, Global};
use std::marker::Model;

/// Trees by number. The table of places has for each number that is made of a code a place where that code may stand.
#[derive(Drop)]
pub(crate) struct Arena {
    codes: Vec<Code>,
    places: IndexMap<u128, u32>,
    attaches: Memo,
    merges: Memo,
}

impl Model for Arena {
    ghost use Rattle.std.specs.Prelude.{List};
    ghost use Rattle.bs_catalog.specs.Shelf.{Code};
    ghost use Rattle.bs_catalog.specs.Making.{attached, merged};
    ghost use Rattle.bs_catalog.specs.Memo.{Remembers};

    ghost Value = { List Code };

    ghost view = { λ a. a.codes.items };

    ghost invariant = { λ a. Remembers attached a.codes.items a.attaches × Remembers merged a.codes.items a.merges };
}

/// A number made of a code, the same for equal codes.
fn key_of(code: &Code) -> u128 {
    let mut key: u128 = 0;
    'pairs: for pair in code.pairs() {
        let digit = 4 * u128::from(pair.0) + u128::from(pair.1);
        key = key.wrapping_mul(128).wrapping_add(digit);
    }
    key
}

/// Appends the pairs.
fn push_all(all: &mut Pairs, pairs: &[(u8, u8)])
    requires { length all.old + length pairs.now ≤ MAX_NODES }
    ensures { all.new ≡ all.old ++ pairs.now }
{
    'pairs: for pair in pairs {
        all.push(*pair);
    }
}

/// Appends the pairs, each one level deeper.
fn push_deeper(all: &mut Pairs, pairs: &[(u8, u8)])
    requires room { length all.old + length pairs.now ≤ MAX_NODES }
    requires levels { All (λ p. (0 < p.0) × (p.0 ≤ MAX_NODES)) pairs.now }
    ensures { all.new ≡ all.old ++ deeper pairs.now }
{
    'pairs: for pair in pairs {
        all.push((pair.0 + 1, pair.1));
    }
}

/// The tree of the first with that of the second as one more child, where it has no more than MAX_NODES nodes.
fn attach_code(first: &Code, second: &Code) -> Option<Code>
    ensures { IfSome result (λ code. code ≡ attached first.now second.now) }
{
    let (top, below) = (first.pairs(), second.pairs());
    if MAX_NODES < top.len() + below.len() {
        return None;
    }
    let mut pairs = Pairs::new();
    push_all(&mut pairs, &top[..1]);
    push_deeper(&mut pairs, below);
    push_all(&mut pairs, &top[1..]);
    Code::of_pairs(pairs.as_slice())
}

/// The tree of the first with the children of the second's root as well, where it has no more than MAX_NODES nodes.
fn merge_code(first: &Code, second: &Code) -> Option<Code>
    ensures { IfSome result (λ code. code ≡ merged first.now second.now) }
{
    let (top, below) = (first.pairs(), second.pairs());
    if MAX_NODES < top.len() + below.len() {
        return None;
    }
    let mut pairs = Pairs::new();
    push_all(&mut pairs, &top[..1]);
    push_all(&mut pairs, &below[1..]);
    push_all(&mut pairs, &top[1..]);
    Code::of_pairs(pairs.as_slice())
}

/// The tree without its first child, which it has.
pub(crate) fn without_first(code: &Code) -> Code
    requires { 0 < length (child_codes code.now) }
    ensures is { result ≡ without_first code.now }
    ensures shorter { length result < length code.now }
{
    let _order = code.order();
    let end = code.subtree_end(1);
    let mut pairs = Pairs::new();
    push_all(&mut pairs, &code.pairs()[..1]);
    push_all(&mut pairs, &code.pairs()[end..]);
    Code::of_level_sequence(pairs.as_slice())
}

impl Arena {
    /// No tree. Takes no memory.
    pub(crate) fn new(alloc: Global) -> Arena
        ensures { result ≡ [] }
    {
        Arena {
            codes: Vec::new(alloc),
            places: IndexMap::new(alloc),
            attaches: Memo::new(alloc),
            merges: Memo::new(alloc),
        }
    }

    /// How many trees there are.
    pub(crate) fn len(&self) -> usize
        ensures { result ≡ length self.now }
    {
        self.codes.len()
    }

    /// The code of a number.
    pub(crate) fn code(&self, number: u32) -> Code
        requires { number < length self.now }
        ensures { Numbers self.now number result }
    {
        self.codes[number as usize]
    }

    /// The code of a number, where it has one.
    fn get(&self, number: u32) -> Option<Code>
        ensures { result ≡ slice_get self.now number }
    {
        self.codes.get(number as usize).copied()
    }

    /// The number of a code, where its place is known.
    fn find(&self, key: u128, code: &Code) -> Option<u32>
        ensures { IfSome result (λ n. Numbers self.now n code.now) }
    {
        let number = *self.places.get(&key)?;
        let stored = self.codes.get(number as usize)?;
        if stored == code { Some(number) } else { None }
    }

    /// Puts a code last.
    fn add(&mut self, key: u128, code: &Code) -> Result<u32, AllocError>
        ensures grows { Extends self.old self.new }
        ensures is { IfOk result (λ n. Numbers self.new n code.now) }
    {
        let Ok(number) = u32::try_from(self.codes.len()) else {
            return Err(AllocError);
        };
        self.places.insert(key, number)?;
        self.codes.push(*code)?;
        Ok(number)
    }

    /// The number of a code.
    pub(crate) fn number(&mut self, code: &Code) -> Result<u32, AllocError>
        ensures grows { Extends self.old self.new }
        ensures is { IfOk result (λ n. Numbers self.new n code.now) }
    {
        let key = key_of(code);
        match self.find(key, code) {
            Some(number) => Ok(number),
            None => self.add(key, code),
        }
    }

    /// The number of the first tree with the second as one more child, made of their codes.
    fn attach_anew(&mut self, first: u32, second: u32) -> Result<u32, AllocError>
        ensures grows { Extends self.old self.new }
        ensures is { IfOk result (λ n. Makes attached self.new first second n) }
    {
        let (Some(top), Some(below)) = (self.get(first), self.get(second)) else {
            return Err(AllocError);
        };
        let Some(code) = attach_code(&top, &below) else {
            return Err(AllocError);
        };
        self.number(&code)
    }

    /// The number of the first tree with the children of the second's root as well, made of their codes.
    fn merge_anew(&mut self, first: u32, second: u32) -> Result<u32, AllocError>
        ensures grows { Extends self.old self.new }
        ensures is { IfOk result (λ n. Makes merged self.new first second n) }
    {
        let (Some(top), Some(below)) = (self.get(first), self.get(second)) else {
            return Err(AllocError);
        };
        let Some(code) = merge_code(&top, &below) else {
            return Err(AllocError);
        };
        self.number(&code)
    }

    /// The number of the first tree with the second as one more child.
    pub(crate) fn attach(&mut self, first: u32, second: u32) -> Result<u32, AllocError>
        ensures grows { Extends self.old self.new }
        ensures is { IfOk result (λ n. Makes attached self.new first second n) }
    {
        let known = self.attaches.get(first, second);
        if known > 0 {
            return Ok(known - 1);
        }
        let number = self.attach_anew(first, second)?;
        if number < u32::MAX {
            self.attaches.set(first, second, number + 1)?;
        }
        Ok(number)
    }

    /// The number of the first tree with the children of the second's root as well.
    pub(crate) fn merge(&mut self, first: u32, second: u32) -> Result<u32, AllocError>
        ensures grows { Extends self.old self.new }
        ensures is { IfOk result (λ n. Makes merged self.new first second n) }
    {
        let known = self.merges.get(first, second);
        if known > 0 {
            return Ok(known - 1);
        }
        let number = self.merge_anew(first, second)?;
        if number < u32::MAX {
            self.merges.set(first, second, number + 1)?;
        }
        Ok(number)
    }
}
