//! Rows with the same first tree and the same forest behind it, gathered.
//!
//! A forest has the number of the tree that has it below a root of colour 0: the order of the forest is nothing to that tree.
ghost use Rattle.std.specs.Prelude.{All, ◌≡◌, ◌<◌, ◌≤◌, ◌+◌, ◌^◌, ◌++◌, ◌∷◌, [], List, length, IfOk, OnOk, IsTrue, slice_range};
ghost use Rattle.std.specs.List.{AllByRecursion};
ghost use Rattle.bs_catalog.specs.Shelf.{Code as Pairs, Numbers, AreNumbers, AreRows};
ghost use Rattle.bs_catalog.specs.Memo.{Extends};
ghost use Rattle.bs_catalog.specs.Gathered.{AreGathered, gathered_key};
ghost use Rattle.bs_catalog.specs.Forests.{IsSequence, AreSequences, IsForest, PutsKey, HasKeys, AreGroups, key_of};
ghost use Rattle.bs_catalog.specs.declared.gathering.Key.{Key as KeyOfRow};

use crate::arena::Arena;
use crate::making::{behind, first_of};
use crate::rows::Rows;
use bs_tree::Code;
use std::alloc::{AllocError, Global};
use std::marker::Model;

/// Rows with the same first tree and the same forest behind it, as one: the place of one of them, the numbers of that tree and of
/// that forest, and how often they come.
#[derive(Clone, Copy)]
pub struct Gathered {
    pub row: usize,
    pub first: u32,
    pub forest: u32,
    pub times: u32,
}

/// What a row is gathered by, and its place.
#[derive(Clone, Copy, PartialEq, Eq, PartialOrd, Ord)]
pub(crate) struct Key {
    first: u32,
    forest: u32,
    row: usize,
}

/// What is gathered of some rows. Contracts see it as the list of it.
#[derive(Drop)]
pub(crate) struct Groups {
    groups: Vec<Gathered>,
}

impl Model for Groups {
    ghost use Rattle.std.specs.Prelude.{List};
    ghost use Rattle.bs_catalog.specs.declared.gathering.Gathered.{Gathered as Group};

    ghost Value = { List Group };

    ghost view = { λ a. a.groups.items };
}

impl Groups {
    /// Nothing is gathered. Takes no memory.
    pub(crate) fn new(alloc: Global) -> Groups
        ensures { result ≡ [] }
    {
        Groups {
            groups: Vec::new(alloc),
        }
    }

    pub(crate) fn groups(&self) -> &[Gathered]
        ensures { result.now ≡ self.now }
    {
        &self.groups
    }
}

/// The number of the forest of these trees. `leaf` is the number of the tree of one node.
fn forest_of(arena: &mut Arena, leaf: u32, trees: &[u32]) -> Result<u32, AllocError>
    requires { Numbers arena.old leaf ((1, 0) ∷ []) }
    ensures grows { Extends arena.old arena.new }
    ensures is { IfOk result (λ n. (codes : List Pairs) → AreNumbers arena.old trees.now codes → AllByRecursion IsSequence codes → IsForest arena.new n codes) }
{
    let mut forest = leaf;
    'trees: for tree in trees {
        forest = arena.attach(forest, *tree)?;
    }
    Ok(forest)
}

/// Puts the key of the row at this place last.
fn push_key(
    arena: &mut Arena,
    leaf: u32,
    row: &[u32],
    place: usize,
    keys: &mut Vec<Key>,
) -> Result<(), AllocError>
    requires leaf { Numbers arena.old leaf ((1, 0) ∷ []) }
    requires some { 1 ≤ length row.now }
    ensures grows { Extends arena.old arena.new }
    ensures put { OnOk result ((codes : List Pairs) → AreNumbers arena.old row.now codes → AllByRecursion IsSequence codes → PutsKey arena.new row.now place keys.old.items keys.new.items) }
{
    let first = first_of(row);
    let forest = forest_of(arena, leaf, behind(row))?;
    keys.push(Key {
        first,
        forest,
        row: place,
    })?;
    Ok(())
}

/// The keys of the rows from one place up to another.
fn keys_between(
    alloc: Global,
    arena: &mut Arena,
    rows: &Rows,
    start: usize,
    end: usize,
) -> Result<Vec<Key>, AllocError>
    requires up { start ≤ end }
    requires within { end ≤ length rows.now }
    requires some { All (λ row. 1 ≤ length row) rows.now }
    ensures grows { Extends arena.old arena.new }
    ensures are { IfOk result (λ keys. (lists : List (List Pairs)) → AreRows arena.old rows.now lists → AreSequences lists → HasKeys arena.new rows.now (slice_range rows.now start end) keys.items) }
{
    let leaf = arena.number(&Code::leaf(0))?;
    let mut keys = Vec::new(alloc);
    'rows: for place in start..end {
        push_key(arena, leaf, rows.get(place), place, &mut keys)?;
    }
    Ok(keys)
}

/// The row of a key, as gathered alone.
fn alone(key: &Key) -> Gathered
    ensures key { gathered_key result ≡ key_of key.now }
    ensures row { result.row ≡ key.now.row }
    ensures times { result.times ≡ 1 }
{
    Gathered {
        row: key.row,
        first: key.first,
        forest: key.forest,
        times: 1,
    }
}

/// Whether the key is that of the group, and the group can be counted on.
fn joins(group: &Gathered, key: &Key) -> bool
    ensures key { IsTrue result → gathered_key group.now ≡ key_of key.now }
    ensures room { IsTrue result → group.now.times + 1 < 2 ^ 32 }
{
    group.first == key.first && group.forest == key.forest && group.times < u32::MAX
}

/// Counts the key with the last group; or puts that group behind the others, and begins the next one with the key.
fn count(groups: &mut Vec<Gathered>, group: &Gathered, key: &Key) -> Result<Gathered, AllocError>
    ensures { IfOk result (λ next. (keys : List KeyOfRow) → AreGroups keys (groups.old.items ++ group.now ∷ []) → AreGroups (keys ++ key.now ∷ []) (groups.new.items ++ next ∷ [])) }
{
    if joins(group, key) {
        return Ok(Gathered {
            times: group.times + 1,
            ..*group
        });
    }
    groups.push(*group)?;
    Ok(alone(key))
}

/// Keys with equal neighbours as one.
fn grouped(alloc: Global, keys: &[Key]) -> Result<Groups, AllocError>
    ensures { IfOk result (λ groups. AreGroups keys.now groups) }
{
    let mut groups = Vec::new(alloc);
    let [first, ..] = keys else {
        return Ok(Groups { groups });
    };
    let mut group = alone(first);
    'keys: for place in 1..keys.len() {
        group = count(&mut groups, &group, &keys[place])?;
    }
    groups.push(group)?;
    Ok(Groups { groups })
}

/// The rows from one place up to another, gathered.
pub(crate) fn gather(
    alloc: Global,
    arena: &mut Arena,
    rows: &Rows,
    start: usize,
    end: usize,
) -> Result<Groups, AllocError>
    requires up { start ≤ end }
    requires within { end ≤ length rows.now }
    requires some { All (λ row. 1 ≤ length row) rows.now }
    ensures grows { Extends arena.old arena.new }
    ensures gathered { IfOk result (λ groups. (lists : List (List Pairs)) → AreRows arena.old rows.now lists → AreSequences lists → AreGathered arena.new rows.now (slice_range rows.now start end) groups) }
{
    let mut keys = keys_between(alloc, arena, rows, start, end)?;
    keys.sort_unstable();
    grouped(alloc, &keys)
}
