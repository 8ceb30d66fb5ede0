//! Rows of numbers, kept in one list. Contracts see `Rows` as the list of them.
ghost use Rattle.std.specs.Prelude.{◌≡◌, ◌<◌, ◌≤◌, ◌++◌, ◌∷◌, [], length, OnOk, Some, slice_get, slice_range};
ghost use Rattle.bs_catalog.specs.RowList.{start_at};

use std::alloc::{AllocError, Global};
use std::marker::Model;

/// Rows of numbers, one after the other.
#[derive(Drop)]
pub struct Rows {
    ends: Vec<usize>,
    pool: Vec<u32>,
}

impl Model for Rows {
    ghost use Rattle.std.specs.Prelude.{ℕ, List, length};
    ghost use Rattle.bs_catalog.specs.RowList.{rows_from, Ascends};

    ghost Value = { List (List ℕ) };

    ghost view = { λ a. rows_from 0 a.ends.items a.pool.items };

    ghost invariant = { λ a. Ascends 0 a.ends.items (length a.pool.items) };
}

/// Where the row at this place begins.
fn start_at(ends: &[usize], place: usize) -> usize
    requires { place ≤ length ends.now }
    ensures { result ≡ start_at ends.now place }
{
    if place == 0 { 0 } else { ends[place - 1] }
}

/// The numbers from one place up to another.
fn row_between(pool: &[u32], start: usize, end: usize) -> &[u32]
    requires up { start ≤ end }
    requires within { end ≤ length pool.now }
    ensures { result.now ≡ slice_range pool.now start end }
{
    &pool[start..end]
}

/// Appends three slices.
fn append(
    pool: &mut Vec<u32>,
    first: &[u32],
    second: &[u32],
    third: &[u32],
) -> Result<(), AllocError>
    ensures items { OnOk result (pool.new.items ≡ pool.old.items ++ (first.now ++ (second.now ++ third.now))) }
    ensures longer { length pool.old.items ≤ length pool.new.items }
{
    pool.extend_from_slice(first)?;
    pool.extend_from_slice(second)?;
    pool.extend_from_slice(third)
}

impl Rows {
    /// No row. Takes no memory.
    pub fn new(alloc: Global) -> Rows
        ensures { result ≡ [] }
    {
        Rows {
            ends: Vec::new(alloc),
            pool: Vec::new(alloc),
        }
    }

    /// The number of rows.
    pub fn len(&self) -> usize
        ensures { result ≡ length self.now }
    {
        self.ends.len()
    }

    /// How many numbers all rows have, and room for more of them that a refusal left behind.
    pub(crate) fn numbers(&self) -> usize {
        self.pool.len()
    }

    /// The row at this place, counted from 0.
    pub fn get(&self, place: usize) -> &[u32]
        requires { place < length self.now }
        ensures { slice_get self.now place ≡ Some result.now }
    {
        let start = start_at(&self.ends, place);
        row_between(&self.pool, start, self.ends[place])
    }

    /// Puts the row of these numbers last, those of one slice after those of the other. What an earlier call put behind the last row
    /// before memory ran out is dropped.
    pub(crate) fn push(
        &mut self,
        first: &[u32],
        second: &[u32],
        third: &[u32],
    ) -> Result<(), AllocError>
        ensures { OnOk result (self.new ≡ self.old ++ (first.now ++ (second.now ++ third.now)) ∷ []) }
    {
        let end = start_at(&self.ends, self.ends.len());
        self.pool.truncate(end);
        append(&mut self.pool, first, second, third)?;
        self.ends.push(self.pool.len())?;
        Ok(())
    }
}
