//! A table of numbers by two numbers, of which a part is remembered. Contracts see a `Memo` as its rows.
//!
//! A table has at most CELLS cells; where they are used up, what would take more is not remembered.
ghost use Rattle.std.specs.Prelude.{◌≡◌, ℕ, ◌<◌, ◌⊎◌, [], map, slice_index};
ghost use Rattle.bs_catalog.specs.Memo.{entry, OneSet};

use std::alloc::{AllocError, Global};
use std::marker::Model;

/// Numbers by two numbers, 0 where none is remembered.
#[derive(Drop)]
pub(crate) struct Memo {
    alloc: Global,
    room: usize,
    rows: Vec<Vec<u32>>,
}

impl Model for Memo {
    ghost use Rattle.std.specs.Prelude.{ℕ, List, map};

    ghost Value = { List (List ℕ) };

    ghost view = { λ a. map (λ row. row.items) a.rows.items };
}

/// How many cells a table may have.
const CELLS: usize = 1 << 23;

/// How many cells more a table takes for one at this place, where a row counts as six.
fn cost(rows: &[Vec<u32>], first: usize, second: usize) -> usize {
    let above = first.saturating_add(1).saturating_sub(rows.len());
    let filled = match rows.get(first) {
        Some(row) => row.len(),
        None => 0,
    };
    let beside = second.saturating_add(1).saturating_sub(filled);
    above.saturating_mul(6).saturating_add(beside)
}

/// Puts a number at its place, with 0 at each place in front of it that has none.
fn set_at(row: &mut Vec<u32>, place: usize, value: u32) -> Result<(), AllocError>
    ensures { (j : ℕ) → 0 < slice_index row.new.items j → (slice_index row.new.items j ≡ slice_index row.old.items j) ⊎ ((j ≡ place) × (slice_index row.new.items j ≡ value)) }
{
    'fill: while row.len() <= place {
        row.push(0)?;
    }
    row[place] = value;
    Ok(())
}

/// Puts empty rows last, so that there is one at this place.
fn grow(alloc: Global, rows: &mut Vec<Vec<u32>>, place: usize) -> Result<(), AllocError>
    ensures { (i j : ℕ) → entry (map (λ row. row.items) rows.new.items) i j ≡ entry (map (λ row. row.items) rows.old.items) i j }
{
    'fill: while rows.len() <= place {
        rows.push(Vec::new(alloc))?;
    }
    Ok(())
}

impl Memo {
    /// Nothing is remembered. Takes no memory.
    pub(crate) fn new(alloc: Global) -> Memo
        ensures { result ≡ [] }
    {
        Memo {
            alloc,
            room: CELLS,
            rows: Vec::new(alloc),
        }
    }

    /// The number of these two, 0 where none is remembered.
    pub(crate) fn get(&self, first: u32, second: u32) -> u32
        ensures { result ≡ entry self.now first second }
    {
        let Some(row) = self.rows.get(first as usize) else {
            return 0;
        };
        let Some(value) = row.get(second as usize) else {
            return 0;
        };
        *value
    }

    /// The number of these two is this one from now on, or what it was.
    pub(crate) fn set(&mut self, first: u32, second: u32, value: u32) -> Result<(), AllocError>
        ensures { OneSet self.old self.new first second value }
    {
        let cost = cost(&self.rows, first as usize, second as usize);
        if self.room < cost {
            return Ok(());
        }
        self.room -= cost;
        grow(self.alloc, &mut self.rows, first as usize)?;
        let Some(row) = self.rows.get_mut(first as usize) else {
            return Ok(());
        };
        set_at(row, second as usize, value)
    }
}
