//! A tableau. A contract sees it as its `Table`.

ghost use Rattle.std.specs.Prelude.{◌≡◌, ◌<◌, ◌≤◌, ◌↔◌, IsTrue, IfOk, map, take};
ghost use Rattle.bs_tableau.specs.declared.TheConstants.{MAX_STAGES};
ghost use Rattle.bs_tableau.specs.Table.{IsWhole, first_row, matrix_entry, weight_entry, shown};

use crate::MAX_STAGES;
use crate::builder::Row;
use bs_frac::Frac;
use std::alloc::{AllocError, Global};
use std::marker::Model;

/// A Runge-Kutta method of one or more colours.
#[derive(Drop)]
pub struct Tableau {
    stages: usize,
    colours: usize,
    rows: Vec<Row>,
}

impl Model for Tableau {
    ghost use Rattle.bs_tableau.specs.Table.{Table, IsWhole, shown};

    ghost Value = { Table };

    ghost view = { λ a. shown a.stages a.colours a.rows.items };

    ghost invariant = { λ a. IsWhole (shown a.stages a.colours a.rows.items) };
}

impl Tableau {
    pub(crate) fn of_rows(stages: usize, colours: usize, rows: Vec<Row>) -> Tableau
        requires { IsWhole (shown stages colours rows.items) }
        ensures { result ≡ shown stages colours rows.items }
    {
        Tableau {
            stages,
            colours,
            rows,
        }
    }

    /// A copy.
    pub fn try_clone(&self, alloc: Global) -> Result<Tableau, AllocError>
        ensures { IfOk result (λ copy. copy ≡ self.now) }
    {
        let rows = Vec::from_slice(alloc, self.rows.as_slice())?;
        Ok(Tableau {
            stages: self.stages,
            colours: self.colours,
            rows,
        })
    }

    /// Whether both have the same numbers of stages and colours and the same entries.
    pub fn same(&self, other: &Tableau) -> bool
        ensures { IsTrue result ↔ (self.now ≡ other.now) }
    {
        self.stages == other.stages
            && self.colours == other.colours
            && same_rows(self.stages, self.rows.as_slice(), other.rows.as_slice())
    }

    /// The number of stages.
    pub fn stages(&self) -> usize
        ensures value { result ≡ self.now.stages }
        ensures whole { IsWhole self.now }
    {
        self.stages
    }

    /// The number of colours.
    pub fn colours(&self) -> usize
        ensures value { result ≡ self.now.colours }
        ensures whole { IsWhole self.now }
    {
        self.colours
    }

    /// Where the rows of a colour begin.
    fn first_row(&self, colour: usize) -> usize
        requires { colour < self.now.colours }
        ensures { result ≡ first_row self.now colour }
    {
        colour * (self.stages + 1)
    }

    /// The entry of this colour's matrix.
    pub fn a(&self, colour: usize, row: usize, column: usize) -> Frac
        requires colour { colour < self.now.colours }
        requires row { row < self.now.stages }
        requires column { column < self.now.stages }
        ensures { result ≡ matrix_entry self.now colour row column }
    {
        self.rows[self.first_row(colour) + row][column]
    }

    /// The weight of this colour at this stage.
    pub fn b(&self, colour: usize, stage: usize) -> Frac
        requires colour { colour < self.now.colours }
        requires stage { stage < self.now.stages }
        ensures { result ≡ weight_entry self.now colour stage }
    {
        self.rows[self.first_row(colour) + self.stages][stage]
    }
}

/// Whether the rows are the same as far as this number of stages.
fn same_rows(stages: usize, left: &[Row], right: &[Row]) -> bool
    requires { stages ≤ MAX_STAGES }
    ensures { IsTrue result ↔ (map (take stages) left.now ≡ map (take stages) right.now) }
{
    if left.len() != right.len() {
        return false;
    }
    'rows: for row in 0..left.len() {
        if !same_row(stages, &left[row], &right[row]) {
            return false;
        }
    }
    true
}

/// Whether two rows are the same as far as this number of stages.
fn same_row(stages: usize, left: &Row, right: &Row) -> bool
    requires { stages ≤ MAX_STAGES }
    ensures { IsTrue result ↔ (take stages left.now ≡ take stages right.now) }
{
    left[..stages] == right[..stages]
}
