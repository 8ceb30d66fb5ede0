//! Reading the lines of a tableau block. A contract sees a `Builder` as the `Table` of the rows so far.

ghost use Rattle.std.specs.Prelude.{◌≡◌, ℕ, suc, ◌+◌, ◌<◌, ◌≤◌, ◌↔◌, [], length, take, map, IsTrue, IfOk, OnErr, MatchResult, Ok, Err, Some, None};
ghost use Rattle.std.specs.List.{AllByRecursion};
ghost use Rattle.bs_frac.specs.Fraction.{IsReduced};
ghost use Rattle.bs_frac.specs.Text.{fraction_of};
ghost use Rattle.bs_tableau.specs.Table.{IsBegun, IsWhole, IsRow, row_count};
ghost use Rattle.bs_tableau.specs.Words.{words};
ghost use Rattle.bs_tableau.specs.Rows.{row_in, fractions_of, next_letter, outcome_of, row_of, with_line};

use crate::tableau::Tableau;
use crate::words::Words;
use crate::{MAX_COLOURS, MAX_STAGES};
use bs_frac::Frac;
use std::alloc::{AllocError, Global};
use std::marker::Model;
use thiserror::Error;

/// A row of fractions, and zeros up to MAX_STAGES.
pub(crate) type Row = [Frac; MAX_STAGES];

/// Why a line is not the next row.
#[derive(Clone, Copy, PartialEq, Eq, Debug, Error)]
pub enum TableauFault {
    /// The first word is not the expected `a` or `b`.
    #[error("line missing")]
    Missing,
    /// The number of further words is not the number of stages.
    #[error("bad count")]
    BadCount,
    /// One of the further words is not a fraction.
    #[error("bad fraction")]
    BadFraction,
}

/// A tableau whose rows are read line by line.
#[derive(Drop)]
pub struct Builder {
    stages: usize,
    colours: usize,
    rows: Vec<Row>,
}

impl Model for Builder {
    ghost use Rattle.std.specs.Prelude.{◌≤◌, vec_capacity};
    ghost use Rattle.bs_tableau.specs.Table.{Table, IsBegun, row_count, shown};

    ghost Value = { Table };

    ghost view = { λ a. shown a.stages a.colours a.rows.items };

    ghost invariant = { λ a. IsBegun (shown a.stages a.colours a.rows.items) × (row_count (shown a.stages a.colours a.rows.items) ≤ vec_capacity a.rows) };
}

impl Builder {
    /// Takes all the memory that the tableau needs.
    pub fn new(alloc: Global, stages: usize, colours: usize) -> Result<Builder, AllocError>
        requires some_stages { 0 < stages }
        requires few_stages { stages ≤ MAX_STAGES }
        requires some_colours { 0 < colours }
        requires few_colours { colours ≤ MAX_COLOURS }
        ensures { IfOk result (λ builder. builder ≡ record { stages = stages; colours = colours; rows = [] }) }
    {
        let rows = Vec::with_capacity(alloc, colours * (stages + 1))?;
        Ok(Builder {
            stages,
            colours,
            rows,
        })
    }

    /// Are all rows read?
    pub fn complete(&self) -> bool
        ensures value { IsTrue result ↔ (length self.now.rows ≡ row_count self.now) }
        ensures begun { IsBegun self.now }
    {
        self.rows.len() == self.colours * (self.stages + 1)
    }

    /// Reads the next row.
    pub fn line(&mut self, text: &[u8]) -> Result<(), TableauFault>
        requires { length self.old.rows < row_count self.old }
        ensures outcome { result ≡ outcome_of (row_of self.old text.now) }
        ensures rows { self.new ≡ with_line self.old text.now }
    {
        let letter = self.next_letter();
        let row = read_row(text, letter, self.stages)?;
        self.rows.push_reserved(row);
        Ok(())
    }

    /// The first word of the next line.
    fn next_letter(&self) -> u8
        ensures { result ≡ next_letter self.now }
    {
        if self.rows.len() % (self.stages + 1) == self.stages {
            b'b'
        } else {
            b'a'
        }
    }

    pub fn finish(self) -> Tableau
        requires { length self.rows ≡ row_count self }
        ensures { result ≡ self }
    {
        Tableau::of_rows(self.stages, self.colours, self.rows)
    }
}

/// The row in a line that should begin with this letter.
fn read_row(line: &[u8], letter: u8, stages: usize) -> Result<Row, TableauFault>
    requires { stages ≤ MAX_STAGES }
    ensures value { MatchResult result (λ row. row_in letter stages (words line.now) ≡ Ok (take stages row)) (λ fault. row_in letter stages (words line.now) ≡ Err fault) }
    ensures row { IfOk result (λ row. IsRow stages (take stages row)) }
{
    let mut words = Words::new(line);
    match words.next() {
        Some([first]) if *first == letter => {}
        _ => return Err(TableauFault::Missing),
    }
    if !words.has(stages) {
        return Err(TableauFault::BadCount);
    }
    read_fractions(words)
}

/// The fractions in these words.
fn read_fractions(mut written: Words<'_>) -> Result<Row, TableauFault>
    requires { length written ≤ MAX_STAGES }
    ensures value { MatchResult result (λ row. fractions_of written.entry ≡ Ok (take (length written.entry) row)) (λ fault. fractions_of written.entry ≡ Err fault) }
    ensures reduced { IfOk result (λ row. AllByRecursion IsReduced (take (length written.entry) row)) }
{
    let mut row = zeros();
    let mut filled = 0;
    'words: while let Some(word) = written.next() {
        row[filled] = read_fraction(word)?;
        filled += 1;
    }
    Ok(row)
}

/// The fraction that a word writes, in lowest terms.
fn read_fraction(word: &[u8]) -> Result<Frac, TableauFault>
    ensures value { MatchResult result (λ x. fraction_of word.now ≡ Some x) (λ fault. (fraction_of word.now ≡ None) × (fault ≡ TableauFault.BadFraction)) }
    ensures reduced { IfOk result IsReduced }
{
    match Frac::read(word) {
        Ok(fraction) => Ok(fraction),
        Err(_) => Err(TableauFault::BadFraction),
    }
}

fn zeros() -> Row
    ensures { length result ≡ MAX_STAGES }
{
    [Frac::whole(0); MAX_STAGES]
}
