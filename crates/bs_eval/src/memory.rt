//! What the evaluations over one book leave behind: trees by number with their rows, and values.

ghost use Rattle.std.specs.Prelude.{◌≡◌, ◌<◌, List, length, IfOk, OnOk, MatchOption};
ghost use Rattle.bs_tableau.specs.Table.{Table};
ghost use Rattle.bs_catalog.specs.Shelf.{Numbers, Grows, HasSplits, HasParts};
ghost use Rattle.bs_series.specs.Series.{Series};
ghost use Rattle.bs_series.specs.Expressions.{series_at};
ghost use Rattle.bs_series.specs.SeriesCode.{Code as Pairs, IsColouredCode};
ghost use Rattle.bs_frac.specs.Written.{checked};
ghost use Rattle.bs_tree.specs.Code.{tree_of};
ghost use Rattle.bs_tableau.specs.WrittenWeight.{written_weight};
ghost use Rattle.bs_eval.specs.Terms.{code_at, HasRows, IsSpot};
ghost use Rattle.bs_eval.specs.Pairs.{IsLooked};
ghost use Rattle.bs_eval.specs.Values.{IsMemory};

use crate::factor::Wanted;
use crate::pair::Pair;
use crate::plan::Spot;
use crate::table_weights::TableWeights;
use crate::values::{Readers, Values};
use bs_catalog::Catalog;
use bs_frac::Coef;
use bs_series::{Book, Kind, SeriesId};
use bs_tableau::Tableau;
use bs_tree::Code;
use bs_weight::weight;
use std::alloc::{AllocError, Global};

/// Trees by number with the rows of their items, remembered values of series at them, and what the weights of methods are made of.
#[derive(Drop)]
pub struct Memory {
    pub(crate) trees: Catalog,
    pub(crate) values: Values,
    weights: TableWeights,
}

impl Memory {
    /// Nothing yet. Takes no memory.
    pub fn new(alloc: Global) -> Memory
        ensures { (tables : List Table) (es : List Series) → IsMemory tables es result }
    {
        Memory::over(alloc, Catalog::new(alloc))
    }

    /// No values yet, over trees and rows that an earlier memory may have made. Takes no memory.
    pub fn over(alloc: Global, trees: Catalog) -> Memory
        ensures { (tables : List Table) (es : List Series) → IsMemory tables es result }
    {
        Memory {
            trees,
            values: Values::new(alloc),
            weights: TableWeights::new(alloc),
        }
    }

    /// The trees and their rows, for another memory.
    pub fn into_trees(self) -> Catalog {
        self.trees
    }

    /// The series and the tree of a pair by number.
    pub(crate) fn pair(&self, wanted: &Wanted) -> Pair
        requires { wanted.now.tree < length self.now.trees.codes }
        ensures { result ≡ record { series = wanted.now.series; code = code_at self.now.trees.codes wanted.now.tree } }
    {
        Pair {
            series: wanted.series,
            code: self.trees.code(wanted.tree),
        }
    }

    /// The weight of a tree over the tableau of this number. Edge sums are remembered, unless memory is wanted.
    pub(crate) fn weight(&mut self, number: usize, table: &Tableau, code: &Code) -> Coef
        requires { IsColouredCode table.now.colours code.now }
        ensures value { result ≡ written_weight checked table.now (tree_of code.now) }
        ensures trees { self.new.trees ≡ self.old.trees }
        ensures values { self.new.values ≡ self.old.values }
    {
        match self.weights.over(number) {
            Ok(weights) => weights.weight(table, code),
            Err(_) => weight(table, code),
        }
    }

    /// Makes the rows that the plan of a series at a tree goes over.
    pub(crate) fn spot(
        &mut self,
        book: &Book,
        series: SeriesId,
        tree: u32,
    ) -> Result<Spot, AllocError>
        requires known { series < length book.now }
        requires tree { tree < length self.old.trees.codes }
        ensures grows { Grows self.old.trees self.new.trees }
        ensures values { self.new.values ≡ self.old.values }
        ensures spot { (code : Pairs) → Numbers self.old.trees.codes tree code → IfOk result (λ spot. (spot.series ≡ series) × (spot.tree ≡ tree) × IsSpot book.now self.new.trees spot code) }
    {
        self.make_rows(book, series, tree)?;
        let _nodes = self.trees.code(tree).order();
        let leaf = self.trees.number(&Code::leaf(0))?;
        Ok(Spot { series, tree, leaf })
    }

    /// The rows of a tree that are wanted where a value of the series is worked out, gathered where the plan has a leap over them.
    fn make_rows(&mut self, book: &Book, series: SeriesId, tree: u32) -> Result<(), AllocError>
        requires known { series < length book.now }
        requires tree { tree < length self.old.trees.codes }
        ensures grows { Grows self.old.trees self.new.trees }
        ensures values { self.new.values ≡ self.old.values }
        ensures made { OnOk result (HasRows (series_at book.now series) self.new.trees tree) }
    {
        self.list_rows(book, series, tree)?;
        self.gather_rows(book, series, tree);
        Ok(())
    }

    /// The rows of a tree that are wanted where a value of the series is worked out.
    fn list_rows(&mut self, book: &Book, series: SeriesId, tree: u32) -> Result<(), AllocError>
        requires known { series < length book.now }
        requires tree { tree < length self.old.trees.codes }
        ensures grows { Grows self.old.trees self.new.trees }
        ensures values { self.new.values ≡ self.old.values }
        ensures made { OnOk result (HasRows (series_at book.now series) self.new.trees tree) }
    {
        match book.kind(series) {
            Kind::Compose { .. } | Kind::Inverse { .. } | Kind::Adjoint { .. } => {
                self.trees.make_splits(tree)
            }
            Kind::Substitute { .. } | Kind::Modified { .. } | Kind::Modifying { .. } => {
                self.trees.make_parts(tree)
            }
            Kind::Exact { .. }
            | Kind::Identity { .. }
            | Kind::Average { .. }
            | Kind::Method { .. }
            | Kind::Scale { .. } => Ok(()),
        }
    }

    /// Gathers these rows where all values at their trees are at hand, unless memory is wanted.
    fn gather_rows(&mut self, book: &Book, series: SeriesId, tree: u32)
        requires known { series < length book.now }
        requires rows { HasRows (series_at book.now series) self.old.trees tree }
        ensures grows { Grows self.old.trees self.new.trees }
        ensures values { self.new.values ≡ self.old.values }
    {
        match book.kind(series) {
            Kind::Compose { first, second } => self.gather_splits(
                &Readers {
                    outer: awaited(book, second),
                    inner: awaited(book, first),
                },
                tree,
            ),
            Kind::Inverse { of } => self.gather_splits(
                &Readers {
                    outer: Some(series),
                    inner: awaited(book, of),
                },
                tree,
            ),
            Kind::Substitute { inner, outer } => self.gather_parts(
                &Readers {
                    outer: awaited(book, outer),
                    inner: awaited(book, inner),
                },
                tree,
            ),
            Kind::Modified { .. } => self.gather_parts(
                &Readers {
                    outer: None,
                    inner: Some(series),
                },
                tree,
            ),
            Kind::Modifying { of } => self.gather_parts(
                &Readers {
                    outer: awaited(book, of),
                    inner: Some(series),
                },
                tree,
            ),
            Kind::Adjoint { .. }
            | Kind::Exact { .. }
            | Kind::Identity { .. }
            | Kind::Average { .. }
            | Kind::Method { .. }
            | Kind::Scale { .. } => {}
        }
    }

    /// Gathers the splittings of a tree but the last, where all values at their trees are at hand.
    fn gather_splits(&mut self, readers: &Readers, tree: u32)
        requires { HasSplits self.old.trees tree }
        ensures grows { Grows self.old.trees self.new.trees }
        ensures values { self.new.values ≡ self.old.values }
    {
        if self.trees.gathered_splits(tree).is_some() {
            return;
        }
        let rows = self.trees.splits(tree);
        if self.values.have_rows(readers, rows, 0, rows.len() - 1) {
            let _done = self.trees.gather_splits(tree);
        }
    }

    /// Gathers the partitions of a tree but the first, where all values at their trees are at hand.
    fn gather_parts(&mut self, readers: &Readers, tree: u32)
        requires { HasParts self.old.trees tree }
        ensures grows { Grows self.old.trees self.new.trees }
        ensures values { self.new.values ≡ self.old.values }
    {
        if self.trees.gathered_parts(tree).is_some() {
            return;
        }
        let rows = self.trees.parts(tree);
        if self.values.have_rows(readers, rows, 1, rows.len()) {
            let _done = self.trees.gather_parts(tree);
        }
    }
}

/// The series, unless its values are given by a formula.
fn awaited(book: &Book, series: SeriesId) -> Option<SeriesId>
    requires { series < length book.now }
    ensures { MatchOption result (¬ IsLooked (series_at book.now series)) (λ id. id ≡ series) }
{
    match book.kind(series) {
        Kind::Exact { .. } | Kind::Identity { .. } | Kind::Average { .. } => None,
        Kind::Method { .. }
        | Kind::Compose { .. }
        | Kind::Inverse { .. }
        | Kind::Adjoint { .. }
        | Kind::Substitute { .. }
        | Kind::Modified { .. }
        | Kind::Modifying { .. }
        | Kind::Scale { .. } => Some(series),
    }
}
