//! Remembered values of series at trees, in columns: one for each series, by the numbers of the trees.

ghost use Rattle.std.specs.Prelude.{◌≡◌, ◌<◌, ◌≤◌, ◌↔◌, List, length, IfSome, IfNone, IsNone, MatchOption, OnOk, OnErr, Some, [], ℕ, map};
ghost use Rattle.std.specs.List.{AllByRecursion};
ghost use Rattle.std.specs.List.Sorted.{IsPermutation};
ghost use Rattle.bs_frac.specs.declared.coef.Coef.{Coef as Value};
ghost use Rattle.bs_frac.specs.declared.coef.Coef.TheVariants.{Value as Fraction};
ghost use Rattle.bs_frac.specs.Gathered.{IsProductOf};
ghost use Rattle.bs_tree.specs.Code.{tree_of, child_codes};
ghost use Rattle.bs_tableau.specs.Table.{Table};
ghost use Rattle.bs_series.specs.Series.{Series, colours_of};
ghost use Rattle.bs_series.specs.Value.{exact_value};
ghost use Rattle.bs_series.specs.SeriesCode.{Code as Pairs, IsColouredCode, written_at};
ghost use Rattle.bs_series.specs.Expressions.{series_at};
ghost use Rattle.bs_eval.specs.Terms.{code_at};
ghost use Rattle.bs_eval.specs.Values.{AreValues, IsValue, IsForestProduct, IsLookedUp, in_column, ColumnAdds, ColumnTakes, ColumnsAdd};

use crate::direct::{direct_value, exact_value};
use crate::factor::Wanted;
use crate::forests::Forests;
use bs_catalog::{Catalog, Rows};
use bs_frac::{Coef, WholeProduct};
use bs_series::{Book, SeriesId};
use std::alloc::{AllocError, Global};

/// Values by the numbers of trees.
#[derive(Drop)]
pub(crate) struct Column {
    pub(crate) values: Vec<Option<Coef>>,
}

/// The series whose values a row's term reads at its first tree and at the others, unless these are given by a formula.
#[derive(Clone, Copy)]
pub(crate) struct Readers {
    pub(crate) outer: Option<SeriesId>,
    pub(crate) inner: Option<SeriesId>,
}

/// A column for each series of a book, one for the exact flow over all colours, and products of values over forests.
#[derive(Drop)]
pub(crate) struct Values {
    pub(crate) alloc: Global,
    pub(crate) flows: Column,
    pub(crate) columns: Vec<Column>,
    pub(crate) forests: Forests,
}

impl Column {
    /// No value. Takes no memory.
    fn new(alloc: Global) -> Column
        ensures { result.values.items ≡ [] }
    {
        Column {
            values: Vec::new(alloc),
        }
    }

    /// The value at this place.
    fn get(&self, place: usize) -> Option<&Coef>
        ensures { MatchOption result (IsNone (in_column (Some self.now) place)) (λ value. in_column (Some self.now) place ≡ Some value.now) }
    {
        match self.values.get(place) {
            Some(Some(value)) => Some(value),
            _ => None,
        }
    }

    /// Puts a value at this place.
    fn put(&mut self, place: usize, value: Coef) -> Result<(), AllocError>
        ensures { ColumnTakes self.old self.new place value }
    {
        self.reach(place)?;
        self.values[place] = Some(value);
        Ok(())
    }

    /// Makes room up to this place.
    fn reach(&mut self, place: usize) -> Result<(), AllocError>
        ensures room { OnOk result (place < length self.new.values.items) }
        ensures same { ColumnAdds self.old self.new }
    {
        'places: while self.values.len() <= place {
            self.values.push(None)?;
        }
        Ok(())
    }
}

impl Values {
    /// No value. Takes no memory.
    pub(crate) fn new(alloc: Global) -> Values
        ensures { (tables : List Table) (es : List Series) (cs : List Pairs) → AreValues tables es cs result }
    {
        Values {
            alloc,
            flows: Column::new(alloc),
            columns: Vec::new(alloc),
            forests: Forests::new(alloc),
        }
    }

    /// The value of a series at a tree, where it is remembered.
    pub(crate) fn recall(&self, series: SeriesId, tree: u32) -> Option<&Coef>
        ensures { (tables : List Table) (es : List Series) (cs : List Pairs) → AreValues tables es cs self.now → IfSome result (λ value. IsValue tables es cs series tree value.now) }
    {
        match self.columns.get(series.place()) {
            Some(column) => column.get(tree as usize),
            None => None,
        }
    }

    /// Whether the values at the trees of these rows are remembered. No value depends on the answer.
    pub(crate) fn have_rows(&self, readers: &Readers, rows: &Rows, start: usize, end: usize) -> bool
        requires { end ≤ length rows.now }
    {
        'rows: for place in start..end {
            if !self.have_row(readers, rows.get(place)) {
                return false;
            }
        }
        true
    }

    /// Whether the values at the trees of a row are remembered.
    fn have_row(&self, readers: &Readers, row: &[u32]) -> bool {
        'trees: for place in 0..row.len() {
            let series = if place == 0 {
                readers.outer
            } else {
                readers.inner
            };
            if !self.has(series, row[place]) {
                return false;
            }
        }
        true
    }

    /// Whether the value of a series at a tree is remembered. Of no series none is wanted.
    fn has(&self, series: Option<SeriesId>, tree: u32) -> bool {
        match series {
            Some(series) => self.recall(series, tree).is_some(),
            None => true,
        }
    }

    /// The value of the exact flow at a tree, where it is remembered.
    pub(crate) fn recall_flow(&self, tree: u32) -> Option<&Coef>
        ensures { (tables : List Table) (es : List Series) (cs : List Pairs) → AreValues tables es cs self.now → IfSome result (λ value. value.now ≡ Fraction (exact_value (tree_of (code_at cs tree)))) }
    {
        self.flows.get(tree as usize)
    }

    /// The product of the values of a series over a forest, where it is kept.
    pub(crate) fn recall_product(&self, series: SeriesId, forest: u32) -> Option<&WholeProduct>
        ensures { (tables : List Table) (es : List Series) (cs : List Pairs) → AreValues tables es cs self.now → IfSome result (λ product. IsForestProduct tables es cs series forest product.now) }
    {
        self.forests.recall(series, forest)
    }

    /// Keeps the product of the values of a series over a forest, whose trees are handed in: where each is remembered and the product
    /// stays within `M`, unless memory is wanted. Values that are given by a formula are remembered first.
    pub(crate) fn keep_product(
        &mut self,
        book: &Book,
        trees: &Catalog,
        series: SeriesId,
        forest: u32,
        parts: &[u32],
    )
        requires series { series < length book.now }
        requires forest { forest < length trees.now.codes }
        requires parts { AllByRecursion (λ tree. tree < length trees.now.codes) parts.now }
        requires same { IsPermutation (map (code_at trees.now.codes) parts.now) (child_codes (code_at trees.now.codes forest)) }
        ensures { (tables : List Table) → AreValues tables book.now trees.now.codes self.old → AreValues tables book.now trees.now.codes self.new }
    {
        if self.recall_product(series, forest).is_some() {
            return;
        }
        self.prepare_all(book, trees, series, parts);
        if let Some(product) = self.product(series, parts) {
            let _done = self.forests.keep(series, forest, product);
        }
    }

    /// Remembers the values of a series at some trees where they are given by a formula, unless memory is wanted.
    fn prepare_all(&mut self, book: &Book, trees: &Catalog, series: SeriesId, parts: &[u32])
        requires series { series < length book.now }
        requires parts { AllByRecursion (λ tree. tree < length trees.now.codes) parts.now }
        ensures { (tables : List Table) → AreValues tables book.now trees.now.codes self.old → AreValues tables book.now trees.now.codes self.new }
    {
        'parts: for part in parts {
            self.prepare(book, trees, series, *part);
        }
    }

    /// The product of the values of a series at some trees, where each is remembered and the product stays within `M`.
    fn product(&self, series: SeriesId, trees: &[u32]) -> Option<WholeProduct>
        ensures { (tables : List Table) (es : List Series) (cs : List Pairs) → AreValues tables es cs self.now → IfSome result (λ product. IsProductOf product (map (λ tree. written_at tables (series_at es series) (code_at cs tree)) trees.now)) }
    {
        if trees.is_empty() {
            return None;
        }
        let mut product = WholeProduct::of(self.recall(series, trees[0])?)?;
        'trees: for place in 1..trees.len() {
            let factor = WholeProduct::of(self.recall(series, trees[place])?)?;
            let more = product.times(&factor)?;
            product = more;
        }
        Some(product)
    }

    /// Remembers a value.
    pub(crate) fn keep(
        &mut self,
        series: SeriesId,
        tree: u32,
        value: Coef,
    ) -> Result<(), AllocError>
        ensures { (tables : List Table) (es : List Series) (cs : List Pairs) → AreValues tables es cs self.old → IsValue tables es cs series tree value → AreValues tables es cs self.new }
    {
        self.reach(series.place())?;
        self.columns[series.place()].put(tree as usize, value)
    }

    /// Makes columns up to this one.
    fn reach(&mut self, place: usize) -> Result<(), AllocError>
        ensures room { OnOk result (place < length self.new.columns.items) }
        ensures flows { self.new.flows ≡ self.old.flows }
        ensures forests { self.new.forests ≡ self.old.forests }
        ensures same { ColumnsAdd self.old.columns.items self.new.columns.items }
    {
        'columns: while self.columns.len() <= place {
            self.columns.push(Column::new(self.alloc))?;
        }
        Ok(())
    }

    /// The value of a series at a tree, where it is remembered or given by a formula. The latter is remembered, unless memory is
    /// wanted.
    pub(crate) fn known(
        &mut self,
        book: &Book,
        trees: &Catalog,
        series: SeriesId,
        tree: u32,
    ) -> Option<Coef>
        requires series { series < length book.now }
        requires tree { tree < length trees.now.codes }
        requires coloured { IsColouredCode (colours_of (series_at book.now series)) (code_at trees.now.codes tree) }
        ensures value { (tables : List Table) → AreValues tables book.now trees.now.codes self.old → IfSome result (IsValue tables book.now trees.now.codes series tree) }
        ensures awaited { IfNone result (IsLookedUp book.now trees.now.codes (record { series = series; tree = tree })) }
        ensures values { (tables : List Table) → AreValues tables book.now trees.now.codes self.old → AreValues tables book.now trees.now.codes self.new }
    {
        if let Some(value) = self.recall(series, tree) {
            return Some(*value);
        }
        let value = direct_value(book, series, &trees.code(tree))?;
        let kept = value;
        let _done = self.keep(series, tree, kept);
        Some(value)
    }

    /// Remembers the value of a series at a tree where it is given by a formula, unless memory is wanted.
    pub(crate) fn prepare(&mut self, book: &Book, trees: &Catalog, series: SeriesId, tree: u32)
        requires series { series < length book.now }
        requires tree { tree < length trees.now.codes }
        ensures { (tables : List Table) → AreValues tables book.now trees.now.codes self.old → AreValues tables book.now trees.now.codes self.new }
    {
        if self.recall(series, tree).is_some() {
            return;
        }
        if let Some(value) = direct_value(book, series, &trees.code(tree)) {
            let _done = self.keep(series, tree, value);
        }
    }

    /// The value of the exact flow at a tree. It is remembered, unless memory is wanted.
    pub(crate) fn flow(&mut self, trees: &Catalog, tree: u32) -> Coef
        requires { tree < length trees.now.codes }
        ensures value { (tables : List Table) (es : List Series) → AreValues tables es trees.now.codes self.old → result ≡ Fraction (exact_value (tree_of (code_at trees.now.codes tree))) }
        ensures values { (tables : List Table) (es : List Series) → AreValues tables es trees.now.codes self.old → AreValues tables es trees.now.codes self.new }
    {
        if let Some(value) = self.recall_flow(tree) {
            return *value;
        }
        let value = exact_value(&trees.code(tree));
        let kept = value;
        let _done = self.flows.put(tree as usize, kept);
        value
    }
}
