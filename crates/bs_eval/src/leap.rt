//! Leaps of a sum: the terms of all gathered rows of a tree at once, in whole numbers, where their values are remembered.

ghost use Rattle.std.specs.Prelude.{◌≡◌, ◌<◌, ◌≤◌, ◌∷◌, ◌++◌, [], List, length, map, replicate, suc, IfSome, IsTrue, Bool, slice_get, Some, ℕ};
ghost use Rattle.bs_frac.specs.Written.{Term as SomeTerm};
ghost use Rattle.bs_frac.specs.Gathered.{IsProductOf, Gathers};
ghost use Rattle.bs_frac.specs.declared.coef.Coef.{Coef as Value};
ghost use Rattle.bs_tableau.specs.Table.{Table};
ghost use Rattle.bs_catalog.specs.Splitting.{init};
ghost use Rattle.bs_catalog.specs.Partition.{tail};
ghost use Rattle.bs_catalog.specs.Gathered.{Shows, gathered_key};
ghost use Rattle.bs_catalog.specs.Shelf.{HasSplits, HasParts, split_rows, part_rows};
ghost use Rattle.bs_series.specs.Series.{Series};
ghost use Rattle.bs_series.specs.Plan.{HasPlan};
ghost use Rattle.bs_series.specs.SeriesCode.{Code as Pairs, written_at};
ghost use Rattle.bs_series.specs.Expressions.{series_at};
ghost use Rattle.bs_eval.specs.Steps.{Step, carried};
ghost use Rattle.bs_eval.specs.Terms.{code_at, steps_of, IsSpot};
ghost use Rattle.bs_eval.specs.Rules.{part_step, codes_at, PartRuleIn};
ghost use Rattle.bs_eval.specs.Values.{AreValues};
ghost use Rattle.bs_eval.specs.Leaps.{key_values, key_term, is_negative, IsOver, IsLeap};

use crate::plan::{PartRule, Spot};
use crate::term::Operation;
use crate::values::Values;
use bs_catalog::{Catalog, Gathered, Rows};
use bs_frac::{Running, WholeProduct, WholeSum};
use bs_series::{Book, Kind};

/// What a sum leaps over: the rows of a tree, all but one, gathered, and the rule that makes terms of them.
#[derive(Clone, Copy)]
pub(crate) struct Leap<'a> {
    pub(crate) rule: PartRule,
    pub(crate) rows: &'a Rows,
    pub(crate) gathered: &'a [Gathered],
}

/// Whether terms are subtracted.
fn is_negative(operation: Operation) -> bool
    ensures { result ≡ is_negative operation }
{
    match operation {
        Operation::Subtract => true,
        Operation::Add | Operation::Divide => false,
    }
}

/// What is gathered at this place.
fn group_at(gathered: &[Gathered], place: usize) -> &Gathered
    requires { place < length gathered.now }
    ensures { slice_get gathered.now place ≡ Some result.now }
{
    &gathered[place]
}

/// The trees behind the first one of a row.
fn behind_first(row: &[u32]) -> &[u32]
    requires { 0 < length row.now }
    ensures { (first : ℕ) (rest : List ℕ) → row.now ≡ first ∷ rest → result.now ≡ rest }
{
    &row[1..]
}

/// The leap behind the first term of the plan of a series at a tree, where its rows are gathered.
pub(crate) fn leap_at<'a>(book: &Book, trees: &'a Catalog, spot: &Spot) -> Option<Leap<'a>>
    requires known { spot.now.series < length book.now }
    requires planned { HasPlan (series_at book.now spot.now.series) }
    requires spot { (code : Pairs) × IsSpot book.now trees.now spot.now code }
    ensures known { IfSome result (λ leap. PartRuleIn (length book.now) leap.rule) }
    ensures leap { (code : Pairs) → IsSpot book.now trees.now spot.now code → IfSome result (IsLeap book.now trees.now.codes (steps_of (series_at book.now spot.now.series) code)) }
{
    let own = spot.series;
    let tree = spot.tree;
    match book.kind(own) {
        Kind::Compose { first, second } => over_splits(
            PartRule {
                operation: Operation::Add,
                outer: Some(second),
                inner: first,
            },
            trees,
            tree,
        ),
        Kind::Inverse { of } => over_splits(
            PartRule {
                operation: Operation::Subtract,
                outer: Some(own),
                inner: of,
            },
            trees,
            tree,
        ),
        Kind::Substitute { inner, outer } => over_parts(
            PartRule {
                operation: Operation::Add,
                outer: Some(outer),
                inner,
            },
            trees,
            tree,
        ),
        Kind::Modified { .. } => over_parts(
            PartRule {
                operation: Operation::Subtract,
                outer: None,
                inner: own,
            },
            trees,
            tree,
        ),
        Kind::Modifying { of } => over_parts(
            PartRule {
                operation: Operation::Subtract,
                outer: Some(of),
                inner: own,
            },
            trees,
            tree,
        ),
        Kind::Adjoint { .. }
        | Kind::Scale { .. }
        | Kind::Exact { .. }
        | Kind::Identity { .. }
        | Kind::Average { .. }
        | Kind::Method { .. } => None,
    }
}

/// The splittings but the last, where they are gathered.
fn over_splits<'a>(rule: PartRule, trees: &'a Catalog, tree: u32) -> Option<Leap<'a>>
    requires made { HasSplits trees.now tree }
    ensures { IfSome result (IsOver trees.now rule tree split_rows init) }
{
    let gathered = trees.gathered_splits(tree)?;
    Some(Leap {
        rule,
        rows: trees.splits(tree),
        gathered,
    })
}

/// The partitions but the first, where they are gathered.
fn over_parts<'a>(rule: PartRule, trees: &'a Catalog, tree: u32) -> Option<Leap<'a>>
    requires made { HasParts trees.now tree }
    ensures { IfSome result (IsOver trees.now rule tree part_rows tail) }
{
    let gathered = trees.gathered_parts(tree)?;
    Some(Leap {
        rule,
        rows: trees.parts(tree),
        gathered,
    })
}

impl Leap<'_> {
    /// The number of terms that are leapt over.
    pub(crate) fn count(&self) -> usize
        requires { 0 < length self.now.rows.now }
        ensures { suc result ≡ length self.now.rows.now }
    {
        self.rows.len() - 1
    }

    /// A number with all terms added or subtracted, where their values are remembered and the sum stays within `M`.
    pub(crate) fn sum(
        &self,
        book: &Book,
        trees: &Catalog,
        values: &mut Values,
        begun: &Running,
    ) -> Option<Running>
        requires known { PartRuleIn (length book.now) self.now.rule }
        requires leap { (steps : List Step) × IsLeap book.now trees.now.codes steps self.now }
        ensures sum { (tables : List Table) (steps : List Step) → (leap : IsLeap book.now trees.now.codes steps self.now) → AreValues tables book.now trees.now.codes values.old → IfSome result (λ sum. sum ≡ carried (written_at tables) begun.now (map (part_step book.now self.now.rule) (codes_at trees.now.codes leap.rows))) }
        ensures values { (tables : List Table) → AreValues tables book.now trees.now.codes values.old → AreValues tables book.now trees.now.codes values.new }
    {
        let mut sum = WholeSum::of(begun)?;
        'groups: for place in 0..self.gathered.len() {
            let group = group_at(self.gathered, place);
            if !self.add(book, trees, values, &mut sum, group) {
                return None;
            }
        }
        Some(sum.finish())
    }

    /// Adds or subtracts the term of gathered rows as often as they come, where its values are remembered and the sum stays within
    /// `M`.
    fn add(
        &self,
        book: &Book,
        trees: &Catalog,
        values: &mut Values,
        sum: &mut WholeSum,
        group: &Gathered,
    ) -> bool
        requires known { PartRuleIn (length book.now) self.now.rule }
        requires some { 0 < group.now.times }
        requires first { group.now.first < length trees.now.codes }
        requires shown { Shows trees.now.codes self.now.rows.now group.now.row (gathered_key group.now) }
        ensures gathers { (tables : List Table) (z : Value) (terms : List (SomeTerm Value)) → AreValues tables book.now trees.now.codes values.old → Gathers z sum.old terms → IsTrue result → Gathers z sum.new (terms ++ replicate group.now.times (key_term tables book.now trees.now.codes self.now.rule (gathered_key group.now))) }
        ensures values { (tables : List Table) → AreValues tables book.now trees.now.codes values.old → AreValues tables book.now trees.now.codes values.new }
    {
        self.prepare(book, trees, values, group.first);
        self.keep_forest(book, trees, values, group);
        match self.product(values, group) {
            Some(product) => sum.add(is_negative(self.rule.operation), &product, group.times),
            None => false,
        }
    }

    /// Remembers the value at the first tree of a row where it is given by a formula, unless memory is wanted.
    fn prepare(&self, book: &Book, trees: &Catalog, values: &mut Values, first: u32)
        requires known { PartRuleIn (length book.now) self.now.rule }
        requires first { first < length trees.now.codes }
        ensures { (tables : List Table) → AreValues tables book.now trees.now.codes values.old → AreValues tables book.now trees.now.codes values.new }
    {
        match self.rule.outer {
            Some(outer) => values.prepare(book, trees, outer, first),
            None => {
                let _flow = values.flow(trees, first);
            }
        }
    }

    /// Keeps the product over the forest of gathered rows, where its values are remembered and it stays within `M`, unless memory is
    /// wanted.
    fn keep_forest(&self, book: &Book, trees: &Catalog, values: &mut Values, group: &Gathered)
        requires known { PartRuleIn (length book.now) self.now.rule }
        requires shown { Shows trees.now.codes self.now.rows.now group.now.row (gathered_key group.now) }
        ensures { (tables : List Table) → AreValues tables book.now trees.now.codes values.old → AreValues tables book.now trees.now.codes values.new }
    {
        let row = self.rows.get(group.row);
        values.keep_product(
            book,
            trees,
            self.rule.inner,
            group.forest,
            behind_first(row),
        );
    }

    /// The product of a term, where that over its forest is kept, the value at its first tree is remembered, and it stays within `M`.
    fn product(&self, values: &Values, group: &Gathered) -> Option<WholeProduct>
        ensures { (tables : List Table) (es : List Series) (cs : List Pairs) → AreValues tables es cs values.now → IfSome result (λ product. IsProductOf product (key_values tables es cs self.now.rule (gathered_key group.now))) }
    {
        let outer = self.rule.outer_factor(group.first);
        let first = WholeProduct::of(outer.remembered(values)?)?;
        first.times(values.recall_product(self.rule.inner, group.forest)?)
    }
}
