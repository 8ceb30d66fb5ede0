//! The plan of a value: each of its terms by its place, from the rows of its tree.

ghost use Rattle.std.specs.Prelude.{◌≡◌, ◌<◌, ◌≤◌, ◌∷◌, ◌++◌, [], List, length, map, replicate, take, MatchOption, Some, None, slice_get, ℕ};
ghost use Rattle.std.specs.List.{AllByRecursion};
ghost use Rattle.bs_frac.specs.Fraction.{whole};
ghost use Rattle.bs_catalog.specs.Shelf.{HasSplits, HasParts, split_rows, part_rows};
ghost use Rattle.bs_catalog.specs.Splitting.{init};
ghost use Rattle.bs_catalog.specs.Partition.{tail};
ghost use Rattle.bs_series.specs.Series.{Series, exact};
ghost use Rattle.bs_series.specs.Plan.{at, fixed};
ghost use Rattle.bs_series.specs.Plan.{HasPlan};
ghost use Rattle.bs_series.specs.SeriesCode.{Code as Pairs};
ghost use Rattle.bs_series.specs.Expressions.{series_at};
ghost use Rattle.bs_eval.specs.Steps.{Step};
ghost use Rattle.bs_eval.specs.declared.term.Operation.TheVariants.{Add as Plus, Divide as Over};
ghost use Rattle.bs_eval.specs.Rules.{IsTermAt, whole_step, split_step, split_steps, part_step, single_step, adding, subtracting, every, later, powers_step, cut_factor, outer_in, OuterIn, SplitRuleIn, PartRuleIn, IsRowIn, AreIn, codes_at};
ghost use Rattle.bs_eval.specs.Terms.{code_at, step_in, steps_of, factor_in, rest_in, FactorIn, RestIn, IsSpot, TermIn};

use crate::factor::Factor;
use crate::term::{Operation, Rest, Term};
use bs_catalog::{Catalog, Rows};
use bs_frac::Frac;
use bs_series::{Book, Kind, SeriesId};

/// Where a value is worked out: the series, the number of its tree, and that of the leaf of colour 0.
#[derive(Clone, Copy)]
pub(crate) struct Spot {
    pub(crate) series: SeriesId,
    pub(crate) tree: u32,
    pub(crate) leaf: u32,
}

/// The terms of splittings: a series at what is kept, a fraction where nothing is, and a series at each tree that is cut off.
#[derive(Clone, Copy)]
pub(crate) struct SplitRule {
    pub(crate) operation: Operation,
    pub(crate) kept: SeriesId,
    pub(crate) empty: Frac,
    pub(crate) cut: SeriesId,
    pub(crate) turned: bool,
}

/// The terms of partitions: a series at the skeleton, the exact flow where none is named, and a series at each part.
#[derive(Clone, Copy)]
pub(crate) struct PartRule {
    pub(crate) operation: Operation,
    pub(crate) outer: Option<SeriesId>,
    pub(crate) inner: SeriesId,
}

impl SplitRule {
    /// The term of the splitting that keeps nothing.
    fn whole(&self, tree: u32) -> Term<'static>
        ensures is { (es : List Series) (cs : List Pairs) → step_in es cs result ≡ whole_step es self.now (code_at cs tree) }
        ensures known { (n m : ℕ) → SplitRuleIn n self.now → tree < m → TermIn n m result }
    {
        let factor = if self.turned {
            Factor::Turned {
                series: self.cut,
                tree,
            }
        } else {
            Factor::At {
                series: self.cut,
                tree,
            }
        };
        Term {
            operation: self.operation,
            first: Factor::Fixed { value: self.empty },
            rest: Rest::One { factor },
        }
    }

    /// The term of a row.
    fn of_row<'a>(&self, row: &'a [u32]) -> Term<'a>
        requires { 0 < length row.now }
        ensures is { (es : List Series) (cs : List Pairs) → step_in es cs result ≡ split_step es self.now (map (code_at cs) row.now) }
        ensures known { (n m : ℕ) → SplitRuleIn n self.now → IsRowIn m row.now → TermIn n m result }
    {
        let first = Factor::At {
            series: self.kept,
            tree: row[0],
        };
        Term {
            operation: self.operation,
            first,
            rest: self.cut_off(&row[1..]),
        }
    }

    /// The factors at the trees that are cut off.
    fn cut_off<'a>(&self, trees: &'a [u32]) -> Rest<'a>
        ensures is { (es : List Series) (cs : List Pairs) → rest_in es cs result ≡ map (cut_factor es self.now) (map (code_at cs) trees.now) }
        ensures known { (n m : ℕ) → self.now.cut < n → AllByRecursion (λ tree. tree < m) trees.now → RestIn n m result }
    {
        let series = self.cut;
        if self.turned {
            Rest::Turned { series, trees }
        } else {
            Rest::Each { series, trees }
        }
    }

    /// The term at this place, of the splitting that keeps nothing and those of the first rows.
    fn term<'a>(&self, tree: u32, rows: &'a Rows, count: usize, place: usize) -> Option<Term<'a>>
        requires count { count ≤ length rows.now }
        requires some { AllByRecursion (λ row. 0 < length row) rows.now }
        ensures is { (es : List Series) (cs : List Pairs) → IsTermAt es cs (split_steps es self.now (code_at cs tree) (take count (codes_at cs rows.now))) place result }
        ensures known { (n m : ℕ) → SplitRuleIn n self.now → tree < m → AreIn m rows.now → MatchOption result (Unit {0}) (TermIn n m) }
    {
        if place == 0 {
            return Some(self.whole(tree));
        }
        if place <= count {
            Some(self.of_row(rows.get(place - 1)))
        } else {
            None
        }
    }
}

impl PartRule {
    /// The term of a row.
    fn of_row<'a>(&self, row: &'a [u32]) -> Term<'a>
        requires { 0 < length row.now }
        ensures is { (es : List Series) (cs : List Pairs) → step_in es cs result ≡ part_step es self.now (map (code_at cs) row.now) }
        ensures known { (n m : ℕ) → PartRuleIn n self.now → IsRowIn m row.now → TermIn n m result }
    {
        Term {
            operation: self.operation,
            first: self.outer_factor(row[0]),
            rest: Rest::Each {
                series: self.inner,
                trees: &row[1..],
            },
        }
    }

    /// The factor at the skeleton.
    pub(crate) fn outer_factor(&self, tree: u32) -> Factor
        ensures is { (es : List Series) (cs : List Pairs) → factor_in es cs result ≡ at (outer_in es self.now.outer) (code_at cs tree) }
        ensures known { (n m : ℕ) → OuterIn n self.now.outer → tree < m → FactorIn n m result }
    {
        match self.outer {
            None => Factor::Flow { tree },
            Some(series) => Factor::At { series, tree },
        }
    }

    /// The term of the row at this place.
    fn term<'a>(&self, rows: &'a Rows, place: usize) -> Option<Term<'a>>
        requires { AllByRecursion (λ row. 0 < length row) rows.now }
        ensures is { (es : List Series) (cs : List Pairs) → IsTermAt es cs (map (part_step es self.now) (codes_at cs rows.now)) place result }
        ensures known { (n m : ℕ) → PartRuleIn n self.now → AreIn m rows.now → MatchOption result (Unit {0}) (TermIn n m) }
    {
        if place < rows.len() {
            Some(self.of_row(rows.get(place)))
        } else {
            None
        }
    }
}

/// A term of one factor.
fn single(operation: Operation, factor: Factor) -> Term<'static>
    ensures is { (es : List Series) (cs : List Pairs) → step_in es cs result ≡ single_step operation (factor_in es cs factor) }
    ensures known { (n m : ℕ) → FactorIn n m factor → TermIn n m result }
{
    Term {
        operation,
        first: factor,
        rest: Rest::Nothing,
    }
}

/// The term at this place of the plan of a series at a tree, the terms counted from 0. `None` behind the last.
pub(crate) fn term_at<'a>(
    book: &Book,
    trees: &'a Catalog,
    spot: &Spot,
    place: usize,
) -> Option<Term<'a>>
    requires known { spot.now.series < length book.now }
    requires planned { HasPlan (series_at book.now spot.now.series) }
    requires spot { (code : Pairs) × IsSpot book.now trees.now spot.now code }
    ensures term { (code : Pairs) → IsSpot book.now trees.now spot.now code → MatchOption result (length (steps_of (series_at book.now spot.now.series) code) ≤ place) (λ term. slice_get (steps_of (series_at book.now spot.now.series) code) place ≡ Some (step_in book.now trees.now.codes term)) }
    ensures known { MatchOption result (Unit {0}) (TermIn (length book.now) (length trees.now.codes)) }
{
    let own = spot.series;
    let tree = spot.tree;
    match book.kind(own) {
        Kind::Compose { first, second } => {
            composed(first, second, book.empty_value(second), trees, tree, place)
        }
        Kind::Inverse { of } => but_last(own, of, false, trees, tree, place),
        Kind::Adjoint { of } => but_last(own, of, true, trees, tree, place),
        Kind::Substitute { inner, outer } => substituted(inner, outer, trees, tree, place),
        Kind::Modified { of } => modified(own, of, trees, tree, place),
        Kind::Modifying { of } => modifying(own, of, trees, spot, place),
        Kind::Scale { of, by } => scaled(of, by, trees, tree, place),
        Kind::Exact { .. } | Kind::Identity { .. } | Kind::Average { .. } | Kind::Method { .. } => {
            None
        }
    }
}

/// All splittings.
fn composed<'a>(
    first: SeriesId,
    second: SeriesId,
    empty: Frac,
    trees: &'a Catalog,
    tree: u32,
    place: usize,
) -> Option<Term<'a>>
    requires tree { tree < length trees.now.codes }
    requires made { HasSplits trees.now tree }
    ensures is { (es : List Series) → IsTermAt es trees.now.codes (split_steps es (adding second empty first) (code_at trees.now.codes tree) (split_rows (code_at trees.now.codes tree))) place result }
    ensures known { (n : ℕ) → first < n → second < n → MatchOption result (Unit {0}) (TermIn n (length trees.now.codes)) }
{
    let rows = trees.splits(tree);
    let rule = SplitRule {
        operation: Operation::Add,
        kept: second,
        empty,
        cut: first,
        turned: false,
    };
    rule.term(tree, rows, rows.len(), place)
}

/// All partitions.
fn substituted<'a>(
    inner: SeriesId,
    outer: SeriesId,
    trees: &'a Catalog,
    tree: u32,
    place: usize,
) -> Option<Term<'a>>
    requires tree { tree < length trees.now.codes }
    requires made { HasParts trees.now tree }
    ensures is { (es : List Series) → IsTermAt es trees.now.codes (map (part_step es (every inner outer)) (part_rows (code_at trees.now.codes tree))) place result }
    ensures known { (n : ℕ) → inner < n → outer < n → MatchOption result (Unit {0}) (TermIn n (length trees.now.codes)) }
{
    let rule = PartRule {
        operation: Operation::Add,
        outer: Some(outer),
        inner,
    };
    rule.term(trees.parts(tree), place)
}

/// All splittings but the last, the series reading itself at what is kept.
fn but_last<'a>(
    own: SeriesId,
    of: SeriesId,
    turned: bool,
    trees: &'a Catalog,
    tree: u32,
    place: usize,
) -> Option<Term<'a>>
    requires tree { tree < length trees.now.codes }
    requires made { HasSplits trees.now tree }
    ensures is { (es : List Series) → IsTermAt es trees.now.codes (split_steps es (subtracting own of turned) (code_at trees.now.codes tree) (init (split_rows (code_at trees.now.codes tree)))) place result }
    ensures known { (n : ℕ) → own < n → of < n → MatchOption result (Unit {0}) (TermIn n (length trees.now.codes)) }
{
    let rows = trees.splits(tree);
    let count = rows.len() - 1;
    let rule = SplitRule {
        operation: Operation::Subtract,
        kept: own,
        empty: Frac::whole(1),
        cut: of,
        turned,
    };
    rule.term(tree, rows, count, place)
}

/// The method at the tree, and the later partitions.
fn modified<'a>(
    own: SeriesId,
    of: SeriesId,
    trees: &'a Catalog,
    tree: u32,
    place: usize,
) -> Option<Term<'a>>
    requires tree { tree < length trees.now.codes }
    requires made { HasParts trees.now tree }
    ensures is { (es : List Series) → IsTermAt es trees.now.codes (single_step Plus (at (series_at es of) (code_at trees.now.codes tree)) ∷ map (part_step es (later None own)) (tail (part_rows (code_at trees.now.codes tree)))) place result }
    ensures known { (n : ℕ) → own < n → of < n → MatchOption result (Unit {0}) (TermIn n (length trees.now.codes)) }
{
    if place == 0 {
        return Some(single(Operation::Add, Factor::At { series: of, tree }));
    }
    let rule = PartRule {
        operation: Operation::Subtract,
        outer: None,
        inner: own,
    };
    rule.term(trees.parts(tree), place)
}

/// The exact flow at the tree, the later partitions, and the method at the leaf as divisor.
fn modifying<'a>(
    own: SeriesId,
    of: SeriesId,
    trees: &'a Catalog,
    spot: &Spot,
    place: usize,
) -> Option<Term<'a>>
    requires tree { spot.now.tree < length trees.now.codes }
    requires made { HasParts trees.now spot.now.tree }
    requires leaf { spot.now.leaf < length trees.now.codes }
    ensures is { (es : List Series) → IsTermAt es trees.now.codes (single_step Plus (at (exact 1) (code_at trees.now.codes spot.now.tree)) ∷ (map (part_step es (later (Some of) own)) (tail (part_rows (code_at trees.now.codes spot.now.tree))) ++ single_step Over (at (series_at es of) (code_at trees.now.codes spot.now.leaf)) ∷ [])) place result }
    ensures known { (n : ℕ) → own < n → of < n → MatchOption result (Unit {0}) (TermIn n (length trees.now.codes)) }
{
    let rows = trees.parts(spot.tree);
    if place == 0 {
        return Some(single(Operation::Add, Factor::Flow { tree: spot.tree }));
    }
    if place == rows.len() {
        let leaf = Factor::At {
            series: of,
            tree: spot.leaf,
        };
        return Some(single(Operation::Divide, leaf));
    }
    let rule = PartRule {
        operation: Operation::Subtract,
        outer: Some(of),
        inner: own,
    };
    rule.term(rows, place)
}

/// A series at the tree, and a fraction as often as the tree has nodes.
fn scaled<'a>(
    of: SeriesId,
    by: Frac,
    trees: &'a Catalog,
    tree: u32,
    place: usize,
) -> Option<Term<'a>>
    requires tree { tree < length trees.now.codes }
    ensures is { (es : List Series) → IsTermAt es trees.now.codes (powers_step (series_at es of) by (code_at trees.now.codes tree) ∷ []) place result }
    ensures known { (n : ℕ) → of < n → MatchOption result (Unit {0}) (TermIn n (length trees.now.codes)) }
{
    if place > 0 {
        return None;
    }
    Some(Term {
        operation: Operation::Add,
        first: Factor::At { series: of, tree },
        rest: Rest::Powers {
            by,
            count: trees.code(tree).order() as u16,
        },
    })
}
