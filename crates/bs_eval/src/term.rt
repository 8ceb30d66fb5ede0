//! The terms of a plan, with numbers in place of trees.

ghost use Rattle.std.specs.Prelude.{◌≡◌, ◌<◌, List, length, suc, Some, IfSome, slice_get, ℕ};
ghost use Rattle.bs_frac.specs.Written.{checked};
ghost use Rattle.bs_tableau.specs.Table.{Table};
ghost use Rattle.bs_series.specs.Series.{Series};
ghost use Rattle.bs_series.specs.Plan.{Factor as SomeFactor};
ghost use Rattle.bs_series.specs.SeriesCode.{Code as Pairs, factor_at, written_at};
ghost use Rattle.bs_eval.specs.Terms.{step_in, factor_in, term_length, TermIn, FactorIn};
ghost use Rattle.bs_eval.specs.Values.{AreValues};

use crate::factor::Factor;
use crate::values::Values;
use bs_frac::{Coef, Frac};
use bs_series::SeriesId;

/// What becomes of the sum with a term.
#[derive(Clone, Copy)]
pub(crate) enum Operation {
    /// The term is added.
    Add,
    /// The term is subtracted.
    Subtract,
    /// The sum is divided by the term's only factor.
    Divide,
}

/// The factors behind the first one.
#[derive(Clone, Copy)]
pub(crate) enum Rest<'a> {
    /// None.
    Nothing,
    /// One.
    One { factor: Factor },
    /// A series at some trees.
    Each { series: SeriesId, trees: &'a [u32] },
    /// A series at some trees, each with the sign of its tree's order.
    Turned { series: SeriesId, trees: &'a [u32] },
    /// A fraction as often as is said.
    Powers { by: Frac, count: u16 },
}

/// A product of factors, and what becomes of the sum with it.
#[derive(Clone, Copy)]
pub(crate) struct Term<'a> {
    pub(crate) operation: Operation,
    pub(crate) first: Factor,
    pub(crate) rest: Rest<'a>,
}

impl Term<'_> {
    /// The number of factors.
    pub(crate) fn len(&self) -> usize
        ensures { result ≡ term_length self.now }
    {
        match &self.rest {
            Rest::Nothing => 1,
            Rest::One { .. } => 2,
            Rest::Each { trees, .. } | Rest::Turned { trees, .. } => one_more(trees),
            Rest::Powers { count, .. } => usize::from(*count) + 1,
        }
    }

    /// The value of the factor at this place, where it is remembered as it is.
    pub(crate) fn remembered<'v>(&self, place: usize, values: &'v Values) -> Option<&'v Coef>
        requires { place < term_length self.now }
        ensures { (tables : List Table) (es : List Series) (cs : List Pairs) (factor : SomeFactor Pairs) → AreValues tables es cs values.now → slice_get (step_in es cs self.now).factors place ≡ Some factor → IfSome result (λ value. value.now ≡ factor_at checked (written_at tables) factor) }
    {
        if place == 0 {
            return self.first.remembered(values);
        }
        match &self.rest {
            Rest::Each { series, trees } => values.recall(*series, tree_at(trees, place - 1)),
            Rest::One { factor } => factor.remembered(values),
            Rest::Nothing | Rest::Turned { .. } | Rest::Powers { .. } => None,
        }
    }

    /// The factor at this place, counted from 0.
    pub(crate) fn factor(&self, place: usize) -> Factor
        requires { place < term_length self.now }
        ensures is { (es : List Series) (cs : List Pairs) → slice_get (step_in es cs self.now).factors place ≡ Some (factor_in es cs result) }
        ensures known { (n m : ℕ) → TermIn n m self.now → FactorIn n m result }
    {
        if place == 0 {
            return self.first;
        }
        match &self.rest {
            Rest::Nothing => self.first,
            Rest::One { factor } => *factor,
            Rest::Each { series, trees } => Factor::At {
                series: *series,
                tree: tree_at(trees, place - 1),
            },
            Rest::Turned { series, trees } => Factor::Turned {
                series: *series,
                tree: tree_at(trees, place - 1),
            },
            Rest::Powers { by, .. } => Factor::Fixed { value: *by },
        }
    }
}

/// One more than the number of trees.
fn one_more(trees: &[u32]) -> usize
    ensures { result ≡ suc (length trees.now) }
{
    trees.len() + 1
}

/// The tree at this place.
fn tree_at(trees: &[u32], place: usize) -> u32
    requires { place < length trees.now }
    ensures { slice_get trees.now place ≡ Some result }
{
    trees[place]
}
