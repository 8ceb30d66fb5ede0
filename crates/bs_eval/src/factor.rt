//! One factor of a term, and its value where that needs no question.

ghost use Rattle.std.specs.Prelude.{◌≡◌, ◌<◌, List, length, MatchOption, IfSome, IfNone, IsSomeAnd, Some, None, ℕ};
ghost use Rattle.bs_frac.specs.Written.{checked};
ghost use Rattle.bs_tableau.specs.Table.{Table};
ghost use Rattle.bs_series.specs.Series.{Series};
ghost use Rattle.bs_series.specs.SeriesCode.{Code as Pairs, factor_at, written_at};
ghost use Rattle.bs_series.specs.Value.{signed_by};
ghost use Rattle.bs_eval.specs.Terms.{factor_in, wanted_in, FactorIn, FactorFits};
ghost use Rattle.bs_eval.specs.Values.{AreValues, IsLookedUp, value_of};

use crate::values::Values;
use bs_catalog::Catalog;
use bs_frac::{Coef, Frac};
use bs_series::{Book, SeriesId};

/// A factor of a term, its tree by number.
#[derive(Clone, Copy)]
pub(crate) enum Factor {
    /// A fraction.
    Fixed { value: Frac },
    /// The exact flow at a tree.
    Flow { tree: u32 },
    /// A series of the book at a tree.
    At { series: SeriesId, tree: u32 },
    /// The same with the sign of the tree's order.
    Turned { series: SeriesId, tree: u32 },
}

/// A series at a tree, by the tree's number.
#[derive(Clone, Copy)]
pub(crate) struct Wanted {
    pub(crate) series: SeriesId,
    pub(crate) tree: u32,
}

impl Factor {
    /// The series and the tree whose value the factor has, but for a sign.
    pub(crate) fn wanted(&self) -> Option<Wanted>
        ensures { result ≡ wanted_in self.now }
    {
        match self {
            Factor::Fixed { .. } | Factor::Flow { .. } => None,
            Factor::At { series, tree } | Factor::Turned { series, tree } => Some(Wanted {
                series: *series,
                tree: *tree,
            }),
        }
    }

    /// The value of the factor, where it is remembered as it is.
    pub(crate) fn remembered<'v>(&self, values: &'v Values) -> Option<&'v Coef>
        ensures { (tables : List Table) (es : List Series) (cs : List Pairs) → AreValues tables es cs values.now → IfSome result (λ value. value.now ≡ factor_at checked (written_at tables) (factor_in es cs self.now)) }
    {
        match self {
            Factor::At { series, tree } => values.recall(*series, *tree),
            Factor::Flow { tree } => values.recall_flow(*tree),
            Factor::Fixed { .. } | Factor::Turned { .. } => None,
        }
    }

    /// The value of the factor, where that of its series at its tree is handed in.
    pub(crate) fn handed(&self, trees: &Catalog, value: Coef) -> Coef
        requires { (n : ℕ) × FactorIn n (length trees.now.codes) self.now }
        ensures { (tables : List Table) (es : List Series) → IsSomeAnd (wanted_in self.now) (λ wanted. value ≡ value_of tables es trees.now.codes wanted) → result ≡ factor_at checked (written_at tables) (factor_in es trees.now.codes self.now) }
    {
        match self {
            Factor::Turned { tree, .. } => turned(value, trees.code(*tree).order()),
            Factor::Fixed { .. } | Factor::Flow { .. } | Factor::At { .. } => value,
        }
    }

    /// The value of a factor that is remembered, or given by a formula.
    pub(crate) fn settled(&self, book: &Book, trees: &Catalog, values: &mut Values) -> Option<Coef>
        requires known { FactorIn (length book.now) (length trees.now.codes) self.now }
        requires fits { FactorFits book.now trees.now.codes self.now }
        ensures awaited { IfNone result (IsSomeAnd (wanted_in self.now) (λ wanted. IsLookedUp book.now trees.now.codes wanted)) }
        ensures value { (tables : List Table) → AreValues tables book.now trees.now.codes values.old → IfSome result (λ value. value ≡ factor_at checked (written_at tables) (factor_in book.now trees.now.codes self.now)) }
        ensures values { (tables : List Table) → AreValues tables book.now trees.now.codes values.old → AreValues tables book.now trees.now.codes values.new }
    {
        match self {
            Factor::Fixed { value } => Some(Coef::Value(*value)),
            Factor::Flow { tree } => Some(values.flow(trees, *tree)),
            Factor::At { series, tree } => values.known(book, trees, *series, *tree),
            Factor::Turned { series, tree } => {
                let value = values.known(book, trees, *series, *tree)?;
                Some(turned(value, trees.code(*tree).order()))
            }
        }
    }
}

/// A value with the sign (-1)^order.
fn turned(value: Coef, order: usize) -> Coef
    ensures { result ≡ signed_by checked order value }
{
    if order % 2 == 1 {
        value.opposite()
    } else {
        value
    }
}
