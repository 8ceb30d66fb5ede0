//! Values that are computed with no look at what is remembered.

ghost use Rattle.std.specs.Prelude.{◌≡◌, ◌<◌, ◌*◌, List, length, suc, MatchOption};
ghost use Rattle.bs_frac.specs.declared.coef.Coef.TheVariants.{Value};
ghost use Rattle.bs_frac.specs.Written.{checked};
ghost use Rattle.bs_tree.specs.Code.{tree_of};
ghost use Rattle.bs_tableau.specs.Table.{Table};
ghost use Rattle.bs_series.specs.Value.{unit_fraction, exact_value, average_value, arity, arities};
ghost use Rattle.bs_series.specs.Series.{method, colours_of};
ghost use Rattle.bs_series.specs.Plan.{HasPlan};
ghost use Rattle.bs_series.specs.SeriesCode.{written_at};
ghost use Rattle.bs_series.specs.Expressions.{series_at};
ghost use Rattle.bs_eval.specs.Pairs.{IsLooked};

use bs_frac::{Coef, Frac};
use bs_series::{Book, Kind, SeriesId};
use bs_tree::Code;

/// The fraction 1/n.
fn unit_fraction(number: u64) -> Coef
    requires { 0 < number }
    ensures { result ≡ Value (unit_fraction number) }
{
    Coef::of(Frac::new(false, 1, u128::from(number)))
}

/// The coefficient of the exact flow: 1 over the density.
pub(crate) fn exact_value(code: &Code) -> Coef
    ensures { result ≡ Value (exact_value (tree_of code.now)) }
{
    unit_fraction(code.density())
}

/// The product over the nodes of one more than the number of their children.
fn arities(code: &Code) -> u64
    ensures value { result ≡ suc (arity (tree_of code.now).below) * arities (tree_of code.now).below }
    ensures positive { 0 < result }
{
    let _order = code.order();
    let mut product = code.arity() as u64 + 1;
    'children: for place in 0..code.arity() {
        product *= arities(&code.child(place));
    }
    product
}

/// The coefficient of the average vector field method: 1 over that product.
fn average_value(code: &Code) -> Coef
    ensures { result ≡ average_value checked (tree_of code.now) }
{
    let _order = code.order();
    unit_fraction(arities(code))
}

/// The value of a series that is given by a formula. `None` for a series that is looked up.
pub(crate) fn direct_value(book: &Book, series: SeriesId, code: &Code) -> Option<Coef>
    requires { series < length book.now }
    ensures { MatchOption result (IsLooked (series_at book.now series)) (λ value. (tables : List Table) → value ≡ written_at tables (series_at book.now series) code.now) }
{
    match book.kind(series) {
        Kind::Exact { .. } => Some(exact_value(code)),
        Kind::Identity { .. } => Some(Coef::Value(Frac::whole(0))),
        Kind::Average { .. } => Some(average_value(code)),
        Kind::Method { .. }
        | Kind::Compose { .. }
        | Kind::Inverse { .. }
        | Kind::Adjoint { .. }
        | Kind::Substitute { .. }
        | Kind::Modified { .. }
        | Kind::Modifying { .. }
        | Kind::Scale { .. } => None,
    }
}

/// The number of a method's tableau. `None` for every other series.
pub(crate) fn method_table(book: &Book, series: SeriesId) -> Option<u16>
    requires { series < length book.now }
    ensures { MatchOption result (IsLooked (series_at book.now series) → HasPlan (series_at book.now series)) (λ table. series_at book.now series ≡ method table (colours_of (series_at book.now series))) }
{
    match book.kind(series) {
        Kind::Method { table } => Some(table),
        Kind::Exact { .. }
        | Kind::Identity { .. }
        | Kind::Average { .. }
        | Kind::Compose { .. }
        | Kind::Inverse { .. }
        | Kind::Adjoint { .. }
        | Kind::Substitute { .. }
        | Kind::Modified { .. }
        | Kind::Modifying { .. }
        | Kind::Scale { .. } => None,
    }
}
