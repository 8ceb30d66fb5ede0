//! The written value of a series at the leaf of colour 0. Takes no memory.
ghost use Rattle.std.specs.Prelude.{◌≡◌, ◌<◌, [], ◌∷◌, length};
ghost use Rattle.bs_frac.specs.Fraction.{whole};
ghost use Rattle.bs_frac.specs.Written.{checked, product_all, sum_onto, less_all};
ghost use Rattle.bs_part.specs.Partition.{leaf};
ghost use Rattle.bs_tableau.specs.WrittenWeight.{written_weight};
ghost use Rattle.bs_series.specs.Value.{written};
ghost use Rattle.bs_series.specs.Expressions.{series_at};
ghost use Rattle.bs_series.specs.Accepted.{Suits};

use crate::book::Book;
use crate::kind::{Kind, SeriesId};
use bs_frac::{Acc, Coef, Frac};
use bs_tableau::Tableau;
use bs_tree::Code;
use bs_weight::weight;

impl Book {
    /// The written value of a series at the leaf. Reads each node of the expression written out, once.
    pub(crate) fn leaf_value(&self, tables: &[Tableau], id: SeriesId) -> Coef
        requires known { id < length self.now }
        requires suits { Suits tables.now self.now }
        ensures { result ≡ written tables.now (series_at self.now id) leaf }
    {
        match self.kind(id) {
            Kind::Exact { .. } => Coef::Value(Frac::whole(1)),
            Kind::Identity { .. } => Coef::Value(Frac::whole(0)),
            Kind::Average { .. } => Coef::Value(Frac::whole(1)),
            Kind::Method { table } => method_at_leaf(&tables[usize::from(table)]),
            Kind::Compose { first, second } => composed_at_leaf(
                &self.leaf_value(tables, first),
                &self.empty_value(second),
                &self.leaf_value(tables, second),
            ),
            Kind::Inverse { of } => inverse_at_leaf(&self.leaf_value(tables, of)),
            Kind::Adjoint { of } => inverse_at_leaf(&self.leaf_value(tables, of).opposite()),
            Kind::Substitute { inner, outer } => {
                term(&[
                    self.leaf_value(tables, outer),
                    self.leaf_value(tables, inner),
                ])
            }
            Kind::Modified { of } => term(&[self.leaf_value(tables, of)]),
            Kind::Modifying { of } => {
                term(&[Coef::Value(Frac::whole(1))]).quotient(&self.leaf_value(tables, of))
            }
            Kind::Scale { of, by } => term(&[self.leaf_value(tables, of), Coef::Value(by)]),
        }
    }
}

/// The weight of the leaf over a tableau.
fn method_at_leaf(table: &Tableau) -> Coef
    ensures { result ≡ written_weight checked table.now leaf }
{
    let _colours = table.colours();
    weight(table, &Code::leaf(0))
}

/// A sum of one product.
fn term(factors: &[Coef]) -> Coef
    ensures { result ≡ checked.sum (checked.of (whole 0)) (product_all checked factors.now) }
{
    let mut sum = Acc::start();
    sum.add_term(factors);
    sum.finish()
}

/// First a, then b: nothing is kept of the leaf, or all of it.
fn composed_at_leaf(a: &Coef, empty: &Frac, b: &Coef) -> Coef
    ensures { result ≡ sum_onto checked (checked.of (whole 0)) (product_all checked (checked.of empty.now ∷ a.now ∷ []) ∷ product_all checked (b.now ∷ []) ∷ []) }
{
    let mut sum = Acc::start();
    sum.add_term(&[Coef::Value(*empty), *a]);
    sum.add_term(&[*b]);
    sum.finish()
}

/// Nothing is kept of the leaf.
fn inverse_at_leaf(a: &Coef) -> Coef
    ensures { result ≡ less_all checked (checked.of (whole 0)) (product_all checked (checked.of (whole 1) ∷ a.now ∷ []) ∷ []) }
{
    let mut sum = Acc::start();
    sum.sub_term(&[Coef::Value(Frac::whole(1)), *a]);
    sum.finish()
}
