//! The weight of a tree.

ghost use Rattle.std.specs.Prelude.{◌≡◌, ◌<◌, All};
ghost use Rattle.bs_frac.specs.Fraction.{SameFraction};
ghost use Rattle.bs_frac.specs.Written.{checked};
ghost use Rattle.bs_tree.specs.Code.{tree_of};
ghost use Rattle.bs_tableau.specs.ElementaryWeight.{elementary_weight};
ghost use Rattle.bs_tableau.specs.Laws.{IfValue};
ghost use Rattle.bs_tableau.specs.Table.{IsBegun};
ghost use Rattle.bs_tableau.specs.WrittenWeight.{root_sum, written_weight};
ghost use Rattle.bs_weight.specs.Walk.{stage_in};

use crate::walk::{Stages, multiply_children, ones};
use bs_frac::{Coef, Running};
use bs_tableau::Tableau;
use bs_tree::Code;

/// The elementary weight of a tree: the sum over all maps of its nodes to stages, carried out stage by
/// stage in the written order. Takes no memory, and about n s^2 products.
pub fn weight(table: &Tableau, code: &Code) -> Coef
    requires { All (λ pair. pair.1 < table.now.colours) code.now }
    ensures written { result ≡ written_weight checked table.now (tree_of code.now) }
    ensures elementary { IfValue result (λ x. SameFraction x (elementary_weight table.now (tree_of code.now))) }
{
    let mut values = ones();
    let pairs = code.pairs();
    let _behind = multiply_children(table, pairs[0], &pairs[1..], &mut values);
    root_sum(table, usize::from(pairs[0].1), &values)
}

/// The sum over the stages of the root.
pub(crate) fn root_sum(table: &Tableau, colour: usize, values: &Stages) -> Coef
    requires { colour < table.now.colours }
    ensures value { result ≡ root_sum checked table.now colour (stage_in values.now) }
    ensures begun { IsBegun table.now }
{
    let mut sum = Running::whole(0);
    'stages: for stage in 0..table.stages() {
        sum.add_product(&table.b(colour, stage), &values[stage]);
    }
    sum.value()
}
