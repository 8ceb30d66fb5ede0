//! The walk over a level sequence.

ghost use Rattle.std.specs.Prelude.{◌≡◌, ℕ, suc, ◌<◌, ◌≤◌, [], ◌∷◌, length, All};
ghost use Rattle.bs_frac.specs.Fraction.{whole};
ghost use Rattle.bs_frac.specs.Written.{checked, product_all};
ghost use Rattle.bs_tableau.specs.WrittenWeight.{edge_sum};
ghost use Rattle.bs_weight.specs.Walk.{stage_in, MultipliesBy, MultipliesTrees};

use bs_frac::{Running, share_denominator};
use bs_tableau::{MAX_STAGES, Tableau};

/// One value for each stage; those past the tableau's stages are never read. They are kept over one denominator where that is
/// possible.
pub type Stages = [Running; MAX_STAGES];

/// The empty products.
pub fn ones() -> Stages
    ensures value { (i : ℕ) → i < MAX_STAGES → stage_in result i ≡ checked.of (whole 1) }
    ensures places { length result ≡ MAX_STAGES }
{
    [
        one(),
        one(),
        one(),
        one(),
        one(),
        one(),
        one(),
        one(),
        one(),
        one(),
        one(),
        one(),
        one(),
        one(),
        one(),
        one(),
    ]
}

/// The empty product.
fn one() -> Running
    ensures { result ≡ checked.of (whole 1) }
{
    Running::whole(1)
}

/// The sum over the stages of a child, as a node at stage `row` sees it.
fn edge_sum(table: &Tableau, colour: usize, row: usize, child: &Stages) -> Running
    requires colour { colour < table.now.colours }
    requires row { row < table.now.stages }
    ensures { result ≡ edge_sum checked table.now colour row (stage_in child.now) }
{
    let mut sum = Running::whole(0);
    'columns: for column in 0..table.stages() {
        sum.add_product(&table.a(colour, row, column), &child[column]);
    }
    sum
}

/// The sums over the stages of a child of this colour, for each stage of its parent.
pub fn edge_sums(table: &Tableau, colour: usize, child: &Stages) -> Stages
    requires { colour < table.now.colours }
    ensures sums { (i : ℕ) → i < table.now.stages → stage_in result i ≡ edge_sum checked table.now colour i (stage_in child.now) }
    ensures few_stages { table.now.stages ≤ MAX_STAGES }
{
    let mut sums = ones();
    'rows: for row in 0..table.stages() {
        sums[row] = edge_sum(table, colour, row, child);
    }
    share_denominator(&mut sums);
    sums
}

/// Multiplies the factors into the values, stage by stage.
pub fn multiply(stages: usize, values: &mut Stages, factors: &Stages)
    requires { stages ≤ MAX_STAGES }
    ensures { MultipliesBy stages values.old values.new (stage_in factors.now) }
{
    'stages: for stage in 0..stages {
        values[stage].multiply_by(&factors[stage]);
    }
}

/// Multiplies the edge sums of the parent's children, with which the pairs begin, into the parent's
/// values, and gives the pairs after them.
pub fn multiply_children<'a>(
    table: &Tableau,
    parent: (u8, u8),
    pairs: &'a [(u8, u8)],
    values: &mut Stages,
) -> &'a [(u8, u8)]
    requires parent { parent.1 < table.now.colours }
    requires colours { All (λ node. node.1 < table.now.colours) pairs.now }
    ensures colours { All (λ node. node.1 < table.now.colours) result.now }
    ensures shorter { length result.now ≤ length pairs.now }
    ensures values { MultipliesTrees table.now (suc parent.0) pairs.now values.old values.new result.now }
{
    match pairs {
        [node, below @ ..] if node.0 > parent.0 => {
            let mut child = ones();
            let behind = multiply_children(table, *node, below, &mut child);
            let sums = edge_sums(table, usize::from(node.1), &child);
            multiply(table.stages(), values, &sums);
            multiply_children(table, parent, behind, values)
        }
        _ => pairs,
    }
}
