//! The order conditions of a method, and the order that they tell.

ghost use Rattle.std.specs.Prelude.{◌≡◌, ◌+◌, ◌<◌, ◌≤◌, ◌++◌, All, flat_map, map, take, vec_len, OnOk, OnErr};
ghost use Rattle.bs_enum.specs.AllTrees.{trees_to, trees_up_to};
ghost use Rattle.bs_reply.specs.Lines.{line_text, count_line};
ghost use Rattle.bs_order.specs.OrderConditions.{target_of, verdict_at, together, verdict_of_order, order_of, is_open, condition_at, conditions_reply, order_reply};

use crate::MAX_CONDITIONS;
use bs_enum::{Walk, count_to};
use bs_frac::Frac;
use bs_reply::{Line, Verdict, Word, write_line};
use bs_tableau::Tableau;
use bs_tree::{Code, MAX_NODES};
use bs_weight::Weights;
use std::alloc::AllocError;

/// The elementary weight that the order condition of a tree wants: one over the density.
fn target_of(code: &Code) -> Frac
    ensures { result ≡ target_of code.now }
{
    match Frac::new(false, 1, u128::from(code.density())) {
        Ok(target) => target,
        Err(_) => Frac::whole(0),
    }
}

/// Whether the order condition of a tree holds.
fn verdict_at(weights: &mut Weights, table: &Tableau, code: &Code) -> Verdict
    requires { All (λ pair. pair.1 < table.now.colours) code.now }
    ensures { result ≡ verdict_at table.now code.now }
{
    let coef = weights.weight(table, code);
    Verdict::of(&coef, &target_of(code))
}

/// The line with the order condition of a tree.
fn condition_at(weights: &mut Weights, table: &Tableau, code: Code) -> Line<'static>
    requires { All (λ pair. pair.1 < table.now.colours) code }
    ensures { line_text result ≡ condition_at table.now code }
{
    Line::Condition {
        code,
        coef: weights.weight(table, &code),
        target: target_of(&code),
    }
}

/// Appends the reply with the order conditions for the trees to an order.
pub fn write_conditions(
    out: &mut Vec<u8>,
    weights: &mut Weights,
    table: &Tableau,
    order: usize,
) -> Result<(), AllocError>
    requires few_nodes { order ≤ MAX_NODES }
    requires few { trees_to order table.now.colours ≤ MAX_CONDITIONS }
    ensures written { OnOk result (out.new.items ≡ out.old.items ++ conditions_reply table.now order) }
    ensures unchanged { OnErr result (out.new.items ≡ out.old.items) }
{
    let start = out.len();
    let outcome = push_reply(out, weights, table, order);
    if outcome.is_err() {
        out.truncate(start);
    }
    outcome
}

/// Appends the number of the conditions and their lines, or some front of that.
fn push_reply(
    out: &mut Vec<u8>,
    weights: &mut Weights,
    table: &Tableau,
    order: usize,
) -> Result<(), AllocError>
    requires few_nodes { order ≤ MAX_NODES }
    requires few { trees_to order table.now.colours ≤ MAX_CONDITIONS }
    ensures written { OnOk result (out.new.items ≡ out.old.items ++ conditions_reply table.now order) }
    ensures behind { OnErr result (take (vec_len out.old) out.new.items ≡ out.old.items) }
{
    let number = count_to(order, table.colours(), MAX_CONDITIONS);
    let word = Word::Conditions;
    write_line(out, &Line::Count { word, number })?;
    push_orders(out, weights, table, order)
}

/// Appends the lines of the trees to an order, or some front of that.
fn push_orders(
    out: &mut Vec<u8>,
    weights: &mut Weights,
    table: &Tableau,
    order: usize,
) -> Result<(), AllocError>
    requires few_nodes { order ≤ MAX_NODES }
    ensures written { OnOk result (out.new.items ≡ out.old.items ++ flat_map (condition_at table.now) (trees_up_to order table.now.colours)) }
    ensures behind { OnErr result (take (vec_len out.old) out.new.items ≡ out.old.items) }
{
    'orders: for smaller in 0..order {
        push_conditions(out, weights, table, Walk::new(smaller + 1, table.colours()))?;
    }
    Ok(())
}

/// Appends a line for each tree that is left, or some front of that.
fn push_conditions(
    out: &mut Vec<u8>,
    weights: &mut Weights,
    table: &Tableau,
    mut walk: Walk,
) -> Result<(), AllocError>
    requires { walk.colours ≡ table.now.colours }
    ensures written { OnOk result (out.new.items ≡ out.old.items ++ flat_map (condition_at table.now) walk.left) }
    ensures behind { OnErr result (take (vec_len out.old) out.new.items ≡ out.old.items) }
{
    'trees: while let Some(code) = walk.next() {
        write_line(out, &condition_at(weights, table, code))?;
    }
    Ok(())
}

/// Appends the reply with the order of the method, as far as this order.
pub fn write_order(
    out: &mut Vec<u8>,
    weights: &mut Weights,
    table: &Tableau,
    order: usize,
) -> Result<(), AllocError>
    requires few_nodes { order ≤ MAX_NODES }
    ensures written { OnOk result (out.new.items ≡ out.old.items ++ order_reply table.now order) }
    ensures unchanged { OnErr result (out.new.items ≡ out.old.items) }
{
    let (number, overflow) = order_of(weights, table, order);
    write_line(
        out,
        &Line::Order {
            number: number as u64,
            overflow,
        },
    )
}

/// The order of the method as far as this order, and whether it is open what comes behind it.
fn order_of(weights: &mut Weights, table: &Tableau, order: usize) -> (usize, bool)
    requires { order ≤ MAX_NODES }
    ensures number { result.0 ≡ order_of table.now order }
    ensures open { result.1 ≡ is_open table.now order }
{
    'orders: for met in 0..order {
        match verdict_left(weights, table, Walk::new(met + 1, table.colours())) {
            Verdict::Holds => {}
            Verdict::Fails => return (met, false),
            Verdict::Unknown => return (met, true),
        }
    }
    (order, false)
}

/// The verdicts on the trees that are left, together. Stops at the first wrong weight.
fn verdict_left(weights: &mut Weights, table: &Tableau, mut walk: Walk) -> Verdict
    requires { walk.colours ≡ table.now.colours }
    ensures { result ≡ together (map (verdict_at table.now) walk.left) }
{
    let mut open = false;
    'trees: while let Some(code) = walk.next() {
        match verdict_at(weights, table, &code) {
            Verdict::Holds => {}
            Verdict::Fails => return Verdict::Fails,
            Verdict::Unknown => open = true,
        }
    }
    if open {
        Verdict::Unknown
    } else {
        Verdict::Holds
    }
}
