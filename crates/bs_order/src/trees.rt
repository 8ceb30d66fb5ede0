//! The reply that lists the trees of an order.

ghost use Rattle.std.specs.Prelude.{◌≡◌, ◌++◌, Ok, Err, IfOk, IfErr, flat_map, take, vec_len, option_copied, OnOk, OnErr};
ghost use Rattle.bs_enum.specs.AllTrees.{tree_count};
ghost use Rattle.bs_enum.specs.Walk.{whole};
ghost use Rattle.bs_reply.specs.Lines.{listed_line};
ghost use Rattle.bs_order.specs.OrderConditions.{listed_reply, trees_reply};

use bs_enum::Trees;
use bs_reply::{Line, Word, write_line};
use std::alloc::AllocError;

/// Appends the reply with all trees of an order.
pub fn write_trees(out: &mut Vec<u8>, trees: Trees) -> Result<(), AllocError>
    requires whole { trees ≡ whole trees.order trees.colours }
    ensures written { OnOk result (out.new.items ≡ out.old.items ++ trees_reply trees.order trees.colours) }
    ensures unchanged { OnErr result (out.new.items ≡ out.old.items) }
{
    let start = out.len();
    let outcome = push_reply(out, trees);
    if outcome.is_err() {
        out.truncate(start);
    }
    outcome
}

/// Appends the number of the trees and their lines, or some front of that.
fn push_reply(out: &mut Vec<u8>, trees: Trees) -> Result<(), AllocError>
    ensures written { OnOk result (out.new.items ≡ out.old.items ++ listed_reply (tree_count trees.order trees.colours) trees.left) }
    ensures behind { OnErr result (take (vec_len out.old) out.new.items ≡ out.old.items) }
{
    write_line(
        out,
        &Line::Count {
            word: Word::Trees,
            number: trees.len() as u64,
        },
    )?;
    push_trees(out, trees)
}

/// Appends a line for each tree that is left, or some front of that.
fn push_trees(out: &mut Vec<u8>, mut trees: Trees) -> Result<(), AllocError>
    ensures written { OnOk result (out.new.items ≡ out.old.items ++ flat_map listed_line trees.left) }
    ensures behind { OnErr result (take (vec_len out.old) out.new.items ≡ out.old.items) }
{
    'trees: while let Some(code) = trees.next() {
        write_line(out, &Line::Listed { code })?;
    }
    Ok(())
}
