//! Rows of a tree, made of those of its first child and of those of the tree without that child.
ghost use Rattle.std.specs.Prelude.{◌≡◌, ◌<◌, ◌≤◌, ◌∷◌, [], List, All, drop, length, IfOk, OnOk};
ghost use Rattle.bs_catalog.specs.Making.{splits_made, parts_made};
ghost use Rattle.bs_catalog.specs.Shelf.{Code as Pairs, Numbers, AreRows};
ghost use Rattle.bs_catalog.specs.Memo.{Extends};
ghost use Rattle.bs_catalog.specs.Puts.{AreLong, Puts, PutsUnder, PutsAll};

use crate::arena::Arena;
use crate::rows::Rows;
use crate::way::Way;
use bs_tree::Code;
use std::alloc::{AllocError, Global};

/// The first number of a row.
pub(crate) fn first_of(row: &[u32]) -> u32
    requires { 0 < length row.now }
    ensures { row.now ≡ result ∷ drop 1 row.now }
{
    row[0]
}

/// The numbers of a row behind the first.
pub(crate) fn behind(row: &[u32]) -> &[u32]
    requires { 0 < length row.now }
    ensures { result.now ≡ drop 1 row.now }
{
    &row[1..]
}

/// The first child is one more tree that is cut off.
fn push_cut_off(
    arena: &mut Arena,
    kept: &[u32],
    row: &[u32],
    out: &mut Rows,
) -> Result<(), AllocError>
    requires { AreLong Way.CutOff kept.now row.now }
    ensures grows { Extends arena.old arena.new }
    ensures put { OnOk result (Puts Way.CutOff arena.old arena.new kept.now row.now out.old out.new) }
{
    let head = first_of(row);
    let others = behind(row);
    out.push(&[head], kept, others)
}

/// What is kept of the first child hangs on what is kept of the rest.
fn push_kept(arena: &mut Arena, kept: &[u32], row: &[u32], out: &mut Rows) -> Result<(), AllocError>
    requires { AreLong Way.Keep kept.now row.now }
    ensures grows { Extends arena.old arena.new }
    ensures put { OnOk result (Puts Way.Keep arena.old arena.new kept.now row.now out.old out.new) }
{
    let below = first_of(kept);
    let cut = behind(kept);
    let top = first_of(row);
    let others = behind(row);
    let head = arena.attach(top, below)?;
    out.push(&[head], cut, others)
}

/// The part of the first child's root joins that of the root, and the skeletons become one.
fn push_joined(
    arena: &mut Arena,
    kept: &[u32],
    row: &[u32],
    out: &mut Rows,
) -> Result<(), AllocError>
    requires { AreLong Way.Join kept.now row.now }
    ensures grows { Extends arena.old arena.new }
    ensures put { OnOk result (Puts Way.Join arena.old arena.new kept.now row.now out.old out.new) }
{
    let hung = first_of(kept);
    let trees = behind(kept);
    let below = first_of(trees);
    let parts = behind(trees);
    let skeleton = first_of(row);
    let roots = behind(row);
    let top = first_of(roots);
    let others = behind(roots);
    let merged = arena.merge(skeleton, hung)?;
    let head = arena.attach(top, below)?;
    out.push(&[merged, head], parts, others)
}

/// The part of the first child's root is one of its own, and its skeleton hangs on the other.
fn push_severed(
    arena: &mut Arena,
    kept: &[u32],
    row: &[u32],
    out: &mut Rows,
) -> Result<(), AllocError>
    requires { AreLong Way.Sever kept.now row.now }
    ensures grows { Extends arena.old arena.new }
    ensures put { OnOk result (Puts Way.Sever arena.old arena.new kept.now row.now out.old out.new) }
{
    let hung = first_of(kept);
    let parts = behind(kept);
    let skeleton = first_of(row);
    let roots = behind(row);
    let top = first_of(roots);
    let others = behind(roots);
    let attached = arena.attach(skeleton, hung)?;
    out.push(&[attached, top], parts, others)
}

/// Puts the row that is made of a row of the first child and a row of the tree without it.
fn push_made(
    way: Way,
    arena: &mut Arena,
    kept: &[u32],
    row: &[u32],
    out: &mut Rows,
) -> Result<(), AllocError>
    requires { AreLong way kept.now row.now }
    ensures grows { Extends arena.old arena.new }
    ensures put { OnOk result (Puts way arena.old arena.new kept.now row.now out.old out.new) }
{
    match way {
        Way::CutOff => push_cut_off(arena, kept, row, out),
        Way::Keep => push_kept(arena, kept, row, out),
        Way::Join => push_joined(arena, kept, row, out),
        Way::Sever => push_severed(arena, kept, row, out),
    }
}

/// Puts the rows that are made of a row of the first child and each row of the tree without it.
fn push_under(
    way: Way,
    arena: &mut Arena,
    kept: &[u32],
    rest: &Rows,
    out: &mut Rows,
) -> Result<(), AllocError>
    requires { All (AreLong way kept.now) rest.now }
    ensures grows { Extends arena.old arena.new }
    ensures put { OnOk result (PutsUnder way arena.old arena.new kept.now rest.now out.old out.new) }
{
    'rest: for place in 0..rest.len() {
        push_made(way, arena, kept, rest.get(place), out)?;
    }
    Ok(())
}

/// Puts the rows that are made of each row of the first child and each of the tree without it.
fn push_all_made(
    way: Way,
    arena: &mut Arena,
    kids: &Rows,
    rest: &Rows,
    out: &mut Rows,
) -> Result<(), AllocError>
    requires { All (λ kept. All (AreLong way kept) rest.now) kids.now }
    ensures grows { Extends arena.old arena.new }
    ensures put { OnOk result (PutsAll way arena.old arena.new kids.now rest.now out.old out.new) }
{
    'kids: for place in 0..kids.len() {
        push_under(way, arena, kids.get(place), rest, out)?;
    }
    Ok(())
}

/// The rows of the splittings that keep the root, for a tree of more than one node.
pub(crate) fn splits_by(
    alloc: Global,
    arena: &mut Arena,
    child: u32,
    kids: &Rows,
    rest: &Rows,
) -> Result<Rows, AllocError>
    requires kids { All (λ row. 1 ≤ length row) kids.now }
    requires rest { All (λ row. 1 ≤ length row) rest.now }
    ensures grows { Extends arena.old arena.new }
    ensures rows { IfOk result (λ rows. (x : Pairs) (ks rs : List (List Pairs)) → Numbers arena.old child x → AreRows arena.old kids.now ks → AreRows arena.old rest.now rs → AreRows arena.new rows (splits_made x ks rs)) }
{
    let mut rows = Rows::new(alloc);
    push_under(Way::CutOff, arena, &[child], rest, &mut rows)?;
    push_all_made(Way::Keep, arena, kids, rest, &mut rows)?;
    Ok(rows)
}

/// The rows of the partitions, for a tree of more than one node.
pub(crate) fn parts_by(
    alloc: Global,
    arena: &mut Arena,
    kids: &Rows,
    rest: &Rows,
) -> Result<Rows, AllocError>
    requires kids { All (λ row. 2 ≤ length row) kids.now }
    requires rest { All (λ row. 2 ≤ length row) rest.now }
    ensures grows { Extends arena.old arena.new }
    ensures rows { IfOk result (λ rows. (ks rs : List (List Pairs)) → AreRows arena.old kids.now ks → AreRows arena.old rest.now rs → AreRows arena.new rows (parts_made ks rs)) }
{
    let mut rows = Rows::new(alloc);
    push_all_made(Way::Join, arena, kids, rest, &mut rows)?;
    push_all_made(Way::Sever, arena, kids, rest, &mut rows)?;
    Ok(rows)
}

/// The row of the splitting that keeps the root, for a tree of one node.
pub(crate) fn leaf_splits(alloc: Global, number: u32) -> Result<Rows, AllocError>
    ensures { IfOk result (λ rows. rows ≡ (number ∷ []) ∷ []) }
{
    let mut rows = Rows::new(alloc);
    rows.push(&[number], &[], &[])?;
    Ok(rows)
}

/// The row of the partition, for a tree of one node.
pub(crate) fn leaf_parts(alloc: Global, arena: &mut Arena, number: u32) -> Result<Rows, AllocError>
    ensures grows { Extends arena.old arena.new }
    ensures rows { IfOk result (λ rows. (x : Pairs) → Numbers arena.old number x → AreRows arena.new rows ((((1, 0) ∷ []) ∷ (x ∷ [])) ∷ [])) }
{
    let leaf = arena.number(&Code::leaf(0))?;
    let mut rows = Rows::new(alloc);
    rows.push(&[leaf, number], &[], &[])?;
    Ok(rows)
}
