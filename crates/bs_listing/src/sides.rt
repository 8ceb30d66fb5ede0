//! What lines are made of: numbers of trees that change from line to line, and texts of those that do not.

ghost use Rattle.std.specs.Prelude.{◌≡◌, ◌<◌, ◌++◌, List, All, map, length, drop, slice_index, IfOk};
ghost use Rattle.bs_reply.specs.Lines.{trees_text};
ghost use Rattle.bs_catalog.specs.Shelf.{Code as Pairs, AreRows};
ghost use Rattle.bs_listing.specs.Texts.{HoldsTexts};
ghost use Rattle.bs_listing.specs.Sides.{crown_of};

use crate::texts::push_trees;
use bs_catalog::{Catalog, Rows};
use bs_script::Texts;
use std::alloc::{AllocError, Global};

/// Splittings that keep the root: for each the number of what is kept, and the text of the trees that are cut off.
#[derive(Drop)]
pub(crate) struct SplitSide {
    pub(crate) heads: Vec<u32>,
    pub(crate) texts: Texts,
}

/// The numbers of a partition's skeleton and of the part of its root.
#[derive(Clone, Copy)]
pub(crate) struct Crown {
    pub(crate) skeleton: u32,
    pub(crate) root: u32,
}

/// Partitions: for each the numbers of its skeleton and of the part of its root, and the text of its other parts.
#[derive(Drop)]
pub(crate) struct PartSide {
    pub(crate) crowns: Vec<Crown>,
    pub(crate) texts: Texts,
}

/// The number at a place of a row, 0 where there is none.
fn number_at(row: &[u32], place: usize) -> u32
    ensures { result ≡ slice_index row.now place }
{
    match row.get(place) {
        Some(number) => *number,
        None => 0,
    }
}

/// The first number of each row.
pub(crate) fn heads_of(alloc: Global, rows: &Rows) -> Result<Vec<u32>, AllocError>
    ensures { IfOk result (λ heads. heads.items ≡ map (λ row. slice_index row 0) rows.now) }
{
    let mut heads = Vec::new(alloc);
    'rows: for place in 0..rows.len() {
        heads.push(number_at(rows.get(place), 0))?;
    }
    Ok(heads)
}

/// The first two numbers of each row.
pub(crate) fn crowns_of(alloc: Global, rows: &Rows) -> Result<Vec<Crown>, AllocError>
    ensures { IfOk result (λ crowns. crowns.items ≡ map crown_of rows.now) }
{
    let mut crowns = Vec::new(alloc);
    'rows: for place in 0..rows.len() {
        let row = rows.get(place);
        let skeleton = number_at(row, 0);
        let root = number_at(row, 1);
        crowns.push(Crown { skeleton, root })?;
    }
    Ok(crowns)
}

/// The numbers of a row behind the first so many.
fn behind(row: &[u32], count: usize) -> &[u32]
    ensures { result.now ≡ drop count row.now }
{
    &row[count.min(row.len())..]
}

/// For each row the texts of its trees but the first so many, with an end behind them.
pub(crate) fn others_of(
    alloc: Global,
    catalog: &Catalog,
    texts: &mut Texts,
    rows: &Rows,
    count: usize,
    end: &[u8],
) -> Result<Texts, AllocError>
    requires there { All (λ row. All (λ n. n < length catalog.now.codes) row) rows.now }
    requires texts { HoldsTexts catalog.now.codes texts.old }
    ensures texts { HoldsTexts catalog.now.codes texts.new }
    ensures are { IfOk result (λ others. (lists : List (List Pairs)) → AreRows catalog.now.codes rows.now lists → others ≡ map (λ row. trees_text (drop count row) ++ end.now) lists) }
{
    let mut others = Texts::new(alloc);
    let mut draft = Vec::new(alloc);
    'rows: for place in 0..rows.len() {
        draft.clear();
        push_trees(
            alloc,
            catalog,
            texts,
            behind(rows.get(place), count),
            &mut draft,
        )?;
        draft.extend_from_slice(end)?;
        others.push(&draft)?;
    }
    Ok(others)
}
