//! The rows of trees beside the walks over their splittings and partitions, and rows that are known from elsewhere.
ghost use Rattle.std.specs.Prelude.{◌≡◌, ◌<◌};

use crate::{Catalog, Gathered, Rows};
use bs_part::Parts;
use bs_split::Splits;
use bs_steps::Steps;
use bs_tree::{Code, CodeList};
use std::alloc::{AllocError, Global};
use std::marker::Brand;
use std::sync::ledger::{Blank, Ledger};
use std::test::Fail;

/// The code of these levels and colours, a digit each.
fn code_of(alloc: Global, levels: &str, colours: &str) -> Result<Code, Fail> {
    let mut pairs = Vec::new(alloc);
    for (level, colour) in levels.bytes().zip(colours.bytes()) {
        pairs.push((level.saturating_sub(b'0'), colour.saturating_sub(b'0')))?;
    }
    Ok(Code::of_pairs(&pairs).ok_or("no level sequence")?)
}

/// The items of the walk over the splittings that keep the root, each as the codes of its trees.
fn walked_splits(alloc: Global, code: Code) -> Result<Vec<Vec<Code>>, AllocError> {
    counted_splits::<Brand>(alloc, code, Blank::new(1))
}

fn counted_splits<L: Ledger>(
    alloc: Global,
    code: Code,
    blank: Blank,
) -> Result<Vec<Vec<Code>>, AllocError>
    requires name { blank.name ≡ L.name }
    requires parts { blank.parts ≡ L.parts }
    requires some { 0 < blank.parts }
{
    let mut steps = Steps::<L>::new(blank);
    let mut splits = Splits::new(code);
    let mut items = Vec::new(alloc);
    'items: while let Some(item) = splits.next(&mut steps) {
        if let Some(kept) = item.kept {
            items.push(row_of(alloc, kept, &item.forest)?)?;
        }
    }
    Ok(items)
}

/// The items of the walk over the partitions, each as the codes of its trees.
fn walked_parts(alloc: Global, code: Code) -> Result<Vec<Vec<Code>>, AllocError> {
    counted_parts::<Brand>(alloc, code, Blank::new(1))
}

fn counted_parts<L: Ledger>(
    alloc: Global,
    code: Code,
    blank: Blank,
) -> Result<Vec<Vec<Code>>, AllocError>
    requires name { blank.name ≡ L.name }
    requires parts { blank.parts ≡ L.parts }
    requires some { 0 < blank.parts }
{
    let mut steps = Steps::<L>::new(blank);
    let mut parts = Parts::new(code);
    let mut items = Vec::new(alloc);
    'items: while let Some(item) = parts.next(&mut steps) {
        items.push(row_of(alloc, item.skeleton, &item.parts)?)?;
    }
    Ok(items)
}

fn row_of(alloc: Global, head: Code, others: &CodeList) -> Result<Vec<Code>, AllocError> {
    let mut row = Vec::new(alloc);
    row.push(head)?;
    for place in 0..others.len() {
        row.push(others.get(place))?;
    }
    Ok(row)
}

/// The numbers of the codes of each row.
fn numbers(
    alloc: Global,
    catalog: &mut Catalog,
    rows: &[Vec<Code>],
) -> Result<Vec<Vec<u32>>, AllocError> {
    let mut all = Vec::new(alloc);
    for row in rows {
        let mut numbers = Vec::new(alloc);
        for code in row {
            numbers.push(catalog.number(code)?)?;
        }
        all.push(numbers)?;
    }
    Ok(all)
}

/// Whether the rows are these.
fn are(rows: &Rows, wanted: &[Vec<u32>]) -> bool {
    let mut same = rows.len() == wanted.len();
    for place in 0..rows.len().min(wanted.len()) {
        same &= rows.get(place) == wanted[place].as_slice();
    }
    same
}

/// Whether the rows of the splittings are these.
fn has_splits(
    alloc: Global,
    catalog: &mut Catalog,
    code: &Code,
    rows: &[Vec<Code>],
) -> Result<bool, AllocError> {
    let wanted = numbers(alloc, catalog, rows)?;
    let number = catalog.number(code)?;
    catalog.make_splits(number)?;
    Ok(are(catalog.splits(number), &wanted))
}

/// Whether the rows of the partitions are these.
fn has_parts(
    alloc: Global,
    catalog: &mut Catalog,
    code: &Code,
    rows: &[Vec<Code>],
) -> Result<bool, AllocError> {
    let wanted = numbers(alloc, catalog, rows)?;
    let number = catalog.number(code)?;
    catalog.make_parts(number)?;
    Ok(are(catalog.parts(number), &wanted))
}

/// Whether the rows of a tree are those of the walks.
fn is_walked(alloc: Global, catalog: &mut Catalog, code: &Code) -> Result<bool, AllocError> {
    let splits = walked_splits(alloc, *code)?;
    let parts = walked_parts(alloc, *code)?;
    Ok(has_splits(alloc, catalog, code, &splits)? && has_parts(alloc, catalog, code, &parts)?)
}

/// Trees of one to nine nodes, some with equal children.
const TREES: [(&str, &str); 6] = [
    ("1", "2"),
    ("122", "000"),
    ("1223", "0312"),
    ("12345", "01020"),
    ("12342323", "00000000"),
    ("122222222", "010200301"),
];

#[test]
fn the_rows_are_those_of_the_walks(rt: HostRuntime) -> Result<(), Fail> {
    let mut catalog = Catalog::new(rt.alloc());
    for (levels, colours) in TREES {
        let code = code_of(rt.alloc(), levels, colours)?;
        assert!(rt; is_walked(rt.alloc(), &mut catalog, &code)?, "{levels}");
    }
    Ok(())
}

/// The codes of the chains of three nodes, of two and of one.
fn chains(alloc: Global) -> Result<[Code; 3], Fail> {
    let chain = code_of(alloc, "123", "000")?;
    let pair = code_of(alloc, "12", "00")?;
    Ok([chain, pair, Code::leaf(0)])
}

/// The rows of the chain of three nodes, worked out by hand: 0 for that chain, 1 for that of two nodes, 2 for a node.
const SPLITS: [&[usize]; 3] = [&[2, 1], &[1, 2], &[0]];

const PARTS: [&[usize]; 4] = [&[2, 0], &[1, 1, 2], &[1, 2, 1], &[0, 2, 2, 2]];

fn codes_at(alloc: Global, codes: &[Code], places: &[usize]) -> Result<Vec<Code>, AllocError> {
    let mut row = Vec::new(alloc);
    for place in places {
        if let Some(code) = codes.get(*place) {
            row.push(*code)?;
        }
    }
    Ok(row)
}

fn all_at(alloc: Global, codes: &[Code], rows: &[&[usize]]) -> Result<Vec<Vec<Code>>, AllocError> {
    let mut all = Vec::new(alloc);
    for row in rows {
        all.push(codes_at(alloc, codes, row)?)?;
    }
    Ok(all)
}

#[test]
fn rows_of_a_chain_of_three(rt: HostRuntime) -> Result<(), Fail> {
    let chain = code_of(rt.alloc(), "123", "000")?;
    let codes = chains(rt.alloc())?;
    let mut catalog = Catalog::new(rt.alloc());
    let splits = all_at(rt.alloc(), &codes, &SPLITS)?;
    assert!(rt; has_splits(rt.alloc(), &mut catalog, &chain, &splits)?);
    let parts = all_at(rt.alloc(), &codes, &PARTS)?;
    assert!(rt; has_parts(rt.alloc(), &mut catalog, &chain, &parts)?);
    Ok(())
}

#[test]
fn a_tree_is_its_first_child_on_the_rest(rt: HostRuntime) -> Result<(), Fail> {
    let mut catalog = Catalog::new(rt.alloc());
    for (levels, colours) in TREES {
        let code = code_of(rt.alloc(), levels, colours)?;
        let tree = catalog.number(&code)?;
        match catalog.halves(tree)? {
            Some(halves) => assert_eq!(rt; catalog.attach(halves.rest, halves.child)?, tree),
            None => assert_eq!(rt; levels, "1"),
        }
    }
    Ok(())
}

#[test]
fn two_roots_become_one(rt: HostRuntime) -> Result<(), Fail> {
    let mut catalog = Catalog::new(rt.alloc());
    let chain = catalog.number(&code_of(rt.alloc(), "123", "012")?)?;
    let pair = catalog.number(&code_of(rt.alloc(), "12", "31")?)?;
    let both = catalog.number(&code_of(rt.alloc(), "1232", "0121")?)?;
    assert_eq!(rt; catalog.merge(chain, pair)?, both);
    Ok(())
}

/// How many of the rows have this first tree and this forest.
fn times(groups: &[Gathered], first: u32, forest: u32) -> u32 {
    let mut times: u32 = 0;
    for group in groups {
        if group.first == first && group.forest == forest {
            times = times.saturating_add(group.times);
        }
    }
    times
}

/// How many of a tree's splittings, and how many of its partitions, have this first tree and this forest.
fn gathered_times(
    catalog: &mut Catalog,
    tree: &Code,
    first: &Code,
    forest: &Code,
) -> Result<(u32, u32), AllocError> {
    let first = catalog.number(first)?;
    let forest = catalog.number(forest)?;
    let tree = catalog.number(tree)?;
    catalog.make_splits(tree)?;
    catalog.make_parts(tree)?;
    catalog.gather_splits(tree)?;
    catalog.gather_parts(tree)?;
    let splits = catalog.gathered_splits(tree).unwrap_or(&[]);
    let parts = catalog.gathered_parts(tree).unwrap_or(&[]);
    Ok((times(splits, first, forest), times(parts, first, forest)))
}

/// Of a root with four leaves: first trees and the trees that have forests as their children, with how many of the splittings but
/// the last and of the partitions behind the first there are, by hand.
const OF_A_BUSH: [(&str, &str, u32, u32); 10] = [
    ("1", "12222", 1, 0),
    ("12", "1222", 4, 0),
    ("122", "122", 6, 0),
    ("1222", "12", 4, 0),
    ("12222", "1", 0, 0),
    ("1", "123333", 0, 0),
    ("12", "123332", 0, 4),
    ("122", "123322", 0, 6),
    ("1222", "123222", 0, 4),
    ("12222", "122222", 0, 1),
];

#[test]
fn rows_of_a_bush_are_gathered(rt: HostRuntime) -> Result<(), Fail> {
    let mut catalog = Catalog::new(rt.alloc());
    let bush = code_of(rt.alloc(), "12222", "00000")?;
    for (first, forest, splits, parts) in OF_A_BUSH {
        let first = code_of(rt.alloc(), first, "00000")?;
        let forest = code_of(rt.alloc(), forest, "000000")?;
        let found = gathered_times(&mut catalog, &bush, &first, &forest)?;
        assert_eq!(rt; found, (splits, parts));
    }
    Ok(())
}
