//! Lists of partitions worked out elsewhere, and the walk beside the plain list.
ghost use Rattle.std.specs.Prelude.{◌≡◌, ◌<◌};

use crate::{Part, Parts, plain};
use bs_steps::Steps;
use bs_tree::Code;
use std::alloc::{AllocError, Global};
use std::marker::Brand;
use std::sync::ledger::{Blank, Ledger};
use std::test::Fail;

/// The code of these levels and colours, a digit each.
fn code_of(alloc: Global, levels: &str, colours: &str) -> Result<Code, Fail> {
    let mut pairs = Vec::new(alloc);
    for (level, colour) in levels.bytes().zip(colours.bytes()) {
        pairs.push((level.saturating_sub(b'0'), colour.saturating_sub(b'0')))?;
    }
    Ok(Code::of_pairs(&pairs).ok_or("no level sequence")?)
}

/// All that the walk gives, and one call more that gives nothing.
fn walked(alloc: Global, code: Code) -> Result<Vec<Part>, AllocError> {
    counted::<Brand>(alloc, code, Blank::new(1))
}

fn counted<L: Ledger>(alloc: Global, code: Code, blank: Blank) -> Result<Vec<Part>, AllocError>
    requires name { blank.name ≡ L.name }
    requires parts { blank.parts ≡ L.parts }
    requires some { 0 < blank.parts }
{
    let mut steps = Steps::<L>::new(blank);
    let mut parts = Parts::new(code);
    let mut items = Vec::new(alloc);
    'items: while let Some(item) = parts.next(&mut steps) {
        items.push(item)?;
    }
    if let Some(item) = parts.next(&mut steps) {
        items.push(item)?;
    }
    Ok(items)
}

fn has(item: &Part, skeleton: Option<Code>, parts: &[Code]) -> bool {
    Some(item.skeleton) == skeleton
        && item.parts.len() == parts.len()
        && (0..parts.len().min(item.parts.len())).all(|k| item.parts.get(k) == parts[k])
}

/// Whether the walk gives these items: the levels of the skeleton, and the parts.
fn gives(alloc: Global, code: Code, rows: &[(&str, &[(&str, &str)])]) -> Result<bool, Fail> {
    let items = walked(alloc, code)?;
    let mut same = items.len() == rows.len();
    for (row, item) in rows.iter().zip(&items) {
        let skeleton = code_of(alloc, row.0, "0000000000000000")?;
        let mut parts = Vec::new(alloc);
        for tree in row.1 {
            parts.push(code_of(alloc, tree.0, tree.1)?)?;
        }
        same &= has(item, Some(skeleton), &parts);
    }
    Ok(same)
}

#[test]
fn partitions_of_one_node(rt: HostRuntime) -> Result<(), Fail> {
    let code = code_of(rt.alloc(), "1", "2")?;
    assert!(rt; gives(rt.alloc(), code, &[("1", &[("1", "2")])])?);
    Ok(())
}

#[test]
fn partitions_of_the_tall_tree(rt: HostRuntime) -> Result<(), Fail> {
    let code = code_of(rt.alloc(), "123", "000")?;
    assert!(rt;
        gives(
            rt.alloc(),
            code,
            &[
                ("1", &[("123", "000")]),
                ("12", &[("12", "00"), ("1", "0")]),
                ("12", &[("1", "0"), ("12", "00")]),
                ("123", &[("1", "0"), ("1", "0"), ("1", "0")]),
            ]
        )?
    );
    Ok(())
}

#[test]
fn partitions_of_the_bushy_tree(rt: HostRuntime) -> Result<(), Fail> {
    let code = code_of(rt.alloc(), "1222", "0000")?;
    assert!(rt;
        gives(
            rt.alloc(),
            code,
            &[
                ("1", &[("1222", "0000")]),
                ("12", &[("122", "000"), ("1", "0")]),
                ("12", &[("122", "000"), ("1", "0")]),
                ("122", &[("12", "00"), ("1", "0"), ("1", "0")]),
                ("12", &[("122", "000"), ("1", "0")]),
                ("122", &[("12", "00"), ("1", "0"), ("1", "0")]),
                ("122", &[("12", "00"), ("1", "0"), ("1", "0")]),
                ("1222", &[("1", "0"), ("1", "0"), ("1", "0"), ("1", "0")]),
            ]
        )?
    );
    Ok(())
}

#[test]
fn partitions_with_colours(rt: HostRuntime) -> Result<(), Fail> {
    let code = code_of(rt.alloc(), "1223", "0312")?;
    assert!(rt;
        gives(
            rt.alloc(),
            code,
            &[
                ("1", &[("1223", "0312")]),
                ("12", &[("122", "031"), ("1", "2")]),
                ("12", &[("12", "03"), ("12", "12")]),
                ("123", &[("12", "03"), ("1", "1"), ("1", "2")]),
                ("12", &[("123", "012"), ("1", "3")]),
                ("122", &[("12", "01"), ("1", "3"), ("1", "2")]),
                ("122", &[("1", "0"), ("1", "3"), ("12", "12")]),
                ("1232", &[("1", "0"), ("1", "3"), ("1", "1"), ("1", "2")]),
            ]
        )?
    );
    Ok(())
}

#[test]
fn the_walk_is_the_plain_list(rt: HostRuntime) -> Result<(), Fail> {
    for levels in ["1", "12345", "12323", "12342323", "122222222"] {
        let code = code_of(rt.alloc(), levels, "010200301")?;
        let items = walked(rt.alloc(), code)?;
        let plain = plain::items(rt.alloc(), code)?;
        assert_eq!(rt; items.len(), plain.len(), "{levels}");
        for (item, other) in items.iter().zip(&plain) {
            assert!(rt; has(item, other.skeleton, &other.parts), "{levels}");
        }
    }
    Ok(())
}

#[test]
fn sixteen_nodes_have_all_items(rt: HostRuntime) -> Result<(), Fail> {
    let code = code_of(rt.alloc(), "1234343234342343", "0000000000000000")?;
    let items = walked(rt.alloc(), code)?;
    assert_eq!(rt; items.len(), 32_768);
    let last = items.last().ok_or("no item")?;
    assert!(rt; last.skeleton == code);
    assert_eq!(rt; last.parts.len(), 16);
    Ok(())
}
