//! Lists of splittings worked out elsewhere, and the walk beside the plain list.
ghost use Rattle.std.specs.Prelude.{◌≡◌, ◌<◌};

use crate::{Split, Splits, plain};
use bs_steps::Steps;
use bs_tree::Code;
use std::alloc::{AllocError, Global};
use std::marker::Brand;
use std::sync::ledger::{Blank, Ledger};
use std::test::Fail;

/// The code of these levels and colours, a digit each.
fn code_of(alloc: Global, levels: &str, colours: &str) -> Result<Code, Fail> {
    let mut pairs = Vec::new(alloc);
    for (level, colour) in levels.bytes().zip(colours.bytes()) {
        pairs.push((level.saturating_sub(b'0'), colour.saturating_sub(b'0')))?;
    }
    Ok(Code::of_pairs(&pairs).ok_or("no level sequence")?)
}

/// All that the walk gives, and one call more that gives nothing.
fn walked(alloc: Global, code: Code) -> Result<Vec<Split>, AllocError> {
    counted::<Brand>(alloc, code, Blank::new(1))
}

fn counted<L: Ledger>(alloc: Global, code: Code, blank: Blank) -> Result<Vec<Split>, AllocError>
    requires name { blank.name ≡ L.name }
    requires parts { blank.parts ≡ L.parts }
    requires some { 0 < blank.parts }
{
    let mut steps = Steps::<L>::new(blank);
    let mut splits = Splits::new(code);
    let mut items = Vec::new(alloc);
    'items: while let Some(item) = splits.next(&mut steps) {
        items.push(item)?;
    }
    if let Some(item) = splits.next(&mut steps) {
        items.push(item)?;
    }
    Ok(items)
}

fn has(split: &Split, kept: Option<Code>, forest: &[Code]) -> bool {
    split.kept == kept
        && split.forest.len() == forest.len()
        && (0..forest.len().min(split.forest.len())).all(|k| split.forest.get(k) == forest[k])
}

/// Whether the walk gives these items: what is kept, or no levels, and the forest.
fn gives(
    alloc: Global,
    code: Code,
    rows: &[((&str, &str), &[(&str, &str)])],
) -> Result<bool, Fail> {
    let items = walked(alloc, code)?;
    let mut same = items.len() == rows.len();
    for (row, item) in rows.iter().zip(&items) {
        let kept = if row.0.0.is_empty() {
            None
        } else {
            Some(code_of(alloc, row.0.0, row.0.1)?)
        };
        let mut forest = Vec::new(alloc);
        for tree in row.1 {
            forest.push(code_of(alloc, tree.0, tree.1)?)?;
        }
        same &= has(item, kept, &forest);
    }
    Ok(same)
}

#[test]
fn splittings_of_three_nodes(rt: HostRuntime) -> Result<(), Fail> {
    let code = code_of(rt.alloc(), "122", "000")?;
    assert!(rt;
        gives(
            rt.alloc(),
            code,
            &[
                (("", ""), &[("122", "000")]),
                (("1", "0"), &[("1", "0"), ("1", "0")]),
                (("12", "00"), &[("1", "0")]),
                (("12", "00"), &[("1", "0")]),
                (("122", "000"), &[]),
            ]
        )?
    );
    Ok(())
}

#[test]
fn splittings_with_colours(rt: HostRuntime) -> Result<(), Fail> {
    let code = code_of(rt.alloc(), "1223", "0312")?;
    assert!(rt;
        gives(
            rt.alloc(),
            code,
            &[
                (("", ""), &[("1223", "0312")]),
                (("1", "0"), &[("1", "3"), ("12", "12")]),
                (("12", "01"), &[("1", "3"), ("1", "2")]),
                (("123", "012"), &[("1", "3")]),
                (("12", "03"), &[("12", "12")]),
                (("122", "031"), &[("1", "2")]),
                (("1223", "0312"), &[]),
            ]
        )?
    );
    Ok(())
}

#[test]
fn the_walk_is_the_plain_list(rt: HostRuntime) -> Result<(), Fail> {
    for levels in ["1", "12345", "12323", "12342323", "122222222"] {
        let code = code_of(rt.alloc(), levels, "010200301")?;
        let items = walked(rt.alloc(), code)?;
        let plain = plain::items(rt.alloc(), code)?;
        assert_eq!(rt; items.len(), plain.len(), "{levels}");
        for (item, other) in items.iter().zip(&plain) {
            assert!(rt; has(item, other.kept, &other.forest), "{levels}");
        }
    }
    Ok(())
}
