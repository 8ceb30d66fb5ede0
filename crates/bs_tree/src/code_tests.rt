//! Codes and lists of codes: what is refused, children, and each call once.

use crate::{Code, CodeList, MAX_NODES, Pairs, Tree, is_level_sequence};
use std::alloc::Global;
use std::cmp::Ordering;
use std::test::Fail;

/// The pairs of these levels and colours, a digit each.
fn pairs_of(alloc: Global, levels: &str, colours: &str) -> Result<Vec<(u8, u8)>, Fail> {
    let mut pairs = Vec::new(alloc);
    for (level, colour) in levels.bytes().zip(colours.bytes()) {
        pairs.push((level.saturating_sub(b'0'), colour.saturating_sub(b'0')))?;
    }
    Ok(pairs)
}

fn code_of(alloc: Global, levels: &str, colours: &str) -> Result<Code, Fail> {
    let pairs = pairs_of(alloc, levels, colours)?;
    Ok(Code::of_pairs(&pairs).ok_or("no level sequence")?)
}

#[test]
fn no_other_lists_are_level_sequences(rt: HostRuntime) -> Result<(), Fail> {
    for (levels, colours) in [
        ("", ""),
        ("2", "0"),
        ("0", "0"),
        ("13", "00"),
        ("121", "000"),
        ("120", "000"),
        ("1224", "0000"),
        ("1", "4"),
        ("122", "004"),
        ("12345678911111111", "00000000000000000"),
    ] {
        let pairs = pairs_of(rt.alloc(), levels, colours)?;
        assert!(rt; !is_level_sequence(&pairs), "{levels} {colours}");
        assert!(rt; Code::of_pairs(&pairs).is_none(), "{levels} {colours}");
    }
    Ok(())
}

#[test]
fn one_node_too_many(rt: HostRuntime) -> Result<(), Fail> {
    let mut pairs = Vec::new(rt.alloc());
    pairs.push((1, 3))?;
    for _ in 1..MAX_NODES {
        pairs.push((2, 3))?;
    }
    assert_eq!(rt;
        Code::of_pairs(&pairs).map(|code| code.order()),
        Some(MAX_NODES)
    );
    pairs.push((2, 3))?;
    assert!(rt; Code::of_pairs(&pairs).is_none());
    Ok(())
}

#[test]
fn colours_decide_the_order_of_children(rt: HostRuntime) -> Result<(), Fail> {
    let expected = pairs_of(rt.alloc(), "122", "010")?;
    let a = code_of(rt.alloc(), "122", "001")?;
    let b = code_of(rt.alloc(), "122", "010")?;
    let c = code_of(rt.alloc(), "122", "100")?;
    assert_eq!(rt; a.pairs(), expected.as_slice());
    assert!(rt; a == b);
    assert!(rt; a != c);
    assert_eq!(rt; c.compare(&a), Ordering::Greater);
    assert_eq!(rt; a.compare(&c), Ordering::Less);
    Ok(())
}

#[test]
fn subtrees_decide_the_order_of_children(rt: HostRuntime) -> Result<(), Fail> {
    let expected = pairs_of(rt.alloc(), "123232", "000000")?;
    let code = code_of(rt.alloc(), "123223", "000000")?;
    assert_eq!(rt; code.pairs(), expected.as_slice());
    assert_eq!(rt; code.order(), 6);
    assert_eq!(rt; code.density(), 24);
    assert_eq!(rt; code.arity(), 3);
    assert_eq!(rt; code.level(3), 2);
    assert_eq!(rt; code.level(4), 3);
    assert!(rt; code.child(0) == code_of(rt.alloc(), "12", "00")?);
    assert!(rt; code.child(1) == code_of(rt.alloc(), "12", "00")?);
    assert!(rt; code.child(2) == Code::leaf(0));
    Ok(())
}

#[test]
fn children_keep_their_colours(rt: HostRuntime) -> Result<(), Fail> {
    let expected = pairs_of(rt.alloc(), "12233", "31021")?;
    let code = code_of(rt.alloc(), "12332", "30121")?;
    assert_eq!(rt; code.pairs(), expected.as_slice());
    assert_eq!(rt; code.order(), 5);
    assert_eq!(rt; code.arity(), 2);
    assert_eq!(rt; code.colour(0), 3);
    assert_eq!(rt; code.colour(3), 2);
    assert_eq!(rt; code.density(), 15);
    assert_eq!(rt; code.symmetry(), 1);
    assert_eq!(rt; code.alpha(), 8);
    assert!(rt; code.has_colours_below(4));
    assert!(rt; !code.has_colours_below(3));
    assert!(rt; code.child(0) == Code::leaf(1));
    assert!(rt; code.child(1) == code_of(rt.alloc(), "122", "021")?);
    Ok(())
}

#[test]
fn a_tree_of_a_code_has_that_code(rt: HostRuntime) -> Result<(), Fail> {
    for (levels, colours) in [
        ("1", "2"),
        ("12", "01"),
        ("1232", "0123"),
        ("123344323", "012301230"),
    ] {
        let pairs = pairs_of(rt.alloc(), levels, colours)?;
        let code = code_of(rt.alloc(), levels, colours)?;
        if !is_level_sequence(&pairs) {
            return Err("no level sequence")?;
        }
        assert!(rt;
            Code::of_level_sequence(&pairs) == code,
            "{levels} {colours}"
        );
        let built = Tree::of_pairs(rt.alloc(), &pairs)?;
        let tree = code.tree(rt.alloc())?;
        assert_eq!(rt; tree.order(), levels.len());
        assert!(rt; tree.code() == code, "{levels} {colours}");
        assert!(rt; built.code() == code, "{levels} {colours}");
        assert_eq!(rt; code.density(), tree.density());
    }
    Ok(())
}

#[test]
fn a_list_of_codes(rt: HostRuntime) -> Result<(), Fail> {
    let mut codes = CodeList::new();
    assert!(rt; codes.is_empty());
    codes.push(Code::leaf(1));
    codes.push(code_of(rt.alloc(), "12", "00")?);
    let kept = codes;
    codes.push(Code::leaf(0));
    assert_eq!(rt; codes.len(), 3);
    assert_eq!(rt; kept.len(), 2);
    assert!(rt; !kept.is_empty());
    assert!(rt; codes.get(0) == Code::leaf(1));
    assert!(rt; codes.get(1) == code_of(rt.alloc(), "12", "00")?);
    assert!(rt; codes.get(2) == Code::leaf(0));
    Ok(())
}

#[test]
fn a_canonical_sequence_is_a_code_as_it_stands(rt: HostRuntime) {
    let mut pairs = Pairs::new();
    pairs.push((1, 3));
    let code = Code::of_canonical(pairs);
    assert_eq!(rt; pairs.as_slice().len(), 1);
    assert!(rt; code == Code::leaf(3));
}
