//! Trees against the tables of the literature, and codes against the plain program.

use crate::table::ROWS;
use crate::{COLOURS, GraftFault, MAX_NODES, Tree, plain};
use std::alloc::Global;
use std::test::Fail;

/// The tree of a level sequence, by grafts.
fn tree_of(alloc: Global, pairs: &[(u8, u8)]) -> Result<Tree, Fail> {
    let mut open = Vec::new(alloc);
    for &(level, colour) in pairs {
        if colour >= COLOURS {
            return Err("no such colour")?;
        }
        close(&mut open, level as usize)?;
        open.push(Tree::leaf(alloc, colour))?;
    }
    close(&mut open, 2)?;
    Ok(open.pop().ok_or("no node")?)
}

/// Grafts the last open tree on the one before it, until fewer are open than this level.
fn close(open: &mut Vec<Tree>, level: usize) -> Result<(), Fail> {
    for _ in level..=open.len() {
        let child = open.pop().ok_or("no tree is open")?;
        match open.last_mut() {
            Some(parent) => parent.graft(child).map_err(|refused| refused.fault)?,
            None => return Err("two roots")?,
        }
    }
    Ok(())
}

/// The tree of one colour that has these levels, a digit each.
fn tree_of_levels(alloc: Global, levels: &str) -> Result<Tree, Fail> {
    let mut pairs = Vec::new(alloc);
    for digit in levels.bytes() {
        pairs.push((digit.saturating_sub(b'0'), 0))?;
    }
    tree_of(alloc, &pairs)
}

#[test]
fn numbers_of_the_literature(rt: HostRuntime) -> Result<(), Fail> {
    for (levels, symmetry, density, alpha) in &ROWS {
        let tree = tree_of_levels(rt.alloc(), levels)?;
        assert_eq!(rt; tree.order(), levels.len(), "order of {levels}");
        assert_eq!(rt; tree.symmetry(), *symmetry, "symmetry of {levels}");
        assert_eq!(rt; tree.density(), *density, "density of {levels}");
        assert_eq!(rt; tree.alpha(), *alpha, "alpha of {levels}");
        let code = tree.code();
        assert_eq!(rt;
            code.symmetry(),
            *symmetry,
            "symmetry of the code of {levels}"
        );
        assert_eq!(rt; code.alpha(), *alpha, "alpha of the code of {levels}");
    }
    Ok(())
}

#[test]
fn the_table_is_whole(rt: HostRuntime) -> Result<(), Fail> {
    for (order, count, labellings) in [
        (1, 1, 1),
        (2, 1, 1),
        (3, 2, 2),
        (4, 4, 6),
        (5, 9, 24),
        (6, 20, 120),
        (7, 48, 720),
        (8, 115, 5040),
    ] {
        let rows = ROWS.iter().filter(|row| row.0.len() == order);
        assert_eq!(rt; rows.count(), count, "trees of order {order}");
        let mut sum: u64 = 0;
        for row in &ROWS {
            if row.0.len() == order {
                sum = sum.saturating_add(row.3);
            }
        }
        assert_eq!(rt; sum, labellings, "labellings of order {order}");
    }
    Ok(())
}

#[test]
fn no_two_rows_are_isomorphic(rt: HostRuntime) -> Result<(), Fail> {
    for (place, row) in ROWS.iter().enumerate() {
        let tree = tree_of_levels(rt.alloc(), row.0)?;
        for (other_place, other) in ROWS.iter().enumerate() {
            let other = tree_of_levels(rt.alloc(), other.0)?;
            assert_eq!(rt;
                tree.isomorphic(&other),
                place == other_place,
                "{} and {}",
                row.0,
                ROWS[other_place].0
            );
        }
    }
    Ok(())
}

/// Each sequence with one more node, of two colours.
fn extended(alloc: Global, sequences: &[Vec<(u8, u8)>]) -> Result<Vec<Vec<(u8, u8)>>, Fail> {
    let mut longer = Vec::new(alloc);
    for sequence in sequences {
        let last = sequence.last().map_or(0, |pair| pair.0);
        for level in 2..=last.saturating_add(1) {
            for colour in 0..2 {
                let mut next = sequence.to_vec(alloc)?;
                next.push((level, colour))?;
                longer.push(next)?;
            }
        }
    }
    Ok(longer)
}

#[test]
fn codes_are_the_plain_programs(rt: HostRuntime) -> Result<(), Fail> {
    let alloc = rt.alloc();
    let mut sequences = Vec::new(alloc);
    for colour in 0..2 {
        sequences.push([(1, colour)].to_vec(alloc)?)?;
    }
    for count in [2, 4, 16, 80, 448, 2688] {
        assert_eq!(rt; sequences.len(), count);
        for sequence in &sequences {
            let tree = tree_of(alloc, sequence)?;
            let want = plain::greatest(alloc, sequence)?;
            assert_eq!(rt; tree.code().pairs(), want.as_slice(), "{sequence:?}");
        }
        sequences = extended(alloc, &sequences)?;
    }
    Ok(())
}

#[test]
fn canonical_puts_the_greater_child_first(rt: HostRuntime) -> Result<(), Fail> {
    let mut tree = tree_of_levels(rt.alloc(), "1223")?;
    assert_eq!(rt;
        tree.code().pairs(),
        [(1, 0), (2, 0), (3, 0), (2, 0)].as_slice()
    );
    assert_eq!(rt; tree.children().first().map(|child| child.order()), Some(1));
    tree.canonical();
    assert_eq!(rt; tree.children().first().map(|child| child.order()), Some(2));
    Ok(())
}

#[test]
fn colours_are_told_apart(rt: HostRuntime) -> Result<(), Fail> {
    let alloc = rt.alloc();
    let a = tree_of(alloc, &[(1, 0), (2, 0), (2, 1)])?;
    let b = tree_of(alloc, &[(1, 0), (2, 1), (2, 0)])?;
    let c = tree_of(alloc, &[(1, 1), (2, 0), (2, 0)])?;
    assert_eq!(rt; a.code().pairs(), [(1, 0), (2, 1), (2, 0)].as_slice());
    assert!(rt; a.isomorphic(&b));
    assert!(rt; !a.isomorphic(&c));
    assert_eq!(rt;
        (a.order(), a.symmetry(), a.density(), a.alpha()),
        (3, 1, 3, 2)
    );
    assert_eq!(rt; (c.colour(), c.symmetry()), (1, 2));
    Ok(())
}

#[test]
fn like_children_need_not_be_neighbours(rt: HostRuntime) -> Result<(), Fail> {
    let tree = tree_of_levels(rt.alloc(), "123223")?;
    assert_eq!(rt;
        (tree.order(), tree.symmetry(), tree.density(), tree.alpha()),
        (6, 2, 24, 15)
    );
    Ok(())
}

#[test]
fn one_node_too_many(rt: HostRuntime) -> Result<(), Fail> {
    let alloc = rt.alloc();
    let mut tree = Tree::leaf(alloc, 0);
    for _ in 1..MAX_NODES {
        tree.graft(Tree::leaf(alloc, 1))
            .map_err(|refused| refused.fault)?;
    }
    let refused = tree.graft(Tree::leaf(alloc, 2)).err().ok_or("grafted")?;
    assert!(rt; matches!(refused.fault, GraftFault::TooLarge));
    assert_eq!(rt; (refused.child.colour(), refused.child.order()), (2, 1));
    assert_eq!(rt;
        (tree.order(), tree.children().len()),
        (MAX_NODES, MAX_NODES - 1)
    );
    Ok(())
}
