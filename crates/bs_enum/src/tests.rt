//! The numbers of rooted trees in the literature, and lists that are known whole.

use crate::{EnumFault, MAX_TREES, Trees, Walk, count, count_to};
use bs_tree::Code;
use std::alloc::Global;
use std::cmp::Ordering;
use std::test::Fail;

fn code_of(alloc: Global, levels: &[u8], colours: &[u8]) -> Result<Code, Fail> {
    let mut pairs = Vec::new(alloc);
    for (level, colour) in levels.iter().zip(colours) {
        pairs.push((*level, *colour))?;
    }
    Ok(Code::of_pairs(&pairs).ok_or("no level sequence")?)
}

/// The trees with at most 12 nodes: sums of 1, 1, 2, 4, 9, 20, 48, 115, 286, 719, 1842, 4766.
#[test]
fn numbers_of_trees_of_one_colour(rt: HostRuntime) {
    let known = [1, 2, 4, 8, 17, 37, 85, 200, 486, 1205, 3047, 7813];
    for (place, number) in known.iter().enumerate() {
        assert_eq!(rt; count(place + 1, 1), *number, "to order {}", place + 1);
    }
    assert_eq!(rt; count(13, 1), MAX_TREES + 1);
    assert_eq!(rt; count(0, 1), 0);
    assert_eq!(rt; count_to(12, 1, 2048), 2049);
    assert_eq!(rt; count_to(10, 1, 2048), 1205);
}

/// Sums of 2, 4, 14, 52, 214, 916, 4116, of 3, 9, 45, 246, 1485 and of 4, 16, 104, 752, 5996.
#[test]
fn numbers_of_trees_of_more_colours(rt: HostRuntime) {
    assert_eq!(rt; count(4, 2), 72);
    assert_eq!(rt; count(7, 2), 5318);
    assert_eq!(rt; count(5, 3), 1788);
    assert_eq!(rt; count(4, 4), 876);
    assert_eq!(rt; count(5, 4), 6872);
}

#[test]
fn too_many_trees(rt: HostRuntime) {
    for (order, colours) in [(13, 1), (16, 1), (8, 2), (6, 3), (6, 4)] {
        match Trees::new(order, colours) {
            Ok(_) => assert!(rt; false, "order {order}, {colours} colours"),
            Err(fault) => assert_eq!(rt; fault, EnumFault::TooMany),
        }
    }
}

#[test]
fn each_tree_of_order_12_once(rt: HostRuntime) -> Result<(), Fail> {
    let mut trees = Trees::new(12, 1).ok().ok_or("too many")?;
    assert_eq!(rt; trees.len(), 4766);
    let mut last = trees.next().ok_or("no tree")?;
    for _ in 1..4766 {
        let next = trees.next().ok_or("too few")?;
        assert_eq!(rt; next.compare(&last), Ordering::Less);
        last = next;
    }
    assert!(rt; trees.next().is_none());
    assert!(rt; trees.next().is_none());
    assert_eq!(rt; trees.len(), 4766);
    Ok(())
}

#[test]
fn trees_of_two_colours(rt: HostRuntime) -> Result<(), Fail> {
    let mut trees = Trees::new(4, 2).ok().ok_or("too many")?;
    assert_eq!(rt; trees.len(), 52);
    let first = trees.next().ok_or("no tree")?;
    assert!(rt; first == code_of(rt.alloc(), &[1, 2, 3, 4], &[1, 1, 1, 1])?);
    let mut last = first;
    for _ in 1..52 {
        last = trees.next().ok_or("too few")?;
    }
    assert!(rt; last == code_of(rt.alloc(), &[1, 2, 2, 2], &[0, 0, 0, 0])?);
    assert!(rt; trees.next().is_none());
    Ok(())
}

#[test]
fn trees_of_four_nodes(rt: HostRuntime) -> Result<(), Fail> {
    let mut walk = Walk::new(4, 1);
    for levels in [[1, 2, 3, 4], [1, 2, 3, 3], [1, 2, 3, 2], [1, 2, 2, 2]] {
        let next = walk.next().ok_or("too few")?;
        assert!(rt; next == code_of(rt.alloc(), &levels, &[0; 4])?);
    }
    assert!(rt; walk.next().is_none());
    Ok(())
}
