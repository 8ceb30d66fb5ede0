//! Worked examples: the words that are read, what is written, and each refusal.

use crate::{
    LevelFault, LevelRefusal, read_code, read_tree, write_colours, write_levels, write_tree,
};
use bs_tree::{Code, Tree};
use std::alloc::Global;

fn read(alloc: Global, levels: &str, colours: Option<&str>) -> Result<Tree, LevelFault> {
    match colours {
        None => read_tree(alloc, levels.as_bytes(), None),
        Some(word) => read_tree(alloc, levels.as_bytes(), Some(word.as_bytes())),
    }
}

/// The text of the tree, or nothing where it isn't read or written.
fn rewritten(alloc: Global, levels: &str, colours: Option<&str>) -> Option<Vec<u8>> {
    let Ok(tree) = read(alloc, levels, colours) else {
        return None;
    };
    let mut text = Vec::new(alloc);
    match write_tree(&tree.code(), &mut text) {
        Ok(()) => Some(text),
        Err(_) => None,
    }
}

fn is_written_as(alloc: Global, levels: &str, colours: Option<&str>, text: &str) -> bool {
    match rewritten(alloc, levels, colours) {
        Some(written) => written.as_slice() == text.as_bytes(),
        None => false,
    }
}

#[test]
fn trees_are_rewritten(rt: HostRuntime) {
    let chain = "1,2,3,4,5,6,7,8,9,10,11,12,13,14,15,16";
    for (levels, colours, text) in [
        ("1,2,2,3", None, "1,2,3,2"),
        ("1,2,3,2,2,3", None, "1,2,3,2,3,2"),
        ("1,2,2", Some("0,0,1"), "1,2,2:0,1,0"),
        ("1,2,2", Some("0,1,0"), "1,2,2:0,1,0"),
        ("1,2,2", Some("1,0,0"), "1,2,2:1,0,0"),
        ("1,2", Some("0,0"), "1,2"),
        ("0", None, "1"),
        ("5,6,6", None, "1,2,2"),
        ("254,255", Some("3,2"), "1,2:3,2"),
        (chain, None, chain),
    ] {
        assert!(rt;
            is_written_as(rt.alloc(), levels, colours, text),
            "at {levels}"
        );
    }
}

#[test]
fn codes_are_read(rt: HostRuntime) {
    let seventeen = b"1,2,2,2,2,2,2,2,2,2,2,2,2,2,2,2,2";
    let expected = Code::of_pairs(&[(1, 0), (2, 1), (3, 2), (2, 0)]);
    assert!(rt; read_code(b"7,8,8,9", Some(b"0,0,1,2")).ok() == expected);
    assert!(rt;
        read_code(b"7,8,9,8", None).ok() == Code::of_pairs(&[(1, 0), (2, 0), (3, 0), (2, 0)])
    );
    assert!(rt; read_code(b"1,3", Some(b"7")).err() == Some(LevelRefusal::BadLevels));
    assert!(rt; read_code(seventeen, Some(b"0")).err() == Some(LevelRefusal::BadColours));
    assert!(rt; read_code(seventeen, None).err() == Some(LevelRefusal::TooLarge));
}

#[test]
fn bad_levels_are_refused(rt: HostRuntime) {
    for levels in [
        "1,3", "1,2,1", "1,02", "", "1,", ",1", "1,,2", "256", "1,+2", "1,2 ", "1,2,0", "00",
        "2,1", "1,1",
    ] {
        let refused = matches!(read(rt.alloc(), levels, None), Err(LevelFault::BadLevels));
        assert!(rt; refused, "at {levels}");
    }
    let first = matches!(
        read(rt.alloc(), "1,3", Some("7")),
        Err(LevelFault::BadLevels)
    );
    assert!(rt; first);
}

#[test]
fn bad_colours_are_refused(rt: HostRuntime) {
    for colours in ["0", "0,4", "0,0,0", "", "0,", "0,00", "0;0"] {
        let refused = matches!(
            read(rt.alloc(), "1,2", Some(colours)),
            Err(LevelFault::BadColours)
        );
        assert!(rt; refused, "at {colours}");
    }
}

#[test]
fn large_trees_are_refused(rt: HostRuntime) {
    let seventeen = "1,2,2,2,2,2,2,2,2,2,2,2,2,2,2,2,2";
    let colours = "0,0,0,0,0,0,0,0,0,0,0,0,0,0,0,0,3";
    let plain = matches!(read(rt.alloc(), seventeen, None), Err(LevelFault::TooLarge));
    assert!(rt; plain);
    let coloured = matches!(
        read(rt.alloc(), seventeen, Some(colours)),
        Err(LevelFault::TooLarge)
    );
    assert!(rt; coloured);
    let too_few = matches!(
        read(rt.alloc(), seventeen, Some("0,0")),
        Err(LevelFault::BadColours)
    );
    assert!(rt; too_few);
}

#[test]
fn levels_and_colours_are_appended(rt: HostRuntime) {
    let mut text = Vec::new(rt.alloc());
    let code = Code::leaf(2);
    assert!(rt; write_levels(&code, &mut text).is_ok());
    assert!(rt; write_colours(&code, &mut text).is_ok());
    assert!(rt; text.as_slice() == b"12".as_slice());
}
