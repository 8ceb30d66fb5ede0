//! What no clause says: that reading succeeds, and that the grammar is the one that was meant. The refused lines and
//! reasons were worked out by another program, written from the description of the format alone.

use super::*;
use std::alloc::Global;
use std::test::Fail;

/// A tableau block and a session.
const BLOCKS: &str =
    "tableau rk4 4\na 0 0 0 0\na 1/2 0 0 0\na 0 1/2 0 0\na 0 0 1 0\nb 1/6 1/3 1/3 1/6\nend\nsession\ntree t 1,2,2,3\ntree u 1,2,3,2\nsame t u\nend\n";

/// What the prefixes of `BLOCKS` say, from the empty one on: how many prefixes, and their refused line and reason.
const PREFIXES: [(usize, u64, &str); 24] = [
    (1, 0, ""),
    (12, 1, "unknown line"),
    (2, 1, "end missing"),
    (8, 2, "bad count"),
    (2, 2, "end missing"),
    (10, 3, "bad count"),
    (2, 3, "end missing"),
    (10, 4, "bad count"),
    (2, 4, "end missing"),
    (8, 5, "bad count"),
    (2, 5, "end missing"),
    (14, 6, "bad count"),
    (1, 6, "end missing"),
    (1, 6, "bad fraction"),
    (2, 6, "end missing"),
    (2, 7, "line missing"),
    (2, 0, ""),
    (6, 8, "unknown line"),
    (2, 8, "end missing"),
    (15, 9, "end missing"),
    (15, 10, "end missing"),
    (9, 11, "end missing"),
    (2, 12, "end missing"),
    (2, 0, ""),
];

/// The refused line and the text of its reason; 0 and no text where the input is accepted.
fn refusal(alloc: Global, input: &[u8]) -> Result<(u64, &'static str), Fail> {
    match read(alloc, input) {
        Ok(_) => Ok((0, "")),
        Err(ScriptFault::Refused { line, reason }) => Ok((line, reason.text())),
        Err(ScriptFault::Memory(_)) => Err("out of memory")?,
    }
}

#[test]
fn each_reason_at_its_line(rt: HostRuntime) -> Result<(), Fail> {
    for (input, line, text) in [
        ("", 0, ""),
        ("session\ntree t 1", 2, "end missing"),
        ("session\ntree t 1\n\n# the end\n", 4, "end missing"),
        ("format 2", 1, "unknown format"),
        ("# a\n \t\nformat 1\n", 0, ""),
        ("session\nend\nformat 1", 3, "unknown line"),
        ("format 1\nformat 1", 2, "unknown line"),
        ("tableau e 1\nb 1", 2, "line missing"),
        ("tableau e 1\na 1/0", 2, "bad fraction"),
        ("tableau e 1\na 1 2", 2, "bad count"),
        ("tableau e 1\na x 2", 2, "bad count"),
        ("tableau e 1\na 0\nb 1\nend x", 4, "line missing"),
        ("tableau e 1\na 0\nb 1\nend\ntableau e 17", 5, "name taken"),
        (
            "tableau e 99999999999999999999999999999999999999999",
            1,
            "bad count",
        ),
        ("tableau e 01", 1, "bad count"),
        ("tableau e 16 0", 1, "bad count"),
        ("tableau e 16 5", 1, "bad count"),
        ("tableau e 16 4 1", 1, "unknown line"),
        ("session x", 1, "unknown line"),
        ("session\r\n end \t\r\n", 0, ""),
        ("session\r\r", 1, "bad byte"),
        ("sessio\u{e9}", 1, "bad byte"),
        ("# \u{e9}\r\r", 0, ""),
    ] {
        assert_eq!(rt;
            refusal(rt.alloc(), input.as_bytes())?,
            (line, text),
            "{input}"
        );
    }
    Ok(())
}

#[test]
fn each_prefix_of_a_script(rt: HostRuntime) -> Result<(), Fail> {
    let mut cut = 0;
    for (count, line, text) in PREFIXES {
        for _ in 0..count {
            let Some(front) = BLOCKS.as_bytes().get(..cut) else {
                return Err("too many prefixes")?;
            };
            assert_eq!(rt;
                refusal(rt.alloc(), front)?,
                (line, text),
                "cut after {cut} bytes"
            );
            cut = cut.saturating_add(1);
        }
    }
    assert_eq!(rt; cut, 132);
    Ok(())
}

#[test]
fn what_a_script_holds(rt: HostRuntime) -> Result<(), Fail> {
    let input =
        "session\nend\ntableau e 1\na 0\nb 1\nend\nsession\n#\n \ttree  t 1\t\r\nend\ntableau f 2 2\na 0 0\na 1 0\nb 0 1\na 0 0\na 0 0\nb 1 0\nend\n";
    let Ok(script) = read(rt.alloc(), input.as_bytes()) else {
        return Err("refused")?;
    };
    let [first, second] = script.tables() else {
        return Err("two tableaux")?;
    };
    assert_eq!(rt; (first.stages(), first.colours()), (1, 1));
    assert_eq!(rt; (second.stages(), second.colours()), (2, 2));
    assert_eq!(rt; script.table_name(0), b"e".as_slice());
    assert_eq!(rt; script.table_name(1), b"f".as_slice());
    assert_eq!(rt; script.find_table(b"e"), Some(0));
    assert_eq!(rt; script.find_table(b"f"), Some(1));
    assert_eq!(rt; script.find_table(b"ef"), None);
    let [empty, filled] = script.sessions() else {
        return Err("two sessions")?;
    };
    assert!(rt; empty.is_empty());
    assert_eq!(rt; (empty.above(), empty.len()), (0, 0));
    assert_eq!(rt; (filled.above(), filled.len()), (1, 1));
    assert!(rt; !filled.is_empty());
    if filled.len() == 1 {
        assert_eq!(rt; filled.command(0), b" \ttree  t 1\t".as_slice());
    }
    Ok(())
}

/// So many sessions, and below them so many tableaux.
fn blocks(alloc: Global, sessions: usize, tables: usize) -> Result<Vec<u8>, Fail> {
    let mut text = Vec::new(alloc);
    for _ in 0..sessions {
        text.extend_from_slice(b"session\nend\n")?;
    }
    for number in 0..tables {
        let block = format!(in alloc; "tableau t{number} 1\na 0\nb 1\nend\n")?;
        text.extend_from_slice(block.as_bytes())?;
    }
    Ok(text)
}

#[test]
fn at_most_256_blocks_of_a_kind(rt: HostRuntime) -> Result<(), Fail> {
    for (sessions, tables, line, text) in [
        (256, 256, 0, ""),
        (257, 0, 513, "too many"),
        (0, 257, 1025, "too many"),
    ] {
        let input = blocks(rt.alloc(), sessions, tables)?;
        assert_eq!(rt; refusal(rt.alloc(), &input)?, (line, text));
    }
    Ok(())
}

#[test]
fn each_of_256_names_is_found(rt: HostRuntime) -> Result<(), Fail> {
    let input = blocks(rt.alloc(), 0, 256)?;
    let Ok(script) = read(rt.alloc(), &input) else {
        return Err("refused")?;
    };
    for number in 0..256_usize {
        let name = format!(in rt.alloc(); "t{number}")?;
        assert_eq!(rt; script.find_table(name.as_bytes()), Some(number), "{name}");
    }
    for absent in ["", "t", "t256", "t00", "T0", "t0 "] {
        assert_eq!(rt; script.find_table(absent.as_bytes()), None, "{absent}");
    }
    Ok(())
}

#[test]
fn at_most_4096_commands(rt: HostRuntime) -> Result<(), Fail> {
    for (commands, line, text) in [(4096, 0, ""), (4097, 4099, "too many")] {
        let mut input = Vec::from_slice(rt.alloc(), b"session\n# one\n")?;
        for _ in 0..commands {
            input.extend_from_slice(b"x\n")?;
        }
        input.extend_from_slice(b"end\n")?;
        assert_eq!(rt; refusal(rt.alloc(), &input)?, (line, text));
    }
    Ok(())
}
