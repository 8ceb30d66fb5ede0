//! The bytes of each line. The expected bytes are those of the format of replies and of its worked sessions.

use crate::{Line, Verdict, Word, write_line};
use bs_frac::{Coef, Frac};
use bs_levels::read_tree;
use bs_tree::Code;
use std::alloc::Global;
use std::test::Fail;

fn code_of(alloc: Global, levels: &str) -> Result<Code, Fail> {
    Ok(read_tree(alloc, levels.as_bytes(), None)?.code())
}

fn value(number: &str) -> Result<Coef, Fail> {
    Ok(Coef::Value(Frac::read(number.as_bytes())?))
}

/// The lines, one behind the other.
fn text_of(alloc: Global, lines: &[Line<'_>]) -> Result<Vec<u8>, Fail> {
    let mut text = Vec::new(alloc);
    for line in lines {
        write_line(&mut text, line)?;
    }
    Ok(text)
}

#[test]
fn names_and_comparisons(rt: HostRuntime) -> Result<(), Fail> {
    let alloc = rt.alloc();
    let coloured = read_tree(alloc, b"1,2,2", Some(b"0,0,1".as_slice()))?.code();
    let lines = [
        Line::Head { number: 1 },
        Line::Tree {
            name: b"t",
            code: code_of(alloc, "1,2,2,3")?,
        },
        Line::Tree {
            name: b"a",
            code: coloured,
        },
        Line::Same { yes: true },
        Line::Same { yes: false },
        Line::Drop { name: b"t" },
        Line::Error { number: 3 },
        Line::Error { number: 13 },
        Line::Head { number: 256 },
    ];
    let text =
        b"session 1\ntree t 1,2,3,2\ntree a 1,2,2:0,1,0\nsame yes\nsame no\ndrop t\nerror 3\nerror 13\nsession 256\n";
    assert_eq!(rt; text_of(alloc, &lines)?.as_slice(), text.as_slice());
    Ok(())
}

#[test]
fn numbers_of_trees(rt: HostRuntime) -> Result<(), Fail> {
    let alloc = rt.alloc();
    let lines = [
        Line::Info {
            code: code_of(alloc, "1,2,3,2")?,
            symmetry: 1,
            density: 8,
            alpha: 3,
        },
        Line::Info {
            code: code_of(alloc, "1,2,2,2,2,2,2,2,2,2,2,2,2,2,2,2")?,
            symmetry: 1_307_674_368_000,
            density: 16,
            alpha: 1,
        },
    ];
    let text =
        b"info 1,2,3,2 order 4 symmetry 1 density 8 alpha 3\ninfo 1,2,2,2,2,2,2,2,2,2,2,2,2,2,2,2 order 16 symmetry 1307674368000 density 16 alpha 1\n";
    assert_eq!(rt; text_of(alloc, &lines)?.as_slice(), text.as_slice());
    Ok(())
}

#[test]
fn weights(rt: HostRuntime) -> Result<(), Fail> {
    let alloc = rt.alloc();
    let lines = [
        Line::Weight {
            coef: value("5/24")?,
        },
        Line::Weight { coef: value("0")? },
        Line::Weight {
            coef: value("-1/2")?,
        },
        Line::Weight {
            coef: value("170141183460469231731687303715884105727")?,
        },
        Line::Weight {
            coef: Coef::Overflow,
        },
    ];
    let text =
        b"weight 5/24\nweight 0\nweight -1/2\nweight 170141183460469231731687303715884105727\nweight overflow\n";
    assert_eq!(rt; text_of(alloc, &lines)?.as_slice(), text.as_slice());
    Ok(())
}

#[test]
fn lists(rt: HostRuntime) -> Result<(), Fail> {
    let alloc = rt.alloc();
    let coloured = read_tree(alloc, b"1,2", Some(b"1,0".as_slice()))?.code();
    let lines = [
        Line::Count {
            word: Word::Trees,
            number: 4,
        },
        Line::Listed { code: coloured },
        Line::Listed {
            code: code_of(alloc, "1,2,2")?,
        },
        Line::Count {
            word: Word::Split,
            number: 7,
        },
        Line::Count {
            word: Word::Partition,
            number: 32_768,
        },
        Line::Count {
            word: Word::Conditions,
            number: 0,
        },
    ];
    let text = b"trees 4\n1,2:1,0\n1,2,2\nsplit 7\npartition 32768\nconditions 0\n";
    assert_eq!(rt; text_of(alloc, &lines)?.as_slice(), text.as_slice());
    Ok(())
}

#[test]
fn nothing_kept(rt: HostRuntime) -> Result<(), Fail> {
    let alloc = rt.alloc();
    let coloured = read_tree(alloc, b"1,2", Some(b"0,3".as_slice()))?.code();
    let lines = [
        Line::NothingKept {
            code: code_of(alloc, "1,2,2")?,
        },
        Line::NothingKept { code: coloured },
    ];
    let text = b"empty | 1,2,2\nempty | 1,2:0,3\n";
    assert_eq!(rt; text_of(alloc, &lines)?.as_slice(), text.as_slice());
    Ok(())
}

#[test]
fn conditions_and_orders(rt: HostRuntime) -> Result<(), Fail> {
    let alloc = rt.alloc();
    let code = code_of(alloc, "1,2")?;
    let target = Frac::read(b"1/2")?;
    let lines = [
        Line::Condition {
            code,
            coef: value("1/2")?,
            target,
        },
        Line::Condition {
            code,
            coef: value("-1/2")?,
            target,
        },
        Line::Condition {
            code,
            coef: value("0")?,
            target,
        },
        Line::Condition {
            code,
            coef: Coef::Overflow,
            target,
        },
        Line::Order {
            number: 4,
            overflow: false,
        },
        Line::Order {
            number: 0,
            overflow: true,
        },
    ];
    let text =
        b"1,2 1/2 1/2 yes\n1,2 -1/2 1/2 no\n1,2 0 1/2 no\n1,2 overflow 1/2 unknown\norder 4\norder 0 overflow\n";
    assert_eq!(rt; text_of(alloc, &lines)?.as_slice(), text.as_slice());
    Ok(())
}

#[test]
fn series_and_coefficients(rt: HostRuntime) -> Result<(), Fail> {
    let alloc = rt.alloc();
    let lines = [
        Line::Series {
            name: b"a",
            empty: Frac::read(b"1")?,
            colours: 1,
        },
        Line::Series {
            name: b"m2",
            empty: Frac::read(b"0")?,
            colours: 4,
        },
        Line::Coeff {
            coef: value("7/3")?,
        },
        Line::Coeff {
            coef: Coef::Overflow,
        },
    ];
    let text =
        b"series a empty 1 colours 1\nseries m2 empty 0 colours 4\ncoeff 7/3\ncoeff overflow\n";
    assert_eq!(rt; text_of(alloc, &lines)?.as_slice(), text.as_slice());
    Ok(())
}

#[test]
fn series_written_out(rt: HostRuntime) -> Result<(), Fail> {
    let alloc = rt.alloc();
    let coloured = read_tree(alloc, b"1,2", Some(b"1,0".as_slice()))?.code();
    let lines = [
        Line::Print {
            number: 4,
            empty: Frac::read(b"0")?,
        },
        Line::Term {
            code: code_of(alloc, "1")?,
            coef: value("1")?,
        },
        Line::Term {
            code: code_of(alloc, "1,2")?,
            coef: value("-1/2")?,
        },
        Line::Term {
            code: coloured,
            coef: value("1/3")?,
        },
        Line::Term {
            code: code_of(alloc, "1,2,2")?,
            coef: Coef::Overflow,
        },
        Line::Print {
            number: 1_205,
            empty: Frac::read(b"1")?,
        },
    ];
    let text = b"print 4 empty 0\n1 1\n1,2 -1/2\n1,2:1,0 1/3\n1,2,2 overflow\nprint 1205 empty 1\n";
    assert_eq!(rt; text_of(alloc, &lines)?.as_slice(), text.as_slice());
    Ok(())
}

#[test]
fn series_compared(rt: HostRuntime) -> Result<(), Fail> {
    let alloc = rt.alloc();
    let code = code_of(alloc, "1,2,2")?;
    let lines = [
        Line::EqualYes,
        Line::EqualEmpty {
            left: Frac::read(b"1")?,
            right: Frac::read(b"0")?,
        },
        Line::EqualAt {
            code,
            left: value("1/2")?,
            right: value("1/4")?,
        },
        Line::EqualAt {
            code,
            left: Coef::Overflow,
            right: value("-1/4")?,
        },
        Line::EqualAt {
            code,
            left: value("0")?,
            right: Coef::Overflow,
        },
        Line::EqualAt {
            code,
            left: Coef::Overflow,
            right: Coef::Overflow,
        },
    ];
    let text =
        b"equal yes\nequal no empty 1 0\nequal no 1,2,2 1/2 1/4\nequal overflow 1,2,2 overflow -1/4\nequal overflow 1,2,2 0 overflow\nequal overflow 1,2,2 overflow overflow\n";
    assert_eq!(rt; text_of(alloc, &lines)?.as_slice(), text.as_slice());
    Ok(())
}

#[test]
fn verdicts(rt: HostRuntime) -> Result<(), Fail> {
    let target = Frac::read(b"1/24")?;
    assert_eq!(rt; Verdict::of(&value("2/48")?, &target), Verdict::Holds);
    assert_eq!(rt; Verdict::of(&value("1/23")?, &target), Verdict::Fails);
    assert_eq!(rt; Verdict::of(&Coef::Overflow, &target), Verdict::Unknown);
    Ok(())
}

#[test]
fn a_long_name(rt: HostRuntime) -> Result<(), Fail> {
    let alloc = rt.alloc();
    let name = vec![in alloc; b'n'; 16_777_216]?;
    let text = text_of(alloc, &[Line::Drop { name: &name }])?;
    assert_eq!(rt; text.len(), 16_777_222);
    Ok(())
}
