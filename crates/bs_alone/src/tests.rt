//! Pairs kept and looked up. The coefficients are the known ones of the exact flow and of the inverse of the Euler method.

use crate::Sheet;
use bs_frac::{Coef, Frac};
use bs_series::{Book, Kind, SeriesId};
use bs_tree::Code;
use std::alloc::Global;
use std::test::Fail;

fn value(number: &str) -> Result<Coef, Fail> {
    Ok(Coef::Value(Frac::read(number.as_bytes())?))
}

/// The code of these levels and colours, a digit each.
fn code_of(alloc: Global, levels: &str, colours: &str) -> Result<Code, Fail> {
    let mut pairs = Vec::new(alloc);
    for (level, colour) in levels.bytes().zip(colours.bytes()) {
        pairs.push((level.saturating_sub(b'0'), colour.saturating_sub(b'0')))?;
    }
    Ok(Code::of_pairs(&pairs).ok_or("no level sequence")?)
}

/// Two series of a book.
fn two_series(alloc: Global) -> Result<(SeriesId, SeriesId), Fail> {
    let mut book = Book::new(alloc);
    let flow = book.make(&[], Kind::Exact { colours: 1 })?;
    let other = book.make(&[], Kind::Identity { colours: 1 })?;
    Ok((flow, other))
}

/// The trees of at most three nodes.
const LEVELS: [&str; 4] = ["1", "12", "123", "122"];

#[test]
fn what_is_kept_is_found(rt: HostRuntime) -> Result<(), Fail> {
    let alloc = rt.alloc();
    let (flow, inverse) = two_series(alloc)?;
    let mut sheet = Sheet::new(alloc);
    for (levels, of_flow) in LEVELS.iter().zip(["1", "1/2", "1/6", "1/3"]) {
        sheet.keep(flow, code_of(alloc, levels, "000")?, value(of_flow)?)?;
    }
    for (levels, of_inverse) in LEVELS.iter().rev().zip(["-1", "-1", "1", "-1"]) {
        sheet.keep(inverse, code_of(alloc, levels, "000")?, value(of_inverse)?)?;
    }
    for (levels, of_flow) in LEVELS.iter().zip(["1", "1/2", "1/6", "1/3"]) {
        let found = sheet.look(flow, &code_of(alloc, levels, "000")?);
        assert!(rt; found == Some(value(of_flow)?), "{levels}");
    }
    for (levels, of_inverse) in LEVELS.iter().zip(["-1", "1", "-1", "-1"]) {
        let found = sheet.look(inverse, &code_of(alloc, levels, "000")?);
        assert!(rt; found == Some(value(of_inverse)?), "{levels}");
    }
    Ok(())
}

#[test]
fn only_what_is_kept_is_found(rt: HostRuntime) -> Result<(), Fail> {
    let alloc = rt.alloc();
    let (flow, other) = two_series(alloc)?;
    let mut sheet = Sheet::new(alloc);
    let code = code_of(alloc, "122", "010")?;
    assert!(rt; sheet.look(flow, &code).is_none());
    sheet.keep(flow, code, value("1/3")?)?;
    assert!(rt; sheet.look(flow, &code) == Some(value("1/3")?));
    assert!(rt; sheet.look(other, &code).is_none());
    for (levels, colours) in [
        ("122", "000"),
        ("122", "011"),
        ("123", "010"),
        ("12", "01"),
        ("1222", "0100"),
    ] {
        assert!(rt;
            sheet
                .look(flow, &code_of(alloc, levels, colours)?)
                .is_none(),
            "{levels} {colours}"
        );
    }
    Ok(())
}

#[test]
fn the_last_value_counts(rt: HostRuntime) -> Result<(), Fail> {
    let alloc = rt.alloc();
    let (flow, other) = two_series(alloc)?;
    let mut sheet = Sheet::new(alloc);
    let code = code_of(alloc, "12", "00")?;
    sheet.keep(flow, code, Coef::Overflow)?;
    sheet.keep(other, code, value("0")?)?;
    assert!(rt; sheet.look(flow, &code) == Some(Coef::Overflow));
    sheet.keep(flow, code, value("1/2")?)?;
    assert!(rt; sheet.look(flow, &code) == Some(value("1/2")?));
    assert!(rt; sheet.look(other, &code) == Some(value("0")?));
    Ok(())
}
