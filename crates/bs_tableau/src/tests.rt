//! Blocks of methods, and lines that are refused.

use crate::methods::{Block, DORMAND_PRINCE, IMEX, RK4};
use crate::{Builder, MAX_COLOURS, MAX_STAGES, Tableau, TableauFault};
use bs_frac::Frac;
use std::alloc::Global;
use std::test::Fail;

/// The tableau of a block.
fn built(alloc: Global, block: Block) -> Result<Tableau, Fail> {
    if block.stages == 0
        || block.stages > MAX_STAGES
        || block.colours == 0
        || block.colours > MAX_COLOURS
    {
        return Err("no such tableau")?;
    }
    let mut builder = Builder::new(alloc, block.stages, block.colours)?;
    for line in block.lines {
        if builder.complete() {
            return Err("too many lines")?;
        }
        if builder.line(line.as_bytes()).is_err() {
            return Err("a line is refused")?;
        }
    }
    if !builder.complete() {
        return Err("too few lines")?;
    }
    Ok(builder.finish())
}

fn fraction(text: &str) -> Result<Frac, Fail> {
    match Frac::read(text.as_bytes()) {
        Ok(fraction) => Ok(fraction),
        Err(_) => Err("no fraction")?,
    }
}

#[test]
fn entries_are_those_of_the_lines(rt: HostRuntime) -> Result<(), Fail> {
    let table = built(rt.alloc(), DORMAND_PRINCE)?;
    assert_eq!(rt; table.stages(), 7);
    assert_eq!(rt; table.colours(), 1);
    assert!(rt; table.a(0, 4, 1) == fraction("-25360/2187")?);
    assert!(rt; table.a(0, 1, 4) == fraction("0")?);
    assert!(rt; table.b(0, 4) == fraction("-2187/6784")?);
    Ok(())
}

#[test]
fn colours_come_one_after_another(rt: HostRuntime) -> Result<(), Fail> {
    let table = built(rt.alloc(), IMEX)?;
    let one = fraction("1")?;
    let nil = fraction("0")?;
    assert_eq!(rt; table.stages(), 2);
    assert_eq!(rt; table.colours(), 2);
    assert!(rt; table.a(0, 1, 0) == nil && table.a(0, 1, 1) == one);
    assert!(rt; table.a(1, 1, 0) == one && table.a(1, 1, 1) == nil);
    assert!(rt; table.b(0, 0) == nil && table.b(0, 1) == one);
    assert!(rt; table.b(1, 0) == one && table.b(1, 1) == nil);
    Ok(())
}

/// The fault of a line, which should be one.
fn fault_of(builder: &mut Builder, line: &str) -> Result<TableauFault, Fail> {
    if builder.complete() {
        return Err("no line is wanted")?;
    }
    match builder.line(line.as_bytes()) {
        Ok(()) => Err("the line is accepted")?,
        Err(fault) => Ok(fault),
    }
}

#[test]
fn each_fault_comes_in_its_order(rt: HostRuntime) -> Result<(), Fail> {
    let mut builder = Builder::new(rt.alloc(), 2, 1)?;
    for (line, fault) in [
        ("", TableauFault::Missing),
        (" \t ", TableauFault::Missing),
        ("b 0 1", TableauFault::Missing),
        ("aa 0 1", TableauFault::Missing),
        ("end", TableauFault::Missing),
        ("b x", TableauFault::Missing),
        ("a", TableauFault::BadCount),
        ("a 1", TableauFault::BadCount),
        ("a 1 2 3", TableauFault::BadCount),
        ("a x y z", TableauFault::BadCount),
        ("a 1 1/0", TableauFault::BadFraction),
        ("a x 1", TableauFault::BadFraction),
        ("a 1 01", TableauFault::BadFraction),
        (
            "a 1 170141183460469231731687303715884105728/2",
            TableauFault::BadFraction,
        ),
    ] {
        assert_eq!(rt; fault_of(&mut builder, line)?, fault, "at {line}");
    }
    if builder.complete() {
        return Err("complete too early")?;
    }
    assert!(rt; builder.line(b"\t a  1/2\t2/4 ").is_ok());
    assert_eq!(rt; fault_of(&mut builder, "b 0 1")?, TableauFault::Missing);
    if builder.complete() {
        return Err("complete too early")?;
    }
    assert!(rt; builder.line(b"a -0 -4/6").is_ok());
    assert_eq!(rt; fault_of(&mut builder, "a 0 1")?, TableauFault::Missing);
    if builder.complete() {
        return Err("complete too early")?;
    }
    assert!(rt; builder.line(b"b 0 1").is_ok());
    if !builder.complete() {
        return Err("not complete")?;
    }
    let table = builder.finish();
    assert_eq!(rt; table.stages(), 2);
    assert_eq!(rt; table.colours(), 1);
    assert!(rt; table.a(0, 0, 1) == fraction("1/2")?);
    assert!(rt; table.a(0, 1, 1) == fraction("-2/3")?);
    Ok(())
}

#[test]
fn the_largest_tableau_has_its_memory(rt: HostRuntime) -> Result<(), Fail> {
    let mut builder = Builder::new(rt.alloc(), MAX_STAGES, MAX_COLOURS)?;
    for row in 0..MAX_COLOURS * (MAX_STAGES + 1) {
        let line = if row % (MAX_STAGES + 1) == MAX_STAGES {
            "b 1 2 3 4 5 6 7 8 9 10 11 12 13 14 15 16"
        } else {
            "a 1 2 3 4 5 6 7 8 9 10 11 12 13 14 15 16"
        };
        if builder.complete() || builder.line(line.as_bytes()).is_err() {
            return Err("a line is refused")?;
        }
    }
    assert!(rt; builder.complete());
    Ok(())
}

#[test]
fn a_long_line_is_refused_in_linear_time(rt: HostRuntime) -> Result<(), Fail> {
    let mut line = Vec::new(rt.alloc());
    line.push(b'a')?;
    for _ in 0..4_000_000 {
        line.push(b' ')?;
        line.push(b'1')?;
    }
    let mut builder = Builder::new(rt.alloc(), 1, 1)?;
    assert_eq!(rt; builder.line(&line), Err(TableauFault::BadCount));
    assert_eq!(rt; built(rt.alloc(), RK4)?.stages(), 4);
    Ok(())
}
