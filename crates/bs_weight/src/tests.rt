//! Weights from the literature, at the edge of what a fraction holds, and of the largest trees.

use crate::{Weights, weight};
use bs_frac::{Coef, Frac};
use bs_tableau::methods::{
    Block, DORMAND_PRINCE, EULER, HALF_AND_THIRD, IMEX, IMPLICIT_EULER, LARGEST_TWICE,
    LARGEST_WEIGHT, MIDPOINT, RK4,
};
use bs_tableau::{Builder, MAX_COLOURS, MAX_STAGES, Tableau};
use bs_tree::{Code, MAX_NODES};
use std::alloc::Global;
use std::test::Fail;

/// The tableau of a block.
fn built(alloc: Global, block: Block) -> Result<Tableau, Fail> {
    if block.stages == 0
        || block.stages > MAX_STAGES
        || block.colours == 0
        || block.colours > MAX_COLOURS
    {
        return Err("no such tableau")?;
    }
    let mut builder = Builder::new(alloc, block.stages, block.colours)?;
    for line in block.lines {
        if builder.complete() {
            return Err("too many lines")?;
        }
        if builder.line(line.as_bytes()).is_err() {
            return Err("a line is refused")?;
        }
    }
    if !builder.complete() {
        return Err("too few lines")?;
    }
    Ok(builder.finish())
}

/// The code of a tree by its levels and colours, a digit each.
fn code_of(alloc: Global, levels: &str, colours: &str) -> Result<Code, Fail> {
    let mut pairs = Vec::new(alloc);
    for (level, colour) in levels.bytes().zip(colours.bytes()) {
        pairs.push((level.saturating_sub(b'0'), colour.saturating_sub(b'0')))?;
    }
    Ok(Code::of_pairs(&pairs).ok_or("no level sequence")?)
}

/// The weight of a tree whose colours the tableau has.
fn weight_of(table: &Tableau, code: &Code) -> Result<Coef, Fail> {
    if !code.has_colours_below(table.colours()) {
        return Err("a colour is too large")?;
    }
    Ok(weight(table, code))
}

/// The same by what is remembered.
fn remembered(weights: &mut Weights, table: &Tableau, code: &Code) -> Result<Coef, Fail> {
    if !code.has_colours_below(table.colours()) {
        return Err("a colour is too large")?;
    }
    Ok(weights.weight(table, code))
}

fn value(text: &str) -> Result<Coef, Fail> {
    match Frac::read(text.as_bytes()) {
        Ok(fraction) => Ok(Coef::Value(fraction)),
        Err(_) => Err("no fraction")?,
    }
}

/// Levels and density of every tree of at most five nodes.
const TREES: [(&str, &str); 17] = [
    ("1", "1"),
    ("12", "2"),
    ("123", "6"),
    ("122", "3"),
    ("1234", "24"),
    ("1233", "12"),
    ("1232", "8"),
    ("1222", "4"),
    ("12345", "120"),
    ("12344", "60"),
    ("12343", "40"),
    ("12333", "20"),
    ("12342", "30"),
    ("12332", "15"),
    ("12323", "20"),
    ("12322", "10"),
    ("12222", "5"),
];

/// How many of the conditions for trees of at most five nodes hold.
fn conditions_met(alloc: Global, block: Block) -> Result<usize, Fail> {
    let table = built(alloc, block)?;
    let mut met = 0usize;
    for (levels, density) in TREES {
        let target = format!(in alloc; "1/{density}")?;
        let code = code_of(alloc, levels, "00000")?;
        if weight_of(&table, &code)? == value(&target)? {
            met = met.saturating_add(1);
        }
    }
    Ok(met)
}

#[test]
fn conditions_of_order(rt: HostRuntime) -> Result<(), Fail> {
    assert_eq!(rt; conditions_met(rt.alloc(), DORMAND_PRINCE)?, 17);
    let rk4 = built(rt.alloc(), RK4)?;
    let bush = code_of(rt.alloc(), "12222", "00000")?;
    let chain = code_of(rt.alloc(), "12345", "00000")?;
    assert!(rt; weight_of(&rk4, &bush)? == value("5/24")?);
    assert!(rt; weight_of(&rk4, &chain)? == value("0")?);
    Ok(())
}

#[test]
fn one_stage_gives_powers(rt: HostRuntime) -> Result<(), Fail> {
    let code = code_of(rt.alloc(), "12342", "00000")?;
    for (block, expected) in [(EULER, "0"), (IMPLICIT_EULER, "1"), (MIDPOINT, "1/16")] {
        let table = built(rt.alloc(), block)?;
        assert!(rt;
            weight_of(&table, &code)? == value(expected)?,
            "at {expected}"
        );
    }
    Ok(())
}

/// Two methods of two stages, with entries that tell every place.
const MIXED: Block = Block {
    stages: 2,
    colours: 2,
    lines: &[
        "a 1/2 1/3",
        "a 1/5 1/7",
        "b 1/11 1/13",
        "a 2 -1",
        "a 3 1/2",
        "b 1/4 3/4",
    ],
};

#[test]
fn colours_choose_the_method(rt: HostRuntime) -> Result<(), Fail> {
    let mixed = built(rt.alloc(), MIXED)?;
    for (levels, colours, expected) in [
        ("1", "0", "24/143"),
        ("1", "1", "1"),
        ("12", "00", "3067/30030"),
        ("12", "01", "103/286"),
        ("12", "10", "391/840"),
        ("12", "11", "23/8"),
        ("123", "010", "1957/6006"),
        ("123", "001", "881/4290"),
        ("123", "110", "1961/840"),
        ("122", "010", "721/4290"),
        ("122", "110", "133/120"),
        ("1233", "1010", "769/1680"),
        ("1232", "0110", "233/20020"),
        ("12342", "10110", "47797/176400"),
    ] {
        let code = code_of(rt.alloc(), levels, colours)?;
        assert!(rt;
            weight_of(&mixed, &code)? == value(expected)?,
            "at {levels} {colours}"
        );
    }
    let imex = built(rt.alloc(), IMEX)?;
    for (levels, colours, expected) in [
        ("12", "00", "1"),
        ("12", "01", "1"),
        ("12", "10", "0"),
        ("123", "010", "0"),
        ("122", "010", "1"),
    ] {
        let code = code_of(rt.alloc(), levels, colours)?;
        assert!(rt;
            weight_of(&imex, &code)? == value(expected)?,
            "at {levels} {colours}"
        );
    }
    Ok(())
}

#[test]
fn overflow_comes_in_the_written_order(rt: HostRuntime) -> Result<(), Fail> {
    let leaf = code_of(rt.alloc(), "1", "0")?;
    let cherry = code_of(rt.alloc(), "12", "00")?;
    let largest = built(rt.alloc(), LARGEST_WEIGHT)?;
    assert!(rt; weight_of(&largest, &leaf)? == value("170141183460469231731687303715884105727")?);
    assert!(rt; weight_of(&largest, &cherry)? == Coef::Overflow);
    let twice = built(rt.alloc(), LARGEST_TWICE)?;
    assert!(rt; weight_of(&twice, &leaf)? == Coef::Overflow);
    let half = built(rt.alloc(), HALF_AND_THIRD)?;
    assert!(rt; weight_of(&half, &leaf)? == Coef::Overflow);
    Ok(())
}

/// Each tree behind its smaller ones, whose edge sums are remembered.
#[test]
fn remembered_sums_give_the_same(rt: HostRuntime) -> Result<(), Fail> {
    let table = built(rt.alloc(), DORMAND_PRINCE)?;
    let mut weights = Weights::new(rt.alloc());
    for (levels, density) in TREES {
        let expected = format!(in rt.alloc(); "1/{density}")?;
        let code = code_of(rt.alloc(), levels, "00000")?;
        assert!(rt;
            remembered(&mut weights, &table, &code)? == value(&expected)?,
            "at {levels}"
        );
    }
    Ok(())
}

/// Two tableaux in turn.
#[test]
fn each_tableau_has_its_own_sums(rt: HostRuntime) -> Result<(), Fail> {
    let rk4 = built(rt.alloc(), RK4)?;
    let imex = built(rt.alloc(), IMEX)?;
    let tall = code_of(rt.alloc(), "123", "000")?;
    let mut weights = Weights::new(rt.alloc());
    for _ in 0..2 {
        assert!(rt; remembered(&mut weights, &rk4, &tall)? == value("1/6")?);
        assert!(rt; remembered(&mut weights, &imex, &tall)? == value("1")?);
    }
    Ok(())
}

#[test]
fn remembered_sums_differ_by_colour(rt: HostRuntime) -> Result<(), Fail> {
    let mixed = built(rt.alloc(), MIXED)?;
    let mut weights = Weights::new(rt.alloc());
    for (colours, expected) in [
        ("010", "1957/6006"),
        ("001", "881/4290"),
        ("110", "1961/840"),
        ("010", "1957/6006"),
    ] {
        let code = code_of(rt.alloc(), "123", colours)?;
        assert!(rt;
            remembered(&mut weights, &mixed, &code)? == value(expected)?,
            "at {colours}"
        );
    }
    Ok(())
}

#[test]
fn remembered_overflow_is_an_overflow(rt: HostRuntime) -> Result<(), Fail> {
    let largest = built(rt.alloc(), LARGEST_WEIGHT)?;
    let mut weights = Weights::new(rt.alloc());
    let cherry = code_of(rt.alloc(), "12", "00")?;
    let leaf = code_of(rt.alloc(), "1", "0")?;
    for _ in 0..2 {
        assert!(rt; remembered(&mut weights, &largest, &cherry)? == Coef::Overflow);
        assert!(rt;
            remembered(&mut weights, &largest, &leaf)?
                == value("170141183460469231731687303715884105727")?
        );
    }
    Ok(())
}

/// Sixteen stages, each entry 1/2 and each weight 1/16.
fn full(alloc: Global) -> Result<Tableau, Fail> {
    let mut builder = Builder::new(alloc, MAX_STAGES, 1)?;
    for row in 0..=MAX_STAGES {
        let (letter, entry) = if row == MAX_STAGES {
            ("b", " 1/16")
        } else {
            ("a", " 1/2")
        };
        let mut line = String::from_str(alloc, letter)?;
        for _ in 0..MAX_STAGES {
            line.push_str(entry)?;
        }
        if builder.complete() || builder.line(line.as_bytes()).is_err() {
            return Err("a line is refused")?;
        }
    }
    if !builder.complete() {
        return Err("too few lines")?;
    }
    Ok(builder.finish())
}

#[test]
fn the_largest_trees_are_quick(rt: HostRuntime) -> Result<(), Fail> {
    let table = full(rt.alloc())?;
    let mut chain = Vec::new(rt.alloc());
    let mut bush = Vec::new(rt.alloc());
    let mut expected = 1u64;
    for node in 0..MAX_NODES {
        let level = (node % 255) as u8;
        chain.push((level.saturating_add(1), 0))?;
        bush.push((if node == 0 { 1 } else { 2 }, 0))?;
        if node > 0 {
            expected = expected.wrapping_mul(8);
        }
    }
    let expected = value(&format!(in rt.alloc(); "{expected}")?)?;
    let chain = Code::of_pairs(&chain).ok_or("no level sequence")?;
    let bush = Code::of_pairs(&bush).ok_or("no level sequence")?;
    assert!(rt; weight_of(&table, &chain)? == expected);
    assert!(rt; weight_of(&table, &bush)? == expected);
    Ok(())
}
