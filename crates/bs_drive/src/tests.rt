//! That a session works out each coefficient once, with the sums worked out by hand.
//!
//! The counter of steps has no bytes when it runs: contracts alone see it. What it has risen by is, by the clause `counts` of
//! `Session::next`, the terms of each value that the session hands out, and the lines that it lists; so these are added up here, by the
//! walks over the items, while a session is driven as `run_session_alone` drives it. The texts are those of `run_session_alone`.

ghost use Rattle.std.specs.Prelude.{◌≡◌, ◌<◌, length, IfOk};

use crate::alone::{answer, run_session_alone};
use bs_alone::Sheet;
use bs_catalog::Catalog;
use bs_part::Parts;
use bs_script::{Script, ScriptFault, read};
use bs_series::Kind;
use bs_session::{Answer, Session};
use bs_split::Splits;
use bs_steps::Steps;
use bs_tree::Code;
use bs_work::Step;
use std::alloc::Global;
use std::marker::Brand;
use std::sync::ledger::{Blank, Ledger};
use std::test::Fail;

/// The script of an input with at least one session.
fn script_of(alloc: Global, input: &[u8]) -> Result<Script, Fail>
    ensures { IfOk result (λ script. 0 < length script.sessions) }
{
    let script = match read(alloc, input) {
        Ok(script) => script,
        Err(ScriptFault::Refused { .. }) => return Err("refused")?,
        Err(ScriptFault::Memory(_)) => return Err("out of memory")?,
    };
    if script.sessions().is_empty() {
        return Err("no session")?;
    }
    Ok(script)
}

/// The replies of the first session.
fn replies<L: Ledger>(alloc: Global, script: &Script, blank: Blank) -> Result<Vec<u8>, Fail>
    requires session { 0 < length script.now.sessions }
    requires name { blank.name ≡ L.name }
    requires parts { blank.parts ≡ L.parts }
    requires some { 0 < blank.parts }
{
    let mut steps = Steps::<L>::new(blank);
    let mut catalog = Catalog::new(alloc);
    Ok(run_session_alone(alloc, script, 0, &mut catalog, &mut steps)?)
}

/// The number of a tree's splittings.
fn splittings<L: Ledger>(code: Code, steps: &mut Steps<L>) -> u32 {
    let mut items = Splits::new(code);
    for number in 0..1000 {
        if items.next(steps).is_none() {
            return number;
        }
    }
    1000
}

/// The number of a tree's partitions.
fn partitions<L: Ledger>(code: Code, steps: &mut Steps<L>) -> u32 {
    let mut items = Parts::new(code);
    for number in 0..1000 {
        if items.next(steps).is_none() {
            return number;
        }
    }
    1000
}

/// The terms of the value of a series at a tree.
fn terms<L: Ledger>(kind: Kind, code: Code, steps: &mut Steps<L>) -> u32 {
    match kind {
        Kind::Exact { .. } | Kind::Identity { .. } | Kind::Average { .. } => 0,
        Kind::Method { .. } | Kind::Scale { .. } => 1,
        Kind::Compose { .. } | Kind::Inverse { .. } | Kind::Adjoint { .. } => {
            splittings(code, steps)
        }
        Kind::Substitute { .. } | Kind::Modified { .. } | Kind::Modifying { .. } => {
            partitions(code, steps)
        }
    }
}

/// The lines that a script's `split` commands list, each of the first tree of the session.
fn lines<L: Ledger>(script: &Script, codes: &[Code], steps: &mut Steps<L>) -> u32 {
    let ([session, ..], [code, ..]) = (script.sessions(), codes) else {
        return 0;
    };
    let mut sum = 0u32;
    for place in 0..session.len() {
        if session.command(place).starts_with(b"split ") {
            sum = sum.saturating_add(splittings(*code, steps));
        }
    }
    sum
}

/// The terms of all that the first session of a script keeps, and the lines that it lists.
fn worked_out<L: Ledger>(alloc: Global, script: &Script, blank: Blank) -> Result<u32, Fail>
    requires session { 0 < length script.now.sessions }
    requires name { blank.name ≡ L.name }
    requires parts { blank.parts ≡ L.parts }
    requires some { 0 < blank.parts }
{
    let mut steps = Steps::<L>::new(blank);
    let mut session = Session::start(alloc, script, 0, Catalog::new(alloc))?;
    let mut codes = Vec::new(alloc);
    let mut sheet = Sheet::new(alloc);
    let mut given = Answer::Go;
    let mut sum = 0u32;
    'steps: for _ in 0..1000 {
        let step = session.next(script, given, &mut steps)?;
        given = answer(&mut codes, &mut sheet, &step)?;
        if let Step::Keep { series, code, .. } = &step {
            let kind = session.book().kind(*series);
            sum = sum.saturating_add(terms(kind, *code, &mut steps));
        }
        if let Step::Done { .. } = step {
            return Ok(sum.saturating_add(lines(script, &codes, &mut steps)));
        }
    }
    Err("no end")?
}

/// What the first session of an input replies, and what it works out and lists.
fn driven(alloc: Global, input: &[u8]) -> Result<(Vec<u8>, u32), Fail> {
    let script = script_of(alloc, input)?;
    let text = replies::<Brand>(alloc, &script, Blank::new(1))?;
    let sum = worked_out::<Brand>(alloc, &script, Blank::new(1))?;
    Ok((text, sum))
}

/// Three terms of c at the tree of two nodes, one of a there, one of a at one node.
#[test]
fn a_composition(rt: HostRuntime) -> Result<(), Fail> {
    let input =
        b"tableau euler 1\na 0\nb 1\nend\nsession\ntree t 1,2\nseries a method euler\nseries c compose a a\ncoeff c t\nend\n";
    let (text, sum) = driven(rt.alloc(), input)?;
    assert_eq!(rt;
        text.as_slice(),
        b"tree t 1,2\nseries a empty 1 colours 1\nseries c empty 1 colours 1\ncoeff 1\n".as_slice()
    );
    assert_eq!(rt; sum, 5);
    Ok(())
}

/// The second time nothing is worked out.
#[test]
fn a_composition_asked_for_twice(rt: HostRuntime) -> Result<(), Fail> {
    let input =
        b"tableau euler 1\na 0\nb 1\nend\nsession\ntree t 1,2\nseries a method euler\nseries c compose a a\ncoeff c t\ncoeff c t\nend\n";
    let (text, sum) = driven(rt.alloc(), input)?;
    assert_eq!(rt;
        text.as_slice(),
        b"tree t 1,2\nseries a empty 1 colours 1\nseries c empty 1 colours 1\ncoeff 1\ncoeff 1\n".as_slice()
    );
    assert_eq!(rt; sum, 5);
    Ok(())
}

/// Two terms more, of c at one node.
#[test]
fn a_composition_printed_too(rt: HostRuntime) -> Result<(), Fail> {
    let input =
        b"tableau euler 1\na 0\nb 1\nend\nsession\ntree t 1,2\nseries a method euler\nseries c compose a a\ncoeff c t\ncoeff c t\nprint c 2\nend\n";
    let (text, sum) = driven(rt.alloc(), input)?;
    assert_eq!(rt;
        text.as_slice(),
        b"tree t 1,2\nseries a empty 1 colours 1\nseries c empty 1 colours 1\ncoeff 1\ncoeff 1\nprint 2 empty 1\n1 2\n1,2 1\n".as_slice()
    );
    assert_eq!(rt; sum, 7);
    Ok(())
}

/// And three lines.
#[test]
fn splittings_listed_too(rt: HostRuntime) -> Result<(), Fail> {
    let input =
        b"tableau euler 1\na 0\nb 1\nend\nsession\ntree t 1,2\nseries a method euler\nseries c compose a a\ncoeff c t\ncoeff c t\nprint c 2\nsplit t\nend\n";
    let (text, sum) = driven(rt.alloc(), input)?;
    assert_eq!(rt;
        text.as_slice(),
        b"tree t 1,2\nseries a empty 1 colours 1\nseries c empty 1 colours 1\ncoeff 1\ncoeff 1\nprint 2 empty 1\n1 2\n1,2 1\nsplit 3\nempty | 1,2\n1 | 1\n1,2 |\n".as_slice()
    );
    assert_eq!(rt; sum, 10);
    Ok(())
}

/// The partition of one node, and the value that divides.
#[test]
fn a_modifying_integrator(rt: HostRuntime) -> Result<(), Fail> {
    let input =
        b"tableau mid 1\na 1/2\nb 1\nend\nsession\ntree l 1\nseries a method mid\nseries g modifying a\ncoeff g l\nend\n";
    let (text, sum) = driven(rt.alloc(), input)?;
    assert_eq!(rt;
        text.as_slice(),
        b"tree l 1\nseries a empty 1 colours 1\nseries g empty 0 colours 1\ncoeff 1\n".as_slice()
    );
    assert_eq!(rt; sum, 2);
    Ok(())
}
