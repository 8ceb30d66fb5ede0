//! A session by itself: its trees are kept by their numbers, and two are compared by their codes; its coefficients are remembered in a
//! sheet of its own.

ghost use Rattle.std.specs.Prelude.{◌≡◌, ◌<◌, ℕ, List, Option, Some, length, IfOk, OnOk};
ghost use Rattle.bs_tree.specs.Tree.{Tree};
ghost use Rattle.bs_series.specs.Series.{Series};
ghost use Rattle.bs_frac.specs.declared.coef.Coef.{Coef};
ghost use Rattle.bs_series.specs.Expressions.{Extends};
ghost use Rattle.bs_session.specs.Counted.{Counts};
ghost use Rattle.bs_script.specs.Blocks.{ScriptLines};
ghost use Rattle.bs_alone.specs.Fits.{Fits};
ghost use Rattle.bs_session.specs.Machine.{State, session_at, plain_of, found_of, need_whole, IsTruthful, Takes};
ghost use Rattle.bs_session.specs.Replies.{session_replies};
ghost use Rattle.bs_drive.specs.Alone.{AreKept, compared};
ghost use Rattle.bs_drive.specs.Once.{AreDistinct, IsOnce, RisesOnce};

use bs_alone::Sheet;
use bs_catalog::Catalog;
use bs_script::Script;
use bs_session::{Answer, Session};
use bs_steps::Steps;
use bs_tree::Code;
use bs_work::Step;
use std::alloc::{AllocError, Global};
use std::mem;
use std::sync::ledger::Ledger;

/// The codes of a session's trees, by their numbers, and its remembered coefficients after a step; and the answer to the step.
pub(crate) fn answer(
    codes: &mut Vec<Code>,
    sheet: &mut Sheet,
    step: &Step,
) -> Result<Answer, AllocError>
    ensures truthful { (script : ScriptLines) (old new : State) → AreKept codes.old.items old → Fits (plain_of script new) new.space.book sheet.old → Takes script old new step.now → IfOk result (λ answer. IsTruthful script new answer) }
    ensures kept { (script : ScriptLines) (old new : State) → AreKept codes.old.items old → Takes script old new step.now → OnOk result (AreKept codes.new.items new) }
    ensures fits { (script : ScriptLines) (old new : State) → Fits (plain_of script new) new.space.book sheet.old → Takes script old new step.now → OnOk result (Fits (plain_of script new) new.space.book sheet.new) }
    ensures once { (script : ScriptLines) (old new : State) (ns : List (Series × Tree)) (given : Option Coef) (m k n : ℕ) → IsOnce ns old given sheet.old m k → ns ≡ need_whole script new → Extends old.space.book new.space.book → AreDistinct new.space.book → Takes script old new step.now → Counts old new given k n (Some step.now) → IfOk result (λ answer. IsOnce ns new (found_of answer) sheet.new m n) }
{
    match step {
        Step::Intern { code, .. } => {
            codes.push(*code)?;
            Ok(Answer::Go)
        }
        Step::Same { left, right } => Ok(compared(codes, *left, *right)),
        Step::Look { series, code } => match sheet.look(*series, code) {
            Some(coef) => Ok(Answer::Found(coef)),
            None => Ok(Answer::Missing),
        },
        Step::Keep { series, code, coef } => {
            let _order = code.order();
            sheet.keep(*series, *code, *coef)?;
            Ok(Answer::Go)
        }
        Step::Release { .. } | Step::Done { .. } => Ok(Answer::Go),
    }
}

/// Whether the trees of two numbers are isomorphic.
fn compared(codes: &[Code], left: u32, right: u32) -> Answer
    ensures { result ≡ compared codes.now left right }
{
    match (codes.get(left as usize), codes.get(right as usize)) {
        (Some(left), Some(right)) if left.isomorphic(right) => Answer::Yes,
        _ => Answer::No,
    }
}

/// The replies of a session of the script, sessions counted from 0.
///
/// Takes memory for the session's replies, for its trees and their codes, for the coefficients that it remembers, and for the rows of
/// trees in the catalog, which the next session finds there.
///
/// Counts the terms of the coefficients that it works out, each coefficient once, and the lines of splittings and partitions that it
/// lists. The making of a tree's rows is not counted.
pub fn run_session_alone<L: Ledger>(
    alloc: Global,
    script: &Script,
    number: usize,
    catalog: &mut Catalog,
    steps: &mut Steps<L>,
) -> Result<Vec<u8>, AllocError>
    requires { number < length script.now.sessions }
    ensures once { IfOk result (λ _. RisesOnce script.now (session_at script.now number) steps.old steps.new) }
    ensures replies { IfOk result (λ reply. reply.items ≡ session_replies script.now (session_at script.now number)) }
{
    let made = mem::replace(catalog, Catalog::new(alloc));
    let mut session = Session::start(alloc, script, number, made)?;
    let mut codes = Vec::new(alloc);
    let mut sheet = Sheet::new(alloc);
    let mut given = Answer::Go;
    'steps: loop {
        let step = session.next(script, given, steps)?;
        session.book().ids_differ();
        given = answer(&mut codes, &mut sheet, &step)?;
        if let Step::Done { reply } = step {
            *catalog = session.into_trees().trimmed();
            return Ok(reply);
        }
    }
}
