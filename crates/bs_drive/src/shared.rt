//! A session over a store and a memo that other threads use too: its trees are held by names in the store, and two are compared by
//! their names; its coefficients are remembered in a sheet of its own, and in the memo.

ghost use Rattle.std.specs.Prelude.{◌≡◌, ◌+◌, ◌<◌, ◌≤◌, ℕ, [], List, Option, Some, length, IfOk, OnOk};
ghost use Rattle.bs_frac.specs.declared.coef.Coef.{Coef};
ghost use Rattle.bs_tree.specs.Tree.{Tree};
ghost use Rattle.bs_series.specs.Series.{Series};
ghost use Rattle.bs_series.specs.Expressions.{Extends};
ghost use Rattle.bs_script.specs.Blocks.{ScriptLines};
ghost use Rattle.bs_alone.specs.Fits.{Fits};
ghost use Rattle.bs_store.specs.Walks.{SamePass, Same, Within};
ghost use Rattle.bs_session.specs.Counted.{Counts};
ghost use Rattle.bs_session.specs.Machine.{State, session_at, plain_of, found_of, need_whole, AreApart, IsTruthful, Takes};
ghost use Rattle.bs_session.specs.Needed.{session_trees};
ghost use Rattle.bs_session.specs.Replies.{session_replies};
ghost use Rattle.bs_drive.specs.Once.{AreDistinct, IsOnce, RisesOnce};
ghost use Rattle.bs_drive.specs.Shared.{held_of, AreHeld, IsFor, SameBeside, SameValues};

use crate::recall::{recall, remember};
use crate::trees::{add, compared, give_all_back, give_back};
use bs_alone::Sheet;
use bs_catalog::Catalog;
use bs_core::Held;
use bs_memo::{Memo, MemoName};
use bs_script::Script;
use bs_series::Book;
use bs_session::{Answer, Session};
use bs_steps::Steps;
use bs_store::{Pass, Store};
use bs_work::Step;
use std::alloc::{AllocError, Global};
use std::mem;
use std::sync::Wait;
use std::sync::ledger::Ledger;

/// A session's trees and its remembered coefficients after a step, and what the pass holds; and the answer to the step.
fn answer<N: MemoName, R: Wait>(
    rt: &R,
    alloc: Global,
    store: &Store<N>,
    memo: &Memo<'_, N>,
    pass: &mut Pass,
    book: &Book,
    trees: &mut Vec<Option<Held>>,
    sheet: &mut Sheet,
    step: &Step,
) -> Result<Answer, AllocError>
    requires own { pass.old.store ≡ store.now.table }
    requires held { Within (held_of trees.old.items) pass.old.held }
    requires apt { IsFor N.tables book.now step.now }
    ensures same { SamePass pass.old pass.new }
    ensures beside { SameBeside trees.old.items pass.old.held trees.new.items pass.new.held }
    ensures gains { pass.old.gains ≤ pass.new.gains }
    ensures gained { (script : ScriptLines) (old new : State) → Takes script old new step.now → OnOk result (pass.old.gains + new.interned ≤ pass.new.gains + old.interned) }
    ensures truthful { (script : ScriptLines) (old new : State) → AreHeld trees.old.items old → Fits (plain_of script new) new.space.book sheet.old → book.now ≡ new.space.book → SameValues N.tables (plain_of script new) new.space.book → Takes script old new step.now → IfOk result (λ answer. IsTruthful script new answer) }
    ensures kept { (script : ScriptLines) (old new : State) → AreHeld trees.old.items old → AreApart old.space.live → Takes script old new step.now → OnOk result (AreHeld trees.new.items new) }
    ensures fits { (script : ScriptLines) (old new : State) → Fits (plain_of script new) new.space.book sheet.old → Takes script old new step.now → OnOk result (Fits (plain_of script new) new.space.book sheet.new) }
    ensures once { (script : ScriptLines) (old new : State) (ns : List (Series × Tree)) (given : Option Coef) (m k n : ℕ) → IsOnce ns old given sheet.old m k → ns ≡ need_whole script new → Extends old.space.book new.space.book → AreDistinct new.space.book → Takes script old new step.now → Counts old new given k n (Some step.now) → IfOk result (λ answer. IsOnce ns new (found_of answer) sheet.new m n) }
{
    match step {
        Step::Intern { code, .. } => {
            add(rt, store, pass, trees, code)?;
            Ok(Answer::Go)
        }
        Step::Release { tree } => {
            give_back(rt, store, pass, trees, *tree as usize);
            Ok(Answer::Go)
        }
        Step::Same { left, right } => Ok(compared(pass, trees, *left as usize, *right as usize)),
        Step::Look { series, code } => match sheet.look(*series, code) {
            Some(coef) => Ok(Answer::Found(coef)),
            None => match recall(rt, alloc, store, memo, pass, book, *series, code)? {
                Some(coef) => Ok(Answer::Found(coef)),
                None => Ok(Answer::Missing),
            },
        },
        Step::Keep { series, code, coef } => {
            let _order = code.order();
            sheet.keep(*series, *code, *coef)?;
            remember(rt, alloc, store, memo, pass, book, *series, code, *coef)?;
            Ok(Answer::Go)
        }
        Step::Done { .. } => Ok(Answer::Go),
    }
}

/// The replies of a session of the script, and the trees that it has still interned when it ends, which may be for want of memory.
fn drive<N: MemoName, L: Ledger, R: Wait>(
    rt: &R,
    alloc: Global,
    store: &Store<N>,
    memo: &Memo<'_, N>,
    pass: &mut Pass,
    script: &Script,
    number: usize,
    catalog: &mut Catalog,
    trees: &mut Vec<Option<Held>>,
    steps: &mut Steps<L>,
) -> Result<Vec<u8>, AllocError>
    requires session { number < length script.now.sessions }
    requires tables { script.now.tables ≡ N.tables }
    requires own { pass.old.store ≡ store.now.table }
    requires none { trees.old.items ≡ [] }
    ensures replies { IfOk result (λ reply. reply.items ≡ session_replies script.now (session_at script.now number)) }
    ensures once { IfOk result (λ _. RisesOnce script.now (session_at script.now number) steps.old steps.new) }
    ensures same { SamePass pass.old pass.new }
    ensures beside { SameBeside [] pass.old.held trees.new.items pass.new.held }
    ensures gains { OnOk result (pass.old.gains + session_trees script.now (session_at script.now number) ≤ pass.new.gains) }
    ensures gains_kept { pass.old.gains ≤ pass.new.gains }
{
    let made = mem::replace(catalog, Catalog::new(alloc));
    let mut session = Session::start(alloc, script, number, made)?;
    let mut sheet = Sheet::new(alloc);
    let mut given = Answer::Go;
    'steps: loop {
        let step = session.next(script, given, steps)?;
        let book = session.book();
        book.ids_differ();
        book.serves_longer_lists();
        given = answer(rt, alloc, store, memo, pass, book, trees, &mut sheet, &step)?;
        if let Step::Done { reply } = step {
            *catalog = session.into_trees().trimmed();
            return Ok(reply);
        }
    }
}

/// The replies of a session of the script, sessions counted from 0, over a store and a memo that other threads use too.
///
/// Takes memory for the session's replies, for its trees and their names, for the coefficients that it remembers, and for the rows of
/// trees in the catalog, which the next session finds there. What the pass gained for the session it has given back at the end, also
/// where memory was wanted.
///
/// Counts the terms of the coefficients that it works out, each coefficient once, and the lines of splittings and partitions that it
/// lists. The making of a tree's rows is not counted.
pub fn run_session_shared<N: MemoName, L: Ledger, R: Wait>(
    rt: &R,
    alloc: Global,
    store: &Store<N>,
    memo: &Memo<'_, N>,
    pass: &mut Pass,
    script: &Script,
    number: usize,
    catalog: &mut Catalog,
    steps: &mut Steps<L>,
) -> Result<Vec<u8>, AllocError>
    requires session { number < length script.now.sessions }
    requires tables { script.now.tables ≡ N.tables }
    requires own { pass.old.store ≡ store.now.table }
    ensures replies { IfOk result (λ reply. reply.items ≡ session_replies script.now (session_at script.now number)) }
    ensures once { IfOk result (λ _. RisesOnce script.now (session_at script.now number) steps.old steps.new) }
    ensures same { SamePass pass.old pass.new }
    ensures pairs { Same pass.old.held pass.new.held }
    ensures gains { OnOk result (pass.old.gains + session_trees script.now (session_at script.now number) ≤ pass.new.gains) }
    ensures gains_kept { pass.old.gains ≤ pass.new.gains }
{
    let mut trees = Vec::new(alloc);
    let reply = drive(
        rt, alloc, store, memo, pass, script, number, catalog, &mut trees, steps,
    );
    give_all_back(rt, store, pass, trees);
    reply
}
