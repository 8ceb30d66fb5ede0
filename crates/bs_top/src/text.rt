//! The text of an input, gathered in memory: a piece for each session.
//!
//! Nobody reads the count of the terms that its sessions work out, so its ledger is a brand.

ghost use Rattle.std.specs.Prelude.{◌≡◌, ◌<◌, ◌≤◌, length, IfOk};
ghost use Rattle.bs_session.specs.Machine.{session_at};
ghost use Rattle.bs_workers.specs.Texts.{session_text};
ghost use Rattle.bs_top.specs.Output.{text_of, sessions_text};
ghost use Rattle.bs_top.specs.Run.{Answers, joined};

use bs_catalog::Catalog;
use bs_drive::run_session_alone;
use bs_pool::Gate;
use bs_reply::{Line, write_line};
use bs_script::{Script, ScriptFault, read};
use bs_steps::Steps;
use bs_workers::run_sessions;
use std::alloc::{AllocError, Global};
use std::marker::Brand;
use std::sync::Wait;
use std::sync::ledger::{Blank, Ledger};
use std::thread::Threads;

/// The text of the input, by this thread, or why there is none.
pub fn answer_alone(alloc: Global, input: &[u8]) -> Result<Vec<Vec<u8>>, ScriptFault>
    ensures { Answers result (text_of input.now) }
{
    match read(alloc, input) {
        Ok(script) => Ok(write_sessions::<Brand>(alloc, &script, Blank::new(1))?),
        Err(fault) => Err(fault),
    }
}

/// The text of the input, by so many workers with a memo of so many entries, or why there is none.
pub fn answer_by_workers<G: Gate, R: Threads + Wait + Sync>(
    rt: &R,
    alloc: Global,
    input: &[u8],
    gate: &G,
    workers: usize,
    memo: usize,
) -> Result<Vec<Vec<u8>>, ScriptFault>
    requires few_workers { (1 ≤ workers) × (workers ≤ 64) }
    ensures { Answers result (text_of input.now) }
{
    match read(alloc, input) {
        Ok(script) => Ok(run_sessions(rt, alloc, &script, gate, workers, memo)?),
        Err(fault) => Err(fault),
    }
}

/// The text of each session in its place.
fn write_sessions<L: Ledger>(
    alloc: Global,
    script: &Script,
    blank: Blank,
) -> Result<Vec<Vec<u8>>, AllocError>
    requires name { blank.name ≡ L.name }
    requires parts { blank.parts ≡ L.parts }
    requires some { 0 < blank.parts }
    ensures { IfOk result (λ texts. joined texts.items ≡ sessions_text script.now 0 script.now.sessions) }
{
    let mut steps = Steps::<L>::new(blank);
    let mut catalog = Catalog::new(alloc);
    let mut texts = Vec::new(alloc);
    'sessions: for number in 0..script.sessions().len() {
        texts.push(write_session(alloc, script, number, &mut catalog, &mut steps)?)?;
    }
    Ok(texts)
}

/// The head and the replies of a session, sessions counted from 0.
fn write_session<L: Ledger>(
    alloc: Global,
    script: &Script,
    number: usize,
    catalog: &mut Catalog,
    steps: &mut Steps<L>,
) -> Result<Vec<u8>, AllocError>
    requires { number < length script.now.sessions }
    ensures { IfOk result (λ text. text.items ≡ session_text script.now number (session_at script.now number)) }
{
    prove!(number < script.sessions().len());
    let mut text = Vec::new(alloc);
    write_line(
        &mut text,
        &Line::Head {
            number: number as u64 + 1,
        },
    )?;
    let replies = run_session_alone(alloc, script, number, catalog, steps)?;
    text.extend_from_slice(&replies)?;
    Ok(text)
}
