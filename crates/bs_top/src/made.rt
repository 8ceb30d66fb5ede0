//! The summary of a made input, gathered in memory. The made input is a script, so that it is never refused.

ghost use Rattle.std.specs.Prelude.{◌≡◌, ◌≤◌, Ok, IfOk};
ghost use Rattle.bs_make.specs.Made.{made_text};
ghost use Rattle.bs_top.specs.Made.{Summarizes};
ghost use Rattle.bs_top.specs.Output.{text_of};
ghost use Rattle.bs_top.specs.Run.{joined};

use crate::text::{answer_alone, answer_by_workers};
use bs_make::{make_input, summary};
use bs_pool::Gate;
use bs_script::ScriptFault;
use std::alloc::{AllocError, Global};
use std::sync::Wait;
use std::thread::Threads;

/// The summary of a seed, by this thread.
pub fn summarize_alone(alloc: Global, seed: u64) -> Result<Vec<Vec<u8>>, AllocError>
    ensures { IfOk result (λ texts. Summarizes seed (joined texts.items)) }
{
    let input = make_input(alloc, seed)?;
    match answer_alone(alloc, &input) {
        Ok(texts) => in_one_piece(alloc, seed, &input, &texts),
        Err(ScriptFault::Refused { .. }) => unreachable!(),
        Err(ScriptFault::Memory(cause)) => Err(cause),
    }
}

/// The summary of a seed, by so many workers with a memo of so many entries.
pub fn summarize_by_workers<G: Gate, R: Threads + Wait + Sync>(
    rt: &R,
    alloc: Global,
    gate: &G,
    seed: u64,
    workers: usize,
    memo: usize,
) -> Result<Vec<Vec<u8>>, AllocError>
    requires few_workers { (1 ≤ workers) × (workers ≤ 64) }
    ensures { IfOk result (λ texts. Summarizes seed (joined texts.items)) }
{
    let input = make_input(alloc, seed)?;
    match answer_by_workers(rt, alloc, &input, gate, workers, memo) {
        Ok(texts) => in_one_piece(alloc, seed, &input, &texts),
        Err(ScriptFault::Refused { .. }) => unreachable!(),
        Err(ScriptFault::Memory(cause)) => Err(cause),
    }
}

/// The summary of a seed, its input and the text of that input, in one piece.
fn in_one_piece(
    alloc: Global,
    seed: u64,
    input: &[u8],
    texts: &[Vec<u8>],
) -> Result<Vec<Vec<u8>>, AllocError>
    requires made { input.now ≡ made_text seed }
    requires text { text_of input.now ≡ Ok (joined texts.now) }
    ensures { IfOk result (λ pieces. Summarizes seed (joined pieces.items)) }
{
    let mut pieces = Vec::new(alloc);
    pieces.push(summary(alloc, seed, input, texts)?)?;
    Ok(pieces)
}
