//! Runs the sessions of a script.

ghost use Rattle.std.specs.Prelude.{◌≡◌, ◌+◌, ◌≤◌, ◌⊎◌, length, vec_len, IfOk};
ghost use Rattle.bs_pool.specs.Answers.{AreAnswers};
ghost use Rattle.bs_script.specs.declared.TheConstants.{MAX_SESSIONS};
ghost use Rattle.bs_store.specs.Seats.{NewPasses};
ghost use Rattle.bs_workers.specs.Texts.{text_at};

use crate::jobs::Sessions;
use crate::passes::{close_store, memo_stripes};
use bs_memo::{Memo, MemoName};
use bs_pool::{Gate, run_jobs};
use bs_script::Script;
use bs_store::laws::passes_have_all_numbers;
use bs_store::{Pass, Store, StoreParts};
use std::alloc::{AllocError, Global};
use std::marker::Brand;
use std::sync::{Mutex, Wait};
use std::thread::Threads;

/// The most workers.
pub const MAX_WORKERS: usize = 64;

/// How many stripes the store has.
const STRIPES: u16 = 64;

/// One text for each session, its head and its replies: by so many workers, over one store and one memo of so many
/// entries.
///
/// Tells the gate once all jobs have run, whatever they answered, how many values were found again. Want of memory is
/// the only error.
pub fn run_sessions<G: Gate, R: Threads + Wait + Sync>(
    rt: &R,
    alloc: Global,
    script: &Script,
    gate: &G,
    workers: usize,
    memo: usize,
) -> Result<Vec<Vec<u8>>, AllocError>
    requires few_sessions { length script.now.sessions ≤ MAX_SESSIONS }
    requires few_workers { (1 ≤ workers) × (workers ≤ MAX_WORKERS) }
    ensures { IfOk result (λ texts. AreAnswers (text_at script.now) (length script.now.sessions) texts.items) }
{
    let (parts, passes) = StoreParts::new(alloc, STRIPES, workers + memo_stripes(memo))?;
    run_shared::<Brand, G, R>(rt, alloc, parts, passes, script, gate, workers, memo)
}

/// The same, over a store that has a name.
fn run_shared<N: MemoName + Send + Sync, G: Gate, R: Threads + Wait + Sync>(
    rt: &R,
    alloc: Global,
    parts: StoreParts,
    passes: Vec<Pass>,
    script: &Script,
    gate: &G,
    workers: usize,
    entries: usize,
) -> Result<Vec<Vec<u8>>, AllocError>
    requires table { parts.table ≡ N.table }
    requires tables { script.now.tables ≡ N.tables }
    requires few_sessions { length script.now.sessions ≤ MAX_SESSIONS }
    requires few_workers { (1 ≤ workers) × (workers ≤ MAX_WORKERS) }
    requires size { (workers + 1 ≤ vec_len passes) × (vec_len passes ≤ workers + 16) }
    requires room { (entries ≡ 0) ⊎ (vec_len passes ≤ workers + entries) }
    requires passes { (vec_len passes ≡ parts.passes) × NewPasses parts.table passes.items }
    ensures { IfOk result (λ texts. AreAnswers (text_at script.now) (length script.now.sessions) texts.items) }
{
    passes_have_all_numbers();
    let mut passes = passes;
    let home = Vec::with_capacity(alloc, passes.len())?;
    let of_memo = passes.split_off(workers)?;
    let store = Store::<N>::open(parts)?;
    let memo = match Memo::new(alloc, script.tables(), of_memo, entries) {
        Ok(memo) => memo,
        Err(refused) => {
            close_store(store, home, passes, refused.passes);
            return Err(refused.fault);
        }
    };
    let shelf = Mutex::new(Vec::new(alloc));
    let work = Sessions {
        alloc,
        store: &store,
        memo: &memo,
        script,
        shelf: &shelf,
    };
    let (passes, texts) = run_jobs(rt, alloc, &work, gate, passes, script.sessions().len());
    gate.ended(memo.found(rt));
    let of_memo = memo.close(rt, &store);
    close_store(store, home, passes, of_memo);
    texts
}
