//! The top call with workers: bytes to bytes.

ghost use Rattle.std.specs.Prelude.{◌≡◌, ◌≢◌, ◌≤◌, ◌⊎◌, ℕ, [], true, None, Some};
ghost use Rattle.bs_io.specs.Outside.{Rose, Adds, AddsFront};
ghost use Rattle.bs_top.specs.ErrorLines.{error_line};
ghost use Rattle.bs_top.specs.Made.{IsMade};
ghost use Rattle.bs_top.specs.Run.{IsRun, Reports};
ghost use Rattle.bs_words.specs.Words.{accepts, faults, seed_of, texts};

use crate::made::summarize_by_workers;
use crate::run::{INPUT_LIMIT, put, report, serve_alone, without_words};
use crate::status::Status;
use crate::text::answer_by_workers;
use bs_io::{ReadAllFault, Sink, Source, read_all};
use bs_pool::Gate;
use bs_script::ScriptFault;
use bs_words::read_words;
use std::alloc::Global;
use std::sync::Wait;
use std::thread::Threads;

/// Reads the words and the input, and writes the input's text to the sink, or one line on errs: by as many workers as the
/// words say, over a memo of as many entries as they say; by this thread where they have no number of workers.
///
/// The stages come in the order of `run_alone`, and the bytes are those of `run_alone`. With workers, the gate is told
/// once, when the sessions have run, how many values were found again. Memory is taken for the workers too.
pub fn run_main<S: Source, K: Sink, E: Sink, G: Gate, R: Threads + Wait + Sync>(
    rt: &R,
    alloc: Global,
    words: &[String],
    source: &mut S,
    sink: &mut K,
    errs: &mut E,
    gate: &G,
) -> Status
    // The words decide first.
    ensures usage_only_at_a_fault { result ≡ Status.Usage → faults (texts words.now) ≢ [] }
    ensures fault_is_told { faults (texts words.now) ≢ [] → (result ≡ Status.Usage) ⊎ (result ≡ Status.NoMemory) }
    ensures accepted_words_are_no_usage { accepts (texts words.now) ≡ true → result ≢ Status.Usage }
    ensures usage_source { result ≡ Status.Usage → source.new ≡ source.old }

    // What the status says of the bytes and the faults, and which status comes, where the input is read and where it
    // is made.
    ensures run { seed_of (texts words.now) ≡ None → IsRun S.left S.faults K.written K.flushed K.faults
        (faults (texts words.now) ≡ []) source.old source.new sink.old sink.new result }
    ensures made { (seed : ℕ) → seed_of (texts words.now) ≡ Some seed → IsMade K.written K.flushed K.faults
        (faults (texts words.now) ≡ []) seed sink.old sink.new result }
    ensures made_source { (seed : ℕ) → seed_of (texts words.now) ≡ Some seed → source.new ≡ source.old }

    // The line on errs.
    ensures errs_line { Reports (E.written errs.old) (E.faults errs.old) (error_line result)
        (E.written errs.new) (E.faults errs.new) }
    ensures errs_unflushed { E.flushed errs.new ≡ E.flushed errs.old }
    ensures errs_silent { result ≡ Status.Done → errs.new ≡ errs.old }
{
    let status = obey(rt, alloc, words, source, sink, gate);
    let _ = report(errs, &status);
    status
}

/// Reads the words, and does what they say.
fn obey<S: Source, K: Sink, G: Gate, R: Threads + Wait + Sync>(
    rt: &R,
    alloc: Global,
    words: &[String],
    source: &mut S,
    sink: &mut K,
    gate: &G,
) -> Status
    ensures usage_only_at_a_fault { result ≡ Status.Usage → faults (texts words.now) ≢ [] }
    ensures fault_is_told { faults (texts words.now) ≢ [] → (result ≡ Status.Usage) ⊎ (result ≡ Status.NoMemory) }
    ensures accepted_words_are_no_usage { accepts (texts words.now) ≡ true → result ≢ Status.Usage }
    ensures usage_source { result ≡ Status.Usage → source.new ≡ source.old }
    ensures run { seed_of (texts words.now) ≡ None → IsRun S.left S.faults K.written K.flushed K.faults
        (faults (texts words.now) ≡ []) source.old source.new sink.old sink.new result }
    ensures made { (seed : ℕ) → seed_of (texts words.now) ≡ Some seed → IsMade K.written K.flushed K.faults
        (faults (texts words.now) ≡ []) seed sink.old sink.new result }
    ensures made_source { (seed : ℕ) → seed_of (texts words.now) ≡ Some seed → source.new ≡ source.old }
{
    match read_words(alloc, words) {
        Ok(options) => match options.workers {
            Some(workers) => {
                let memo = options.memo;
                serve_by_workers(rt, alloc, source, sink, gate, options.seed, workers, memo)
            }
            None => serve_alone(alloc, source, sink, options.seed),
        },
        Err(fault) => without_words(fault),
    }
}

/// Reads the input, or makes it where there is a seed, by so many workers with a memo of so many entries.
fn serve_by_workers<S: Source, K: Sink, G: Gate, R: Threads + Wait + Sync>(
    rt: &R,
    alloc: Global,
    source: &mut S,
    sink: &mut K,
    gate: &G,
    seed: Option<u64>,
    workers: usize,
    memo: usize,
) -> Status
    requires few_workers { (1 ≤ workers) × (workers ≤ 64) }
    ensures words { result ≢ Status.Usage }
    ensures run { seed ≡ None → IsRun S.left S.faults K.written K.flushed K.faults (Unit {0}) source.old source.new
        sink.old sink.new result }
    ensures made { (given : ℕ) → seed ≡ Some given → IsMade K.written K.flushed K.faults (Unit {0}) given
        sink.old sink.new result }
    ensures made_source { (given : ℕ) → seed ≡ Some given → source.new ≡ source.old }
{
    match seed {
        Some(seed) => make_by_workers(rt, alloc, sink, gate, seed, workers, memo),
        None => run_by_workers(rt, alloc, source, sink, gate, workers, memo),
    }
}

/// Reads the input, and writes its text, by so many workers with a memo of so many entries.
fn run_by_workers<S: Source, K: Sink, G: Gate, R: Threads + Wait + Sync>(
    rt: &R,
    alloc: Global,
    source: &mut S,
    sink: &mut K,
    gate: &G,
    workers: usize,
    memo: usize,
) -> Status
    requires few_workers { (1 ≤ workers) × (workers ≤ 64) }
    ensures words { result ≢ Status.Usage }
    ensures run { IsRun S.left S.faults K.written K.flushed K.faults (Unit {0}) source.old source.new
        sink.old sink.new result }
{
    let input = match read_all(alloc, source, INPUT_LIMIT) {
        Ok(input) => input,
        Err(ReadAllFault::Failed) => return Status::ReadFault,
        Err(ReadAllFault::TooLong) => return Status::TooLong,
        Err(ReadAllFault::Memory(_)) => return Status::NoMemory,
    };
    let texts = match answer_by_workers(rt, alloc, &input, gate, workers, memo) {
        Ok(texts) => texts,
        Err(ScriptFault::Refused { line, reason }) => return Status::Refused { line, reason },
        Err(ScriptFault::Memory(_)) => return Status::NoMemory,
    };
    put(sink, texts)
}

/// Makes the input of a seed, and writes the summary of its text, by so many workers with a memo of so many entries.
fn make_by_workers<K: Sink, G: Gate, R: Threads + Wait + Sync>(
    rt: &R,
    alloc: Global,
    sink: &mut K,
    gate: &G,
    seed: u64,
    workers: usize,
    memo: usize,
) -> Status
    requires few_workers { (1 ≤ workers) × (workers ≤ 64) }
    ensures words { result ≢ Status.Usage }
    ensures made { IsMade K.written K.flushed K.faults (Unit {0}) seed sink.old sink.new result }
{
    match summarize_by_workers(rt, alloc, gate, seed, workers, memo) {
        Ok(texts) => put(sink, texts),
        Err(_) => Status::NoMemory,
    }
}
