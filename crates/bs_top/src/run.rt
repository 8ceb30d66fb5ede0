//! The top call by one thread: bytes to bytes.

ghost use Rattle.std.specs.Prelude.{◌≡◌, ◌≢◌, ◌≤◌, ◌⊎◌, ℕ, [], true, None, Some, flat_map, OnOk, OnErr};
ghost use Rattle.bs_io.specs.Outside.{Rose, Adds, AddsFront};
ghost use Rattle.bs_top.specs.ErrorLines.{error_line};
ghost use Rattle.bs_top.specs.Made.{IsMade};
ghost use Rattle.bs_top.specs.Run.{IsFlushed, IsRun, Reports, joined};
ghost use Rattle.bs_words.specs.Words.{accepts, faults, seed_of, texts};

use crate::made::summarize_alone;
use crate::status::Status;
use crate::text::answer_alone;
use bs_io::{Failed, ReadAllFault, Sink, Source, read_all, write_all};
use bs_script::ScriptFault;
use bs_words::{WordsFault, read_words};
use itoa::Buffer;
use std::alloc::Global;

/// The longest input, in bytes.
pub const INPUT_LIMIT: usize = 16_777_216;

/// Reads the words and the input, and writes the input's text to the sink, or one line on errs, all by this thread.
/// Where the words give a seed, the input is made of it and not read, and the summary of its text is written.
///
/// The stages come in this order: the words, the reading, the grammar, the sessions, the writing. All of the text
/// is gathered before its first byte is written, and it is flushed once. What errs answers changes nothing.
/// Memory is taken for the words, for the input and for its text, and none for the line on errs.
pub fn run_alone<S: Source, K: Sink, E: Sink>(
    alloc: Global,
    words: &[String],
    source: &mut S,
    sink: &mut K,
    errs: &mut E,
) -> Status
    // The words decide first.
    ensures usage_only_at_a_fault { result ≡ Status.Usage → faults (texts words.now) ≢ [] }
    ensures fault_is_told { faults (texts words.now) ≢ [] → (result ≡ Status.Usage) ⊎ (result ≡ Status.NoMemory) }
    ensures accepted_words_are_no_usage { accepts (texts words.now) ≡ true → result ≢ Status.Usage }
    ensures usage_source { result ≡ Status.Usage → source.new ≡ source.old }

    // What the status says of the bytes and the faults, and which status comes, where the input is read and where it
    // is made.
    ensures run { seed_of (texts words.now) ≡ None → IsRun S.left S.faults K.written K.flushed K.faults
        (faults (texts words.now) ≡ []) source.old source.new sink.old sink.new result }
    ensures made { (seed : ℕ) → seed_of (texts words.now) ≡ Some seed → IsMade K.written K.flushed K.faults
        (faults (texts words.now) ≡ []) seed sink.old sink.new result }
    ensures made_source { (seed : ℕ) → seed_of (texts words.now) ≡ Some seed → source.new ≡ source.old }

    // The line on errs.
    ensures errs_line { Reports (E.written errs.old) (E.faults errs.old) (error_line result)
        (E.written errs.new) (E.faults errs.new) }
    ensures errs_unflushed { E.flushed errs.new ≡ E.flushed errs.old }
    ensures errs_silent { result ≡ Status.Done → errs.new ≡ errs.old }
{
    let status = obey_alone(alloc, words, source, sink);
    let _ = report(errs, &status);
    status
}

/// Reads the words, and does what they say by this thread.
fn obey_alone<S: Source, K: Sink>(
    alloc: Global,
    words: &[String],
    source: &mut S,
    sink: &mut K,
) -> Status
    ensures usage_only_at_a_fault { result ≡ Status.Usage → faults (texts words.now) ≢ [] }
    ensures fault_is_told { faults (texts words.now) ≢ [] → (result ≡ Status.Usage) ⊎ (result ≡ Status.NoMemory) }
    ensures accepted_words_are_no_usage { accepts (texts words.now) ≡ true → result ≢ Status.Usage }
    ensures usage_source { result ≡ Status.Usage → source.new ≡ source.old }
    ensures run { seed_of (texts words.now) ≡ None → IsRun S.left S.faults K.written K.flushed K.faults
        (faults (texts words.now) ≡ []) source.old source.new sink.old sink.new result }
    ensures made { (seed : ℕ) → seed_of (texts words.now) ≡ Some seed → IsMade K.written K.flushed K.faults
        (faults (texts words.now) ≡ []) seed sink.old sink.new result }
    ensures made_source { (seed : ℕ) → seed_of (texts words.now) ≡ Some seed → source.new ≡ source.old }
{
    match read_words(alloc, words) {
        Ok(options) => serve_alone(alloc, source, sink, options.seed),
        Err(fault) => without_words(fault),
    }
}

/// How a run ends whose words give no options.
pub(crate) fn without_words(fault: WordsFault) -> Status
    ensures usage { fault ≡ WordsFault.Usage → result ≡ Status.Usage }
    ensures memory { fault ≢ WordsFault.Usage → result ≡ Status.NoMemory }
{
    match fault {
        WordsFault::Usage => Status::Usage,
        WordsFault::Memory(_) => Status::NoMemory,
    }
}

/// Reads the input, or makes it where there is a seed, by this thread.
pub(crate) fn serve_alone<S: Source, K: Sink>(
    alloc: Global,
    source: &mut S,
    sink: &mut K,
    seed: Option<u64>,
) -> Status
    ensures words { result ≢ Status.Usage }
    ensures run { seed ≡ None → IsRun S.left S.faults K.written K.flushed K.faults (Unit {0}) source.old source.new
        sink.old sink.new result }
    ensures made { (given : ℕ) → seed ≡ Some given → IsMade K.written K.flushed K.faults (Unit {0}) given
        sink.old sink.new result }
    ensures made_source { (given : ℕ) → seed ≡ Some given → source.new ≡ source.old }
{
    match seed {
        Some(seed) => make(alloc, sink, seed),
        None => run(alloc, source, sink),
    }
}

/// Makes the input of a seed, and writes the summary of its text, by this thread.
fn make<K: Sink>(alloc: Global, sink: &mut K, seed: u64) -> Status
    ensures words { result ≢ Status.Usage }
    ensures made { IsMade K.written K.flushed K.faults (Unit {0}) seed sink.old sink.new result }
{
    match summarize_alone(alloc, seed) {
        Ok(texts) => put(sink, texts),
        Err(_) => Status::NoMemory,
    }
}

/// Reads the input, and writes its text, by this thread.
pub(crate) fn run<S: Source, K: Sink>(alloc: Global, source: &mut S, sink: &mut K) -> Status
    ensures words { result ≢ Status.Usage }
    ensures run { IsRun S.left S.faults K.written K.flushed K.faults (Unit {0}) source.old source.new
        sink.old sink.new result }
{
    let input = match read_all(alloc, source, INPUT_LIMIT) {
        Ok(input) => input,
        Err(ReadAllFault::Failed) => return Status::ReadFault,
        Err(ReadAllFault::TooLong) => return Status::TooLong,
        Err(ReadAllFault::Memory(_)) => return Status::NoMemory,
    };
    let texts = match answer_alone(alloc, &input) {
        Ok(texts) => texts,
        Err(ScriptFault::Refused { line, reason }) => return Status::Refused { line, reason },
        Err(ScriptFault::Memory(_)) => return Status::NoMemory,
    };
    put(sink, texts)
}

/// Writes all texts, one after another, and flushes.
pub(crate) fn put<K: Sink>(sink: &mut K, texts: Vec<Vec<u8>>) -> Status
    ensures either { (result ≡ Status.Done) ⊎ (result ≡ Status.WriteFault) }
    ensures done { result ≡ Status.Done → Adds (K.written sink.old) (joined texts.items) (K.written sink.new) }
    ensures done_flushed { result ≡ Status.Done → IsFlushed (K.written sink.new) (K.flushed sink.new) }
    ensures fault { result ≡ Status.WriteFault → Rose (K.faults sink.old) (K.faults sink.new) }
    ensures fault_front { result ≡ Status.WriteFault → AddsFront (K.written sink.old) (joined texts.items) (K.written sink.new) }
    ensures fault_unflushed { result ≡ Status.WriteFault → K.flushed sink.new ≡ K.flushed sink.old }
    ensures calm { result ≢ Status.WriteFault → K.faults sink.new ≡ K.faults sink.old }
{
    if write_texts(sink, &texts).is_err() {
        return Status::WriteFault;
    }
    match sink.flush() {
        Ok(()) => Status::Done,
        Err(Failed) => Status::WriteFault,
    }
}

/// Writes the texts one after another.
fn write_texts<K: Sink>(sink: &mut K, texts: &[Vec<u8>]) -> Result<(), Failed>
    ensures all { OnOk result (Adds (K.written sink.old) (joined texts.now) (K.written sink.new)) }
    ensures calm { OnOk result (K.faults sink.new ≡ K.faults sink.old) }
    ensures failed { OnErr result (Rose (K.faults sink.old) (K.faults sink.new)) }
    ensures front { OnErr result (AddsFront (K.written sink.old) (joined texts.now) (K.written sink.new)) }
    ensures unflushed { K.flushed sink.new ≡ K.flushed sink.old }
{
    'texts: for text in texts {
        write_all(sink, text)?;
    }
    Ok(())
}

/// Writes the pieces one after another.
fn write_pieces<E: Sink>(errs: &mut E, pieces: &[&[u8]]) -> Result<(), Failed>
    ensures all { OnOk result (Adds (E.written errs.old)
        (flat_map (λ piece. piece.now) pieces.now) (E.written errs.new)) }
    ensures calm { OnOk result (E.faults errs.new ≡ E.faults errs.old) }
    ensures failed { OnErr result (Rose (E.faults errs.old) (E.faults errs.new)) }
    ensures front { OnErr result (AddsFront (E.written errs.old)
        (flat_map (λ piece. piece.now) pieces.now) (E.written errs.new)) }
    ensures unflushed { E.flushed errs.new ≡ E.flushed errs.old }
{
    'pieces: for piece in pieces {
        write_all(errs, piece)?;
    }
    Ok(())
}

/// Writes the status's line on errs, in pieces where it has a number, so that it takes no memory. It does not flush.
pub fn report<E: Sink>(errs: &mut E, status: &Status) -> Result<(), Failed>
    ensures all { OnOk result (Adds (E.written errs.old) (error_line status.now) (E.written errs.new)) }
    ensures calm { OnOk result (E.faults errs.new ≡ E.faults errs.old) }
    ensures failed { OnErr result (Rose (E.faults errs.old) (E.faults errs.new)) }
    ensures front { OnErr result (AddsFront (E.written errs.old) (error_line status.now) (E.written errs.new)) }
    ensures unflushed { E.flushed errs.new ≡ E.flushed errs.old }
    ensures silent { status.now ≡ Status.Done → errs.new ≡ errs.old }
{
    let mut digits = Buffer::new();
    match status {
        Status::Done => Ok(()),
        Status::Usage => write_all(
            errs,
            b"usage: bseries [--workers N] [--memo N] [--make SEED]\n",
        ),
        Status::Refused { line, reason } => write_pieces(
            errs,
            &[
                b"bseries: line ",
                digits.format(*line).as_bytes(),
                b": ",
                reason.text().as_bytes(),
                b"\n",
            ],
        ),
        Status::ReadFault => write_all(errs, b"bseries: read failed\n"),
        Status::WriteFault => write_all(errs, b"bseries: write failed\n"),
        Status::NoMemory => write_all(errs, b"bseries: out of memory\n"),
        Status::TooLong => write_all(errs, b"bseries: input too long\n"),
    }
}
