//! A source of bytes, and reading it to its end.

ghost use Rattle.std.specs.Prelude.{◌≡◌, ◌≢◌, ◌^◌, ℕ, ◌+◌, ◌-◌, ◌<◌, ◌≤◌, List, [], ◌++◌, length, take, Option, Some, IfOk, OnOk, OnErr, IfSome, IsOkUnless, vec_len, alloc_error};
ghost use Rattle.bs_io.specs.Outside.{Rose, NoFault, Leaves, TakesExactly, TakesAtMost};

use crate::Failed;
use std::alloc::{AllocError, Global};

/// What gives bytes, in pieces of any size, until it is at its end.
pub trait Source {
    /// The bytes still to come, where the source tells them.
    ghost left: { Self → Option (List ℕ) };

    /// The number of faults so far. It never falls, and stands still at the greatest `u64`.
    ghost faults: { Self → ℕ };

    /// Reads some bytes into the front of `buf`, and says how many: 0 only at the end, or where `buf` is empty.
    fn read(&mut self, buf: &mut [u8]) -> Result<usize, Failed>
        ensures failed { OnErr result (Rose (faults self.old) (faults self.new)) }
        ensures stays { OnErr result (left self.new ≡ left self.old) }
        ensures calm { OnOk result (faults self.new ≡ faults self.old) }
        ensures never_falls { faults self.old ≤ faults self.new }
        ensures within { IfOk result (λ n. n ≤ length buf.old) }
        ensures gives { IfOk result (λ n. Leaves (left self.old) (take n buf.new) (left self.new)) }
        ensures end { IfOk result (λ n. n ≡ 0 → 0 < length buf.old → IfSome (left self.old) (λ bytes. bytes ≡ [])) };
}

/// Why a source was not read to its end.
#[derive(Debug, Drop)]
pub enum ReadAllFault {
    /// The source failed.
    Failed,
    /// The source gave more bytes than the limit.
    TooLong,
    /// Memory ran out.
    Memory(AllocError),
}

impl From<AllocError> for ReadAllFault {
    ghost use Rattle.bs_io.specs.declared.source.ReadAllFault.TheVariants.{Memory};

    ghost from_gives = { λ cause e. e ≡ Memory cause };

    fn from(cause: AllocError) -> ReadAllFault {
        ReadAllFault::Memory(cause)
    }
}

impl From<Failed> for ReadAllFault {
    ghost use Rattle.bs_io.specs.declared.source.ReadAllFault.TheVariants.{Failed};

    ghost from_gives = { λ _ e. e ≡ Failed };

    fn from(_: Failed) -> ReadAllFault {
        ReadAllFault::Failed
    }
}

/// How many bytes the next read may take: at most 4,096, and none beyond one more than the limit.
fn room(limit: usize, taken: usize) -> usize
    requires within { taken ≤ limit }
    requires limit { limit < 2 ^ 64 - 1 }
    ensures some { 0 < result }
    ensures chunk { result ≤ 4096 }
    ensures total { taken + result ≤ limit + 1 }
{
    (limit + 1 - taken).min(4096)
}

/// Reads once more, and adds what was read; how many bytes it was. What goes beyond the limit is not kept.
fn read_more<S: Source>(
    source: &mut S,
    chunk: &mut [u8],
    out: &mut Vec<u8>,
    limit: usize,
) -> Result<usize, ReadAllFault>
    requires chunk { length chunk.old ≡ 4096 }
    requires within { vec_len out.old ≤ limit }
    requires limit { limit < 2 ^ 64 - 1 }
    ensures added { IfOk result (λ n. (added : List ℕ) × (out.new.items ≡ out.old.items ++ added) × (length added ≡ n) × Leaves (S.left source.old) added (S.left source.new)) }
    ensures total { IfOk result (λ n. vec_len out.new ≡ vec_len out.old + n) }
    ensures most { OnOk result (vec_len out.new ≤ limit) }
    ensures end { IfOk result (λ n. n ≡ 0 → IfSome (S.left source.old) (λ bytes. bytes ≡ [])) }
    ensures calm { result ≢ Err ReadAllFault.Failed → S.faults source.new ≡ S.faults source.old }
    ensures failed { result ≡ Err ReadAllFault.Failed → Rose (S.faults source.old) (S.faults source.new) }
    ensures never_falls { S.faults source.old ≤ S.faults source.new }
    ensures too_long { result ≡ Err ReadAllFault.TooLong → TakesExactly (S.left source.old) (limit + 1 - vec_len out.old) (S.left source.new) }
    ensures at_most { result ≢ Err ReadAllFault.TooLong → TakesAtMost (S.left source.old) (limit - vec_len out.old) (S.left source.new) }
{
    let room = room(limit, out.len());
    let n = source.read(&mut chunk[..room])?;
    if n > limit - out.len() {
        return Err(ReadAllFault::TooLong);
    }
    out.extend_from_slice(&chunk[..n])?;
    Ok(n)
}

/// Reads to the end, and takes at most one byte more than the limit. The time is linear in the bytes and calls, and the
/// vector holds at most about twice the bytes: it grows by doubling.
pub fn read_all<S: Source>(
    alloc: Global,
    source: &mut S,
    limit: usize,
) -> Result<Vec<u8>, ReadAllFault>
    requires { limit < 2 ^ 64 - 1 }
    ensures all { IfOk result (λ v. IfSome (S.left source.old) (λ bytes. (bytes ≡ v.items) × (S.left source.new ≡ Some []))) }
    ensures within { IfOk result (λ v. vec_len v ≤ limit) }
    ensures calm { result ≢ Err ReadAllFault.Failed → S.faults source.new ≡ S.faults source.old }
    ensures failed { result ≡ Err ReadAllFault.Failed → Rose (S.faults source.old) (S.faults source.new) }
    ensures never_falls { S.faults source.old ≤ S.faults source.new }
    ensures too_long { result ≡ Err ReadAllFault.TooLong → TakesExactly (S.left source.old) (limit + 1) (S.left source.new) }
    ensures at_most { result ≢ Err ReadAllFault.TooLong → TakesAtMost (S.left source.old) limit (S.left source.new) }
    ensures complete { NoFault (S.faults source.old) (S.faults source.new) → IfSome (S.left source.old) (λ bytes. length bytes ≤ limit → IsOkUnless result (ReadAllFault.Memory alloc_error)) }
{
    let mut out = Vec::new(alloc);
    let mut chunk = [0; 4096];
    'reads: while read_more(source, &mut chunk, &mut out, limit)? > 0 {}
    Ok(out)
}
