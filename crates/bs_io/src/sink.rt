//! A sink for bytes, and writing all of them.

ghost use Rattle.std.specs.Prelude.{◌≡◌, ℕ, ◌<◌, ◌≤◌, List, length, take, Option, Some, IfOk, OnOk, OnErr, IfSome, IsOk};
ghost use Rattle.bs_io.specs.Outside.{Rose, NoFault, Adds, AddsFront};

use crate::Failed;

/// What takes bytes, in pieces of any size.
pub trait Sink {
    /// The bytes that were written, where the sink tells them.
    ghost written: { Self → Option (List ℕ) };

    /// The length that `written` had at the last flush that answered `Ok`, and 0 before the first.
    ghost flushed: { Self → Option ℕ };

    /// The number of faults so far. It never falls, and stands still at the greatest `u64`.
    ghost faults: { Self → ℕ };

    /// Writes some bytes of the front of `piece`, and says how many: at least one, where there is one.
    fn write(&mut self, piece: &[u8]) -> Result<usize, Failed>
        ensures failed { OnErr result (Rose (faults self.old) (faults self.new)) }
        ensures stays { OnErr result ((written self.new ≡ written self.old) × (flushed self.new ≡ flushed self.old)) }
        ensures calm { OnOk result (faults self.new ≡ faults self.old) }
        ensures never_falls { faults self.old ≤ faults self.new }
        ensures within { IfOk result (λ n. n ≤ length piece.now) }
        ensures some { IfOk result (λ n. 0 < length piece.now → 0 < n) }
        ensures takes { IfOk result (λ n. Adds (written self.old) (take n piece.now) (written self.new)) }
        ensures flushed { flushed self.new ≡ flushed self.old };

    /// Hands on what was written.
    fn flush(&mut self) -> Result<(), Failed>
        ensures failed { OnErr result (Rose (faults self.old) (faults self.new)) }
        ensures calm { OnOk result (faults self.new ≡ faults self.old) }
        ensures never_falls { faults self.old ≤ faults self.new }
        ensures written { written self.new ≡ written self.old }
        ensures flushed { OnOk result (IfSome (written self.old) (λ bytes. flushed self.new ≡ Some (length bytes))) }
        ensures stays { OnErr result (flushed self.new ≡ flushed self.old) };
}

/// Writes all bytes, and does not flush.
pub fn write_all<K: Sink>(sink: &mut K, bytes: &[u8]) -> Result<(), Failed>
    ensures all { OnOk result (Adds (K.written sink.old) bytes.now (K.written sink.new)) }
    ensures calm { OnOk result (K.faults sink.new ≡ K.faults sink.old) }
    ensures failed { OnErr result (Rose (K.faults sink.old) (K.faults sink.new)) }
    ensures never_falls { K.faults sink.old ≤ K.faults sink.new }
    ensures prefix { OnErr result (AddsFront (K.written sink.old) bytes.now (K.written sink.new)) }
    ensures flushed { K.flushed sink.new ≡ K.flushed sink.old }
    ensures complete { NoFault (K.faults sink.old) (K.faults sink.new) → IsOk result }
{
    let mut rest = bytes;
    while !rest.is_empty() {
        let n = sink.write(rest)?;
        rest = &rest[n..];
    }
    Ok(())
}
