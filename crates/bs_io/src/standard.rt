//! A source and a sink over the system's streams. They tell no bytes: no clause can say what a terminal or a pipe gave or
//! took. A contract sees of each the number of its faults.
//!
//! A program's `main` makes them over the standard streams:
//!
//! ```text
//! let mut source = StdSource::new(rt.stdin());
//! let mut sink = StdSink::new(rt.stdout());
//! let mut errs = StdSink::new(rt.stderr());
//! ```

ghost use Rattle.std.specs.Prelude.{◌≡◌, ◌<◌, ◌≤◌, length, None, IfOk, OnOk, OnErr};
ghost use Rattle.bs_io.specs.Outside.{one_more};

use crate::count::raised;
use crate::{Failed, Sink, Source};
use std::io::{Read, Write};
use std::marker::Model;

/// A source over a reader. Each `Err` of the reader is a fault.
#[derive(Drop)]
pub struct StdSource<R> {
    inner: R,
    faults: u64,
}

impl<R> Model for StdSource<R> {
    ghost use Rattle.std.specs.Prelude.{ℕ};

    ghost Value = { ℕ };

    ghost view = { λ s. s.faults };
}

impl<R: Read> StdSource<R> {
    /// A source with no faults so far.
    pub fn new(inner: R) -> StdSource<R>
        ensures { result ≡ 0 }
    {
        StdSource { inner, faults: 0 }
    }
}

impl<R: Read> Source for StdSource<R> {
    ghost left = { λ _. None };

    ghost faults = { λ s. s };

    /// Reads once. The number of faults rises by one at each `Err`.
    fn read(&mut self, buf: &mut [u8]) -> Result<usize, Failed>
        ensures counted { OnErr result (self.new ≡ one_more self.old) }
        ensures calm { OnOk result (self.new ≡ self.old) }
        ensures never_falls { self.old ≤ self.new }
        ensures within { IfOk result (λ n. n ≤ length buf.old) }
    {
        match self.inner.read(buf) {
            Ok(n) => Ok(n),
            Err(_) => {
                self.faults = raised(self.faults);
                Err(Failed)
            }
        }
    }
}

/// A sink over a writer. Each `Err` of the writer is a fault, and so is a write that takes nothing of a piece that isn't
/// empty.
#[derive(Drop)]
pub struct StdSink<W> {
    inner: W,
    faults: u64,
}

impl<W> Model for StdSink<W> {
    ghost use Rattle.std.specs.Prelude.{ℕ};

    ghost Value = { ℕ };

    ghost view = { λ s. s.faults };
}

impl<W: Write> StdSink<W> {
    /// A sink with no faults so far.
    pub fn new(inner: W) -> StdSink<W>
        ensures { result ≡ 0 }
    {
        StdSink { inner, faults: 0 }
    }
}

impl<W: Write> Sink for StdSink<W> {
    ghost written = { λ _. None };

    ghost flushed = { λ _. None };

    ghost faults = { λ s. s };

    /// Writes once. The number of faults rises by one at each `Err`.
    fn write(&mut self, piece: &[u8]) -> Result<usize, Failed>
        ensures counted { OnErr result (self.new ≡ one_more self.old) }
        ensures calm { OnOk result (self.new ≡ self.old) }
        ensures never_falls { self.old ≤ self.new }
        ensures within { IfOk result (λ n. n ≤ length piece.now) }
        ensures some { IfOk result (λ n. 0 < length piece.now → 0 < n) }
    {
        match self.inner.write(piece) {
            Ok(n) if n > 0 || piece.is_empty() => Ok(n),
            _ => {
                self.faults = raised(self.faults);
                Err(Failed)
            }
        }
    }

    /// Flushes once. The number of faults rises by one at each `Err`.
    fn flush(&mut self) -> Result<(), Failed>
        ensures counted { OnErr result (self.new ≡ one_more self.old) }
        ensures calm { OnOk result (self.new ≡ self.old) }
        ensures never_falls { self.old ≤ self.new }
    {
        match self.inner.flush() {
            Ok(()) => Ok(()),
            Err(_) => {
                self.faults = raised(self.faults);
                Err(Failed)
            }
        }
    }
}
