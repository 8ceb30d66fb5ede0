//! A source and a sink in memory, for tests: they tell all that they hold, and fail at the calls that they are told to.
//!
//! A contract sees a `MemSource` as a `Reading` and a `MemSink` as a `Writing`.

ghost use Rattle.std.specs.Prelude.{◌≡◌, ◌≢◌, ◌↔◌, ◌<◌, ◌≤◌, [], length, take, Some, false, true, IfOk, OnOk, OnErr, IsErr};
ghost use Rattle.bs_io.specs.InMemory.{ReadFails, read_count, after_read, after_read_fault, WriteFails, write_count, after_write, after_write_fault, after_flush_fault};

use crate::count::{is_listed, raised};
use crate::{Failed, Sink, Source};
use std::alloc::{AllocError, Global};
use std::marker::Model;

/// A source that gives bytes of its own.
#[derive(Drop)]
pub struct MemSource {
    bytes: Vec<u8>,
    at: usize,
    step: usize,
    fails: Vec<u64>,
    calls: u64,
    faults: u64,
}

impl Model for MemSource {
    ghost use Rattle.std.specs.Prelude.{drop, ◌<◌, ◌≤◌, vec_len};
    ghost use Rattle.bs_io.specs.InMemory.{Reading};

    ghost Value = { Reading };

    ghost view = { λ s. record { left = drop s.at s.bytes.items; step = s.step; fails = s.fails.items; calls = s.calls; faults = s.faults } };

    ghost invariant = { λ s. (s.at ≤ vec_len s.bytes) × (0 < s.step) };
}

impl MemSource {
    /// A source that gives these bytes, at most `step` of them in a call. The calls whose numbers, from 1, are in `fails`
    /// fail.
    pub fn new(bytes: Vec<u8>, step: usize, fails: Vec<u64>) -> MemSource
        requires { step ≢ 0 }
        ensures { result ≡ record { left = bytes.items; step = step; fails = fails.items; calls = 0; faults = 0 } }
    {
        MemSource {
            bytes,
            at: 0,
            step,
            fails,
            calls: 0,
            faults: 0,
        }
    }
}

impl Source for MemSource {
    ghost left = { λ s. Some s.left };

    ghost faults = { λ s. s.faults };

    /// Fails exactly at the listed calls. Else it gives as many bytes as `step`, `buf` and what is left allow.
    fn read(&mut self, buf: &mut [u8]) -> Result<usize, Failed>
        ensures fails { IsErr result ↔ ReadFails self.old }
        ensures count { IfOk result (λ n. n ≡ read_count self.old (length buf.old)) }
        ensures bytes { IfOk result (λ n. take n buf.new ≡ take n self.old.left) }
        ensures after { IfOk result (λ n. self.new ≡ after_read self.old n) }
        ensures after_fault { OnErr result (self.new ≡ after_read_fault self.old) }
        ensures end { IfOk result (λ n. n ≡ 0 → 0 < length buf.old → self.old.left ≡ []) }
        ensures never_falls { self.old.faults ≤ self.new.faults }
    {
        self.calls = raised(self.calls);
        if is_listed(&self.fails, self.calls) {
            self.faults = raised(self.faults);
            return Err(Failed);
        }
        let rest = &self.bytes[self.at..];
        let n = self.step.min(buf.len()).min(rest.len());
        buf[..n].copy_from_slice(&rest[..n]);
        self.at += n;
        Ok(n)
    }
}

/// A sink that keeps the bytes that it takes.
#[derive(Drop)]
pub struct MemSink {
    bytes: Vec<u8>,
    room: usize,
    step: usize,
    fails: Vec<u64>,
    calls: u64,
    flushed: usize,
    cannot_flush: bool,
    faults: u64,
}

impl Model for MemSink {
    ghost use Rattle.std.specs.Prelude.{◌<◌, ◌≤◌, vec_len, vec_capacity};
    ghost use Rattle.bs_io.specs.InMemory.{Writing};

    ghost Value = { Writing };

    ghost view = { λ s. record { bytes = s.bytes.items; room = s.room; step = s.step; fails = s.fails.items; calls = s.calls; flushed = s.flushed; cannot_flush = s.cannot_flush; faults = s.faults } };

    ghost invariant = { λ s. (vec_len s.bytes ≤ s.room) × (s.room ≤ vec_capacity s.bytes) × (0 < s.step) };
}

impl MemSink {
    /// A sink for at most `room` bytes, that takes at most `step` of them in a call. The writes whose numbers, from 1, are
    /// in `fails` fail, and so does a write of a piece that isn't empty while the sink is full.
    pub fn new(
        alloc: Global,
        room: usize,
        step: usize,
        fails: Vec<u64>,
    ) -> Result<MemSink, AllocError>
        requires { step ≢ 0 }
        ensures { IfOk result (λ s. s ≡ record { bytes = []; room = room; step = step; fails = fails.items; calls = 0; flushed = 0; cannot_flush = false; faults = 0 }) }
    {
        Ok(MemSink {
            bytes: Vec::with_capacity(alloc, room)?,
            room,
            step,
            fails,
            calls: 0,
            flushed: 0,
            cannot_flush: false,
            faults: 0,
        })
    }

    /// Each flush fails from then on.
    pub fn fail_flush(&mut self)
        ensures { self.new ≡ record self.old { cannot_flush = true } }
    {
        self.cannot_flush = true;
    }

    /// The bytes that it took.
    pub fn bytes(&self) -> &[u8]
        ensures { result.now ≡ self.now.bytes }
    {
        &self.bytes
    }
}

impl Sink for MemSink {
    ghost written = { λ s. Some s.bytes };

    ghost flushed = { λ s. Some s.flushed };

    ghost faults = { λ s. s.faults };

    /// Fails exactly at the listed writes, and where the piece isn't empty while the sink is full. Else it takes as many
    /// bytes as `step`, the piece and the room allow.
    fn write(&mut self, piece: &[u8]) -> Result<usize, Failed>
        ensures fails { IsErr result ↔ WriteFails self.old piece.now }
        ensures count { IfOk result (λ n. n ≡ write_count self.old (length piece.now)) }
        ensures after { IfOk result (λ n. self.new ≡ after_write self.old (take n piece.now)) }
        ensures after_fault { OnErr result (self.new ≡ after_write_fault self.old) }
        ensures some { IfOk result (λ n. 0 < length piece.now → 0 < n) }
        ensures never_falls { self.old.faults ≤ self.new.faults }
    {
        self.calls = raised(self.calls);
        let room = self.room - self.bytes.len();
        if is_listed(&self.fails, self.calls) || (room == 0 && !piece.is_empty()) {
            self.faults = raised(self.faults);
            return Err(Failed);
        }
        let n = self.step.min(piece.len()).min(room);
        self.bytes.extend_from_slice(&piece[..n]).unwrap();
        Ok(n)
    }

    /// Fails exactly behind `fail_flush`.
    fn flush(&mut self) -> Result<(), Failed>
        ensures fails { IsErr result ↔ (self.old.cannot_flush ≡ true) }
        ensures after { OnOk result (self.new ≡ record self.old { flushed = length self.old.bytes }) }
        ensures after_fault { OnErr result (self.new ≡ after_flush_fault self.old) }
        ensures never_falls { self.old.faults ≤ self.new.faults }
    {
        if self.cannot_flush {
            self.faults = raised(self.faults);
            return Err(Failed);
        }
        self.flushed = self.bytes.len();
        Ok(())
    }
}
