//! The lines of an input, one after another. A contract sees a `Lines` as the lines that are left, and how many came
//! before them.

ghost use Rattle.std.specs.Prelude.{IfNone, ◌≡◌, ℕ, ◌^◌, ◌+◌, ◌-◌, ◌<◌, ◌≤◌, List, [], ◌∷◌, ◌==◌, length, Some, IfSome, MatchOption, drop, EachIndex, slice_index, ◌≢◌};
ghost use Rattle.bs_script.specs.Lines.{lines, without_return, start_of, IsFeedAt, IsNext, kept, last};

use crate::words::is_skipped;
use memchr::memchr;
use std::marker::Model;

/// The place of the first line feed.
fn feed_at(bytes: &[u8]) -> Option<usize>
    ensures { MatchOption result (EachIndex bytes.now (λ k. slice_index bytes.now k ≢ 10)) (λ at. IsFeedAt bytes.now at) }
{
    memchr(b'\n', bytes)
}

/// The first line, and the bytes after it and its line feed.
fn first_line(bytes: &[u8]) -> (&[u8], &[u8])
    requires { 0 < length bytes.now }
    ensures lines { lines bytes.now ≡ result.0.now ∷ lines result.1.now }
    ensures shorter { length result.1.now < length bytes.now }
{
    match feed_at(bytes) {
        Some(at) => (&bytes[..at], &bytes[at + 1..]),
        None => (bytes, &bytes[bytes.len()..]),
    }
}

/// The line without a carriage return at its end.
fn body_of(line: &[u8]) -> &[u8]
    ensures { result.now ≡ without_return line.now }
{
    match line.strip_suffix(b"\r") {
        Some(front) => front,
        None => line,
    }
}

/// The input's lines that are left, and how many were given.
#[derive(Drop)]
pub struct Lines<'a> {
    rest: &'a [u8],
    given: u64,
}

impl<'a> Model for Lines<'a> {
    ghost use Rattle.bs_script.specs.Lines.{Ahead, lines};
    ghost use Rattle.std.specs.Prelude.{◌+◌, ◌<◌, ◌^◌, length};

    ghost Value = { Ahead };

    ghost view = { λ a. record { left = lines a.rest.now; given = a.given } };

    ghost invariant = { λ a. a.given + length a.rest.now < 2 ^ 64 };
}

impl<'a> Lines<'a> {
    pub fn new(bytes: &'a [u8]) -> Lines<'a>
        ensures { result ≡ start_of bytes.now }
    {
        Lines {
            rest: bytes,
            given: 0,
        }
    }

    /// The number of lines that were given.
    pub fn given(&self) -> u64
        ensures { result ≡ self.now.given }
    {
        self.given
    }

    /// The next line, without its carriage return; None at the end.
    fn next_line(&mut self) -> Option<&'a [u8]>
        ensures { MatchOption result ((self.old.left ≡ []) × (self.new ≡ self.old)) (λ line. IsNext self.old line.now self.new) }
    {
        if self.rest.is_empty() {
            return None;
        }
        let (line, rest) = first_line(self.rest);
        self.rest = rest;
        self.given += 1;
        Some(body_of(line))
    }

    /// The next line that is not skipped, with its number; None at the end.
    pub fn next(&mut self) -> Option<(u64, &'a [u8])>
        ensures kept { MatchOption result ((kept self.old ≡ []) × (self.new.given ≡ last self.old)) (λ line. kept self.old ≡ (line.0, line.1.now) ∷ kept self.new) }
        ensures last { last self.new ≡ last self.old }
        ensures shorter { IfSome result (λ line. length self.new.left < length self.old.left) }
        ensures end { IfNone result (self.new.left ≡ []) }
    {
        'lines: while let Some(line) = self.next_line() {
            if !is_skipped(line) {
                return Some((self.given, line));
            }
        }
        None
    }
}
