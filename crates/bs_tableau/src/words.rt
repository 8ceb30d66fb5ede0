//! The words of a line. A contract sees a `Words` as the list of the words that are left.

ghost use Rattle.std.specs.Prelude.{◌≡◌, ℕ, ◌+◌, ◌-◌, ◌<◌, ◌≤◌, List, [], ◌∷◌, ◌==◌, false, length, MatchOption, EachIndex, slice_index};
ghost use Rattle.bs_tableau.specs.Words.{words, is_blank, onto_words, IsFirstBlank};

use std::marker::Model;

fn is_blank(byte: u8) -> bool
    ensures { result ≡ is_blank byte }
{
    byte == b' ' || byte == b'\t'
}

/// The place of the first blank.
fn blank_at(text: &[u8]) -> Option<usize>
    ensures { MatchOption result (EachIndex text.now (λ k. is_blank (slice_index text.now k) ≡ false)) (λ at. IsFirstBlank text.now at) }
{
    text.iter().position(|byte| is_blank(*byte))
}

/// The bytes before the first blank, and those after it.
fn first_part(text: &[u8]) -> (&[u8], &[u8])
    requires { 0 < length text.now }
    ensures words { words text.now ≡ onto_words result.0.now (words result.1.now) }
    ensures shorter { length result.1.now < length text.now }
{
    match blank_at(text) {
        Some(at) => (&text[..at], &text[at + 1..]),
        None => (text, &text[text.len()..]),
    }
}

/// The words of a line that are left.
#[derive(Drop)]
pub struct Words<'a> {
    rest: &'a [u8],
}

impl<'a> Model for Words<'a> {
    ghost use Rattle.std.specs.Prelude.{ℕ, List};
    ghost use Rattle.bs_tableau.specs.Words.{words};

    ghost Value = { List (List ℕ) };

    ghost view = { λ a. words a.rest.now };
}

impl<'a> Words<'a> {
    pub fn new(line: &'a [u8]) -> Words<'a>
        ensures { result ≡ words line.now }
    {
        Words { rest: line }
    }

    /// The next word; None after the last.
    pub fn next(&mut self) -> Option<&'a [u8]>
        ensures { MatchOption result (self.old ≡ []) (λ word. self.old ≡ word.now ∷ self.new) }
    {
        'parts: while !self.rest.is_empty() {
            let (word, rest) = first_part(self.rest);
            self.rest = rest;
            if !word.is_empty() {
                return Some(word);
            }
        }
        None
    }

    /// Are just so many words left?
    pub fn has(&self, count: usize) -> bool
        ensures { result ≡ (length self.now == count) }
    {
        let mut words = Words { rest: self.rest };
        'words: for _ in 0..count {
            if words.next().is_none() {
                return false;
            }
        }
        words.next().is_none()
    }
}
