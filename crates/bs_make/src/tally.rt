//! Telling the numbers of a text, which comes in pieces. A contract sees a `Tally` as the record of its numbers.

ghost use Rattle.std.specs.Prelude.{◌≡◌, ◌+◌, ◌<◌, ◌≤◌, ◌^◌, ◌==◌, if◌then◌else◌, length, flat_map};
ghost use Rattle.bs_make.specs.Tally.{nothing_read, matched_on, read_on, read_all};

use std::marker::Model;

/// What an error's line begins with.
const ERROR: [u8; 6] = *b"error ";

/// The place of a byte in a line that is no error's.
const ELSEWHERE: usize = 7;

/// How many bytes of `ERROR` a line consists of, where it did of so many before this byte.
#[tactic(auto, unfolding(crate::specs::Tally::matched_on))]
fn matched_on(matched: usize, byte: u8) -> usize
    ensures { result ≡ matched_on matched byte }
{
    if byte == b'\n' {
        0
    } else if matched < ERROR.len() && byte == ERROR[matched] {
        matched + 1
    } else {
        ELSEWHERE
    }
}

/// 1 where the whole of `ERROR` was just matched, else 0.
fn found_at(matched: usize) -> u128
    ensures found { result ≡ (if matched == 6 then 1 else 0) }
    ensures at_most_one { result ≤ 1 }
{
    if matched == ERROR.len() { 1 } else { 0 }
}

#[derive(Drop)]
pub struct Tally {
    bytes: u128,
    errors: u128,
    folding: u64,
    matched: usize,
}

impl Model for Tally {
    ghost use Rattle.std.specs.Prelude.{◌≤◌};
    ghost use Rattle.bs_make.specs.Tally.{Tally};

    ghost Value = { Tally };

    ghost view = { λ a. record { bytes = a.bytes; errors = a.errors; folding = a.folding; matched = a.matched } };

    ghost invariant = { λ a. a.errors ≤ a.bytes };
}

impl Tally {
    pub fn new() -> Tally
        ensures { result ≡ nothing_read }
    {
        Tally {
            bytes: 0,
            errors: 0,
            folding: 0,
            matched: 0,
        }
    }

    pub fn bytes(&self) -> u128
        ensures { result ≡ self.now.bytes }
    {
        self.bytes
    }

    pub fn errors(&self) -> u128
        ensures { result ≡ self.now.errors }
    {
        self.errors
    }

    pub fn folding(&self) -> u64
        ensures { result ≡ self.now.folding }
    {
        self.folding
    }

    /// Reads one more byte.
    #[tactic(auto, unfolding(crate::specs::Tally::read_on))]
    fn read_byte(&mut self, byte: u8)
        requires { self.old.bytes + 1 < 2 ^ 128 }
        ensures { self.new ≡ read_on self.old byte }
    {
        self.bytes += 1;
        self.folding = self.folding.wrapping_mul(31).wrapping_add(u64::from(byte));
        self.matched = matched_on(self.matched, byte);
        self.errors += found_at(self.matched);
    }

    /// Reads one more piece.
    #[tactic(auto, using(std::proofs::lemmas::List::Sums::fold_more, crate::proofs::Told::bytes_on))]
    pub fn read(&mut self, piece: &[u8])
        requires { self.old.bytes + length piece.now < 2 ^ 128 }
        ensures { self.new ≡ read_all self.old piece.now }
    {
        'bytes: for byte in piece {
            self.read_byte(*byte);
        }
    }

    /// The tally of a text in pieces.
    #[tactic(auto, using(crate::proofs::Told::read_more, crate::proofs::Told::bytes_more))]
    pub fn of(pieces: &[Vec<u8>]) -> Tally
        ensures { result ≡ read_all nothing_read (flat_map (λ piece. piece.items) pieces.now) }
    {
        let mut tally = Tally::new();
        'pieces: for piece in pieces {
            tally.read(piece);
        }
        tally
    }
}
