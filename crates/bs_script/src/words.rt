//! Tests of a line and its words.

ghost use Rattle.std.specs.Prelude.{find, not, ◌≡◌, ◌<◌, ◌≤◌, ◌^◌};
ghost use Rattle.std.specs.Option.{ForSome};
ghost use Rattle.bs_tableau.specs.Words.{words, is_blank};
ghost use Rattle.bs_script.specs.Words.{is_bad, has_bad_byte, is_skipped, is_alone, number_to};
ghost use Rattle.std.specs.Prelude.{codes};

use bs_frac::number_within;
use bs_tableau::Words;

fn is_blank(byte: u8) -> bool
    ensures { result ≡ is_blank byte }
{
    byte == b' ' || byte == b'\t'
}

fn is_bad(byte: u8) -> bool
    ensures { result ≡ is_bad byte }
{
    !(is_blank(byte) || (b'!' <= byte && byte <= b'~'))
}

/// The first byte that is no blank.
fn first_filled(line: &[u8]) -> Option<u8>
    ensures { result ≡ find (λ b. not (is_blank b)) line.now }
{
    line.iter().copied().find(|byte| !is_blank(*byte))
}

/// Is the line one of blanks alone, or a comment?
pub fn is_skipped(line: &[u8]) -> bool
    ensures { result ≡ is_skipped line.now }
{
    match first_filled(line) {
        Some(byte) => byte == b'#',
        None => true,
    }
}

/// Has the line a byte that is not allowed? The loop has no way out, so that it goes over many bytes at once.
#[tactic(auto, using(std::proofs::lemmas::List::Folds::list_any_more))]
pub fn has_bad_byte(line: &[u8]) -> bool
    ensures { result ≡ has_bad_byte line.now }
{
    let mut bad = false;
    'bytes: for byte in line {
        bad = bad | is_bad(*byte);
    }
    bad
}

/// Is `end` the line's only word?
pub fn is_end(line: &[u8]) -> bool
    ensures { result ≡ is_alone (codes "end") (words line.now) }
{
    let mut words = Words::new(line);
    match words.next() {
        Some(b"end") => words.has(0),
        _ => false,
    }
}

/// The number from 1 to `most` that the word writes.
pub fn number_to(most: usize, word: &[u8]) -> Option<usize>
    ensures value { result ≡ number_to most word.now }
    ensures within { ForSome result (λ n. (0 < n) × (n ≤ most)) }
{
    match number_within(word, most as u128) {
        Some(n) if n > 0 => Some(n as usize),
        _ => None,
    }
}
