//! Reading numbers and fractions from the bytes of a word.
ghost use Rattle.std.specs.Prelude.{◌≡◌, ◌+◌, ◌-◌, ◌*◌, ◌≤◌, ◌<◌, ◌==◌, IsTrue, SomeIff, IfSome, IfOk, position, option_map, length};
ghost use Rattle.std.specs.Int.{IsInRange};
ghost use Rattle.std.specs.Option.{ForSome};
ghost use Rattle.std.specs.Result.{result_ok};
ghost use Rattle.bs_frac.specs.Fraction.{IsReduced};
ghost use Rattle.bs_frac.specs.Checked.{largest, IsWithin};
ghost use Rattle.bs_frac.specs.Text.{number_within, has_number_start, magnitudes_of, both, fraction_of, reduced_of, signed_pair, starts_with_minus};

use crate::frac::{Frac, M};

/// The word is not a fraction, or one of its numbers exceeds `M`.
#[derive(Clone, Copy, PartialEq, Eq, Debug)]
pub struct BadFraction;

impl Frac {
    /// The fraction that a word writes, reduced: an optional `-`, a number, and optionally `/` and a
    /// number that is not 0. A number is `0`, or a digit 1 to 9 and any digits, and at most `M`.
    pub fn read(word: &[u8]) -> Result<Frac, BadFraction>
        ensures value { result_ok result ≡ fraction_of word.now }
        ensures reduced { IfOk result (λ z. IsReduced z) }
        ensures within { IfOk result (λ z. IsWithin z) }
    {
        if starts_with_minus(word) {
            reduced(true, magnitudes(&word[1..]))
        } else {
            reduced(false, magnitudes(word))
        }
    }
}

fn starts_with_minus(word: &[u8]) -> bool
    ensures minus { result ≡ starts_with_minus word.now }
    ensures some { IsTrue result → 0 < length word.now }
{
    !word.is_empty() && word[0] == b'-'
}

/// The reduced fraction of a sign and two magnitudes, where there are some.
fn reduced(negative: bool, parts: Option<(u128, u128)>) -> Result<Frac, BadFraction>
    requires { ForSome parts (λ p. (p.0 ≤ largest) × (p.1 ≤ largest) × (0 < p.1)) }
    ensures value { result_ok result ≡ option_map reduced_of (option_map (signed_pair negative) parts) }
    ensures reduced { IfOk result (λ z. IsReduced z) }
    ensures within { IfOk result (λ z. IsWithin z) }
{
    let Some((num, den)) = parts else {
        return Err(BadFraction);
    };
    match Frac::new(negative, num, den) {
        Ok(value) => Ok(value),
        Err(_) => Err(BadFraction),
    }
}

/// The value followed by one more digit, where the byte is a digit and the limit is kept.
fn with_digit(value: u128, byte: u8, limit: u128) -> Option<u128>
    ensures { SomeIff result (IsInRange 48 57 byte × (value * 10 + (byte - 48) ≤ limit)) (value * 10 + (byte - 48)) }
{
    if byte < b'0' || byte > b'9' {
        return None;
    }
    match value.checked_mul(10) {
        Some(tens) => match tens.checked_add(u128::from(byte - b'0')) {
            Some(next) if next <= limit => Some(next),
            _ => None,
        },
        None => None,
    }
}

/// Neither empty nor with a zero in front of other digits.
fn starts_well(word: &[u8]) -> bool
    ensures { result ≡ has_number_start word.now }
{
    !word.is_empty() && (word[0] != b'0' || word.len() <= 1)
}

/// The number that the word writes, of any length, without a leading zero; None where it exceeds the
/// limit or the word is no number.
pub fn number_within(word: &[u8], limit: u128) -> Option<u128>
    ensures value { result ≡ number_within limit word.now }
    ensures limit { ForSome result (λ n. n ≤ limit) }
{
    if !starts_well(word) {
        return None;
    }
    let mut value: u128 = 0;
    'bytes: for byte in word {
        let Some(next) = with_digit(value, *byte, limit) else {
            return None;
        };
        value = next;
    }
    Some(value)
}

/// The place of the first slash.
fn slash_at(word: &[u8]) -> Option<usize>
    ensures place { result ≡ position (λ b. b == 47) word.now }
    ensures within { IfSome result (λ at. at < length word.now) }
{
    word.iter().position(|byte| *byte == b'/')
}

/// A numerator over 1.
fn whole(num: Option<u128>) -> Option<(u128, u128)>
    requires { ForSome num (λ n. n ≤ largest) }
    ensures value { result ≡ option_map (λ n. (n, 1)) num }
    ensures limit { ForSome result (λ p. (p.0 ≤ largest) × (p.1 ≤ largest) × (0 < p.1)) }
{
    match num {
        None => None,
        Some(num) => Some((num, 1)),
    }
}

/// Both numbers, where the second is not 0.
fn both_of(num: Option<u128>, den: Option<u128>) -> Option<(u128, u128)>
    requires num { ForSome num (λ n. n ≤ largest) }
    requires den { ForSome den (λ d. d ≤ largest) }
    ensures value { result ≡ both num den }
    ensures limit { ForSome result (λ p. (p.0 ≤ largest) × (p.1 ≤ largest) × (0 < p.1)) }
{
    match (num, den) {
        (Some(_), Some(0)) => None,
        (Some(num), Some(den)) => Some((num, den)),
        _ => None,
    }
}

/// A NUMBER, or two with a slash between them of which the second is not 0.
fn magnitudes(word: &[u8]) -> Option<(u128, u128)>
    ensures value { result ≡ magnitudes_of word.now }
    ensures limit { ForSome result (λ p. (p.0 ≤ largest) × (p.1 ≤ largest) × (0 < p.1)) }
{
    match slash_at(word) {
        None => whole(number_within(word, M)),
        Some(slash) => both_of(
            number_within(&word[..slash], M),
            number_within(&word[slash + 1..], M),
        ),
    }
}
