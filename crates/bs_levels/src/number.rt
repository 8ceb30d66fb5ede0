//! One number in decimal digits.

ghost use Rattle.std.specs.Prelude.{◌≡◌, ◌+◌, ◌-◌, ◌*◌, ◌≤◌, SomeIff};
ghost use Rattle.std.specs.Int.{IsInRange};
ghost use Rattle.bs_levels.specs.Words.{number_within, has_number_start};

/// The value followed by one more digit, where the byte is a digit and the limit is kept.
fn with_digit(value: u8, byte: u8, limit: u8) -> Option<u8>
    ensures { SomeIff result (IsInRange 48 57 byte × (value * 10 + (byte - 48) ≤ limit)) (value * 10 + (byte - 48)) }
{
    if byte < b'0' || byte > b'9' {
        return None;
    }
    let next = u16::from(value) * 10 + u16::from(byte - b'0');
    if next > u16::from(limit) {
        return None;
    }
    Some(next as u8)
}

/// Neither empty nor with a zero in front of other bytes.
fn starts_well(word: &[u8]) -> bool
    ensures { result ≡ has_number_start word.now }
{
    !word.is_empty() && (word[0] != b'0' || word.len() <= 1)
}

/// A number without a leading zero and at most `limit`, or None.
pub(crate) fn read_number(word: &[u8], limit: u8) -> Option<u8>
    ensures { result ≡ number_within limit word.now }
{
    if !starts_well(word) {
        return None;
    }
    let mut value: u8 = 0;
    'bytes: for byte in word {
        let Some(next) = with_digit(value, *byte, limit) else {
            return None;
        };
        value = next;
    }
    Some(value)
}
