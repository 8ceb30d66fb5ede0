//! The parts of a word between its commas.

ghost use Rattle.std.specs.Prelude.{◌≡◌, ◌<◌, [], ◌∷◌, length, IfSome};
ghost use Rattle.std.specs.Option.{option_map_or};
ghost use Rattle.bs_levels.specs.Words.{pieces};

/// The part before the first comma, and what stands behind that comma, if there is one.
pub(crate) fn split_first(word: &[u8]) -> (&[u8], Option<&[u8]>)
    ensures parts { pieces word.now ≡ result.0.now ∷ option_map_or (λ rest. pieces rest.now) result.1 [] }
    ensures shorter { IfSome result.1 (λ rest. length rest.now < length word.now) }
{
    for (at, byte) in word.iter().enumerate() {
        if *byte == b',' {
            return (&word[..at], Some(&word[at + 1..]));
        }
    }
    (word, None)
}
