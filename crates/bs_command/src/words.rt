//! The words of a command, where there are as many as it takes.

ghost use Rattle.std.specs.Prelude.{◌≡◌, Some, None, MatchOption, option_copied};
ghost use Rattle.bs_command.specs.Commands.{only, two, one_or_two, two_or_three, none_or_one, three};

use bs_tableau::Words;

/// The only word that is left.
pub(crate) fn only<'a>(mut words: Words<'a>) -> Option<&'a [u8]>
    ensures { MatchOption result (only words.entry ≡ None) (λ word. only words.entry ≡ Some word.now) }
{
    let Some(word) = words.next() else {
        return None;
    };
    if words.has(0) { Some(word) } else { None }
}

/// The only two words that are left.
pub(crate) fn two<'a>(mut words: Words<'a>) -> Option<(&'a [u8], &'a [u8])>
    ensures { MatchOption result (two words.entry ≡ None) (λ pair. two words.entry ≡ Some (pair.0.now, pair.1.now)) }
{
    let (Some(first), Some(second)) = (words.next(), words.next()) else {
        return None;
    };
    if words.has(0) {
        Some((first, second))
    } else {
        None
    }
}

/// Perhaps one word is left, and no more.
pub(crate) fn none_or_one<'a>(mut words: Words<'a>) -> Option<Option<&'a [u8]>>
    ensures { MatchOption result (none_or_one words.entry ≡ None) (λ word. none_or_one words.entry ≡ Some (option_copied word)) }
{
    match words.next() {
        None => Some(None),
        Some(word) if words.has(0) => Some(Some(word)),
        Some(_) => None,
    }
}

/// The only word that is left, and perhaps one more.
pub(crate) fn one_or_two<'a>(mut words: Words<'a>) -> Option<(&'a [u8], Option<&'a [u8]>)>
    ensures { MatchOption result (one_or_two words.entry ≡ None) (λ w. one_or_two words.entry ≡ Some (w.0.now, option_copied w.1)) }
{
    let Some(first) = words.next() else {
        return None;
    };
    match words.next() {
        None => Some((first, None)),
        Some(second) if words.has(0) => Some((first, Some(second))),
        Some(_) => None,
    }
}

/// The only two words that are left, and perhaps one more.
pub(crate) fn two_or_three<'a>(
    mut words: Words<'a>,
) -> Option<(&'a [u8], &'a [u8], Option<&'a [u8]>)>
    ensures { MatchOption result (two_or_three words.entry ≡ None) (λ w. two_or_three words.entry ≡ Some (w.0.now, w.1.now, option_copied w.2)) }
{
    let (Some(first), Some(second)) = (words.next(), words.next()) else {
        return None;
    };
    match words.next() {
        None => Some((first, second, None)),
        Some(third) if words.has(0) => Some((first, second, Some(third))),
        Some(_) => None,
    }
}

/// The only three words that are left.
pub(crate) fn three<'a>(mut words: Words<'a>) -> Option<(&'a [u8], &'a [u8], &'a [u8])>
    ensures { MatchOption result (three words.entry ≡ None) (λ w. three words.entry ≡ Some (w.0.now, w.1.now, w.2.now)) }
{
    let (Some(first), Some(second)) = (words.next(), words.next()) else {
        return None;
    };
    match words.next() {
        Some(third) if words.has(0) => Some((first, second, third)),
        _ => None,
    }
}
