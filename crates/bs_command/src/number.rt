//! The numbers that the words of a command ask for.

ghost use Rattle.std.specs.Prelude.{◌≡◌, ◌<◌, ◌≤◌, Ok, Err, IfOk, IfErr, option_copied};
ghost use Rattle.std.specs.List.{list_all};
ghost use Rattle.std.specs.Char.{is_ascii_digit};
ghost use Rattle.bs_enum.specs.AllTrees.{trees_to};
ghost use Rattle.bs_enum.specs.Walk.{whole};
ghost use Rattle.bs_frac.specs.Text.{is_number, has_number_start};
ghost use Rattle.bs_command.specs.Asked.{number_from_one, number_to, order_to, colours_to, few_to, order_asked, order_shared, trees_asked};

use crate::error::Error;
use bs_enum::{EnumFault, MAX_TREES, Trees, count_to};
use bs_frac::number_within;
use bs_tree::{COLOURS, MAX_NODES};

/// Why a word does not ask for a number that can be given.
#[derive(Clone, Copy, Debug, PartialEq, Eq)]
pub enum NumberFault {
    /// It is no number from 1.
    NoNumber,
    /// The number is above the limit.
    AboveLimit,
}

fn starts_well(word: &[u8]) -> bool
    ensures { result ≡ has_number_start word.now }
{
    !word.is_empty() && (word[0] != b'0' || word.len() <= 1)
}

fn has_digits(word: &[u8]) -> bool
    ensures { result ≡ list_all is_ascii_digit word.now }
{
    word.iter().all(|byte| b'0' <= *byte && *byte <= b'9')
}

/// Whether the word is a number, of any length, without leading zeros.
fn is_number(word: &[u8]) -> bool
    ensures { result ≡ is_number word.now }
{
    starts_well(word) && has_digits(word)
}

/// The number from 1 to `most` that the word writes.
fn number_to(most: usize, word: &[u8]) -> Result<usize, NumberFault>
    ensures value { result ≡ number_to most (number_from_one word.now) }
    ensures within { IfOk result (λ n. (0 < n) × (n ≤ most)) }
{
    match number_within(word, most as u128) {
        Some(n) if n > 0 => Ok(n as usize),
        None if is_number(word) => Err(NumberFault::AboveLimit),
        _ => Err(NumberFault::NoNumber),
    }
}

/// The number of nodes that a word asks for.
pub(crate) fn order_to(word: &[u8]) -> Result<usize, NumberFault>
    ensures value { result ≡ order_to word.now }
    ensures within { IfOk result (λ n. (0 < n) × (n ≤ MAX_NODES)) }
{
    number_to(MAX_NODES, word)
}

/// The number of colours that a word asks for.
pub(crate) fn colours_to(word: Option<&[u8]>) -> Result<usize, NumberFault>
    ensures value { result ≡ colours_to (option_copied word.entry) }
    ensures within { IfOk result (λ k. (0 < k) × (k ≤ COLOURS)) }
{
    match word {
        Some(word) => number_to(usize::from(COLOURS), word),
        None => Ok(1),
    }
}

/// The order, where the trees to it are at most `most`.
fn few_to(most: u64, colours: usize, order: usize) -> Result<usize, Error>
    requires few { most ≤ MAX_TREES }
    requires few_nodes { order ≤ MAX_NODES }
    requires some_colours { 0 < colours }
    requires few_colours { colours ≤ COLOURS }
    ensures value { result ≡ few_to most colours order }
    ensures within { IfOk result (λ n. (n ≡ order) × (trees_to n colours ≤ most)) }
{
    if count_to(order, colours, most) > most {
        return Err(Error::TooMany);
    }
    Ok(order)
}

/// The order up to which trees with so many colours are gone over.
pub(crate) fn order_asked(most: u64, colours: usize, word: &[u8]) -> Result<usize, Error>
    requires few { most ≤ MAX_TREES }
    requires some_colours { 0 < colours }
    requires few_colours { colours ≤ COLOURS }
    ensures value { result ≡ order_asked most colours (order_to word.now) }
    ensures within { IfOk result (λ n. (0 < n) × (n ≤ MAX_NODES) × (trees_to n colours ≤ most)) }
{
    match order_to(word) {
        Ok(order) => few_to(most, colours, order),
        Err(NumberFault::NoNumber) => Err(Error::Number),
        Err(NumberFault::AboveLimit) => Err(Error::TooLarge),
    }
}

/// The same for trees of both numbers of colours, which have to be one number.
pub(crate) fn order_shared(
    most: u64,
    colours: usize,
    others: usize,
    word: &[u8],
) -> Result<usize, Error>
    requires few { most ≤ MAX_TREES }
    requires some_colours { 0 < others }
    requires few_colours { others ≤ COLOURS }
    ensures value { result ≡ order_shared most colours others (order_to word.now) }
    ensures within { IfOk result (λ n. (0 < n) × (n ≤ MAX_NODES) × (trees_to n others ≤ most) × (colours ≡ others)) }
{
    match order_to(word) {
        Err(NumberFault::NoNumber) => Err(Error::Number),
        _ if colours != others => Err(Error::Colours),
        Err(NumberFault::AboveLimit) => Err(Error::TooLarge),
        Ok(order) => few_to(most, others, order),
    }
}

/// The trees that the two words ask for: their order, and the number of their colours.
pub(crate) fn trees_asked(order: &[u8], colours: Option<&[u8]>) -> Result<Trees, Error>
    ensures asked { IfOk result (λ trees. trees_asked (order_to order.now) (colours_to (option_copied colours.entry)) ≡ Ok (trees.order, trees.colours)) }
    ensures whole { IfOk result (λ trees. trees ≡ whole trees.order trees.colours) }
    ensures refused { IfErr result (λ error. trees_asked (order_to order.now) (colours_to (option_copied colours.entry)) ≡ Err error) }
{
    match (order_to(order), colours_to(colours)) {
        (Err(NumberFault::NoNumber), _) | (_, Err(NumberFault::NoNumber)) => Err(Error::Number),
        (_, Err(NumberFault::AboveLimit)) => Err(Error::Colours),
        (Err(NumberFault::AboveLimit), Ok(_)) => Err(Error::TooLarge),
        (Ok(order), Ok(colours)) => match Trees::new(order, colours) {
            Ok(trees) => Ok(trees),
            Err(EnumFault::TooMany) => Err(Error::TooMany),
        },
    }
}
