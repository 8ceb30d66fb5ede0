//! Lines outside the blocks: the line `format`, and the lines that begin a block.

ghost use Rattle.std.specs.Prelude.{◌≡◌, ◌<◌, ◌≤◌, ◌∷◌, IfOk};
ghost use Rattle.std.specs.Option.{ForSome};
ghost use Rattle.bs_tableau.specs.declared.TheConstants.{MAX_STAGES, MAX_COLOURS};
ghost use Rattle.bs_script.specs.Grammar.{moved, format_line, table_line, table_named, session_line, block_line};
ghost use Rattle.bs_script.specs.Reading.{place_at, line_at, after_first, IsOpening};

use crate::reason::Reason;
use crate::script::Script;
use crate::words::{has_bad_byte, number_to};
use crate::{MAX_SESSIONS, MAX_TABLES};
use bs_tableau::{MAX_COLOURS, MAX_STAGES, Words};

/// What a line outside the blocks says.
#[derive(Drop)]
pub enum Opening<'a> {
    /// The format is known.
    Format,
    /// A tableau begins.
    Tableau {
        name: &'a [u8],
        stages: usize,
        colours: usize,
    },
    /// A session begins.
    Session,
}

/// The words after `format`.
fn format_line<'a>(script: &Script, mut words: Words<'a>) -> Result<Opening<'a>, Reason>
    ensures { format_line script.now words.entry ≡ after_first script.now result }
{
    match words.next() {
        Some(form) if words.has(0) => {
            if form == b"1".as_slice() {
                Ok(Opening::Format)
            } else {
                Err(Reason::Format)
            }
        }
        _ => Err(Reason::Word),
    }
}

/// A tableau of this name, with its numbers where they are in range.
fn table_named<'a>(
    script: &Script,
    name: &'a [u8],
    stages: Option<usize>,
    colours: Option<usize>,
) -> Result<Opening<'a>, Reason>
    requires stages { ForSome stages (λ n. (0 < n) × (n ≤ MAX_STAGES)) }
    requires colours { ForSome colours (λ n. (0 < n) × (n ≤ MAX_COLOURS)) }
    ensures value { table_named script.now name.now stages colours ≡ after_first script.now result }
    ensures sound { IfOk result (IsOpening script.now) }
{
    if script.tables().len() == MAX_TABLES {
        return Err(Reason::TooMany);
    }
    if script.has_name(name) {
        return Err(Reason::Name);
    }
    match (stages, colours) {
        (Some(stages), Some(colours)) => Ok(Opening::Tableau {
            name,
            stages,
            colours,
        }),
        _ => Err(Reason::Count),
    }
}

/// The words after `tableau`.
fn table_line<'a>(script: &Script, mut words: Words<'a>) -> Result<Opening<'a>, Reason>
    ensures value { table_line script.now words.entry ≡ after_first script.now result }
    ensures sound { IfOk result (IsOpening script.now) }
{
    let (Some(name), Some(stages)) = (words.next(), words.next()) else {
        return Err(Reason::Word);
    };
    let stages = number_to(MAX_STAGES, stages);
    match words.next() {
        None => table_named(script, name, stages, Some(1)),
        Some(colours) if words.has(0) => {
            table_named(script, name, stages, number_to(MAX_COLOURS, colours))
        }
        Some(_) => Err(Reason::Word),
    }
}

/// The words after `session`.
fn session_line<'a>(script: &Script, words: Words<'a>) -> Result<Opening<'a>, Reason>
    ensures { session_line script.now words.entry ≡ after_first script.now result }
{
    if !words.has(0) {
        Err(Reason::Word)
    } else if script.sessions().len() == MAX_SESSIONS {
        Err(Reason::TooMany)
    } else {
        Ok(Opening::Session)
    }
}

/// What a line with this first word and these further words says.
fn block_in<'a>(script: &Script, first: &[u8], words: Words<'a>) -> Result<Opening<'a>, Reason>
    ensures value { block_line script.now (first.now ∷ words.entry) ≡ after_first script.now result }
    ensures sound { IfOk result (IsOpening script.now) }
{
    if first == b"tableau".as_slice() {
        table_line(script, words)
    } else if first == b"session".as_slice() {
        session_line(script, words)
    } else {
        Err(Reason::Word)
    }
}

/// What the words of a line outside the blocks say.
fn opening_in<'a>(
    script: &Script,
    at_start: bool,
    mut words: Words<'a>,
) -> Result<Opening<'a>, Reason>
    ensures value { line_at script.now at_start words.entry ≡ after_first script.now result }
    ensures sound { IfOk result (IsOpening script.now) }
{
    let Some(first) = words.next() else {
        return Err(Reason::Word);
    };
    if at_start && first == b"format".as_slice() {
        format_line(script, words)
    } else {
        block_in(script, first, words)
    }
}

/// What a line outside the blocks says; `format` is known at the start alone.
pub fn read_opening<'a>(
    script: &Script,
    at_start: bool,
    line: &'a [u8],
) -> Result<Opening<'a>, Reason>
    ensures value { moved script.now (place_at at_start) line.now ≡ after_first script.now result }
    ensures sound { IfOk result (IsOpening script.now) }
{
    if has_bad_byte(line) {
        return Err(Reason::Byte);
    }
    opening_in(script, at_start, Words::new(line))
}
