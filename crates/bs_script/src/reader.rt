//! Reading a script: a function for each block, which reads on to the block's end.
//!
//! What a function of this file says of the lines: what is left of the input means the same before and after, where
//! the places are those of the grammar.

ghost use Rattle.std.specs.Prelude.{◌≡◌, ◌≢◌, ℕ, ◌<◌, ◌≤◌, ◌↔◌, false, List, [], length, Ok, MatchResult, IfOk, OnOk};
ghost use Rattle.bs_tableau.specs.Table.{Table, row_count};
ghost use Rattle.bs_tableau.specs.declared.TheConstants.{MAX_STAGES, MAX_COLOURS};
ghost use Rattle.bs_script.specs.declared.TheConstants.{MAX_TABLES};
ghost use Rattle.bs_script.specs.Blocks.{ScriptLines, has_name, with_table, with_session};
ghost use Rattle.bs_script.specs.Grammar.{at_line, moved, reason_of, rest_of, script};
ghost use Rattle.bs_script.specs.Grammar.Place.{outside, in_table, in_session};
ghost use Rattle.bs_script.specs.Reading.{Fails, place_at, after_row, after_command};
ghost use Rattle.bs_script.specs.declared.reader.Inside.TheVariants.{More, Ended};
ghost use Rattle.bs_script.specs.declared.reason.Reason.TheVariants.{End};
ghost use Rattle.bs_script.specs.declared.reason.ScriptFault.TheVariants.{Refused};

use crate::MAX_COMMANDS;
use crate::cursor::Lines;
use crate::opening::{Opening, read_opening};
use crate::reason::{Reason, ScriptFault};
use crate::script::Script;
use crate::texts::Texts;
use crate::words::{has_bad_byte, is_end};
use bs_tableau::{Builder, TableauFault};
use std::alloc::Global;

/// What a line in a block says of the block.
#[derive(Clone, Copy, Debug, PartialEq, Eq)]
enum Inside {
    /// It goes on.
    More,
    /// It ended with this line.
    Ended,
}

fn reason_of(fault: TableauFault) -> Reason
    ensures { result ≡ reason_of fault }
{
    match fault {
        TableauFault::Missing => Reason::Missing,
        TableauFault::BadCount => Reason::Count,
        TableauFault::BadFraction => Reason::Fraction,
    }
}

/// Reads a line in a tableau: its next row, or its end.
fn read_row(builder: &mut Builder, line: &[u8]) -> Result<Inside, Reason>
    ensures value { (s : ScriptLines) (name : List ℕ) → moved s (in_table name builder.old) line.now ≡ after_row s name builder.new result }
    ensures ended { result ≡ Ok Ended → length builder.new.rows ≡ row_count builder.new }
{
    if has_bad_byte(line) {
        return Err(Reason::Byte);
    }
    if builder.complete() {
        return if is_end(line) {
            Ok(Inside::Ended)
        } else {
            Err(Reason::Missing)
        };
    }
    match builder.line(line) {
        Ok(()) => Ok(Inside::More),
        Err(fault) => Err(reason_of(fault)),
    }
}

/// The fault of an input that ends in a block, where all its lines were given.
fn end_missing(lines: &Lines<'_>) -> ScriptFault
    ensures { result ≡ Refused lines.now.given End }
{
    ScriptFault::Refused {
        line: lines.given(),
        reason: Reason::End,
    }
}

/// The lines of a tableau to its `end`.
fn read_tableau(
    script: &mut Script,
    name: &[u8],
    mut builder: Builder,
    lines: &mut Lines<'_>,
) -> Result<(), ScriptFault>
    requires fresh { has_name script.old name.now ≡ false }
    requires few { length script.old.tables < MAX_TABLES }
    ensures rest { MatchResult result
        (λ _. rest_of script.old (in_table name.now builder) lines.old ≡ rest_of script.new outside lines.new)
        (λ e. Fails e (rest_of script.old (in_table name.now builder) lines.old)) }
    ensures shorter { length lines.new.left ≤ length lines.old.left }
{
    'lines: while let Some((number, line)) = lines.next() {
        match read_row(&mut builder, line) {
            Ok(Inside::More) => {}
            Ok(Inside::Ended) => {
                script.add_table(name, builder.finish())?;
                return Ok(());
            }
            Err(reason) => return Err(ScriptFault::Refused {
                line: number,
                reason,
            }),
        }
    }
    Err(end_missing(lines))
}

/// Reads a line in a session of so many commands: one more, or its end.
fn read_command(count: usize, line: &[u8]) -> Result<Inside, Reason>
    ensures room { result ≡ Ok More → count ≢ MAX_COMMANDS }
    ensures value { (s : ScriptLines) (commands : List (List ℕ)) → length commands ≡ count → moved s (in_session commands) line.now ≡ after_command s commands line.now result }
{
    if has_bad_byte(line) {
        Err(Reason::Byte)
    } else if is_end(line) {
        Ok(Inside::Ended)
    } else if count == MAX_COMMANDS {
        Err(Reason::TooMany)
    } else {
        Ok(Inside::More)
    }
}

/// The lines of a session to its `end`.
fn read_session(
    script: &mut Script,
    mut commands: Texts,
    lines: &mut Lines<'_>,
) -> Result<(), ScriptFault>
    requires few { length commands ≤ MAX_COMMANDS }
    ensures rest { MatchResult result
        (λ _. rest_of script.old (in_session commands) lines.old ≡ rest_of script.new outside lines.new)
        (λ e. Fails e (rest_of script.old (in_session commands) lines.old)) }
    ensures shorter { length lines.new.left ≤ length lines.old.left }
{
    'lines: while let Some((number, line)) = lines.next() {
        match read_command(commands.len(), line) {
            Ok(Inside::More) => commands.push(line)?,
            Ok(Inside::Ended) => {
                script.add_session(commands)?;
                return Ok(());
            }
            Err(reason) => return Err(ScriptFault::Refused {
                line: number,
                reason,
            }),
        }
    }
    Err(end_missing(lines))
}

/// Reads the block that a line begins, to its end.
fn read_block(
    alloc: Global,
    script: &mut Script,
    at_start: bool,
    number: u64,
    line: &[u8],
    lines: &mut Lines<'_>,
) -> Result<(), ScriptFault>
    ensures rest { MatchResult result
        (λ _. at_line number (moved script.old (place_at at_start) line.now) (λ m. rest_of m.0 m.1 lines.old) ≡ rest_of script.new outside lines.new)
        (λ e. Fails e (at_line number (moved script.old (place_at at_start) line.now) (λ m. rest_of m.0 m.1 lines.old))) }
    ensures shorter { length lines.new.left ≤ length lines.old.left }
{
    match read_opening(script, at_start, line) {
        Ok(Opening::Format) => Ok(()),
        Ok(
            Opening::Tableau {
                name,
                stages,
                colours,
            },
        ) => {
            let builder = Builder::new(alloc, stages, colours)?;
            read_tableau(script, name, builder, lines)
        }
        Ok(Opening::Session) => read_session(script, Texts::new(alloc), lines),
        Err(reason) => Err(ScriptFault::Refused {
            line: number,
            reason,
        }),
    }
}

/// The tableaux and sessions that the bytes spell, or their first line that is refused, with the reason.
///
/// Takes memory for one copy of each command line, with 8 bytes more for each, and for two copies of each name; and
/// time linear in the length, but that each name is looked up in a search tree of those above it.
pub fn read(alloc: Global, bytes: &[u8]) -> Result<Script, ScriptFault>
    ensures { MatchResult result (λ s. script bytes.now ≡ Ok s) (λ e. Fails e (script bytes.now)) }
{
    let mut script = Script::empty(alloc);
    let mut lines = Lines::new(bytes);
    let mut at_start = true;
    'each: while let Some((number, line)) = lines.next() {
        read_block(alloc, &mut script, at_start, number, line, &mut lines)?;
        at_start = false;
    }
    Ok(script)
}
