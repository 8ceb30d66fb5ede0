//! The command `series`: its words become a kind of series, whose operands have names; the book makes it, and the name is to stand
//! for it.
//!
//! The errors come in their order: the number of words, a name that stands for nothing, a name that is taken, a number, and then what
//! the book refuses.

ghost use Rattle.std.specs.Prelude.{◌≡◌, ◌<◌, ◌≤◌, ℕ, List, length, false, Some, Err, IfOk, IfErr, OnOk, OnErr};
ghost use Rattle.bs_frac.specs.Fraction.{Fraction};
ghost use Rattle.bs_tableau.specs.Table.{Table};
ghost use Rattle.bs_series.specs.Series.{Series, method, scale};
ghost use Rattle.bs_series.specs.Value.{table_at};
ghost use Rattle.bs_series.specs.Accepted.{Suits, Refuses as IsRefused};
ghost use Rattle.bs_series.specs.Expressions.{series_at, OperandsIn, TableIn, HasColours, IsColourCount};
ghost use Rattle.bs_names.specs.Known.{Tables, plain, is_taken};
ghost use Rattle.bs_command.specs.Acceptance.{made_of};
ghost use Rattle.bs_command.specs.Commands.{Outcome, asked, named, made_by, of_colours, of_tableau, of_one, of_two, of_factor, series_command};
ghost use Rattle.bs_names.specs.Space.{known_of};
ghost use Rattle.bs_command.specs.Kinds.{IsKind, answered};
ghost use Rattle.bs_command.specs.Changes.{Says, Refuses};
ghost use Rattle.bs_names.specs.Space.{IsBookOf};

use crate::change::Change;
use crate::error::{Error, Fault};
use crate::number::{NumberFault, colours_to};
use crate::operation::Operation;
use crate::words::{none_or_one, only, two};
use bs_frac::Frac;
use bs_names::{Namespace, Seen};
use bs_reply::{Line, write_line};
use bs_series::{Kind, SeriesFault, SeriesId};
use bs_tableau::Words;

/// `series NAME KIND ..`
pub(crate) fn series<'a>(
    tables: &Seen<'_>,
    names: &mut Namespace,
    mut words: Words<'a>,
    out: &mut Vec<u8>,
) -> Result<Change<'a>, Fault>
    requires suits { Suits (plain tables.now) names.old.book }
    ensures says { IfOk result (λ change. Says names.new (series_command tables.now (known_of names.old) words.entry) out.old.items out.new.items change) }
    ensures refused { IfErr result (λ fault. Refuses fault (series_command tables.now (known_of names.old) words.entry)) }
    ensures unwritten { OnErr result (out.new.items ≡ out.old.items) }
    ensures book { IsBookOf (plain tables.now) names.old names.new }
{
    let (Some(name), Some(word)) = (words.next(), words.next()) else {
        return Err(Fault::Refused(Error::Words));
    };
    let Some(operation) = Operation::read(word) else {
        return Err(Fault::Refused(Error::Command));
    };
    match kind_of(tables, names, name, operation, words) {
        Ok(kind) => make_named(tables, names, name, kind, out),
        Err(error) => Err(Fault::Refused(error)),
    }
}

/// The kind that an operation makes of what the words name, where the name is free.
fn kind_of(
    tables: &Seen<'_>,
    names: &Namespace,
    name: &[u8],
    operation: Operation,
    words: Words<'_>,
) -> Result<Kind, Error>
    ensures kind { IfOk result (λ kind. IsKind (plain tables.now) names.now name.now (made_by tables.now (known_of names.now) name.now (Some operation) words.entry) kind) }
    ensures refused { IfErr result (λ error. made_by tables.now (known_of names.now) name.now (Some operation) words.entry ≡ Err error) }
{
    match operation {
        Operation::Exact => Ok(Kind::Exact {
            colours: colours_of(names, name, words)?,
        }),
        Operation::Identity => Ok(Kind::Identity {
            colours: colours_of(names, name, words)?,
        }),
        Operation::Average => Ok(Kind::Average {
            colours: colours_of(names, name, words)?,
        }),
        Operation::Method => Ok(Kind::Method {
            table: table_of(tables, names, name, words)?,
        }),
        Operation::Compose => {
            let (first, second) = both_of(names, name, words)?;
            Ok(Kind::Compose { first, second })
        }
        Operation::Inverse => Ok(Kind::Inverse {
            of: one_of(names, name, words)?,
        }),
        Operation::Adjoint => Ok(Kind::Adjoint {
            of: one_of(names, name, words)?,
        }),
        Operation::Substitute => {
            let (inner, outer) = both_of(names, name, words)?;
            Ok(Kind::Substitute { inner, outer })
        }
        Operation::Modified => Ok(Kind::Modified {
            of: one_of(names, name, words)?,
        }),
        Operation::Modifying => Ok(Kind::Modifying {
            of: one_of(names, name, words)?,
        }),
        Operation::Scale => {
            let (of, by) = scaled_of(names, name, words)?;
            Ok(Kind::Scale { of, by })
        }
    }
}

/// `[K]`: the number of colours, 1 where there is no word.
fn colours_of(names: &Namespace, name: &[u8], words: Words<'_>) -> Result<u8, Error>
    ensures count { IfOk result (λ k. IsColourCount k) }
    ensures free { OnOk result (is_taken (known_of names.now) name.now ≡ false) }
    ensures is { IfOk result (λ k. (make : ℕ → Series) → of_colours (known_of names.now) name.now words.entry make ≡ named (known_of names.now) name.now (make k)) }
    ensures refused { IfErr result (λ error. (make : ℕ → Series) → of_colours (known_of names.now) name.now words.entry make ≡ Err error) }
{
    let Some(word) = none_or_one(words) else {
        return Err(Error::Words);
    };
    if names.is_taken(name) {
        return Err(Error::Taken);
    }
    match colours_to(word) {
        Ok(colours) => Ok(colours as u8),
        Err(NumberFault::NoNumber) => Err(Error::Number),
        Err(NumberFault::AboveLimit) => Err(Error::Colours),
    }
}

/// `TABLEAU`: its number.
fn table_of(
    tables: &Seen<'_>,
    names: &Namespace,
    name: &[u8],
    words: Words<'_>,
) -> Result<u16, Error>
    ensures known { IfOk result (λ n. n < length (plain tables.now)) }
    ensures free { OnOk result (is_taken (known_of names.now) name.now ≡ false) }
    ensures is { IfOk result (λ n. of_tableau tables.now (known_of names.now) name.now words.entry ≡ named (known_of names.now) name.now (method n (table_at (plain tables.now) n).colours)) }
    ensures refused { IfErr result (λ error. of_tableau tables.now (known_of names.now) name.now words.entry ≡ Err error) }
{
    let Some(word) = only(words) else {
        return Err(Error::Words);
    };
    let Some((number, _)) = tables.find(word) else {
        return Err(Error::Name);
    };
    if names.is_taken(name) {
        return Err(Error::Taken);
    }
    Ok(number as u16)
}

/// `S`: a series.
fn one_of(names: &Namespace, name: &[u8], words: Words<'_>) -> Result<SeriesId, Error>
    ensures known { IfOk result (λ id. id < length names.now.book) }
    ensures free { OnOk result (is_taken (known_of names.now) name.now ≡ false) }
    ensures is { IfOk result (λ id. (tables : Tables) (make : Series → Series) → of_one tables (known_of names.now) name.now words.entry make ≡ asked (made_of (plain tables) (make (series_at names.now.book id))) (named (known_of names.now) name.now)) }
    ensures refused { IfErr result (λ error. (tables : Tables) (make : Series → Series) → of_one tables (known_of names.now) name.now words.entry make ≡ Err error) }
{
    let Some(word) = only(words) else {
        return Err(Error::Words);
    };
    let Some(id) = names.series(word) else {
        return Err(Error::Name);
    };
    if names.is_taken(name) {
        return Err(Error::Taken);
    }
    Ok(id)
}

/// `S1 S2`: two series.
fn both_of(names: &Namespace, name: &[u8], words: Words<'_>) -> Result<(SeriesId, SeriesId), Error>
    ensures known { IfOk result (λ ids. (ids.0 < length names.now.book) × (ids.1 < length names.now.book)) }
    ensures free { OnOk result (is_taken (known_of names.now) name.now ≡ false) }
    ensures is { IfOk result (λ ids. (tables : Tables) (make : Series → Series → Series) → of_two tables (known_of names.now) name.now words.entry make ≡ asked (made_of (plain tables) (make (series_at names.now.book ids.0) (series_at names.now.book ids.1))) (named (known_of names.now) name.now)) }
    ensures refused { IfErr result (λ error. (tables : Tables) (make : Series → Series → Series) → of_two tables (known_of names.now) name.now words.entry make ≡ Err error) }
{
    let Some((left, right)) = two(words) else {
        return Err(Error::Words);
    };
    let (Some(left), Some(right)) = (names.series(left), names.series(right)) else {
        return Err(Error::Name);
    };
    if names.is_taken(name) {
        return Err(Error::Taken);
    }
    Ok((left, right))
}

/// `S F`: a series, and a factor.
fn scaled_of(names: &Namespace, name: &[u8], words: Words<'_>) -> Result<(SeriesId, Frac), Error>
    ensures known { IfOk result (λ parts. parts.0 < length names.now.book) }
    ensures free { OnOk result (is_taken (known_of names.now) name.now ≡ false) }
    ensures is { IfOk result (λ parts. (tables : Tables) → of_factor tables (known_of names.now) name.now words.entry ≡ asked (made_of (plain tables) (scale (series_at names.now.book parts.0) parts.1)) (named (known_of names.now) name.now)) }
    ensures refused { IfErr result (λ error. (tables : Tables) → of_factor tables (known_of names.now) name.now words.entry ≡ Err error) }
{
    let Some((word, factor)) = two(words) else {
        return Err(Error::Words);
    };
    let Some(id) = names.series(word) else {
        return Err(Error::Name);
    };
    if names.is_taken(name) {
        return Err(Error::Taken);
    }
    match Frac::read(factor) {
        Ok(by) => Ok((id, by)),
        Err(_) => Err(Error::Number),
    }
}

/// Makes a series, and writes that a free name is to stand for it.
fn make_named<'a>(
    tables: &Seen<'_>,
    names: &mut Namespace,
    name: &'a [u8],
    kind: Kind,
    out: &mut Vec<u8>,
) -> Result<Change<'a>, Fault>
    requires suits { Suits (plain tables.now) names.old.book }
    requires free { is_taken (known_of names.old) name.now ≡ false }
    requires operands { OperandsIn (length names.old.book) kind }
    requires table { TableIn (length (plain tables.now)) kind }
    requires colours { HasColours kind }
    ensures says { IfOk result (λ change. Says names.new (answered (plain tables.now) names.old name.now kind) out.old.items out.new.items change) }
    ensures refused { IfErr result (λ fault. Refuses fault (answered (plain tables.now) names.old name.now kind)) }
    ensures unwritten { OnErr result (out.new.items ≡ out.old.items) }
    ensures book { IsBookOf (plain tables.now) names.old names.new }
{
    let series = match names.make(tables.tables(), kind) {
        Ok(series) => series,
        Err(fault) => return Err(fault_of(fault)),
    };
    let empty = names.book().empty_value(series);
    let colours = names.book().colours(series);
    write_line(
        out,
        &Line::Series {
            name,
            empty,
            colours,
        },
    )?;
    Ok(Change::Define { name, series })
}

/// The fault of a command whose series is not made.
fn fault_of(fault: SeriesFault) -> Fault
    ensures { (tables : List Table) (s : Series) (answer : Series → Outcome) → IsRefused tables s fault → Refuses result (asked (made_of tables s) answer) }
{
    match fault {
        SeriesFault::ColoursDiffer => Fault::Refused(Error::Colours),
        SeriesFault::EmptyValue => Fault::Refused(Error::EmptyValue),
        SeriesFault::NotSolvable => Fault::Refused(Error::NotSolvable),
        SeriesFault::TooDeep => Fault::Refused(Error::TooDeep),
        SeriesFault::Memory(cause) => Fault::Memory(cause),
    }
}
