//! The commands, one function each: the words behind the first one become a reply behind the text so far, with a change or a
//! question; or the command is refused, and the text is as it was.
//!
//! A new command is a verb, an arm of `command`, a function here, a definition in `specs/Commands.antt` and a reply line. Those about
//! series have modules of their own.

ghost use Rattle.std.specs.Prelude.{◌≡◌, ◌+◌, ◌<◌, All, IsTrue, IfOk, IfErr, OnOk, OnErr};
ghost use Rattle.bs_levels.specs.Faults.{refusal_of};
ghost use Rattle.bs_reply.specs.Lines.{line_text};
ghost use Rattle.bs_tableau.specs.Words.{words};
ghost use Rattle.bs_names.specs.Names.{at};
ghost use Rattle.bs_command.specs.Commands.{command, tree_command, drop_command, same_command, info_command, info_reply, weight_command, has_colours, trees_command, conditions_command, order_command, split_command, partition_command};
ghost use Rattle.bs_series.specs.Accepted.{Suits};
ghost use Rattle.bs_names.specs.Known.{plain};
ghost use Rattle.bs_names.specs.Space.{known_of};
ghost use Rattle.bs_command.specs.Toil.{toil_of};
ghost use Rattle.bs_command.specs.Needed.{need_of};
ghost use Rattle.bs_command.specs.Listing.{lines_of, lines_split, lines_parted};
ghost use Rattle.bs_command.specs.Changes.{Says, Carries, Asks, Refuses, Lists, ListsNone};
ghost use Rattle.bs_names.specs.Space.{IsBookOf};
ghost use Rattle.bs_command.specs.declared.change.Carried.TheVariants.{Replied, Begun};
ghost use Rattle.bs_command.specs.Errors.{error_of};

use crate::change::{Carried, Change};
use crate::coefficients::{coeff, equal, print};
use crate::error::{Error, Fault};
use crate::number::{order_asked, trees_asked};
use crate::series::series;
use crate::verb::Verb;
use crate::words::{one_or_two, only, two, two_or_three};
use bs_eval::TableWeights;
use bs_levels::{LevelRefusal, read_code};
use bs_listing::{write_partitions, write_splits};
use bs_names::{LiveTree, Namespace, Seen};
use bs_order::{MAX_CONDITIONS, write_conditions, write_order, write_trees};
use bs_reply::{Line, write_line};
use bs_steps::Steps;
use bs_tableau::Words;
use bs_tree::Code;
use bs_work::Work;
use std::sync::ledger::Ledger;

/// `tree NAME LEVELS [COLOURS]`
fn tree<'a>(names: &Namespace, words: Words<'a>, out: &mut Vec<u8>) -> Result<Change<'a>, Fault>
    ensures says { IfOk result (λ change. Says names.now (tree_command (known_of names.now) words.entry) out.old.items out.new.items change) }
    ensures refused { IfErr result (λ fault. Refuses fault (tree_command (known_of names.now) words.entry)) }
    ensures unwritten { OnErr result (out.new.items ≡ out.old.items) }
{
    let Some((name, levels, colours)) = two_or_three(words) else {
        return Err(Fault::Refused(Error::Words));
    };
    if names.is_taken(name) {
        return Err(Fault::Refused(Error::Taken));
    }
    let code = match read_code(levels, colours) {
        Ok(code) => code,
        Err(refusal) => return Err(Fault::Refused(error_of(refusal))),
    };
    write_line(out, &Line::Tree { name, code })?;
    Ok(Change::Name { name, code })
}

fn error_of(refusal: LevelRefusal) -> Error
    ensures { result ≡ error_of (refusal_of refusal) }
{
    match refusal {
        LevelRefusal::BadLevels => Error::Levels,
        LevelRefusal::BadColours => Error::Colours,
        LevelRefusal::TooLarge => Error::TooLarge,
    }
}

/// `drop NAME`
fn drop<'a>(names: &Namespace, words: Words<'a>, out: &mut Vec<u8>) -> Result<Change<'a>, Fault>
    ensures says { IfOk result (λ change. Says names.now (drop_command (known_of names.now) words.entry) out.old.items out.new.items change) }
    ensures refused { IfErr result (λ fault. Refuses fault (drop_command (known_of names.now) words.entry)) }
    ensures unwritten { OnErr result (out.new.items ≡ out.old.items) }
{
    let Some(name) = only(words) else {
        return Err(Fault::Refused(Error::Words));
    };
    if names.tree(name).is_none() {
        return Err(Fault::Refused(Error::Name));
    }
    write_line(out, &Line::Drop { name })?;
    Ok(Change::Drop { name })
}

/// `same A B`
fn same(names: &Namespace, words: Words<'_>) -> Result<(LiveTree, LiveTree), Fault>
    ensures asks { IfOk result (λ pair. Asks names.now (same_command (known_of names.now) words.entry) pair.0 pair.1) }
    ensures refused { IfErr result (λ fault. Refuses fault (same_command (known_of names.now) words.entry)) }
{
    let Some((left, right)) = two(words) else {
        return Err(Fault::Refused(Error::Words));
    };
    match (names.tree(left), names.tree(right)) {
        (Some(left), Some(right)) => Ok((left, right)),
        _ => Err(Fault::Refused(Error::Name)),
    }
}

/// `info T`
fn info<'a>(names: &Namespace, words: Words<'a>, out: &mut Vec<u8>) -> Result<Change<'a>, Fault>
    ensures says { IfOk result (λ change. Says names.now (info_command (known_of names.now) words.entry) out.old.items out.new.items change) }
    ensures refused { IfErr result (λ fault. Refuses fault (info_command (known_of names.now) words.entry)) }
    ensures unwritten { OnErr result (out.new.items ≡ out.old.items) }
{
    let Some(name) = only(words) else {
        return Err(Fault::Refused(Error::Words));
    };
    let Some(tree) = names.tree(name) else {
        return Err(Fault::Refused(Error::Name));
    };
    write_line(out, &info_of(tree.code))?;
    Ok(Change::Nothing)
}

/// The line with the numbers of a tree.
fn info_of(code: Code) -> Line<'static>
    ensures { line_text result ≡ info_reply code }
{
    Line::Info {
        code,
        symmetry: code.symmetry(),
        density: code.density(),
        alpha: code.alpha(),
    }
}

/// `weight TABLEAU T`
fn weight<'a>(
    tables: &Seen<'_>,
    weights: &mut TableWeights,
    names: &Namespace,
    words: Words<'a>,
    out: &mut Vec<u8>,
) -> Result<Change<'a>, Fault>
    ensures says { IfOk result (λ change. Says names.now (weight_command tables.now (known_of names.now) words.entry) out.old.items out.new.items change) }
    ensures refused { IfErr result (λ fault. Refuses fault (weight_command tables.now (known_of names.now) words.entry)) }
    ensures unwritten { OnErr result (out.new.items ≡ out.old.items) }
{
    let Some((table, name)) = two(words) else {
        return Err(Fault::Refused(Error::Words));
    };
    let (Some((number, table)), Some(tree)) = (tables.find(table), names.tree(name)) else {
        return Err(Fault::Refused(Error::Name));
    };
    if !has_colours(table.colours(), &tree.code) {
        return Err(Fault::Refused(Error::Colours));
    }
    let coef = weights.over(number)?.weight(table, &tree.code);
    write_line(out, &Line::Weight { coef })?;
    Ok(Change::Nothing)
}

/// Whether each colour of a tree is one of so many.
pub(crate) fn has_colours(colours: usize, code: &Code) -> bool
    ensures value { result ≡ has_colours colours code.now }
    ensures each { IsTrue result → All (λ pair. pair.1 < colours) code.now }
{
    code.pairs()
        .iter()
        .all(|pair| usize::from(pair.1) < colours)
}

/// `trees P [K]`
fn trees<'a>(names: &Namespace, words: Words<'a>, out: &mut Vec<u8>) -> Result<Change<'a>, Fault>
    ensures says { IfOk result (λ change. Says names.now (trees_command (known_of names.now) words.entry) out.old.items out.new.items change) }
    ensures refused { IfErr result (λ fault. Refuses fault (trees_command (known_of names.now) words.entry)) }
    ensures unwritten { OnErr result (out.new.items ≡ out.old.items) }
{
    let Some((order, colours)) = one_or_two(words) else {
        return Err(Fault::Refused(Error::Words));
    };
    match trees_asked(order, colours) {
        Ok(trees) => write_trees(out, trees)?,
        Err(error) => return Err(Fault::Refused(error)),
    }
    Ok(Change::Nothing)
}

/// `conditions TABLEAU P`
fn conditions<'a>(
    tables: &Seen<'_>,
    weights: &mut TableWeights,
    names: &Namespace,
    words: Words<'a>,
    out: &mut Vec<u8>,
) -> Result<Change<'a>, Fault>
    ensures says { IfOk result (λ change. Says names.now (conditions_command tables.now (known_of names.now) words.entry) out.old.items out.new.items change) }
    ensures refused { IfErr result (λ fault. Refuses fault (conditions_command tables.now (known_of names.now) words.entry)) }
    ensures unwritten { OnErr result (out.new.items ≡ out.old.items) }
{
    let Some((table, order)) = two(words) else {
        return Err(Fault::Refused(Error::Words));
    };
    let Some((number, table)) = tables.find(table) else {
        return Err(Fault::Refused(Error::Name));
    };
    match order_asked(MAX_CONDITIONS, table.colours(), order) {
        Ok(order) => write_conditions(out, weights.over(number)?, table, order)?,
        Err(error) => return Err(Fault::Refused(error)),
    }
    Ok(Change::Nothing)
}

/// `order TABLEAU P`
fn order<'a>(
    tables: &Seen<'_>,
    weights: &mut TableWeights,
    names: &Namespace,
    words: Words<'a>,
    out: &mut Vec<u8>,
) -> Result<Change<'a>, Fault>
    ensures says { IfOk result (λ change. Says names.now (order_command tables.now (known_of names.now) words.entry) out.old.items out.new.items change) }
    ensures refused { IfErr result (λ fault. Refuses fault (order_command tables.now (known_of names.now) words.entry)) }
    ensures unwritten { OnErr result (out.new.items ≡ out.old.items) }
{
    let Some((table, order)) = two(words) else {
        return Err(Fault::Refused(Error::Words));
    };
    let Some((number, table)) = tables.find(table) else {
        return Err(Fault::Refused(Error::Name));
    };
    match order_asked(MAX_CONDITIONS, table.colours(), order) {
        Ok(order) => write_order(out, weights.over(number)?, table, order)?,
        Err(error) => return Err(Fault::Refused(error)),
    }
    Ok(Change::Nothing)
}

/// `split T`
fn split<'a, L: Ledger>(
    names: &Namespace,
    words: Words<'a>,
    out: &mut Vec<u8>,
    steps: &mut Steps<L>,
) -> Result<Change<'a>, Fault>
    ensures says { IfOk result (λ change. Says names.now (split_command (known_of names.now) words.entry) out.old.items out.new.items change) }
    ensures refused { IfErr result (λ fault. Refuses fault (split_command (known_of names.now) words.entry)) }
    ensures lists { OnOk result (steps.new ≡ steps.old + lines_split (known_of names.now) words.entry) }
    ensures unlisted { IfErr result (ListsNone (lines_split (known_of names.now) words.entry) steps.old steps.new) }
    ensures unwritten { OnErr result (out.new.items ≡ out.old.items) }
{
    let Some(name) = only(words) else {
        return Err(Fault::Refused(Error::Words));
    };
    let Some(tree) = names.tree(name) else {
        return Err(Fault::Refused(Error::Name));
    };
    write_splits(out, tree.code, steps)?;
    Ok(Change::Nothing)
}

/// `partition T`
fn partition<'a, L: Ledger>(
    names: &Namespace,
    words: Words<'a>,
    out: &mut Vec<u8>,
    steps: &mut Steps<L>,
) -> Result<Change<'a>, Fault>
    ensures says { IfOk result (λ change. Says names.now (partition_command (known_of names.now) words.entry) out.old.items out.new.items change) }
    ensures refused { IfErr result (λ fault. Refuses fault (partition_command (known_of names.now) words.entry)) }
    ensures lists { OnOk result (steps.new ≡ steps.old + lines_parted (known_of names.now) words.entry) }
    ensures unlisted { IfErr result (ListsNone (lines_parted (known_of names.now) words.entry) steps.old steps.new) }
    ensures unwritten { OnErr result (out.new.items ≡ out.old.items) }
{
    let Some(name) = only(words) else {
        return Err(Fault::Refused(Error::Words));
    };
    let Some(tree) = names.tree(name) else {
        return Err(Fault::Refused(Error::Name));
    };
    write_partitions(out, tree.code, steps)?;
    Ok(Change::Nothing)
}

/// The command of a line. Where it wants coefficients, the work on its reply is begun.
#[tactic(auto, unfolding(crate::specs::Commands::command, crate::specs::Toil::toil_of, crate::specs::Needed::need_of, crate::specs::Listing::lines_of))]
pub fn command<'a, L: Ledger>(
    tables: &Seen<'_>,
    weights: &mut TableWeights,
    names: &mut Namespace,
    line: &'a [u8],
    out: &mut Vec<u8>,
    work: &mut Work,
    steps: &mut Steps<L>,
) -> Result<Carried<'a>, Fault>
    requires suits { Suits (plain tables.now) names.old.book }
    ensures carried { IfOk result (λ carried. Carries (plain tables.now) names.new (command tables.now (known_of names.old) (words line.now)) (toil_of (known_of names.old) (words line.now)) (need_of (known_of names.old) (words line.now)) out.old.items out.new.items work.new carried) }
    ensures refused { IfErr result (λ fault. Refuses fault (command tables.now (known_of names.old) (words line.now))) }
    ensures lists { IfOk result (Lists (lines_of (known_of names.old) (words line.now)) steps.old steps.new) }
    ensures unlisted { IfErr result (ListsNone (lines_of (known_of names.old) (words line.now)) steps.old steps.new) }
    ensures unwritten { OnErr result (out.new.items ≡ out.old.items) }
    ensures book { IsBookOf (plain tables.now) names.old names.new }
{
    let mut words = Words::new(line);
    let Some(first) = words.next() else {
        return Err(Fault::Refused(Error::Command));
    };
    match Verb::read(first) {
        Some(Verb::Tree) => match tree(names, words, out) {
            Ok(change) => Ok(Carried::Replied { change }),
            Err(fault) => Err(fault),
        },
        Some(Verb::Drop) => match drop(names, words, out) {
            Ok(change) => Ok(Carried::Replied { change }),
            Err(fault) => Err(fault),
        },
        Some(Verb::Same) => match same(names, words) {
            Ok((left, right)) => Ok(Carried::Asked { left, right }),
            Err(fault) => Err(fault),
        },
        Some(Verb::Info) => match info(names, words, out) {
            Ok(change) => Ok(Carried::Replied { change }),
            Err(fault) => Err(fault),
        },
        Some(Verb::Weight) => match weight(tables, weights, names, words, out) {
            Ok(change) => Ok(Carried::Replied { change }),
            Err(fault) => Err(fault),
        },
        Some(Verb::Trees) => match trees(names, words, out) {
            Ok(change) => Ok(Carried::Replied { change }),
            Err(fault) => Err(fault),
        },
        Some(Verb::Conditions) => match conditions(tables, weights, names, words, out) {
            Ok(change) => Ok(Carried::Replied { change }),
            Err(fault) => Err(fault),
        },
        Some(Verb::Order) => match order(tables, weights, names, words, out) {
            Ok(change) => Ok(Carried::Replied { change }),
            Err(fault) => Err(fault),
        },
        Some(Verb::Split) => match split(names, words, out, steps) {
            Ok(change) => Ok(Carried::Replied { change }),
            Err(fault) => Err(fault),
        },
        Some(Verb::Partition) => match partition(names, words, out, steps) {
            Ok(change) => Ok(Carried::Replied { change }),
            Err(fault) => Err(fault),
        },
        Some(Verb::Series) => match series(tables, names, words, out) {
            Ok(change) => Ok(Carried::Replied { change }),
            Err(fault) => Err(fault),
        },
        Some(Verb::Coeff) => match coeff(names, words, work) {
            Ok(()) => Ok(Carried::Begun),
            Err(fault) => Err(fault),
        },
        Some(Verb::Print) => match print(names, words, work) {
            Ok(()) => Ok(Carried::Begun),
            Err(fault) => Err(fault),
        },
        Some(Verb::Equal) => match equal(names, words, work) {
            Ok(()) => Ok(Carried::Begun),
            Err(fault) => Err(fault),
        },
        None => Err(Fault::Refused(Error::Command)),
    }
}
