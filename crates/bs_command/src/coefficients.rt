//! The commands that want coefficients of series. Each begins the work on its reply.

ghost use Rattle.std.specs.Prelude.{◌≡◌, ◌<◌, ◌≤◌, Some, IfErr, IfOk, OnOk};
ghost use Rattle.bs_enum.specs.AllTrees.{trees_to};
ghost use Rattle.bs_command.specs.Asked.{order_shared, order_to};
ghost use Rattle.bs_names.specs.Known.{Tables, plain};
ghost use Rattle.bs_names.specs.Space.{known_of};
ghost use Rattle.bs_command.specs.Commands.{coeff_command, print_command, equal_command};
ghost use Rattle.bs_command.specs.Toil.{toil_by};
ghost use Rattle.bs_command.specs.Needed.{need_by};
ghost use Rattle.bs_command.specs.Changes.{Begins, Refuses};
ghost use Rattle.bs_command.specs.declared.verb.Verb.TheVariants.{Coeff, Print, Equal};

use crate::MAX_COEFF_ORDER;
use crate::commands::has_colours;
use crate::error::{Error, Fault};
use crate::number::{order_asked, order_shared};
use crate::words::{three, two};
use bs_names::Namespace;
use bs_order::MAX_CONDITIONS;
use bs_tableau::Words;
use bs_work::Work;

/// `coeff S T`
pub(crate) fn coeff(names: &Namespace, words: Words<'_>, work: &mut Work) -> Result<(), Fault>
    ensures begins { OnOk result ((tables : Tables) → Begins (plain tables) names.now (coeff_command tables (known_of names.now) words.entry) (toil_by (known_of names.now) (Some Coeff) words.entry) (need_by (known_of names.now) (Some Coeff) words.entry) work.new) }
    ensures refused { IfErr result (λ fault. (tables : Tables) → Refuses fault (coeff_command tables (known_of names.now) words.entry)) }
{
    let Some((series, tree)) = two(words) else {
        return Err(Fault::Refused(Error::Words));
    };
    let (Some(series), Some(tree)) = (names.series(series), names.tree(tree)) else {
        return Err(Fault::Refused(Error::Name));
    };
    let book = names.book();
    if !has_colours(usize::from(book.colours(series)), &tree.code) {
        return Err(Fault::Refused(Error::Colours));
    }
    if tree.code.order() > MAX_COEFF_ORDER {
        return Err(Fault::Refused(Error::TooLarge));
    }
    work.coeff(book, series, tree.code);
    Ok(())
}

/// `print S P`
pub(crate) fn print(names: &Namespace, words: Words<'_>, work: &mut Work) -> Result<(), Fault>
    ensures begins { OnOk result ((tables : Tables) → Begins (plain tables) names.now (print_command tables (known_of names.now) words.entry) (toil_by (known_of names.now) (Some Print) words.entry) (need_by (known_of names.now) (Some Print) words.entry) work.new) }
    ensures refused { IfErr result (λ fault. (tables : Tables) → Refuses fault (print_command tables (known_of names.now) words.entry)) }
{
    let Some((series, order)) = two(words) else {
        return Err(Fault::Refused(Error::Words));
    };
    let Some(series) = names.series(series) else {
        return Err(Fault::Refused(Error::Name));
    };
    let book = names.book();
    match order_asked(MAX_CONDITIONS, usize::from(book.colours(series)), order) {
        Ok(order) => Ok(work.print(book, series, order)?),
        Err(error) => Err(Fault::Refused(error)),
    }
}

/// `equal S1 S2 P`
pub(crate) fn equal(names: &Namespace, words: Words<'_>, work: &mut Work) -> Result<(), Fault>
    ensures begins { OnOk result ((tables : Tables) → Begins (plain tables) names.now (equal_command tables (known_of names.now) words.entry) (toil_by (known_of names.now) (Some Equal) words.entry) (need_by (known_of names.now) (Some Equal) words.entry) work.new) }
    ensures refused { IfErr result (λ fault. (tables : Tables) → Refuses fault (equal_command tables (known_of names.now) words.entry)) }
{
    let Some((left, right, order)) = three(words) else {
        return Err(Fault::Refused(Error::Words));
    };
    let (Some(left), Some(right)) = (names.series(left), names.series(right)) else {
        return Err(Fault::Refused(Error::Name));
    };
    let book = names.book();
    let (colours, others) = (book.colours(left), book.colours(right));
    match order_shared(
        MAX_CONDITIONS,
        usize::from(colours),
        usize::from(others),
        order,
    ) {
        Ok(order) => Ok(work.equal(book, left, right, order)?),
        Err(error) => Err(Fault::Refused(error)),
    }
}
