//! The machine carried to its end.

ghost use Rattle.std.specs.Prelude.{◌≡◌, ◌<◌, length, IfOk};
ghost use Rattle.bs_series.specs.Series.{colours_of};
ghost use Rattle.bs_series.specs.Accepted.{Suits};
ghost use Rattle.bs_series.specs.SeriesCode.{IsColouredCode, written_at};
ghost use Rattle.bs_series.specs.Expressions.{series_at};

use crate::eval::{Ask, Eval};
use crate::memory::Memory;
use bs_frac::Coef;
use bs_series::{Book, SeriesId};
use bs_steps::Steps;
use bs_tableau::Tableau;
use bs_tree::Code;
use std::alloc::{AllocError, Global};
use std::sync::ledger::Ledger;

/// The written value of a series at a tree, with nothing remembered. An error comes of want of memory.
pub fn evaluate<L: Ledger>(
    alloc: Global,
    book: &Book,
    tables: &[Tableau],
    series: SeriesId,
    code: Code,
    steps: &mut Steps<L>,
) -> Result<Coef, AllocError>
    requires known { series < length book.now }
    requires coloured { IsColouredCode (colours_of (series_at book.now series)) code }
    requires suits { Suits tables.now book.now }
    ensures { IfOk result (λ coef. coef ≡ written_at tables.now (series_at book.now series) code) }
{
    let mut memory = Memory::new(alloc);
    let mut eval = Eval::start(alloc, series, code);
    'questions: loop {
        match eval.next(book, tables, &mut memory, None, steps)? {
            Ask::Look { .. } | Ask::Keep { .. } => {}
            Ask::Done { coef } => return Ok(coef),
        }
    }
}
