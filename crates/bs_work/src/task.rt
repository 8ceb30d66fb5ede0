//! What is done with the coefficients that a reply wants.

ghost use Rattle.std.specs.Prelude.{◌≡◌, ◌≤◌, ◌++◌, List, Some, None, IfOk, MatchOption, flat_map, sum_by};
ghost use Rattle.bs_tableau.specs.Table.{Table};
ghost use Rattle.bs_series.specs.Series.{Series};
ghost use Rattle.bs_series.specs.Expressions.{series_at};
ghost use Rattle.bs_reply.specs.Lines.{line_text};
ghost use Rattle.bs_eval.specs.Pairs.{value_at_pair};
ghost use Rattle.bs_work.specs.SeriesReplies.{term_at, difference, compared_over};
ghost use Rattle.std.specs.List.{AllByRecursion};
ghost use Rattle.bs_tree.specs.Tree.{Tree};
ghost use Rattle.bs_work.specs.WorkNeeded.{IsWanted, AreBothWanted, NeedsBehind, NeedsNext};
ghost use Rattle.bs_work.specs.Works.{pair_of, to_come, to_come_next, turns_behind, next_left, one_more, both_more, IsOver, IsTask, IsNext};

use bs_frac::Coef;
use bs_order::UpTo;
use bs_reply::{Line, write_line};
use bs_series::SeriesId;
use bs_tree::Code;
use std::alloc::AllocError;

/// What a reply is to tell. Each awaits the value of a series at `code`.
#[derive(Drop)]
pub enum Task {
    /// One coefficient.
    Coeff {
        series: SeriesId,
        code: Code,
    },
    /// The coefficient at a tree, and those at the trees behind it.
    Print {
        series: SeriesId,
        code: Code,
        behind: UpTo,
    },
    /// The comparison of two series at a tree, of which the left value is awaited, and at the trees behind it.
    Left {
        left: SeriesId,
        right: SeriesId,
        code: Code,
        behind: UpTo,
    },
    /// The same, where the left value is there and the right one is awaited.
    Right {
        left: SeriesId,
        right: SeriesId,
        code: Code,
        value: Coef,
        behind: UpTo,
    },
}

impl Task {
    /// The series and the tree whose value is awaited.
    pub fn pair(&self) -> (SeriesId, Code)
        ensures series { result.0 ≡ (pair_of self.now).series }
        ensures code { result.1 ≡ (pair_of self.now).code }
    {
        match self {
            Task::Coeff { series, code } | Task::Print { series, code, .. } => (*series, *code),
            Task::Left { left, code, .. } => (*left, *code),
            Task::Right { right, code, .. } => (*right, *code),
        }
    }

    /// What comes next where the coefficients at these trees are printed.
    pub fn printing(series: SeriesId, mut behind: UpTo) -> Option<Task>
        ensures told { (tables : List Table) (es : List Series) → to_come_next tables es result ≡ flat_map (term_at tables (series_at es series)) behind.left }
        ensures sound { (es : List Series) → IsOver es series behind.colours → IsNext es result }
        ensures nearer { (es : List Series) → next_left es result ≤ sum_by (one_more (series_at es series)) behind.left }
        ensures needs { (es : List Series) (ns : List (Series × Tree)) → AllByRecursion (IsWanted es ns series) behind.left → NeedsNext es ns result }
    {
        match behind.next() {
            None => None,
            Some(code) => Some(Task::Print {
                series,
                code,
                behind,
            }),
        }
    }

    /// What comes next where two series are compared at these trees. Behind the last of them the reply is whole.
    pub fn comparing(
        draft: &mut Vec<u8>,
        left: SeriesId,
        right: SeriesId,
        mut behind: UpTo,
    ) -> Result<Option<Task>, AllocError>
        ensures told { (tables : List Table) (es : List Series) → IfOk result (λ next. draft.new.items ++ to_come_next tables es next ≡ draft.old.items ++ compared_over tables (series_at es left) (series_at es right) behind.left) }
        ensures sound { (es : List Series) → IsOver es left behind.colours → IsOver es right behind.colours → IfOk result (λ next. IsNext es next) }
        ensures nearer { (es : List Series) → IfOk result (λ next. next_left es next ≤ sum_by (both_more (series_at es left) (series_at es right)) behind.left) }
        ensures needs { (es : List Series) (ns : List (Series × Tree)) → AllByRecursion (AreBothWanted es ns left right) behind.left → IfOk result (λ next. NeedsNext es ns next) }
    {
        match behind.next() {
            None => {
                write_line(draft, &Line::EqualYes)?;
                Ok(None)
            }
            Some(code) => Ok(Some(Task::Left {
                left,
                right,
                code,
                behind,
            })),
        }
    }

    /// Takes the awaited value, and writes what it tells. What comes next awaits another one.
    pub fn take(self, coef: Coef, draft: &mut Vec<u8>) -> Result<Option<Task>, AllocError>
        ensures told { (tables : List Table) (es : List Series) → coef ≡ value_at_pair tables es (pair_of self) → IfOk result (λ next. draft.new.items ++ to_come_next tables es next ≡ draft.old.items ++ to_come tables es self) }
        ensures sound { (es : List Series) → IsTask es self → IfOk result (λ next. IsNext es next) }
        ensures nearer { (es : List Series) → IfOk result (λ next. next_left es next ≤ turns_behind es self) }
        ensures needs { (es : List Series) (ns : List (Series × Tree)) → NeedsBehind es ns self → IfOk result (λ next. NeedsNext es ns next) }
    {
        match self {
            Task::Coeff { .. } => {
                write_line(draft, &Line::Coeff { coef })?;
                Ok(None)
            }
            Task::Print {
                series,
                code,
                behind,
            } => {
                write_line(draft, &Line::Term { code, coef })?;
                Ok(Task::printing(series, behind))
            }
            Task::Left {
                left,
                right,
                code,
                behind,
            } => Ok(Some(Task::Right {
                left,
                right,
                code,
                value: coef,
                behind,
            })),
            Task::Right {
                left,
                right,
                code,
                value,
                behind,
            } => match difference(code, &value, &coef) {
                Some(line) => {
                    write_line(draft, &line)?;
                    Ok(None)
                }
                None => Task::comparing(draft, left, right, behind),
            },
        }
    }
}

/// The line that tells two coefficients at a tree apart, where there is one.
fn difference(code: Code, left: &Coef, right: &Coef) -> Option<Line<'static>>
    ensures { MatchOption result (difference code left.now right.now ≡ None) (λ line. difference code left.now right.now ≡ Some (line_text line)) }
{
    match (left, right) {
        (Coef::Value(x), Coef::Value(y)) if x == y => None,
        _ => Some(Line::EqualAt {
            code,
            left: *left,
            right: *right,
        }),
    }
}
