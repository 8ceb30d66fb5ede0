//! The work on a reply that wants coefficients.
//!
//! It evaluates one coefficient after another over the memory of the session, and hands each to its task, which writes the reply.

ghost use Rattle.std.specs.Prelude.{◌≡◌, ◌<◌, ◌≤◌, ◌++◌, ◌+◌, suc, List, [], None, length, IfOk, IfSome, IfNone, OnOk, IsSome};
ghost use Rattle.bs_enum.specs.AllTrees.{trees_to};
ghost use Rattle.bs_tableau.specs.Table.{Table};
ghost use Rattle.bs_series.specs.Series.{Series, colours_of};
ghost use Rattle.bs_series.specs.SeriesCode.{written_at};
ghost use Rattle.bs_series.specs.Accepted.{Suits};
ghost use Rattle.bs_series.specs.Expressions.{series_at};
ghost use Rattle.bs_eval.specs.Pairs.{value_at_pair};
ghost use Rattle.bs_eval.specs.Values.{IsMemory};
ghost use Rattle.bs_eval.specs.declared.memory.Memory.{Memory as Left};
ghost use Rattle.bs_eval.specs.Turns.{turns};
ghost use Rattle.bs_reply.specs.Lines.{coeff_line};
ghost use Rattle.bs_work.specs.SeriesReplies.{print_reply, equal_reply};
ghost use Rattle.bs_tree.specs.Tree.{Tree};
ghost use Rattle.bs_work.specs.Needed.{need_at, need_to_print, need_to_compare};
ghost use Rattle.bs_work.specs.WorkNeeded.{NeedsNext, NeedsBehind, NeedsJob, AreNeeded, NeedsNoMore, KeepsNeed};
ghost use Rattle.bs_work.specs.WorkCounted.{completed_on, job_begun, job_waiting, job_waited, work_begun, work_waiting, work_waited, MovesOn, ApartOn};
ghost use Rattle.bs_work.specs.Works.{to_come_next, to_come_of, whole_reply, next_left, job_left, work_left, turns_to_print, turns_to_compare, HasColoured, IsNext, IsJob, IsWork, IsHeldJob, IsHeldWork, IsHanded, IsTask, StepsOn, pair_of, turns_behind};

use crate::step::Step;
use crate::task::Task;
use bs_enum::count_to;
use bs_eval::{Ask, Eval, Memory};
use bs_frac::Coef;
use bs_order::{MAX_CONDITIONS, UpTo};
use bs_reply::{Line, write_line};
use bs_series::{Book, SeriesId};
use bs_steps::Steps;
use bs_tableau::Tableau;
use bs_tree::{Code, MAX_NODES};
use std::alloc::{AllocError, Global};
use std::sync::ledger::Ledger;

/// An evaluation, and the task that awaits its value.
#[derive(Drop)]
pub struct Job {
    pub eval: Eval,
    pub task: Task,
}

/// A reply in the making: what is written of it, and the job that is left, if one is.
#[derive(Drop)]
pub struct Work {
    alloc: Global,
    draft: Vec<u8>,
    job: Option<Job>,
}

/// The job of a task: its value is still to be worked out.
fn job_of(alloc: Global, next: Option<Task>) -> Option<Job>
    ensures told { (tables : List Table) (es : List Series) → to_come_of tables es result ≡ to_come_next tables es next }
    ensures sound { (tables : List Table) (es : List Series) → IsNext es next → IsJob tables es result }
    ensures held { (es : List Series) (m : Left) → IsHeldJob es m result }
    ensures begun { (es : List Series) → job_begun es result ≡ 0 }
    ensures waits { job_waiting result ≡ [] }
    ensures idle { job_waited result None ≡ [] }
    ensures left { (es : List Series) → job_left es result ≡ next_left es next }
    ensures needs { (es : List Series) (ns : List (Series × Tree)) → NeedsNext es ns next → NeedsJob es ns result }
{
    match next {
        None => None,
        Some(task) => {
            let (series, code) = task.pair();
            Some(Job {
                eval: Eval::start(alloc, series, code),
                task,
            })
        }
    }
}

impl Work {
    /// No job, and nothing written. Takes no memory.
    pub fn new(alloc: Global) -> Work
        ensures job { result.job ≡ None }
        ensures draft { result.draft.items ≡ [] }
    {
        Work {
            alloc,
            draft: Vec::new(alloc),
            job: None,
        }
    }

    /// What is written of the reply.
    pub fn draft(&self) -> &[u8]
        ensures { result.now ≡ self.now.draft.items }
    {
        self.draft.as_slice()
    }

    /// Forgets the work before. Its memory is kept.
    fn clear(&mut self)
        ensures job { self.new.job ≡ None }
        ensures draft { self.new.draft.items ≡ [] }
    {
        self.draft.clear();
        self.job = None;
    }

    /// Begins the reply with one coefficient.
    pub fn coeff(&mut self, book: &Book, series: SeriesId, code: Code)
        requires known { series < length book.now }
        requires coloured { HasColoured book.now series code }
        ensures reply { (tables : List Table) → whole_reply tables book.now self.new ≡ coeff_line (written_at tables (series_at book.now series) code) }
        ensures work { (tables : List Table) → IsWork tables book.now self.new }
        ensures held { (es : List Series) (m : Left) → IsHeldWork es m self.new }
        ensures nearer { work_left book.now self.new ≤ suc (turns (series_at book.now series) code) }
        ensures needs { AreNeeded book.now (need_at (series_at book.now series) code) self.new }
    {
        self.clear();
        self.job = job_of(self.alloc, Some(Task::Coeff { series, code }));
    }

    /// Begins the reply with the coefficients at the trees to an order.
    pub fn print(&mut self, book: &Book, series: SeriesId, order: usize) -> Result<(), AllocError>
        requires known { series < length book.now }
        requires few_nodes { order ≤ MAX_NODES }
        requires few { trees_to order (colours_of (series_at book.now series)) ≤ MAX_CONDITIONS }
        ensures reply { (tables : List Table) → OnOk result (whole_reply tables book.now self.new ≡ print_reply tables (series_at book.now series) order) }
        ensures work { (tables : List Table) → OnOk result (IsWork tables book.now self.new) }
        ensures held { (es : List Series) (m : Left) → OnOk result (IsHeldWork es m self.new) }
        ensures nearer { OnOk result (work_left book.now self.new ≤ turns_to_print (series_at book.now series) order) }
        ensures needs { OnOk result (AreNeeded book.now (need_to_print (series_at book.now series) order) self.new) }
    {
        let colours = usize::from(book.colours(series));
        let number = count_to(order, colours, MAX_CONDITIONS);
        let empty = book.empty_value(series);
        self.clear();
        write_line(&mut self.draft, &Line::Print { number, empty })?;
        let next = Task::printing(series, UpTo::new(order, colours));
        self.job = job_of(self.alloc, next);
        Ok(())
    }

    /// Begins the comparison of two series at the trees to an order. Where their empty values differ the reply is whole at once.
    pub fn equal(
        &mut self,
        book: &Book,
        left: SeriesId,
        right: SeriesId,
        order: usize,
    ) -> Result<(), AllocError>
        requires left { left < length book.now }
        requires right { right < length book.now }
        requires same_colours { colours_of (series_at book.now left) ≡ colours_of (series_at book.now right) }
        requires few_nodes { order ≤ MAX_NODES }
        ensures reply { (tables : List Table) → OnOk result (whole_reply tables book.now self.new ≡ equal_reply tables (series_at book.now left) (series_at book.now right) order) }
        ensures work { (tables : List Table) → OnOk result (IsWork tables book.now self.new) }
        ensures held { (es : List Series) (m : Left) → OnOk result (IsHeldWork es m self.new) }
        ensures nearer { OnOk result (work_left book.now self.new ≤ turns_to_compare (series_at book.now left) (series_at book.now right) order) }
        ensures needs { OnOk result (AreNeeded book.now (need_to_compare (series_at book.now left) (series_at book.now right) order) self.new) }
    {
        let first = book.empty_value(left);
        let second = book.empty_value(right);
        let colours = usize::from(book.colours(left));
        self.clear();
        if first != second {
            return write_line(
                &mut self.draft,
                &Line::EqualEmpty {
                    left: first,
                    right: second,
                },
            );
        }
        let next = Task::comparing(&mut self.draft, left, right, UpTo::new(order, colours))?;
        self.job = job_of(self.alloc, next);
        Ok(())
    }

    /// Goes on until something is to be asked. `None` where the reply is whole. Where memory runs out the work is of no use.
    pub fn next<L: Ledger>(
        &mut self,
        book: &Book,
        tables: &[Tableau],
        memory: &mut Memory,
        mut found: Option<Coef>,
        steps: &mut Steps<L>,
    ) -> Result<Option<Step>, AllocError>
        requires suits { Suits tables.now book.now }
        requires work { IsWork tables.now book.now self.old }
        requires held { IsHeldWork book.now memory.old self.old }
        requires memory { IsMemory tables.now book.now memory.old }
        requires handed { IsHanded tables.now book.now self.old found }
        ensures reply { OnOk result (whole_reply tables.now book.now self.new ≡ whole_reply tables.now book.now self.old) }
        ensures work { OnOk result (IsWork tables.now book.now self.new) }
        ensures held { OnOk result (IsHeldWork book.now memory.new self.new) }
        ensures memory { IsMemory tables.now book.now memory.new }
        ensures steps { IfOk result (λ step. IfSome step (StepsOn tables.now book.now self.new)) }
        ensures counted { IfOk result (λ step. steps.new + work_begun book.now self.old ≡ steps.old + (work_begun book.now self.new + completed_on book.now step)) }
        ensures moves { IfOk result (λ step. MovesOn (work_waited self.old found) step (work_waiting self.new)) }
        ensures apart { IfOk result (λ step. IfSome step (ApartOn (work_waiting self.new))) }
        ensures nearer { IfOk result (λ step. IfSome step (λ _. work_left book.now self.new < work_left book.now self.old)) }
        ensures need { IfOk result (λ step. IfSome step (KeepsNeed book.now self.old self.new)) }
        ensures ended { IfOk result (λ step. IfNone step (work_begun book.now self.new ≡ 0)) }
        ensures whole { IfOk result (λ step. IfNone step (self.new.draft.items ≡ whole_reply tables.now book.now self.old)) }
    {
        'coefficients: while self.job.is_some() {
            if let Some(step) = self.turn(book, tables, memory, found, steps)? {
                return Ok(Some(step));
            }
            found = None;
        }
        Ok(None)
    }

    /// The next question of the job, which stays in its place. `None` where its value has come: the draft then tells it, and the
    /// next job, if one is left, is the work's.
    fn turn<L: Ledger>(
        &mut self,
        book: &Book,
        tables: &[Tableau],
        memory: &mut Memory,
        found: Option<Coef>,
        steps: &mut Steps<L>,
    ) -> Result<Option<Step>, AllocError>
        requires suits { Suits tables.now book.now }
        requires job { IsSome self.old.job }
        requires work { IsWork tables.now book.now self.old }
        requires held { IsHeldWork book.now memory.old self.old }
        requires memory { IsMemory tables.now book.now memory.old }
        requires handed { IsHanded tables.now book.now self.old found }
        ensures reply { OnOk result (whole_reply tables.now book.now self.new ≡ whole_reply tables.now book.now self.old) }
        ensures work { OnOk result (IsWork tables.now book.now self.new) }
        ensures held { OnOk result (IsHeldWork book.now memory.new self.new) }
        ensures memory { IsMemory tables.now book.now memory.new }
        ensures steps { IfOk result (λ step. IfSome step (StepsOn tables.now book.now self.new)) }
        ensures counted { IfOk result (λ step. steps.new + work_begun book.now self.old ≡ steps.old + (work_begun book.now self.new + completed_on book.now step)) }
        ensures moves { IfOk result (λ step. MovesOn (work_waited self.old found) step (work_waiting self.new)) }
        ensures apart { IfOk result (λ step. IfSome step (ApartOn (work_waiting self.new))) }
        ensures idle { IfOk result (λ step. IfNone step (work_waited self.new None ≡ [])) }
        ensures nearer { OnOk result (work_left book.now self.new < work_left book.now self.old) }
        ensures need { IfOk result (λ step. IfSome step (KeepsNeed book.now self.old self.new)) }
        ensures needs { IfOk result (λ step. IfNone step (NeedsNoMore book.now self.old self.new)) }
    {
        match &mut self.job {
            None => Ok(None),
            Some(job) => match job.eval.next(book, tables, memory, found, steps)? {
                Ask::Look { series, code } => Ok(Some(Step::Look { series, code })),
                Ask::Keep { series, code, coef } => Ok(Some(Step::Keep { series, code, coef })),
                Ask::Done { coef } => {
                    self.tell(coef)?;
                    Ok(None)
                }
            },
        }
    }

    /// Hands the value that has come to the task of the job. The next job, if one is left, is the work's.
    fn tell(&mut self, coef: Coef) -> Result<(), AllocError>
        ensures reply { (tables : List Table) (es : List Series) → IfSome self.old.job (λ job. coef ≡ value_at_pair tables es (pair_of job.task)) → OnOk result (whole_reply tables es self.new ≡ whole_reply tables es self.old) }
        ensures work { (tables : List Table) (es : List Series) → IfSome self.old.job (λ job. IsTask es job.task) → OnOk result (IsWork tables es self.new) }
        ensures held { (es : List Series) (m : Left) → OnOk result (IsHeldWork es m self.new) }
        ensures begun { (es : List Series) → OnOk result (work_begun es self.new ≡ 0) }
        ensures waits { OnOk result (work_waiting self.new ≡ []) }
        ensures idle { OnOk result (work_waited self.new None ≡ []) }
        ensures nearer { (es : List Series) → IfSome self.old.job (λ job. OnOk result (work_left es self.new ≤ turns_behind es job.task)) }
        ensures needs { (es : List Series) (ns : List (Series × Tree)) → IfSome self.old.job (λ job. NeedsBehind es ns job.task) → OnOk result (AreNeeded es ns self.new) }
    {
        let Some(job) = self.job.take() else {
            return Ok(());
        };
        let Job { eval: _eval, task } = job;
        let next = task.take(coef, &mut self.draft)?;
        self.job = job_of(self.alloc, next);
        Ok(())
    }
}
