//! The machine.

ghost use Rattle.std.specs.Prelude.{true, false, ◌≡◌, ◌≢◌, ◌+◌, ◌<◌, ◌≤◌, ◌⊎◌, [], ◌++◌, length, None, Some, IfOk, IfErr, OnOk, OnErr, IsErr, IfSome, IfNone, MatchOption};
ghost use Rattle.bs_reply.specs.Lines.{same_line, error_line};
ghost use Rattle.bs_script.specs.declared.TheConstants.{MAX_COMMANDS};
ghost use Rattle.bs_series.specs.Expressions.{Extends};
ghost use Rattle.bs_command.specs.Changes.{IsApt, Carries, Refuses, Lists, ListsNone};
ghost use Rattle.bs_names.specs.Space.{IsBookOf};
ghost use Rattle.bs_session.specs.Counted.{Counts, IsTame};
ghost use Rattle.bs_work.specs.WorkCounted.{completed_on, work_begun, work_waiting, work_waited, MovesOn, ApartOn};
ghost use Rattle.bs_command.specs.Errors.{error_number};
ghost use Rattle.bs_session.specs.Listing.{session_listed};
ghost use Rattle.bs_session.specs.Replies.{session_replies};
ghost use Rattle.bs_names.specs.Space.{known_of};
ghost use Rattle.bs_command.specs.Toil.{toil_of};
ghost use Rattle.bs_work.specs.Works.{IsHanded};
ghost use Rattle.bs_session.specs.Turns.{IsQuiet, GoesOn, Applies, Settles, fits, accepted};
ghost use Rattle.bs_session.specs.Machine.{State, said, session_at, commands_of, plain_of, outcome_at, line_at, need_here, lines_here, lines_left, IsTruthful, is_yes, found_of, IsSound, SaysOn, IsDone, Takes, left};
ghost use Rattle.bs_session.specs.declared.asked.Asked.TheVariants as asked;
ghost use Rattle.bs_tableau.specs.Words.{words};

use crate::MAX_REPLIES;
use crate::answer::Answer;
use crate::asked::Asked;
use bs_catalog::Catalog;
use bs_command::{Carried, Change, Error, Fault, command};
use bs_eval::{Memory, TableWeights};
use bs_frac::Coef;
use bs_names::{LiveTree, Namespace, Seen};
use bs_reply::{Line, write_line};
use bs_script::Script;
use bs_series::Book;
use bs_steps::Steps;
use bs_work::{Step, Work};
use std::alloc::{AllocError, Global};
use std::marker::Model;
use std::mem;
use std::sync::ledger::Ledger;

/// A session that is being carried out.
#[derive(Drop)]
pub struct Session {
    alloc: Global,
    number: usize,
    place: usize,
    interned: u32,
    used: usize,
    names: Namespace,
    weights: TableWeights,
    out: Vec<u8>,
    asked: Asked,
    work: Work,
    memory: Memory,
    failed: bool,
}

impl Model for Session {
    ghost use Rattle.std.specs.Coded.{codes};
    ghost use Rattle.bs_series.specs.SeriesData.{coded_series};
    ghost use Rattle.bs_session.specs.Machine.{State};

    ghost Value = { State };

    ghost coded = { Prim.hlevel (codes, coded_series) };

    ghost view = { λ a. record {
      number = a.number;
      place = a.place;
      interned = a.interned;
      used = a.used;
      space = a.names;
      out = a.out.items;
      asked = a.asked;
      work = a.work;
      memory = a.memory;
      failed = a.failed;
    } };
}

fn is_yes(answer: Answer) -> bool
    ensures { result ≡ is_yes answer }
{
    matches!(answer, Answer::Yes)
}

fn found_of(answer: Answer) -> Option<Coef>
    ensures { result ≡ found_of answer }
{
    match answer {
        Answer::Found(coef) => Some(coef),
        Answer::Go | Answer::Yes | Answer::No | Answer::Missing => None,
    }
}

impl Session {
    /// A session of the script, sessions counted from 0, over trees and rows that an earlier session may have made.
    pub fn start(
        alloc: Global,
        script: &Script,
        number: usize,
        trees: Catalog,
    ) -> Result<Session, AllocError>
        requires { number < length script.now.sessions }
        ensures said { IfOk result (λ s. said script.now s ≡ session_replies script.now (session_at script.now number)) }
        ensures sound { IfOk result (λ s. IsSound script.now s) }
        ensures number { IfOk result (λ s. s.number ≡ number) }
        ensures lines { IfOk result (λ s. lines_left script.now s ≡ session_listed script.now (session_at script.now number)) }
        ensures none { IfOk result (λ s. (s.space.live ≡ []) × (s.space.book ≡ []) × (s.interned ≡ 0) × (s.asked ≡ asked.Nothing)) }
    {
        prove!(number < script.sessions().len());
        Ok(Session {
            alloc,
            number,
            place: 0,
            interned: 0,
            used: 0,
            names: Namespace::new(alloc),
            weights: TableWeights::new(alloc),
            out: Vec::new(alloc),
            asked: Asked::Nothing,
            work: Work::new(alloc),
            memory: Memory::over(alloc, trees),
            failed: false,
        })
    }

    /// The expressions of the session's series, by their ids.
    pub fn book(&self) -> &Book
        ensures { result.now ≡ self.now.space.book }
    {
        self.names.book()
    }

    /// The session's trees and their rows, for another session.
    pub fn into_trees(self) -> Catalog {
        self.memory.into_trees()
    }

    /// The next step, after the answer to the last one.
    ///
    /// Once memory ran out, each later call says so.
    pub fn next<L: Ledger>(
        &mut self,
        script: &Script,
        answer: Answer,
        steps: &mut Steps<L>,
    ) -> Result<Step, AllocError>
        requires sound { self.old.failed ≡ false → IsSound script.now self.old }
        requires truthful { self.old.failed ≡ false → IsTruthful script.now self.old answer }
        ensures said { IfOk result (λ step. SaysOn step (said script.now self.old) (said script.now self.new)) }
        ensures takes { IfOk result (λ step. Takes script.now self.old self.new step) }
        ensures counts { IfOk result (λ step. Counts self.old self.new (found_of answer) (steps.old + lines_left script.now self.old) (steps.new + lines_left script.now self.new) (Some step)) }
        ensures sound { OnOk result (IsSound script.now self.new) }
        ensures number { OnOk result (self.new.number ≡ self.old.number) }
        ensures ids_stay { OnOk result (Extends self.old.space.book self.new.space.book) }
        ensures nearer { IfOk result (λ step. IsDone step ⊎ (left script.now self.new < left script.now self.old)) }
        ensures failed { OnErr result (self.new.failed ≡ true) }
        ensures for_good { self.old.failed ≡ true → IsErr result }
    {
        if self.failed {
            return Err(AllocError);
        }
        let step = self.try_next(script, answer, steps);
        self.failed = step.is_err();
        step
    }

    fn try_next<L: Ledger>(
        &mut self,
        script: &Script,
        answer: Answer,
        steps: &mut Steps<L>,
    ) -> Result<Step, AllocError>
        requires sound { IsSound script.now self.old }
        requires truthful { IsTruthful script.now self.old answer }
        ensures said { IfOk result (λ step. SaysOn step (said script.now self.old) (said script.now self.new)) }
        ensures takes { IfOk result (λ step. Takes script.now self.old self.new step) }
        ensures counts { IfOk result (λ step. Counts self.old self.new (found_of answer) (steps.old + lines_left script.now self.old) (steps.new + lines_left script.now self.new) (Some step)) }
        ensures sound { OnOk result (IsSound script.now self.new) }
        ensures number { OnOk result (self.new.number ≡ self.old.number) }
        ensures ids_stay { OnOk result (Extends self.old.space.book self.new.space.book) }
        ensures nearer { IfOk result (λ step. IsDone step ⊎ (left script.now self.new < left script.now self.old)) }
    {
        match self.take(script, answer, steps)? {
            Some(step) => Ok(step),
            None => self.go_on(script, steps),
        }
    }

    /// Takes the answer to what was asked, if anything was. Where more is to be asked for the same reply, says what.
    fn take<L: Ledger>(
        &mut self,
        script: &Script,
        answer: Answer,
        steps: &mut Steps<L>,
    ) -> Result<Option<Step>, AllocError>
        requires sound { IsSound script.now self.old }
        requires truthful { IsTruthful script.now self.old answer }
        ensures said { OnOk result (said script.now self.new ≡ said script.now self.old) }
        ensures takes { IfOk result (λ step. MatchOption step (IsQuiet self.old self.new) (λ s. Takes script.now self.old self.new s × (¬ IsDone s))) }
        ensures counts { IfOk result (λ step. Counts self.old self.new (found_of answer) (steps.old + lines_left script.now self.old) (steps.new + lines_left script.now self.new) step) }
        ensures sound { OnOk result (IsSound script.now self.new) }
        ensures number { OnOk result (self.new.number ≡ self.old.number) }
        ensures ids_stay { OnOk result (Extends self.old.space.book self.new.space.book) }
        ensures nearer { IfOk result (λ step. MatchOption step (left script.now self.new ≤ left script.now self.old) (λ _. left script.now self.new < left script.now self.old)) }
    {
        match self.asked {
            Asked::Nothing => Ok(None),
            Asked::Same { .. } => {
                self.compared(is_yes(answer))?;
                Ok(None)
            }
            Asked::Value => self.evaluate(script, found_of(answer), steps),
        }
    }

    /// Carries out the commands from the place on, until there is something to ask.
    fn go_on<L: Ledger>(
        &mut self,
        script: &Script,
        steps: &mut Steps<L>,
    ) -> Result<Step, AllocError>
        requires sound { IsSound script.now self.old }
        requires idle { self.old.asked ≡ asked.Nothing }
        ensures said { IfOk result (λ step. SaysOn step (said script.now self.old) (said script.now self.new)) }
        ensures takes { IfOk result (λ step. Takes script.now self.old self.new step) }
        ensures counts { IfOk result (λ step. Counts self.old self.new None (steps.old + lines_left script.now self.old) (steps.new + lines_left script.now self.new) (Some step)) }
        ensures sound { OnOk result (IsSound script.now self.new) }
        ensures number { OnOk result (self.new.number ≡ self.old.number) }
        ensures ids_stay { OnOk result (Extends self.old.space.book self.new.space.book) }
        ensures nearer { IfOk result (λ step. IsDone step ⊎ (left script.now self.new < left script.now self.old)) }
    {
        let count = script.sessions()[self.number].len();
        'turns: while self.place < count {
            if let Some(step) = self.turn(script, steps)? {
                return Ok(step);
            }
        }
        Ok(self.end(script))
    }

    /// Carries out the command at the place, or asks what its reply wants to know.
    fn turn<L: Ledger>(
        &mut self,
        script: &Script,
        steps: &mut Steps<L>,
    ) -> Result<Option<Step>, AllocError>
        requires sound { IsSound script.now self.old }
        requires idle { self.old.asked ≡ asked.Nothing }
        requires more { self.old.place < length (commands_of script.now self.old) }
        ensures said { OnOk result (said script.now self.new ≡ said script.now self.old) }
        ensures takes { IfOk result (λ step. MatchOption step (IsQuiet self.old self.new) (λ s. Takes script.now self.old self.new s × (¬ IsDone s))) }
        ensures counts { IfOk result (λ step. Counts self.old self.new None (steps.old + lines_left script.now self.old) (steps.new + lines_left script.now self.new) step) }
        ensures sound { OnOk result (IsSound script.now self.new) }
        ensures number { OnOk result (self.new.number ≡ self.old.number) }
        ensures ids_stay { OnOk result (Extends self.old.space.book self.new.space.book) }
        ensures nearer { OnOk result (left script.now self.new < left script.now self.old) }
    {
        let start = self.written();
        match self.carry(script, steps) {
            Ok(Carried::Replied { change }) => self.settle(start, &change),
            Ok(Carried::Asked { left, right }) => {
                let step = Step::Same {
                    left: left.number,
                    right: right.number,
                };
                self.asked = Asked::Same { left, right };
                Ok(Some(step))
            }
            Ok(Carried::Begun) => {
                self.asked = Asked::Value;
                self.evaluate(script, None, steps)
            }
            Err(Fault::Refused(error)) => {
                self.refuse(error)?;
                Ok(None)
            }
            Err(Fault::Memory(cause)) => Err(cause),
        }
    }

    /// The number of bytes that are written.
    fn written(&self) -> usize
        ensures { result ≡ length self.now.out }
    {
        self.out.len()
    }

    /// Carries out the command at the place, as far as its reply.
    fn carry<'s, L: Ledger>(
        &mut self,
        script: &'s Script,
        steps: &mut Steps<L>,
    ) -> Result<Carried<'s>, Fault>
        requires sound { IsSound script.now self.old }
        requires more { self.old.place < length (commands_of script.now self.old) }
        ensures carried { IfOk result (λ carried. Carries (plain_of script.now self.old) self.new.space (outcome_at script.now self.old) (toil_of (known_of self.old.space) (words (line_at script.now self.old))) (need_here script.now self.old) self.old.out self.new.out self.new.work carried) }
        ensures refused { IfErr result (λ fault. Refuses fault (outcome_at script.now self.old)) }
        ensures lists { IfOk result (Lists (lines_here script.now self.old) steps.old steps.new) }
        ensures unlisted { IfErr result (ListsNone (lines_here script.now self.old) steps.old steps.new) }
        ensures book { IsBookOf (plain_of script.now self.old) self.old.space self.new.space }
        ensures rest { self.new ≡ record self.old { out = self.new.out; space = self.new.space; work = self.new.work } }
        ensures unwritten { OnErr result (self.new.out ≡ self.old.out) }
    {
        let number = self.number;
        let session = &script.sessions()[number];
        let tables = Seen::new(script, session.above());
        let place = self.place;
        let line = session.command(place);
        command(
            &tables,
            &mut self.weights,
            &mut self.names,
            line,
            &mut self.out,
            &mut self.work,
            steps,
        )
    }

    /// Goes on with the work on a reply: asks for what it wants, or takes the reply where it is whole.
    fn evaluate<L: Ledger>(
        &mut self,
        script: &Script,
        found: Option<Coef>,
        steps: &mut Steps<L>,
    ) -> Result<Option<Step>, AllocError>
        requires sound { IsSound script.now self.old }
        requires works { self.old.asked ≡ asked.Value }
        requires handed { IsHanded (plain_of script.now self.old) self.old.space.book self.old.work found }
        ensures said { OnOk result (said script.now self.new ≡ said script.now self.old) }
        ensures takes { IfOk result (λ step. MatchOption step (IsQuiet self.old self.new) (λ s. Takes script.now self.old self.new s × (¬ IsDone s))) }
        ensures counts { IfOk result (λ step. Counts self.old self.new found (steps.old + lines_left script.now self.old) (steps.new + lines_left script.now self.new) step) }
        ensures sound { OnOk result (IsSound script.now self.new) }
        ensures number { OnOk result (self.new.number ≡ self.old.number) }
        ensures ids_stay { OnOk result (Extends self.old.space.book self.new.space.book) }
        ensures nearer { OnOk result (left script.now self.new < left script.now self.old) }
    {
        let step = self.work_on(script, found, steps)?;
        if step.is_none() {
            self.worked()?;
        }
        Ok(step)
    }

    /// Asks what the work on the reply wants to know; nothing where it is at its end.
    fn work_on<L: Ledger>(
        &mut self,
        script: &Script,
        found: Option<Coef>,
        steps: &mut Steps<L>,
    ) -> Result<Option<Step>, AllocError>
        requires sound { IsSound script.now self.old }
        requires works { self.old.asked ≡ asked.Value }
        requires handed { IsHanded (plain_of script.now self.old) self.old.space.book self.old.work found }
        ensures goes { IfOk result (λ step. GoesOn (plain_of script.now self.old) self.old.space.book self.old.work step self.new.work self.new.memory) }
        ensures counted { IfOk result (λ step. steps.new + work_begun self.old.space.book self.old.work ≡ steps.old + (work_begun self.old.space.book self.new.work + completed_on self.old.space.book step)) }
        ensures moves { IfOk result (λ step. MovesOn (work_waited self.old.work found) step (work_waiting self.new.work)) }
        ensures apart { IfOk result (λ step. IfSome step (ApartOn (work_waiting self.new.work))) }
        ensures ended { IfOk result (λ step. IfNone step (work_begun self.old.space.book self.new.work ≡ 0)) }
        ensures rest { self.new ≡ record self.old { work = self.new.work; memory = self.new.memory } }
    {
        let number = self.number;
        let tables = Seen::new(script, script.sessions()[number].above());
        let book = self.names.book();
        self.work
            .next(book, tables.tables(), &mut self.memory, found, steps)
    }

    /// Takes the reply that is worked out.
    fn worked(&mut self) -> Result<(), AllocError>
        requires used { self.old.used ≤ MAX_REPLIES }
        requires place { self.old.place < MAX_COMMANDS }
        ensures { OnOk result (self.new ≡ accepted (length self.old.out) (record self.old { out = self.old.out ++ self.old.work.draft.items; asked = asked.Nothing })) }
    {
        self.asked = Asked::Nothing;
        let start = self.out.len();
        self.out.extend_from_slice(self.work.draft())?;
        self.accept(start)?;
        Ok(())
    }

    /// Goes on with the answer to a comparison.
    fn compared(&mut self, yes: bool) -> Result<(), AllocError>
        requires used { self.old.used ≤ MAX_REPLIES }
        requires place { self.old.place < MAX_COMMANDS }
        ensures { OnOk result (self.new ≡ accepted (length self.old.out) (record self.old { out = self.old.out ++ same_line yes; asked = asked.Nothing })) }
    {
        self.asked = Asked::Nothing;
        let start = self.out.len();
        write_line(&mut self.out, &Line::Same { yes })?;
        self.accept(start)?;
        Ok(())
    }

    /// Takes the reply from `start` on, with what it changes; or refuses it for its length.
    fn settle(&mut self, start: usize, change: &Change<'_>) -> Result<Option<Step>, AllocError>
        requires start { start ≤ length self.old.out }
        requires used { self.old.used ≤ MAX_REPLIES }
        requires place { self.old.place < MAX_COMMANDS }
        requires interned { self.old.interned ≤ self.old.place }
        requires apt { IsApt self.old.space change.now }
        ensures settles { IfOk result (λ step. Settles start change.now self.old self.new step) }
    {
        if self.accept(start)? {
            self.apply(change)
        } else {
            Ok(None)
        }
    }

    /// Takes the reply from `start` on, or writes an error in its place, where the replies would be too long.
    fn accept(&mut self, start: usize) -> Result<bool, AllocError>
        requires start { start ≤ length self.old.out }
        requires used { self.old.used ≤ MAX_REPLIES }
        requires place { self.old.place < MAX_COMMANDS }
        ensures fits { IfOk result (λ yes. yes ≡ fits start self.old) }
        ensures state { OnOk result (self.new ≡ accepted start self.old) }
    {
        let gained = self.out.len() - start;
        if gained > MAX_REPLIES - self.used {
            self.out.truncate(start);
            self.refuse(Error::Replies)?;
            return Ok(false);
        }
        self.used += gained;
        self.place += 1;
        Ok(true)
    }

    /// Writes the line of an error.
    fn refuse(&mut self, error: Error) -> Result<(), AllocError>
        requires place { self.old.place < MAX_COMMANDS }
        ensures { OnOk result (self.new ≡ record self.old { out = self.old.out ++ error_line (error_number error); place = self.old.place + 1 }) }
    {
        write_line(
            &mut self.out,
            &Line::Error {
                number: error.number(),
            },
        )?;
        self.place += 1;
        Ok(())
    }

    /// Makes the change, and says what is to be done for it.
    fn apply(&mut self, change: &Change<'_>) -> Result<Option<Step>, AllocError>
        requires interned { self.old.interned ≤ MAX_COMMANDS }
        requires apt { IsApt self.old.space change.now }
        ensures { IfOk result (λ step. Applies change.now self.old self.new step) }
    {
        match *change {
            Change::Nothing => Ok(None),
            Change::Name { name, code } => {
                let tree = self.interned;
                self.names.insert(name, LiveTree { number: tree, code })?;
                self.interned += 1;
                Ok(Some(Step::Intern { tree, code }))
            }
            Change::Drop { name } => match self.names.remove(name) {
                Some(tree) => Ok(Some(Step::Release { tree: tree.number })),
                None => Ok(None),
            },
            Change::Define { name, series } => {
                self.names.define(name, series)?;
                Ok(None)
            }
        }
    }

    /// Gives the trees back that are still named, one at a call, and then the replies.
    fn end(&mut self, script: &Script) -> Step
        requires sound { IsSound script.now self.old }
        requires idle { self.old.asked ≡ asked.Nothing }
        requires last { self.old.place ≡ length (commands_of script.now self.old) }
        ensures said { SaysOn result (said script.now self.old) (said script.now self.new) }
        ensures takes { Takes script.now self.old self.new result }
        ensures tame { IsTame result }
        ensures lines { lines_left script.now self.new ≡ lines_left script.now self.old }
        ensures sound { IsSound script.now self.new }
        ensures number { self.new.number ≡ self.old.number }
        ensures ids_stay { Extends self.old.space.book self.new.space.book }
        ensures nearer { IsDone result ⊎ (left script.now self.new < left script.now self.old) }
    {
        match self.names.pop() {
            Some(tree) => Step::Release { tree: tree.number },
            None => Step::Done {
                reply: mem::replace(&mut self.out, Vec::new(self.alloc)),
            },
        }
    }
}
