ghost use Rattle.std.specs.Prelude.{◌≡◌, ℕ, ◌+◌, ◌≤◌, ◌<◌, List, [], length, nat_le, slice_get, IfOk, OnOk, OnErr, None, Some, Ok, Err};
ghost use Rattle.mal_check.specs.Checked.{plan_fault};
ghost use Rattle.mal_print.specs.Canon.{plan_text};
ghost use Rattle.pool_policy.specs.declared.options.PoolOptions.{PoolOptions as OptionsSeen};
ghost use Rattle.pool_policy.specs.Scorers.{IsScorerOf};
ghost use Rattle.run_log.specs.Events.{log_tree};
ghost use Rattle.sql_parse.specs.declared.error.ParseError.TheVariants.{Refused};
ghost use Rattle.sql_definitions.specs.declared.refusal.Refusal.{Refusal as RefusalSeen};
ghost use Rattle.reply_layout.specs.Doings.{code_of as code_shown};
ghost use Rattle.reply_layout.specs.declared.shown.Shown.TheVariants as shown;
ghost use Rattle.query_run.specs.declared.step.Step.TheVariants as step;
ghost use Rattle.session_run.specs.declared.stage.Stage.TheVariants as stage;
ghost use Rattle.session_run.specs.Kept.{HasRead, Stands};
ghost use Rattle.session_run.specs.Works.{CountsInside, CountsOutside, IsWorked, done_by, held_in, lost_in};
ghost use Rattle.session_run.specs.Stages.{ComesTo, Follows, HasComputed, HasDone, IsReady, IsSameSession, IsSoundStage, MayBegin, ReadsOn, at_stage, with_reply};

use crate::stage::Stage;
use answer_text::write_reply;
use bat_core::Operate;
use book_core::Book;
use cell_core::{Memory, Sequence, Steps, Word};
use mal_meaning::Plan;
use mal_print::print_mal;
use pool_policy::Who;
use query_run::Step;
use reply_layout::Shown;
use score_hook::Scorer;
use sql_parse::{ParseError, parse};
use sql_tree::Stmt;
use std::alloc::Global;
use std::mem;
use std::sync::ledger::Ledger;

/// The run of one script.
pub struct Session {
    /// Its number, from 1.
    pub number: u32,
    /// The texts of its statements.
    pub pieces: Sequence<Word>,
    /// The number of statements that have ended.
    pub ended: u32,
    /// Their replies, as they are printed.
    pub text: Vec<u8>,
    /// The stated work of its queries so far, as it was done.
    pub work: u128,
    /// Whether it goes through plans as results are ready, not in the order of their instructions.
    pub wide: bool,
    /// What it does next.
    pub stage: Stage,
}

// By a call of its own, so that proofs needn't go through its forms where one is dropped.
impl Drop for Session {
    fn drop(self) {
        let Session {
            number: _,
            pieces: _,
            ended: _,
            text: _,
            work: _,
            wide: _,
            stage: _,
        } = self;
    }
}

impl Session {
    /// A session that has not begun.
    pub fn new(alloc: Global, number: u32, pieces: Sequence<Word>, wide: bool) -> Session
        requires low { 1 ≤ number }
        requires high { number ≤ 16 }
        requires short { length pieces ≤ 256 }
        ensures number { result.number ≡ number }
        ensures pieces { result.pieces ≡ pieces }
        ensures stands { (options : OptionsSeen) → Stands options [] result }
        ensures worked { (options : OptionsSeen) → IsWorked options [] result }
        ensures wide { result.wide ≡ wide }
        ensures begins { MayBegin result.stage }
        ensures done { done_by result ≡ 0 }
    {
        Session {
            number,
            pieces,
            ended: 0,
            text: Vec::new(alloc),
            work: 0,
            wide,
            stage: Stage::Between,
        }
    }

    /// Its replies, as they are printed. The rest is dropped.
    pub fn into_text(self) -> Vec<u8>
        ensures { result ≡ self.text }
    {
        let Session {
            number: _,
            pieces: _,
            ended: _,
            text,
            work: _,
            wide: _,
            stage: _,
        } = self;
        text
    }

    /// Whether all its statements have ended.
    pub fn done(&self) -> bool
        ensures { result ≡ nat_le (length self.now.pieces) self.now.ended }
    {
        self.ended as usize >= self.pieces.len()
    }

    /// Its number and that of its present statement.
    pub(crate) fn who(&self) -> Who
        requires { self.now.ended < 256 }
        ensures { result ≡ record { session = self.now.number; statement = self.now.ended + 1 } }
    {
        Who {
            session: self.number,
            statement: self.ended + 1,
        }
    }

    /// Computes up to the next event. It also writes the reply to a statement that has ended, and
    /// parses the text of the next one. The counter rises by the work that is done; where the
    /// query's plan overflows, by at most its load more. Where memory runs out, nothing is promised
    /// of the session.
    pub fn outside<E: Operate, L: Ledger>(
        &mut self,
        alloc: Global,
        kernel: &E,
        steps: &mut Steps<L>,
    ) -> Result<(), Memory>
        requires { IsSoundStage self.old.stage }
        ensures computed { OnOk result (HasComputed self.old self.new) }
        ensures counts { OnOk result (CountsOutside self.old self.new steps.old steps.new) }
    {
        let stage = mem::replace(&mut self.stage, Stage::Between);
        self.stage = self.compute(alloc, stage, kernel, steps)?;
        Ok(())
    }

    /// Does the next event. Where memory runs out, the book stays as it was, and nothing is
    /// promised of the session. The counter rises by the work that a write adds to the totals;
    /// where its plan overflows, by at most its load more.
    pub fn inside<E: Operate, L: Ledger>(
        &mut self,
        alloc: Global,
        book: &mut Book,
        scorer: &Scorer,
        kernel: &E,
        steps: &mut Steps<L>,
    ) -> Result<(), Memory>
        requires scorer { IsScorerOf scorer.now.kind scorer.now.weights.items book.old.options }
        requires stands { Stands book.old.options (log_tree book.old.log) self.old }
        requires worked { IsWorked book.old.options (log_tree book.old.log) self.old }
        requires more { self.old.ended < length self.old.pieces }
        requires ready { IsReady self.old.stage }
        ensures options { book.new.options ≡ book.old.options }
        ensures session { OnOk result (IsSameSession self.old self.new) }
        ensures follows { OnOk result (Follows self.old.stage self.new.stage) }
        ensures does { OnOk result (HasDone book.old book.new self.old self.new) }
        ensures counts { OnOk result (CountsInside book.old book.new self.old self.new steps.old steps.new) }
        ensures same { OnErr result (book.new ≡ book.old) }
    {
        let stage = mem::replace(&mut self.stage, Stage::Between);
        match stage {
            Stage::Reading(read) => self.start(alloc, book, scorer, read, kernel, steps),
            Stage::Querying(step) => self.go_on(alloc, book, scorer, step),
            Stage::Between | Stage::Explaining(_) | Stage::Telling(_) => unreachable!(),
        }
    }

    /// The stage that follows `stage` before the next event.
    fn compute<E: Operate, L: Ledger>(
        &mut self,
        alloc: Global,
        stage: Stage,
        kernel: &E,
        steps: &mut Steps<L>,
    ) -> Result<Stage, Memory>
        requires { IsSoundStage stage }
        ensures same { OnOk result (self.new ≡ record self.old { text = self.new.text }) }
        ensures stage { IfOk result (λ next. ComesTo self.old stage next self.new.text.items) }
        ensures least { IfOk result (λ next. steps.old + held_in next ≤ steps.new + held_in stage) }
        ensures most { IfOk result (λ next. steps.new + held_in stage ≤ (steps.old + held_in next) + lost_in stage next) }
    {
        match stage {
            Stage::Querying(step) => Ok(Stage::Querying(step.outside(alloc, kernel, steps)?)),
            Stage::Explaining(plan) => explain(alloc, &plan),
            Stage::Telling(shown) => {
                write_reply(alloc, self.ended, &shown, &mut self.text)?;
                self.read_on(alloc)
            }
            Stage::Between => self.read_on(alloc),
            Stage::Reading(read) => Ok(Stage::Reading(read)),
        }
    }

    /// Parses the text of the next statement, if there is one.
    fn read_on(&self, alloc: Global) -> Result<Stage, Memory>
        ensures { IfOk result (ReadsOn self.now.pieces self.now.ended) }
    {
        if self.done() {
            return Ok(Stage::Between);
        }
        match self.read_next(alloc) {
            Ok(stmt) => Ok(Stage::Reading(Ok(stmt))),
            Err(ParseError::Refused(refusal)) => Ok(Stage::Reading(Err(refusal))),
            Err(ParseError::Memory) => Err(Memory),
        }
    }

    /// Parses the text of its next statement.
    fn read_next(&self, alloc: Global) -> Result<Stmt, ParseError>
        requires { self.now.ended < length self.now.pieces }
        ensures read { IfOk result (λ stmt. HasRead self.now.pieces self.now.ended (Ok stmt)) }
        ensures refused { (refusal : RefusalSeen) → result ≡ Err (Refused refusal) → HasRead self.now.pieces self.now.ended (Err refusal) }
    {
        parse(alloc, self.piece().text())
    }

    /// The text of its next statement.
    fn piece(&self) -> &Word
        requires { self.now.ended < length self.now.pieces }
        ensures { slice_get self.now.pieces self.now.ended ≡ Some result.now }
    {
        &self.pieces.as_slice()[self.ended as usize]
    }

    /// Ends its statement with this reply.
    pub(crate) fn tell(&mut self, shown: Shown)
        requires { self.old.ended < 256 }
        ensures { self.new ≡ with_reply self.old shown }
    {
        self.ended += 1;
        self.stage = Stage::Telling(shown);
    }
}

/// The end of an EXPLAIN, with the text of its plan.
fn explain(alloc: Global, plan: &Plan) -> Result<Stage, Memory>
    requires { plan_fault plan.now ≡ None }
    ensures { IfOk result (λ next. next ≡ stage.Querying (step.Ending (shown.Mal (plan_text plan.now)) 0)) }
{
    let text = print_mal(alloc, plan)?;
    let shown = Shown::Mal(Sequence::from_vec(text));
    Ok(Stage::Querying(Step::Ending(shown, 0)))
}
