//! The events of a query under way.
ghost use Rattle.std.specs.Prelude.{◌≡◌, ℕ, ◌<◌, length, OnOk, OnErr};
ghost use Rattle.run_log.specs.Events.{log_tree};
ghost use Rattle.reply_layout.specs.Doings.{code_of as code_shown};
ghost use Rattle.query_run.specs.declared.step.Step.TheVariants as step;
ghost use Rattle.session_run.specs.declared.stage.Stage.TheVariants as stage;
ghost use Rattle.session_run.specs.Kept.{Stands};
ghost use Rattle.session_run.specs.Stages.{Follows, HasDone, IsReady, IsSameSession, at_stage};
ghost use Rattle.session_run.specs.Works.{CountsInside, IsWorked};
ghost use Rattle.pool_policy.specs.Scorers.{IsScorerOf};

use crate::session::Session;
use crate::stage::Stage;
use book_core::Book;
use cell_core::Memory;
use lineage_key::Key;
use query_run::{Offer, RunningQuery, Step};
use reply_layout::Shown;
use run_log::ACCEPTED;
use score_hook::Scorer;
use std::alloc::Global;

impl Session {
    /// Does the next event of a query, which is in this step.
    pub(crate) fn go_on(
        &mut self,
        alloc: Global,
        book: &mut Book,
        scorer: &Scorer,
        step: Step,
    ) -> Result<(), Memory>
        requires scorer { IsScorerOf scorer.now.kind scorer.now.weights.items book.old.options }
        requires stands { Stands book.old.options (log_tree book.old.log) (at_stage self.old (stage.Querying step)) }
        requires worked { IsWorked book.old.options (log_tree book.old.log) (at_stage self.old (stage.Querying step)) }
        requires more { self.old.ended < length self.old.pieces }
        requires ready { IsReady (stage.Querying step) }
        ensures options { book.new.options ≡ book.old.options }
        ensures session { OnOk result (IsSameSession self.old self.new) }
        ensures follows { OnOk result (Follows (stage.Querying step) self.new.stage) }
        ensures does { OnOk result (HasDone book.old book.new (at_stage self.old (stage.Querying step)) self.new) }
        ensures counts { OnOk result ((steps : ℕ) → CountsInside book.old book.new (at_stage self.old (stage.Querying step)) self.new steps steps) }
        ensures same { OnErr result (book.new ≡ book.old) }
    {
        match step {
            Step::Asking(query, n, key) => self.ask(alloc, book, query, n, key),
            Step::Offering(query, n, offer) => self.offer(alloc, book, scorer, query, n, offer),
            Step::Ending(shown, work) => self.end(book, shown, work),
            Step::Begun(_) | Step::Open(_) | Step::Found(..) => unreachable!(),
        }
    }

    /// Asks the pool for the result of an instruction.
    fn ask(
        &mut self,
        alloc: Global,
        book: &mut Book,
        query: RunningQuery,
        n: usize,
        key: Key,
    ) -> Result<(), Memory>
        requires stands { Stands book.old.options (log_tree book.old.log) (at_stage self.old (stage.Querying (step.Asking query n key))) }
        requires worked { IsWorked book.old.options (log_tree book.old.log) (at_stage self.old (stage.Querying (step.Asking query n key))) }
        requires more { self.old.ended < length self.old.pieces }
        ensures options { book.new.options ≡ book.old.options }
        ensures session { OnOk result (IsSameSession self.old self.new) }
        ensures follows { OnOk result (Follows (stage.Querying (step.Asking query n key)) self.new.stage) }
        ensures does { OnOk result (HasDone book.old book.new (at_stage self.old (stage.Querying (step.Asking query n key))) self.new) }
        ensures counts { OnOk result ((steps : ℕ) → CountsInside book.old book.new (at_stage self.old (stage.Querying (step.Asking query n key))) self.new steps steps) }
        ensures same { OnErr result (book.new ≡ book.old) }
    {
        // The log is lawful before and after the event.
        book.log_is_lawful();
        let who = self.who();
        let next = query.ask(alloc, book, who, n, key)?;
        book.log_is_lawful();
        self.stage = Stage::Querying(next);
        Ok(())
    }

    /// Offers the result of an instruction to the pool.
    fn offer(
        &mut self,
        alloc: Global,
        book: &mut Book,
        scorer: &Scorer,
        query: RunningQuery,
        n: usize,
        offer: Offer,
    ) -> Result<(), Memory>
        requires scorer { IsScorerOf scorer.now.kind scorer.now.weights.items book.old.options }
        requires stands { Stands book.old.options (log_tree book.old.log) (at_stage self.old (stage.Querying (step.Offering query n offer))) }
        requires worked { IsWorked book.old.options (log_tree book.old.log) (at_stage self.old (stage.Querying (step.Offering query n offer))) }
        requires more { self.old.ended < length self.old.pieces }
        ensures options { book.new.options ≡ book.old.options }
        ensures session { OnOk result (IsSameSession self.old self.new) }
        ensures follows { OnOk result (Follows (stage.Querying (step.Offering query n offer)) self.new.stage) }
        ensures does { OnOk result (HasDone book.old book.new (at_stage self.old (stage.Querying (step.Offering query n offer))) self.new) }
        ensures counts { OnOk result ((steps : ℕ) → CountsInside book.old book.new (at_stage self.old (stage.Querying (step.Offering query n offer))) self.new steps steps) }
        ensures same { OnErr result (book.new ≡ book.old) }
    {
        book.log_is_lawful();
        let who = self.who();
        let work = self.work.checked_add(offer.done).ok_or(Memory)?;
        let next = query.offer(alloc, book, scorer, who, n, offer)?;
        book.log_is_lawful();
        self.stage = Stage::Querying(next);
        self.work = work;
        Ok(())
    }

    /// Ends its query with this reply; `work` is that of its unmarked instructions.
    fn end(&mut self, book: &mut Book, shown: Shown, work: u128) -> Result<(), Memory>
        requires stands { Stands book.old.options (log_tree book.old.log) (at_stage self.old (stage.Querying (step.Ending shown work))) }
        requires worked { IsWorked book.old.options (log_tree book.old.log) (at_stage self.old (stage.Querying (step.Ending shown work))) }
        requires more { self.old.ended < length self.old.pieces }
        ensures options { book.new.options ≡ book.old.options }
        ensures session { OnOk result (IsSameSession self.old self.new) }
        ensures follows { OnOk result (Follows (stage.Querying (step.Ending shown work)) self.new.stage) }
        ensures does { OnOk result (HasDone book.old book.new (at_stage self.old (stage.Querying (step.Ending shown work))) self.new) }
        ensures counts { OnOk result ((steps : ℕ) → CountsInside book.old book.new (at_stage self.old (stage.Querying (step.Ending shown work))) self.new steps steps) }
        ensures same { OnErr result (book.new ≡ book.old) }
    {
        book.log_is_lawful();
        let who = self.who();
        self.work = self.work.checked_add(work).ok_or(Memory)?;
        book.end(who, code_of(&shown));
        self.tell(shown);
        Ok(())
    }
}

/// 0, or the refusal's number.
fn code_of(shown: &Shown) -> u8
    ensures { result ≡ code_shown shown.now }
{
    match shown {
        Shown::Refused(refusal) => refusal.number(),
        _ => ACCEPTED,
    }
}
