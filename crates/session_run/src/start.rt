//! The first event of a statement.
ghost use Rattle.std.specs.Prelude.{◌≡◌, ℕ, ◌<◌, List, length, slice_get, true, Some, Ok, Err, IfOk, OnOk, OnErr};
ghost use Rattle.sql_grammar.specs.Formed.{IsFormed};
ghost use Rattle.read_laws.specs.Answered.{Reads};
ghost use Rattle.sql_parse.specs.declared.error.ParseError.TheVariants.{Refused};
ghost use Rattle.sql_definitions.specs.declared.refusal.Refusal.{Refusal as RefusalSeen};
ghost use Rattle.sql_tree.specs.Tree.{query_tree, stmt_tree};
ghost use Rattle.sql_tree.specs.Tree.StmtTree.{Select, ExplainSelect};
ghost use Rattle.run_log.specs.Events.{log_tree};
ghost use Rattle.reply_layout.specs.Doings.{shown_reply};
ghost use Rattle.store_changes.specs.Outcomes.{is_change};
ghost use Rattle.session_run.specs.declared.stage.Stage.TheVariants as stage;
ghost use Rattle.session_run.specs.Kept.{HasRead, Stands};
ghost use Rattle.session_run.specs.Stages.{BeginsWith, HasDone, IsSameSession, MayBegin, explained};
ghost use Rattle.session_run.specs.Works.{CountsInside, IsWorked};
ghost use Rattle.query_run.specs.declared.step.Step.TheVariants as step;
ghost use Rattle.reply_layout.specs.declared.shown.Shown.TheVariants as shown;
ghost use Rattle.pool_policy.specs.Scorers.{IsScorerOf};

use crate::session::Session;
use crate::stage::Stage;
use bat_core::Operate;
use book_core::{Begun, Book};
use cell_core::{Memory, Steps, Word};
use query_run::{RunningQuery, Step};
use reply_layout::Shown;
use score_hook::Scorer;
use sql_definitions::{Refusal, Reply};
use sql_tree::Stmt;
use std::alloc::Global;
use std::sync::ledger::Ledger;

impl Session {
    /// Begins the next statement, whose text has this reading. A change is done whole.
    pub(crate) fn start<E: Operate, L: Ledger>(
        &mut self,
        alloc: Global,
        book: &mut Book,
        scorer: &Scorer,
        read: Result<Stmt, Refusal>,
        kernel: &E,
        steps: &mut Steps<L>,
    ) -> Result<(), Memory>
        requires scorer { IsScorerOf scorer.now.kind scorer.now.weights.items book.old.options }
        requires between { self.old.stage ≡ stage.Between }
        requires stands { Stands book.old.options (log_tree book.old.log) self.old }
        requires worked { IsWorked book.old.options (log_tree book.old.log) self.old }
        requires read { HasRead self.old.pieces self.old.ended read }
        ensures options { book.new.options ≡ book.old.options }
        ensures session { OnOk result (IsSameSession self.old self.new) }
        ensures begins { OnOk result (MayBegin self.new.stage) }
        ensures does { OnOk result (HasDone book.old book.new self.old self.new) }
        ensures counts { OnOk result (CountsInside book.old book.new self.old self.new steps.old steps.new) }
        ensures same { OnErr result (book.new ≡ book.old) }
    {
        match read {
            Ok(stmt) => self.start_stmt(alloc, book, scorer, stmt, kernel, steps),
            Err(refusal) => self.refuse(book, refusal),
        }
    }

    /// Logs a refused text.
    fn refuse(&mut self, book: &mut Book, refusal: Refusal) -> Result<(), Memory>
        requires between { self.old.stage ≡ stage.Between }
        requires stands { Stands book.old.options (log_tree book.old.log) self.old }
        requires worked { IsWorked book.old.options (log_tree book.old.log) self.old }
        requires read { (piece : List ℕ) × (slice_get self.old.pieces self.old.ended ≡ Some piece) × Reads piece (Err refusal) }
        ensures options { book.new.options ≡ book.old.options }
        ensures session { OnOk result (IsSameSession self.old self.new) }
        ensures begins { OnOk result (MayBegin self.new.stage) }
        ensures does { OnOk result (HasDone book.old book.new self.old self.new) }
        ensures counts { OnOk result ((steps : ℕ) → CountsInside book.old book.new self.old self.new steps steps) }
        ensures same { OnErr result (book.new ≡ book.old) }
    {
        book.log_is_lawful();
        book.refuse(self.who(), &refusal)?;
        self.tell(Shown::Refused(refusal));
        Ok(())
    }

    /// Begins a query or an EXPLAIN, or does a change whole.
    fn start_stmt<E: Operate, L: Ledger>(
        &mut self,
        alloc: Global,
        book: &mut Book,
        scorer: &Scorer,
        stmt: Stmt,
        kernel: &E,
        steps: &mut Steps<L>,
    ) -> Result<(), Memory>
        requires scorer { IsScorerOf scorer.now.kind scorer.now.weights.items book.old.options }
        requires between { self.old.stage ≡ stage.Between }
        requires stands { Stands book.old.options (log_tree book.old.log) self.old }
        requires worked { IsWorked book.old.options (log_tree book.old.log) self.old }
        requires formed { IsFormed (stmt_tree stmt) }
        requires read { (piece : List ℕ) × (slice_get self.old.pieces self.old.ended ≡ Some piece) × Reads piece (Ok (stmt_tree stmt)) }
        ensures options { book.new.options ≡ book.old.options }
        ensures session { OnOk result (IsSameSession self.old self.new) }
        ensures begins { OnOk result (MayBegin self.new.stage) }
        ensures does { OnOk result (HasDone book.old book.new self.old self.new) }
        ensures counts { OnOk result (CountsInside book.old book.new self.old self.new steps.old steps.new) }
        ensures same { OnErr result (book.new ≡ book.old) }
    {
        match &stmt {
            Stmt::Query(query) => self.start_query(alloc, book, &stmt, query),
            Stmt::Explain(query) => self.start_explain(alloc, book, &stmt, query),
            _ => self.change(alloc, book, scorer, &stmt, kernel, steps),
        }
    }

    /// Does a statement that is neither a query nor an EXPLAIN.
    fn change<E: Operate, L: Ledger>(
        &mut self,
        alloc: Global,
        book: &mut Book,
        scorer: &Scorer,
        stmt: &Stmt,
        kernel: &E,
        steps: &mut Steps<L>,
    ) -> Result<(), Memory>
        requires scorer { IsScorerOf scorer.now.kind scorer.now.weights.items book.old.options }
        requires between { self.old.stage ≡ stage.Between }
        requires stands { Stands book.old.options (log_tree book.old.log) self.old }
        requires worked { IsWorked book.old.options (log_tree book.old.log) self.old }
        requires change { is_change (stmt_tree stmt.now) ≡ true }
        requires formed { IsFormed (stmt_tree stmt.now) }
        requires read { (piece : List ℕ) × (slice_get self.old.pieces self.old.ended ≡ Some piece) × Reads piece (Ok (stmt_tree stmt.now)) }
        ensures options { book.new.options ≡ book.old.options }
        ensures session { OnOk result (IsSameSession self.old self.new) }
        ensures begins { OnOk result (MayBegin self.new.stage) }
        ensures does { OnOk result (HasDone book.old book.new self.old self.new) }
        ensures counts { OnOk result (CountsInside book.old book.new self.old self.new steps.old steps.new) }
        ensures same { OnErr result (book.new ≡ book.old) }
    {
        book.log_is_lawful();
        let reply = book.write(alloc, scorer, self.who(), stmt, kernel, steps)?;
        self.tell(shown_of(reply));
        Ok(())
    }

    /// Begins a query.
    fn start_query(
        &mut self,
        alloc: Global,
        book: &mut Book,
        stmt: &Stmt,
        query: &sql_tree::Query,
    ) -> Result<(), Memory>
        requires between { self.old.stage ≡ stage.Between }
        requires stands { Stands book.old.options (log_tree book.old.log) self.old }
        requires worked { IsWorked book.old.options (log_tree book.old.log) self.old }
        requires select { stmt_tree stmt.now ≡ Select (query_tree query.now) }
        requires formed { IsFormed (stmt_tree stmt.now) }
        requires read { (piece : List ℕ) × (slice_get self.old.pieces self.old.ended ≡ Some piece) × Reads piece (Ok (stmt_tree stmt.now)) }
        ensures options { book.new.options ≡ book.old.options }
        ensures session { OnOk result (IsSameSession self.old self.new) }
        ensures begins { OnOk result (MayBegin self.new.stage) }
        ensures does { OnOk result (HasDone book.old book.new self.old self.new) }
        ensures counts { OnOk result ((steps : ℕ) → CountsInside book.old book.new self.old self.new steps steps) }
        ensures same { OnErr result (book.new ≡ book.old) }
    {
        book.log_is_lawful();
        let begun = book.begin(alloc, self.who(), stmt, query)?;
        self.stage = query_stage(alloc, begun);
        Ok(())
    }

    /// Begins an EXPLAIN.
    fn start_explain(
        &mut self,
        alloc: Global,
        book: &mut Book,
        stmt: &Stmt,
        query: &sql_tree::Query,
    ) -> Result<(), Memory>
        requires between { self.old.stage ≡ stage.Between }
        requires stands { Stands book.old.options (log_tree book.old.log) self.old }
        requires worked { IsWorked book.old.options (log_tree book.old.log) self.old }
        requires explain { stmt_tree stmt.now ≡ ExplainSelect (query_tree query.now) }
        requires formed { IsFormed (stmt_tree stmt.now) }
        requires read { (piece : List ℕ) × (slice_get self.old.pieces self.old.ended ≡ Some piece) × Reads piece (Ok (stmt_tree stmt.now)) }
        ensures options { book.new.options ≡ book.old.options }
        ensures session { OnOk result (IsSameSession self.old self.new) }
        ensures begins { OnOk result (MayBegin self.new.stage) }
        ensures does { OnOk result (HasDone book.old book.new self.old self.new) }
        ensures counts { OnOk result ((steps : ℕ) → CountsInside book.old book.new self.old self.new steps steps) }
        ensures same { OnErr result (book.new ≡ book.old) }
    {
        book.log_is_lawful();
        let begun = book.begin(alloc, self.who(), stmt, query)?;
        self.stage = explain_stage(begun);
        Ok(())
    }
}

/// The stage of a query that has begun.
fn query_stage(alloc: Global, begun: Begun) -> Stage
    ensures { BeginsWith begun.snap begun.marks.items begun.plan result }
{
    let (snap, plan, marks) = begun.into_parts();
    match plan {
        Ok(plan) => Stage::Querying(Step::Begun(RunningQuery::new(alloc, snap, plan, marks))),
        Err(refusal) => refused(refusal),
    }
}

/// The stage of an EXPLAIN that has begun.
fn explain_stage(begun: Begun) -> Stage
    ensures { result ≡ explained begun.plan }
{
    match begun.into_plan() {
        Ok(plan) => Stage::Explaining(plan),
        Err(refusal) => refused(refusal),
    }
}

/// The stage of a query that its tables refuse.
fn refused(refusal: Refusal) -> Stage
    ensures { result ≡ stage.Querying (step.Ending (shown.Refused refusal) 0) }
{
    Stage::Querying(Step::Ending(Shown::Refused(refusal), 0))
}

/// The reply to a change.
fn shown_of(reply: Reply) -> Shown
    ensures { result ≡ shown_reply reply }
{
    match reply {
        Reply::Done => Shown::Done,
        Reply::Rows(count) => Shown::Count(count),
        Reply::Refused(refusal) => Shown::Refused(refusal),
    }
}
