//! Writes: statements that are neither a query nor an EXPLAIN.
ghost use Rattle.std.specs.Prelude.{◌≡◌, ◌+◌, ◌<◌, ◌≤◌, ◌^◌, [], ◌∷◌, ◌++◌, length, true, Some, None, Ok, Err, IfOk, OnOk, OnErr};
ghost use Rattle.std.specs.List.{AllByRecursion};
ghost use Rattle.pool_policy.specs.Writes.{write_of};
ghost use Rattle.pool_policy.specs.Scorers.{IsScorerOf};
ghost use Rattle.reply_layout.specs.Doings.{code_of as code_shown, count_of as count_shown, shown_reply};
ghost use Rattle.run_log.specs.declared.event.Act.TheVariants as act;
ghost use Rattle.run_log.specs.Totals.{AreSmall, with_work, with_written};
ghost use Rattle.run_log.specs.Touches.{touched_by};
ghost use Rattle.sql_grammar.specs.Formed.{IsFormed};
ghost use Rattle.sql_definitions.specs.Effect.{effect};
ghost use Rattle.sql_definitions.specs.declared.refusal.Refusal.{Refusal as RefusalSeen};
ghost use Rattle.sql_definitions.specs.declared.refusal.Reply.TheVariants as answer;
ghost use Rattle.sql_tree.specs.Tree.{stmt_tree};
ghost use Rattle.store_changes.specs.Outcomes.{is_change, reply_with};
ghost use Rattle.store_changes.specs.Work.{Counts, write_lost};
ghost use Rattle.book_core.specs.BookView.{state_of};
ghost use Rattle.book_core.specs.Writes.{IsOutcome, IsUntouched, return_work, write_work, written_by};

use crate::book::Book;
use crate::events::{count_event, event, make_room, push_event};
use bat_core::Operate;
use cell_core::{Memory, Steps};
use pool_policy::{PoolEntry, Who};
use run_log::{ACCEPTED, Act, StmtText, Totals};
use score_hook::Scorer;
use sql_definitions::{Refusal, Reply};
use sql_tree::Stmt;
use std::alloc::Global;
use std::sync::ledger::Ledger;
use store_changes::{Outcome, Ready, prepare};
use update_propagate::carry;

/// 0, or the number of the refusal.
fn code_of(reply: &Reply) -> u8
    ensures { result ≡ code_shown (shown_reply reply.now) }
{
    match reply {
        Reply::Refused(refusal) => refusal.number(),
        Reply::Done | Reply::Rows(_) => ACCEPTED,
    }
}

/// The number of rows inserted, deleted or updated.
fn count_of(reply: &Reply) -> u64
    ensures { result ≡ count_shown (shown_reply reply.now) }
{
    match reply {
        Reply::Rows(count) => *count,
        Reply::Done | Reply::Refused(_) => 0,
    }
}

/// The reply to an accepted change, with its number of rows, if any.
fn reply_to(rows: Option<u64>) -> Reply
    ensures { result ≡ reply_with rows }
{
    match rows {
        Some(rows) => Reply::Rows(rows),
        None => Reply::Done,
    }
}

/// A change and its reply, as they are logged.
fn written(stmt: StmtText, reply: &Reply) -> Act
    ensures { result ≡ act.Write (Some stmt) (code_shown (shown_reply reply.now)) (count_shown (shown_reply reply.now)) }
{
    Act::Write {
        stmt: Some(stmt),
        code: code_of(reply),
        count: count_of(reply),
    }
}

/// Returns `Memory` where the totals can't hold the load of a plan and the work of what comes back.
fn make_room_for_work(totals: &Totals, load: u128, work: u128) -> Result<(), Memory>
    ensures { OnOk result ((totals.now.work + load) + work < 2 ^ 128) }
{
    let sum = totals.work.checked_add(load).ok_or(Memory)?;
    let _ = sum.checked_add(work).ok_or(Memory)?;
    Ok(())
}

/// Reads the length of each BAT. Proofs get a BAT's bound from its length alone.
fn read_lengths(entries: &[PoolEntry])
    ensures { AllByRecursion (λ e. length e.value < 2 ^ 62) entries.now }
{
    let mut rest = entries;
    'entries: while let [entry, more @ ..] = rest {
        let _ = entry.value.bat().len();
        rest = more;
    }
}

/// Counts an accepted write: the load of its plan, its changes of the pool, and the work of what came
/// back.
fn count_write(
    totals: &mut Totals,
    load: u128,
    dropped: u64,
    carried: u64,
    evicted: u64,
    work: u128,
)
    requires small { AreSmall totals.old }
    requires few { (dropped + carried) + evicted < 4096 }
    requires room { (totals.old.work + load) + work < 2 ^ 128 }
    ensures { totals.new ≡ with_work work (with_written dropped carried evicted (with_work load totals.old)) }
{
    totals.note_work(load);
    totals.note_write(dropped, carried, evicted);
    totals.note_work(work);
}

impl Book {
    /// Does a statement that is neither a query nor an EXPLAIN, or refuses it. The reply is that of
    /// SQL over the present tables. The pool drops the entries that the write touches, or takes in
    /// those that come back with the new rows. `scorer` scores what is evicted to make room; it has
    /// the policy and the weights of the options. One event is added, which has the statement's
    /// text. The counter rises by the work that the write adds to the totals, in pairs of cells;
    /// where the plan of a DELETE or an UPDATE overflows, by at most its load more. A refused
    /// statement leaves tables, versions and pool as they were. Where memory runs out, nothing is
    /// done.
    pub fn write<E: Operate, L: Ledger>(
        &mut self,
        alloc: Global,
        scorer: &Scorer,
        who: Who,
        stmt: &Stmt,
        kernel: &E,
        steps: &mut Steps<L>,
    ) -> Result<Reply, Memory>
        requires scorer { IsScorerOf scorer.now.kind scorer.now.weights.items self.old.options }
        requires session { who.session < 17 }
        requires change { is_change (stmt_tree stmt.now) ≡ true }
        requires formed { IsFormed (stmt_tree stmt.now) }
        ensures options { self.new.options ≡ self.old.options }
        ensures reply { IfOk result (λ reply. reply ≡ (effect (stmt_tree stmt.now) (state_of self.old).db).1) }
        ensures logged { IfOk result (λ reply. self.new.log ≡ self.old.log ++ written_by who stmt.now reply ∷ []) }
        ensures work { OnOk result ((state_of self.new).totals.work ≡ (state_of self.old).totals.work + write_work (stmt_tree stmt.now) (state_of self.old)) }
        ensures counted { IfOk result (λ reply. Counts steps.old steps.new (write_work (stmt_tree stmt.now) (state_of self.old)) (write_lost (stmt_tree stmt.now) (state_of self.old).db)) }
        ensures refused { (refusal : RefusalSeen) → result ≡ Ok (answer.Refused refusal) → IsUntouched (state_of self.old) (state_of self.new) }
        ensures same { OnErr result (self.new ≡ self.old) }
    {
        let outcome = prepare(alloc, &self.store, stmt, kernel, steps)?;
        let text = StmtText::of(alloc, stmt)?;
        self.settle(alloc, scorer, who, text, outcome, steps)
    }

    /// Does the prepared change, or logs its refusal.
    fn settle<L: Ledger>(
        &mut self,
        alloc: Global,
        scorer: &Scorer,
        who: Who,
        stmt: StmtText,
        outcome: Outcome,
        steps: &mut Steps<L>,
    ) -> Result<Reply, Memory>
        requires scorer { IsScorerOf scorer.now.kind scorer.now.weights.items self.old.options }
        requires outcome { IsOutcome (stmt_tree stmt) outcome.ready outcome.work (state_of self.old) }
        ensures options { self.new.options ≡ self.old.options }
        ensures reply { IfOk result (λ reply. reply ≡ (effect (stmt_tree stmt) (state_of self.old).db).1) }
        ensures logged { IfOk result (λ reply. self.new.log ≡ self.old.log ++ written_by who stmt reply ∷ []) }
        ensures counted { OnOk result (steps.new ≡ steps.old + return_work (stmt_tree stmt) (state_of self.old)) }
        ensures same { OnErr result (self.new ≡ self.old) }
    {
        let Outcome { ready, work } = outcome;
        match ready {
            Ok(ready) => self.commit(alloc, scorer, who, stmt, ready, work, steps),
            Err(refusal) => self.refuse_change(who, stmt, refusal, work),
        }
    }

    /// Logs a refused change. The load of its plan counts, and nothing else changes.
    fn refuse_change(
        &mut self,
        who: Who,
        stmt: StmtText,
        refusal: Refusal,
        load: u128,
    ) -> Result<Reply, Memory>
        requires { IsOutcome (stmt_tree stmt) (Err refusal) load (state_of self.old) }
        ensures options { self.new.options ≡ self.old.options }
        ensures reply { IfOk result (λ reply. reply ≡ answer.Refused refusal) }
        ensures logged { IfOk result (λ reply. self.new.log ≡ self.old.log ++ written_by who stmt reply ∷ []) }
        ensures same { OnErr result (self.new ≡ self.old) }
    {
        make_room(&mut self.log, 0)?;
        make_room_for_work(&self.totals, load, 0)?;
        self.totals.note_work(load);
        count_event(&mut self.totals, &self.pool);
        let reply = Reply::Refused(refusal);
        let _ = push_event(&mut self.log, event(who, written(stmt, &reply)));
        Ok(reply)
    }

    /// Does a prepared change in the store and in the pool. All that can fail is done first.
    fn commit<L: Ledger>(
        &mut self,
        alloc: Global,
        scorer: &Scorer,
        who: Who,
        stmt: StmtText,
        ready: Ready,
        load: u128,
        steps: &mut Steps<L>,
    ) -> Result<Reply, Memory>
        requires scorer { IsScorerOf scorer.now.kind scorer.now.weights.items self.old.options }
        requires outcome { IsOutcome (stmt_tree stmt) (Ok ready) load (state_of self.old) }
        ensures options { self.new.options ≡ self.old.options }
        ensures reply { IfOk result (λ reply. reply ≡ reply_with ready.rows) }
        ensures logged { IfOk result (λ reply. self.new.log ≡ self.old.log ++ written_by who stmt reply ∷ []) }
        ensures counted { OnOk result (steps.new ≡ steps.old + (write_of (touched_by (stmt_tree stmt) (state_of self.old).db) ((state_of self.old).at + 1) (state_of self.old).pool).work) }
        ensures same { OnErr result (self.new ≡ self.old) }
    {
        make_room(&mut self.log, 0)?;
        let now = self.log.len() as u64 + 1;
        let Ready { change, rows } = ready;
        let touched = change.touched();
        let carried = carry(alloc, &self.pool, touched, now, steps)?;
        make_room_for_work(&self.totals, load, carried.work)?;
        read_lengths(carried.entries.as_slice());
        // Fewer than 1,025 entries can be dropped, come back or be evicted.
        let _ = self.pool.entries();
        let back = carried.ids.len() as u64;
        let work = carried.work;
        let (dropped, evicted) = self.pool.put_carried(scorer, touched, carried, now);
        self.store.apply(change, now);
        count_write(&mut self.totals, load, dropped, back, evicted, work);
        count_event(&mut self.totals, &self.pool);
        let reply = reply_to(rows);
        let _ = push_event(&mut self.log, event(who, written(stmt, &reply)));
        Ok(reply)
    }
}
