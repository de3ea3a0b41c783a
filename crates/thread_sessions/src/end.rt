//! The end of a run in threads.
ghost use Rattle.std.specs.Prelude.{◌≡◌, ℕ, ◌≤◌, length, map, nat_lt, IfOk};
ghost use Rattle.std.specs.List.{AllByRecursion};
ghost use Rattle.std.specs.declared.vec.Vec.{Vec as VecSeen};
ghost use Rattle.std.specs.declared.alloc.Global.{Global as GlobalSeen};
ghost use Rattle.run_log.specs.Events.{EventTree, log_tree};
ghost use Rattle.pool_sound.specs.Sound.{IsSoundAlong};
ghost use Rattle.session_run.specs.Work.{run_totals};
ghost use Rattle.run_sessions.specs.Tables.{AreOver, AreTexts, scripts_of};
ghost use Rattle.thread_sessions.specs.Runs.{AreSet, HasNoneBeside, HaveSeen, IsRunOut, order_for};

use book_core::Book;
use cell_core::Memory;
use run_sessions::{Run, finish_run};
use session_run::Session;
use std::alloc::Global;

/// Ends a run whose sessions are over: each of them saw a beginning of the log, after which all
/// events are of others.
pub(crate) fn end_run(alloc: Global, book: Book, sessions: Vec<Session>) -> Result<Run, Memory>
    requires seen { HaveSeen book.options book.log sessions.items }
    requires none { HasNoneBeside (length sessions.items) book.log }
    requires over { AreOver (length sessions.items) sessions.items }
    ensures log { IfOk result (λ run. run.log.items ≡ book.log) }
    ensures played { (workers : ℕ) → AreSet (nat_lt 1 workers) sessions.items → IfOk result (λ run. IsRunOut (order_for workers) book.options (scripts_of sessions.items) (log_tree run.log.items)) }
    ensures sessions { IfOk result (λ run. AllByRecursion (λ (event : EventTree). (1 ≤ event.session) × (event.session ≤ length sessions.items)) (log_tree run.log.items)) }
    ensures sound { IfOk result (λ run. IsSoundAlong book.options (log_tree run.log.items)) }
    ensures texts { IfOk result (λ run. AreTexts (log_tree run.log.items) 1 (scripts_of sessions.items) (map (λ (text : VecSeen ℕ GlobalSeen). text.items) run.texts.items)) }
    ensures totals { IfOk result (λ run. run.totals ≡ run_totals book.options (log_tree run.log.items)) }
{
    // The log is lawful, so events after those that a session saw change nothing for it.
    book.log_is_lawful();
    finish_run(alloc, book, sessions)
}
