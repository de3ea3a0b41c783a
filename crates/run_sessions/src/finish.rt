//! The end of a run.
ghost use Rattle.std.specs.Prelude.{◌≡◌, ℕ, ◌+◌, ◌≤◌, length, map, sum_by, IfOk};
ghost use Rattle.std.specs.List.{AllByRecursion};
ghost use Rattle.std.specs.declared.vec.Vec.{Vec as VecSeen};
ghost use Rattle.std.specs.declared.alloc.Global.{Global as GlobalSeen};
ghost use Rattle.run_log.specs.Events.{EventTree, log_tree};
ghost use Rattle.pool_sound.specs.Sound.{IsSoundAlong};
ghost use Rattle.session_run.specs.declared.session.Session.{Session as SessionSeen};
ghost use Rattle.session_run.specs.Work.{run_totals};
ghost use Rattle.run_sessions.specs.Tables.{AreOver, AreStanding, AreTexts, scripts_of};

use book_core::Book;
use cell_core::Memory;
use run_log::{Event, Totals};
use session_run::Session;
use sql_parse::one_reading;
use std::alloc::Global;

/// The result of a run.
#[derive(Drop)]
pub struct Run {
    /// The replies of each session, as they are printed.
    pub texts: Vec<Vec<u8>>,
    /// The log.
    pub log: Vec<Event>,
    /// The totals.
    pub totals: Totals,
}

/// Ends a run whose sessions are over: their texts, the log of the book, and its totals with the work of
/// the sessions.
pub fn finish_run(alloc: Global, book: Book, sessions: Vec<Session>) -> Result<Run, Memory>
    requires standing { AreStanding book.options (log_tree book.log) sessions.items }
    requires over { AreOver (length sessions.items) sessions.items }
    requires sessions { AllByRecursion (λ (event : EventTree). (1 ≤ event.session) × (event.session ≤ length sessions.items)) (log_tree book.log) }
    ensures log { IfOk result (λ run. run.log.items ≡ book.log) }
    ensures sound { IfOk result (λ run. IsSoundAlong book.options (log_tree run.log.items)) }
    ensures texts { IfOk result (λ run. AreTexts (log_tree book.log) 1 (scripts_of sessions.items) (map (λ (text : VecSeen ℕ GlobalSeen). text.items) run.texts.items)) }
    ensures totals { IfOk result (λ run. run.totals ≡ run_totals book.options (log_tree book.log)) }
{
    one_reading();
    // The log is lawful, so the pool is sound along it.
    book.log_is_lawful();
    let work = work_of(sessions.as_slice())?;
    let texts = texts_of(alloc, sessions)?;
    let (log, totals) = book.finish();
    let totals = with_work(totals, work)?;
    Ok(Run { texts, log, totals })
}

/// The work of the sessions. A sum past 128 bits counts as want of memory.
fn work_of(sessions: &[Session]) -> Result<u128, Memory>
    ensures { IfOk result (λ work. work ≡ sum_by (λ (x : SessionSeen). x.work) sessions.now) }
{
    let mut work = 0_u128;
    'sessions: for session in sessions {
        work = work.checked_add(session.work).ok_or(Memory)?;
    }
    Ok(work)
}

/// Totals with more work. A sum past 128 bits counts as want of memory.
fn with_work(totals: Totals, work: u128) -> Result<Totals, Memory>
    ensures { IfOk result (λ more. more ≡ record totals { work = totals.work + work }) }
{
    let work = totals.work.checked_add(work).ok_or(Memory)?;
    Ok(Totals { work, ..totals })
}

/// The texts of the sessions.
fn texts_of(alloc: Global, sessions: Vec<Session>) -> Result<Vec<Vec<u8>>, Memory>
    ensures { IfOk result (λ texts. texts.items ≡ map (λ (x : SessionSeen). x.text) sessions.items) }
{
    let mut texts = Vec::new(alloc);
    'sessions: for session in sessions {
        texts.push(session.into_text())?;
    }
    Ok(texts)
}
