//! Sessions that run on one thread, one event after another.
ghost use Rattle.std.specs.Prelude.{◌≡◌, ◌≢◌, ℕ, ◌+◌, ◌<◌, ◌≤◌, ◌^◌, List, [], ◌∷◌, length, map, sum_by, slice_get, Some, IfOk, OnOk};
ghost use Rattle.std.specs.List.{AllByRecursion};
ghost use Rattle.std.specs.declared.vec.Vec.{Vec as VecSeen};
ghost use Rattle.std.specs.declared.alloc.Global.{Global as GlobalSeen};
ghost use Rattle.pool_policy.specs.declared.options.PoolOptions.{PoolOptions as OptionsSeen};
ghost use Rattle.pool_policy.specs.Scorers.{IsScorerOf};
ghost use Rattle.run_log.specs.Events.{EventTree, log_tree};
ghost use Rattle.pool_sound.specs.Sound.{IsSoundAlong};
ghost use Rattle.session_run.specs.declared.session.Session.{Session as SessionSeen};
ghost use Rattle.session_run.specs.Work.{run_lost, run_totals};
ghost use Rattle.session_run.specs.Works.{done_by};
ghost use Rattle.store_changes.specs.Work.{Counts};
ghost use Rattle.run_sessions.specs.Played.{IsScheduled};
ghost use Rattle.run_sessions.specs.Tables.{AreInPlan, AreOver, AreStanding, AreTexts, CountsTurns, HasRun, HaveEnded, HavePlayed, IsOver, scripts_of};

use crate::finish::{Run, finish_run};
use crate::turn::take_turn;
use bat_core::Operate;
use book_core::Book;
use cell_core::{Memory, Sequence, Steps, Word};
use pool_policy::PoolOptions;
use score_hook::Scorer;
use session_run::Session;
use sql_parse::one_reading;
use std::alloc::Global;
use std::sync::ledger::Ledger;

/// More events than any log has: a `Book` has no memory for them.
const MANY_EVENTS: u32 = 1 << 30;

/// Runs sessions, one for each script, by turns: at each turn a session does its next event, if it
/// has one. After the last turn the sessions run to their ends, from the first to the last. The
/// counter rises by the work of the totals; where plans overflow, by at most their loads more.
pub fn play_sessions<E: Operate, L: Ledger>(
    alloc: Global,
    scripts: Vec<Sequence<Word>>,
    turns: &[u32],
    options: PoolOptions,
    scorer: &Scorer,
    kernel: &E,
    steps: &mut Steps<L>,
) -> Result<Run, Memory>
    requires few { length scripts.items ≤ 16 }
    requires short { AllByRecursion (λ (pieces : List (List ℕ)). length pieces ≤ 256) scripts.items }
    requires turns { AllByRecursion (λ turn. (1 ≤ turn) × (turn ≤ length scripts.items)) turns.now }
    requires scorer { IsScorerOf scorer.now.kind scorer.now.weights.items options }
    requires places { options.places ≤ 1024 }
    requires budget { options.budget ≤ 2 ^ 40 }
    ensures scheduled { IfOk result (λ run. IsScheduled options scripts.items turns.now (log_tree run.log.items)) }
    ensures sessions { IfOk result (λ run. AllByRecursion (λ (event : EventTree). (1 ≤ event.session) × (event.session ≤ length scripts.items)) (log_tree run.log.items)) }
    ensures sound { IfOk result (λ run. IsSoundAlong options (log_tree run.log.items)) }
    ensures texts { IfOk result (λ run. AreTexts (log_tree run.log.items) 1 scripts.items (map (λ (text : VecSeen ℕ GlobalSeen). text.items) run.texts.items)) }
    ensures totals { IfOk result (λ run. run.totals ≡ run_totals options (log_tree run.log.items)) }
    ensures counted { IfOk result (λ run. Counts steps.old steps.new run.totals.work (run_lost options (log_tree run.log.items))) }
{
    one_reading();
    let mut book = Book::new(alloc, options)?;
    let mut sessions = all_sessions(alloc, scripts)?;
    take_turns(
        alloc,
        &mut sessions,
        turns,
        &mut book,
        scorer,
        kernel,
        steps,
    )?;
    run_all(alloc, &mut sessions, &mut book, scorer, kernel, steps)?;
    finish_run(alloc, book, sessions)
}

/// A session for each script.
fn all_sessions(alloc: Global, scripts: Vec<Sequence<Word>>) -> Result<Vec<Session>, Memory>
    requires few { length scripts.items ≤ 16 }
    requires short { AllByRecursion (λ (pieces : List (List ℕ)). length pieces ≤ 256) scripts.items }
    ensures scripts { IfOk result (λ sessions. scripts_of sessions.items ≡ scripts.items) }
    ensures standing { IfOk result (λ sessions. (options : OptionsSeen) → AreStanding options [] sessions.items) }
    ensures in_plan { IfOk result (λ sessions. AreInPlan sessions.items) }
    ensures done { IfOk result (λ sessions. sum_by done_by sessions.items ≡ 0) }
{
    let mut sessions = Vec::new(alloc);
    'scripts: for pieces in scripts {
        let number = sessions.len() as u32 + 1;
        sessions.push(Session::new(alloc, number, pieces, false))?;
    }
    Ok(sessions)
}

/// Takes these turns, which number sessions from 1.
fn take_turns<E: Operate, L: Ledger>(
    alloc: Global,
    sessions: &mut Vec<Session>,
    turns: &[u32],
    book: &mut Book,
    scorer: &Scorer,
    kernel: &E,
    steps: &mut Steps<L>,
) -> Result<(), Memory>
    requires scorer { IsScorerOf scorer.now.kind scorer.now.weights.items book.old.options }
    requires turns { AllByRecursion (λ turn. (1 ≤ turn) × (turn ≤ length sessions.old.items)) turns.now }
    requires standing { AreStanding book.old.options (log_tree book.old.log) sessions.old.items }
    requires in_plan { AreInPlan sessions.old.items }
    ensures played { OnOk result (HavePlayed book.old book.new sessions.old.items sessions.new.items turns.now) }
    ensures counts { OnOk result (CountsTurns book.old book.new sessions.old.items sessions.new.items steps.old steps.new) }
{
    'turns: for i in 0..turns.len() {
        let place = turns[i] as usize - 1;
        take_turn(alloc, sessions, place, book, scorer, kernel, steps)?;
    }
    Ok(())
}

/// Runs the session at a place to its end. The bound is never reached: no log has so many events.
fn run_on<E: Operate, L: Ledger>(
    alloc: Global,
    sessions: &mut Vec<Session>,
    place: usize,
    book: &mut Book,
    scorer: &Scorer,
    kernel: &E,
    steps: &mut Steps<L>,
) -> Result<(), Memory>
    requires scorer { IsScorerOf scorer.now.kind scorer.now.weights.items book.old.options }
    requires inside { place < length sessions.old.items }
    requires standing { AreStanding book.old.options (log_tree book.old.log) sessions.old.items }
    requires in_plan { AreInPlan sessions.old.items }
    ensures run { OnOk result (HasRun book.old book.new sessions.old.items sessions.new.items place) }
    ensures counts { OnOk result (CountsTurns book.old book.new sessions.old.items sessions.new.items steps.old steps.new) }
    ensures others { OnOk result ((other : ℕ) → other ≢ place → slice_get sessions.new.items other ≡ slice_get sessions.old.items other) }
    ensures over { OnOk result ((x : SessionSeen) → slice_get sessions.new.items place ≡ Some x → IsOver x) }
{
    'events: for _event in 0..MANY_EVENTS {
        if !take_turn(alloc, sessions, place, book, scorer, kernel, steps)? {
            return Ok(());
        }
    }
    Err(Memory)
}

/// Runs all sessions to their ends, one after the other.
fn run_all<E: Operate, L: Ledger>(
    alloc: Global,
    sessions: &mut Vec<Session>,
    book: &mut Book,
    scorer: &Scorer,
    kernel: &E,
    steps: &mut Steps<L>,
) -> Result<(), Memory>
    requires scorer { IsScorerOf scorer.now.kind scorer.now.weights.items book.old.options }
    requires standing { AreStanding book.old.options (log_tree book.old.log) sessions.old.items }
    requires in_plan { AreInPlan sessions.old.items }
    ensures ended { OnOk result (HaveEnded book.old book.new sessions.old.items sessions.new.items) }
    ensures counts { OnOk result (CountsTurns book.old book.new sessions.old.items sessions.new.items steps.old steps.new) }
{
    'sessions: for place in 0..sessions.len() {
        run_on(alloc, sessions, place, book, scorer, kernel, steps)?;
    }
    Ok(())
}
