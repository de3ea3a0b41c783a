//! One turn of a session.
ghost use Rattle.std.specs.Prelude.{◌≡◌, ◌≢◌, ℕ, ◌+◌, ◌<◌, [], ◌∷◌, length, false, slice_get, Some, IfOk, OnOk};
ghost use Rattle.run_log.specs.Events.{log_tree};
ghost use Rattle.session_run.specs.Kept.{Stands};
ghost use Rattle.session_run.specs.Works.{IsWorked};
ghost use Rattle.session_run.specs.declared.session.Session.{Session as SessionSeen};
ghost use Rattle.session_run.specs.Stages.{IsSameSession};
ghost use Rattle.run_sessions.specs.Tables.{AreInPlan, AreStanding, CountsTurns, HasTurned, HavePlayed, IsOver};
ghost use Rattle.pool_policy.specs.Scorers.{IsScorerOf};

use bat_core::Operate;
use book_core::Book;
use cell_core::{Memory, Steps};
use score_hook::Scorer;
use session_run::Session;
use sql_parse::one_reading;
use std::alloc::Global;
use std::sync::ledger::Ledger;

/// Does the next event of a session, and returns whether it had one.
fn step<E: Operate, L: Ledger>(
    alloc: Global,
    session: &mut Session,
    book: &mut Book,
    scorer: &Scorer,
    kernel: &E,
    steps: &mut Steps<L>,
) -> Result<bool, Memory>
    requires scorer { IsScorerOf scorer.now.kind scorer.now.weights.items book.old.options }
    requires stands { Stands book.old.options (log_tree book.old.log) session.old }
    requires worked { IsWorked book.old.options (log_tree book.old.log) session.old }
    requires in_plan { session.old.wide ≡ false }
    ensures options { OnOk result (book.new.options ≡ book.old.options) }
    ensures session { OnOk result (IsSameSession session.old session.new) }
    ensures turned { IfOk result (λ more. HasTurned book.old book.new session.old session.new more) }
    ensures counts { OnOk result (CountsTurns book.old book.new (session.old ∷ []) (session.new ∷ []) steps.old steps.new) }
{
    session.outside(alloc, kernel, steps)?;
    if session.done() {
        return Ok(false);
    }
    session.inside(alloc, book, scorer, kernel, steps)?;
    Ok(true)
}

/// Does the next event of the session at a place, and returns whether it had one. After `Memory`
/// nothing is promised of the sessions.
pub(crate) fn take_turn<E: Operate, L: Ledger>(
    alloc: Global,
    sessions: &mut Vec<Session>,
    place: usize,
    book: &mut Book,
    scorer: &Scorer,
    kernel: &E,
    steps: &mut Steps<L>,
) -> Result<bool, Memory>
    requires scorer { IsScorerOf scorer.now.kind scorer.now.weights.items book.old.options }
    requires inside { place < length sessions.old.items }
    requires standing { AreStanding book.old.options (log_tree book.old.log) sessions.old.items }
    requires in_plan { AreInPlan sessions.old.items }
    ensures played { OnOk result (HavePlayed book.old book.new sessions.old.items sessions.new.items ((place + 1) ∷ [])) }
    ensures counts { OnOk result (CountsTurns book.old book.new sessions.old.items sessions.new.items steps.old steps.new) }
    ensures others { OnOk result ((other : ℕ) → other ≢ place → slice_get sessions.new.items other ≡ slice_get sessions.old.items other) }
    ensures over { IfOk result (λ more. more ≡ false → (x : SessionSeen) → slice_get sessions.new.items place ≡ Some x → IsOver x) }
{
    one_reading();
    let more = step(alloc, &mut sessions[place], book, scorer, kernel, steps)?;
    // The log is lawful, so the other sessions agree with it as before.
    book.log_is_lawful();
    Ok(more)
}
