//! Turns of a session.
ghost use Rattle.std.specs.Prelude.{◌≡◌, ◌<◌, false, length, true, IfOk, OnOk};
ghost use Rattle.turn_hall.specs.Passes.{IsPassOf};
ghost use Rattle.session_run.specs.Stages.{Follows, GoesInPlan, IsAside, IsReady, IsSameSession, MayBegin};
ghost use Rattle.run_sessions.specs.Tables.{IsOver};
ghost use Rattle.thread_sessions.specs.Runners.{HasOneMore, IsWith};
ghost use Rattle.pool_policy.specs.Scorers.{IsScorerOf};

use crate::kept::{HasOptions, SharedBook};
use bat_core::Operate;
use cell_core::{Memory, Steps};
use score_hook::Scorer;
use session_run::Session;
use std::alloc::Global;
use std::sync::Wait;
use std::sync::ledger::Ledger;
use turn_hall::{Hall, Pass};

/// Does the next event of a session in one turn. Where memory runs out the turn adds nothing.
pub(crate) fn do_event<K: HasOptions, R: Wait, E: Operate, L: Ledger>(
    rt: &R,
    alloc: Global,
    hall: &Hall<SharedBook<K>>,
    pass: &mut Pass<SharedBook<K>>,
    session: &mut Session,
    scorer: &Scorer,
    kernel: &E,
    steps: &mut Steps<L>,
) -> Result<(), Memory>
    requires scorer { IsScorerOf scorer.now.kind scorer.now.weights.items K.options }
    requires ours { IsPassOf hall.now pass.old }
    requires stands { IsWith K.options pass.old session.old }
    requires more { session.old.ended < length session.old.pieces }
    requires ready { IsReady session.old.stage }
    ensures ours { OnOk result (IsPassOf hall.now pass.new) }
    ensures session { OnOk result (IsSameSession session.old session.new) }
    ensures follows { OnOk result (Follows session.old.stage session.new.stage) }
    ensures stands { OnOk result (IsWith K.options pass.new session.new) }
    ensures one { OnOk result (HasOneMore pass.old pass.new) }
{
    let mut turn = hall.turn(rt, pass);
    let kept = turn.value();
    kept.catch_up(session);
    match kept.next(alloc, session, scorer, kernel, steps) {
        Ok(()) => {
            hall.leave(turn, pass);
            Ok(())
        }
        Err(memory) => {
            hall.give_up(turn, pass);
            Err(memory)
        }
    }
}

/// Computes a session's work outside turns and then does its next event. Returns whether it had
/// one. Where memory runs out, nothing is promised of the session, and a turn adds nothing.
pub fn take_turn<K: HasOptions, R: Wait, E: Operate, L: Ledger>(
    rt: &R,
    alloc: Global,
    hall: &Hall<SharedBook<K>>,
    pass: &mut Pass<SharedBook<K>>,
    session: &mut Session,
    scorer: &Scorer,
    kernel: &E,
    steps: &mut Steps<L>,
) -> Result<bool, Memory>
    requires scorer { IsScorerOf scorer.now.kind scorer.now.weights.items K.options }
    requires ours { IsPassOf hall.now pass.old }
    requires stands { IsWith K.options pass.old session.old }
    requires in_plan { GoesInPlan session.old session.old.stage }
    ensures ours { OnOk result (IsPassOf hall.now pass.new) }
    ensures session { OnOk result (IsSameSession session.old session.new) }
    ensures begins { OnOk result (IsAside session.old.stage → MayBegin session.new.stage) }
    ensures stands { OnOk result (IsWith K.options pass.new session.new) }
    ensures one { IfOk result (λ more. more ≡ true → HasOneMore pass.old pass.new) }
    ensures none { IfOk result (λ more. more ≡ false → pass.new ≡ pass.old) }
    ensures over { IfOk result (λ more. more ≡ false → IsOver session.new) }
{
    session.outside(alloc, kernel, steps)?;
    if session.done() {
        return Ok(false);
    }
    do_event(rt, alloc, hall, pass, session, scorer, kernel, steps)?;
    Ok(true)
}
