//! The caller beside workers: it hands out tasks, takes answers, and reports what is done.
ghost use Rattle.std.specs.Prelude.{◌≡◌, Err, OnOk, IfOk, IsTrue};
ghost use Rattle.cell_core.specs.declared.memory.RunError.TheVariants as RunError;
ghost use Rattle.dataflow.specs.Rules.{IsTask, IsAnswer};
ghost use Rattle.dataflow.specs.Plans.{IsComplete, HasFault};
ghost use Rattle.dataflow.specs.Hands.{IsHandsOf};
ghost use Rattle.dataflow.specs.Leads.{KnowsOut, IsPairOf};

use crate::basis::HasBasis;
use crate::jobs::Jobs;
use crate::pending::{run_here, settle, take};
use crate::queues::Hands;
use crate::task::{Answer, Pair, Task};
use crate::team::Team;
use bat_core::Operate;
use cell_core::RunError;
use crossbeam_utils::Backoff;
use std::alloc::Global;
use std::sync::Wait;

/// Waits for an answer. It looks some times more before it sleeps, as a worker does.
fn await_answer<K: HasBasis, R: Wait>(rt: &R, team: &Team<K>, hands: &mut Hands) -> Answer
    requires { IsHandsOf K.basis team.now.queues hands.old }
    ensures ours { IsHandsOf K.basis team.now.queues hands.new }
    ensures answer { IsAnswer K.basis result }
{
    let backoff = Backoff::new();
    'takes: for _ in rt.forever() {
        if let Some(answer) = team.queues.take_answer(rt, hands) {
            return answer;
        }
        if backoff.is_completed() {
            team.bells.answer.park(rt);
        } else {
            backoff.snooze();
        }
    }
    unreachable!()
}

/// Pushes a task, or runs it where there is no room.
fn dispatch<K: HasBasis, R: Wait, J: Jobs, E: Operate>(
    rt: &R,
    alloc: Global,
    jobs: &mut J,
    kernel: &E,
    team: &Team<K>,
    hands: &mut Hands,
    out: &mut Vec<u32>,
    task: Task,
) -> Result<(), RunError>
    requires named { J.basis jobs.old ≡ K.basis }
    requires ours { IsHandsOf K.basis team.now.queues hands.old }
    requires known { KnowsOut (J.handed jobs.old) (J.finished jobs.old) out.old.items }
    requires sound { J.sound jobs.old }
    requires task { IsTask K.basis task }
    ensures ours { IsHandsOf K.basis team.now.queues hands.new }
    ensures basis { J.basis jobs.new ≡ J.basis jobs.old }
    ensures fixed { J.fixed jobs.new ≡ J.fixed jobs.old }
    ensures sound { OnOk result (J.sound jobs.new) }
    ensures known { OnOk result (KnowsOut (J.handed jobs.new) (J.finished jobs.new) out.new.items) }
    ensures overflow { result ≡ Err RunError.Overflow → HasFault (J.basis jobs.new) (J.handed jobs.new) }
    ensures sound_after_overflow { result ≡ Err RunError.Overflow → J.sound jobs.new }
{
    match team.queues.push_task(rt, hands, task) {
        Ok(()) => {
            team.bells.ring();
            Ok(())
        }
        Err(task) => run_here::<K, R, J, E>(rt, alloc, jobs, kernel, out, task),
    }
}

/// Hands out the next task, or else takes an answer. True where all is done.
fn step<K: HasBasis, R: Wait, J: Jobs, E: Operate>(
    rt: &R,
    alloc: Global,
    jobs: &mut J,
    kernel: &E,
    team: &Team<K>,
    hands: &mut Hands,
    out: &mut Vec<u32>,
) -> Result<bool, RunError>
    requires named { J.basis jobs.old ≡ K.basis }
    requires ours { IsHandsOf K.basis team.now.queues hands.old }
    requires known { KnowsOut (J.handed jobs.old) (J.finished jobs.old) out.old.items }
    requires sound { J.sound jobs.old }
    ensures ours { IsHandsOf K.basis team.now.queues hands.new }
    ensures basis { J.basis jobs.new ≡ J.basis jobs.old }
    ensures fixed { J.fixed jobs.new ≡ J.fixed jobs.old }
    ensures sound { OnOk result (J.sound jobs.new) }
    ensures known { OnOk result (KnowsOut (J.handed jobs.new) (J.finished jobs.new) out.new.items) }
    ensures complete { IfOk result (λ all. IsTrue all → IsComplete (J.basis jobs.new) (J.valued jobs.new) (J.needed jobs.new) (J.handed jobs.new) (J.finished jobs.new)) }
    ensures overflow { result ≡ Err RunError.Overflow → HasFault (J.basis jobs.new) (J.handed jobs.new) }
    ensures sound_after_overflow { result ≡ Err RunError.Overflow → J.sound jobs.new }
{
    if let Some(task) = take(rt, jobs, out)? {
        dispatch(rt, alloc, jobs, kernel, team, hands, out, task)?;
        return Ok(false);
    }
    if out.is_empty() {
        return Ok(true);
    }
    let answer = await_answer(rt, team, hands);
    settle(rt, jobs, out, answer)?;
    Ok(false)
}

/// Runs the plan to its end with the team, from two tasks that are out.
pub(crate) fn lead<K: HasBasis, R: Wait, J: Jobs, E: Operate>(
    rt: &R,
    alloc: Global,
    jobs: &mut J,
    kernel: &E,
    team: &Team<K>,
    hands: &mut Hands,
    out: &mut Vec<u32>,
    pair: Pair,
) -> Result<(), RunError>
    requires named { J.basis jobs.old ≡ K.basis }
    requires ours { IsHandsOf K.basis team.now.queues hands.old }
    requires known { KnowsOut (J.handed jobs.old) (J.finished jobs.old) out.old.items }
    requires sound { J.sound jobs.old }
    requires pair { IsPairOf K.basis pair out.old.items }
    ensures ours { IsHandsOf K.basis team.now.queues hands.new }
    ensures basis { J.basis jobs.new ≡ J.basis jobs.old }
    ensures fixed { J.fixed jobs.new ≡ J.fixed jobs.old }
    ensures sound { OnOk result (J.sound jobs.new) }
    ensures complete { OnOk result (IsComplete (J.basis jobs.new) (J.valued jobs.new) (J.needed jobs.new) (J.handed jobs.new) (J.finished jobs.new)) }
    ensures overflow { result ≡ Err RunError.Overflow → HasFault (J.basis jobs.new) (J.handed jobs.new) }
    ensures sound_after_overflow { result ≡ Err RunError.Overflow → J.sound jobs.new }
{
    let Pair { first, second } = pair;
    dispatch(rt, alloc, jobs, kernel, team, hands, out, first)?;
    dispatch(rt, alloc, jobs, kernel, team, hands, out, second)?;
    'steps: for _ in rt.forever() {
        if step(rt, alloc, jobs, kernel, team, hands, out)? {
            return Ok(());
        }
    }
    unreachable!()
}
