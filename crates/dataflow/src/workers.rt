//! Workers, which take tasks and push answers until the work is to end.
ghost use Rattle.std.specs.Prelude.{◌≡◌};
ghost use Rattle.dataflow.specs.Jobs.{Answers};
ghost use Rattle.dataflow.specs.Rules.{value_at, IsTask, IsAnswer};
ghost use Rattle.dataflow.specs.Hands.{IsHandsOf};

use crate::basis::HasBasis;
use crate::bells::Bell;
use crate::queues::Hands;
use crate::ready::run_job;
use crate::task::{Answer, Task};
use crate::team::Team;
use bat_core::{Obj, Operate};
use cell_core::RunError;
use crossbeam_utils::Backoff;
use std::alloc::Global;
use std::sync::Wait;

/// The value of a task's instruction.
fn run_task<K: HasBasis, E: Operate>(
    alloc: Global,
    task: &Task,
    kernel: &E,
) -> Result<Obj, RunError>
    requires { IsTask K.basis task.now }
    ensures { Answers (value_at K.basis task.now.instr) result }
{
    run_job(alloc, &task.job, kernel)
}

/// The answer to a task.
pub(crate) fn answer_to<K: HasBasis, E: Operate>(alloc: Global, task: Task, kernel: &E) -> Answer
    requires { IsTask K.basis task }
    ensures answer { IsAnswer K.basis result }
    ensures instr { result.instr ≡ task.instr }
{
    let result = run_task::<K, E>(alloc, &task, kernel);
    Answer {
        instr: task.instr,
        result,
    }
}

/// Pushes an answer, or gives up where the work is to end.
fn deliver<K: HasBasis, R: Wait>(rt: &R, team: &Team<K>, hands: &mut Hands, answer: Answer)
    requires ours { IsHandsOf K.basis team.now.queues hands.old }
    requires answer { IsAnswer K.basis answer }
    ensures { IsHandsOf K.basis team.now.queues hands.new }
{
    let mut answer = answer;
    let backoff = Backoff::new();
    'pushes: for _ in rt.forever() {
        match team.queues.push_answer(rt, hands, answer) {
            Ok(()) => {
                team.bells.answer.unpark();
                return;
            }
            Err(back) => answer = back,
        }
        if team.has_ended() {
            return;
        }
        backoff.snooze();
    }
}

/// Runs tasks until the work is to end. It looks for a task a few times more before it sleeps,
/// since waking a thread takes longer than most tasks.
pub(crate) fn work<K: HasBasis, R: Wait, E: Operate>(
    rt: &R,
    alloc: Global,
    kernel: &E,
    team: &Team<K>,
    bell: &Bell,
    hands: Hands,
) -> Hands
    requires { IsHandsOf K.basis team.now.queues hands }
    ensures { IsHandsOf K.basis team.now.queues result }
{
    let mut hands = hands;
    let backoff = Backoff::new();
    'takes: for _ in rt.forever() {
        if team.has_ended() {
            break;
        }
        match team.queues.take_task(rt, &mut hands) {
            Some(task) => {
                bell.gets_up();
                let answer = answer_to::<K, E>(alloc, task, kernel);
                deliver(rt, team, &mut hands, answer);
                backoff.reset();
            }
            None if !backoff.is_completed() => backoff.snooze(),
            None if bell.lies_down() => {}
            None => bell.sleep(rt),
        }
    }
    hands
}
