//! What is handed out and not done, as the caller keeps it.
ghost use Rattle.std.specs.Prelude.{◌≡◌, ◌++◌, ◌∷◌, [], true, Some, Err, OnOk, IfOk, IfSome, IfNone};
ghost use Rattle.cell_core.specs.declared.memory.RunError.TheVariants as RunError;
ghost use Rattle.bat_core.specs.Objects.{value_of};
ghost use Rattle.dataflow.specs.Rules.{value_at, IsTask, IsAnswer};
ghost use Rattle.dataflow.specs.Plans.{has, IsIdle, HasFault};
ghost use Rattle.dataflow.specs.Leads.{without, KnowsOut};

use crate::basis::HasBasis;
use crate::jobs::Jobs;
use crate::task::{Answer, Task};
use crate::workers::answer_to;
use bat_core::{Obj, Operate};
use cell_core::{Memory, RunError};
use std::alloc::Global;
use std::sync::Wait;

/// Takes an instruction out of a list.
fn remove(out: &mut Vec<u32>, instr: u32)
    ensures { out.new.items ≡ without out.old.items instr }
{
    out.retain(|i| *i != instr);
}

/// The next task that is ready. It is out from then on.
pub(crate) fn take<R: Wait, J: Jobs>(
    rt: &R,
    jobs: &mut J,
    out: &mut Vec<u32>,
) -> Result<Option<Task>, Memory>
    requires known { KnowsOut (J.handed jobs.old) (J.finished jobs.old) out.old.items }
    requires sound { J.sound jobs.old }
    ensures basis { J.basis jobs.new ≡ J.basis jobs.old }
    ensures fixed { J.fixed jobs.new ≡ J.fixed jobs.old }
    ensures sound { OnOk result (J.sound jobs.new) }
    ensures known { OnOk result (KnowsOut (J.handed jobs.new) (J.finished jobs.new) out.new.items) }
    ensures task { IfOk result (λ found. IfSome found (λ task. IsTask (J.basis jobs.old) task)) }
    ensures more { IfOk result (λ found. IfSome found (λ task. out.new.items ≡ out.old.items ++ task.instr ∷ [])) }
    ensures same { IfOk result (λ found. IfNone found (out.new.items ≡ out.old.items)) }
    ensures idle { IfOk result (λ found. IfNone found (IsIdle (J.basis jobs.new) (J.valued jobs.new) (J.needed jobs.new) (J.handed jobs.new) (J.finished jobs.new))) }
{
    let Some(task) = jobs.next(rt)? else {
        return Ok(None);
    };
    out.push(task.instr).map_err(|_| Memory)?;
    Ok(Some(task))
}

/// Notes that an instruction which is out is done.
#[tactic(auto, using(crate::proofs::LeadLemmas::out_is_handed, crate::proofs::LeadLemmas::out_is_due))]
fn finish<R: Wait, J: Jobs>(
    rt: &R,
    jobs: &mut J,
    out: &mut Vec<u32>,
    instr: u32,
    value: Obj,
) -> Result<(), Memory>
    requires known { KnowsOut (J.handed jobs.old) (J.finished jobs.old) out.old.items }
    requires sound { J.sound jobs.old }
    requires out { has out.old.items instr ≡ true }
    requires value { value_at (J.basis jobs.old) instr ≡ Some (value_of value) }
    ensures basis { J.basis jobs.new ≡ J.basis jobs.old }
    ensures fixed { J.fixed jobs.new ≡ J.fixed jobs.old }
    ensures sound { OnOk result (J.sound jobs.new) }
    ensures known { OnOk result (KnowsOut (J.handed jobs.new) (J.finished jobs.new) out.new.items) }
    ensures less { OnOk result (out.new.items ≡ without out.old.items instr) }
{
    jobs.done(rt, instr, value)?;
    remove(out, instr);
    Ok(())
}

/// Takes an answer. One to an instruction that isn't out is dropped.
pub(crate) fn settle<R: Wait, J: Jobs>(
    rt: &R,
    jobs: &mut J,
    out: &mut Vec<u32>,
    answer: Answer,
) -> Result<(), RunError>
    requires known { KnowsOut (J.handed jobs.old) (J.finished jobs.old) out.old.items }
    requires sound { J.sound jobs.old }
    requires answer { IsAnswer (J.basis jobs.old) answer }
    ensures basis { J.basis jobs.new ≡ J.basis jobs.old }
    ensures fixed { J.fixed jobs.new ≡ J.fixed jobs.old }
    ensures sound { OnOk result (J.sound jobs.new) }
    ensures known { OnOk result (KnowsOut (J.handed jobs.new) (J.finished jobs.new) out.new.items) }
    ensures less { OnOk result (out.new.items ≡ without out.old.items answer.instr) }
    ensures overflow { result ≡ Err RunError.Overflow → HasFault (J.basis jobs.new) (J.handed jobs.new) }
    ensures sound_after_overflow { result ≡ Err RunError.Overflow → J.sound jobs.new }
{
    let Answer { instr, result } = answer;
    if !out.contains(&instr) {
        return Ok(());
    }
    let value = result?;
    finish(rt, jobs, out, instr, value)?;
    Ok(())
}

/// Runs a task on this thread.
pub(crate) fn run_here<K: HasBasis, R: Wait, J: Jobs, E: Operate>(
    rt: &R,
    alloc: Global,
    jobs: &mut J,
    kernel: &E,
    out: &mut Vec<u32>,
    task: Task,
) -> Result<(), RunError>
    requires named { J.basis jobs.old ≡ K.basis }
    requires known { KnowsOut (J.handed jobs.old) (J.finished jobs.old) out.old.items }
    requires sound { J.sound jobs.old }
    requires task { IsTask K.basis task }
    ensures basis { J.basis jobs.new ≡ J.basis jobs.old }
    ensures fixed { J.fixed jobs.new ≡ J.fixed jobs.old }
    ensures sound { OnOk result (J.sound jobs.new) }
    ensures known { OnOk result (KnowsOut (J.handed jobs.new) (J.finished jobs.new) out.new.items) }
    ensures less { OnOk result (out.new.items ≡ without out.old.items task.instr) }
    ensures overflow { result ≡ Err RunError.Overflow → HasFault (J.basis jobs.new) (J.handed jobs.new) }
    ensures sound_after_overflow { result ≡ Err RunError.Overflow → J.sound jobs.new }
{
    let answer = answer_to::<K, E>(alloc, task, kernel);
    settle(rt, jobs, out, answer)
}
