//! The arguments of instructions among the values so far.
ghost use Rattle.std.specs.Prelude.{◌≡◌, ℕ, ◌<◌, ◌≤◌, ◌^◌, ◌||◌, length, map, true, false, slice_get, Some, None, IfOk, IfSome, IfNone};
ghost use Rattle.bat_core.specs.Objects.{values_of};
ghost use Rattle.mal_meaning.specs.Meaning.{arg_values};
ghost use Rattle.dataflow.specs.Plans.{has};
ghost use Rattle.flow_tests.specs.Sound as sound;
ghost use Rattle.mal_exec.specs.Results.{known_of};
ghost use Rattle.flow_tests.specs.Ready.{IsReady, NoneReady, ArePassed};

use bat_core::Obj;
use cell_core::{Instr, Memory, Op};
use dataflow::{Job, Task};
use mal_exec::known_args;
use std::alloc::Global;

/// Whether an operator is the bind.
pub(crate) fn is_bind(op: Op) -> bool
    ensures { result ≡ sound.is_bind op }
{
    matches!(op, Op::Bind)
}

/// The job of an instruction, if it isn't handed out and all its arguments have values.
fn job_at(
    alloc: Global,
    instr: &Instr,
    number: u32,
    values: &[Option<Obj>],
    handed: &[u32],
) -> Result<Option<Task>, Memory>
    ensures some { IfOk result (λ found. IfSome found (λ task. (task.instr ≡ number) × (sound.is_bind instr.now.op ≡ false) × (has handed.now number ≡ false) × (task.job.op ≡ instr.now.op) × (arg_values (known_of values.now) instr.now.args ≡ Some (values_of task.job.args.items)))) }
    ensures none { IfOk result (λ found. IfNone found (sound.is_bind instr.now.op ≡ false → has handed.now number ≡ false → arg_values (known_of values.now) instr.now.args ≡ None)) }
{
    if is_bind(instr.op) {
        return Ok(None);
    }
    let Some(args) = known_args(alloc, values, instr.args.as_slice())? else {
        return Ok(None);
    };
    if handed.contains(&number) {
        return Ok(None);
    }
    let job = Job { op: instr.op, args };
    Ok(Some(Task { instr: number, job }))
}

/// Whether an instruction needs no further job: it is a bind, or handed out.
fn is_passed(instr: &Instr, number: u32, handed: &[u32]) -> bool
    ensures { result ≡ (sound.is_bind instr.now.op || has handed.now number) }
{
    is_bind(instr.op) || handed.contains(&number)
}

/// The first instruction from a number on that is neither a bind nor handed out.
pub(crate) fn first_left(instrs: &[Instr], handed: &[u32], from: usize) -> usize
    requires short { length instrs.now < 2 ^ 32 }
    requires passed { ArePassed instrs.now handed.now from }
    ensures { ArePassed instrs.now handed.now result }
{
    'instrs: for i in from..instrs.len() {
        if !is_passed(&instrs[i], i as u32, handed) {
            return i;
        }
    }
    instrs.len().max(from)
}

/// The first task that is ready. No instruction before `from` needs a job.
pub(crate) fn ready(
    alloc: Global,
    instrs: &[Instr],
    values: &[Option<Obj>],
    handed: &[u32],
    from: usize,
) -> Result<Option<Task>, Memory>
    requires short { length instrs.now < 2 ^ 32 }
    requires passed { ArePassed instrs.now handed.now from }
    ensures some { IfOk result (λ found. IfSome found (λ task. IsReady instrs.now (known_of values.now) handed.now task)) }
    ensures none { IfOk result (λ found. IfNone found (NoneReady instrs.now (known_of values.now) handed.now (length instrs.now))) }
{
    'instrs: for i in from..instrs.len() {
        let number = i as u32;
        if let Some(task) = job_at(alloc, &instrs[i], number, values, handed)? {
            return Ok(Some(task));
        }
    }
    Ok(None)
}
