//! Which instructions are alive.
ghost use Rattle.std.specs.Prelude.{◌≡◌, ◌<◌, ℕ, ◌||◌, ◌&&◌, false, get_or, length, IfOk};
ghost use Rattle.cell_core.specs.Forms as forms;
ghost use Rattle.mal_opt.specs.Live.{alive_from, is_result, is_shown, uses};

use cell_core::{Arg, Instr, Memory};
use mal_meaning::{Out, Plan};
use std::alloc::Global;

/// Notes that the result which an argument names is used.
fn mark(used: &mut [bool], arg: &Arg)
    ensures len { length used.new ≡ length used.old }
    ensures flags { (n : ℕ) → n < length used.old → get_or used.new n false ≡ (is_result n arg.now || get_or used.old n false) }
{
    if let Arg::Var(number) = arg {
        let place = *number as usize;
        if place < used.len() {
            used[place] = true;
        }
    }
}

/// Notes that the results which arguments name are used.
fn mark_all(used: &mut [bool], args: &[Arg])
    ensures len { length used.new ≡ length used.old }
    ensures flags { (n : ℕ) → n < length used.old → get_or used.new n false ≡ (uses n args.now || get_or used.old n false) }
{
    let mut rest = args;
    'args: while let [arg, more @ ..] = rest {
        mark(used, arg);
        rest = more;
    }
}

/// Whether each of the first `count` results is used by the output.
fn shown(alloc: Global, out: &Out, count: usize) -> Result<Vec<bool>, Memory>
    ensures len { IfOk result (λ used. length used.items ≡ count) }
    ensures flags { IfOk result (λ used. (n : ℕ) → n < count → get_or used.items n false ≡ is_shown n out.now) }
{
    let mut used = vec![in alloc; false; count]?;
    mark_all(&mut used, out.cols.as_slice());
    if let Some(arg) = &out.keep {
        mark(&mut used, arg);
    }
    Ok(used)
}

/// Whether an instruction is alive; where it is, the results that it uses are used.
fn settle(used: &mut Vec<bool>, instr: &Instr, is_used: bool) -> bool
    ensures alive { result ≡ (is_used || forms.may_overflow instr.now.op) }
    ensures len { length used.new.items ≡ length used.old.items }
    ensures flags { (n : ℕ) → n < length used.old.items → get_or used.new.items n false ≡ ((result && uses n instr.now.args) || get_or used.old.items n false) }
{
    if is_used || instr.op.may_overflow() {
        mark_all(used, instr.args.as_slice());
        return true;
    }
    false
}

/// Whether each instruction of a plan is alive, found from the back: it is alive where it may
/// overflow, or where the output or a later one that is alive uses its result.
pub(crate) fn alive(alloc: Global, plan: &Plan) -> Result<Vec<bool>, Memory>
    ensures { IfOk result (λ flags. flags.items ≡ alive_from plan.now.out 0 plan.now.instrs) }
{
    let instrs = plan.instrs.as_slice();
    let mut used = shown(alloc, &plan.out, instrs.len())?;
    let mut flags = Vec::with_capacity(alloc, instrs.len())?;
    'instrs: while let Some(is_used) = used.pop() {
        let place = used.len();
        let is_alive = settle(&mut used, &instrs[place], is_used);
        flags.push(is_alive)?;
    }
    flags.reverse();
    Ok(flags)
}

/// The flag at a place; false where there is none.
pub(crate) fn is_set(flags: &[bool], place: usize) -> bool
    ensures { result ≡ get_or flags.now place false }
{
    flags.get(place).copied().unwrap_or(false)
}
