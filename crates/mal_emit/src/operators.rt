//! Operators whose results are arguments of others.
ghost use Rattle.std.specs.Prelude.{◌≡◌, [], ◌∷◌, IfOk};
ghost use Rattle.mal_emit.specs.Emitters.{emits};

use crate::instruction::emit;
use cell_core::{Arg, Instr, Memory, Op, Sequence};
use std::alloc::Global;

/// Adds an operator, and returns its result as an argument of others.
fn add(instrs: &mut Sequence<Instr>, op: Op, args: Vec<Arg>) -> Result<Arg, Memory>
    ensures { IfOk result (λ arg. (instrs.new, arg) ≡ (emits op args.items).run instrs.old) }
{
    let number = emit(instrs, op, args)?;
    Ok(Arg::Var(number))
}

/// Adds an operator of one value, and returns its result as an argument. On `Memory`, `instrs` is as it
/// was.
pub fn one(alloc: Global, instrs: &mut Sequence<Instr>, op: Op, of: Arg) -> Result<Arg, Memory>
    ensures { IfOk result (λ arg. (instrs.new, arg) ≡ (emits op (of ∷ [])).run instrs.old) }
{
    add(instrs, op, vec![in alloc; of]?)
}

/// Adds an operator of two values, and returns its result as an argument. On `Memory`, `instrs` is as it
/// was.
pub fn two(
    alloc: Global,
    instrs: &mut Sequence<Instr>,
    op: Op,
    left: Arg,
    right: Arg,
) -> Result<Arg, Memory>
    ensures { IfOk result (λ arg. (instrs.new, arg) ≡ (emits op (left ∷ right ∷ [])).run instrs.old) }
{
    add(instrs, op, vec![in alloc; left, right]?)
}
