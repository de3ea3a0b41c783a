//! Phrases of several instructions.
ghost use Rattle.std.specs.Prelude.{◌≡◌, IfOk};
ghost use Rattle.cell_core.specs.declared.operator.Arg.TheVariants.{Var};
ghost use Rattle.mal_emit.specs.Phrases.{variables, counted as counted_of, gather as gather_of, selects as selects_of};

use crate::instruction::emit;
use cell_core::{Arg, Cell, Instr, Memory, Op, Sequence};
use std::alloc::Global;

/// Adds the heads of a BAT beside a count from 0. On `Memory`, `instrs` keeps what it had, and one more
/// instruction may follow.
pub fn counted(alloc: Global, instrs: &mut Sequence<Instr>, of: u32) -> Result<u32, Memory>
    ensures { IfOk result (λ number. (instrs.new, Var number) ≡ (counted_of (Var of)).run instrs.old) }
{
    let zero = Arg::Const(Cell::Oid(0));
    let marked = emit(instrs, Op::MarkT, vec![in alloc; Arg::Var(of), zero]?)?;
    emit(instrs, Op::Reverse, vec![in alloc; Arg::Var(marked)]?)
}

/// Adds each of these BATs by the places that the tails of one name. On `Memory`, `instrs` keeps what it
/// had, and the first of these may follow.
pub fn gather(
    alloc: Global,
    instrs: &mut Sequence<Instr>,
    by: u32,
    rows: &[u32],
) -> Result<Vec<u32>, Memory>
    ensures { IfOk result (λ numbers. (instrs.new, variables numbers.items) ≡ (gather_of (Var by) (variables rows.now)).run instrs.old) }
{
    let mut gathered = Vec::new(alloc);
    for row in rows {
        let args = vec![in alloc; Arg::Var(by), Arg::Var(*row)]?;
        let number = emit(instrs, Op::Join, args)?;
        gathered.push(number)?;
    }
    Ok(gathered)
}

/// Adds the pairs of a BAT whose tail lies in a range. On `Memory`, `instrs` is as it was.
pub fn selects(
    alloc: Global,
    instrs: &mut Sequence<Instr>,
    of: u32,
    low: Arg,
    high: Arg,
    low_included: bool,
    high_included: bool,
) -> Result<u32, Memory>
    ensures { IfOk result (λ number. (instrs.new, Var number) ≡ (selects_of (Var of) low high low_included high_included).run instrs.old) }
{
    let li = Arg::Const(Cell::Bit(low_included));
    let hi = Arg::Const(Cell::Bit(high_included));
    let args = vec![in alloc; Arg::Var(of), low, high, li, hi]?;
    emit(instrs, Op::Select, args)
}
