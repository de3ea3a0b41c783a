//! One more instruction.
ghost use Rattle.std.specs.Prelude.{◌≡◌, IfOk, OnErr};
ghost use Rattle.cell_core.specs.declared.operator.Arg.TheVariants.{Var};
ghost use Rattle.mal_emit.specs.Emitters.{emits};

use cell_core::{Arg, Instr, Memory, Op, Sequence};

/// Adds an instruction after others, and returns its number, which names its result.
///
/// A number that a variable can't hold, from 2^32 on, counts as want of memory.
pub fn emit(instrs: &mut Sequence<Instr>, op: Op, args: Vec<Arg>) -> Result<u32, Memory>
    ensures emitted { IfOk result (λ number. (instrs.new, Var number) ≡ (emits op args.items).run instrs.old) }
    ensures unchanged { OnErr result (instrs.new ≡ instrs.old) }
{
    let Ok(number) = u32::try_from(instrs.len()) else {
        return Err(Memory);
    };
    instrs.push(Instr {
        op,
        args: Sequence::from_vec(args),
    })?;
    Ok(number)
}
