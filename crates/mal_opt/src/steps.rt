//! What each pass does with one instruction.
ghost use Rattle.std.specs.Prelude.{◌≡◌, ◌∷◌, [], ◌++◌, List, length, IfOk};
ghost use Rattle.cell_core.specs.declared.operator.Arg.{Arg as ArgSeen};
ghost use Rattle.cell_core.specs.declared.operator.Arg.TheVariants.{Var};
ghost use Rattle.mal_opt.specs.Passes.{behind, keeping, folding, sharing};

use crate::constant::constant_value;
use crate::term::HashedInstr;
use cell_core::{Arg, Instr, Memory, Sequence};
use indexmap::IndexSet;
use std::alloc::Global;

/// The result of the instruction with this number. A number past 32 bits is want of memory, since
/// no argument holds it.
fn variable(number: usize) -> Result<Arg, Memory>
    ensures { IfOk result (λ arg. arg ≡ Var number) }
{
    match u32::try_from(number) {
        Ok(number) => Ok(Arg::Var(number)),
        Err(_) => Err(Memory),
    }
}

/// Keeps an instruction, and returns the replacement of its result.
pub(crate) fn keep(instrs: &mut Sequence<Instr>, instr: Instr) -> Result<Arg, Memory>
    ensures { IfOk result (λ place. (places : List ArgSeen) → keeping (behind instrs.old places) instr ≡ behind instrs.new (places ++ place ∷ [])) }
{
    let place = variable(instrs.len())?;
    instrs.push(instr)?;
    Ok(place)
}

/// Folds an instruction, or keeps it, and returns the replacement of its result.
pub(crate) fn fold(instrs: &mut Sequence<Instr>, instr: Instr) -> Result<Arg, Memory>
    ensures { IfOk result (λ place. (places : List ArgSeen) → folding keeping (behind instrs.old places) instr ≡ behind instrs.new (places ++ place ∷ [])) }
{
    match constant_value(&instr) {
        Some(cell) => Ok(Arg::Const(cell)),
        None => keep(instrs, instr),
    }
}

/// Finds an equal instruction, or keeps this one, and returns the replacement of its result.
#[tactic(auto, using(crate::proofs::PassLemmas::shared_is))]
pub(crate) fn share(terms: &mut IndexSet<HashedInstr>, instr: Instr) -> Result<Arg, Memory>
    ensures { IfOk result (λ place. (places : List ArgSeen) → sharing keeping (behind terms.old.keys places) instr ≡ behind terms.new.keys (places ++ place ∷ [])) }
{
    let (number, _) = terms.insert_full(HashedInstr::new(instr))?;
    variable(number)
}

/// Folds an instruction, or finds an equal one, or keeps it, and returns the replacement of its
/// result.
pub(crate) fn fold_or_share(terms: &mut IndexSet<HashedInstr>, instr: Instr) -> Result<Arg, Memory>
    ensures { IfOk result (λ place. (places : List ArgSeen) → folding (sharing keeping) (behind terms.old.keys places) instr ≡ behind terms.new.keys (places ++ place ∷ [])) }
{
    match constant_value(&instr) {
        Some(cell) => Ok(Arg::Const(cell)),
        None => share(terms, instr),
    }
}

/// The members of a set, in order.
pub(crate) fn instrs_of(
    alloc: Global,
    terms: IndexSet<HashedInstr>,
) -> Result<Sequence<Instr>, Memory>
    ensures { IfOk result (λ instrs. instrs ≡ terms.keys) }
{
    let mut terms = terms;
    let mut instrs = Vec::with_capacity(alloc, terms.len())?;
    'terms: while let Some(term) = terms.pop() {
        instrs.push(term.into_instr())?;
    }
    instrs.reverse();
    Ok(Sequence::from_vec(instrs))
}
