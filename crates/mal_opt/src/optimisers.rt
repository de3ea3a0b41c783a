//! The optimisers.
ghost use Rattle.std.specs.Prelude.{◌≡◌, ◌∷◌, [], ◌++◌, None, IfOk, if◌then◌else◌};
ghost use Rattle.cell_core.specs.declared.cell.Cell.TheVariants.{Nil};
ghost use Rattle.cell_core.specs.declared.operator.Arg.TheVariants.{Const};
ghost use Rattle.mal_check.specs.Checked.{plan_fault};
ghost use Rattle.mal_opt.specs.Laws.{AllDiffer, AllLead, FitsWhere, MeanTheSame, NoneFolds};
ghost use Rattle.mal_opt.specs.Optimisers as optimisers;
ghost use Rattle.mal_opt.specs.Passes.{through, folding, sharing, keeping, replaced, behind, renamed_instr};

use crate::living::{alive, is_set};
use crate::renaming::{rename_instr, rename_out};
use crate::steps::{fold, fold_or_share, instrs_of, keep, share};
use cell_core::{Arg, Cell, Instr, Memory, Sequence};
use indexmap::IndexSet;
use mal_meaning::Plan;
use std::alloc::Global;

/// The plan where each calculation of constants that doesn't overflow is replaced by its value.
fn folded(alloc: Global, plan: &Plan) -> Result<Plan, Memory>
    ensures { IfOk result (λ made. made ≡ through (folding keeping) plan.now) }
{
    let mut instrs = Sequence::new(alloc);
    let mut places = Sequence::new(alloc);
    let mut rest = plan.instrs.as_slice();
    'instrs: while let [instr, more @ ..] = rest {
        let instr = rename_instr(alloc, places.as_slice(), instr)?;
        places.push(fold(&mut instrs, instr)?)?;
        rest = more;
    }
    let out = rename_out(alloc, places.as_slice(), &plan.out)?;
    Ok(Plan { instrs, out })
}

/// The plan where each instruction that equals an earlier one is replaced by that one.
fn shared(alloc: Global, plan: &Plan) -> Result<Plan, Memory>
    ensures { IfOk result (λ made. made ≡ through (sharing keeping) plan.now) }
{
    let mut terms = IndexSet::new(alloc);
    let mut places = Sequence::new(alloc);
    let mut rest = plan.instrs.as_slice();
    'instrs: while let [instr, more @ ..] = rest {
        let instr = rename_instr(alloc, places.as_slice(), instr)?;
        places.push(share(&mut terms, instr)?)?;
        rest = more;
    }
    let instrs = instrs_of(alloc, terms)?;
    let out = rename_out(alloc, places.as_slice(), &plan.out)?;
    Ok(Plan { instrs, out })
}

/// The plan where both is done at each instruction.
fn folded_and_shared(alloc: Global, plan: &Plan) -> Result<Plan, Memory>
    ensures { IfOk result (λ made. made ≡ through (folding (sharing keeping)) plan.now) }
{
    let mut terms = IndexSet::new(alloc);
    let mut places = Sequence::new(alloc);
    let mut rest = plan.instrs.as_slice();
    'instrs: while let [instr, more @ ..] = rest {
        let instr = rename_instr(alloc, places.as_slice(), instr)?;
        places.push(fold_or_share(&mut terms, instr)?)?;
        rest = more;
    }
    let instrs = instrs_of(alloc, terms)?;
    let out = rename_out(alloc, places.as_slice(), &plan.out)?;
    Ok(Plan { instrs, out })
}

/// Keeps an instruction that is alive over the replacements of its arguments, and returns the
/// replacement of its result; that of one that isn't alive may be anything.
fn keep_alive(
    alloc: Global,
    is_alive: bool,
    instrs: &mut Sequence<Instr>,
    places: &[Arg],
    instr: &Instr,
) -> Result<Arg, Memory>
    ensures { IfOk result (λ place. (if is_alive then keeping (behind instrs.old places.now) (renamed_instr places.now instr.now) else replaced (behind instrs.old places.now) (Const Nil)) ≡ behind instrs.new (places.now ++ place ∷ [])) }
{
    if is_alive {
        let instr = rename_instr(alloc, places, instr)?;
        return keep(instrs, instr);
    }
    Ok(Arg::Const(Cell::Nil))
}

/// The plan without the instructions that aren't alive.
fn dropped(alloc: Global, plan: &Plan) -> Result<Plan, Memory>
    ensures { IfOk result (λ made. made ≡ optimisers.drop_dead plan.now) }
{
    let flags = alive(alloc, plan)?;
    let mut instrs = Sequence::new(alloc);
    let mut places = Sequence::new(alloc);
    let mut rest = plan.instrs.as_slice();
    'instrs: while let [instr, more @ ..] = rest {
        let is_alive = is_set(&flags, places.len());
        let place = keep_alive(alloc, is_alive, &mut instrs, places.as_slice(), instr)?;
        places.push(place)?;
        rest = more;
    }
    let out = rename_out(alloc, places.as_slice(), &plan.out)?;
    Ok(Plan { instrs, out })
}

/// The plan after both passes.
fn whole(alloc: Global, plan: &Plan) -> Result<Plan, Memory>
    ensures { IfOk result (λ made. made ≡ optimisers.optimise plan.now) }
{
    let front = folded_and_shared(alloc, plan)?;
    dropped(alloc, &front)
}

/// Replaces each calculation of constants that doesn't overflow by its value. The plan has to be
/// checked (`check_plan`).
pub fn fold_constants(alloc: Global, plan: &Plan) -> Result<Plan, Memory>
    requires { plan_fault plan.now ≡ None }
    ensures plan { IfOk result (λ made. made ≡ optimisers.fold_constants plan.now) }
    ensures meaning { IfOk result (MeanTheSame plan.now) }
    ensures checked { IfOk result (λ made. plan_fault made ≡ None) }
    ensures fits { IfOk result (FitsWhere plan.now) }
    ensures folded { IfOk result NoneFolds }
{
    folded(alloc, plan)
}

/// Puts the first of equal instructions (same operator, same arguments) in place of the others;
/// arguments are compared after their replacement. The plan has to be checked (`check_plan`).
pub fn share_terms(alloc: Global, plan: &Plan) -> Result<Plan, Memory>
    requires { plan_fault plan.now ≡ None }
    ensures plan { IfOk result (λ made. made ≡ optimisers.share_terms plan.now) }
    ensures meaning { IfOk result (MeanTheSame plan.now) }
    ensures checked { IfOk result (λ made. plan_fault made ≡ None) }
    ensures fits { IfOk result (FitsWhere plan.now) }
    ensures shared { IfOk result AllDiffer }
{
    shared(alloc, plan)
}

/// Drops what isn't alive, and so keeps what is shown, what may overflow, and what these use. The
/// plan has to be checked (`check_plan`).
pub fn drop_dead(alloc: Global, plan: &Plan) -> Result<Plan, Memory>
    requires { plan_fault plan.now ≡ None }
    ensures plan { IfOk result (λ made. made ≡ optimisers.drop_dead plan.now) }
    ensures meaning { IfOk result (MeanTheSame plan.now) }
    ensures checked { IfOk result (λ made. plan_fault made ≡ None) }
    ensures fits { IfOk result (FitsWhere plan.now) }
    ensures dropped { IfOk result AllLead }
{
    dropped(alloc, plan)
}

/// Folds and then shares at each instruction, in one pass from the front, and then drops what is
/// dead. The plan has to be checked (`check_plan`).
pub fn optimise(alloc: Global, plan: &Plan) -> Result<Plan, Memory>
    requires { plan_fault plan.now ≡ None }
    ensures plan { IfOk result (λ made. made ≡ optimisers.optimise plan.now) }
    ensures meaning { IfOk result (MeanTheSame plan.now) }
    ensures checked { IfOk result (λ made. plan_fault made ≡ None) }
    ensures fits { IfOk result (FitsWhere plan.now) }
    ensures folded { IfOk result NoneFolds }
    ensures shared { IfOk result AllDiffer }
    ensures dropped { IfOk result AllLead }
{
    whole(alloc, plan)
}
