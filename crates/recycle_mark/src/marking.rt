//! The marks of a plan.
ghost use Rattle.std.specs.Prelude.{◌≡◌, ◌∷◌, ◌&&◌, List, IfOk, OnOk};
ghost use Rattle.cell_core.specs.declared.operator.Instr.{Instr as InstrSeen};
ghost use Rattle.std.specs.List.{list_all};
ghost use Rattle.recycle_mark.specs.Marks.{is_marked, marks_from, marks_of};

use crate::bats::{all_marked, gives_bat};
use cell_core::{Arg, Instr, Memory, Sequence};
use mal_meaning::Plan;
use std::alloc::Global;

/// Whether an instruction with these arguments is marked, after those of which this is known.
fn is_marked_after(is_bat: bool, marks: &[bool], args: &[Arg]) -> bool
    ensures { result ≡ (is_bat && list_all (is_marked marks.now) args.now) }
{
    is_bat && all_marked(marks, args)
}

/// Notes whether the next instruction returns a BAT, and whether it is marked.
fn mark_next(
    bats: &mut Sequence<bool>,
    marks: &mut Sequence<bool>,
    instr: &Instr,
) -> Result<(), Memory>
    ensures { OnOk result ((rest : List InstrSeen) → marks_from bats.new marks.new rest ≡ marks_from bats.old marks.old (instr.now ∷ rest)) }
{
    let is_bat = gives_bat(bats.as_slice(), instr);
    let is_marked = is_marked_after(is_bat, marks.as_slice(), instr.args.as_slice());
    bats.push(is_bat)?;
    marks.push(is_marked)?;
    Ok(())
}

/// Whether each instruction of a plan is marked, in the plan's order: it returns a BAT, and takes
/// no results but those of marked instructions.
pub fn marks(alloc: Global, plan: &Plan) -> Result<Vec<bool>, Memory>
    ensures { IfOk result (λ marks. marks.items ≡ marks_of plan.now) }
{
    let mut bats = Sequence::new(alloc);
    let mut marks = Sequence::new(alloc);
    let mut rest = plan.instrs.as_slice();
    'instrs: while let [instr, more @ ..] = rest {
        mark_next(&mut bats, &mut marks, instr)?;
        rest = more;
    }
    Ok(marks.into_vec())
}
