//! The first fault of a plan.
ghost use Rattle.std.specs.Prelude.{◌≡◌, ◌≢◌, length, map, Some, None, Ok, Err, IfOk, IfErr, OnOk};
ghost use Rattle.std.specs.Option.{option_map};
ghost use Rattle.mal_check.specs.declared.error.PlanError.TheVariants as PlanError;
ghost use Rattle.cell_core.specs.Forms as forms;
ghost use Rattle.mal_check.specs.Checked as checked;
ghost use Rattle.mal_check.specs.Checked.{plan_fault};
ghost use Rattle.mal_check.specs.Types.{type_of, types_of};

use crate::error::PlanError;
use crate::kinds::{ValueKind, arg_kind, bind_kind, result_kind};
use crate::output::out_fault;
use cell_core::{Arg, Form, Instr, Memory, Op, Sequence};
use mal_meaning::Plan;
use std::alloc::Global;

fn argument_count(op: Op) -> usize
    ensures { result ≡ forms.argument_count op }
{
    match op.form() {
        Form::Bind => 3,
        Form::Range => 5,
        Form::OneBat | Form::Total | Form::OneCell => 1,
        Form::BatAndCell | Form::TwoBats | Form::TwoCells => 2,
    }
}

/// The kinds of the arguments, if none names an instruction that isn't earlier.
fn arg_kinds(
    alloc: Global,
    kinds: &[ValueKind],
    args: &[Arg],
) -> Result<Option<Sequence<ValueKind>>, Memory>
    ensures { IfOk result (λ found. option_map types_of found ≡ checked.arg_types (types_of kinds.now) args.now) }
{
    let mut found = Sequence::new(alloc);
    let mut rest = args;
    'args: while let [arg, more @ ..] = rest {
        let Some(kind) = arg_kind(kinds, arg) else {
            return Ok(None);
        };
        found.push(kind)?;
        rest = more;
    }
    Ok(Some(found))
}

/// The kind of an operator's result, if its arguments fit.
fn kind_over(op: Op, args: &[Arg], kinds: &[ValueKind]) -> Option<ValueKind>
    ensures { option_map type_of result ≡ checked.type_over op args.now (types_of kinds.now) }
{
    if op == Op::Bind {
        bind_kind(args)
    } else {
        result_kind(op, kinds)
    }
}

/// The kind of the result of an instruction after those of these kinds, or its fault.
#[tactic(auto, unfolding(crate::specs::Checked::instr_type))]
fn instr_kind(alloc: Global, kinds: &[ValueKind], instr: &Instr) -> Result<ValueKind, PlanError>
    ensures kind { IfOk result (λ kind. checked.instr_type (types_of kinds.now) instr.now ≡ Ok (type_of kind)) }
    ensures fault { IfErr result (λ e. e ≢ PlanError.Memory → checked.instr_type (types_of kinds.now) instr.now ≡ Err e) }
{
    let number = number_of(kinds)?;
    let args = instr.args.as_slice();
    let Some(found) = arg_kinds(alloc, kinds, args)? else {
        return Err(PlanError::UnknownVar(number));
    };
    if args.len() != argument_count(instr.op) {
        return Err(PlanError::WrongCount(number));
    }
    match kind_over(instr.op, args, found.as_slice()) {
        Some(kind) => Ok(kind),
        None => Err(PlanError::KindsDiffer(number)),
    }
}

/// The number of the instruction after those of these kinds.
fn number_of(kinds: &[ValueKind]) -> Result<u32, Memory>
    ensures { IfOk result (λ number. number ≡ length kinds.now) }
{
    match u32::try_from(kinds.len()) {
        Ok(number) => Ok(number),
        Err(_) => Err(Memory),
    }
}

/// The kinds of the results of the instructions, or the first fault.
fn instr_kinds(alloc: Global, instrs: &[Instr]) -> Result<Sequence<ValueKind>, PlanError>
    ensures kinds { IfOk result (λ kinds. checked.instr_types instrs.now ≡ Ok (types_of kinds)) }
    ensures fault { IfErr result (λ e. e ≢ PlanError.Memory → checked.instr_types instrs.now ≡ Err e) }
{
    let mut kinds = Sequence::new(alloc);
    let mut rest = instrs;
    'instrs: while let [instr, more @ ..] = rest {
        let kind = instr_kind(alloc, kinds.as_slice(), instr)?;
        kinds.push(kind)?;
        rest = more;
    }
    Ok(kinds)
}

/// Whether a plan is well formed. Otherwise it returns the plan's first fault: that of the first
/// instruction at fault, and, where there is none, that of the output. Within an instruction and
/// within the output, `UnknownVar` comes before `WrongCount`, and that before `KindsDiffer`; an
/// output without columns is `NoOutput`, before any other fault of the output. `Memory` may come at
/// any time, and comes where a number of an instruction doesn't fit 32 bits.
pub fn check_plan(alloc: Global, plan: &Plan) -> Result<(), PlanError>
    ensures checked { OnOk result (plan_fault plan.now ≡ None) }
    ensures fault { IfErr result (λ e. e ≢ PlanError.Memory → plan_fault plan.now ≡ Some e) }
{
    let kinds = instr_kinds(alloc, plan.instrs.as_slice())?;
    let number = number_of(kinds.as_slice())?;
    match out_fault(kinds.as_slice(), &plan.out, number) {
        None => Ok(()),
        Some(fault) => Err(fault),
    }
}
