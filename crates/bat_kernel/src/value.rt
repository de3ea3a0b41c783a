//! The values of operators.
ghost use Rattle.std.specs.Prelude.{◌≡◌, ◌≢◌, [], ◌∷◌, ◌+◌, ◌<◌, length, Some, None, IfOk, OnOk};
ghost use Rattle.cell_core.specs.declared.operator.Op.TheVariants as op;
ghost use Rattle.cell_core.specs.declared.form.Form.TheVariants as form;
ghost use Rattle.cell_core.specs.declared.operator.Value.TheVariants.{Bat as BatValue, One as OneValue};
ghost use Rattle.cell_core.specs.Operators.{operate, work_of};
ghost use Rattle.cell_core.specs.Forms.{form_of};
ghost use Rattle.cell_core.specs.Kinds.{Fits};
ghost use Rattle.bat_core.specs.Objects.{value_of, values_of};

use crate::arguments::{bat_and_cell, one_bat, one_value, range, two_bats, two_values};
use bat_algebra::{cross, kdifference, kunion, mark_t, mirror, project, reverse, select, semijoin};
use bat_calc::{over_one, over_two};
use bat_core::{Bat, Obj, Shared};
use bat_group::{
    count, group_derive, group_heads, group_new, max, min, subcount, submax, submin, subsum, sum,
};
use bat_join::join;
use cell_core::{Cell, Form, Memory, Op, RunError, Steps};
use std::alloc::Global;
use std::sync::ledger::Ledger;

/// The value of an operator on arguments that fit it. The counter rises by its work.
pub(crate) fn value<L: Ledger>(
    alloc: Global,
    op: Op,
    args: &[Obj],
    steps: &mut Steps<L>,
) -> Result<Obj, RunError>
    requires fit { Fits op (values_of args.now) }
    ensures value { IfOk result (λ out. operate op (values_of args.now) ≡ Some (value_of out)) }
    ensures overflow { result ≡ Err RunError.Overflow → operate op (values_of args.now) ≡ None }
    ensures work { OnOk result (steps.new ≡ steps.old + work_of op (values_of args.now)) }
    ensures uncounted { result ≡ Err RunError.Overflow → steps.new ≡ steps.old }
{
    match op.form() {
        Form::Bind => unreachable!(),
        Form::Range => of_range(alloc, args, steps),
        Form::OneBat => of_bat(alloc, op, args, steps),
        Form::Total => of_total(alloc, op, args, steps),
        Form::BatAndCell => of_bat_and_cell(alloc, op, args, steps),
        Form::TwoBats => of_two_bats(alloc, op, args, steps),
        Form::TwoCells => {
            let (x, y) = two_values(args);
            over_two(alloc, op, x, y, steps)
        }
        Form::OneCell => over_one(alloc, op, one_value(args), steps),
    }
}

/// The pairs in a range.
fn of_range<L: Ledger>(alloc: Global, args: &[Obj], steps: &mut Steps<L>) -> Result<Obj, RunError>
    requires fit { Fits op.Select (values_of args.now) }
    ensures value { IfOk result (λ out. operate op.Select (values_of args.now) ≡ Some (value_of out)) }
    ensures overflow { result ≢ Err RunError.Overflow }
    ensures work { OnOk result (steps.new ≡ steps.old + work_of op.Select (values_of args.now)) }
{
    let (b, low, high, li, hi) = range(args);
    let out = select(alloc, b, low, high, li.is_true(), hi.is_true(), steps)?;
    obj_of(alloc, out)
}

/// The value of an operator that makes a BAT of one.
fn of_bat<L: Ledger>(
    alloc: Global,
    op: Op,
    args: &[Obj],
    steps: &mut Steps<L>,
) -> Result<Obj, RunError>
    requires form { form_of op ≡ form.OneBat }
    requires fit { Fits op (values_of args.now) }
    ensures value { IfOk result (λ out. operate op (values_of args.now) ≡ Some (value_of out)) }
    ensures overflow { result ≢ Err RunError.Overflow }
    ensures work { OnOk result (steps.new ≡ steps.old + work_of op (values_of args.now)) }
{
    obj_of(alloc, bat_of_bat(alloc, op, one_bat(args), steps)?)
}

/// The value of an operator that makes a scalar of a BAT.
fn of_total<L: Ledger>(
    alloc: Global,
    op: Op,
    args: &[Obj],
    steps: &mut Steps<L>,
) -> Result<Obj, RunError>
    requires form { form_of op ≡ form.Total }
    requires fit { Fits op (values_of args.now) }
    ensures value { IfOk result (λ out. operate op (values_of args.now) ≡ Some (value_of out)) }
    ensures overflow { result ≢ Err RunError.Overflow }
    ensures work { OnOk result (steps.new ≡ steps.old + work_of op (values_of args.now)) }
{
    let cell = cell_of_bat(alloc, op, one_bat(args), steps)?;
    Ok(Obj::One(cell))
}

/// The value of an operator that makes a BAT of a BAT and a scalar.
fn of_bat_and_cell<L: Ledger>(
    alloc: Global,
    op: Op,
    args: &[Obj],
    steps: &mut Steps<L>,
) -> Result<Obj, RunError>
    requires form { form_of op ≡ form.BatAndCell }
    requires fit { Fits op (values_of args.now) }
    ensures value { IfOk result (λ out. operate op (values_of args.now) ≡ Some (value_of out)) }
    ensures overflow { result ≢ Err RunError.Overflow }
    ensures work { OnOk result (steps.new ≡ steps.old + work_of op (values_of args.now)) }
{
    let (b, cell) = bat_and_cell(args);
    obj_of(alloc, bat_of_bat_and_cell(alloc, op, b, cell, steps)?)
}

/// The value of an operator that makes a BAT of two.
fn of_two_bats<L: Ledger>(
    alloc: Global,
    op: Op,
    args: &[Obj],
    steps: &mut Steps<L>,
) -> Result<Obj, RunError>
    requires form { form_of op ≡ form.TwoBats }
    requires fit { Fits op (values_of args.now) }
    ensures value { IfOk result (λ out. operate op (values_of args.now) ≡ Some (value_of out)) }
    ensures overflow { result ≢ Err RunError.Overflow }
    ensures work { OnOk result (steps.new ≡ steps.old + work_of op (values_of args.now)) }
{
    let (l, r) = two_bats(args);
    obj_of(alloc, bat_of_two(alloc, op, l, r, steps)?)
}

/// The BAT that an operator makes of one BAT.
fn bat_of_bat<L: Ledger>(
    alloc: Global,
    op: Op,
    b: &Bat,
    steps: &mut Steps<L>,
) -> Result<Bat, Memory>
    requires { form_of op ≡ form.OneBat }
    ensures value { IfOk result (λ out. operate op (BatValue b.now ∷ []) ≡ Some (BatValue out)) }
    ensures work { IfOk result (λ out. steps.new ≡ steps.old + (length b.now + length out)) }
{
    match op {
        Op::Reverse => reverse(alloc, b, steps),
        Op::Mirror => mirror(alloc, b, steps),
        Op::GroupNew => group_new(alloc, b, steps),
        Op::GroupHeads => group_heads(alloc, b, steps),
        _ => unreachable!(),
    }
}

/// The scalar that an operator makes of one BAT.
fn cell_of_bat<L: Ledger>(
    alloc: Global,
    op: Op,
    b: &Bat,
    steps: &mut Steps<L>,
) -> Result<Cell, Memory>
    requires { form_of op ≡ form.Total }
    ensures value { IfOk result (λ out. operate op (BatValue b.now ∷ []) ≡ Some (OneValue out)) }
    ensures work { OnOk result (steps.new ≡ steps.old + length b.now) }
{
    match op {
        Op::Count => count(alloc, b, steps),
        Op::Sum => sum(alloc, b, steps),
        Op::Min => min(alloc, b, steps),
        Op::Max => max(alloc, b, steps),
        _ => unreachable!(),
    }
}

/// The BAT that an operator makes of a BAT and a scalar.
fn bat_of_bat_and_cell<L: Ledger>(
    alloc: Global,
    op: Op,
    b: &Bat,
    cell: &Cell,
    steps: &mut Steps<L>,
) -> Result<Bat, Memory>
    requires { form_of op ≡ form.BatAndCell }
    ensures value { IfOk result (λ out. operate op (BatValue b.now ∷ OneValue cell.now ∷ []) ≡ Some (BatValue out)) }
    ensures work { IfOk result (λ out. steps.new ≡ steps.old + (length b.now + length out)) }
{
    match op {
        Op::MarkT => mark_t(alloc, b, cell, steps),
        Op::Project => project(alloc, b, cell, steps),
        _ => unreachable!(),
    }
}

/// The BAT that an operator makes of two BATs.
fn bat_of_two<L: Ledger>(
    alloc: Global,
    op: Op,
    l: &Bat,
    r: &Bat,
    steps: &mut Steps<L>,
) -> Result<Bat, Memory>
    requires { form_of op ≡ form.TwoBats }
    ensures value { IfOk result (λ out. operate op (BatValue l.now ∷ BatValue r.now ∷ []) ≡ Some (BatValue out)) }
    ensures work { IfOk result (λ out. steps.new ≡ steps.old + (length l.now + length r.now + length out)) }
{
    match op {
        Op::Semijoin => semijoin(alloc, l, r, steps),
        Op::Kdifference => kdifference(alloc, l, r, steps),
        Op::Kunion => kunion(alloc, l, r, steps),
        Op::Cross => cross(alloc, l, r, steps),
        Op::Join => join(alloc, l, r, steps),
        Op::GroupDerive => group_derive(alloc, l, r, steps),
        Op::Subcount => subcount(alloc, l, r, steps),
        Op::Subsum => subsum(alloc, l, r, steps),
        Op::Submin => submin(alloc, l, r, steps),
        Op::Submax => submax(alloc, l, r, steps),
        _ => unreachable!(),
    }
}

/// A BAT as a value.
fn obj_of(alloc: Global, bat: Bat) -> Result<Obj, RunError>
    ensures value { IfOk result (λ out. value_of out ≡ BatValue bat) }
    ensures overflow { result ≢ Err RunError.Overflow }
{
    Ok(Obj::Bat(Shared::new(alloc, bat)?))
}
