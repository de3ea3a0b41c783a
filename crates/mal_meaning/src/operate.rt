//! The operators by name, over plain values.
ghost use Rattle.std.specs.Prelude.{◌≡◌, ◌∷◌, [], Some, IfOk, IsTrue};
ghost use Rattle.cell_core.specs.declared.form.Form.TheVariants as form;
ghost use Rattle.cell_core.specs.Forms.{form_of, is_calc};
ghost use Rattle.cell_core.specs.declared.operator.Value.TheVariants as value;
ghost use Rattle.cell_core.specs.Operators.{operate};
ghost use Rattle.cell_core.specs.declared.operator.Op.TheVariants as operator;
ghost use Rattle.cell_core.specs.Pairs.{tails_of};
ghost use Rattle.cell_calc.specs.Aggregates.{aggregate_of};

use crate::calc::calculate;
use crate::columns::tails;
use crate::groups::{group_derive, group_heads, group_new, subaggregate};
use crate::relations::{
    cross, join, kdifference, kunion, mark_t, mirror, project, reverse, select, semijoin,
};
use cell_calc::{Aggregate, aggregate_cells};
use cell_core::{Cell, Form, Memory, Op, Sequence, Value};
use std::alloc::Global;

/// An operator that makes a BAT of one.
fn run_on_bat(alloc: Global, op: Op, b: &[(Cell, Cell)]) -> Result<Sequence<(Cell, Cell)>, Memory>
    requires { form_of op ≡ form.OneBat }
    ensures { IfOk result (λ out. Some (value.Bat out) ≡ operate op (value.Bat b.now ∷ [])) }
{
    match op {
        Op::Reverse => reverse(alloc, b),
        Op::Mirror => mirror(alloc, b),
        Op::GroupNew => group_new(alloc, b),
        Op::GroupHeads => group_heads(alloc, b),
        _ => unreachable!(),
    }
}

/// An operator that makes a scalar of a BAT.
fn run_total(alloc: Global, op: Op, b: &[(Cell, Cell)]) -> Result<Cell, Memory>
    requires { form_of op ≡ form.Total }
    ensures { IfOk result (λ out. Some (value.One out) ≡ operate op (value.Bat b.now ∷ [])) }
{
    match op {
        Op::Count => fold_tails(alloc, Aggregate::Count, b),
        Op::Sum => fold_tails(alloc, Aggregate::Sum, b),
        Op::Min => fold_tails(alloc, Aggregate::Min, b),
        Op::Max => fold_tails(alloc, Aggregate::Max, b),
        _ => unreachable!(),
    }
}

/// An aggregate over the tails of a BAT.
fn fold_tails(alloc: Global, which: Aggregate, b: &[(Cell, Cell)]) -> Result<Cell, Memory>
    ensures { IfOk result (λ out. out ≡ aggregate_of which (tails_of b.now)) }
{
    let cells = tails(alloc, b)?;
    aggregate_cells(which, cells.as_slice())
}

/// An operator of two BATs.
fn run_on_bats(
    alloc: Global,
    op: Op,
    l: &[(Cell, Cell)],
    r: &[(Cell, Cell)],
) -> Result<Sequence<(Cell, Cell)>, Memory>
    requires { form_of op ≡ form.TwoBats }
    ensures { IfOk result (λ out. Some (value.Bat out) ≡ operate op (value.Bat l.now ∷ value.Bat r.now ∷ [])) }
{
    match op {
        Op::Semijoin => semijoin(alloc, l, r),
        Op::Kdifference => kdifference(alloc, l, r),
        Op::Kunion => kunion(alloc, l, r),
        Op::Cross => cross(alloc, l, r),
        Op::Join => join(alloc, l, r),
        Op::GroupDerive => group_derive(alloc, l, r),
        Op::Subcount => subaggregate(alloc, Aggregate::Count, l, r),
        Op::Subsum => subaggregate(alloc, Aggregate::Sum, l, r),
        Op::Submin => subaggregate(alloc, Aggregate::Min, l, r),
        Op::Submax => subaggregate(alloc, Aggregate::Max, l, r),
        _ => unreachable!(),
    }
}

/// An operator of a BAT and a cell.
fn run_on_cell(
    alloc: Global,
    op: Op,
    b: &[(Cell, Cell)],
    cell: &Cell,
) -> Result<Sequence<(Cell, Cell)>, Memory>
    requires { form_of op ≡ form.BatAndCell }
    ensures { IfOk result (λ out. Some (value.Bat out) ≡ operate op (value.Bat b.now ∷ value.One cell.now ∷ [])) }
{
    match op {
        Op::MarkT => mark_t(alloc, b, cell),
        Op::Project => project(alloc, b, cell),
        _ => unreachable!(),
    }
}

/// The pairs in a range.
fn run_select(alloc: Global, args: &[Value]) -> Result<Option<Value>, Memory>
    ensures { IfOk result (λ out. out ≡ operate operator.Select args.now) }
{
    let [
        Value::Bat(b),
        Value::One(low),
        Value::One(high),
        Value::One(li),
        Value::One(hi),
    ] = args
    else {
        return Ok(None);
    };
    let pairs = select(alloc, b.as_slice(), low, high, li.is_true(), hi.is_true())?;
    Ok(Some(Value::Bat(pairs)))
}

/// A function of cells, over scalars or by position.
fn run_function(alloc: Global, op: Op, args: &[Value]) -> Result<Option<Value>, Memory>
    requires { IsTrue (is_calc op) }
    ensures { IfOk result (λ out. out ≡ operate op args.now) }
{
    calculate(alloc, op, args)
}

/// An operator that makes a BAT of one, over arguments that may be others.
fn on_bat(alloc: Global, op: Op, args: &[Value]) -> Result<Option<Value>, Memory>
    requires { form_of op ≡ form.OneBat }
    ensures { IfOk result (λ out. out ≡ operate op args.now) }
{
    let [Value::Bat(b)] = args else {
        return Ok(None);
    };
    let pairs = run_on_bat(alloc, op, b.as_slice())?;
    Ok(Some(Value::Bat(pairs)))
}

/// An operator that makes a scalar of a BAT, over arguments that may be others.
fn on_total(alloc: Global, op: Op, args: &[Value]) -> Result<Option<Value>, Memory>
    requires { form_of op ≡ form.Total }
    ensures { IfOk result (λ out. out ≡ operate op args.now) }
{
    let [Value::Bat(b)] = args else {
        return Ok(None);
    };
    let cell = run_total(alloc, op, b.as_slice())?;
    Ok(Some(Value::One(cell)))
}

/// An operator of two BATs, over arguments that may be others.
fn on_bats(alloc: Global, op: Op, args: &[Value]) -> Result<Option<Value>, Memory>
    requires { form_of op ≡ form.TwoBats }
    ensures { IfOk result (λ out. out ≡ operate op args.now) }
{
    let [Value::Bat(l), Value::Bat(r)] = args else {
        return Ok(None);
    };
    let pairs = run_on_bats(alloc, op, l.as_slice(), r.as_slice())?;
    Ok(Some(Value::Bat(pairs)))
}

/// An operator of a BAT and a cell, over arguments that may be others.
fn on_cell(alloc: Global, op: Op, args: &[Value]) -> Result<Option<Value>, Memory>
    requires { form_of op ≡ form.BatAndCell }
    ensures { IfOk result (λ out. out ≡ operate op args.now) }
{
    let [Value::Bat(b), Value::One(cell)] = args else {
        return Ok(None);
    };
    let pairs = run_on_cell(alloc, op, b.as_slice(), cell)?;
    Ok(Some(Value::Bat(pairs)))
}

/// The value of an operator other than bind, or nothing where it overflows or its arguments don't
/// fit.
pub(crate) fn run(alloc: Global, op: Op, args: &[Value]) -> Result<Option<Value>, Memory>
    ensures { IfOk result (λ out. out ≡ operate op args.now) }
{
    match op.form() {
        Form::Bind => Ok(None),
        Form::Range => run_select(alloc, args),
        Form::OneBat => on_bat(alloc, op, args),
        Form::Total => on_total(alloc, op, args),
        Form::BatAndCell => on_cell(alloc, op, args),
        Form::TwoBats => on_bats(alloc, op, args),
        Form::TwoCells | Form::OneCell => run_function(alloc, op, args),
    }
}
