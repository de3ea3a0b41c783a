//! The thirteen functions. Each goes over two scalars, or over BATs place by place, up to the
//! shortest, with the heads of the first BAT among its arguments.
ghost use Rattle.std.specs.Prelude.{◌≡◌, [], ◌∷◌, ◌+◌, Some, None, IfOk, OnOk, OnErr};
ghost use Rattle.cell_core.specs.declared.form.Form.TheVariants as form;
ghost use Rattle.cell_core.specs.declared.operator.Op.TheVariants as op;
ghost use Rattle.cell_core.specs.Forms.{form_of};
ghost use Rattle.cell_core.specs.Operators.{operate, work_of};
ghost use Rattle.bat_core.specs.Objects.{value_of};

use crate::calculate::calculate;
use crate::function::Function;
use bat_core::Obj;
use cell_core::{Cell, Op, RunError, Steps};
use std::alloc::Global;
use std::sync::ledger::Ledger;

/// The sums of numbers. Of Nil it is Nil. `Overflow` comes exactly where one leaves the
/// signed 64-bit range.
pub fn plus<L: Ledger>(
    alloc: Global,
    x: &Obj,
    y: &Obj,
    steps: &mut Steps<L>,
) -> Result<Obj, RunError>
    ensures value { IfOk result (λ out. operate op.Plus (value_of x.now ∷ value_of y.now ∷ []) ≡ Some (value_of out)) }
    ensures overflow { result ≡ Err RunError.Overflow → operate op.Plus (value_of x.now ∷ value_of y.now ∷ []) ≡ None }
    ensures work { OnOk result (steps.new ≡ steps.old + work_of op.Plus (value_of x.now ∷ value_of y.now ∷ [])) }
    ensures unchanged { OnErr result (steps.new ≡ steps.old) }
{
    calculate(alloc, Function::Plus, x, y, steps)
}

/// The differences of numbers. Of Nil it is Nil. `Overflow` comes exactly where one leaves the
/// signed 64-bit range.
pub fn minus<L: Ledger>(
    alloc: Global,
    x: &Obj,
    y: &Obj,
    steps: &mut Steps<L>,
) -> Result<Obj, RunError>
    ensures value { IfOk result (λ out. operate op.Minus (value_of x.now ∷ value_of y.now ∷ []) ≡ Some (value_of out)) }
    ensures overflow { result ≡ Err RunError.Overflow → operate op.Minus (value_of x.now ∷ value_of y.now ∷ []) ≡ None }
    ensures work { OnOk result (steps.new ≡ steps.old + work_of op.Minus (value_of x.now ∷ value_of y.now ∷ [])) }
    ensures unchanged { OnErr result (steps.new ≡ steps.old) }
{
    calculate(alloc, Function::Minus, x, y, steps)
}

/// The products of numbers. Of Nil it is Nil. `Overflow` comes exactly where one leaves the
/// signed 64-bit range.
pub fn times<L: Ledger>(
    alloc: Global,
    x: &Obj,
    y: &Obj,
    steps: &mut Steps<L>,
) -> Result<Obj, RunError>
    ensures value { IfOk result (λ out. operate op.Times (value_of x.now ∷ value_of y.now ∷ []) ≡ Some (value_of out)) }
    ensures overflow { result ≡ Err RunError.Overflow → operate op.Times (value_of x.now ∷ value_of y.now ∷ []) ≡ None }
    ensures work { OnOk result (steps.new ≡ steps.old + work_of op.Times (value_of x.now ∷ value_of y.now ∷ [])) }
    ensures unchanged { OnErr result (steps.new ≡ steps.old) }
{
    calculate(alloc, Function::Times, x, y, steps)
}

/// Whether cells are equal in the order of cells. Of Nil it is Nil.
pub fn eq<L: Ledger>(alloc: Global, x: &Obj, y: &Obj, steps: &mut Steps<L>) -> Result<Obj, RunError>
    ensures value { IfOk result (λ out. operate op.Eq (value_of x.now ∷ value_of y.now ∷ []) ≡ Some (value_of out)) }
    ensures overflow { result ≡ Err RunError.Overflow → operate op.Eq (value_of x.now ∷ value_of y.now ∷ []) ≡ None }
    ensures work { OnOk result (steps.new ≡ steps.old + work_of op.Eq (value_of x.now ∷ value_of y.now ∷ [])) }
    ensures unchanged { OnErr result (steps.new ≡ steps.old) }
{
    calculate(alloc, Function::Eq, x, y, steps)
}

/// Whether cells differ in the order of cells. Of Nil it is Nil.
pub fn ne<L: Ledger>(alloc: Global, x: &Obj, y: &Obj, steps: &mut Steps<L>) -> Result<Obj, RunError>
    ensures value { IfOk result (λ out. operate op.Ne (value_of x.now ∷ value_of y.now ∷ []) ≡ Some (value_of out)) }
    ensures overflow { result ≡ Err RunError.Overflow → operate op.Ne (value_of x.now ∷ value_of y.now ∷ []) ≡ None }
    ensures work { OnOk result (steps.new ≡ steps.old + work_of op.Ne (value_of x.now ∷ value_of y.now ∷ [])) }
    ensures unchanged { OnErr result (steps.new ≡ steps.old) }
{
    calculate(alloc, Function::Ne, x, y, steps)
}

/// Whether cells of x are below those of y. Of Nil it is Nil.
pub fn lt<L: Ledger>(alloc: Global, x: &Obj, y: &Obj, steps: &mut Steps<L>) -> Result<Obj, RunError>
    ensures value { IfOk result (λ out. operate op.Lt (value_of x.now ∷ value_of y.now ∷ []) ≡ Some (value_of out)) }
    ensures overflow { result ≡ Err RunError.Overflow → operate op.Lt (value_of x.now ∷ value_of y.now ∷ []) ≡ None }
    ensures work { OnOk result (steps.new ≡ steps.old + work_of op.Lt (value_of x.now ∷ value_of y.now ∷ [])) }
    ensures unchanged { OnErr result (steps.new ≡ steps.old) }
{
    calculate(alloc, Function::Lt, x, y, steps)
}

/// Whether cells of x are at most those of y. Of Nil it is Nil.
pub fn le<L: Ledger>(alloc: Global, x: &Obj, y: &Obj, steps: &mut Steps<L>) -> Result<Obj, RunError>
    ensures value { IfOk result (λ out. operate op.Le (value_of x.now ∷ value_of y.now ∷ []) ≡ Some (value_of out)) }
    ensures overflow { result ≡ Err RunError.Overflow → operate op.Le (value_of x.now ∷ value_of y.now ∷ []) ≡ None }
    ensures work { OnOk result (steps.new ≡ steps.old + work_of op.Le (value_of x.now ∷ value_of y.now ∷ [])) }
    ensures unchanged { OnErr result (steps.new ≡ steps.old) }
{
    calculate(alloc, Function::Le, x, y, steps)
}

/// Whether cells of x are above those of y. Of Nil it is Nil.
pub fn gt<L: Ledger>(alloc: Global, x: &Obj, y: &Obj, steps: &mut Steps<L>) -> Result<Obj, RunError>
    ensures value { IfOk result (λ out. operate op.Gt (value_of x.now ∷ value_of y.now ∷ []) ≡ Some (value_of out)) }
    ensures overflow { result ≡ Err RunError.Overflow → operate op.Gt (value_of x.now ∷ value_of y.now ∷ []) ≡ None }
    ensures work { OnOk result (steps.new ≡ steps.old + work_of op.Gt (value_of x.now ∷ value_of y.now ∷ [])) }
    ensures unchanged { OnErr result (steps.new ≡ steps.old) }
{
    calculate(alloc, Function::Gt, x, y, steps)
}

/// Whether cells of x are at least those of y. Of Nil it is Nil.
pub fn ge<L: Ledger>(alloc: Global, x: &Obj, y: &Obj, steps: &mut Steps<L>) -> Result<Obj, RunError>
    ensures value { IfOk result (λ out. operate op.Ge (value_of x.now ∷ value_of y.now ∷ []) ≡ Some (value_of out)) }
    ensures overflow { result ≡ Err RunError.Overflow → operate op.Ge (value_of x.now ∷ value_of y.now ∷ []) ≡ None }
    ensures work { OnOk result (steps.new ≡ steps.old + work_of op.Ge (value_of x.now ∷ value_of y.now ∷ [])) }
    ensures unchanged { OnErr result (steps.new ≡ steps.old) }
{
    calculate(alloc, Function::Ge, x, y, steps)
}

/// Whether both bits are true, where Nil is unknown.
pub fn bit_and<L: Ledger>(
    alloc: Global,
    x: &Obj,
    y: &Obj,
    steps: &mut Steps<L>,
) -> Result<Obj, RunError>
    ensures value { IfOk result (λ out. operate op.And (value_of x.now ∷ value_of y.now ∷ []) ≡ Some (value_of out)) }
    ensures overflow { result ≡ Err RunError.Overflow → operate op.And (value_of x.now ∷ value_of y.now ∷ []) ≡ None }
    ensures work { OnOk result (steps.new ≡ steps.old + work_of op.And (value_of x.now ∷ value_of y.now ∷ [])) }
    ensures unchanged { OnErr result (steps.new ≡ steps.old) }
{
    calculate(alloc, Function::And, x, y, steps)
}

/// Whether one of the bits is true, where Nil is unknown.
pub fn bit_or<L: Ledger>(
    alloc: Global,
    x: &Obj,
    y: &Obj,
    steps: &mut Steps<L>,
) -> Result<Obj, RunError>
    ensures value { IfOk result (λ out. operate op.Or (value_of x.now ∷ value_of y.now ∷ []) ≡ Some (value_of out)) }
    ensures overflow { result ≡ Err RunError.Overflow → operate op.Or (value_of x.now ∷ value_of y.now ∷ []) ≡ None }
    ensures work { OnOk result (steps.new ≡ steps.old + work_of op.Or (value_of x.now ∷ value_of y.now ∷ [])) }
    ensures unchanged { OnErr result (steps.new ≡ steps.old) }
{
    calculate(alloc, Function::Or, x, y, steps)
}

/// The opposite bits, where Nil is unknown.
pub fn bit_not<L: Ledger>(alloc: Global, x: &Obj, steps: &mut Steps<L>) -> Result<Obj, RunError>
    ensures value { IfOk result (λ out. operate op.Not (value_of x.now ∷ []) ≡ Some (value_of out)) }
    ensures overflow { result ≡ Err RunError.Overflow → operate op.Not (value_of x.now ∷ []) ≡ None }
    ensures work { OnOk result (steps.new ≡ steps.old + work_of op.Not (value_of x.now ∷ [])) }
    ensures unchanged { OnErr result (steps.new ≡ steps.old) }
{
    let nil = Obj::One(Cell::Nil);
    calculate(alloc, Function::Not, x, &nil, steps)
}

/// Whether cells are Nil, true or false.
pub fn is_nil<L: Ledger>(alloc: Global, x: &Obj, steps: &mut Steps<L>) -> Result<Obj, RunError>
    ensures value { IfOk result (λ out. operate op.IsNil (value_of x.now ∷ []) ≡ Some (value_of out)) }
    ensures overflow { result ≡ Err RunError.Overflow → operate op.IsNil (value_of x.now ∷ []) ≡ None }
    ensures work { OnOk result (steps.new ≡ steps.old + work_of op.IsNil (value_of x.now ∷ [])) }
    ensures unchanged { OnErr result (steps.new ≡ steps.old) }
{
    let nil = Obj::One(Cell::Nil);
    calculate(alloc, Function::IsNil, x, &nil, steps)
}

/// A function of two cells over two values. The counter rises by its work, and stays on an error.
pub fn over_two<L: Ledger>(
    alloc: Global,
    op: Op,
    x: &Obj,
    y: &Obj,
    steps: &mut Steps<L>,
) -> Result<Obj, RunError>
    requires form { form_of op ≡ form.TwoCells }
    ensures value { IfOk result (λ out. operate op (value_of x.now ∷ value_of y.now ∷ []) ≡ Some (value_of out)) }
    ensures overflow { result ≡ Err RunError.Overflow → operate op (value_of x.now ∷ value_of y.now ∷ []) ≡ None }
    ensures work { OnOk result (steps.new ≡ steps.old + work_of op (value_of x.now ∷ value_of y.now ∷ [])) }
    ensures unchanged { OnErr result (steps.new ≡ steps.old) }
{
    match op {
        Op::Plus => plus(alloc, x, y, steps),
        Op::Minus => minus(alloc, x, y, steps),
        Op::Times => times(alloc, x, y, steps),
        Op::Eq => eq(alloc, x, y, steps),
        Op::Ne => ne(alloc, x, y, steps),
        Op::Lt => lt(alloc, x, y, steps),
        Op::Le => le(alloc, x, y, steps),
        Op::Gt => gt(alloc, x, y, steps),
        Op::Ge => ge(alloc, x, y, steps),
        Op::And => bit_and(alloc, x, y, steps),
        Op::Or => bit_or(alloc, x, y, steps),
        _ => unreachable!(),
    }
}

/// A function of one cell over a value. The counter rises by its work, and stays on an error.
pub fn over_one<L: Ledger>(
    alloc: Global,
    op: Op,
    x: &Obj,
    steps: &mut Steps<L>,
) -> Result<Obj, RunError>
    requires form { form_of op ≡ form.OneCell }
    ensures value { IfOk result (λ out. operate op (value_of x.now ∷ []) ≡ Some (value_of out)) }
    ensures overflow { result ≡ Err RunError.Overflow → operate op (value_of x.now ∷ []) ≡ None }
    ensures work { OnOk result (steps.new ≡ steps.old + work_of op (value_of x.now ∷ [])) }
    ensures unchanged { OnErr result (steps.new ≡ steps.old) }
{
    match op {
        Op::Not => bit_not(alloc, x, steps),
        Op::IsNil => is_nil(alloc, x, steps),
        _ => unreachable!(),
    }
}
