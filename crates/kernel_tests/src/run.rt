//! Runs of the kernel on arguments whose shapes are checked.
ghost use Rattle.std.specs.Prelude.{◌≡◌, [], ◌∷◌, ◌<◌, Some, None, IfOk, IfSome, Err};
ghost use Rattle.cell_core.specs.declared.memory.RunError.TheVariants as RunError;
ghost use Rattle.cell_core.specs.declared.operator.Op.TheVariants as op;
ghost use Rattle.cell_core.specs.Operators.{operate};
ghost use Rattle.cell_core.specs.Kinds.{Fits};
ghost use Rattle.bat_core.specs.Objects.{value_of, values_of};

use crate::shape::{ArgShape, fits_one, fits_two, has_shape};
use bat_core::{Obj, Operate};
use bat_kernel::Kernel;
use cell_core::{Op, RunError, Steps};
use std::alloc::Global;
use std::marker::Brand;
use std::sync::ledger::{Blank, Ledger};

/// The value of an operator on an argument of a shape; `None` where it isn't of the shape, or where
/// such an argument isn't known to fit the operator.
pub fn run_one(alloc: Global, op: Op, x: Obj, shape: ArgShape) -> Result<Option<Obj>, RunError>
    ensures value { IfOk result (λ found. IfSome found (λ out. operate op (value_of x ∷ []) ≡ Some (value_of out))) }
    ensures overflow { result ≡ Err RunError.Overflow → operate op (value_of x ∷ []) ≡ None }
{
    if !has_shape(&x, shape) || !fits_one(op, shape) {
        return Ok(None);
    }
    let args = [x];
    let out = run(alloc, op, &args)?;
    Ok(Some(out))
}

/// The same on two arguments.
pub fn run_two(
    alloc: Global,
    op: Op,
    x: Obj,
    y: Obj,
    shapes: (ArgShape, ArgShape),
) -> Result<Option<Obj>, RunError>
    ensures value { IfOk result (λ found. IfSome found (λ out. operate op (value_of x ∷ value_of y ∷ []) ≡ Some (value_of out))) }
    ensures overflow { result ≡ Err RunError.Overflow → operate op (value_of x ∷ value_of y ∷ []) ≡ None }
{
    let (first, second) = shapes;
    if !has_shape(&x, first) || !has_shape(&y, second) || !fits_two(op, first, second) {
        return Ok(None);
    }
    let args = [x, y];
    let out = run(alloc, op, &args)?;
    Ok(Some(out))
}

/// The pairs of a BAT of numbers in a range; `None` where the arguments aren't of their shapes.
pub fn run_select(
    alloc: Global,
    b: Obj,
    bounds: (Obj, Obj),
    included: (Obj, Obj),
) -> Result<Option<Obj>, RunError>
    ensures { IfOk result (λ found. IfSome found (λ out. operate op.Select (value_of b ∷ value_of bounds.0 ∷ value_of bounds.1 ∷ value_of included.0 ∷ value_of included.1 ∷ []) ≡ Some (value_of out))) }
{
    let (low, high) = bounds;
    let (li, hi) = included;
    if !has_shape(&b, ArgShape::Ints)
        || !has_shape(&low, ArgShape::Int)
        || !has_shape(&high, ArgShape::Int)
    {
        return Ok(None);
    }
    if !has_shape(&li, ArgShape::Bit) || !has_shape(&hi, ArgShape::Bit) {
        return Ok(None);
    }
    let args = [b, low, high, li, hi];
    let out = run(alloc, Op::Select, &args)?;
    Ok(Some(out))
}

/// The value of an operator by the kernel.
fn run(alloc: Global, op: Op, args: &[Obj]) -> Result<Obj, RunError>
    requires { Fits op (values_of args.now) }
    ensures value { IfOk result (λ out. operate op (values_of args.now) ≡ Some (value_of out)) }
    ensures overflow { result ≡ Err RunError.Overflow → operate op (values_of args.now) ≡ None }
{
    counted::<Brand>(alloc, op, args, Blank::new(1))
}

/// The value of an operator by the kernel, with a counter of its own.
fn counted<L: Ledger>(alloc: Global, op: Op, args: &[Obj], blank: Blank) -> Result<Obj, RunError>
    requires name { blank.name ≡ L.name }
    requires parts { blank.parts ≡ L.parts }
    requires some { 0 < blank.parts }
    requires fit { Fits op (values_of args.now) }
    ensures value { IfOk result (λ out. operate op (values_of args.now) ≡ Some (value_of out)) }
    ensures overflow { result ≡ Err RunError.Overflow → operate op (values_of args.now) ≡ None }
{
    let mut steps = Steps::<L>::new(blank);
    Kernel::new().run(alloc, op, args, &mut steps)
}
