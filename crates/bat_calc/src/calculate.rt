//! A function over scalars, and over BATs place by place.
ghost use Rattle.std.specs.Prelude.{◌≡◌, [], ◌∷◌, ◌+◌, ◌++◌, ◌<◌, ◌≤◌, ◌^◌, length, map, slice_index_or, Some, None, IfOk, OnOk, OnErr};
ghost use Rattle.std.specs.List.{zip};
ghost use Rattle.cell_core.specs.declared.operator.Value.TheVariants.{Bat as BatValue};
ghost use Rattle.cell_core.specs.Pairs.{Pairs, heads_of, pair_count, rows_of, shortest, bats_in};
ghost use Rattle.cell_core.specs.Calc.{calculated, over_two, all_or_none, first_heads};
ghost use Rattle.cell_core.specs.declared.cell.Cell.TheVariants.{Nil};
ghost use Rattle.chunk_core.specs.Parts.{part_cells};
ghost use Rattle.bat_core.specs.Objects.{value_of};
ghost use Rattle.bat_calc.specs.Functions.{function_of, Reaches, column, applied};

use crate::bits::{Both, Either, add_bits, add_opposites};
use crate::function::{Function, apply};
use crate::general::add_one_by_one;
use crate::numbers::{
    Above, AtLeast, AtMost, Below, Difference, Equal, Product, Sum, Unequal, add_numbers,
};
use bat_core::{Bat, Cells, CellsBuilder, Obj, Shared};
use cell_core::{Cell, Memory, RunError, Steps};
use chunk_core::Part;
use std::alloc::Global;
use std::sync::ledger::Ledger;

/// A function over two values. The counter stays as it was if there is no value.
pub(crate) fn calculate<L: Ledger>(
    alloc: Global,
    function: Function,
    x: &Obj,
    y: &Obj,
    steps: &mut Steps<L>,
) -> Result<Obj, RunError>
    ensures value { IfOk result (λ out. calculated (over_two (function_of function)) (value_of x.now ∷ value_of y.now ∷ []) ≡ Some (value_of out)) }
    ensures overflow { result ≡ Err RunError.Overflow → calculated (over_two (function_of function)) (value_of x.now ∷ value_of y.now ∷ []) ≡ None }
    ensures work { IfOk result (λ out. steps.new ≡ steps.old + (pair_count (value_of x.now) + pair_count (value_of y.now) + pair_count (value_of out))) }
    ensures unchanged { OnErr result (steps.new ≡ steps.old) }
{
    let out = value_over(alloc, function, x, y)?;
    steps.add(x.pair_count() + y.pair_count() + out.pair_count());
    Ok(out)
}

/// The value of a function over two values.
fn value_over(alloc: Global, function: Function, x: &Obj, y: &Obj) -> Result<Obj, RunError>
    ensures value { IfOk result (λ out. calculated (over_two (function_of function)) (value_of x.now ∷ value_of y.now ∷ []) ≡ Some (value_of out)) }
    ensures overflow { result ≡ Err RunError.Overflow → calculated (over_two (function_of function)) (value_of x.now ∷ value_of y.now ∷ []) ≡ None }
{
    match (x, y) {
        (Obj::One(a), Obj::One(b)) => match apply(function, a, b) {
            Some(cell) => Ok(Obj::One(cell)),
            None => Err(RunError::Overflow),
        },
        (Obj::Bat(b), Obj::One(_)) => bat_over(alloc, function, x, y, b.bat(), b.bat().len()),
        (Obj::One(_), Obj::Bat(b)) => bat_over(alloc, function, x, y, b.bat(), b.bat().len()),
        (Obj::Bat(l), Obj::Bat(r)) => {
            let count = l.bat().len().min(r.bat().len());
            bat_over(alloc, function, x, y, l.bat(), count)
        }
    }
}

/// The value of a function over two values of which one is a BAT, with the heads of the first BAT.
fn bat_over(
    alloc: Global,
    function: Function,
    x: &Obj,
    y: &Obj,
    first: &Bat,
    count: u64,
) -> Result<Obj, RunError>
    requires shortest { shortest (value_of x.now ∷ value_of y.now ∷ []) ≡ Some count }
    requires first { first_heads (bats_in (value_of x.now ∷ value_of y.now ∷ [])) ≡ heads_of first.now }
    requires within { count ≤ length first.now }
    requires left { Reaches count (value_of x.now) }
    requires right { Reaches count (value_of y.now) }
    ensures value { IfOk result (λ out. calculated (over_two (function_of function)) (value_of x.now ∷ value_of y.now ∷ []) ≡ Some (value_of out)) }
    ensures overflow { result ≡ Err RunError.Overflow → calculated (over_two (function_of function)) (value_of x.now ∷ value_of y.now ∷ []) ≡ None }
{
    let tails = cells_over(alloc, function, x, y, count)?;
    let bat = with_first_heads(alloc, first, tails)?;
    Ok(Obj::Bat(Shared::new(alloc, bat)?))
}

/// The cells of a function over the first rows.
fn cells_over(
    alloc: Global,
    function: Function,
    x: &Obj,
    y: &Obj,
    count: u64,
) -> Result<Cells, RunError>
    requires left { Reaches count (value_of x.now) }
    requires right { Reaches count (value_of y.now) }
    ensures value { IfOk result (λ cells. all_or_none (map (over_two (function_of function)) (rows_of (value_of x.now ∷ value_of y.now ∷ []) count)) ≡ Some cells) }
    ensures len { IfOk result (λ cells. length cells ≡ count) }
    ensures overflow { result ≡ Err RunError.Overflow → all_or_none (map (over_two (function_of function)) (rows_of (value_of x.now ∷ value_of y.now ∷ []) count)) ≡ None }
{
    let left = column_of(alloc, x, count)?;
    let right = column_of(alloc, y, count)?;
    let rows = Bat::from_columns(left, right);
    cells_of(alloc, function, &rows)
}

/// The first cells of a value: its tails, or the scalar repeated.
fn column_of(alloc: Global, obj: &Obj, count: u64) -> Result<Cells, Memory>
    requires { Reaches count (value_of obj.now) }
    ensures { IfOk result (λ cells. cells ≡ column count (value_of obj.now)) }
{
    match obj {
        Obj::Bat(b) => b.bat().tails().front(alloc, count),
        Obj::One(cell) => Cells::repeated(alloc, cell, count),
    }
}

/// The cells of a function over pairs of cells, run by run.
fn cells_of(alloc: Global, function: Function, rows: &Bat) -> Result<Cells, RunError>
    ensures value { IfOk result (λ cells. applied function rows.now ≡ Some cells) }
    ensures len { IfOk result (λ cells. length cells ≡ length rows.now) }
    ensures overflow { result ≡ Err RunError.Overflow → applied function rows.now ≡ None }
{
    let mut cells = CellsBuilder::new(alloc);
    let mut from = 0;
    while from < rows.len() {
        let (left, right) = rows.run(from);
        add_cells(alloc, function, left, right, &mut cells)?;
        from += left.len() as u64;
    }
    Ok(cells.finish(alloc)?)
}

/// Adds the cells of a function over a run. Most have forms of their own for numbers or for bits.
fn add_cells(
    alloc: Global,
    function: Function,
    left: Part<'_>,
    right: Part<'_>,
    cells: &mut CellsBuilder,
) -> Result<(), RunError>
    requires { length (part_cells right) ≡ length (part_cells left) }
    ensures value { OnOk result ((before : Pairs) → applied function before ≡ Some cells.old → applied function (before ++ zip (part_cells left.entry) (part_cells right.entry)) ≡ Some cells.new) }
    ensures overflow { result ≡ Err RunError.Overflow → applied function (zip (part_cells left.entry) (part_cells right.entry)) ≡ None }
{
    match function {
        Function::Plus => add_numbers::<Sum>(alloc, function, left, right, cells),
        Function::Minus => add_numbers::<Difference>(alloc, function, left, right, cells),
        Function::Times => add_numbers::<Product>(alloc, function, left, right, cells),
        Function::Eq => add_numbers::<Equal>(alloc, function, left, right, cells),
        Function::Ne => add_numbers::<Unequal>(alloc, function, left, right, cells),
        Function::Lt => add_numbers::<Below>(alloc, function, left, right, cells),
        Function::Le => add_numbers::<AtMost>(alloc, function, left, right, cells),
        Function::Gt => add_numbers::<Above>(alloc, function, left, right, cells),
        Function::Ge => add_numbers::<AtLeast>(alloc, function, left, right, cells),
        Function::And => add_bits::<Both>(alloc, function, left, right, cells),
        Function::Or => add_bits::<Either>(alloc, function, left, right, cells),
        Function::Not => add_opposites(alloc, left, right, cells),
        Function::IsNil => add_one_by_one(alloc, function, left, right, cells),
    }
}

/// Tails beside the first heads of a BAT, which are shared where these are all.
fn with_first_heads(alloc: Global, first: &Bat, tails: Cells) -> Result<Bat, Memory>
    requires { length tails ≤ length first.now }
    ensures { IfOk result (λ out. out ≡ zip (heads_of first.now) tails) }
{
    let heads = first.heads().front(alloc, tails.len())?;
    Ok(Bat::from_columns(heads, tails))
}
