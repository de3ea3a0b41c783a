//! Functions of bits, over parts that hold bits alone.
ghost use Rattle.std.specs.Prelude.{◌≡◌, ◌++◌, ◌<◌, length, map, slice_index_or, Some, None, OnOk};
ghost use Rattle.std.specs.List.{zip};
ghost use Rattle.cell_core.specs.declared.cell.Cell.TheVariants.{Bit, Nil};
ghost use Rattle.cell_core.specs.Calc.{negation};
ghost use Rattle.cell_core.specs.Pairs.{Pairs};
ghost use Rattle.chunk_core.specs.Parts.{part_cells};
ghost use Rattle.bat_calc.specs.declared.function.Function.{Function as FunctionSeen};
ghost use Rattle.bat_calc.specs.declared.function.Function.TheVariants as function;
ghost use Rattle.bat_calc.specs.Functions.{function_of, applied};

use crate::function::Function;
use crate::general::add_one_by_one;
use bat_core::CellsBuilder;
use cell_core::{Cell, Memory, RunError};
use chunk_core::Part;
use std::alloc::Global;

/// A function that has a form of its own for two bits.
pub(crate) trait OfBits {
    /// Which function it is.
    ghost named: { FunctionSeen };

    /// The function's bit.
    fn of_bits(x: bool, y: bool) -> bool
        ensures { Some (Bit result) ≡ function_of named (Bit x) (Bit y) };
}

/// Whether both are true.
pub(crate) struct Both;

impl OfBits for Both {
    ghost named = { function.And };

    #[inline]
    fn of_bits(x: bool, y: bool) -> bool {
        x & y
    }
}

/// Whether one is true.
pub(crate) struct Either;

impl OfBits for Either {
    ghost named = { function.Or };

    #[inline]
    fn of_bits(x: bool, y: bool) -> bool {
        x | y
    }
}

/// Adds the cells of a function over a run, by its form for bits where both parts hold bits alone.
pub(crate) fn add_bits<F: OfBits>(
    alloc: Global,
    function: Function,
    left: Part<'_>,
    right: Part<'_>,
    cells: &mut CellsBuilder,
) -> Result<(), RunError>
    requires named { F.named ≡ function }
    requires even { length (part_cells right) ≡ length (part_cells left) }
    ensures value { OnOk result ((before : Pairs) → applied function before ≡ Some cells.old → applied function (before ++ zip (part_cells left.entry) (part_cells right.entry)) ≡ Some cells.new) }
    ensures overflow { result ≡ Err RunError.Overflow → applied function (zip (part_cells left.entry) (part_cells right.entry)) ≡ None }
{
    match (left, right) {
        (Part::Bits(x), Part::Bits(y)) => Ok(add_by_bit::<F>(alloc, x, y, cells)?),
        _ => add_one_by_one(alloc, function, left, right, cells),
    }
}

/// Adds the bits of a function over bits.
fn add_by_bit<F: OfBits>(
    alloc: Global,
    left: &[bool],
    right: &[bool],
    cells: &mut CellsBuilder,
) -> Result<(), Memory>
    requires { length right.now ≡ length left.now }
    ensures { OnOk result ((before : Pairs) → applied F.named before ≡ Some cells.old → applied F.named (before ++ zip (map Bit left.now) (map Bit right.now)) ≡ Some cells.new) }
{
    for i in 0..left.len() {
        cells.push(alloc, Cell::Bit(bit_at::<F>(left, right, i)))?;
    }
    Ok(())
}

/// The bit of a function over the bits at a place.
#[inline]
fn bit_at<F: OfBits>(left: &[bool], right: &[bool], at: usize) -> bool
    requires left { at < length left.now }
    requires right { at < length right.now }
    ensures { Some (Bit result) ≡ function_of F.named (slice_index_or (map Bit left.now) at Nil) (slice_index_or (map Bit right.now) at Nil) }
{
    F::of_bits(left[at], right[at])
}

/// Adds the opposites of the cells of a run.
pub(crate) fn add_opposites(
    alloc: Global,
    left: Part<'_>,
    right: Part<'_>,
    cells: &mut CellsBuilder,
) -> Result<(), RunError>
    requires { length (part_cells right) ≡ length (part_cells left) }
    ensures value { OnOk result ((before : Pairs) → applied function.Not before ≡ Some cells.old → applied function.Not (before ++ zip (part_cells left.entry) (part_cells right.entry)) ≡ Some cells.new) }
    ensures overflow { result ≡ Err RunError.Overflow → applied function.Not (zip (part_cells left.entry) (part_cells right.entry)) ≡ None }
{
    match left {
        Part::Bits(bits) => Ok(add_turned(alloc, bits, right, cells)?),
        _ => add_one_by_one(alloc, Function::Not, left, right, cells),
    }
}

/// Adds the opposites of bits, whatever is beside them.
fn add_turned(
    alloc: Global,
    bits: &[bool],
    right: Part<'_>,
    cells: &mut CellsBuilder,
) -> Result<(), Memory>
    requires { length (part_cells right) ≡ length bits.now }
    ensures { OnOk result ((before : Pairs) → applied function.Not before ≡ Some cells.old → applied function.Not (before ++ zip (map Bit bits.now) (part_cells right.entry)) ≡ Some cells.new) }
{
    for i in 0..bits.len() {
        cells.push(alloc, Cell::Bit(turned_at(bits, i)))?;
    }
    Ok(())
}

/// The opposite of the bit at a place.
#[inline]
fn turned_at(bits: &[bool], at: usize) -> bool
    requires { at < length bits.now }
    ensures { Bit result ≡ negation (slice_index_or (map Bit bits.now) at Nil) }
{
    !bits[at]
}
