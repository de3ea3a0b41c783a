//! Functions of two numbers, over parts that hold numbers alone, and of two cells that lie in
//! parts, each by a loop of its own.
ghost use Rattle.std.specs.Prelude.{◌≡◌, ◌++◌, ◌<◌, length, map, slice_index_or, Some, None, OnOk};
ghost use Rattle.std.specs.List.{zip};
ghost use Rattle.cell_core.specs.declared.cell.Cell.TheVariants.{Int, Nil};
ghost use Rattle.cell_core.specs.Pairs.{Pairs};
ghost use Rattle.chunk_core.specs.Parts.{part_cells};
ghost use Rattle.bat_calc.specs.declared.function.Function.{Function as FunctionSeen};
ghost use Rattle.bat_calc.specs.declared.function.Function.TheVariants as function;
ghost use Rattle.bat_calc.specs.Functions.{function_of, applied};

use crate::function::Function;
use crate::general::add_one_by_one;
use bat_core::CellsBuilder;
use cell_calc::{
    difference, is_above, is_at_least, is_at_most, is_below, is_equal, is_unequal, product, sum,
};
use cell_core::{Cell, RunError};
use chunk_core::Part;
use std::alloc::Global;

/// A function that has a form of its own for two numbers.
pub(crate) trait OfNumbers {
    /// Which function it is.
    ghost named: { FunctionSeen };

    /// The function's cell; None is an overflow.
    fn of_numbers(x: i64, y: i64) -> Option<Cell>
        ensures { result ≡ function_of named (Int x) (Int y) };

    /// The function's cell of two cells of any kind; None is an overflow.
    fn of_cells(x: &Cell, y: &Cell) -> Option<Cell>
        ensures { result ≡ function_of named x.now y.now };
}

/// The sum.
pub(crate) struct Sum;

impl OfNumbers for Sum {
    ghost named = { function.Plus };

    #[inline]
    fn of_numbers(x: i64, y: i64) -> Option<Cell> {
        match x.checked_add(y) {
            Some(sum) => Some(Cell::Int(sum)),
            None => None,
        }
    }

    #[inline]
    fn of_cells(x: &Cell, y: &Cell) -> Option<Cell> {
        sum(x, y)
    }
}

/// The difference.
pub(crate) struct Difference;

impl OfNumbers for Difference {
    ghost named = { function.Minus };

    #[inline]
    fn of_numbers(x: i64, y: i64) -> Option<Cell> {
        match x.checked_sub(y) {
            Some(difference) => Some(Cell::Int(difference)),
            None => None,
        }
    }

    #[inline]
    fn of_cells(x: &Cell, y: &Cell) -> Option<Cell> {
        difference(x, y)
    }
}

/// The product.
pub(crate) struct Product;

impl OfNumbers for Product {
    ghost named = { function.Times };

    #[inline]
    fn of_numbers(x: i64, y: i64) -> Option<Cell> {
        match x.checked_mul(y) {
            Some(product) => Some(Cell::Int(product)),
            None => None,
        }
    }

    #[inline]
    fn of_cells(x: &Cell, y: &Cell) -> Option<Cell> {
        product(x, y)
    }
}

/// Whether both are equal.
pub(crate) struct Equal;

impl OfNumbers for Equal {
    ghost named = { function.Eq };

    #[inline]
    fn of_numbers(x: i64, y: i64) -> Option<Cell> {
        Some(Cell::Bit(x == y))
    }

    #[inline]
    fn of_cells(x: &Cell, y: &Cell) -> Option<Cell> {
        Some(is_equal(x, y))
    }
}

/// Whether they differ.
pub(crate) struct Unequal;

impl OfNumbers for Unequal {
    ghost named = { function.Ne };

    #[inline]
    fn of_numbers(x: i64, y: i64) -> Option<Cell> {
        Some(Cell::Bit(x != y))
    }

    #[inline]
    fn of_cells(x: &Cell, y: &Cell) -> Option<Cell> {
        Some(is_unequal(x, y))
    }
}

/// Whether the first is below the second.
pub(crate) struct Below;

impl OfNumbers for Below {
    ghost named = { function.Lt };

    #[inline]
    fn of_numbers(x: i64, y: i64) -> Option<Cell> {
        Some(Cell::Bit(x < y))
    }

    #[inline]
    fn of_cells(x: &Cell, y: &Cell) -> Option<Cell> {
        Some(is_below(x, y))
    }
}

/// Whether the first is at most the second.
pub(crate) struct AtMost;

impl OfNumbers for AtMost {
    ghost named = { function.Le };

    #[inline]
    fn of_numbers(x: i64, y: i64) -> Option<Cell> {
        Some(Cell::Bit(x <= y))
    }

    #[inline]
    fn of_cells(x: &Cell, y: &Cell) -> Option<Cell> {
        Some(is_at_most(x, y))
    }
}

/// Whether the first is above the second.
pub(crate) struct Above;

impl OfNumbers for Above {
    ghost named = { function.Gt };

    #[inline]
    fn of_numbers(x: i64, y: i64) -> Option<Cell> {
        Some(Cell::Bit(x > y))
    }

    #[inline]
    fn of_cells(x: &Cell, y: &Cell) -> Option<Cell> {
        Some(is_above(x, y))
    }
}

/// Whether the first is at least the second.
pub(crate) struct AtLeast;

impl OfNumbers for AtLeast {
    ghost named = { function.Ge };

    #[inline]
    fn of_numbers(x: i64, y: i64) -> Option<Cell> {
        Some(Cell::Bit(x >= y))
    }

    #[inline]
    fn of_cells(x: &Cell, y: &Cell) -> Option<Cell> {
        Some(is_at_least(x, y))
    }
}

/// Adds the cells of a function over a run, by its form for numbers where both parts hold numbers
/// alone, and cell by cell where both hold cells.
pub(crate) fn add_numbers<F: OfNumbers>(
    alloc: Global,
    function: Function,
    left: Part<'_>,
    right: Part<'_>,
    cells: &mut CellsBuilder,
) -> Result<(), RunError>
    requires named { F.named ≡ function }
    requires even { length (part_cells right) ≡ length (part_cells left) }
    ensures value { OnOk result ((before : Pairs) → applied function before ≡ Some cells.old → applied function (before ++ zip (part_cells left.entry) (part_cells right.entry)) ≡ Some cells.new) }
    ensures overflow { result ≡ Err RunError.Overflow → applied function (zip (part_cells left.entry) (part_cells right.entry)) ≡ None }
{
    match (left, right) {
        (Part::Ints(x), Part::Ints(y)) => add_by_number::<F>(alloc, x, y, cells),
        (Part::Cells(x), Part::Cells(y)) => add_by_cell::<F>(alloc, x, y, cells),
        _ => add_one_by_one(alloc, function, left, right, cells),
    }
}

/// Adds the cells of a function over numbers.
fn add_by_number<F: OfNumbers>(
    alloc: Global,
    left: &[i64],
    right: &[i64],
    cells: &mut CellsBuilder,
) -> Result<(), RunError>
    requires { length right.now ≡ length left.now }
    ensures value { OnOk result ((before : Pairs) → applied F.named before ≡ Some cells.old → applied F.named (before ++ zip (map Int left.now) (map Int right.now)) ≡ Some cells.new) }
    ensures overflow { result ≡ Err RunError.Overflow → applied F.named (zip (map Int left.now) (map Int right.now)) ≡ None }
{
    for i in 0..left.len() {
        match number_at::<F>(left, right, i) {
            Some(cell) => cells.push(alloc, cell)?,
            None => return Err(RunError::Overflow),
        }
    }
    Ok(())
}

/// The cell of a function over the numbers at a place.
#[inline]
fn number_at<F: OfNumbers>(left: &[i64], right: &[i64], at: usize) -> Option<Cell>
    requires left { at < length left.now }
    requires right { at < length right.now }
    ensures { result ≡ function_of F.named (slice_index_or (map Int left.now) at Nil) (slice_index_or (map Int right.now) at Nil) }
{
    F::of_numbers(int_at(left, at), int_at(right, at))
}

/// Adds the cells of a function over cells.
fn add_by_cell<F: OfNumbers>(
    alloc: Global,
    left: &[Cell],
    right: &[Cell],
    cells: &mut CellsBuilder,
) -> Result<(), RunError>
    requires { length right.now ≡ length left.now }
    ensures value { OnOk result ((before : Pairs) → applied F.named before ≡ Some cells.old → applied F.named (before ++ zip left.now right.now) ≡ Some cells.new) }
    ensures overflow { result ≡ Err RunError.Overflow → applied F.named (zip left.now right.now) ≡ None }
{
    for i in 0..left.len() {
        match cell_at::<F>(left, right, i) {
            Some(cell) => cells.push(alloc, cell)?,
            None => return Err(RunError::Overflow),
        }
    }
    Ok(())
}

/// The cell of a function over the cells at a place.
#[inline]
fn cell_at<F: OfNumbers>(left: &[Cell], right: &[Cell], at: usize) -> Option<Cell>
    requires left { at < length left.now }
    requires right { at < length right.now }
    ensures { result ≡ function_of F.named (slice_index_or left.now at Nil) (slice_index_or right.now at Nil) }
{
    F::of_cells(lent_at(left, at), lent_at(right, at))
}

#[inline]
fn lent_at(cells: &[Cell], at: usize) -> &Cell
    requires { at < length cells.now }
    ensures { result.now ≡ slice_index_or cells.now at Nil }
{
    &cells[at]
}

#[inline]
fn int_at(numbers: &[i64], at: usize) -> i64
    requires { at < length numbers.now }
    ensures { Int result ≡ slice_index_or (map Int numbers.now) at Nil }
{
    numbers[at]
}
