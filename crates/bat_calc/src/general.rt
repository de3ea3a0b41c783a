//! A function over parts of any form, cell by cell.
ghost use Rattle.std.specs.Prelude.{◌≡◌, ◌++◌, ◌<◌, length, slice_index_or, Some, None, OnOk};
ghost use Rattle.std.specs.List.{zip};
ghost use Rattle.cell_core.specs.Pairs.{Pairs};
ghost use Rattle.cell_core.specs.declared.cell.Cell.TheVariants.{Nil};
ghost use Rattle.chunk_core.specs.Parts.{part_cells};
ghost use Rattle.bat_calc.specs.Functions.{function_of, applied};

use crate::function::{Function, apply};
use bat_core::CellsBuilder;
use cell_core::{Cell, RunError};
use chunk_core::Part;
use std::alloc::Global;

/// Adds the cells of a function over a run.
pub(crate) fn add_one_by_one(
    alloc: Global,
    function: Function,
    left: Part<'_>,
    right: Part<'_>,
    cells: &mut CellsBuilder,
) -> Result<(), RunError>
    requires { length (part_cells right) ≡ length (part_cells left) }
    ensures value { OnOk result ((before : Pairs) → applied function before ≡ Some cells.old → applied function (before ++ zip (part_cells left.entry) (part_cells right.entry)) ≡ Some cells.new) }
    ensures overflow { result ≡ Err RunError.Overflow → applied function (zip (part_cells left.entry) (part_cells right.entry)) ≡ None }
{
    for i in 0..left.len() {
        match apply_at(function, left, right, i) {
            Some(cell) => cells.push(alloc, cell)?,
            None => return Err(RunError::Overflow),
        }
    }
    Ok(())
}

/// The cell of a function over the cells at a place.
#[inline]
fn apply_at(function: Function, left: Part<'_>, right: Part<'_>, at: usize) -> Option<Cell>
    requires left { at < length (part_cells left) }
    requires right { at < length (part_cells right) }
    ensures { result ≡ function_of function (slice_index_or (part_cells left.entry) at Nil) (slice_index_or (part_cells right.entry) at Nil) }
{
    let a = left.get(at);
    let b = right.get(at);
    apply(function, a.cell(), b.cell())
}
