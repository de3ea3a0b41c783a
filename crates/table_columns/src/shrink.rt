//! Columns with fewer rows.
ghost use Rattle.std.specs.Prelude.{◌≡◌, ◌<◌, [], ◌∷◌, ◌++◌, not, length, if◌then◌else◌, slice_index_or, IfOk, OnOk};
ghost use Rattle.std.specs.List.{AllByRecursion, count_by};
ghost use Rattle.cell_core.specs.declared.cell.Cell.TheVariants.{Nil};
ghost use Rattle.cell_core.specs.Pairs.{numbered, tails_of};
ghost use Rattle.table_columns.specs.Rows.{IsColumn};
ghost use Rattle.table_columns.specs.Changed.{columns_left, unflagged};

use crate::parts::numbered_column;
use bat_core::{Cells, CellsBuilder, Shared};
use cell_core::Memory;
use std::alloc::Global;

/// The columns without the cells that have a flag.
pub(crate) fn left_columns(
    alloc: Global,
    columns: &[Shared],
    gone: &[bool],
) -> Result<Vec<Shared>, Memory>
    requires { AllByRecursion (IsColumn (length gone.now)) columns.now }
    ensures { IfOk result (λ out. out.items ≡ columns_left gone.now columns.now) }
{
    let mut out = Vec::with_capacity(alloc, columns.len())?;
    let mut rest = columns;
    'columns: while let [column, more @ ..] = rest {
        out.push(left_column(alloc, column, gone)?)?;
        rest = more;
    }
    Ok(out)
}

/// A column without the cells that have a flag.
fn left_column(alloc: Global, column: &Shared, gone: &[bool]) -> Result<Shared, Memory>
    requires { length gone.now ≡ length column.now }
    ensures { IfOk result (λ out. out ≡ numbered (unflagged gone.now (tails_of column.now))) }
{
    let cells = left_cells(alloc, column.bat().tails(), gone)?;
    numbered_column(alloc, cells)
}

/// Cells without those that have a flag.
fn left_cells(alloc: Global, cells: &Cells, gone: &[bool]) -> Result<Cells, Memory>
    requires { length gone.now ≡ length cells.now }
    ensures { IfOk result (λ out. out ≡ unflagged gone.now cells.now) }
{
    let _small = cells.len();
    let mut out = CellsBuilder::new(alloc);
    let mut at = 0;
    let mut rest = gone;
    'rows: while let [flag, more @ ..] = rest {
        push_unless(alloc, &mut out, cells, at, *flag)?;
        at += 1;
        rest = more;
    }
    out.finish(alloc)
}

/// Adds the cell at a place, unless there is a flag.
fn push_unless(
    alloc: Global,
    out: &mut CellsBuilder,
    cells: &Cells,
    at: u64,
    flag: bool,
) -> Result<(), Memory>
    requires { at < length cells.now }
    ensures { OnOk result (out.new ≡ out.old ++ (if flag then [] else slice_index_or cells.now at Nil ∷ [])) }
{
    if !flag {
        out.push(alloc, cells.copy(at)?)?;
    }
    Ok(())
}

/// How many have no flag.
pub(crate) fn count_left(gone: &[bool]) -> usize
    ensures { result ≡ count_by not gone.now }
{
    gone.iter().filter(|flag| !**flag).count()
}
