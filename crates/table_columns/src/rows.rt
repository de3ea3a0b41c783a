//! Rows, made from their columns.
ghost use Rattle.std.specs.Prelude.{◌≡◌, ◌<◌, length, slice_index_or, IfOk};
ghost use Rattle.std.specs.List.{AllByRecursion};
ghost use Rattle.cell_core.specs.declared.cell.Cell.TheVariants.{Nil};
ghost use Rattle.cell_core.specs.Pairs.{Pairs, tails_of};
ghost use Rattle.table_columns.specs.Rows.{IsColumn, row_cells, rows_beside};

use bat_core::Shared;
use cell_core::{Cell, Memory, Sequence};
use std::alloc::Global;

/// The rows of these columns, which have `count` cells each.
pub(crate) fn rows_of(
    alloc: Global,
    columns: &[Shared],
    count: u64,
) -> Result<Sequence<Sequence<Cell>>, Memory>
    requires { AllByRecursion (IsColumn count) columns.now }
    ensures { IfOk result (λ rows. rows ≡ rows_beside count columns.now) }
{
    let mut rows = Sequence::new(alloc);
    let mut at = 0;
    'rows: while at < count {
        rows.push(row_at(alloc, columns, at)?)?;
        at += 1;
    }
    Ok(rows)
}

/// The cells of columns at a place.
fn row_at(alloc: Global, columns: &[Shared], at: u64) -> Result<Sequence<Cell>, Memory>
    requires { AllByRecursion (λ (column : Pairs). at < length column) columns.now }
    ensures { IfOk result (λ row. row ≡ row_cells at columns.now) }
{
    let mut cells = Vec::with_capacity(alloc, columns.len())?;
    let mut rest = columns;
    'columns: while let [column, more @ ..] = rest {
        cells.push(cell_of(column, at)?)?;
        rest = more;
    }
    Ok(Sequence::from_vec(cells))
}

/// The cell of a column at a place.
fn cell_of(column: &Shared, at: u64) -> Result<Cell, Memory>
    requires { at < length column.now }
    ensures { IfOk result (λ cell. cell ≡ slice_index_or (tails_of column.now) at Nil) }
{
    column.bat().tails().copy(at)
}
