//! Columns with more rows.
ghost use Rattle.std.specs.Prelude.{◌≡◌, ◌++◌, slice_index_or, IfOk};
ghost use Rattle.cell_core.specs.declared.cell.Cell.TheVariants.{Nil};
ghost use Rattle.cell_core.specs.Pairs.{numbered, tails_of};
ghost use Rattle.cell_core.specs.Relations.{column_cells};
ghost use Rattle.table_columns.specs.Changed.{grown_columns};

use crate::parts::numbered_column;
use bat_core::{Cells, CellsBuilder, Shared};
use cell_core::{Cell, Memory, Sequence};
use std::alloc::Global;

/// The columns, each with the cells of more rows after its own.
pub(crate) fn followed_columns(
    alloc: Global,
    columns: &[Shared],
    rows: &[Sequence<Cell>],
) -> Result<Vec<Shared>, Memory>
    ensures { IfOk result (λ out. out.items ≡ grown_columns 0 columns.now rows.now) }
{
    let mut out = Vec::with_capacity(alloc, columns.len())?;
    let mut place = 0;
    let mut rest = columns;
    'columns: while let [column, more @ ..] = rest {
        out.push(followed_column(alloc, column, rows, place)?)?;
        place += 1;
        rest = more;
    }
    Ok(out)
}

/// The cells of a column, followed by those of rows at a place. The full chunks are shared.
fn followed_column(
    alloc: Global,
    column: &Shared,
    rows: &[Sequence<Cell>],
    place: usize,
) -> Result<Shared, Memory>
    ensures { IfOk result (λ out. out ≡ numbered (tails_of column.now ++ column_cells place rows.now)) }
{
    let more = cells_at(alloc, rows, place)?;
    let cells = column.bat().tails().followed_by(alloc, &more)?;
    numbered_column(alloc, cells)
}

/// The cells of rows at a place, Nil for a row that is shorter.
pub fn cells_at(alloc: Global, rows: &[Sequence<Cell>], place: usize) -> Result<Cells, Memory>
    ensures { IfOk result (λ cells. cells ≡ column_cells place rows.now) }
{
    let mut cells = CellsBuilder::new(alloc);
    'rows: for row in rows {
        cells.push(alloc, cell_at(row.as_slice(), place)?)?;
    }
    cells.finish(alloc)
}

/// The cell of a row at a place.
fn cell_at(row: &[Cell], place: usize) -> Result<Cell, Memory>
    ensures { IfOk result (λ cell. cell ≡ slice_index_or row.now place Nil) }
{
    match row.get(place) {
        Some(cell) => cell.share(),
        None => Ok(Cell::Nil),
    }
}
