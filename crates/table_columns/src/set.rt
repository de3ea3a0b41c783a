//! Columns with other cells.
ghost use Rattle.std.specs.Prelude.{◌≡◌, ◌+◌, ◌^◌, ◌<◌, length, if◌then◌else◌, bytes_eq, find, slice_index_or, Some, IfOk};
ghost use Rattle.std.specs.List.{AllByRecursion};
ghost use Rattle.std.specs.Option.{option_copied};
ghost use Rattle.cell_core.specs.declared.cell.Cell.TheVariants.{Nil};
ghost use Rattle.table_columns.specs.Rows.{IsColumn};
ghost use Rattle.table_columns.specs.Changed.{NewCells, columns_set, new_cell, set_cells, set_column, set_of};

use crate::parts::numbered_column;
use bat_core::{Cells, CellsBuilder, Shared};
use cell_core::{Cell, Column, Memory, Word};
use std::alloc::Global;

/// The columns, of which those that are set have other cells where there is a flag. The others are
/// shared.
pub(crate) fn changed_columns(
    alloc: Global,
    stored: &[Shared],
    columns: &[Column],
    hits: &[bool],
    sets: &[(Word, Cells)],
) -> Result<Vec<Shared>, Memory>
    requires { AllByRecursion (IsColumn (length hits.now)) stored.now }
    ensures { IfOk result (λ out. out.items ≡ columns_set sets.now hits.now columns.now stored.now) }
{
    let mut out = Vec::with_capacity(alloc, stored.len())?;
    let (mut names, mut rest) = (columns, stored);
    'columns: while let [column, others @ ..] = names {
        let [first, more @ ..] = rest else {
            return Ok(out);
        };
        out.push(column_after(alloc, column, first, hits, sets)?)?;
        names = others;
        rest = more;
    }
    Ok(out)
}

/// A column, which has other cells where there is a flag if one of the sets is for it.
fn column_after(
    alloc: Global,
    column: &Column,
    stored: &Shared,
    hits: &[bool],
    sets: &[(Word, Cells)],
) -> Result<Shared, Memory>
    requires { length hits.now ≡ length stored.now }
    ensures { IfOk result (λ out. out ≡ set_column (set_of sets.now column.now) hits.now stored.now) }
{
    let set = find_set(sets, &column.name);
    changed_column(alloc, stored, set, hits)
}

/// The first set of a column with this name.
fn find_set<'a>(sets: &'a [(Word, Cells)], name: &Word) -> Option<&'a (Word, Cells)>
    ensures { option_copied result ≡ find (λ (set : NewCells). bytes_eq set.0 name.now) sets.now }
{
    let mut rest = sets;
    'sets: while let [set, more @ ..] = rest {
        if set.0 == *name {
            return Some(set);
        }
        rest = more;
    }
    None
}

/// A column, which has other cells where there is a flag if it is set.
fn changed_column(
    alloc: Global,
    column: &Shared,
    set: Option<&(Word, Cells)>,
    hits: &[bool],
) -> Result<Shared, Memory>
    requires { length hits.now ≡ length column.now }
    ensures { IfOk result (λ out. out ≡ set_column (option_copied set.entry) hits.now column.now) }
{
    let Some(set) = set else {
        return column.share();
    };
    let cells = changed_cells(alloc, column.bat().tails(), set, hits)?;
    numbered_column(alloc, cells)
}

/// Cells of which those with a flag are others.
fn changed_cells(
    alloc: Global,
    cells: &Cells,
    set: &(Word, Cells),
    hits: &[bool],
) -> Result<Cells, Memory>
    requires { length hits.now ≡ length cells.now }
    ensures { IfOk result (λ out. out ≡ set_cells (Some set.now) 0 hits.now cells.now) }
{
    let _small = cells.len();
    let mut out = CellsBuilder::new(alloc);
    let mut place = 0;
    let mut at = 0;
    let mut rest = hits;
    'rows: while let [hit, more @ ..] = rest {
        out.push(alloc, cell_after(cells, place, &set.1, at, *hit)?)?;
        place += 1;
        at = behind(at, *hit);
        rest = more;
    }
    out.finish(alloc)
}

/// The cell at a place, or, where there is a flag, the one at a place of others, if it exists.
fn cell_after(cells: &Cells, place: u64, others: &Cells, at: u64, hit: bool) -> Result<Cell, Memory>
    requires { place < length cells.now }
    ensures { IfOk result (λ cell. cell ≡ (if hit then slice_index_or others.now at (slice_index_or cells.now place Nil) else slice_index_or cells.now place Nil)) }
{
    if hit && at < others.len() {
        others.copy(at)
    } else {
        cells.copy(place)
    }
}

/// The place, one further where there is a flag.
fn behind(at: u64, hit: bool) -> u64
    requires { at < 2 ^ 60 }
    ensures { result ≡ (if hit then at + 1 else at) }
{
    if hit { at + 1 } else { at }
}
