//! Columns and versions of a table.
ghost use Rattle.std.specs.Prelude.{◌≡◌, ◌<◌, [], ◌∷◌, ◌++◌, length, replicate, slice_index_or, IfOk};
ghost use Rattle.cell_core.specs.Pairs.{numbered};

use bat_core::{Bat, Cells, Shared};
use cell_core::{Cell, Memory};
use std::alloc::Global;

/// That many columns without cells.
pub(crate) fn empty_columns(alloc: Global, count: usize) -> Result<Vec<Shared>, Memory>
    ensures { IfOk result (λ columns. columns.items ≡ replicate count []) }
{
    let mut columns = Vec::with_capacity(alloc, count)?;
    for _ in 0..count {
        columns.push(Shared::new(alloc, Bat::new(alloc))?)?;
    }
    Ok(columns)
}

/// This many versions, each 0.
pub(crate) fn zeros(alloc: Global, count: usize) -> Result<Vec<u64>, Memory>
    ensures { IfOk result (λ versions. versions.items ≡ replicate count 0) }
{
    let mut versions = Vec::with_capacity(alloc, count)?;
    for _ in 0..count {
        versions.push(0)?;
    }
    Ok(versions)
}

/// The same columns, which both share.
pub(crate) fn share_columns(alloc: Global, columns: &[Shared]) -> Result<Vec<Shared>, Memory>
    ensures { IfOk result (λ copy. copy.items ≡ columns.now) }
{
    let mut copy = Vec::with_capacity(alloc, columns.len())?;
    'columns: for column in columns {
        copy.push(column.share()?)?;
    }
    Ok(copy)
}

/// The column at a place, which both share.
pub(crate) fn share_at(columns: &[Shared], place: usize) -> Result<Shared, Memory>
    requires { place < length columns.now }
    ensures { IfOk result (λ column. column ≡ slice_index_or columns.now place []) }
{
    columns[place].share()
}

pub(crate) fn copy_versions(alloc: Global, versions: &[u64]) -> Result<Vec<u64>, Memory>
    ensures { IfOk result (λ copy. copy.items ≡ versions.now) }
{
    let mut copy = Vec::with_capacity(alloc, versions.len())?;
    copy.extend_from_slice(versions)?;
    Ok(copy)
}

/// A column of these cells, each beside its number.
pub(crate) fn numbered_column(alloc: Global, cells: Cells) -> Result<Shared, Memory>
    ensures { IfOk result (λ column. column ≡ numbered cells) }
{
    let heads = Cells::oids(alloc, 0, cells.len())?;
    Shared::new(alloc, Bat::from_columns(heads, cells))
}

/// The same columns, which both share, followed by one that has the same cell in each row.
pub(crate) fn columns_and(
    alloc: Global,
    columns: &[Shared],
    cell: &Cell,
    count: u64,
) -> Result<Vec<Shared>, Memory>
    ensures { IfOk result (λ out. out.items ≡ columns.now ++ numbered (replicate count cell.now) ∷ []) }
{
    let mut out = share_columns(alloc, columns)?;
    let cells = Cells::repeated(alloc, cell, count)?;
    out.push(numbered_column(alloc, cells)?)?;
    Ok(out)
}

/// The same versions, followed by 0.
pub(crate) fn versions_and_zero(alloc: Global, versions: &[u64]) -> Result<Vec<u64>, Memory>
    ensures { IfOk result (λ out. out.items ≡ versions.now ++ 0 ∷ []) }
{
    let mut out = copy_versions(alloc, versions)?;
    out.push(0)?;
    Ok(out)
}
