//! ALTER.
ghost use Rattle.std.specs.Prelude.{◌≡◌, ◌++◌, ◌<◌, [], ◌∷◌, List, length, map, slice_get, slice_index_or, slice_set, IfOk, OnOk, OnErr};
ghost use Rattle.cell_core.specs.declared.cell.Cell.{Cell as CellSeen};
ghost use Rattle.cell_core.specs.declared.table.Table.{Table as TableSeen};
ghost use Rattle.cell_core.specs.Tables.{grown, with_column};
ghost use Rattle.sql_definitions.specs.Effect.{column_refused};
ghost use Rattle.sql_changes.specs.Parts.{alter_refusal};

use crate::carry::find_once;
use crate::copy::copy_table;
use cell_core::{
    Cell, Column, Db, Memory, Sequence, Table, Word, copy_cells, copy_columns, word_of,
};
use row_values::{is_null_refused, is_too_long};
use sql_definitions::Refusal;
use std::alloc::Global;
use std::mem;

/// The most columns of a table.
const COLUMN_LIMIT: usize = 64;

/// Why a column isn't added to a table with so many columns and rows, exactly.
fn refusal_for(
    alloc: Global,
    column: &Column,
    columns: usize,
    rows: usize,
) -> Result<Option<Refusal>, Memory>
    ensures { IfOk result (λ found. found ≡ alter_refusal column.now columns rows) }
{
    if is_too_long(column, &column.default) {
        return Ok(Some(Refusal::TextTooLong));
    }
    if is_null_refused(column, &column.default) && rows != 0 {
        return Ok(Some(Refusal::NullStored));
    }
    if columns >= COLUMN_LIMIT {
        return Ok(Some(Refusal::Limit(word_of(alloc, "columns")?)));
    }
    Ok(None)
}

/// Why a column isn't added to a table with so many columns and rows.
pub fn why_not_added(
    alloc: Global,
    column: &Column,
    columns: usize,
    rows: usize,
) -> Result<Option<Refusal>, Memory>
    ensures { IfOk result (λ found. (table : TableSeen) → length table.columns ≡ columns → length table.rows ≡ rows → found ≡ slice_get (column_refused column.now table) 0) }
{
    refusal_for(alloc, column, columns, rows)
}

/// A row with one more cell.
fn grown_row(alloc: Global, row: &[Cell], cell: &Cell) -> Result<Sequence<Cell>, Memory>
    ensures { IfOk result (λ out. out ≡ row.now ++ cell.now ∷ []) }
{
    let mut cells = copy_cells(alloc, row)?;
    cells.push(cell.share()?)?;
    Ok(cells)
}

/// Rows with one more cell.
fn grown_rows(
    alloc: Global,
    rows: &[Sequence<Cell>],
    cell: &Cell,
) -> Result<Sequence<Sequence<Cell>>, Memory>
    ensures { IfOk result (λ out. out ≡ map (λ (row : List CellSeen). row ++ cell.now ∷ []) rows.now) }
{
    let mut out = Sequence::new(alloc);
    let mut rest = rows;
    'rows: while let [row, more @ ..] = rest {
        out.push(grown_row(alloc, row.as_slice(), cell)?)?;
        rest = more;
    }
    Ok(out)
}

/// A table with one more column, whose cells are its default.
fn grown_table(alloc: Global, column: &Column, table: &Table) -> Result<Table, Memory>
    ensures { IfOk result (λ out. out ≡ grown column.now table.now) }
{
    let mut columns = copy_columns(alloc, table.columns.as_slice())?;
    columns.push(column.share()?)?;
    Ok(Table {
        name: table.name.share()?,
        columns,
        rows: grown_rows(alloc, table.rows.as_slice(), &column.default)?,
    })
}

/// Adds a column to the table at a place.
fn grow_at(alloc: Global, at: usize, column: &Column, db: &mut Db) -> Result<(), Memory>
    requires { at < length db.old.tables }
    ensures done { OnOk result ((first : TableSeen) → db.new.tables ≡ slice_set db.old.tables at (grown column.now (slice_index_or db.old.tables at first))) }
    ensures kept { OnErr result (db.new ≡ db.old) }
{
    let table = grown_table(alloc, column, &db.tables.as_slice()[at])?;
    let mut tables = mem::replace(&mut db.tables, Sequence::new(alloc)).into_vec();
    tables[at] = table;
    db.tables = Sequence::from_vec(tables);
    Ok(())
}

/// Equal tables, of which those with this name have one more column.
fn copies_with(
    alloc: Global,
    name: &Word,
    column: &Column,
    tables: &[Table],
) -> Result<Sequence<Table>, Memory>
    ensures { IfOk result (λ copies. copies ≡ map (with_column name.now column.now) tables.now) }
{
    let mut copies = Sequence::new(alloc);
    let mut rest = tables;
    'tables: while let [table, more @ ..] = rest {
        let copy = if table.name == *name {
            grown_table(alloc, column, table)?
        } else {
            copy_table(alloc, table)?
        };
        copies.push(copy)?;
        rest = more;
    }
    Ok(copies)
}

/// Adds a column at the end of the table with this name. Where memory runs out the database is as it
/// was.
pub(crate) fn add_column(
    alloc: Global,
    name: &Word,
    column: &Column,
    db: &mut Db,
) -> Result<(), Memory>
    ensures done { OnOk result (db.new.tables ≡ map (with_column name.now column.now) db.old.tables) }
    ensures kept { OnErr result (db.new ≡ db.old) }
{
    match find_once(db.tables.as_slice(), name) {
        Some(at) => grow_at(alloc, at, column, db),
        None => {
            let tables = copies_with(alloc, name, column, db.tables.as_slice())?;
            db.tables = tables;
            Ok(())
        }
    }
}
