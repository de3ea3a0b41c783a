//! Equal tables, which share their texts.
ghost use Rattle.std.specs.Prelude.{◌≡◌, map, IfOk};
ghost use Rattle.cell_core.specs.Tables.{with_new_rows};

use cell_core::{Cell, Db, Memory, Sequence, Table, Word, copy_columns, copy_rows};
use std::alloc::Global;

/// An equal table.
pub(crate) fn copy_table(alloc: Global, table: &Table) -> Result<Table, Memory>
    ensures { IfOk result (λ copy. copy ≡ table.now) }
{
    Ok(Table {
        name: table.name.share()?,
        columns: copy_columns(alloc, table.columns.as_slice())?,
        rows: copy_rows(alloc, table.rows.as_slice())?,
    })
}

/// An equal database.
pub(crate) fn copy_db(alloc: Global, db: &Db) -> Result<Db, Memory>
    ensures { IfOk result (λ copy. copy ≡ db.now) }
{
    let mut tables = Sequence::new(alloc);
    let mut rest = db.tables.as_slice();
    'tables: while let [table, more @ ..] = rest {
        tables.push(copy_table(alloc, table)?)?;
        rest = more;
    }
    Ok(Db { tables })
}

/// An equal table, with other rows where it has this name.
fn copy_with(
    alloc: Global,
    name: &Word,
    rows: &[Sequence<Cell>],
    table: &Table,
) -> Result<Table, Memory>
    ensures { IfOk result (λ copy. copy ≡ with_new_rows name.now rows.now table.now) }
{
    let rows = if table.name == *name {
        rows
    } else {
        table.rows.as_slice()
    };
    Ok(Table {
        name: table.name.share()?,
        columns: copy_columns(alloc, table.columns.as_slice())?,
        rows: copy_rows(alloc, rows)?,
    })
}

/// Equal tables, with other rows of those that have this name.
pub(crate) fn copies_with(
    alloc: Global,
    name: &Word,
    rows: &[Sequence<Cell>],
    tables: &[Table],
) -> Result<Sequence<Table>, Memory>
    ensures { IfOk result (λ copies. copies ≡ map (with_new_rows name.now rows.now) tables.now) }
{
    let mut copies = Sequence::new(alloc);
    let mut rest = tables;
    'tables: while let [table, more @ ..] = rest {
        copies.push(copy_with(alloc, name, rows, table)?)?;
        rest = more;
    }
    Ok(copies)
}
