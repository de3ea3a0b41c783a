//! CREATE, DROP and ALTER.
ghost use Rattle.std.specs.Prelude.{◌≡◌, None, IfOk};
ghost use Rattle.sql_definitions.specs.Check.{check_refusal};
ghost use Rattle.sql_definitions.specs.Sources.{schema_of};
ghost use Rattle.sql_definitions.specs.Valid.{IsValid};
ghost use Rattle.sql_tree.specs.Tree.StmtTree.{CreateTable, DropTable, AlterTable};
ghost use Rattle.store_changes.specs.Rewrites.{ComesTo};

use crate::headings::find_heading;
use crate::outcome::Ready;
use cell_core::{Column, Memory, Word, copy_columns};
use row_values::has_long_default;
use sql_changes::why_not_added;
use sql_definitions::Refusal;
use std::alloc::Global;
use table_store::{Heading, Store};

/// The outcome of a CREATE that the check accepts.
pub(crate) fn create(
    alloc: Global,
    store: &Store,
    table: &Word,
    columns: &[Column],
) -> Result<Result<Ready, Refusal>, Memory>
    requires { check_refusal (CreateTable table.now columns.now) (schema_of store.now.db) ≡ None }
    ensures { IfOk result (ComesTo (CreateTable table.now columns.now) store.now) }
{
    if has_long_default(columns) {
        return Ok(Err(Refusal::TextTooLong));
    }
    let heading = Heading {
        name: table.share()?,
        columns: copy_columns(alloc, columns)?,
    };
    let change = store.add_table(alloc, heading)?;
    Ok(Ok(Ready { change, rows: None }))
}

/// The outcome of a DROP that the check accepts.
pub(crate) fn drop_table(
    alloc: Global,
    store: &Store,
    table: &Word,
) -> Result<Result<Ready, Refusal>, Memory>
    requires { check_refusal (DropTable table.now) (schema_of store.now.db) ≡ None }
    ensures { IfOk result (ComesTo (DropTable table.now) store.now) }
{
    let change = store.drop_table(alloc, table)?;
    Ok(Ok(Ready { change, rows: None }))
}

/// The outcome of an ALTER that the check accepts.
pub(crate) fn alter(
    alloc: Global,
    store: &Store,
    table: &Word,
    column: &Column,
) -> Result<Result<Ready, Refusal>, Memory>
    requires accepted { check_refusal (AlterTable table.now column.now) (schema_of store.now.db) ≡ None }
    requires valid { IsValid store.now.db }
    ensures { IfOk result (ComesTo (AlterTable table.now column.now) store.now) }
{
    let Some(heading) = find_heading(store.schema(), table) else {
        unreachable!();
    };
    let columns = heading.columns.as_slice().len();
    let rows = store.row_count(table) as usize;
    match why_not_added(alloc, column, columns, rows)? {
        Some(refusal) => Ok(Err(refusal)),
        None => {
            let change = store.add_column(alloc, table, column.share()?)?;
            Ok(Ok(Ready { change, rows: None }))
        }
    }
}
