//! INSERT.
ghost use Rattle.std.specs.Prelude.{◌≡◌, None, IfOk};
ghost use Rattle.sql_grammar.specs.Formed.{IsFormed};
ghost use Rattle.sql_definitions.specs.Check.{check_refusal};
ghost use Rattle.sql_definitions.specs.Sources.{schema_of};
ghost use Rattle.sql_definitions.specs.Valid.{IsValid};
ghost use Rattle.sql_tree.specs.Tree.StmtTree.{InsertInto};
ghost use Rattle.store_changes.specs.Rewrites.{ComesTo};

use crate::headings::find_heading;
use crate::outcome::Ready;
use cell_core::{Cell, Memory, Sequence, Word};
use sql_changes::rows_to_add;
use sql_definitions::Refusal;
use sql_kinds::statements_keep_valid;
use std::alloc::Global;
use table_store::Store;

/// The outcome of an INSERT that the check accepts: its rows are placed, and come after the others.
pub(crate) fn insert(
    alloc: Global,
    store: &Store,
    table: &Word,
    listed: &[Word],
    rows: &[Sequence<Cell>],
) -> Result<Result<Ready, Refusal>, Memory>
    requires accepted { check_refusal (InsertInto table.now listed.now rows.now) (schema_of store.now.db) ≡ None }
    requires formed { IsFormed (InsertInto table.now listed.now rows.now) }
    requires valid { IsValid store.now.db }
    ensures { IfOk result (ComesTo (InsertInto table.now listed.now rows.now) store.now) }
{
    statements_keep_valid();
    let Some(heading) = find_heading(store.schema(), table) else {
        unreachable!();
    };
    let columns = heading.columns.as_slice();
    let count = store.row_count(table) as usize;
    match rows_to_add(alloc, columns, listed, rows, count)? {
        Err(refusal) => Ok(Err(refusal)),
        Ok(added) => {
            let placed = added.as_slice();
            let change = store.append_rows(alloc, table, placed)?;
            Ok(Ok(Ready {
                change,
                rows: Some(placed.len() as u64),
            }))
        }
    }
}
