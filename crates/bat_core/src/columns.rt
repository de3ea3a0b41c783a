//! The columns of a database, as BATs.
ghost use Rattle.std.specs.Prelude.{◌≡◌, IfOk};
ghost use Rattle.cell_core.specs.declared.table.Db.{Db};
ghost use Rattle.cell_core.specs.Relations.{bound};

use crate::shared::Shared;
use cell_core::{Memory, Word};
use std::alloc::Global;

/// A source of a database's columns.
pub trait Columns {
    // The database whose columns these are.
    ghost database: { Self → Db };

    /// The cells of a column, each beside the number of its row as an oid, from 0; None for a table
    /// or a column that the database doesn't have.
    fn column(&self, alloc: Global, table: &Word, column: &Word) -> Result<Option<Shared>, Memory>
        ensures { IfOk result (λ found. found ≡ bound table.now column.now (database self.now)) };
}
