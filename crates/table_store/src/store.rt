//! The tables of a run, and snapshots of them.
ghost use Rattle.std.specs.Prelude.{◌≡◌, ℕ, List, [], ◌∷◌, ◌++◌, length, map, true, false, None, Some, IfOk, IfSome};
ghost use Rattle.cell_core.specs.declared.table.Table.{Table};
ghost use Rattle.cell_core.specs.Relations.{bound};
ghost use Rattle.cell_core.specs.Tables.{all_columns, has_column, named_table, names_in, row_count};
ghost use Rattle.table_columns.specs.Rows.{AreWide};
ghost use Rattle.table_columns.specs.Changed.{NewCells, set_rows, unflagged};
ghost use Rattle.table_store.specs.Content.{version_of};
ghost use Rattle.table_store.specs.Headings.{headings_of};
ghost use Rattle.table_store.specs.Changes.{IsPrepared, NamesDiffer, columns_of, rows_of, with_last_column, with_rows, with_table, without_table};
ghost use Rattle.table_store.specs.Touches.{whole_columns};
ghost use Rattle.pool_policy.specs.Versions.{is_of};

use crate::change::Change;
use crate::heading::Heading;
use crate::tables::{StoredTables, touch_one};
use crate::touched::{one_name, set_names, touch};
use bat_core::{Cells, Columns, Shared};
use cell_core::{Cell, Column, Memory, Sequence, Word};
use std::alloc::Global;
use std::marker::Model;

/// The tables of a run. Contracts see a database with one version for each column.
#[derive(Drop)]
pub struct Store {
    tables: StoredTables,
}

impl Model for Store {
    ghost use Rattle.table_store.specs.Content.{Content};

    ghost Value = { Content };

    ghost view = { λ s. s.tables };
}

/// The tables as they were when the snapshot was taken. It shares the columns, so it costs as much
/// as there are columns, whatever their length.
#[derive(Drop)]
pub struct Snap {
    tables: StoredTables,
}

impl Model for Snap {
    ghost use Rattle.table_store.specs.Content.{Content};

    ghost Value = { Content };

    ghost view = { λ s. s.tables };
}

impl Store {
    /// A store without tables, which takes no memory.
    pub fn new(alloc: Global) -> Store
        ensures db { result.db ≡ record { tables = [] } }
        ensures versions { result.versions ≡ [] }
    {
        Store {
            tables: StoredTables::new(alloc),
        }
    }

    /// The tables without their rows.
    pub fn schema(&self) -> &[Heading]
        ensures { result.now ≡ headings_of self.now.db }
    {
        self.tables.schema()
    }

    /// The version of a column, which is 0 where there is no such column.
    pub fn version(&self, table: &Word, column: &Word) -> u64
        ensures { result ≡ version_of table.now column.now self.now }
    {
        self.tables.version(table, column)
    }

    /// How many rows a table has, 0 where it doesn't exist.
    pub fn row_count(&self, table: &Word) -> u64
        ensures { result ≡ row_count table.now self.now.db }
    {
        self.tables.row_count(table)
    }

    /// The rows of a table, made from its columns; none where it doesn't exist.
    pub fn rows(&self, alloc: Global, table: &Word) -> Result<Sequence<Sequence<Cell>>, Memory>
        ensures { IfOk result (λ rows. rows ≡ rows_of table.now self.now.db) }
    {
        self.tables.rows(alloc, table)
    }

    /// A snapshot of the present content, which later changes leave as it is.
    pub fn snapshot(&self, alloc: Global) -> Result<Snap, Memory>
        ensures { IfOk result (λ snap. snap ≡ self.now) }
    {
        let tables = self.tables.share(alloc)?;
        Ok(Snap { tables })
    }

    /// A column of a snapshot, with the numbers of its rows as oids from 0; none where there is no
    /// such column.
    pub fn column(&self, snap: &Snap, table: &Word, column: &Word) -> Result<Option<Shared>, Memory>
        ensures { IfOk result (λ found. found ≡ bound table.now column.now snap.now.db) }
    {
        snap.tables.column(table, column)
    }

    /// Prepares a table without rows after the others. Nothing changes yet.
    pub fn add_table(&self, alloc: Global, heading: Heading) -> Result<Change, Memory>
        ensures prepared { IfOk result (λ change. IsPrepared change self.now) }
        ensures db { IfOk result (λ change. change.content.db ≡ with_table heading.name heading.columns self.now.db) }
        ensures touched { IfOk result (λ change. change.touched ≡ record { table = heading.name; columns = names_in heading.columns; old_rows = 0; added = None }) }
    {
        let touched = touch_one(alloc, &heading.name, heading.columns.as_slice(), 0)?;
        let tables = self.tables.with(alloc, heading)?;
        Ok(Change { tables, touched })
    }

    /// Prepares the removal of the tables of a name. Nothing changes yet.
    pub fn drop_table(&self, alloc: Global, name: &Word) -> Result<Change, Memory>
        ensures prepared { IfOk result (λ change. IsPrepared change self.now) }
        ensures db { IfOk result (λ change. change.content.db ≡ without_table name.now self.now.db) }
        ensures touched { IfOk result (λ change. change.touched ≡ record { table = name.now; columns = all_columns name.now self.now.db; old_rows = row_count name.now self.now.db; added = None }) }
    {
        let touched = self.tables.touch_whole(alloc, name)?;
        let tables = self.tables.without(alloc, name)?;
        Ok(Change { tables, touched })
    }

    /// Prepares one more column at a table's end, with its default in each row. Nothing changes
    /// yet.
    pub fn add_column(&self, alloc: Global, table: &Word, column: Column) -> Result<Change, Memory>
        requires { NamesDiffer self.now.db }
        ensures prepared { IfOk result (λ change. IsPrepared change self.now) }
        ensures db { IfOk result (λ change. change.content.db ≡ with_last_column table.now column self.now.db) }
        ensures touched { IfOk result (λ change. change.touched ≡ record { table = table.now; columns = column.name ∷ []; old_rows = row_count table.now self.now.db; added = None }) }
    {
        let names = one_name(alloc, &column.name)?;
        let touched = touch(table, names, self.tables.row_count(table))?;
        let tables = self.tables.with_column(alloc, table, column)?;
        Ok(Change { tables, touched })
    }

    /// Prepares more rows of a table after the others. Nothing changes yet.
    pub fn append_rows(
        &self,
        alloc: Global,
        table: &Word,
        rows: &[Sequence<Cell>],
    ) -> Result<Change, Memory>
        requires differ { NamesDiffer self.now.db }
        requires wide { IfSome (named_table table.now self.now.db) (λ (t : Table). AreWide (length t.columns) rows.now) }
        ensures prepared { IfOk result (λ change. IsPrepared change self.now) }
        ensures db { IfOk result (λ change. change.content.db ≡ with_rows table.now (rows_of table.now self.now.db ++ rows.now) self.now.db) }
        ensures touched { IfOk result (λ change. change.touched ≡ record { table = table.now; columns = all_columns table.now self.now.db; old_rows = row_count table.now self.now.db; added = Some (whole_columns table.now change.content.db) }) }
    {
        let mut touched = self.tables.touch_whole(alloc, table)?;
        let tables = self.tables.with_more_rows(alloc, table, rows)?;
        touched.added = Some(tables.whole_columns(alloc, table)?);
        Ok(Change { tables, touched })
    }

    /// Prepares the removal of a table's rows that have a flag. Nothing changes yet.
    pub fn drop_flagged_rows(
        &self,
        alloc: Global,
        table: &Word,
        gone: &[bool],
    ) -> Result<Change, Memory>
        requires differ { NamesDiffer self.now.db }
        requires flags { length gone.now ≡ row_count table.now self.now.db }
        ensures prepared { IfOk result (λ change. IsPrepared change self.now) }
        ensures db { IfOk result (λ change. change.content.db ≡ with_rows table.now (unflagged gone.now (rows_of table.now self.now.db)) self.now.db) }
        ensures touched { IfOk result (λ change. change.touched ≡ record { table = table.now; columns = all_columns table.now self.now.db; old_rows = row_count table.now self.now.db; added = None }) }
    {
        let touched = self.tables.touch_whole(alloc, table)?;
        let tables = self.tables.without_rows(alloc, table, gone)?;
        Ok(Change { tables, touched })
    }

    /// Prepares other cells in some columns of a table, in the rows that have a flag: the first row
    /// with a flag gets the first cell of each set, and so on. Nothing changes yet.
    pub fn set_cells(
        &self,
        alloc: Global,
        table: &Word,
        hits: &[bool],
        sets: &[(Word, Cells)],
    ) -> Result<Change, Memory>
        requires differ { NamesDiffer self.now.db }
        requires flags { length hits.now ≡ row_count table.now self.now.db }
        ensures prepared { IfOk result (λ change. IsPrepared change self.now) }
        ensures db { IfOk result (λ change. change.content.db ≡ with_rows table.now (set_rows sets.now (columns_of table.now self.now.db) 0 hits.now (rows_of table.now self.now.db)) self.now.db) }
        ensures touched { IfOk result (λ change. change.touched ≡ record { table = table.now; columns = map (λ (set : NewCells). set.0) sets.now; old_rows = row_count table.now self.now.db; added = None }) }
    {
        let names = set_names(alloc, sets)?;
        let touched = touch(table, names, self.tables.row_count(table))?;
        let tables = self.tables.with_cells(alloc, table, hits, sets)?;
        Ok(Change { tables, touched })
    }

    /// Carries out a change that was prepared on this content. Columns that it touched and that
    /// still exist get the version that is passed, and other columns keep theirs.
    pub fn apply(&mut self, change: Change, version: u64)
        requires { IsPrepared change self.old }
        ensures db { self.new.db ≡ change.content.db }
        ensures touched { (table column : List ℕ) → is_of change.touched table column ≡ true → has_column table column self.new.db ≡ true → version_of table column self.new ≡ version }
        ensures others { (table column : List ℕ) → is_of change.touched table column ≡ false → version_of table column self.new ≡ version_of table column self.old }
    {
        let Change {
            mut tables,
            touched,
        } = change;
        tables.stamp(&touched, version);
        self.tables = tables;
    }
}

impl Snap {
    /// The version of a column at the snapshot, which is 0 where there is no such column.
    pub fn version(&self, table: &Word, column: &Word) -> u64
        ensures { result ≡ version_of table.now column.now self.now }
    {
        self.tables.version(table, column)
    }

    /// The tables without their rows, at the snapshot.
    pub fn schema(&self) -> &[Heading]
        ensures { result.now ≡ headings_of self.now.db }
    {
        self.tables.schema()
    }
}

impl Columns for Snap {
    ghost database = { λ snap. snap.db };

    fn column(
        &self,
        _alloc: Global,
        table: &Word,
        column: &Word,
    ) -> Result<Option<Shared>, Memory> {
        self.tables.column(table, column)
    }
}
