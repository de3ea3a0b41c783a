//! Tables of which one changes. The columns that stay are shared.
ghost use Rattle.std.specs.Prelude.{◌≡◌, ℕ, ◌<◌, ◌++◌, List, length, IfOk, IfSome};
ghost use Rattle.cell_core.specs.declared.table.Table.{Table};
ghost use Rattle.cell_core.specs.Tables.{named_table, row_count};
ghost use Rattle.table_columns.specs.Rows.{AreWide};
ghost use Rattle.table_columns.specs.Changed.{set_rows, unflagged};
ghost use Rattle.table_store.specs.Content.{version_of};
ghost use Rattle.table_store.specs.Changes.{NamesDiffer, columns_of, rows_of, with_last_column, with_rows};
ghost use Rattle.table_store.specs.Kept.{kept_at, rows_at};
ghost use Rattle.table_store.specs.Touches.{columns_beside, whole_columns};

use crate::tables::{StoredTables, copy_heading, heading_and};
use bat_core::{Cells, Shared};
use cell_core::{Cell, Column, Memory, Sequence, Word};
use std::alloc::Global;
use table_columns::TableColumns;

impl StoredTables {
    /// The table with this name has one more column at its end, with its default in each row.
    pub fn with_column(
        &self,
        alloc: Global,
        name: &Word,
        column: Column,
    ) -> Result<StoredTables, Memory>
        requires { NamesDiffer self.now.db }
        ensures db { IfOk result (λ tables. tables.db ≡ with_last_column name.now column self.now.db) }
        ensures others { IfOk result (λ tables. (table column : List ℕ) → version_of table column tables ≡ version_of table column self.now) }
    {
        let Some(place) = self.place(name) else {
            let same = self.share(alloc)?;
            return Ok(same);
        };
        let kept = self.kept(place).with_column(alloc, &column.default)?;
        let heading = heading_and(alloc, self.heading(place), column)?;
        let tables = self.replaced(alloc, place, heading, kept)?;
        Ok(tables)
    }

    /// The table with this name has more rows after the others.
    pub fn with_more_rows(
        &self,
        alloc: Global,
        name: &Word,
        rows: &[Sequence<Cell>],
    ) -> Result<StoredTables, Memory>
        requires differ { NamesDiffer self.now.db }
        requires wide { IfSome (named_table name.now self.now.db) (λ (table : Table). AreWide (length table.columns) rows.now) }
        ensures db { IfOk result (λ tables. tables.db ≡ with_rows name.now (rows_of name.now self.now.db ++ rows.now) self.now.db) }
        ensures others { IfOk result (λ tables. (table column : List ℕ) → version_of table column tables ≡ version_of table column self.now) }
    {
        let Some(place) = self.place(name) else {
            let same = self.share(alloc)?;
            return Ok(same);
        };
        let kept = self.kept(place).followed_by(alloc, rows)?;
        let tables = self.with_rows_at(alloc, place, kept)?;
        Ok(tables)
    }

    /// The table with this name lacks the rows that have a flag.
    pub fn without_rows(
        &self,
        alloc: Global,
        name: &Word,
        gone: &[bool],
    ) -> Result<StoredTables, Memory>
        requires differ { NamesDiffer self.now.db }
        requires flags { length gone.now ≡ row_count name.now self.now.db }
        ensures db { IfOk result (λ tables. tables.db ≡ with_rows name.now (unflagged gone.now (rows_of name.now self.now.db)) self.now.db) }
        ensures others { IfOk result (λ tables. (table column : List ℕ) → version_of table column tables ≡ version_of table column self.now) }
    {
        let Some(place) = self.place(name) else {
            let same = self.share(alloc)?;
            return Ok(same);
        };
        let kept = self.kept(place).without(alloc, gone)?;
        let tables = self.with_rows_at(alloc, place, kept)?;
        Ok(tables)
    }

    /// The table with this name has other cells in the rows that have a flag.
    pub fn with_cells(
        &self,
        alloc: Global,
        name: &Word,
        hits: &[bool],
        sets: &[(Word, Cells)],
    ) -> Result<StoredTables, Memory>
        requires differ { NamesDiffer self.now.db }
        requires flags { length hits.now ≡ row_count name.now self.now.db }
        ensures db { IfOk result (λ tables. tables.db ≡ with_rows name.now (set_rows sets.now (columns_of name.now self.now.db) 0 hits.now (rows_of name.now self.now.db)) self.now.db) }
        ensures others { IfOk result (λ tables. (table column : List ℕ) → version_of table column tables ≡ version_of table column self.now) }
    {
        let Some(place) = self.place(name) else {
            let same = self.share(alloc)?;
            return Ok(same);
        };
        let columns = self.heading(place).columns.as_slice();
        let kept = self.kept(place).with_cells(alloc, columns, hits, sets)?;
        let tables = self.with_rows_at(alloc, place, kept)?;
        Ok(tables)
    }

    /// The table at a place has other rows.
    fn with_rows_at(
        &self,
        alloc: Global,
        place: usize,
        kept: TableColumns,
    ) -> Result<StoredTables, Memory>
        requires within { place < length self.now.db.tables }
        requires width { kept.width ≡ (kept_at place self.now).width }
        requires versions { kept.versions ≡ (kept_at place self.now).versions }
        ensures tables { IfOk result (λ tables. tables.db.tables ≡ rows_at place kept.rows self.now.db.tables) }
        ensures versions { IfOk result (λ tables. tables.versions ≡ self.now.versions) }
    {
        let _beside = self.kept(place);
        let heading = copy_heading(alloc, self.heading(place))?;
        let tables = self.replaced(alloc, place, heading, kept)?;
        Ok(tables)
    }

    /// How many rows the table with this name has.
    pub fn row_count(&self, name: &Word) -> u64
        ensures { result ≡ row_count name.now self.now.db }
    {
        match self.place(name) {
            Some(place) => self.kept(place).count(),
            None => 0,
        }
    }

    /// The rows of the table with this name, as a new list.
    pub fn rows(&self, alloc: Global, name: &Word) -> Result<Sequence<Sequence<Cell>>, Memory>
        ensures { IfOk result (λ rows. rows ≡ rows_of name.now self.now.db) }
    {
        match self.place(name) {
            Some(place) => self.kept(place).rows(alloc),
            None => Ok(Sequence::new(alloc)),
        }
    }

    /// The columns of the table with this name, each under its own.
    pub fn whole_columns(
        &self,
        alloc: Global,
        name: &Word,
    ) -> Result<Sequence<(Word, Shared)>, Memory>
        ensures { IfOk result (λ named. named ≡ whole_columns name.now self.now.db) }
    {
        let Some(place) = self.place(name) else {
            return Ok(Sequence::new(alloc));
        };
        let columns = self.heading(place).columns.as_slice();
        let named = name_columns(alloc, columns, self.kept(place))?;
        Ok(named)
    }
}

/// The columns of a table, each under its name.
fn name_columns(
    alloc: Global,
    columns: &[Column],
    kept: &TableColumns,
) -> Result<Sequence<(Word, Shared)>, Memory>
    requires { length columns.now ≡ kept.now.width }
    ensures { IfOk result (λ named. named ≡ columns_beside 0 columns.now kept.now.rows) }
{
    let mut named = Vec::with_capacity(alloc, columns.len())?;
    let mut place = 0;
    let mut rest = columns;
    'columns: while let [column, more @ ..] = rest {
        let name = column.name.share()?;
        named.push((name, kept.column(place)?))?;
        place += 1;
        rest = more;
    }
    Ok(Sequence::from_vec(named))
}
