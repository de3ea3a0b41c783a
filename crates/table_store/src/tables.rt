//! Tables kept as columns.
ghost use Rattle.std.specs.Prelude.{◌≡◌, ℕ, ◌<◌, List, [], ◌∷◌, ◌++◌, ◌&&◌, length, map, true, false, bytes_eq, slice_index_or, slice_set, None, IfOk, IfSome};
ghost use Rattle.std.specs.List.{list_any};
ghost use Rattle.std.specs.Option.{option_map, option_and_then};
ghost use Rattle.cell_core.specs.declared.table.Table.{Table as TableSeen};
ghost use Rattle.cell_core.specs.Pairs.{numbered};
ghost use Rattle.cell_core.specs.Relations.{bound, column_cells};
ghost use Rattle.cell_core.specs.Tables.{all_columns, column_place, first_named, has_column, names_in, row_count};
ghost use Rattle.table_columns.specs.Rows.{KeptTable};
ghost use Rattle.table_store.specs.Content.{column_version, version_in, version_of};
ghost use Rattle.table_store.specs.Changes.{with_table, without_table};
ghost use Rattle.table_store.specs.Headings.{headings_of};
ghost use Rattle.table_store.specs.Kept.{AreKept, IsKept, headings_without, heading_at, heading_place, kept_at, kept_without, stamped_at, table_from, table_place, tables_from};
ghost use Rattle.pool_policy.specs.Versions.{is_of};

use crate::heading::Heading;
use bat_core::Shared;
use cell_core::{Column, Memory, Sequence, Word, copy_columns, find_column};
use pool_policy::Touched;
use std::alloc::Global;
use std::marker::Model;
use table_columns::TableColumns;

/// Tables without their rows, each with its columns. Contracts see the database with the versions
/// of its columns.
pub(crate) struct StoredTables {
    headings: Vec<Heading>,
    kept: Vec<TableColumns>,
}

// By a call of its own, so that proofs needn't go through its forms where one is dropped.
impl Drop for StoredTables {
    fn drop(self) {
        let StoredTables {
            headings: _,
            kept: _,
        } = self;
    }
}

impl Model for StoredTables {
    ghost use Rattle.table_store.specs.Content.{Content};
    ghost use Rattle.table_store.specs.Kept.{AreKept, content_from};

    ghost Value = { Content };

    ghost view = { λ t. content_from t.headings.items t.kept.items };

    ghost invariant = { λ t. AreKept t.headings.items t.kept.items };
}

impl StoredTables {
    /// No tables.
    pub fn new(alloc: Global) -> StoredTables
        ensures db { result.db ≡ record { tables = [] } }
        ensures versions { result.versions ≡ [] }
    {
        StoredTables {
            headings: Vec::new(alloc),
            kept: Vec::new(alloc),
        }
    }

    /// The tables without their rows.
    pub fn schema(&self) -> &[Heading]
        ensures { result.now ≡ headings_of self.now.db }
    {
        &self.headings
    }

    /// The version of a column, or 0 where there is none.
    pub fn version(&self, table: &Word, column: &Word) -> u64
        ensures { result ≡ version_of table.now column.now self.now }
    {
        version_among(&self.headings, &self.kept, table, column)
    }

    /// A column, if it exists.
    pub fn column(&self, table: &Word, column: &Word) -> Result<Option<Shared>, Memory>
        ensures { IfOk result (λ found. found ≡ bound table.now column.now self.now.db) }
    {
        column_among(&self.headings, &self.kept, table, column)
    }

    /// The same tables, whose columns both share.
    pub fn share(&self, alloc: Global) -> Result<StoredTables, Memory>
        ensures { IfOk result (λ tables. tables ≡ self.now) }
    {
        let headings = copy_headings(alloc, &self.headings)?;
        let kept = share_all(alloc, &self.kept)?;
        Ok(StoredTables { headings, kept })
    }

    /// These tables, followed by one more without rows.
    pub fn with(&self, alloc: Global, heading: Heading) -> Result<StoredTables, Memory>
        ensures db { IfOk result (λ tables. tables.db ≡ with_table heading.name heading.columns self.now.db) }
        ensures others { IfOk result (λ tables. (table column : List ℕ) → version_of table column tables ≡ version_of table column self.now) }
    {
        let empty = TableColumns::new(alloc, heading.columns.as_slice().len())?;
        let mut headings = copy_headings(alloc, &self.headings)?;
        let mut kept = share_all(alloc, &self.kept)?;
        headings.push(heading)?;
        kept.push(empty)?;
        Ok(StoredTables { headings, kept })
    }

    /// These tables but those with this name.
    pub fn without(&self, alloc: Global, name: &Word) -> Result<StoredTables, Memory>
        ensures db { IfOk result (λ tables. tables.db ≡ without_table name.now self.now.db) }
        ensures others { IfOk result (λ tables. (table column : List ℕ) → (bytes_eq table name.now && list_any (bytes_eq column) (all_columns name.now self.now.db)) ≡ false → version_of table column tables ≡ version_of table column self.now) }
    {
        let headings = headings_but(alloc, &self.headings, name)?;
        let kept = kept_but(alloc, &self.headings, &self.kept, name)?;
        Ok(StoredTables { headings, kept })
    }

    /// `Touched` for all of a table.
    pub fn touch_whole(&self, alloc: Global, name: &Word) -> Result<Touched, Memory>
        ensures { IfOk result (λ touched. touched ≡ record { table = name.now; columns = all_columns name.now self.now.db; old_rows = row_count name.now self.now.db; added = None }) }
    {
        touch_among(alloc, &self.headings, &self.kept, name)
    }

    /// The place of the first table with this name.
    pub fn place(&self, name: &Word) -> Option<usize>
        ensures place { result ≡ table_place name.now self.now.db.tables }
        ensures within { IfSome result (λ place. place < length self.now.db.tables) }
    {
        find_place(&self.headings, name)
    }

    /// The table at a place, without its rows.
    pub fn heading(&self, place: usize) -> &Heading
        requires { place < length self.now.db.tables }
        ensures { result.now ≡ heading_at place self.now.db }
    {
        heading_in(&self.headings, place)
    }

    /// What is kept of the table at a place.
    pub fn kept(&self, place: usize) -> &TableColumns
        requires { place < length self.now.db.tables }
        ensures kept { result.now ≡ kept_at place self.now }
        ensures beside { length result.now.versions ≡ result.now.width }
    {
        kept_in(&self.kept, place)
    }

    /// These tables, whose columns both share, with another in place of that at a place.
    pub fn replaced(
        &self,
        alloc: Global,
        place: usize,
        heading: Heading,
        table: TableColumns,
    ) -> Result<StoredTables, Memory>
        requires within { place < length self.now.db.tables }
        requires kept { IsKept heading table }
        ensures tables { IfOk result (λ tables. tables.db.tables ≡ slice_set self.now.db.tables place (table_from heading table)) }
        ensures versions { IfOk result (λ tables. tables.versions ≡ slice_set self.now.versions place table.versions) }
    {
        let mut headings = copy_headings(alloc, &self.headings)?;
        let mut kept = share_all(alloc, &self.kept)?;
        headings[place] = heading;
        kept[place] = table;
        Ok(StoredTables { headings, kept })
    }

    /// Sets the version of the touched columns.
    pub fn stamp(&mut self, touched: &Touched, version: u64)
        ensures db { self.new.db ≡ self.old.db }
        ensures touched { (table column : List ℕ) → is_of touched.now table column ≡ true → has_column table column self.new.db ≡ true → version_of table column self.new ≡ version }
        ensures others { (table column : List ℕ) → is_of touched.now table column ≡ false → version_of table column self.new ≡ version_of table column self.old }
    {
        let Some(place) = find_place(&self.headings, &touched.table) else {
            return;
        };
        stamp_at(
            &self.headings,
            &mut self.kept,
            place,
            touched.columns.as_slice(),
            version,
        );
    }
}

/// The table at a place, without its rows.
fn heading_in(headings: &[Heading], place: usize) -> &Heading
    requires { place < length headings.now }
    ensures { result.now ≡ slice_index_or headings.now place result.now }
{
    &headings[place]
}

/// What is kept of the table at a place.
fn kept_in(kept: &[TableColumns], place: usize) -> &TableColumns
    requires { place < length kept.now }
    ensures { result.now ≡ slice_index_or kept.now place result.now }
{
    &kept[place]
}

/// Sets the version of columns of the table at a place.
fn stamp_at(
    headings: &[Heading],
    kept: &mut [TableColumns],
    place: usize,
    names: &[Word],
    version: u64,
)
    requires are { AreKept headings.now kept.old }
    requires within { place < length headings.now }
    ensures { kept.new ≡ stamped_at names.now version headings.now place kept.old }
{
    kept[place].stamp(headings[place].columns.as_slice(), names, version);
}

/// The version of a column of the first table with this name.
fn version_among(headings: &[Heading], kept: &[TableColumns], table: &Word, column: &Word) -> u64
    ensures { result ≡ version_in table.now column.now (tables_from headings.now kept.now) (map (λ (k : KeptTable). k.versions) kept.now) }
{
    let (mut names, mut rest) = (headings, kept);
    'tables: while let [heading, others @ ..] = names {
        let [first, more @ ..] = rest else {
            return 0;
        };
        if heading.name == *table {
            return version_at(heading.columns.as_slice(), first.versions(), column);
        }
        names = others;
        rest = more;
    }
    0
}

/// The version beside the first column with this name.
fn version_at(columns: &[Column], versions: &[u64], name: &Word) -> u64
    ensures { result ≡ column_version name.now columns.now versions.now }
{
    let (mut names, mut rest) = (columns, versions);
    'columns: while let [column, others @ ..] = names {
        let [version, more @ ..] = rest else {
            return 0;
        };
        if column.name == *name {
            return *version;
        }
        names = others;
        rest = more;
    }
    0
}

/// A column of the first table with this name.
fn column_among(
    headings: &[Heading],
    kept: &[TableColumns],
    table: &Word,
    column: &Word,
) -> Result<Option<Shared>, Memory>
    requires { AreKept headings.now kept.now }
    ensures { IfOk result (λ found. found ≡ option_and_then (λ (t : TableSeen). option_map (λ place. numbered (column_cells place t.rows)) (column_place column.now t.columns)) (first_named table.now (tables_from headings.now kept.now))) }
{
    let (mut names, mut rest) = (headings, kept);
    'tables: while let [heading, others @ ..] = names {
        let [first, more @ ..] = rest else {
            return Ok(None);
        };
        if heading.name == *table {
            return column_at(heading, first, column);
        }
        names = others;
        rest = more;
    }
    Ok(None)
}

/// A column of a table.
fn column_at(heading: &Heading, kept: &TableColumns, name: &Word) -> Result<Option<Shared>, Memory>
    requires { IsKept heading.now kept.now }
    ensures { IfOk result (λ found. found ≡ option_map (λ place. numbered (column_cells place (table_from heading.now kept.now).rows)) (column_place name.now heading.now.columns)) }
{
    let Some(place) = find_column(heading.columns.as_slice(), name) else {
        return Ok(None);
    };
    let column = kept.column(place)?;
    Ok(Some(column))
}

/// `Touched` for all of the first table with this name.
fn touch_among(
    alloc: Global,
    headings: &[Heading],
    kept: &[TableColumns],
    name: &Word,
) -> Result<Touched, Memory>
    ensures { IfOk result (λ touched. touched ≡ record { table = name.now; columns = all_columns name.now (record { tables = tables_from headings.now kept.now }); old_rows = row_count name.now (record { tables = tables_from headings.now kept.now }); added = None }) }
{
    let (mut names, mut rest) = (headings, kept);
    'tables: while let [heading, others @ ..] = names {
        let [first, more @ ..] = rest else {
            return touch_none(alloc, name);
        };
        if heading.name == *name {
            return touch_one(alloc, name, heading.columns.as_slice(), first.count());
        }
        names = others;
        rest = more;
    }
    touch_none(alloc, name)
}

/// `Touched` for all of a table.
pub(crate) fn touch_one(
    alloc: Global,
    name: &Word,
    columns: &[Column],
    old_rows: u64,
) -> Result<Touched, Memory>
    ensures { IfOk result (λ touched. touched ≡ record { table = name.now; columns = names_in columns.now; old_rows = old_rows; added = None }) }
{
    Ok(Touched {
        table: name.share()?,
        columns: names_of(alloc, columns)?,
        old_rows,
        added: None,
    })
}

/// `Touched` for a table which doesn't exist.
fn touch_none(alloc: Global, name: &Word) -> Result<Touched, Memory>
    ensures { IfOk result (λ touched. touched ≡ record { table = name.now; columns = []; old_rows = 0; added = None }) }
{
    Ok(Touched {
        table: name.share()?,
        columns: Sequence::new(alloc),
        old_rows: 0,
        added: None,
    })
}

/// The same tables without their rows.
fn copy_headings(alloc: Global, headings: &[Heading]) -> Result<Vec<Heading>, Memory>
    ensures { IfOk result (λ copy. copy.items ≡ headings.now) }
{
    let mut copy = Vec::new(alloc);
    let mut rest = headings;
    'tables: while let [heading, more @ ..] = rest {
        copy.push(copy_heading(alloc, heading)?)?;
        rest = more;
    }
    Ok(copy)
}

/// The same table without its rows.
pub(crate) fn copy_heading(alloc: Global, heading: &Heading) -> Result<Heading, Memory>
    ensures { IfOk result (λ copy. copy ≡ heading.now) }
{
    Ok(Heading {
        name: heading.name.share()?,
        columns: copy_columns(alloc, heading.columns.as_slice())?,
    })
}

/// A table without its rows, with one more column at its end.
pub(crate) fn heading_and(
    alloc: Global,
    heading: &Heading,
    column: Column,
) -> Result<Heading, Memory>
    ensures { IfOk result (λ longer. longer ≡ record heading.now { columns = heading.now.columns ++ column ∷ [] }) }
{
    let name = heading.name.share()?;
    let mut columns = copy_columns(alloc, heading.columns.as_slice())?;
    columns.push(column)?;
    Ok(Heading { name, columns })
}

/// The same columns of each table, which both share.
fn share_all(alloc: Global, kept: &[TableColumns]) -> Result<Vec<TableColumns>, Memory>
    ensures { IfOk result (λ copy. copy.items ≡ kept.now) }
{
    let mut copy = Vec::with_capacity(alloc, kept.len())?;
    'tables: for table in kept {
        copy.push(table.share(alloc)?)?;
    }
    Ok(copy)
}

/// The tables that don't have this name, without their rows.
fn headings_but(alloc: Global, headings: &[Heading], name: &Word) -> Result<Vec<Heading>, Memory>
    ensures { IfOk result (λ left. left.items ≡ headings_without name.now headings.now) }
{
    let mut left = Vec::new(alloc);
    let mut rest = headings;
    'tables: while let [heading, more @ ..] = rest {
        if heading.name != *name {
            left.push(copy_heading(alloc, heading)?)?;
        }
        rest = more;
    }
    Ok(left)
}

/// The columns of the tables that don't have this name.
fn kept_but(
    alloc: Global,
    headings: &[Heading],
    kept: &[TableColumns],
    name: &Word,
) -> Result<Vec<TableColumns>, Memory>
    ensures { IfOk result (λ left. left.items ≡ kept_without name.now headings.now kept.now) }
{
    let mut left = Vec::new(alloc);
    let (mut names, mut rest) = (headings, kept);
    'tables: while let [heading, others @ ..] = names {
        let [first, more @ ..] = rest else {
            return Ok(left);
        };
        if heading.name != *name {
            left.push(first.share(alloc)?)?;
        }
        names = others;
        rest = more;
    }
    Ok(left)
}

/// The place of the first table with this name.
fn find_place(headings: &[Heading], name: &Word) -> Option<usize>
    ensures place { result ≡ heading_place name.now headings.now }
    ensures within { IfSome result (λ place. place < length headings.now) }
{
    let mut rest = headings;
    'tables: while let [heading, more @ ..] = rest {
        if heading.name == *name {
            return Some(headings.len() - rest.len());
        }
        rest = more;
    }
    None
}

fn names_of(alloc: Global, columns: &[Column]) -> Result<Sequence<Word>, Memory>
    ensures { IfOk result (λ names. names ≡ names_in columns.now) }
{
    let mut names = Vec::with_capacity(alloc, columns.len())?;
    'columns: for column in columns {
        names.push(column.name.share()?)?;
    }
    Ok(Sequence::from_vec(names))
}
