ghost use Rattle.std.specs.Prelude.{◌≡◌, ◌++◌, IfOk, OnOk, OnErr};
ghost use Rattle.std.specs.Option.{option_copied};
ghost use Rattle.cell_core.specs.Tables.{named_table, first_named, column_place};

use crate::cell::{Cell, Kind};
use crate::memory::Memory;
use crate::sequence::Sequence;
use crate::word::Word;
use std::alloc::Global;

/// A column of a table.
pub struct Column {
    /// Its name.
    pub name: Word,
    /// The kind of its cells that aren't Nil.
    pub kind: Kind,
    /// The most characters of a text, or 0 where there is no such limit.
    pub width: u32,
    /// Whether Nil is refused.
    pub not_null: bool,
    /// The cell of a row that is given none: Nil, or of the column's kind.
    pub default: Cell,
}

// By a call of its own, so that proofs needn't go through its forms where one is dropped.
impl Drop for Column {
    fn drop(self) {
        let Column {
            name: _,
            kind: _,
            width: _,
            not_null: _,
            default: _,
        } = self;
    }
}

/// A table.
pub struct Table {
    /// Its name.
    pub name: Word,
    /// Its columns, at least one.
    pub columns: Sequence<Column>,
    /// Its rows, each with one cell for each column, in the order of their inserts.
    pub rows: Sequence<Sequence<Cell>>,
}

// By a call of its own, so that proofs needn't go through its forms where one is dropped.
impl Drop for Table {
    fn drop(self) {
        let Table {
            name: _,
            columns: _,
            rows: _,
        } = self;
    }
}

/// A database.
#[derive(Drop)]
pub struct Db {
    /// Its tables, whose names differ.
    pub tables: Sequence<Table>,
}

impl Column {
    /// An equal column, which shares the name and a default's text.
    pub fn share(&self) -> Result<Column, Memory>
        ensures { IfOk result (λ column. column ≡ self.now) }
    {
        let name = self.name.share()?;
        let default = self.default.share()?;
        Ok(Column {
            name,
            kind: self.kind,
            width: self.width,
            not_null: self.not_null,
            default,
        })
    }
}

impl Db {
    /// The table with this name, if there is one.
    pub fn table(&self, name: &Word) -> Option<&Table>
        ensures { option_copied result ≡ named_table name.now self.now }
    {
        first_table(self.tables.as_slice(), name)
    }
}

/// The first table with this name.
fn first_table<'a>(tables: &'a [Table], name: &Word) -> Option<&'a Table>
    ensures { option_copied result ≡ first_named name.now tables.now }
{
    let mut rest = tables;
    'tables: while let [table, more @ ..] = rest {
        if table.name == *name {
            return Some(table);
        }
        rest = more;
    }
    None
}

/// The place of the first column with this name, counted from 0.
pub fn find_column(columns: &[Column], name: &Word) -> Option<usize>
    ensures { result ≡ column_place name.now columns.now }
{
    let mut rest = columns;
    'columns: while let [column, more @ ..] = rest {
        if column.name == *name {
            return Some(columns.len() - rest.len());
        }
        rest = more;
    }
    None
}

/// Rows with equal cells, which share their texts.
pub fn copy_rows(alloc: Global, rows: &[Sequence<Cell>]) -> Result<Sequence<Sequence<Cell>>, Memory>
    ensures { IfOk result (λ copy. copy ≡ rows.now) }
{
    let mut copy = Vec::with_capacity(alloc, rows.len())?;
    'rows: for row in rows {
        copy.push(copy_cells(alloc, row.as_slice())?)?;
    }
    Ok(Sequence::from_vec(copy))
}

/// Equal cells, which share their texts.
pub fn copy_cells(alloc: Global, cells: &[Cell]) -> Result<Sequence<Cell>, Memory>
    ensures { IfOk result (λ copy. copy ≡ cells.now) }
{
    let mut copy = Vec::with_capacity(alloc, cells.len())?;
    'cells: for cell in cells {
        copy.push(cell.share()?)?;
    }
    Ok(Sequence::from_vec(copy))
}

/// Equal columns, which share their names.
pub fn copy_columns(alloc: Global, columns: &[Column]) -> Result<Sequence<Column>, Memory>
    ensures { IfOk result (λ copy. copy ≡ columns.now) }
{
    let mut copy = Vec::with_capacity(alloc, columns.len())?;
    'columns: for column in columns {
        copy.push(column.share()?)?;
    }
    Ok(Sequence::from_vec(copy))
}
