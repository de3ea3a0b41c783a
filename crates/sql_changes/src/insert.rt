//! INSERT.
ghost use Rattle.std.specs.Prelude.{◌≡◌, ◌+◌, bytes_eq, length, map, nat_lt, slice_index_or, IfOk};
ghost use Rattle.std.specs.List.{position_or_len};
ghost use Rattle.cell_core.specs.declared.table.Column.{Column as ColumnSeen};
ghost use Rattle.cell_core.specs.declared.table.Table.{Table as TableSeen};
ghost use Rattle.sql_definitions.specs.Effect.{inserted, placed, row_limit};
ghost use Rattle.sql_changes.specs.Added.{added_rows, added_to, by_name};
ghost use Rattle.sql_changes.specs.Plans.{change_of};
ghost use Rattle.sql_changes.specs.Parts.{insert_refusal};

use crate::plan::{PlannedChange, Work};
use cell_core::{Cell, Column, Memory, Sequence, Table, Word, copy_rows, word_of};
use row_values::{are_rows_too_long, has_null_row};
use sql_definitions::{Refusal, targets};
use std::alloc::Global;

/// The most rows of a table.
const ROW_LIMIT: usize = 1_048_576;

/// The rows that an INSERT adds to a table, each with one cell for each column.
pub enum AddedRows<'a> {
    /// Those of the statement as they are.
    Lent(&'a [Sequence<Cell>]),
    /// Rows with their values in their columns' places.
    Made(Sequence<Sequence<Cell>>),
}

// By a call of its own, so that proofs needn't go through its forms where one is dropped.
impl<'a> Drop for AddedRows<'a> {
    fn drop(self) {
        match self {
            AddedRows::Lent(_) | AddedRows::Made(_) => {}
        }
    }
}

impl AddedRows<'_> {
    /// The rows.
    pub fn as_slice(&self) -> &[Sequence<Cell>]
        ensures { result.now ≡ added_rows self.now }
    {
        match self {
            AddedRows::Lent(rows) => rows,
            AddedRows::Made(rows) => rows.as_slice(),
        }
    }

    /// The rows, to keep them.
    fn into_rows(self, alloc: Global) -> Result<Sequence<Sequence<Cell>>, Memory>
        ensures { IfOk result (λ rows. rows ≡ added_rows self.entry) }
    {
        match self {
            AddedRows::Lent(rows) => copy_rows(alloc, rows),
            AddedRows::Made(rows) => Ok(rows),
        }
    }
}

/// The place of a name in a list, or the list's length.
fn place_of(listed: &[Word], name: &Word) -> usize
    ensures { result ≡ position_or_len (bytes_eq name.now) listed.now }
{
    let mut rest = listed;
    'names: while let [first, more @ ..] = rest {
        if *name == *first {
            return listed.len() - rest.len();
        }
        rest = more;
    }
    listed.len()
}

/// The value that a row has for a column, or the column's default where it has none.
fn placed_cell(listed: &[Word], row: &[Cell], column: &Column) -> Result<Cell, Memory>
    ensures { IfOk result (λ cell. cell ≡ slice_index_or row.now (position_or_len (bytes_eq column.now.name) listed.now) column.now.default) }
{
    match row.get(place_of(listed, &column.name)) {
        Some(cell) => cell.share(),
        None => column.default.share(),
    }
}

/// The values that a row has for the columns, each in its column's place.
fn placed_row(
    alloc: Global,
    columns: &[Column],
    listed: &[Word],
    row: &[Cell],
) -> Result<Sequence<Cell>, Memory>
    ensures { IfOk result (λ cells. cells ≡ by_name columns.now listed.now row.now) }
{
    let mut cells = Sequence::new(alloc);
    let mut rest = columns;
    'columns: while let [column, more @ ..] = rest {
        cells.push(placed_cell(listed, row, column)?)?;
        rest = more;
    }
    Ok(cells)
}

/// The rows, each with its values in their columns' places.
fn placed_rows(
    alloc: Global,
    columns: &[Column],
    listed: &[Word],
    rows: &[Sequence<Cell>],
) -> Result<Sequence<Sequence<Cell>>, Memory>
    ensures { IfOk result (λ out. out ≡ map (by_name columns.now listed.now) rows.now) }
{
    let mut out = Sequence::new(alloc);
    let mut rest = rows;
    'rows: while let [row, more @ ..] = rest {
        out.push(placed_row(alloc, columns, listed, row.as_slice())?)?;
        rest = more;
    }
    Ok(out)
}

/// The rows that a table gets: the same where no columns are listed.
fn rows_in_place<'a>(
    alloc: Global,
    columns: &[Column],
    listed: &[Word],
    rows: &'a [Sequence<Cell>],
) -> Result<AddedRows<'a>, Memory>
    ensures { IfOk result (λ added. added_rows added ≡ map (placed columns.now listed.now) rows.entry.now) }
{
    if listed.is_empty() {
        Ok(AddedRows::Lent(rows))
    } else {
        Ok(AddedRows::Made(placed_rows(alloc, columns, listed, rows)?))
    }
}

/// Whether a table has more rows than it may, with so many more.
fn passes_limit(rows: usize, more: usize) -> bool
    ensures { result ≡ nat_lt row_limit (rows + more) }
{
    more > ROW_LIMIT || rows > ROW_LIMIT - more
}

/// Why an INSERT is refused whose values go to these columns, and make these rows of a table with
/// other columns and so many rows.
fn refusal_for(
    alloc: Global,
    targets: &[Column],
    rows: &[Sequence<Cell>],
    placed: &[Sequence<Cell>],
    columns: &[Column],
    count: usize,
) -> Result<Option<Refusal>, Memory>
    ensures { IfOk result (λ found. found ≡ insert_refusal targets.now rows.now placed.now columns.now count) }
{
    if are_rows_too_long(targets, rows) {
        return Ok(Some(Refusal::TextTooLong));
    }
    if has_null_row(columns, placed) {
        return Ok(Some(Refusal::NullStored));
    }
    if passes_limit(count, rows.len()) {
        return Ok(Some(Refusal::Limit(word_of(alloc, "rows")?)));
    }
    Ok(None)
}

/// The rows that an INSERT adds to a table with these columns and so many rows, or why it is refused. They
/// are those of the statement, without a copy, where it lists no columns.
pub fn rows_to_add<'a>(
    alloc: Global,
    columns: &[Column],
    listed: &[Word],
    rows: &'a [Sequence<Cell>],
    count: usize,
) -> Result<Result<AddedRows<'a>, Refusal>, Memory>
    ensures { IfOk result (λ added. (table : TableSeen) → table.columns ≡ columns.now → length table.rows ≡ count → added_to table added ≡ inserted listed.now rows.entry.now table) }
{
    let targets = targets(alloc, columns, listed)?;
    let placed = rows_in_place(alloc, columns, listed, rows)?;
    match refusal_for(
        alloc,
        targets.as_slice(),
        rows,
        placed.as_slice(),
        columns,
        count,
    )? {
        Some(refusal) => Ok(Err(refusal)),
        None => Ok(Ok(placed)),
    }
}

/// What an INSERT is to do to a table.
pub(crate) fn insert_plan(
    alloc: Global,
    listed: &[Word],
    rows: &[Sequence<Cell>],
    table: &Table,
) -> Result<PlannedChange, Memory>
    ensures { IfOk result (λ plan. change_of plan table.now.rows ≡ inserted listed.now rows.now table.now) }
{
    let columns = table.columns.as_slice();
    match rows_to_add(alloc, columns, listed, rows, table.rows.len())? {
        Err(refusal) => Ok(PlannedChange::Refused(refusal)),
        Ok(added) => Ok(PlannedChange::Accepted(Work::Adds(added.into_rows(alloc)?))),
    }
}
