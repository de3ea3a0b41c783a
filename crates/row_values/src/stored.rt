//! Cells that their column refuses: texts that are too long, and Nil.
ghost use Rattle.std.specs.Prelude.{◌≡◌, chars, length, zip};
ghost use Rattle.std.specs.List.{list_any};
ghost use Rattle.sql_definitions.specs.Effect.{is_long_default, is_null_refused as is_null_refused_of, is_null_row as is_null_row_of, is_too_long as is_too_long_of, is_too_long_row as is_too_long_row_of};

use cell_core::{Cell, Column, Sequence};

/// How many characters a text has.
fn character_count(text: &str) -> usize
    ensures { result ≡ length (chars text.now) }
{
    text.chars().count()
}

/// Whether a text has more characters than its column allows.
pub fn is_too_long(column: &Column, cell: &Cell) -> bool
    ensures { result ≡ is_too_long_of column.now cell.now }
{
    match cell {
        Cell::Text(word) => {
            column.width != 0 && (column.width as usize) < character_count(word.text())
        }
        _ => false,
    }
}

/// Whether the default of one of the columns is too long for it.
pub fn has_long_default(columns: &[Column]) -> bool
    ensures { result ≡ list_any is_long_default columns.now }
{
    columns
        .iter()
        .any(|column| is_too_long(column, &column.default))
}

/// Whether a cell is Nil and its column refuses that.
pub fn is_null_refused(column: &Column, cell: &Cell) -> bool
    ensures { result ≡ is_null_refused_of column.now cell.now }
{
    column.not_null && matches!(cell, Cell::Nil)
}

/// Whether a value of a row is too long for its column.
fn is_too_long_row(columns: &[Column], row: &[Cell]) -> bool
    ensures { result ≡ is_too_long_row_of columns.now row.now }
{
    let (mut targets, mut cells) = (columns, row);
    'columns: while let [column, others @ ..] = targets {
        let [cell, more @ ..] = cells else {
            return false;
        };
        if is_too_long(column, cell) {
            return true;
        }
        targets = others;
        cells = more;
    }
    false
}

/// Whether one of the rows has a value that is too long for its column.
pub fn are_rows_too_long(columns: &[Column], rows: &[Sequence<Cell>]) -> bool
    ensures { result ≡ list_any (is_too_long_row_of columns.now) rows.now }
{
    let mut rest = rows;
    'rows: while let [row, more @ ..] = rest {
        if is_too_long_row(columns, row.as_slice()) {
            return true;
        }
        rest = more;
    }
    false
}

/// Whether a row has Nil for a column that refuses it.
fn is_null_row(columns: &[Column], row: &[Cell]) -> bool
    ensures { result ≡ is_null_row_of columns.now row.now }
{
    let (mut targets, mut cells) = (columns, row);
    'columns: while let [column, others @ ..] = targets {
        let [cell, more @ ..] = cells else {
            return false;
        };
        if is_null_refused(column, cell) {
            return true;
        }
        targets = others;
        cells = more;
    }
    false
}

/// Whether one of the rows has Nil for a column that refuses it.
pub fn has_null_row(columns: &[Column], rows: &[Sequence<Cell>]) -> bool
    ensures { result ≡ list_any (is_null_row_of columns.now) rows.now }
{
    let mut rest = rows;
    'rows: while let [row, more @ ..] = rest {
        if is_null_row(columns, row.as_slice()) {
            return true;
        }
        rest = more;
    }
    false
}
