//! New cells that their columns refuse.
ghost use Rattle.std.specs.Prelude.{◌≡◌};
ghost use Rattle.change_plans.specs.Decisions.{is_any_refused as is_any_refused_of, is_refused_there as is_refused_there_of, is_row_refused as is_row_refused_of, refuses as refuses_of};

use cell_core::{Cell, Column, Sequence, Word};
use row_values::{is_null_refused, is_too_long};

/// What a column may refuse.
#[derive(Clone, Copy)]
pub(crate) enum ColumnFault {
    /// A text with more characters than it allows.
    TooLong,
    /// Nil.
    Null,
}

/// Whether a column refuses a cell for this fault.
fn refuses(fault: ColumnFault, column: &Column, cell: &Cell) -> bool
    ensures { result ≡ refuses_of fault column.now cell.now }
{
    match fault {
        ColumnFault::TooLong => is_too_long(column, cell),
        ColumnFault::Null => is_null_refused(column, cell),
    }
}

/// Whether the column with this name refuses a cell.
fn is_refused_there(fault: ColumnFault, columns: &[Column], name: &Word, cell: &Cell) -> bool
    ensures { result ≡ is_refused_there_of (refuses_of fault) columns.now (name.now, cell.now) }
{
    let mut rest = columns;
    'columns: while let [column, more @ ..] = rest {
        if column.name == *name && refuses(fault, column, cell) {
            return true;
        }
        rest = more;
    }
    false
}

/// Whether one of the cells is refused, each by the column with the name at its place.
fn is_row_refused(fault: ColumnFault, columns: &[Column], names: &[Word], cells: &[Cell]) -> bool
    ensures { result ≡ is_row_refused_of (refuses_of fault) columns.now names.now cells.now }
{
    let (mut named, mut rest) = (names, cells);
    'names: while let [name, others @ ..] = named {
        let [cell, more @ ..] = rest else {
            return false;
        };
        if is_refused_there(fault, columns, name, cell) {
            return true;
        }
        named = others;
        rest = more;
    }
    false
}

/// Whether one of the cells of these rows is refused.
pub(crate) fn is_any_refused(
    fault: ColumnFault,
    columns: &[Column],
    names: &[Word],
    rows: &[Sequence<Cell>],
) -> bool
    ensures { result ≡ is_any_refused_of (refuses_of fault) columns.now names.now rows.now }
{
    let mut rest = rows;
    'rows: while let [row, more @ ..] = rest {
        if is_row_refused(fault, columns, names, row.as_slice()) {
            return true;
        }
        rest = more;
    }
    false
}
