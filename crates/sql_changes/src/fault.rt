//! What may be wrong with the values that an UPDATE sets.
ghost use Rattle.std.specs.Prelude.{◌≡◌, ◌&&◌, bytes_eq, false, map, IfOk};
ghost use Rattle.std.specs.List.{list_any};
ghost use Rattle.std.specs.Option.{option_map_or};
ghost use Rattle.cell_core.specs.declared.table.Column.{Column as ColumnSeen};
ghost use Rattle.sql_tree.specs.Tree.{set_tree};
ghost use Rattle.sql_definitions.specs.Effect.{is_too_long as is_too_long_of, is_null_refused as is_null_refused_of, is_too_long_set as is_too_long_set_of, is_null_set as is_null_set_of, is_any_set};
ghost use Rattle.sql_changes.specs.Faults.{has_fault as has_fault_of, is_refused_there};

use crate::hits::{cell_of, overflows_for, value_of};
use cell_core::{Cell, Column, Memory, Table, Word};
use row_values::{LentRow, is_null_refused, is_too_long};
use sql_tree::Expr;

/// What may be wrong with a value for a row.
#[derive(Clone, Copy)]
pub(crate) enum ValueFault {
    /// It is a text that is too long for its column.
    TooLong,
    /// It is Nil, which its column refuses.
    Null,
    /// There is none, since an operator leaves the range.
    Overflow,
}

/// Whether a value is too long for the column with this name.
fn is_too_long_for(columns: &[Column], name: &Word, cell: &Cell) -> bool
    ensures { result ≡ list_any (λ (column : ColumnSeen). bytes_eq column.name name.now && is_too_long_of column cell.now) columns.now }
{
    let mut rest = columns;
    'columns: while let [column, more @ ..] = rest {
        if column.name == *name && is_too_long(column, cell) {
            return true;
        }
        rest = more;
    }
    false
}

/// Whether a value is too long for the column that is set to it.
fn is_too_long_set(table: &Table, row: &LentRow<'_>, set: &(Word, Expr)) -> Result<bool, Memory>
    ensures { IfOk result (λ long. long ≡ is_too_long_set_of table.now row.now (set_tree set.now)) }
{
    let cell = cell_of(table, row, &set.1)?;
    Ok(is_too_long_for(table.columns.as_slice(), &set.0, &cell))
}

/// Whether a column refuses a value, if there is one, since it is Nil.
fn is_refused_value(column: &Column, value: &Option<Cell>) -> bool
    ensures { result ≡ option_map_or (is_null_refused_of column.now) value.now false }
{
    match value {
        Some(cell) => is_null_refused(column, cell),
        None => false,
    }
}

/// Whether the column with this name refuses a value.
fn is_refused_for(columns: &[Column], name: &Word, value: &Option<Cell>) -> bool
    ensures { result ≡ is_refused_there name.now value.now columns.now }
{
    let mut rest = columns;
    'columns: while let [column, more @ ..] = rest {
        if column.name == *name && is_refused_value(column, value) {
            return true;
        }
        rest = more;
    }
    false
}

/// Whether the column that is set refuses its value.
fn is_null_set(table: &Table, row: &LentRow<'_>, set: &(Word, Expr)) -> Result<bool, Memory>
    ensures { IfOk result (λ null. null ≡ is_null_set_of table.now row.now (set_tree set.now)) }
{
    let value = value_of(table, row, &set.1)?;
    Ok(is_refused_for(table.columns.as_slice(), &set.0, &value))
}

/// Whether the value for a row has this fault.
fn has_fault(
    fault: ValueFault,
    table: &Table,
    row: &LentRow<'_>,
    set: &(Word, Expr),
) -> Result<bool, Memory>
    ensures { IfOk result (λ has. has ≡ has_fault_of fault table.now row.now (set_tree set.now)) }
{
    match fault {
        ValueFault::TooLong => is_too_long_set(table, row, set),
        ValueFault::Null => is_null_set(table, row, set),
        ValueFault::Overflow => overflows_for(table, row, &set.1),
    }
}

/// Whether one of the values for a row has it.
fn has_row_fault(
    fault: ValueFault,
    table: &Table,
    row: &LentRow<'_>,
    sets: &[(Word, Expr)],
) -> Result<bool, Memory>
    ensures { IfOk result (λ has. has ≡ list_any (has_fault_of fault table.now row.now) (map set_tree sets.now)) }
{
    let mut rest = sets;
    'sets: while let [set, more @ ..] = rest {
        if has_fault(fault, table, row, set)? {
            return Ok(true);
        }
        rest = more;
    }
    Ok(false)
}

/// Whether one of the values for these rows has it.
pub(crate) fn has_any_fault(
    fault: ValueFault,
    table: &Table,
    sets: &[(Word, Expr)],
    rows: &[LentRow<'_>],
) -> Result<bool, Memory>
    ensures { IfOk result (λ has. has ≡ is_any_set (has_fault_of fault table.now) (map set_tree sets.now) rows.now) }
{
    let mut rest = rows;
    'rows: while let [row, more @ ..] = rest {
        if has_row_fault(fault, table, row, sets)? {
            return Ok(true);
        }
        rest = more;
    }
    Ok(false)
}
