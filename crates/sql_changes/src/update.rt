//! UPDATE.
ghost use Rattle.std.specs.Prelude.{◌≡◌, ℕ, List, bytes_eq, find, map, IfOk};
ghost use Rattle.std.specs.List.{list_any};
ghost use Rattle.std.specs.Option.{option_copied, option_map};
ghost use Rattle.sql_tree.specs.Tree.{ExprTree, cond_tree, set_tree};
ghost use Rattle.sql_definitions.specs.Values.{constant_overflows as constant_overflows_of};
ghost use Rattle.sql_definitions.specs.Effect.{updated_row as updated_row_of, updated};
ghost use Rattle.sql_changes.specs.Plans.{change_of};
ghost use Rattle.sql_changes.specs.Parts.{constants_overflow as constants_overflow_of, set_at, set_cells as set_cells_of, update_refusal, updated_fate};

use crate::fate::Fate;
use crate::fault::{ValueFault, has_any_fault};
use crate::hits::{cell_of, hits, is_true_of};
use crate::plan::{PlannedChange, Work};
use cell_core::{Cell, Column, Memory, Sequence, Table, Word};
use row_values::{LentRow, cond_overflows, constant_overflows};
use sql_definitions::Refusal;
use sql_tree::{Cond, Expr};
use std::alloc::Global;

/// Whether arithmetic over constants alone leaves the range in one of the expressions.
fn do_constants_overflow(sets: &[(Word, Expr)]) -> Result<bool, Memory>
    ensures { IfOk result (λ overflows. overflows ≡ list_any constant_overflows_of (map (λ (set : List ℕ × ExprTree). set.1) (map set_tree sets.now))) }
{
    let mut rest = sets;
    'sets: while let [set, more @ ..] = rest {
        if constant_overflows(&set.1)? {
            return Ok(true);
        }
        rest = more;
    }
    Ok(false)
}

/// The same of the expressions and the condition.
fn constants_overflow(sets: &[(Word, Expr)], cond: &Option<Cond>) -> Result<bool, Memory>
    ensures { IfOk result (λ overflows. overflows ≡ constants_overflow_of (map set_tree sets.now) (option_map cond_tree cond.now)) }
{
    Ok(do_constants_overflow(sets)? || cond_overflows(cond)?)
}

/// Why an UPDATE that touches these rows is refused.
fn refusal_for(
    table: &Table,
    sets: &[(Word, Expr)],
    cond: &Option<Cond>,
    rows: &[LentRow<'_>],
) -> Result<Option<Refusal>, Memory>
    ensures { IfOk result (λ found. found ≡ update_refusal (map set_tree sets.now) (option_map cond_tree cond.now) table.now rows.now) }
{
    if has_any_fault(ValueFault::TooLong, table, sets, rows)? {
        return Ok(Some(Refusal::TextTooLong));
    }
    if has_any_fault(ValueFault::Null, table, sets, rows)? {
        return Ok(Some(Refusal::NullStored));
    }
    if constants_overflow(sets, cond)? || has_any_fault(ValueFault::Overflow, table, sets, rows)? {
        return Ok(Some(Refusal::Overflow));
    }
    Ok(None)
}

/// The first of the sets that sets this column.
fn find_set<'a>(sets: &'a [(Word, Expr)], name: &Word) -> Option<&'a (Word, Expr)>
    ensures { option_map set_tree (option_copied result) ≡ find (λ (set : List ℕ × ExprTree). bytes_eq set.0 name.now) (map set_tree sets.now) }
{
    let mut rest = sets;
    'sets: while let [set, more @ ..] = rest {
        if set.0 == *name {
            return Some(set);
        }
        rest = more;
    }
    None
}

/// The new cell of a column in a row: the value of its expression, or else the old cell.
#[tactic(auto, unfolding(crate::specs::Parts::set_at))]
fn set_cell(
    table: &Table,
    row: &LentRow<'_>,
    sets: &[(Word, Expr)],
    column: &Column,
    cell: &Cell,
) -> Result<Cell, Memory>
    ensures { IfOk result (λ new. new ≡ set_at (map set_tree sets.now) table.now row.now (column.now, cell.now)) }
{
    match find_set(sets, &column.name) {
        Some(set) => cell_of(table, row, &set.1),
        None => cell.share(),
    }
}

/// The new cells of columns in a row that has these cells there.
fn set_cells(
    alloc: Global,
    table: &Table,
    sets: &[(Word, Expr)],
    row: &LentRow<'_>,
    columns: &[Column],
    cells: &[Cell],
) -> Result<Sequence<Cell>, Memory>
    ensures { IfOk result (λ new. new ≡ set_cells_of (map set_tree sets.now) table.now row.now columns.now cells.now) }
{
    let mut new = Sequence::new(alloc);
    let (mut targets, mut rest) = (columns, cells);
    'columns: while let [column, others @ ..] = targets {
        let [cell, more @ ..] = rest else {
            return Ok(new);
        };
        new.push(set_cell(table, row, sets, column, cell)?)?;
        targets = others;
        rest = more;
    }
    Ok(new)
}

/// A row with its set cells replaced by the values of their expressions over the old row.
#[tactic(auto, unfolding(crate::specs::Parts::set_at))]
fn updated_row(
    alloc: Global,
    table: &Table,
    sets: &[(Word, Expr)],
    row: &LentRow<'_>,
) -> Result<Sequence<Cell>, Memory>
    ensures { IfOk result (λ new. new ≡ updated_row_of (map set_tree sets.now) table.now row.now) }
{
    let columns = table.columns.as_slice();
    set_cells(alloc, table, sets, row, columns, row.cells())
}

/// The fate of a row.
fn fate_of(
    alloc: Global,
    table: &Table,
    sets: &[(Word, Expr)],
    cond: &Option<Cond>,
    row: &LentRow<'_>,
) -> Result<Fate, Memory>
    ensures { IfOk result (λ fate. fate ≡ updated_fate (map set_tree sets.now) (option_map cond_tree cond.now) table.now row.now) }
{
    if is_true_of(alloc, table, cond, row)? {
        Ok(Fate::Becomes(updated_row(alloc, table, sets, row)?))
    } else {
        Ok(Fate::Stays)
    }
}

/// The fate of each row, where the condition doesn't overflow.
fn fates_of_rows(
    alloc: Global,
    table: &Table,
    sets: &[(Word, Expr)],
    cond: &Option<Cond>,
) -> Result<Sequence<Fate>, Memory>
    ensures { IfOk result (λ fates. fates ≡ map (updated_fate (map set_tree sets.now) (option_map cond_tree cond.now) table.now) table.now.rows) }
{
    let mut fates = Sequence::new(alloc);
    let mut rest = table.rows.as_slice();
    'rows: while let [row, more @ ..] = rest {
        fates.push(fate_of(alloc, table, sets, cond, &LentRow::new(row))?)?;
        rest = more;
    }
    Ok(fates)
}

/// What an UPDATE is to do to a table.
pub(crate) fn update_plan(
    alloc: Global,
    sets: &[(Word, Expr)],
    cond: &Option<Cond>,
    table: &Table,
) -> Result<PlannedChange, Memory>
    ensures { IfOk result (λ plan. change_of plan table.now.rows ≡ updated (map set_tree sets.now) (option_map cond_tree cond.now) table.now) }
{
    let rows = hits(alloc, table, cond)?;
    match refusal_for(table, sets, cond, &rows)? {
        Some(refusal) => Ok(PlannedChange::Refused(refusal)),
        None => {
            let fates = fates_of_rows(alloc, table, sets, cond)?;
            Ok(PlannedChange::Accepted(Work::Settles(fates)))
        }
    }
}
