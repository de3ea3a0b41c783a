//! The rows of which the condition of a change is true, and expressions over a row.
ghost use Rattle.std.specs.Prelude.{◌≡◌, [], ◌∷◌, filter, is_none, IfOk};
ghost use Rattle.std.specs.Option.{option_map};
ghost use Rattle.sql_tree.specs.Tree.{cond_tree, expr_tree};
ghost use Rattle.sql_definitions.specs.Values.{value as value_in, cell_over as cell_over_of};
ghost use Rattle.sql_definitions.specs.Kept.{is_kept as is_kept_of};
ghost use Rattle.sql_definitions.specs.Effect.{own_table, is_hit};

use cell_core::{Cell, Memory, Table};
use row_values::{LentRow, cell_over, cond_overflows, is_kept, overflows_over, value_over};
use sql_definitions::Called;
use sql_tree::{Cond, Expr};
use std::alloc::Global;

/// The one table of a change, under its own name.
fn own_called(table: &Table) -> Called<'_>
    ensures { result ∷ [] ≡ own_table table.now }
{
    Called::new(&table.name, &table.columns)
}

/// Whether a condition that doesn't overflow is true of a row.
pub(crate) fn is_true_of(
    alloc: Global,
    table: &Table,
    cond: &Option<Cond>,
    row: &LentRow<'_>,
) -> Result<bool, Memory>
    ensures { IfOk result (λ is_true. is_true ≡ is_kept_of (own_table table.now) (option_map cond_tree cond.now) (row.now ∷ [])) }
{
    is_kept(alloc, &[own_called(table)], cond, &[row.again()])
}

/// The cell of an expression over a row.
pub(crate) fn cell_of(table: &Table, row: &LentRow<'_>, expr: &Expr) -> Result<Cell, Memory>
    ensures { IfOk result (λ cell. cell ≡ cell_over_of (own_table table.now) (row.now ∷ []) (expr_tree expr.now)) }
{
    cell_over(&[own_called(table)], &[row.again()], expr)
}

/// The value of an expression over a row, or none where it leaves the range.
pub(crate) fn value_of(
    table: &Table,
    row: &LentRow<'_>,
    expr: &Expr,
) -> Result<Option<Cell>, Memory>
    ensures { IfOk result (λ value. value ≡ value_in (own_table table.now) (row.now ∷ []) (expr_tree expr.now)) }
{
    value_over(&[own_called(table)], &[row.again()], expr)
}

/// Whether an expression leaves the range for a row.
pub(crate) fn overflows_for(table: &Table, row: &LentRow<'_>, expr: &Expr) -> Result<bool, Memory>
    ensures { IfOk result (λ overflows. overflows ≡ is_none (value_in (own_table table.now) (row.now ∷ []) (expr_tree expr.now))) }
{
    overflows_over(&[own_called(table)], &[row.again()], expr)
}

/// The rows of which the condition is true, in order; none where it overflows.
pub(crate) fn hits<'a>(
    alloc: Global,
    table: &'a Table,
    cond: &Option<Cond>,
) -> Result<Vec<LentRow<'a>>, Memory>
    ensures { IfOk result (λ hits. hits.items ≡ filter (is_hit (option_map cond_tree cond.now) table.now) table.now.rows) }
{
    let mut hits = Vec::new(alloc);
    if cond_overflows(cond)? {
        return Ok(hits);
    }
    let mut rest = table.rows.as_slice();
    'rows: while let [row, more @ ..] = rest {
        let row = LentRow::new(row);
        if is_true_of(alloc, table, cond, &row)? {
            hits.push(row)?;
        }
        rest = more;
    }
    Ok(hits)
}
