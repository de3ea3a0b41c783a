//! The values of expressions over a choice of rows.
ghost use Rattle.std.specs.Prelude.{◌≡◌, is_none, IfOk};
ghost use Rattle.std.specs.Option.{option_copied};
ghost use Rattle.sql_tree.specs.Tree.{expr_tree};
ghost use Rattle.sql_definitions.specs.References.{is_constant as is_constant_of};
ghost use Rattle.sql_definitions.specs.Values.{cell_at as cell_at_of, column_cell as column_cell_of, value as value_of, cell_over as cell_over_of, constant_overflows as constant_overflows_of};

use crate::calc::calculate;
use crate::row::LentRow;
use cell_core::{Cell, Memory};
use sql_definitions::{Called, column_place};
use sql_tree::{ColRef, Expr};

/// The cell of the column that a reference means, which is Nil where it means none.
pub fn column_cell(
    sources: &[Called<'_>],
    choice: &[LentRow<'_>],
    reference: &ColRef,
) -> Result<Cell, Memory>
    ensures { IfOk result (λ cell. cell ≡ column_cell_of sources.now choice.now reference.now) }
{
    let place = column_place(sources, reference.table.as_ref(), &reference.column);
    let Some(place) = place else {
        return Ok(Cell::Nil);
    };
    let Some(cell) = cell_at(choice, place) else {
        return Ok(Cell::Nil);
    };
    let cell = cell.share()?;
    Ok(cell)
}

/// The cell at a place of a choice.
fn cell_at<'a>(choice: &[LentRow<'a>], place: (usize, usize)) -> Option<&'a Cell>
    ensures { option_copied result ≡ cell_at_of choice.now place }
{
    match choice.get(place.0) {
        Some(row) => row.cells().get(place.1),
        None => None,
    }
}

/// The value of an expression over a choice, or none where an operator in it leaves the range.
pub fn value_over(
    sources: &[Called<'_>],
    choice: &[LentRow<'_>],
    expr: &Expr,
) -> Result<Option<Cell>, Memory>
    ensures { IfOk result (λ cell. cell ≡ value_of sources.now choice.now (expr_tree expr.now)) }
{
    match expr {
        Expr::Lit(cell) => Ok(Some(cell.share()?)),
        Expr::Col(reference) => Ok(Some(column_cell(sources, choice, reference)?)),
        Expr::Arith { op, left, right } => {
            let Some(x) = value_over(sources, choice, left)? else {
                return Ok(None);
            };
            let Some(y) = value_over(sources, choice, right)? else {
                return Ok(None);
            };
            Ok(calculate(*op, &x, &y))
        }
        Expr::Agg { of: None, .. } => Ok(Some(Cell::Nil)),
        Expr::Agg { of: Some(_), .. } => Ok(Some(Cell::Nil)),
    }
}

/// The cell of an expression over a choice, which is Nil where it has no value.
pub fn cell_over(
    sources: &[Called<'_>],
    choice: &[LentRow<'_>],
    expr: &Expr,
) -> Result<Cell, Memory>
    ensures { IfOk result (λ cell. cell ≡ cell_over_of sources.now choice.now (expr_tree expr.now)) }
{
    match value_over(sources, choice, expr)? {
        Some(cell) => Ok(cell),
        None => Ok(Cell::Nil),
    }
}

/// Whether an operator in an expression leaves the range over a choice.
pub fn overflows_over(
    sources: &[Called<'_>],
    choice: &[LentRow<'_>],
    expr: &Expr,
) -> Result<bool, Memory>
    ensures { IfOk result (λ overflows. overflows ≡ is_none (value_of sources.now choice.now (expr_tree expr.now))) }
{
    Ok(value_over(sources, choice, expr)?.is_none())
}

/// Whether an expression has no column.
fn is_constant(expr: &Expr) -> bool
    ensures { result ≡ is_constant_of (expr_tree expr.now) }
{
    match expr {
        Expr::Lit(_) => true,
        Expr::Col(_) => false,
        Expr::Arith { left, right, .. } => is_constant(left) && is_constant(right),
        Expr::Agg { of: None, .. } => true,
        Expr::Agg { of: Some(of), .. } => is_constant(of),
    }
}

/// Whether arithmetic over constants alone leaves the range somewhere in an expression.
pub fn constant_overflows(expr: &Expr) -> Result<bool, Memory>
    ensures { IfOk result (λ overflows. overflows ≡ constant_overflows_of (expr_tree expr.now)) }
{
    match expr {
        Expr::Lit(_) | Expr::Col(_) => Ok(false),
        Expr::Arith { left, right, .. } => {
            if constant_overflows(left)? || constant_overflows(right)? {
                return Ok(true);
            }
            Ok(is_constant(expr) && value_over(&[], &[], expr)?.is_none())
        }
        Expr::Agg { of: None, .. } => Ok(false),
        Expr::Agg { of: Some(of), .. } => constant_overflows(of),
    }
}
