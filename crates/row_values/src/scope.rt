//! Expressions and conditions over a choice of rows or a group of choices.
ghost use Rattle.std.specs.Prelude.{◌≡◌, map, IfOk};
ghost use Rattle.std.specs.Option.{option_map};
ghost use Rattle.sql_tree.specs.Tree.{cond_tree, expr_tree};
ghost use Rattle.sql_definitions.specs.Values.{cell_over as cell_over_of, group_cell as group_cell_of, first_choice as first_choice_of};
ghost use Rattle.sql_definitions.specs.Truth.{truth as truth_of, holds as holds_of};
ghost use Rattle.row_values.specs.Scopes.{cell_in as cell_in_of};

use crate::calc::{aggregate, compare_by, count};
use crate::row::LentRow;
use crate::value::cell_over;
use cell_calc::{both, either, opposite};
use cell_core::{Cell, Memory, Sequence};
use sql_definitions::Called;
use sql_tree::{CmpOp, Cond, Expr};
use std::alloc::Global;

/// What an expression is evaluated over.
#[derive(Drop)]
pub enum Scope<'a> {
    /// A choice of one row for each table.
    Choice(&'a [LentRow<'a>]),
    /// A group of choices.
    Group(&'a [Sequence<LentRow<'a>>]),
}

/// The cells of an expression over the choices of a group.
fn cells_over(
    alloc: Global,
    sources: &[Called<'_>],
    group: &[Sequence<LentRow<'_>>],
    expr: &Expr,
) -> Result<Sequence<Cell>, Memory>
    ensures { IfOk result (λ cells. cells ≡ map (λ choice. cell_over_of sources.now choice (expr_tree expr.now)) group.now) }
{
    let mut cells = Sequence::new(alloc);
    let mut rest = group;
    'choices: while let [choice, more @ ..] = rest {
        cells.push(cell_over(sources, choice.as_slice(), expr)?)?;
        rest = more;
    }
    Ok(cells)
}

/// The first choice of a group, or no rows.
fn first_choice<'a, 'b>(group: &'b [Sequence<LentRow<'a>>]) -> &'b [LentRow<'a>]
    ensures { result.now ≡ first_choice_of group.now }
{
    match group {
        [choice, ..] => choice.as_slice(),
        [] => &[],
    }
}

/// The cell of an item or of a side of a test over a group.
pub fn group_cell(
    alloc: Global,
    sources: &[Called<'_>],
    group: &[Sequence<LentRow<'_>>],
    expr: &Expr,
) -> Result<Cell, Memory>
    ensures { IfOk result (λ cell. cell ≡ group_cell_of sources.now group.now (expr_tree expr.now)) }
{
    match expr {
        Expr::Agg { of: None, .. } => count(group.len()),
        Expr::Agg { f, of: Some(of) } => {
            let cells = cells_over(alloc, sources, group, of)?;
            aggregate(*f, cells.as_slice())
        }
        Expr::Lit(_) => cell_over(sources, first_choice(group), expr),
        Expr::Col(_) => cell_over(sources, first_choice(group), expr),
        Expr::Arith { .. } => cell_over(sources, first_choice(group), expr),
    }
}

/// The cell of an expression.
fn cell_in(
    alloc: Global,
    sources: &[Called<'_>],
    scope: &Scope<'_>,
    expr: &Expr,
) -> Result<Cell, Memory>
    ensures { IfOk result (λ cell. cell ≡ cell_in_of sources.now scope.now (expr_tree expr.now)) }
{
    match scope {
        Scope::Choice(choice) => cell_over(sources, choice, expr),
        Scope::Group(group) => group_cell(alloc, sources, group, expr),
    }
}

/// The truth of a condition: a bit, or Nil where it is unknown.
fn truth(
    alloc: Global,
    sources: &[Called<'_>],
    scope: &Scope<'_>,
    cond: &Cond,
) -> Result<Cell, Memory>
    ensures { IfOk result (λ cell. cell ≡ truth_of (cell_in_of sources.now scope.now) (cond_tree cond.now)) }
{
    match cond {
        Cond::Cmp { op, left, right } => {
            let x = cell_in(alloc, sources, scope, left)?;
            let y = cell_in(alloc, sources, scope, right)?;
            Ok(compare_by(*op, &x, &y))
        }
        Cond::Between { of, low, high } => {
            let x = cell_in(alloc, sources, scope, of)?;
            let low = cell_in(alloc, sources, scope, low)?;
            let high = cell_in(alloc, sources, scope, high)?;
            let above = compare_by(CmpOp::Ge, &x, &low);
            let below = compare_by(CmpOp::Le, &x, &high);
            Ok(both(&above, &below))
        }
        Cond::IsNull(of) => {
            let x = cell_in(alloc, sources, scope, of)?;
            Ok(Cell::Bit(x.is_nil()))
        }
        Cond::Not(cond) => {
            let x = truth(alloc, sources, scope, cond)?;
            Ok(opposite(&x))
        }
        Cond::And(left, right) => {
            let x = truth(alloc, sources, scope, left)?;
            let y = truth(alloc, sources, scope, right)?;
            Ok(both(&x, &y))
        }
        Cond::Or(left, right) => {
            let x = truth(alloc, sources, scope, left)?;
            let y = truth(alloc, sources, scope, right)?;
            Ok(either(&x, &y))
        }
    }
}

/// Whether a condition is true, or there is no condition.
pub fn holds(
    alloc: Global,
    sources: &[Called<'_>],
    scope: &Scope<'_>,
    cond: &Option<Cond>,
) -> Result<bool, Memory>
    ensures { IfOk result (λ is_true. is_true ≡ holds_of (cell_in_of sources.now scope.now) (option_map cond_tree cond.now)) }
{
    let Some(cond) = cond else {
        return Ok(true);
    };
    let outcome = truth(alloc, sources, scope, cond)?;
    Ok(outcome.is_true())
}
