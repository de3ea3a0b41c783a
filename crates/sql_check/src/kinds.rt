//! The kinds of expressions, and where they don't fit.
ghost use Rattle.std.specs.Prelude.{◌≡◌};
ghost use Rattle.std.specs.List.{list_any};
ghost use Rattle.std.specs.Option.{option_copied, option_map};
ghost use Rattle.cell_core.specs.Kinds as kinds;
ghost use Rattle.sql_tree.specs.Tree.{cond_tree, expr_tree};
ghost use Rattle.sql_definitions.specs.Kinds as sql;
ghost use Rattle.sql_definitions.specs.Check.{is_misfit_cond};
ghost use Rattle.sql_check.specs.First.{kind_at_place};
ghost use Rattle.sql_definitions.specs.Exprs.{exprs_of};

use crate::references::place;
use cell_calc::{agrees, are_comparable, kind_of};
use cell_core::{Column, Kind};
use sql_definitions::Called;
use sql_tree::{AggOp, ColRef, Cond, Expr, Item};

/// The column at a place.
fn column_at<'a>(sources: &[Called<'a>], place: (usize, usize)) -> Option<&'a Column>
    ensures { option_copied result ≡ sql.column_at sources.now place }
{
    match sources.get(place.0) {
        Some(source) => source.columns().get(place.1),
        None => None,
    }
}

/// The kind of the column at a place, where there is one.
fn kind_at(sources: &[Called<'_>], place: Option<(usize, usize)>) -> Option<Kind>
    ensures { result ≡ kind_at_place sources.now place }
{
    let Some(place) = place else {
        return None;
    };
    match column_at(sources, place) {
        Some(column) => Some(column.kind),
        None => None,
    }
}

/// The kind of the column that a reference means.
fn kind_of_column(sources: &[Called<'_>], reference: &ColRef) -> Option<Kind>
    ensures { result ≡ sql.kind_of_column sources.now reference.now }
{
    kind_at(sources, place(sources, reference))
}

/// The kind of an aggregate over cells of a kind.
fn kind_of_aggregate(f: AggOp, kind: Option<Kind>) -> Option<Kind>
    ensures { result ≡ sql.kind_of_aggregate f kind }
{
    match f {
        AggOp::Count => Some(Kind::Int),
        AggOp::Sum => Some(Kind::Huge),
        AggOp::Min | AggOp::Max => kind,
    }
}

/// The kind of an expression.
pub(crate) fn kind_of_expr(sources: &[Called<'_>], expr: &Expr) -> Option<Kind>
    ensures { result ≡ sql.kind_of_expr sources.now (expr_tree expr.now) }
{
    match expr {
        Expr::Lit(cell) => kind_of(cell),
        Expr::Col(reference) => kind_of_column(sources, reference),
        Expr::Arith { .. } => Some(Kind::Int),
        Expr::Agg { of: None, .. } => Some(Kind::Int),
        Expr::Agg { f, of: Some(of) } => kind_of_aggregate(*f, kind_of_expr(sources, of)),
    }
}

/// Whether a kind isn't Int, which arithmetic and SUM need.
fn is_no_int(kind: Option<Kind>) -> bool
    ensures { result ≡ sql.is_no_int kind }
{
    !agrees(kind, Some(Kind::Int))
}

/// Whether an aggregate doesn't take cells of a kind.
fn refuses(f: AggOp, kind: Option<Kind>) -> bool
    ensures { result ≡ sql.refuses f kind }
{
    match f {
        AggOp::Sum => is_no_int(kind),
        AggOp::Count | AggOp::Min | AggOp::Max => false,
    }
}

/// Whether arithmetic or SUM in an expression is taken of another kind than Int.
pub(crate) fn is_misfit(sources: &[Called<'_>], expr: &Expr) -> bool
    ensures { result ≡ sql.is_misfit sources.now (expr_tree expr.now) }
{
    match expr {
        Expr::Lit(_) => false,
        Expr::Col(_) => false,
        Expr::Arith { left, right, .. } => {
            is_misfit(sources, left)
                || is_misfit(sources, right)
                || is_no_int(kind_of_expr(sources, left))
                || is_no_int(kind_of_expr(sources, right))
        }
        Expr::Agg { of: None, .. } => false,
        Expr::Agg { f, of: Some(of) } => {
            is_misfit(sources, of) || refuses(*f, kind_of_expr(sources, of))
        }
    }
}

/// Whether a test may compare two expressions.
fn compares(sources: &[Called<'_>], left: &Expr, right: &Expr) -> bool
    ensures { result ≡ sql.compares sources.now (expr_tree left.now) (expr_tree right.now) }
{
    are_comparable(kind_of_expr(sources, left), kind_of_expr(sources, right))
}

/// Whether kinds don't fit somewhere in a condition.
fn is_tree_misfit(sources: &[Called<'_>], cond: &Cond) -> bool
    ensures { result ≡ sql.is_cond_misfit sources.now (cond_tree cond.now) }
{
    match cond {
        Cond::Cmp { left, right, .. } => {
            is_misfit(sources, left) || is_misfit(sources, right) || !compares(sources, left, right)
        }
        Cond::Between { of, low, high } => {
            is_misfit(sources, of)
                || is_misfit(sources, low)
                || is_misfit(sources, high)
                || !compares(sources, of, low)
                || !compares(sources, of, high)
        }
        Cond::IsNull(of) => is_misfit(sources, of),
        Cond::Not(cond) => is_tree_misfit(sources, cond),
        Cond::And(left, right) => is_tree_misfit(sources, left) || is_tree_misfit(sources, right),
        Cond::Or(left, right) => is_tree_misfit(sources, left) || is_tree_misfit(sources, right),
    }
}

/// The same of a condition, where there is one.
pub(crate) fn is_cond_misfit(sources: &[Called<'_>], cond: &Option<Cond>) -> bool
    ensures { result ≡ is_misfit_cond sources.now (option_map cond_tree cond.now) }
{
    match cond {
        Some(cond) => is_tree_misfit(sources, cond),
        None => false,
    }
}

/// Whether kinds don't fit somewhere in the items.
pub(crate) fn are_items_misfit(sources: &[Called<'_>], items: &[Item]) -> bool
    ensures { result ≡ list_any (sql.is_misfit sources.now) (exprs_of items.now) }
{
    let mut rest = items;
    'items: while let [item, more @ ..] = rest {
        if is_misfit(sources, &item.expr) {
            return true;
        }
        rest = more;
    }
    false
}
