//! Columns that a grouped query isn't grouped by.
ghost use Rattle.std.specs.Prelude.{◌≡◌, [], ◌∷◌, IfOk};
ghost use Rattle.std.specs.Option.{option_map};
ghost use Rattle.sql_tree.specs.Tree.{cond_tree, expr_tree};
ghost use Rattle.sql_definitions.specs.Sources.{same_place as same_place_of};
ghost use Rattle.sql_tree.specs.Exprs.{cond_exprs, exprs_of_cond};
ghost use Rattle.sql_definitions.specs.Check.{is_group_column as is_group_column_of};
ghost use Rattle.sql_check.specs.First.{first, first_by, ungrouped, ungrouped_expr};
ghost use Rattle.sql_definitions.specs.Exprs.{exprs_of};

use crate::references::place;
use cell_core::Memory;
use sql_definitions::{Called, Refusal};
use sql_tree::{ColRef, Cond, Expr, Item, printed_name};
use std::alloc::Global;

/// Whether two references mean the same column, by their places.
fn same_place(a: Option<(usize, usize)>, b: Option<(usize, usize)>) -> bool
    ensures { result ≡ same_place_of a b }
{
    match (a, b) {
        (Some(a), Some(b)) => a.0 == b.0 && a.1 == b.1,
        _ => false,
    }
}

/// Whether a column is one of those of GROUP BY.
fn is_group_column(sources: &[Called<'_>], groups: &[ColRef], reference: &ColRef) -> bool
    ensures { result ≡ is_group_column_of sources.now groups.now reference.now }
{
    let mut rest = groups;
    'groups: while let [group, more @ ..] = rest {
        if same_place(place(sources, group), place(sources, reference)) {
            return true;
        }
        rest = more;
    }
    false
}

/// The refusal of a column that isn't one of those of GROUP BY.
fn ungrouped_column(
    alloc: Global,
    sources: &[Called<'_>],
    groups: &[ColRef],
    reference: &ColRef,
) -> Result<Option<Refusal>, Memory>
    ensures { IfOk result (λ refusal. refusal ≡ first (ungrouped sources.now groups.now (reference.now ∷ []))) }
{
    if is_group_column(sources, groups, reference) {
        Ok(None)
    } else {
        Ok(Some(Refusal::NotGrouped(printed_name(alloc, &reference.column)?)))
    }
}

/// The first refusal of the columns of an expression, outside aggregates.
#[tactic(auto, using(crate::proofs::FirstLemmas::ungrouped_in_both), unfolding(crate::specs::First::ungrouped_expr))]
fn ungrouped_in_expr(
    alloc: Global,
    sources: &[Called<'_>],
    groups: &[ColRef],
    expr: &Expr,
) -> Result<Option<Refusal>, Memory>
    ensures { IfOk result (λ refusal. refusal ≡ ungrouped_expr sources.now groups.now (expr_tree expr.now)) }
{
    match expr {
        Expr::Lit(_) => Ok(None),
        Expr::Col(reference) => ungrouped_column(alloc, sources, groups, reference),
        Expr::Arith { left, right, .. } => match ungrouped_in_expr(alloc, sources, groups, left)? {
            Some(refusal) => Ok(Some(refusal)),
            None => ungrouped_in_expr(alloc, sources, groups, right),
        },
        Expr::Agg { of: None, .. } => Ok(None),
        Expr::Agg { of: Some(_), .. } => Ok(None),
    }
}

/// The first refusal of the columns of items.
pub(crate) fn ungrouped_in_items(
    alloc: Global,
    sources: &[Called<'_>],
    groups: &[ColRef],
    items: &[Item],
) -> Result<Option<Refusal>, Memory>
    ensures { IfOk result (λ refusal. refusal ≡ first_by (ungrouped_expr sources.now groups.now) (exprs_of items.now)) }
{
    let mut rest = items;
    'items: while let [item, more @ ..] = rest {
        if let Some(refusal) = ungrouped_in_expr(alloc, sources, groups, &item.expr)? {
            return Ok(Some(refusal));
        }
        rest = more;
    }
    Ok(None)
}

/// The first refusal of the columns of two expressions.
fn ungrouped_in_two(
    alloc: Global,
    sources: &[Called<'_>],
    groups: &[ColRef],
    left: &Expr,
    right: &Expr,
) -> Result<Option<Refusal>, Memory>
    ensures { IfOk result (λ refusal. refusal ≡ first_by (ungrouped_expr sources.now groups.now) (expr_tree left.now ∷ expr_tree right.now ∷ [])) }
{
    match ungrouped_in_expr(alloc, sources, groups, left)? {
        Some(refusal) => Ok(Some(refusal)),
        None => ungrouped_in_expr(alloc, sources, groups, right),
    }
}

/// The first refusal of the columns of a condition.
#[tactic(auto, using(crate::proofs::FirstLemmas::by_both))]
fn ungrouped_in_tree(
    alloc: Global,
    sources: &[Called<'_>],
    groups: &[ColRef],
    cond: &Cond,
) -> Result<Option<Refusal>, Memory>
    ensures { IfOk result (λ refusal. refusal ≡ first_by (ungrouped_expr sources.now groups.now) (cond_exprs (cond_tree cond.now))) }
{
    match cond {
        Cond::Cmp { left, right, .. } => ungrouped_in_two(alloc, sources, groups, left, right),
        Cond::Between { of, low, high } => match ungrouped_in_expr(alloc, sources, groups, of)? {
            Some(refusal) => Ok(Some(refusal)),
            None => ungrouped_in_two(alloc, sources, groups, low, high),
        },
        Cond::IsNull(of) => match ungrouped_in_expr(alloc, sources, groups, of)? {
            Some(refusal) => Ok(Some(refusal)),
            None => Ok(None),
        },
        Cond::Not(cond) => ungrouped_in_tree(alloc, sources, groups, cond),
        Cond::And(left, right) => match ungrouped_in_tree(alloc, sources, groups, left)? {
            Some(refusal) => Ok(Some(refusal)),
            None => ungrouped_in_tree(alloc, sources, groups, right),
        },
        Cond::Or(left, right) => match ungrouped_in_tree(alloc, sources, groups, left)? {
            Some(refusal) => Ok(Some(refusal)),
            None => ungrouped_in_tree(alloc, sources, groups, right),
        },
    }
}

/// The same of a condition, where there is one.
pub(crate) fn ungrouped_in_cond(
    alloc: Global,
    sources: &[Called<'_>],
    groups: &[ColRef],
    cond: &Option<Cond>,
) -> Result<Option<Refusal>, Memory>
    ensures { IfOk result (λ refusal. refusal ≡ first_by (ungrouped_expr sources.now groups.now) (exprs_of_cond (option_map cond_tree cond.now))) }
{
    match cond {
        Some(cond) => ungrouped_in_tree(alloc, sources, groups, cond),
        None => Ok(None),
    }
}
