//! When a query overflows.
ghost use Rattle.std.specs.Prelude.{◌≡◌, ◌++◌, ◌||◌, flat_map, IfOk};
ghost use Rattle.std.specs.List.{list_any};
ghost use Rattle.std.specs.Option.{option_map};
ghost use Rattle.sql_tree.specs.Tree.{cond_tree, expr_tree};
ghost use Rattle.sql_tree.specs.Exprs.{cond_exprs, exprs_of_cond};
ghost use Rattle.sql_definitions.specs.Values.{constant_overflows as constant_overflows_of, over_choices};
ghost use Rattle.sql_definitions.specs.Rows.{overflows_for};
ghost use Rattle.sql_definitions.specs.Exprs.{exprs_of};

use cell_core::{Memory, Sequence};
use row_values::{LentRow, cond_overflows, constant_overflows, value_over};
use sql_definitions::Called;
use sql_tree::{Cond, Expr, Item};

/// Whether arithmetic over constants alone leaves the range in an item.
fn items_overflow(items: &[Item]) -> Result<bool, Memory>
    ensures { IfOk result (λ overflows. overflows ≡ list_any constant_overflows_of (exprs_of items.now)) }
{
    let mut rest = items;
    'items: while let [item, more @ ..] = rest {
        if constant_overflows(&item.expr)? {
            return Ok(true);
        }
        rest = more;
    }
    Ok(false)
}

/// The same of items, HAVING and the condition.
#[tactic(auto, using(row_values::proofs::ListLemmas::any_in_both))]
pub(crate) fn constants_overflow(
    items: &[Item],
    having: &Option<Cond>,
    cond: &Option<Cond>,
) -> Result<bool, Memory>
    ensures { IfOk result (λ overflows. overflows ≡ list_any constant_overflows_of (exprs_of items.now ++ exprs_of_cond (option_map cond_tree having.now) ++ exprs_of_cond (option_map cond_tree cond.now))) }
{
    Ok(items_overflow(items)? || cond_overflows(having)? || cond_overflows(cond)?)
}

/// Whether an expression leaves the range for some choice.
fn overflows(
    sources: &[Called<'_>],
    choices: &[Sequence<LentRow<'_>>],
    expr: &Expr,
) -> Result<bool, Memory>
    ensures { IfOk result (λ overflows. overflows ≡ overflows_for sources.now choices.now (expr_tree expr.now)) }
{
    let mut rest = choices;
    'choices: while let [choice, more @ ..] = rest {
        if value_over(sources, choice.as_slice(), expr)?.is_none() {
            return Ok(true);
        }
        rest = more;
    }
    Ok(false)
}

/// The same of what an item or a side of a test computes over single choices.
fn part_overflows(
    sources: &[Called<'_>],
    choices: &[Sequence<LentRow<'_>>],
    expr: &Expr,
) -> Result<bool, Memory>
    ensures { IfOk result (λ overflows. overflows ≡ list_any (overflows_for sources.now choices.now) (over_choices (expr_tree expr.now))) }
{
    match expr {
        Expr::Agg { of: None, .. } => Ok(false),
        Expr::Agg { of: Some(of), .. } => overflows(sources, choices, of),
        Expr::Lit(_) => overflows(sources, choices, expr),
        Expr::Col(_) => overflows(sources, choices, expr),
        Expr::Arith { .. } => overflows(sources, choices, expr),
    }
}

/// The same of items.
#[tactic(auto, using(row_values::proofs::ListLemmas::any_in_both))]
fn items_overflow_over(
    sources: &[Called<'_>],
    choices: &[Sequence<LentRow<'_>>],
    items: &[Item],
) -> Result<bool, Memory>
    ensures { IfOk result (λ overflows. overflows ≡ list_any (overflows_for sources.now choices.now) (flat_map over_choices (exprs_of items.now))) }
{
    let mut rest = items;
    'items: while let [item, more @ ..] = rest {
        if part_overflows(sources, choices, &item.expr)? {
            return Ok(true);
        }
        rest = more;
    }
    Ok(false)
}

/// The same of the sides of a condition's tests.
#[tactic(auto, using(row_values::proofs::ListLemmas::any_in_both, crate::proofs::ListLemmas::flat_in_both))]
fn tree_overflows_over(
    sources: &[Called<'_>],
    choices: &[Sequence<LentRow<'_>>],
    cond: &Cond,
) -> Result<bool, Memory>
    ensures { IfOk result (λ overflows. overflows ≡ list_any (overflows_for sources.now choices.now) (flat_map over_choices (cond_exprs (cond_tree cond.now)))) }
{
    match cond {
        Cond::Cmp { left, right, .. } => {
            Ok(part_overflows(sources, choices, left)? || part_overflows(sources, choices, right)?)
        }
        Cond::Between { of, low, high } => Ok(
            part_overflows(sources, choices, of)?
                || part_overflows(sources, choices, low)?
                || part_overflows(sources, choices, high)?,
        ),
        Cond::IsNull(of) => part_overflows(sources, choices, of),
        Cond::Not(cond) => tree_overflows_over(sources, choices, cond),
        Cond::And(left, right) => Ok(
            tree_overflows_over(sources, choices, left)?
                || tree_overflows_over(sources, choices, right)?,
        ),
        Cond::Or(left, right) => Ok(
            tree_overflows_over(sources, choices, left)?
                || tree_overflows_over(sources, choices, right)?,
        ),
    }
}

/// The same of HAVING, where there is one.
fn having_overflows_over(
    sources: &[Called<'_>],
    choices: &[Sequence<LentRow<'_>>],
    having: &Option<Cond>,
) -> Result<bool, Memory>
    ensures { IfOk result (λ overflows. overflows ≡ list_any (overflows_for sources.now choices.now) (flat_map over_choices (exprs_of_cond (option_map cond_tree having.now)))) }
{
    match having {
        Some(cond) => tree_overflows_over(sources, choices, cond),
        None => Ok(false),
    }
}

/// Whether an expression of items or HAVING leaves the range for some kept choice.
#[tactic(auto, using(row_values::proofs::ListLemmas::any_in_both, crate::proofs::ListLemmas::flat_in_both))]
pub(crate) fn shown_overflow(
    sources: &[Called<'_>],
    choices: &[Sequence<LentRow<'_>>],
    items: &[Item],
    having: &Option<Cond>,
) -> Result<bool, Memory>
    ensures { IfOk result (λ overflows. overflows ≡ list_any (overflows_for sources.now choices.now) (flat_map over_choices (exprs_of items.now ++ exprs_of_cond (option_map cond_tree having.now)))) }
{
    Ok(
        items_overflow_over(sources, choices, items)?
            || having_overflows_over(sources, choices, having)?,
    )
}
