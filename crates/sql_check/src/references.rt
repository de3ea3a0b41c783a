//! References that mean no column, or more than one.
ghost use Rattle.std.specs.Prelude.{◌≡◌, [], ◌∷◌, IfOk};
ghost use Rattle.std.specs.Option.{option_map};
ghost use Rattle.sql_tree.specs.Tree.{cond_tree, expr_tree};
ghost use Rattle.sql_definitions.specs.Sources.{place_of, places};
ghost use Rattle.sql_tree.specs.Exprs.{cond_exprs, exprs_of_cond};
ghost use Rattle.sql_definitions.specs.Check.{misplaced, bad_references as bad_references_of};
ghost use Rattle.sql_check.specs.First.{first, first_by, bad_expr, misplaced_found, set_exprs};
ghost use Rattle.sql_definitions.specs.Exprs.{exprs_of};

use cell_core::{Memory, Word};
use sql_definitions::{Called, Refusal, Resolved, column_place, find_column};
use sql_tree::{ColRef, Cond, Expr, Item, printed_name};
use std::alloc::Global;

/// The place of a reference.
pub(crate) fn place(sources: &[Called<'_>], reference: &ColRef) -> Option<(usize, usize)>
    ensures { result ≡ place_of sources.now reference.now }
{
    column_place(sources, reference.table.as_ref(), &reference.column)
}

/// The refusal of a reference that may mean so many columns.
fn misplaced_by(
    alloc: Global,
    reference: &ColRef,
    found: Resolved,
) -> Result<Option<Refusal>, Memory>
    ensures { IfOk result (λ refusal. refusal ≡ misplaced_found reference.now found) }
{
    match found {
        Resolved::At(_, _) => Ok(None),
        Resolved::Nowhere => Ok(Some(Refusal::NoColumn(printed_name(alloc, &reference.column)?))),
        Resolved::Twice => Ok(Some(Refusal::Ambiguous(printed_name(alloc, &reference.column)?))),
    }
}

/// The refusal of a reference that doesn't mean one column.
fn bad_reference(
    alloc: Global,
    sources: &[Called<'_>],
    reference: &ColRef,
) -> Result<Option<Refusal>, Memory>
    ensures { IfOk result (λ refusal. refusal ≡ first (misplaced reference.now (places sources.now reference.now))) }
{
    let found = find_column(sources, reference.table.as_ref(), &reference.column);
    let refusal = misplaced_by(alloc, reference, found)?;
    Ok(refusal)
}

/// The first refusal of references.
#[tactic(auto, using(crate::proofs::FirstLemmas::first_in_both))]
pub(crate) fn bad_references(
    alloc: Global,
    sources: &[Called<'_>],
    refs: &[ColRef],
) -> Result<Option<Refusal>, Memory>
    ensures { IfOk result (λ refusal. refusal ≡ first (bad_references_of sources.now refs.now)) }
{
    let mut rest = refs;
    'columns: while let [reference, more @ ..] = rest {
        if let Some(refusal) = bad_reference(alloc, sources, reference)? {
            return Ok(Some(refusal));
        }
        rest = more;
    }
    Ok(None)
}

/// The first refusal of the references in an expression.
#[tactic(auto, using(crate::proofs::FirstLemmas::bad_in_one, crate::proofs::FirstLemmas::bad_in_both), unfolding(crate::specs::First::bad_expr))]
fn bad_in_expr(
    alloc: Global,
    sources: &[Called<'_>],
    expr: &Expr,
) -> Result<Option<Refusal>, Memory>
    ensures { IfOk result (λ refusal. refusal ≡ bad_expr sources.now (expr_tree expr.now)) }
{
    match expr {
        Expr::Lit(_) => Ok(None),
        Expr::Col(reference) => bad_reference(alloc, sources, reference),
        Expr::Arith { left, right, .. } => match bad_in_expr(alloc, sources, left)? {
            Some(refusal) => Ok(Some(refusal)),
            None => bad_in_expr(alloc, sources, right),
        },
        Expr::Agg { of: None, .. } => Ok(None),
        Expr::Agg { of: Some(of), .. } => bad_in_expr(alloc, sources, of),
    }
}

/// The first refusal of the references in items.
pub(crate) fn bad_in_items(
    alloc: Global,
    sources: &[Called<'_>],
    items: &[Item],
) -> Result<Option<Refusal>, Memory>
    ensures { IfOk result (λ refusal. refusal ≡ first_by (bad_expr sources.now) (exprs_of items.now)) }
{
    let mut rest = items;
    'items: while let [item, more @ ..] = rest {
        if let Some(refusal) = bad_in_expr(alloc, sources, &item.expr)? {
            return Ok(Some(refusal));
        }
        rest = more;
    }
    Ok(None)
}

/// The first refusal of the references in the values of SET.
pub(crate) fn bad_in_sets(
    alloc: Global,
    sources: &[Called<'_>],
    sets: &[(Word, Expr)],
) -> Result<Option<Refusal>, Memory>
    ensures { IfOk result (λ refusal. refusal ≡ first_by (bad_expr sources.now) (set_exprs sets.now)) }
{
    let mut rest = sets;
    'sets: while let [set, more @ ..] = rest {
        if let Some(refusal) = bad_in_expr(alloc, sources, &set.1)? {
            return Ok(Some(refusal));
        }
        rest = more;
    }
    Ok(None)
}

/// The first refusal of the references in two expressions.
fn bad_in_two(
    alloc: Global,
    sources: &[Called<'_>],
    left: &Expr,
    right: &Expr,
) -> Result<Option<Refusal>, Memory>
    ensures { IfOk result (λ refusal. refusal ≡ first_by (bad_expr sources.now) (expr_tree left.now ∷ expr_tree right.now ∷ [])) }
{
    match bad_in_expr(alloc, sources, left)? {
        Some(refusal) => Ok(Some(refusal)),
        None => bad_in_expr(alloc, sources, right),
    }
}

/// The first refusal of the references in a condition.
#[tactic(auto, using(crate::proofs::FirstLemmas::by_both))]
fn bad_in_tree(
    alloc: Global,
    sources: &[Called<'_>],
    cond: &Cond,
) -> Result<Option<Refusal>, Memory>
    ensures { IfOk result (λ refusal. refusal ≡ first_by (bad_expr sources.now) (cond_exprs (cond_tree cond.now))) }
{
    match cond {
        Cond::Cmp { left, right, .. } => bad_in_two(alloc, sources, left, right),
        Cond::Between { of, low, high } => match bad_in_expr(alloc, sources, of)? {
            Some(refusal) => Ok(Some(refusal)),
            None => bad_in_two(alloc, sources, low, high),
        },
        Cond::IsNull(of) => match bad_in_expr(alloc, sources, of)? {
            Some(refusal) => Ok(Some(refusal)),
            None => Ok(None),
        },
        Cond::Not(cond) => bad_in_tree(alloc, sources, cond),
        Cond::And(left, right) => match bad_in_tree(alloc, sources, left)? {
            Some(refusal) => Ok(Some(refusal)),
            None => bad_in_tree(alloc, sources, right),
        },
        Cond::Or(left, right) => match bad_in_tree(alloc, sources, left)? {
            Some(refusal) => Ok(Some(refusal)),
            None => bad_in_tree(alloc, sources, right),
        },
    }
}

/// The same of a condition, where there is one.
pub(crate) fn bad_in_cond(
    alloc: Global,
    sources: &[Called<'_>],
    cond: &Option<Cond>,
) -> Result<Option<Refusal>, Memory>
    ensures { IfOk result (λ refusal. refusal ≡ first_by (bad_expr sources.now) (exprs_of_cond (option_map cond_tree cond.now))) }
{
    match cond {
        Some(cond) => bad_in_tree(alloc, sources, cond),
        None => Ok(None),
    }
}
