//! The rows of a query before they are sorted.
ghost use Rattle.std.specs.Prelude.{◌≡◌, map, filter, IfOk};
ghost use Rattle.std.specs.Option.{option_map};
ghost use Rattle.sql_tree.specs.Tree.{cond_tree};
ghost use Rattle.sql_definitions.specs.Rows.{choice_row as choice_row_of};
ghost use Rattle.sql_meaning.specs.Shown.{row_of_group, is_group_shown, rows_of_shown};
ghost use Rattle.sql_definitions.specs.Exprs.{exprs_of};

use cell_core::{Cell, Memory, Sequence};
use row_values::{LentRow, Scope, cell_over, group_cell, holds};
use sql_definitions::Called;
use sql_tree::{Cond, Item};
use std::alloc::Global;

/// The items' cells over a choice.
fn choice_row(
    alloc: Global,
    sources: &[Called<'_>],
    items: &[Item],
    choice: &[LentRow<'_>],
) -> Result<Sequence<Cell>, Memory>
    ensures { IfOk result (λ row. row ≡ choice_row_of sources.now (exprs_of items.now) choice.now) }
{
    let mut row = Sequence::new(alloc);
    let mut rest = items;
    'items: while let [item, more @ ..] = rest {
        row.push(cell_over(sources, choice, &item.expr)?)?;
        rest = more;
    }
    Ok(row)
}

/// A row for each choice.
pub(crate) fn choice_rows(
    alloc: Global,
    sources: &[Called<'_>],
    items: &[Item],
    choices: &[Sequence<LentRow<'_>>],
) -> Result<Vec<Sequence<Cell>>, Memory>
    ensures { IfOk result (λ rows. rows.items ≡ map (choice_row_of sources.now (exprs_of items.now)) choices.now) }
{
    let mut rows = Vec::with_capacity(alloc, choices.len())?;
    let mut rest = choices;
    'choices: while let [choice, more @ ..] = rest {
        rows.push(choice_row(alloc, sources, items, choice.as_slice())?)?;
        rest = more;
    }
    Ok(rows)
}

/// The items' cells over a group.
#[tactic(auto, unfolding(crate::specs::Shown::row_of_group))]
fn group_row(
    alloc: Global,
    sources: &[Called<'_>],
    items: &[Item],
    group: &[Sequence<LentRow<'_>>],
) -> Result<Sequence<Cell>, Memory>
    ensures { IfOk result (λ row. row ≡ row_of_group sources.now (exprs_of items.now) group.now) }
{
    let mut row = Sequence::new(alloc);
    let mut rest = items;
    'items: while let [item, more @ ..] = rest {
        row.push(group_cell(alloc, sources, group, &item.expr)?)?;
        rest = more;
    }
    Ok(row)
}

/// Whether HAVING keeps a group.
#[tactic(auto, unfolding(crate::specs::Shown::is_group_shown))]
fn is_shown(
    alloc: Global,
    sources: &[Called<'_>],
    having: &Option<Cond>,
    group: &[Sequence<LentRow<'_>>],
) -> Result<bool, Memory>
    ensures { IfOk result (λ shown. shown ≡ is_group_shown sources.now (option_map cond_tree having.now) group.now) }
{
    holds(alloc, sources, &Scope::Group(group), having)
}

/// The groups of which HAVING is true.
fn shown_groups<'a>(
    alloc: Global,
    sources: &[Called<'_>],
    having: &Option<Cond>,
    groups: Vec<Sequence<Sequence<LentRow<'a>>>>,
) -> Result<Vec<Sequence<Sequence<LentRow<'a>>>>, Memory>
    ensures { IfOk result (λ shown. shown.items ≡ filter (is_group_shown sources.now (option_map cond_tree having.now)) groups.entry.items) }
{
    let mut shown = Vec::new(alloc);
    'groups: for group in groups {
        if is_shown(alloc, sources, having, group.as_slice())? {
            shown.push(group)?;
        }
    }
    Ok(shown)
}

/// A row for each of these groups.
fn rows_of_groups(
    alloc: Global,
    sources: &[Called<'_>],
    items: &[Item],
    groups: &[Sequence<Sequence<LentRow<'_>>>],
) -> Result<Vec<Sequence<Cell>>, Memory>
    ensures { IfOk result (λ rows. rows.items ≡ map (row_of_group sources.now (exprs_of items.now)) groups.now) }
{
    let mut rows = Vec::with_capacity(alloc, groups.len())?;
    let mut rest = groups;
    'groups: while let [group, more @ ..] = rest {
        rows.push(group_row(alloc, sources, items, group.as_slice())?)?;
        rest = more;
    }
    Ok(rows)
}

/// A row for each group of which HAVING is true.
pub(crate) fn group_rows(
    alloc: Global,
    sources: &[Called<'_>],
    items: &[Item],
    having: &Option<Cond>,
    groups: Vec<Sequence<Sequence<LentRow<'_>>>>,
) -> Result<Vec<Sequence<Cell>>, Memory>
    ensures { IfOk result (λ rows. rows.items ≡ rows_of_shown sources.now (exprs_of items.now) (option_map cond_tree having.now) groups.entry.items) }
{
    let shown = shown_groups(alloc, sources, having, groups)?;
    rows_of_groups(alloc, sources, items, &shown)
}
