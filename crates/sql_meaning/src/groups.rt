//! The groups of a query, and rows without duplicates.
ghost use Rattle.std.specs.Prelude.{◌≡◌, ◌==◌, [], ◌∷◌, map, filter, not, length, if◌then◌else◌, IfOk};
ghost use Rattle.cell_core.specs.Groups.{distinct as distinct_of};
ghost use Rattle.sql_definitions.specs.Rows.{same_cells as same_cells_of, group_key as group_key_of, groups_of as groups_of_choices};
ghost use Rattle.sql_meaning.specs.Members.{members_by};

use crate::kept::again;
use cell_core::{Cell, Memory, Sequence, copy_cells};
use row_values::{LentRow, column_cell};
use sql_definitions::Called;
use sql_tree::ColRef;
use std::alloc::Global;

/// Whether two lists have the same cells, where Nil equals Nil.
fn same_cells(a: &[Cell], b: &[Cell]) -> bool
    ensures { result ≡ same_cells_of a.now b.now }
{
    a == b
}

/// A row with these cells, and then those of the others that have other cells.
fn with_first(
    alloc: Global,
    cells: &[Cell],
    others: Vec<Sequence<Cell>>,
) -> Result<Vec<Sequence<Cell>>, Memory>
    ensures { IfOk result (λ out. out.items ≡ cells.now ∷ filter (λ row. not (same_cells_of cells.now row)) others.items) }
{
    let mut out = Vec::with_capacity(alloc, others.len())?;
    out.push(copy_cells(alloc, cells)?)?;
    'others: for row in others {
        if !same_cells(cells, row.as_slice()) {
            out.push(row)?;
        }
    }
    Ok(out)
}

/// The distinct rows, each where it occurs first.
pub(crate) fn distinct(
    alloc: Global,
    rows: &[Sequence<Cell>],
) -> Result<Vec<Sequence<Cell>>, Memory>
    ensures { IfOk result (λ out. out.items ≡ distinct_of same_cells_of rows.now) }
{
    let mut out = Vec::new(alloc);
    let mut rest = rows;
    'rows: while let [front @ .., row] = rest {
        out = with_first(alloc, row.as_slice(), out)?;
        rest = front;
    }
    Ok(out)
}

/// The cells of the columns of GROUP BY.
fn group_key(
    alloc: Global,
    sources: &[Called<'_>],
    refs: &[ColRef],
    choice: &[LentRow<'_>],
) -> Result<Sequence<Cell>, Memory>
    ensures { IfOk result (λ key. key ≡ group_key_of sources.now refs.now choice.now) }
{
    let mut key = Sequence::new(alloc);
    let mut rest = refs;
    'columns: while let [reference, more @ ..] = rest {
        key.push(column_cell(sources, choice, reference)?)?;
        rest = more;
    }
    Ok(key)
}

/// These cells for each choice.
fn group_keys(
    alloc: Global,
    sources: &[Called<'_>],
    refs: &[ColRef],
    choices: &[Sequence<LentRow<'_>>],
) -> Result<Vec<Sequence<Cell>>, Memory>
    ensures { IfOk result (λ keys. keys.items ≡ map (group_key_of sources.now refs.now) choices.now) }
{
    let mut keys = Vec::new(alloc);
    let mut rest = choices;
    'choices: while let [choice, more @ ..] = rest {
        keys.push(group_key(alloc, sources, refs, choice.as_slice())?)?;
        rest = more;
    }
    Ok(keys)
}

/// The choices that are paired with these cells.
fn members<'a>(
    alloc: Global,
    keys: &[Sequence<Cell>],
    choices: &[Sequence<LentRow<'a>>],
    cells: &[Cell],
) -> Result<Sequence<Sequence<LentRow<'a>>>, Memory>
    ensures { IfOk result (λ group. group ≡ members_by keys.now choices.now cells.now) }
{
    let mut group = Sequence::new(alloc);
    let (mut rest, mut names) = (choices, keys);
    'keys: while let [key, others @ ..] = names {
        let [choice, more @ ..] = rest else {
            return Ok(group);
        };
        if same_cells(key.as_slice(), cells) {
            group.push(again(alloc, choice.as_slice())?)?;
        }
        rest = more;
        names = others;
    }
    Ok(group)
}

/// One group for each of these lists of cells.
fn groups_of_keys<'a>(
    alloc: Global,
    keys: &[Sequence<Cell>],
    choices: &[Sequence<LentRow<'a>>],
    names: &[Sequence<Cell>],
) -> Result<Vec<Sequence<Sequence<LentRow<'a>>>>, Memory>
    ensures { IfOk result (λ groups. groups.items ≡ map (members_by keys.now choices.now) names.now) }
{
    let mut groups = Vec::new(alloc);
    let mut rest = names;
    'names: while let [name, more @ ..] = rest {
        groups.push(members(alloc, keys, choices, name.as_slice())?)?;
        rest = more;
    }
    Ok(groups)
}

/// The groups of a grouped query; without GROUP BY all choices are one group.
#[tactic(auto, using(crate::proofs::GroupLemmas::groups_are))]
pub(crate) fn groups_of<'a>(
    alloc: Global,
    sources: &[Called<'_>],
    refs: &[ColRef],
    choices: Vec<Sequence<LentRow<'a>>>,
) -> Result<Vec<Sequence<Sequence<LentRow<'a>>>>, Memory>
    ensures { IfOk result (λ groups. groups.items ≡ groups_of_choices sources.now refs.now choices.entry.items) }
{
    if refs.is_empty() {
        let mut groups = Vec::new(alloc);
        groups.push(Sequence::from_vec(choices))?;
        return Ok(groups);
    }
    let keys = group_keys(alloc, sources, refs, &choices)?;
    let names = distinct(alloc, &keys)?;
    groups_of_keys(alloc, &keys, &choices, &names)
}
