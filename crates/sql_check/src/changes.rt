//! The refusals of the statements that change tables.
ghost use Rattle.std.specs.Prelude.{◌≡◌, ℕ, List, ◌==◌, ◌||◌, not, map, length, IfOk};
ghost use Rattle.cell_core.specs.declared.cell.Cell.{Cell as CellSeen};
ghost use Rattle.std.specs.List.{list_any};
ghost use Rattle.std.specs.Option.{option_map};
ghost use Rattle.sql_tree.specs.Tree.{ExprTree, cond_tree, set_tree};
ghost use Rattle.sql_definitions.specs.declared.refusal.Refusal.TheVariants.{WrongCount};
ghost use Rattle.sql_definitions.specs.Check.{refused_if, create_refusals, drop_refusals, alter_refusals, insert_refusals, delete_refusals, update_refusals, own_source, is_misfit_default as is_misfit_default_of, is_misfit_row as is_misfit_row_of, is_misfit_set as is_misfit_set_of, is_misfit_cond};
ghost use Rattle.sql_check.specs.First.{first, column_list, rows_first, delete_list, update_list};

use crate::kinds::{is_cond_misfit, is_misfit, kind_of_expr};
use crate::names::{column_names, name_twice, source_named, unknown_name};
use crate::query::{either, kinds_differ};
use crate::references::{bad_in_cond, bad_in_sets};
use cell_calc::{agrees, kind_of};
use cell_core::{Cell, Column, Memory, Sequence, Word};
use sql_definitions::{Called, Refusal, Schema, Source, column_named, targets};
use sql_tree::{Cond, Expr, printed_name};
use std::alloc::Global;

/// Whether a column's default is of another kind.
fn is_misfit_default(column: &Column) -> bool
    ensures { result ≡ is_misfit_default_of column.now }
{
    !agrees(kind_of(&column.default), Some(column.kind))
}

/// Whether the default of one of the columns is of another kind.
fn are_defaults_misfit(columns: &[Column]) -> bool
    ensures { result ≡ list_any is_misfit_default_of columns.now }
{
    columns.iter().any(|column| is_misfit_default(column))
}

/// The refusal of the columns of a new table.
fn columns_refusal(alloc: Global, columns: &[Column]) -> Result<Option<Refusal>, Memory>
    ensures { IfOk result (λ refusal. refusal ≡ first (column_list columns.now)) }
{
    let names = column_names(alloc, columns)?;
    let twice = name_twice(alloc, names.as_slice())?;
    let kinds = kinds_differ(are_defaults_misfit(columns));
    let refusal = either(twice, kinds);
    Ok(refusal)
}

/// The refusal of CREATE.
pub(crate) fn create_refusal(
    alloc: Global,
    table: &Word,
    columns: &[Column],
    schema: &Schema,
) -> Result<Option<Refusal>, Memory>
    ensures { IfOk result (λ refusal. refusal ≡ first (create_refusals table.now columns.now schema.now)) }
{
    if source_named(schema, table).is_some() {
        return Ok(Some(Refusal::TableExists(printed_name(alloc, table)?)));
    }
    columns_refusal(alloc, columns)
}

/// The refusal of DROP.
pub(crate) fn drop_refusal(
    alloc: Global,
    table: &Word,
    schema: &Schema,
) -> Result<Option<Refusal>, Memory>
    ensures { IfOk result (λ refusal. refusal ≡ first (drop_refusals table.now schema.now)) }
{
    if source_named(schema, table).is_some() {
        return Ok(None);
    }
    Ok(Some(Refusal::NoTable(printed_name(alloc, table)?)))
}

/// The refusal of ALTER of a table.
pub(crate) fn alter_refusal(
    alloc: Global,
    column: &Column,
    source: &Source,
) -> Result<Option<Refusal>, Memory>
    ensures { IfOk result (λ refusal. refusal ≡ first (alter_refusals column.now source.now)) }
{
    if column_named(source.columns.as_slice(), &column.name).is_some() {
        return Ok(Some(Refusal::NameTwice(printed_name(alloc, &column.name)?)));
    }
    Ok(kinds_differ(is_misfit_default(column)))
}

/// Whether a row has more or fewer values than there are columns that they go to.
fn has_other_length(count: usize, rows: &[Sequence<Cell>]) -> bool
    ensures { result ≡ list_any (λ (row : List CellSeen). not (length row == count)) rows.now }
{
    let mut rest = rows;
    'rows: while let [row, more @ ..] = rest {
        if row.len() != count {
            return true;
        }
        rest = more;
    }
    false
}

/// The refusal of a wrong number of values.
fn wrong_count(is_wrong: bool) -> Option<Refusal>
    ensures { result ≡ first (refused_if is_wrong WrongCount) }
{
    if is_wrong {
        Some(Refusal::WrongCount)
    } else {
        None
    }
}

/// Whether a value is of another kind than its column.
fn is_misfit_row(columns: &[Column], row: &[Cell]) -> bool
    ensures { result ≡ is_misfit_row_of columns.now row.now }
{
    let (mut targets, mut cells) = (columns, row);
    'columns: while let [column, others @ ..] = targets {
        let [cell, more @ ..] = cells else {
            return false;
        };
        if !agrees(kind_of(cell), Some(column.kind)) {
            return true;
        }
        targets = others;
        cells = more;
    }
    false
}

/// Whether a value of a row is of another kind than its column.
fn are_rows_misfit(columns: &[Column], rows: &[Sequence<Cell>]) -> bool
    ensures { result ≡ list_any (is_misfit_row_of columns.now) rows.now }
{
    let mut rest = rows;
    'rows: while let [row, more @ ..] = rest {
        if is_misfit_row(columns, row.as_slice()) {
            return true;
        }
        rest = more;
    }
    false
}

/// The first refusal of rows that go to these columns.
fn rows_refusal(columns: &[Column], rows: &[Sequence<Cell>]) -> Option<Refusal>
    ensures { result ≡ rows_first columns.now rows.now }
{
    let count = wrong_count(has_other_length(columns.len(), rows));
    let kinds = kinds_differ(are_rows_misfit(columns, rows));
    either(count, kinds)
}

/// The refusal of an INSERT into a table.
pub(crate) fn insert_refusal(
    alloc: Global,
    listed: &[Word],
    rows: &[Sequence<Cell>],
    source: &Source,
) -> Result<Option<Refusal>, Memory>
    ensures { IfOk result (λ refusal. refusal ≡ first (insert_refusals listed.now rows.now source.now)) }
{
    let columns = source.columns.as_slice();
    let unknown = unknown_name(alloc, columns, listed)?;
    let twice = name_twice(alloc, listed)?;
    let found = targets(alloc, columns, listed)?;
    let of_rows = rows_refusal(found.as_slice(), rows);
    let names = either(unknown, twice);
    let refusal = either(names, of_rows);
    Ok(refusal)
}

/// The one table of a change, under its own name.
fn own_called(source: &Source) -> Called<'_>
    ensures { result ≡ own_source source.now }
{
    Called::new(&source.table, &source.columns)
}

/// The refusal of a DELETE over tables.
fn delete_over(
    alloc: Global,
    sources: &[Called<'_>],
    cond: &Option<Cond>,
) -> Result<Option<Refusal>, Memory>
    ensures { IfOk result (λ refusal. refusal ≡ first (delete_list sources.now (option_map cond_tree cond.now))) }
{
    let references = bad_in_cond(alloc, sources, cond)?;
    let kinds = kinds_differ(is_cond_misfit(sources, cond));
    let refusal = either(references, kinds);
    Ok(refusal)
}

/// The refusal of a DELETE from a table.
pub(crate) fn delete_refusal(
    alloc: Global,
    cond: &Option<Cond>,
    source: &Source,
) -> Result<Option<Refusal>, Memory>
    ensures { IfOk result (λ refusal. refusal ≡ first (delete_refusals (option_map cond_tree cond.now) source.now)) }
{
    let own = own_called(source);
    let refusal = delete_over(alloc, &[own], cond)?;
    Ok(refusal)
}

/// The names that are set.
fn set_names(alloc: Global, sets: &[(Word, Expr)]) -> Result<Sequence<Word>, Memory>
    ensures { IfOk result (λ names. names ≡ map (λ (set : List ℕ × ExprTree). set.0) (map set_tree sets.now)) }
{
    let mut names = Sequence::new(alloc);
    let mut rest = sets;
    'sets: while let [set, more @ ..] = rest {
        names.push(set.0.share()?)?;
        rest = more;
    }
    Ok(names)
}

/// Whether a column is set to a value of another kind.
fn is_misfit_set(sources: &[Called<'_>], columns: &[Column], set: &(Word, Expr)) -> bool
    ensures { result ≡ is_misfit_set_of sources.now columns.now (set_tree set.now) }
{
    if is_misfit(sources, &set.1) {
        return true;
    }
    match column_named(columns, &set.0) {
        Some(column) => !agrees(kind_of_expr(sources, &set.1), Some(column.kind)),
        None => false,
    }
}

/// Whether one of the columns is set to a value of another kind.
fn are_sets_misfit(sources: &[Called<'_>], columns: &[Column], sets: &[(Word, Expr)]) -> bool
    ensures { result ≡ list_any (is_misfit_set_of sources.now columns.now) (map set_tree sets.now) }
{
    let mut rest = sets;
    'sets: while let [set, more @ ..] = rest {
        if is_misfit_set(sources, columns, set) {
            return true;
        }
        rest = more;
    }
    false
}

/// Whether kinds don't fit somewhere in an UPDATE.
fn is_misfit_update(
    sources: &[Called<'_>],
    columns: &[Column],
    sets: &[(Word, Expr)],
    cond: &Option<Cond>,
) -> bool
    ensures { result ≡ (list_any (is_misfit_set_of sources.now columns.now) (map set_tree sets.now) || is_misfit_cond sources.now (option_map cond_tree cond.now)) }
{
    are_sets_misfit(sources, columns, sets) || is_cond_misfit(sources, cond)
}

/// The refusal of an UPDATE over tables, of which one has these columns.
fn update_over(
    alloc: Global,
    sources: &[Called<'_>],
    columns: &[Column],
    sets: &[(Word, Expr)],
    cond: &Option<Cond>,
) -> Result<Option<Refusal>, Memory>
    ensures { IfOk result (λ refusal. refusal ≡ first (update_list sources.now columns.now (map set_tree sets.now) (option_map cond_tree cond.now))) }
{
    let names = set_names(alloc, sets)?;
    let unknown = unknown_name(alloc, columns, names.as_slice())?;
    let in_sets = bad_in_sets(alloc, sources, sets)?;
    let in_cond = bad_in_cond(alloc, sources, cond)?;
    let twice = name_twice(alloc, names.as_slice())?;
    let kinds = kinds_differ(is_misfit_update(sources, columns, sets, cond));
    let references = either(in_sets, in_cond);
    let places = either(unknown, references);
    let distinct = either(places, twice);
    let refusal = either(distinct, kinds);
    Ok(refusal)
}

/// The refusal of an UPDATE of a table.
pub(crate) fn update_refusal(
    alloc: Global,
    sets: &[(Word, Expr)],
    cond: &Option<Cond>,
    source: &Source,
) -> Result<Option<Refusal>, Memory>
    ensures { IfOk result (λ refusal. refusal ≡ first (update_refusals (map set_tree sets.now) (option_map cond_tree cond.now) source.now)) }
{
    let own = own_called(source);
    let columns = source.columns.as_slice();
    let refusal = update_over(alloc, &[own], columns, sets, cond)?;
    Ok(refusal)
}
