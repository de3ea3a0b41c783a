//! What a query answers.
ghost use Rattle.std.specs.Prelude.{◌≡◌, map, Some, None, Err, IfOk, IsSome};
ghost use Rattle.cell_core.specs.declared.memory.RunError.TheVariants as RunError;
ghost use Rattle.sql_tree.specs.Tree.{item_tree, query_tree, stmt_tree};
ghost use Rattle.sql_definitions.specs.Sources.{source_of};
ghost use Rattle.sql_definitions.specs.References.{items_of};
ghost use Rattle.sql_definitions.specs.Rows.{rows_from};
ghost use Rattle.sql_definitions.specs.Answer.{limited, undoubled, arranged, answer_over as answer_over_of, answer as answer_of, query_of, answer_of_stmt};

use crate::groups::{distinct, groups_of};
use crate::kept::kept_choices;
use crate::overflow::{constants_overflow, shown_overflow};
use crate::rows::{choice_rows, group_rows};
use crate::tables::{CalledTable, called_all, from_tables};
use cell_core::{Cell, Db, Memory, RunError, Sequence, sort_rows_by};
use row_values::LentRow;
use sql_definitions::{Called, Typed, all_columns, is_grouped, sort_keys};
use sql_tree::{Item, Query, Stmt};
use std::alloc::Global;

/// The rows, without duplicates under DISTINCT.
fn without_doubles(
    alloc: Global,
    is_distinct: bool,
    rows: Vec<Sequence<Cell>>,
) -> Result<Vec<Sequence<Cell>>, Memory>
    ensures { IfOk result (λ out. out.items ≡ undoubled is_distinct rows.items) }
{
    if is_distinct {
        distinct(alloc, &rows)
    } else {
        Ok(rows)
    }
}

/// The first rows, where there is a limit.
fn cut(limit: Option<u64>, rows: Vec<Sequence<Cell>>) -> Vec<Sequence<Cell>>
    ensures { result.items ≡ limited limit rows.items }
{
    let Some(limit) = limit else {
        return rows;
    };
    let mut rows = rows;
    if limit < rows.len() as u64 {
        rows.truncate(limit as usize);
    }
    rows
}

/// The rows, without duplicates under DISTINCT, sorted, and then the first of them.
fn arrange(
    alloc: Global,
    sources: &[Called<'_>],
    items: &[Item],
    query: &Query,
    rows: Vec<Sequence<Cell>>,
) -> Result<Sequence<Sequence<Cell>>, Memory>
    requires { map item_tree items.now ≡ items_of sources.now (query_tree query.now) }
    ensures { IfOk result (λ out. out ≡ arranged sources.now (query_tree query.now) rows.items) }
{
    let keys = sort_keys(alloc, sources, items, query.keys.as_slice())?;
    let mut rows = without_doubles(alloc, query.distinct, rows)?;
    sort_rows_by(&mut rows, &keys)?;
    let first = cut(query.limit, rows);
    Ok(Sequence::from_vec(first))
}

/// The rows of a query whose condition keeps these choices.
fn rows_of_query(
    alloc: Global,
    sources: &[Called<'_>],
    items: &[Item],
    query: &Query,
    choices: Vec<Sequence<LentRow<'_>>>,
) -> Result<Vec<Sequence<Cell>>, Memory>
    requires { map item_tree items.now ≡ items_of sources.now (query_tree query.now) }
    ensures { IfOk result (λ rows. rows.items ≡ rows_from sources.now (query_tree query.now) choices.entry.items) }
{
    if is_grouped(query) {
        let groups = groups_of(alloc, sources, query.groups.as_slice(), choices)?;
        let rows = group_rows(alloc, sources, items, &query.having, groups)?;
        Ok(rows)
    } else {
        let rows = choice_rows(alloc, sources, items, &choices)?;
        Ok(rows)
    }
}

/// What a query with these items answers over tables, or none where it overflows.
fn answer_with(
    alloc: Global,
    tables: &[CalledTable<'_>],
    sources: &[Called<'_>],
    items: &[Item],
    query: &Query,
) -> Result<Option<Sequence<Sequence<Cell>>>, Memory>
    requires sources { sources.now ≡ map source_of tables.now }
    requires items { map item_tree items.now ≡ items_of sources.now (query_tree query.now) }
    ensures { IfOk result (λ answer. answer ≡ answer_over_of tables.now (query_tree query.now)) }
{
    if constants_overflow(items, &query.having, &query.cond)? {
        return Ok(None);
    }
    let choices = kept_choices(alloc, sources, &query.cond, tables)?;
    if shown_overflow(sources, &choices, items, &query.having)? {
        return Ok(None);
    }
    let rows = rows_of_query(alloc, sources, items, query, choices)?;
    let answer = arrange(alloc, sources, items, query, rows)?;
    Ok(Some(answer))
}

/// What a query answers over tables, or none where it overflows.
fn answer_over(
    alloc: Global,
    tables: &[CalledTable<'_>],
    query: &Query,
) -> Result<Option<Sequence<Sequence<Cell>>>, Memory>
    ensures { IfOk result (λ answer. answer ≡ answer_over_of tables.now (query_tree query.now)) }
{
    let sources = called_all(alloc, tables)?;
    if query.items.len() == 0 {
        let items = all_columns(alloc, &sources)?;
        answer_with(alloc, tables, &sources, items.as_slice(), query)
    } else {
        answer_with(alloc, tables, &sources, query.items.as_slice(), query)
    }
}

/// What a query answers over a database, computed row by row as its meaning says; none where it
/// overflows: arithmetic over constants alone leaves 64 bits, or that of an item or of HAVING does for a
/// kept choice of rows.
pub fn plain_answer(
    alloc: Global,
    query: &Query,
    db: &Db,
) -> Result<Option<Sequence<Sequence<Cell>>>, Memory>
    ensures { IfOk result (λ answer. answer ≡ answer_of (query_tree query.now) db.now) }
{
    let tables = from_tables(alloc, query.froms.as_slice(), db)?;
    let answer = answer_over(alloc, &tables, query)?;
    Ok(answer)
}

/// The rows of an answer; none is an overflow.
fn rows_or_overflow(
    answer: Option<Sequence<Sequence<Cell>>>,
) -> Result<Sequence<Sequence<Cell>>, RunError>
    ensures rows { IfOk result (λ rows. answer ≡ Some rows) }
    ensures overflow { result ≡ Err RunError.Overflow → answer ≡ None }
{
    match answer {
        Some(rows) => Ok(rows),
        None => Err(RunError::Overflow),
    }
}

/// What a checked SELECT or EXPLAIN answers over a database: the rows of its `plain_answer`, or
/// `Overflow` where it has none.
pub fn slow_answer(
    alloc: Global,
    query: &Typed,
    db: &Db,
) -> Result<Sequence<Sequence<Cell>>, RunError>
    requires { IsSome (query_of (stmt_tree query.now.stmt)) }
    ensures rows { IfOk result (λ rows. answer_of_stmt (stmt_tree query.now.stmt) db.now ≡ Some rows) }
    ensures overflow { result ≡ Err RunError.Overflow → answer_of_stmt (stmt_tree query.now.stmt) db.now ≡ None }
{
    match &query.stmt {
        Stmt::Query(query) => rows_or_overflow(plain_answer(alloc, query, db)?),
        Stmt::Explain(query) => rows_or_overflow(plain_answer(alloc, query, db)?),
        Stmt::Create { .. }
        | Stmt::Drop { .. }
        | Stmt::Alter { .. }
        | Stmt::Insert { .. }
        | Stmt::Delete { .. }
        | Stmt::Update { .. } => unreachable!(),
    }
}
