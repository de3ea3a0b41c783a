//! The check of a statement.
ghost use Rattle.std.specs.Prelude.{◌≡◌, [], ◌∷◌, map, Some, None, Err, IfOk};
ghost use Rattle.sql_grammar.specs.Formed.{IsFormed};
ghost use Rattle.sql_tree.specs.Tree.{stmt_tree};
ghost use Rattle.sql_tree.specs.declared.tree.FromItem.{FromItem as FromItemSeen};
ghost use Rattle.sql_tree.specs.Names.{name_text};
ghost use Rattle.sql_definitions.specs.declared.refusal.Refusal.{Refusal as RefusalSeen};
ghost use Rattle.sql_definitions.specs.declared.refusal.Refusal.TheVariants.{NoTable};
ghost use Rattle.sql_definitions.specs.Check.{check_refusal, sources_named as sources_named_of, tables_of};
ghost use Rattle.sql_check.specs.declared.error.CheckError.TheVariants.{Refused};

use crate::changes::{
    alter_refusal, create_refusal, delete_refusal, drop_refusal, insert_refusal, update_refusal,
};
use crate::error::CheckError;
use crate::names::source_named;
use crate::query::query_refusal;
use cell_core::{Memory, Sequence, Word, copy_columns};
use sql_definitions::{Refusal, Schema, Source, Typed};
use sql_tree::{FromItem, Stmt, printed_name};
use std::alloc::Global;

/// The refusal of a change of a table that doesn't exist.
fn no_table(alloc: Global, table: &Word) -> Result<Option<Refusal>, Memory>
    ensures { IfOk result (λ refusal. refusal ≡ Some (NoTable (name_text table.now))) }
{
    let name = printed_name(alloc, table)?;
    Ok(Some(Refusal::NoTable(name)))
}

/// The first refusal of a statement over a schema, or none where it is accepted. It copies nothing,
/// for callers that don't keep the statement.
pub fn refusal_of(alloc: Global, stmt: &Stmt, schema: &Schema) -> Result<Option<Refusal>, Memory>
    ensures { IfOk result (λ refusal. refusal ≡ check_refusal (stmt_tree stmt.now) schema.now) }
{
    match stmt {
        Stmt::Create { table, columns } => create_refusal(alloc, table, columns.as_slice(), schema),
        Stmt::Drop { table } => drop_refusal(alloc, table, schema),
        Stmt::Alter { table, column } => match source_named(schema, table) {
            Some(source) => alter_refusal(alloc, column, source),
            None => no_table(alloc, table),
        },
        Stmt::Insert {
            table,
            columns,
            rows,
        } => match source_named(schema, table) {
            Some(source) => insert_refusal(alloc, columns.as_slice(), rows.as_slice(), source),
            None => no_table(alloc, table),
        },
        Stmt::Delete { table, cond } => match source_named(schema, table) {
            Some(source) => delete_refusal(alloc, cond, source),
            None => no_table(alloc, table),
        },
        Stmt::Update { table, sets, cond } => match source_named(schema, table) {
            Some(source) => update_refusal(alloc, sets.as_slice(), cond, source),
            None => no_table(alloc, table),
        },
        Stmt::Query(query) => query_refusal(alloc, query, schema),
        Stmt::Explain(query) => query_refusal(alloc, query, schema),
    }
}

/// An equal table, which shares the texts.
fn copy_source(alloc: Global, source: &Source) -> Result<Source, Memory>
    ensures { IfOk result (λ copy. copy ≡ source.now) }
{
    Ok(Source {
        table: source.table.share()?,
        columns: copy_columns(alloc, source.columns.as_slice())?,
    })
}

/// The tables of FROM.
fn sources_of_froms(
    alloc: Global,
    froms: &[FromItem],
    schema: &Schema,
) -> Result<Sequence<Source>, Memory>
    ensures { IfOk result (λ sources. sources ≡ sources_named_of (map (λ (from : FromItemSeen). from.table) froms.now) schema.now) }
{
    let mut sources = Sequence::new(alloc);
    let mut rest = froms;
    'froms: while let [from, more @ ..] = rest {
        if let Some(source) = source_named(schema, &from.table) {
            sources.push(copy_source(alloc, source)?)?;
        }
        rest = more;
    }
    Ok(sources)
}

/// The one table of a statement.
fn sources_of_table(
    alloc: Global,
    table: &Word,
    schema: &Schema,
) -> Result<Sequence<Source>, Memory>
    ensures { IfOk result (λ sources. sources ≡ sources_named_of (table.now ∷ []) schema.now) }
{
    let mut sources = Sequence::new(alloc);
    if let Some(source) = source_named(schema, table) {
        sources.push(copy_source(alloc, source)?)?;
    }
    Ok(sources)
}

/// The tables that a statement names.
fn sources_of(alloc: Global, stmt: &Stmt, schema: &Schema) -> Result<Sequence<Source>, Memory>
    ensures { IfOk result (λ sources. sources ≡ sources_named_of (tables_of (stmt_tree stmt.now)) schema.now) }
{
    match stmt {
        Stmt::Create { .. } => Ok(Sequence::new(alloc)),
        Stmt::Drop { table } => sources_of_table(alloc, table, schema),
        Stmt::Alter { table, .. } => sources_of_table(alloc, table, schema),
        Stmt::Insert { table, .. } => sources_of_table(alloc, table, schema),
        Stmt::Delete { table, .. } => sources_of_table(alloc, table, schema),
        Stmt::Update { table, .. } => sources_of_table(alloc, table, schema),
        Stmt::Query(query) => sources_of_froms(alloc, query.froms.as_slice(), schema),
        Stmt::Explain(query) => sources_of_froms(alloc, query.froms.as_slice(), schema),
    }
}

/// An accepted statement with the tables that it names, for callers that have asked `refusal_of`
/// before. A schema with a table of 2^32 columns or more fails with `Memory`.
pub fn typed_over(alloc: Global, stmt: &Stmt, schema: &Schema) -> Result<Typed, Memory>
    requires formed { IsFormed (stmt_tree stmt.now) }
    requires accepted { check_refusal (stmt_tree stmt.now) schema.now ≡ None }
    ensures statement { IfOk result (λ typed. stmt_tree typed.stmt ≡ stmt_tree stmt.now) }
    ensures sources { IfOk result (λ typed. typed.sources ≡ sources_named_of (tables_of (stmt_tree stmt.now)) schema.now) }
{
    let sources = sources_of(alloc, stmt, schema)?;
    let copy = stmt.copy(alloc)?;
    Typed::new(copy, sources)
}

/// The statement with the tables that it names, if the check accepts it over the schema, and
/// else its first refusal. A schema with a table of 2^32 columns or more fails with `Memory`.
pub fn check(alloc: Global, stmt: &Stmt, schema: &Schema) -> Result<Typed, CheckError>
    requires formed { IsFormed (stmt_tree stmt.now) }
    ensures accepted { IfOk result (λ typed. check_refusal (stmt_tree stmt.now) schema.now ≡ None) }
    ensures statement { IfOk result (λ typed. stmt_tree typed.stmt ≡ stmt_tree stmt.now) }
    ensures sources { IfOk result (λ typed. typed.sources ≡ sources_named_of (tables_of (stmt_tree stmt.now)) schema.now) }
    ensures refused { (refusal : RefusalSeen) → result ≡ Err (Refused refusal) → check_refusal (stmt_tree stmt.now) schema.now ≡ Some refusal }
{
    if let Some(refusal) = refusal_of(alloc, stmt, schema)? {
        return Err(CheckError::Refused(refusal));
    }
    let typed = typed_over(alloc, stmt, schema)?;
    Ok(typed)
}
