//! A script as a run of its statements over one database, its queries by their plain meaning or by
//! their plans.
ghost use Rattle.std.specs.Prelude.{IsSome};
ghost use Rattle.sql_grammar.specs.Formed.{IsFormed};
ghost use Rattle.sql_definitions.specs.Answer.{query_of};
ghost use Rattle.sql_tree.specs.Tree.{stmt_tree};
ghost use Rattle.std.specs.Prelude.{◌≡◌, true};
ghost use Rattle.rows_to_mal.specs.Rows.{keeps_rows};
ghost use Rattle.rows_to_mal.specs.Writes.{is_write};

use answer_text::write_reply;
use cell_core::{Cell, Db, Memory, RunError, Sequence, Table, copy_columns};
use group_to_mal::compile_query;
use mal_meaning::slow_run;
use reply_layout::Shown;
use rows_to_mal::{compile_rows, compile_write};
use sql_changes::{change, slow_effect};
use sql_check::{CheckError, check, refusal_of};
use sql_definitions::{Refusal, Reply, Schema, Source, Typed};
use sql_meaning::slow_answer;
use sql_parse::{ParseError, parse, split};
use sql_tree::Stmt;
use std::alloc::Global;

/// How queries are answered.
#[derive(Clone, Copy, Drop)]
pub(crate) enum Way {
    /// By their plain meaning.
    Meaning,
    /// By the meaning of their plans.
    Plan,
}

/// A table without its rows.
fn source_of(table: &Table, alloc: Global) -> Result<Source, Memory> {
    let columns = copy_columns(alloc, table.columns.as_slice())?;
    Ok(Source {
        table: table.name.share()?,
        columns,
    })
}

/// The tables without their rows.
pub(crate) fn schema_of(alloc: Global, db: &Db) -> Result<Schema, Memory> {
    let mut tables = Sequence::new(alloc);
    for table in db.tables.as_slice() {
        tables.push(source_of(table, alloc)?)?;
    }
    Ok(Schema { tables })
}

/// The rows of a query's plan.
fn planned(alloc: Global, typed: &Typed, db: &Db) -> Result<Sequence<Sequence<Cell>>, RunError>
    requires { IsSome (query_of (stmt_tree typed.now.stmt)) }
{
    let plan = compile_query(alloc, typed)?;
    slow_run(alloc, &plan, db)
}

/// The reply to a checked query.
fn answered(alloc: Global, way: Way, typed: &Typed, db: &Db) -> Result<Shown, Memory>
    requires { IsSome (query_of (stmt_tree typed.now.stmt)) }
{
    let rows = match way {
        Way::Meaning => slow_answer(alloc, typed, db),
        Way::Plan => planned(alloc, typed, db),
    };
    match rows {
        Ok(rows) => Ok(Shown::Rows(rows)),
        Err(RunError::Overflow) => Ok(Shown::Refused(Refusal::Overflow)),
        Err(RunError::Memory) => Err(Memory),
    }
}

/// The reply to a query that the tables accept.
fn accepted(alloc: Global, way: Way, stmt: &Stmt, schema: &Schema, db: &Db) -> Result<Shown, Memory>
    requires formed { IsFormed (stmt_tree stmt.now) }
    requires asks { IsSome (query_of (stmt_tree stmt.now)) }
{
    let found = check(alloc, stmt, schema);
    match &found {
        Ok(typed) => answered(alloc, way, typed, db),
        Err(_) => Err(Memory),
    }
}

/// The reply to a change, as it is shown.
fn shown(reply: Reply) -> Shown {
    match reply {
        Reply::Done => Shown::Done,
        Reply::Rows(count) => Shown::Count(count),
        Reply::Refused(refusal) => Shown::Refused(refusal),
    }
}

/// The reply to a DELETE or an UPDATE by its plan: the number of rows that it keeps, or an
/// overflow.
fn written(alloc: Global, typed: &Typed, db: &Db) -> Result<Shown, Memory>
    requires { is_write (stmt_tree typed.now.stmt) ≡ true }
{
    let plan = compile_write(alloc, typed)?;
    match slow_run(alloc, &plan, db) {
        Ok(rows) => Ok(Shown::Count(rows.len() as u64)),
        Err(RunError::Overflow) => Ok(Shown::Refused(Refusal::Overflow)),
        Err(RunError::Memory) => Err(Memory),
    }
}

/// The number of instructions that compute the rows which a statement keeps.
fn steps_to_rows(alloc: Global, typed: &Typed) -> Result<usize, Memory>
    requires { keeps_rows (stmt_tree typed.now.stmt) ≡ true }
{
    Ok(compile_rows(alloc, typed)?.instrs.len())
}

/// Whether the reply to a DELETE or an UPDATE is that by its plan. A refusal other than an overflow
/// isn't compared.
fn is_planned(alloc: Global, typed: &Typed, db: &Db, shown: &Shown) -> Result<bool, Memory> {
    match &typed.stmt {
        Stmt::Delete { .. } | Stmt::Update { .. } => match (shown, &written(alloc, typed, db)?) {
            (Shown::Count(done), Shown::Count(kept)) => {
                Ok(done == kept && steps_to_rows(alloc, typed)? > 0)
            }
            (Shown::Refused(Refusal::Overflow), Shown::Refused(..)) => Ok(true),
            (Shown::Refused(Refusal::Overflow), _) => Ok(false),
            (shown, _) => Ok(matches!(shown, Shown::Refused(_))),
        },
        _ => Ok(true),
    }
}

/// The reply to a change. The plain program and its plan have to reply alike.
fn changed(alloc: Global, stmt: &Stmt, schema: &Schema, db: &mut Db) -> Result<Shown, Memory>
    requires { IsFormed (stmt_tree stmt.now) }
{
    let told = shown(slow_effect(alloc, stmt, db)?.1);
    let found = check(alloc, stmt, schema);
    let is_told = match &found {
        Ok(typed) => is_planned(alloc, typed, db, &told)?,
        Err(_) => false,
    };
    if is_told {
        Ok(shown(change(alloc, stmt, db)?))
    } else {
        Err(Memory)
    }
}

/// The reply to a query.
fn asked(alloc: Global, way: Way, stmt: &Stmt, db: &Db) -> Result<Shown, Memory>
    requires formed { IsFormed (stmt_tree stmt.now) }
    requires asks { IsSome (query_of (stmt_tree stmt.now)) }
{
    let schema = schema_of(alloc, db)?;
    match refusal_of(alloc, stmt, &schema)? {
        Some(refusal) => Ok(Shown::Refused(refusal)),
        None => accepted(alloc, way, stmt, &schema, db),
    }
}

/// The reply to a change.
fn applied(alloc: Global, stmt: &Stmt, db: &mut Db) -> Result<Shown, Memory>
    requires { IsFormed (stmt_tree stmt.now) }
{
    let schema = schema_of(alloc, db)?;
    match refusal_of(alloc, stmt, &schema)? {
        Some(refusal) => Ok(Shown::Refused(refusal)),
        None => changed(alloc, stmt, &schema, db),
    }
}

/// The reply to a statement.
fn served(alloc: Global, way: Way, stmt: Stmt, db: &mut Db) -> Result<Shown, Memory>
    requires { IsFormed (stmt_tree stmt) }
{
    match &stmt {
        Stmt::Query(_) => asked(alloc, way, &stmt, db),
        Stmt::Explain(_) => asked(alloc, way, &stmt, db),
        _ => applied(alloc, &stmt, db),
    }
}

/// The reply to a text.
fn read(alloc: Global, way: Way, text: &str, db: &mut Db) -> Result<Shown, Memory> {
    match parse(alloc, text) {
        Ok(stmt) => served(alloc, way, stmt, db),
        Err(ParseError::Refused(refusal)) => Ok(Shown::Refused(refusal)),
        Err(ParseError::Memory) => Err(Memory),
    }
}

/// The replies to the statements of a script, one after the other.
pub(crate) fn told(alloc: Global, way: Way, script: &str) -> Result<Vec<u8>, Memory> {
    let mut db = Db {
        tables: Sequence::new(alloc),
    };
    let mut out = Vec::new(alloc);
    let mut number = 0u32;
    let pieces = split(alloc, script).map_err(|_| Memory)?;
    for piece in &pieces {
        number = number.wrapping_add(1);
        let shown = read(alloc, way, piece.text(), &mut db)?;
        write_reply(alloc, number, &shown, &mut out)?;
    }
    Ok(out)
}
