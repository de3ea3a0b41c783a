//! What statements do to a database.
ghost use Rattle.std.specs.Prelude.{◌≡◌, bytes_eq, filter, map, not, None, Ok, IfOk, OnErr};
ghost use Rattle.std.specs.Option.{option_map};
ghost use Rattle.cell_core.specs.declared.table.Db.{Db as DbSeen};
ghost use Rattle.cell_core.specs.declared.table.Table.{Table as TableSeen};
ghost use Rattle.cell_core.specs.Tables.{named_table};
ghost use Rattle.sql_tree.specs.Tree.{cond_tree, set_tree, stmt_tree};
ghost use Rattle.sql_tree.specs.Names.{name_text};
ghost use Rattle.sql_definitions.specs.declared.refusal.Refusal.{Refusal as RefusalSeen};
ghost use Rattle.sql_definitions.specs.declared.refusal.Refusal.TheVariants as refusal;
ghost use Rattle.sql_definitions.specs.declared.refusal.Reply.TheVariants.{Refused};
ghost use Rattle.sql_definitions.specs.Sources.{schema_of};
ghost use Rattle.sql_definitions.specs.Check.{check_refusal};
ghost use Rattle.sql_definitions.specs.Effect.{accepted, altered, changed, created, deleted, dropped, effect, inserted, updated};

use crate::alter::{add_column, why_not_added};
use crate::carry::carry_out;
use crate::copy::copy_db;
use crate::delete::delete_plan;
use crate::insert::insert_plan;
use crate::update::update_plan;
use cell_core::{Cell, Column, Db, Memory, Sequence, Table, Word, copy_columns};
use row_values::has_long_default;
use sql_definitions::{Refusal, Reply};
use sql_tree::{Cond, Expr, Stmt, printed_name};
use std::alloc::Global;
use std::mem;

/// Adds a table without rows, after the others.
fn create(alloc: Global, name: &Word, columns: &[Column], db: &mut Db) -> Result<Reply, Memory>
    ensures done { IfOk result (λ reply. (db.new, reply) ≡ created name.now columns.now db.old) }
    ensures kept { OnErr result (db.new ≡ db.old) }
{
    if has_long_default(columns) {
        return Ok(Reply::Refused(Refusal::TextTooLong));
    }
    let table = Table {
        name: name.share()?,
        columns: copy_columns(alloc, columns)?,
        rows: Sequence::new(alloc),
    };
    db.tables.push(table)?;
    Ok(Reply::Done)
}

/// The tables that don't have this name.
fn without(tables: Vec<Table>, name: &Word) -> Vec<Table>
    ensures { result.items ≡ filter (λ (table : TableSeen). not (bytes_eq table.name name.now)) tables.items }
{
    let mut others = tables;
    others.retain(|table| table.name != *name);
    others
}

/// Removes the tables with this name.
fn drop_named(alloc: Global, name: &Word, db: &mut Db) -> Reply
    ensures { (db.new, result) ≡ dropped name.now db.old }
{
    let tables = mem::replace(&mut db.tables, Sequence::new(alloc)).into_vec();
    db.tables = Sequence::from_vec(without(tables, name));
    Reply::Done
}

/// What a change of a table that doesn't exist replies.
fn no_table(alloc: Global, name: &Word) -> Result<Reply, Memory>
    ensures { IfOk result (λ reply. reply ≡ Refused (refusal.NoTable (name_text name.now))) }
{
    let name = printed_name(alloc, name)?;
    Ok(Reply::Refused(Refusal::NoTable(name)))
}

/// Adds a column to a table.
fn alter(alloc: Global, name: &Word, column: &Column, db: &mut Db) -> Result<Reply, Memory>
    ensures done { IfOk result (λ reply. (db.new, reply) ≡ altered name.now column.now (named_table name.now db.old) db.old) }
    ensures kept { OnErr result (db.new ≡ db.old) }
{
    let Some(table) = db.table(name) else {
        return no_table(alloc, name);
    };
    if let Some(refusal) = why_not_added(alloc, column, table.columns.len(), table.rows.len())? {
        return Ok(Reply::Refused(refusal));
    }
    add_column(alloc, name, column, db)?;
    Ok(Reply::Done)
}

/// Adds rows to a table.
fn insert(
    alloc: Global,
    name: &Word,
    listed: &[Word],
    rows: &[Sequence<Cell>],
    db: &mut Db,
) -> Result<Reply, Memory>
    ensures done { IfOk result (λ reply. (db.new, reply) ≡ changed name.now (inserted listed.now rows.now) (named_table name.now db.old) db.old) }
    ensures kept { OnErr result (db.new ≡ db.old) }
{
    let Some(table) = db.table(name) else {
        return no_table(alloc, name);
    };
    let plan = insert_plan(alloc, listed, rows, table)?;
    carry_out(alloc, name, plan, db)
}

/// Removes the rows of a table of which a condition is true.
fn delete(alloc: Global, name: &Word, cond: &Option<Cond>, db: &mut Db) -> Result<Reply, Memory>
    ensures done { IfOk result (λ reply. (db.new, reply) ≡ changed name.now (deleted (option_map cond_tree cond.now)) (named_table name.now db.old) db.old) }
    ensures kept { OnErr result (db.new ≡ db.old) }
{
    let Some(table) = db.table(name) else {
        return no_table(alloc, name);
    };
    let plan = delete_plan(alloc, cond, table)?;
    carry_out(alloc, name, plan, db)
}

/// Replaces the rows of a table of which a condition is true.
fn update(
    alloc: Global,
    name: &Word,
    sets: &[(Word, Expr)],
    cond: &Option<Cond>,
    db: &mut Db,
) -> Result<Reply, Memory>
    ensures done { IfOk result (λ reply. (db.new, reply) ≡ changed name.now (updated (map set_tree sets.now) (option_map cond_tree cond.now)) (named_table name.now db.old) db.old) }
    ensures kept { OnErr result (db.new ≡ db.old) }
{
    let Some(table) = db.table(name) else {
        return no_table(alloc, name);
    };
    let plan = update_plan(alloc, sets, cond, table)?;
    carry_out(alloc, name, plan, db)
}

/// Does what an accepted statement does, in place.
fn accept(alloc: Global, stmt: &Stmt, db: &mut Db) -> Result<Reply, Memory>
    ensures done { IfOk result (λ reply. (db.new, reply) ≡ accepted (stmt_tree stmt.now) db.old) }
    ensures kept { OnErr result (db.new ≡ db.old) }
{
    match stmt {
        Stmt::Create { table, columns } => create(alloc, table, columns.as_slice(), db),
        Stmt::Drop { table } => Ok(drop_named(alloc, table, db)),
        Stmt::Alter { table, column } => alter(alloc, table, column, db),
        Stmt::Insert {
            table,
            columns,
            rows,
        } => insert(alloc, table, columns.as_slice(), rows.as_slice(), db),
        Stmt::Delete { table, cond } => delete(alloc, table, cond, db),
        Stmt::Update { table, sets, cond } => update(alloc, table, sets.as_slice(), cond, db),
        Stmt::Query(_) => Ok(Reply::Done),
        Stmt::Explain(_) => Ok(Reply::Done),
    }
}

/// Does what an accepted statement does to a database, in place, and returns its reply. A query
/// changes nothing, and a change of a table that doesn't exist is refused. Where the check accepts
/// the statement, this is its effect. Where it is refused or memory runs out, the database is as it
/// was.
pub fn change(alloc: Global, stmt: &Stmt, db: &mut Db) -> Result<Reply, Memory>
    ensures done { IfOk result (λ reply. (db.new, reply) ≡ accepted (stmt_tree stmt.now) db.old) }
    ensures effect { check_refusal (stmt_tree stmt.now) (schema_of db.old) ≡ None → IfOk result (λ reply. (db.new, reply) ≡ effect (stmt_tree stmt.now) db.old) }
    ensures refused { (refusal : RefusalSeen) → result ≡ Ok (Refused refusal) → db.new ≡ db.old }
    ensures kept { OnErr result (db.new ≡ db.old) }
{
    accept(alloc, stmt, db)
}

/// The same on a copy: the database after an accepted statement, and its reply.
pub fn slow_effect(alloc: Global, stmt: &Stmt, db: &Db) -> Result<(Db, Reply), Memory>
    ensures done { IfOk result (λ outcome. outcome ≡ accepted (stmt_tree stmt.now) db.now) }
    ensures effect { check_refusal (stmt_tree stmt.now) (schema_of db.now) ≡ None → IfOk result (λ outcome. outcome ≡ effect (stmt_tree stmt.now) db.now) }
    ensures refused { (left : DbSeen) (refusal : RefusalSeen) → result ≡ Ok (left, Refused refusal) → left ≡ db.now }
{
    let mut copy = copy_db(alloc, db)?;
    let reply = change(alloc, stmt, &mut copy)?;
    Ok((copy, reply))
}
