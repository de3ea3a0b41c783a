//! Plans that are carried out in a database.
ghost use Rattle.std.specs.Prelude.{◌≡◌, ◌<◌, length, slice_set, slice_index_or, IfOk, OnOk, OnErr, IfSome, IsSome};
ghost use Rattle.std.specs.List.{list_any};
ghost use Rattle.cell_core.specs.declared.table.Table.{Table as TableSeen};
ghost use Rattle.cell_core.specs.Tables.{named_table};
ghost use Rattle.sql_definitions.specs.Effect.{changed};
ghost use Rattle.sql_changes.specs.Plans.{change_of, is_named, place_once, reworked, rows_after};

use crate::copy::{copies_with, copy_table};
use crate::plan::{PlannedChange, Work, rework};
use cell_core::{Db, Memory, Sequence, Table, Word};
use sql_definitions::Reply;
use std::alloc::Global;
use std::mem;

/// Whether one of the tables has this name.
fn has_name(tables: &[Table], name: &Word) -> bool
    ensures { result ≡ list_any (is_named name.now) tables.now }
{
    let mut rest = tables;
    'tables: while let [table, more @ ..] = rest {
        if table.name == *name {
            return true;
        }
        rest = more;
    }
    false
}

/// The place of the table with this name, where only one has it.
pub(crate) fn find_once(tables: &[Table], name: &Word) -> Option<usize>
    ensures place { result ≡ place_once name.now tables.now }
    ensures within { IfSome result (λ at. at < length tables.now) }
{
    let mut rest = tables;
    'tables: while let [table, more @ ..] = rest {
        if table.name == *name {
            if has_name(more, name) {
                return None;
            }
            return Some(tables.len() - rest.len());
        }
        rest = more;
    }
    None
}

/// Does the work on the table at a place.
fn rework_at(alloc: Global, at: usize, work: Work, db: &mut Db) -> Result<(), Memory>
    requires { at < length db.old.tables }
    ensures done { OnOk result ((first : TableSeen) → let table = slice_index_or db.old.tables at first in db.new.tables ≡ slice_set db.old.tables at (record table { rows = rows_after work table.rows })) }
    ensures kept { OnErr result (db.new ≡ db.old) }
{
    let mut tables = mem::replace(&mut db.tables, Sequence::new(alloc)).into_vec();
    let outcome = rework(alloc, work, &mut tables[at]);
    db.tables = Sequence::from_vec(tables);
    outcome
}

/// Does the work on a copy of the first table with this name, and assigns its rows to all tables
/// with the name.
fn rework_copy(alloc: Global, name: &Word, work: Work, db: &mut Db) -> Result<(), Memory>
    ensures done { OnOk result (db.new.tables ≡ reworked name.now work (named_table name.now db.old) db.old.tables) }
    ensures kept { OnErr result (db.new ≡ db.old) }
{
    let Some(first) = db.table(name) else {
        return Ok(());
    };
    let mut table = copy_table(alloc, first)?;
    rework(alloc, work, &mut table)?;
    let tables = copies_with(alloc, name, table.rows.as_slice(), db.tables.as_slice())?;
    db.tables = tables;
    Ok(())
}

/// Does the work on the table with this name.
fn rework_named(alloc: Global, name: &Word, work: Work, db: &mut Db) -> Result<(), Memory>
    ensures done { OnOk result (db.new.tables ≡ reworked name.now work (named_table name.now db.old) db.old.tables) }
    ensures kept { OnErr result (db.new ≡ db.old) }
{
    match find_once(db.tables.as_slice(), name) {
        Some(at) => rework_at(alloc, at, work, db),
        None => rework_copy(alloc, name, work, db),
    }
}

/// Carries out a plan for the table with this name.
pub(crate) fn carry_out(
    alloc: Global,
    name: &Word,
    plan: PlannedChange,
    db: &mut Db,
) -> Result<Reply, Memory>
    requires { IsSome (named_table name.now db.old) }
    ensures done { IfOk result (λ reply. (db.new, reply) ≡ changed name.now (λ (table : TableSeen). change_of plan table.rows) (named_table name.now db.old) db.old) }
    ensures kept { OnErr result (db.new ≡ db.old) }
{
    match plan {
        PlannedChange::Refused(refusal) => Ok(Reply::Refused(refusal)),
        PlannedChange::Accepted(work) => {
            let count = work.touched();
            rework_named(alloc, name, work, db)?;
            Ok(Reply::Rows(count as u64))
        }
    }
}
