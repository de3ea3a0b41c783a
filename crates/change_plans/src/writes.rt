//! DELETE and UPDATE, decided from the rows of their plan.
ghost use Rattle.std.specs.Prelude.{◌≡◌, drop, map, true, Some, Err, IfOk};
ghost use Rattle.cell_core.specs.declared.table.Db.{Db as DbSeen};
ghost use Rattle.cell_core.specs.declared.table.Table.{Table as TableSeen};
ghost use Rattle.cell_core.specs.Tables.{named_table};
ghost use Rattle.mal_meaning.specs.Meaning.{plan_rows};
ghost use Rattle.sql_tree.specs.Tree.{set_tree, stmt_tree};
ghost use Rattle.sql_definitions.specs.declared.refusal.Reply.TheVariants.{Refused};
ghost use Rattle.sql_definitions.specs.Effect.{changed, effect};
ghost use Rattle.rows_to_mal.specs.Laws.{HoldsTables};
ghost use Rattle.rows_to_mal.specs.Writes.{is_write, write_plan};
ghost use Rattle.change_plans.specs.Hits.{change_of, changed_table};
ghost use Rattle.change_plans.specs.Decisions.{decided_by, decided_update, is_in_place, left_by, own_columns as own_columns_of, place_of as place_of_row, reply_of};
ghost use Rattle.change_plans.specs.Laws.{OverflowsOver};

use crate::cells::{ColumnFault, is_any_refused};
use crate::decided::Decided;
use crate::laws::{decisions_are_in_place, decisions_are_meant, writes_give_hits};
use cell_core::{Cell, Column, Db, Memory, Sequence, Table, Word, copy_cells};
use sql_changes::change;
use sql_definitions::{Refusal, Reply, Source, Typed};
use sql_tree::{Expr, Stmt};
use std::alloc::Global;

/// The place of the table's row for which a row of a plan is.
fn place_of(row: &[Cell]) -> u64
    ensures { result ≡ place_of_row row.now }
{
    match row {
        [Cell::Oid(place), ..] => *place,
        _ => 0,
    }
}

/// The places of the rows of a plan.
fn places_of(alloc: Global, rows: &[Sequence<Cell>]) -> Result<Sequence<u64>, Memory>
    ensures { IfOk result (λ places. places ≡ map place_of_row rows.now) }
{
    let mut places = Sequence::new(alloc);
    let mut rest = rows;
    'rows: while let [row, more @ ..] = rest {
        places.push(place_of(row.as_slice()))?;
        rest = more;
    }
    Ok(places)
}

/// The new cells of a row of a plan.
fn cells_after(alloc: Global, row: &[Cell]) -> Result<Sequence<Cell>, Memory>
    ensures { IfOk result (λ cells. cells ≡ drop 1 row.now) }
{
    match row {
        [] => Ok(Sequence::new(alloc)),
        [_, cells @ ..] => copy_cells(alloc, cells),
    }
}

/// The new cells of the rows of a plan.
fn new_cells(alloc: Global, rows: &[Sequence<Cell>]) -> Result<Sequence<Sequence<Cell>>, Memory>
    ensures { IfOk result (λ cells. cells ≡ map (drop 1) rows.now) }
{
    let mut cells = Sequence::new(alloc);
    let mut rest = rows;
    'rows: while let [row, more @ ..] = rest {
        cells.push(cells_after(alloc, row.as_slice())?)?;
        rest = more;
    }
    Ok(cells)
}

/// The names of the columns that are set.
fn names_of(alloc: Global, sets: &[(Word, Expr)]) -> Result<Sequence<Word>, Memory>
    ensures { IfOk result (λ names. names ≡ map (λ set. set.0) (map set_tree sets.now)) }
{
    let mut names = Sequence::new(alloc);
    let mut rest = sets;
    'sets: while let [set, more @ ..] = rest {
        names.push(set.0.share()?)?;
        rest = more;
    }
    Ok(names)
}

/// The columns of the one table of a change.
fn own_columns(sources: &[Source]) -> &[Column]
    ensures { result.now ≡ own_columns_of sources.now }
{
    match sources {
        [] => &[],
        [source, ..] => source.columns.as_slice(),
    }
}

/// What the rows of its plan decide of an UPDATE of a table with these columns.
fn decide_update(
    alloc: Global,
    columns: &[Column],
    sets: &[(Word, Expr)],
    rows: &[Sequence<Cell>],
) -> Result<Decided, Memory>
    ensures { IfOk result (λ decided. decided ≡ decided_update columns.now (map (λ set. set.0) (map set_tree sets.now)) (map place_of_row rows.now) (map (drop 1) rows.now)) }
{
    let names = names_of(alloc, sets)?;
    let cells = new_cells(alloc, rows)?;
    if is_any_refused(
        ColumnFault::TooLong,
        columns,
        names.as_slice(),
        cells.as_slice(),
    ) {
        return Ok(Decided::Refused(Refusal::TextTooLong));
    }
    if is_any_refused(
        ColumnFault::Null,
        columns,
        names.as_slice(),
        cells.as_slice(),
    ) {
        return Ok(Decided::Refused(Refusal::NullStored));
    }
    let set = places_of(alloc, rows)?;
    Ok(Decided::Set {
        columns: names,
        places: set,
        cells,
    })
}

/// What the rows of its plan decide of a change, exactly.
fn decide_from(alloc: Global, typed: &Typed, rows: &[Sequence<Cell>]) -> Result<Decided, Memory>
    ensures { IfOk result (λ decided. decided ≡ decided_by (stmt_tree typed.now.stmt) (own_columns_of typed.now.sources) rows.now) }
{
    match &typed.stmt {
        Stmt::Update { sets, .. } => {
            let columns = own_columns(typed.sources.as_slice());
            decide_update(alloc, columns, sets.as_slice(), rows)
        }
        Stmt::Create { .. }
        | Stmt::Drop { .. }
        | Stmt::Alter { .. }
        | Stmt::Insert { .. }
        | Stmt::Delete { .. }
        | Stmt::Query(_)
        | Stmt::Explain(_) => {
            let places = places_of(alloc, rows)?;
            Ok(Decided::Gone { places })
        }
    }
}

/// Decides a checked DELETE or UPDATE from the rows of its plan alone: a DELETE removes rows, and
/// an UPDATE sets the columns that it names, or is refused.
///
/// Where these are the plan's rows over a valid database that has the statement's table, the
/// decision changes the table as SQL says, the rows that it touches exist, and the statement's
/// effect on the database is that change of the table.
pub fn decide(alloc: Global, typed: &Typed, rows: &[Sequence<Cell>]) -> Result<Decided, Memory>
    requires { is_write (stmt_tree typed.now.stmt) ≡ true }
    ensures decided { IfOk result (λ decided. decided ≡ decided_by (stmt_tree typed.now.stmt) (own_columns_of typed.now.sources) rows.now) }
    ensures table { IfOk result (λ decided. (db : DbSeen) (table : TableSeen) → HoldsTables (stmt_tree typed.now.stmt) typed.now.sources db → named_table (changed_table (stmt_tree typed.now.stmt)) db ≡ Some table
        → plan_rows (write_plan (stmt_tree typed.now.stmt) typed.now.sources) db ≡ Some rows.now → left_by decided table ≡ change_of (stmt_tree typed.now.stmt) table) }
    ensures in_place { IfOk result (λ decided. (db : DbSeen) (table : TableSeen) → HoldsTables (stmt_tree typed.now.stmt) typed.now.sources db → named_table (changed_table (stmt_tree typed.now.stmt)) db ≡ Some table
        → plan_rows (write_plan (stmt_tree typed.now.stmt) typed.now.sources) db ≡ Some rows.now → is_in_place decided table ≡ true) }
    ensures effect { IfOk result (λ decided. (db : DbSeen) → HoldsTables (stmt_tree typed.now.stmt) typed.now.sources db
        → plan_rows (write_plan (stmt_tree typed.now.stmt) typed.now.sources) db ≡ Some rows.now
        → effect (stmt_tree typed.now.stmt) db ≡ changed (changed_table (stmt_tree typed.now.stmt)) (left_by decided) (named_table (changed_table (stmt_tree typed.now.stmt)) db) db) }
{
    writes_give_hits();
    decisions_are_meant();
    decisions_are_in_place();
    decide_from(alloc, typed, rows)
}

/// What a DELETE or an UPDATE of this table replies, computed row by row.
fn reply_over(alloc: Global, stmt: &Stmt, table: Table) -> Result<Reply, Memory>
    requires write { is_write (stmt_tree stmt.now) ≡ true }
    requires name { table.name ≡ changed_table (stmt_tree stmt.now) }
    ensures { IfOk result (λ reply. reply ≡ reply_of (change_of (stmt_tree stmt.now) table)) }
{
    let mut db = Db {
        tables: Sequence::from_vec(vec![in alloc; table]?),
    };
    change(alloc, stmt, &mut db)
}

/// Why a checked DELETE or UPDATE is refused whose plan overflows over this table. A text that is
/// too long or Nil in some row comes before the overflow, so the rows are looked at one by one.
pub fn refusal_over(alloc: Global, typed: &Typed, table: Table) -> Result<Refusal, Memory>
    requires write { is_write (stmt_tree typed.now.stmt) ≡ true }
    requires overflows { OverflowsOver (stmt_tree typed.now.stmt) typed.now.sources table }
    ensures table { IfOk result (λ refusal. change_of (stmt_tree typed.now.stmt) table ≡ Err refusal) }
    ensures effect { IfOk result (λ refusal. (db : DbSeen) → HoldsTables (stmt_tree typed.now.stmt) typed.now.sources db → named_table (changed_table (stmt_tree typed.now.stmt)) db ≡ Some table
        → effect (stmt_tree typed.now.stmt) db ≡ (db, Refused refusal)) }
{
    writes_give_hits();
    match reply_over(alloc, &typed.stmt, table)? {
        Reply::Refused(refusal) => Ok(refusal),
        Reply::Done | Reply::Rows(_) => unreachable!(),
    }
}
