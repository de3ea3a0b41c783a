//! A selection that is pooled over a large table gets the rows of 200 INSERTs, one by one.
ghost use Rattle.std.specs.Prelude.{IsSome, IfOk};
ghost use Rattle.sql_definitions.specs.Answer.{query_of};
ghost use Rattle.sql_grammar.specs.Formed.{IsFormed};
ghost use Rattle.sql_tree.specs.Tree.{stmt_tree};

use bat_kernel::Kernel;
use cell_core::{Cell, Column, Db, Kind, Memory, Sequence, Table, copy_columns, word_of};
use shell_tests::run_by;
use sql_check::check;
use sql_definitions::{Schema, Source};
use sql_meaning::slow_answer;
use sql_parse::parse;
use sql_tree::Stmt;
use std::alloc::Global;
use std::test::Fail;

/// The rows of a large INSERT, of which there are 20.
const PART: u64 = 10_000;

/// The rows of all large INSERTs, and the number of the first row that comes by itself.
const MANY: u64 = 200_000;

/// All rows.
const ALL: u64 = 200_200;

/// The query, which every 45th of many rows answers, and every second one that comes by itself.
const QUERY: &str = "SELECT a FROM t WHERE a BETWEEN 40 AND 41";

/// What a row has.
fn value_of(row: u64) -> u8 {
    if row < MANY {
        (10 + row % 90) as u8
    } else {
        (40 + row % 4) as u8
    }
}

/// Adds an INSERT of the rows with these numbers.
fn insert(alloc: Global, first: u64, end: u64, script: &mut String) -> Result<(), Memory> {
    script.push_str("INSERT INTO t VALUES ")?;
    for row in first..end {
        let comma = if row == first { "" } else { "," };
        let value = value_of(row);
        let values = format!(in alloc; "{comma}({value})")?;
        script.push_str(values.as_str())?;
    }
    script.push_str(";")?;
    Ok(())
}

/// Adds the large INSERTs.
fn insert_many(alloc: Global, script: &mut String) -> Result<(), Memory> {
    for part in 0..20u64 {
        insert(alloc, part * PART, part * PART + PART, script)?;
    }
    Ok(())
}

/// Adds the INSERTs of one row.
fn insert_each(alloc: Global, script: &mut String) -> Result<(), Memory> {
    for row in MANY..ALL {
        insert(alloc, row, row + 1, script)?;
    }
    Ok(())
}

/// The script: the query comes after the large INSERTs, and at the end once more.
fn script_of(alloc: Global) -> Result<String, Memory> {
    let mut script = format!(in alloc; "CREATE TABLE t (a INT);")?;
    insert_many(alloc, &mut script)?;
    script.push_str(QUERY)?;
    script.push_str(";")?;
    insert_each(alloc, &mut script)?;
    script.push_str(QUERY)?;
    Ok(script)
}

/// The column.
fn column_of(alloc: Global) -> Result<Column, Memory> {
    Ok(Column {
        name: word_of(alloc, "a")?,
        kind: Kind::Int,
        width: 0,
        not_null: false,
        default: Cell::Nil,
    })
}

/// A row.
fn row_of(alloc: Global, row: u64) -> Result<Sequence<Cell>, Memory> {
    let mut cells = Sequence::new(alloc);
    cells.push(Cell::Int(i64::from(value_of(row))))?;
    Ok(cells)
}

/// All rows.
fn rows_of(alloc: Global) -> Result<Sequence<Sequence<Cell>>, Memory> {
    let mut rows = Sequence::new(alloc);
    for row in 0..ALL {
        rows.push(row_of(alloc, row)?)?;
    }
    Ok(rows)
}

/// The table with all rows.
fn table_of(alloc: Global) -> Result<Table, Memory> {
    let mut columns = Sequence::new(alloc);
    columns.push(column_of(alloc)?)?;
    Ok(Table {
        name: word_of(alloc, "t")?,
        columns,
        rows: rows_of(alloc)?,
    })
}

/// The table without its rows.
fn schema_of(alloc: Global, table: &Table) -> Result<Schema, Memory> {
    let columns = copy_columns(alloc, table.columns.as_slice())?;
    let mut tables = Sequence::new(alloc);
    tables.push(Source {
        table: table.name.share()?,
        columns,
    })?;
    Ok(Schema { tables })
}

/// The database of that table.
fn database_of(alloc: Global, table: Table) -> Result<Db, Memory> {
    let mut tables = Sequence::new(alloc);
    tables.push(table)?;
    Ok(Db { tables })
}

/// A statement; a text that is none counts as want of memory.
fn read(alloc: Global, text: &str) -> Result<Stmt, Memory>
    ensures { IfOk result (λ stmt. IsFormed (stmt_tree stmt)) }
{
    match parse(alloc, text) {
        Ok(stmt) => Ok(stmt),
        Err(_) => Err(Memory),
    }
}

/// The rows that a query means.
fn meant(
    alloc: Global,
    stmt: &Stmt,
    schema: &Schema,
    db: &Db,
) -> Result<Sequence<Sequence<Cell>>, Memory>
    requires formed { IsFormed (stmt_tree stmt.now) }
    requires asks { IsSome (query_of (stmt_tree stmt.now)) }
{
    let found = check(alloc, stmt, schema);
    match &found {
        Ok(typed) => slow_answer(alloc, typed, db).map_err(|_| Memory),
        Err(_) => Err(Memory),
    }
}

/// The reply of these rows.
fn reply_of(alloc: Global, rows: &Sequence<Sequence<Cell>>) -> Result<String, Memory> {
    let count = rows.len();
    let mut text = format!(in alloc; "rows {count}\n")?;
    for row in rows.as_slice() {
        let Some(Cell::Int(number)) = row.get(0) else {
            return Err(Memory);
        };
        let line = format!(in alloc; "{number}\n")?;
        text.push_str(line.as_str())?;
    }
    Ok(text)
}

/// The reply to the query over all rows, by its plain meaning.
fn answer_of(alloc: Global) -> Result<String, Memory> {
    let table = table_of(alloc)?;
    let schema = schema_of(alloc, &table)?;
    let db = database_of(alloc, table)?;
    let stmt = read(alloc, QUERY)?;
    match &stmt {
        Stmt::Query(_) => reply_of(alloc, &meant(alloc, &stmt, &schema, &db)?),
        _ => Err(Memory),
    }
}

/// Adds the replies to INSERTs with these numbers, of so many rows each.
fn count_each(
    alloc: Global,
    first: u64,
    end: u64,
    rows: u64,
    text: &mut String,
) -> Result<(), Memory> {
    for number in first..end {
        let line = format!(in alloc; "{number} ok {rows}\n")?;
        text.push_str(line.as_str())?;
    }
    Ok(())
}

/// Adds a line so many times.
fn repeat(line: &str, times: u64, text: &mut String) -> Result<(), Memory> {
    for _ in 0..times {
        text.push_str(line)?;
    }
    Ok(())
}

/// Adds the reply to the query before the INSERTs of one row. Each value came 2,222 times.
fn answer_first(text: &mut String) -> Result<(), Memory> {
    text.push_str("22 rows 4444\n")?;
    repeat("40\n", 2_222, text)?;
    repeat("41\n", 2_222, text)
}

/// Adds the reply to the query over all rows.
fn answer_last(alloc: Global, text: &mut String) -> Result<(), Memory> {
    let reply = answer_of(alloc)?;
    text.push_str("223 ")?;
    text.push_str(reply.as_str())?;
    Ok(())
}

/// The output for the session, up to its changes.
fn session_of(alloc: Global) -> Result<String, Memory> {
    let mut text = format!(in alloc; "session 1 a.sql\n1 ok\n")?;
    count_each(alloc, 2, 22, PART, &mut text)?;
    answer_first(&mut text)?;
    count_each(alloc, 23, 223, 1, &mut text)?;
    answer_last(alloc, &mut text)?;
    text.push_str("history 221\n")?;
    Ok(text)
}

/// The pool's section. Six results come back after each of the 200 INSERTs, and are found at the
/// end, with 64 bytes each and 64 more for each of 4,544 rows. The first query's work is 3 for each of
/// 200,000 rows and 9 for each that it keeps. An INSERT adds 1 for the row that the selection reads,
/// all rows so far for the join, and 9 where the row is kept.
const POOL: &str =
    "pool\nentries 6\nbytes 291200\npeak 291200\nlooks 12\nexact 6\nwithin 0\nacross 0\n\
    miss 6\ntaken 6\nthere 0\nstale 0\norphan 0\nnocredit 0\nnoroom 0\nevicted 0\ndropped 0\n\
    carried 1200\nwork 40661196\nevents 243\n";

#[test]
fn a_pooled_selection_gets_the_rows_of_200_inserts(rt: HostRuntime) -> Result<(), Fail> {
    let alloc = rt.alloc();
    let want = session_of(alloc)?;
    let script = script_of(alloc)?;
    let files = [("order", ""), ("a.sql", script.as_str())];
    let done = run_by(&rt, alloc, "replay order a.sql", &files, &Kernel::new())?;
    assert_eq!(rt; done.status, 0);
    assert!(rt; done.text.as_slice().starts_with(want.as_bytes()));
    assert!(rt; done.text.as_slice().ends_with(POOL.as_bytes()));
    Ok(())
}
