//! The wanted outcome of a change is that of the plain program of the language.
ghost use Rattle.std.specs.Prelude.{◌≡◌, ◌<◌};

use crate::beside::{Beside, WHO, empty_book, has_tables, read};
use cell_core::{Cell, Db, Memory, Op, Sequence, word_of};
use lineage_key::{Key, KeyArg};
use recycle_pool::Found;
use sql_changes::{change, slow_effect};
use sql_definitions::Refusal;
use std::alloc::Global;
use std::marker::Brand;
use std::sync::ledger::{Blank, Ledger};
use std::test::Fail;

/// Changes that the check accepts, one after the other; some are refused by the rows of their table.
const CHANGES: [&str; 24] = [
    "CREATE TABLE t (a INT, b VARCHAR(3) DEFAULT 'abc', c INT NOT NULL)",
    "CREATE TABLE u (d DATE)",
    "CREATE TABLE v (e VARCHAR(2) DEFAULT 'abc')",
    "INSERT INTO t VALUES (1, 'x', 10), (2, NULL, 20), (NULL, 'z', 30)",
    "INSERT INTO t (c, a) VALUES (40, 4), (50, 5)",
    "INSERT INTO t VALUES (6, 'long', 60), (7, 'x', NULL)",
    "INSERT INTO t (a) VALUES (6)",
    "INSERT INTO u VALUES (DATE '2024-02-29')",
    "UPDATE t SET a = a + c, c = a WHERE b = 'x'",
    "UPDATE t SET a = c * 9223372036854775807 WHERE a > 3",
    "UPDATE t SET b = 'long', a = c * 9223372036854775807 WHERE a > 3",
    "UPDATE t SET c = NULL, a = c * 9223372036854775807 WHERE a > 3",
    "UPDATE t SET c = a WHERE a IS NULL",
    "UPDATE t SET b = 'no', c = c + 1 WHERE a > 1 AND b IS NOT NULL",
    "UPDATE t SET a = 0 WHERE a > 1000",
    "DELETE FROM t WHERE c = 41",
    "DELETE FROM t WHERE b IS NULL AND NOT a > 2",
    "ALTER TABLE t ADD COLUMN f INT DEFAULT 9",
    "ALTER TABLE t ADD COLUMN g INT NOT NULL",
    "ALTER TABLE t ADD COLUMN h VARCHAR(1) DEFAULT 'ab'",
    "UPDATE t SET f = f - a WHERE b = 'no'",
    "DELETE FROM u",
    "ALTER TABLE u ADD COLUMN k INT NOT NULL",
    "DROP TABLE u",
];

/// Does the changes to a book and to plain tables. Returns whether both reply alike and have the
/// same tables after each. Where memory may run out, a change that lacks it is done to neither.
fn changes_agree<L: Ledger>(alloc: Global, may_lack: bool, blank: Blank) -> Result<bool, Memory>
    requires name { blank.name ≡ L.name }
    requires parts { blank.parts ≡ L.parts }
    requires some { 0 < blank.parts }
{
    let mut beside = Beside::<L>::new(alloc, blank)?;
    for text in CHANGES {
        if !beside.write(alloc, text, may_lack)? || !beside.agrees(alloc)? {
            return Ok(false);
        }
    }
    Ok(true)
}

#[test]
fn changes_are_those_of_the_plain_program(rt: HostRuntime) -> Result<(), Fail> {
    let alloc = rt.alloc();
    assert!(rt; changes_agree::<Brand>(alloc, false, Blank::new(1))?);
    Ok(())
}

#[test]
fn changes_are_done_whole_or_not_at_all(rt: HostRuntime) -> Result<(), Fail> {
    // With `rt try --test --fail-alloc N` the Nth allocation fails; outside of the changes it ends the test.
    if let Ok(whole) = changes_agree::<Brand>(rt.alloc(), true, Blank::new(1)) {
        assert!(rt; whole);
    }
    Ok(())
}

/// An INSERT of 16,000 rows.
fn many_rows(alloc: Global) -> Result<String, Memory> {
    let mut text = Vec::new(alloc);
    text.extend_from_slice(b"INSERT INTO t VALUES (1)")?;
    for _ in 0..15_999 {
        text.extend_from_slice(b",(1)")?;
    }
    String::from_utf8(text).map_err(|_| Memory)
}

/// The same tables once more.
fn copy_tables(alloc: Global, db: &Db) -> Result<Db, Memory> {
    let stmt = read(alloc, "CREATE TABLE nothing (a INT)")?;
    let (mut copy, _) = slow_effect(alloc, &stmt, db)?;
    let stmt = read(alloc, "DROP TABLE nothing")?;
    let _ = change(alloc, &stmt, &mut copy)?;
    Ok(copy)
}

/// Holds a snapshot of 208,000 rows while 200 more are added one by one. Returns whether the
/// snapshot stays and the rows are those of the plain tables.
fn snapshot_stays<L: Ledger>(alloc: Global, blank: Blank) -> Result<bool, Memory>
    requires name { blank.name ≡ L.name }
    requires parts { blank.parts ≡ L.parts }
    requires some { 0 < blank.parts }
{
    let mut beside = Beside::<L>::new(alloc, blank)?;
    let many = many_rows(alloc)?;
    let mut agree = beside.write(alloc, "CREATE TABLE t (a INT)", false)?;
    for _ in 0..13 {
        agree &= beside.write(alloc, many.as_str(), false)?;
    }
    let held = beside.snapshot(alloc)?;
    let before = copy_tables(alloc, &beside.db)?;
    for _ in 0..200 {
        agree &= beside.write(alloc, "INSERT INTO t VALUES (2)", false)?;
    }
    Ok(agree && has_tables(alloc, &held, &before)? && beside.agrees(alloc)?)
}

#[test]
fn a_snapshot_stays_while_rows_come(rt: HostRuntime) -> Result<(), Fail> {
    let alloc = rt.alloc();
    assert!(rt; snapshot_stays::<Brand>(alloc, Blank::new(1))?);
    Ok(())
}

/// The key of a column of a table that isn't there.
fn column_key(alloc: Global) -> Result<Key, Memory> {
    let mut args = Vec::new(alloc);
    args.push(KeyArg::Const(Cell::Text(word_of(alloc, "t")?)))?;
    args.push(KeyArg::Const(Cell::Text(word_of(alloc, "a")?)))?;
    args.push(KeyArg::Const(Cell::Text(word_of(alloc, "int")?)))?;
    Ok(Key {
        op: Op::Bind,
        args: Sequence::from_vec(args),
        version: 1,
    })
}

#[test]
fn events_are_counted(rt: HostRuntime) -> Result<(), Fail> {
    let alloc = rt.alloc();
    let mut book = empty_book(alloc)?;
    let mut parts = Vec::new(alloc);
    assert!(rt;
        matches!(
            book.look(WHO, 1, column_key(alloc)?, &mut parts)?,
            Found::Miss
        )
    );
    book.refuse(WHO, &Refusal::Syntax)?;
    let totals = book.totals();
    assert_eq!(rt; (totals.looks, totals.miss, totals.events), (1, 1, 2));
    assert_eq!(rt; book.log().len(), 2);
    Ok(())
}
