//! A table of the most rows, and INSERTs that would pass them.
ghost use Rattle.std.specs.Prelude.{◌≡◌, ◌<◌};

use crate::beside::{Beside, read};
use bat_core::{Bat, Columns};
use cell_core::{Cell, Memory, word_of};
use sql_definitions::{Refusal, Reply};
use std::alloc::Global;
use std::marker::Brand;
use std::sync::ledger::{Blank, Ledger};
use std::test::Fail;

/// An INSERT of so many rows.
fn inserted(alloc: Global, count: u64) -> Result<String, Memory> {
    let mut text = Vec::new(alloc);
    text.extend_from_slice(b"INSERT INTO t VALUES (1)")?;
    for _ in 1..count {
        text.extend_from_slice(b",(1)")?;
    }
    String::from_utf8(text).map_err(|_| Memory)
}

/// Whether the book replies to a CREATE and to 65 INSERTs of 16,000 rows as it should.
fn fills<L: Ledger>(alloc: Global, beside: &mut Beside<L>) -> Result<bool, Memory> {
    let create = read(alloc, "CREATE TABLE t (a INT)")?;
    let text = inserted(alloc, 16_000)?;
    let insert = read(alloc, text.as_str())?;
    let mut right = matches!(beside.written(alloc, &create)?, Reply::Done);
    for _ in 0..65 {
        right &= matches!(beside.written(alloc, &insert)?, Reply::Rows(16_000));
    }
    Ok(right)
}

/// Whether every pair of a column is of its place and 1.
fn has_ones(column: &Bat) -> bool {
    for place in 0..column.len() {
        let (head, tail) = column.pair(place);
        let is_one = matches!(tail.cell(), Cell::Int(1));
        if !is_one || !matches!(head.cell(), Cell::Oid(at) if *at == place) {
            return false;
        }
    }
    true
}

/// How many rows the table has, and the version of its column.
fn rows_now<L: Ledger>(alloc: Global, beside: &mut Beside<L>) -> Result<(u64, u64), Memory> {
    let snap = beside.snapshot(alloc)?;
    let (table, column) = (word_of(alloc, "t")?, word_of(alloc, "a")?);
    match snap.column(alloc, &table, &column)? {
        Some(found) => Ok((found.bat().len(), snap.version(&table, &column))),
        None => Err(Memory),
    }
}

/// Whether each row of the table is 1.
fn are_ones<L: Ledger>(alloc: Global, beside: &mut Beside<L>) -> Result<bool, Memory> {
    let snap = beside.snapshot(alloc)?;
    let (table, column) = (word_of(alloc, "t")?, word_of(alloc, "a")?);
    match snap.column(alloc, &table, &column)? {
        Some(found) => Ok(has_ones(found.bat())),
        None => Err(Memory),
    }
}

/// Whether this is the refusal of too many rows.
fn is_limit(alloc: Global, refusal: &Refusal) -> Result<bool, Memory> {
    let mut words = Vec::new(alloc);
    refusal.write_words(&mut words)?;
    Ok(refusal.number() == 11 && words.as_slice() == b"limit rows".as_slice())
}

/// Whether an INSERT of so many rows leaves the table with `after` rows. Where these are no more
/// than before, it has to be refused, and the column keeps its version.
fn leaves<L: Ledger>(
    alloc: Global,
    beside: &mut Beside<L>,
    count: u64,
    after: u64,
) -> Result<bool, Memory> {
    let (rows, version) = rows_now(alloc, beside)?;
    let text = inserted(alloc, count)?;
    let insert = read(alloc, text.as_str())?;
    let reply = beside.written(alloc, &insert)?;
    let (rows_after, version_after) = rows_now(alloc, beside)?;
    let is_told = match &reply {
        Reply::Rows(done) => *done == count && rows < after && version < version_after,
        Reply::Refused(refusal) => {
            is_limit(alloc, refusal)? && rows == after && version == version_after
        }
        Reply::Done => false,
    };
    Ok(is_told && rows_after == after)
}

/// INSERTs into a table of 1,040,000 rows: how many rows each adds, and how many the table then has.
const INSERTS: [(u64, u64); 6] = [
    (8_577, 1_040_000),
    (8_571, 1_048_571),
    (6, 1_048_571),
    (16_000, 1_048_571),
    (5, 1_048_576),
    (1, 1_048_576),
];

/// Fills a table. Returns whether each reply is right, and each row at the end.
fn is_filled<L: Ledger>(alloc: Global, blank: Blank) -> Result<bool, Memory>
    requires name { blank.name ≡ L.name }
    requires parts { blank.parts ≡ L.parts }
    requires some { 0 < blank.parts }
{
    let mut beside = Beside::<L>::new(alloc, blank)?;
    let mut right = fills(alloc, &mut beside)?;
    for (count, after) in INSERTS {
        right &= leaves(alloc, &mut beside, count, after)?;
    }
    Ok(right && are_ones(alloc, &mut beside)?)
}

#[test]
fn a_full_table_takes_no_row(rt: HostRuntime) -> Result<(), Fail> {
    let alloc = rt.alloc();
    assert!(rt; is_filled::<Brand>(alloc, Blank::new(1))?);
    Ok(())
}
