//! The store and the text of a change, by calls with enough memory.
use crate::beside::read;
use cell_core::{Cell, Column, Kind, Memory, Sequence, Word, word_of};
use run_log::StmtText;
use std::alloc::Global;
use std::test::Fail;
use table_store::{Heading, Snap, Store};

/// A table of one column of numbers, without its rows.
fn heading(alloc: Global, table: &Word, column: &Word) -> Result<Heading, Memory> {
    let mut columns = Sequence::new(alloc);
    columns.push(Column {
        name: column.share()?,
        kind: Kind::Int,
        width: 0,
        not_null: false,
        default: Cell::Nil,
    })?;
    Ok(Heading {
        name: table.share()?,
        columns,
    })
}

/// Whether a snapshot has the column, without cells.
fn has_empty(store: &Store, snap: &Snap, table: &Word, column: &Word) -> Result<bool, Memory> {
    match &store.column(snap, table, column)? {
        Some(found) => Ok(found.bat().len() == 0),
        None => Ok(false),
    }
}

/// A store with that table.
fn created(alloc: Global, table: &Word, column: &Word) -> Result<Store, Memory> {
    let mut store = Store::new(alloc);
    let change = store.add_table(alloc, heading(alloc, table, column)?)?;
    store.apply(change, 1);
    Ok(store)
}

/// Drops a table.
fn dropped(alloc: Global, store: &mut Store, table: &Word) -> Result<(), Memory> {
    let change = store.drop_table(alloc, table)?;
    store.apply(change, 2);
    Ok(())
}

#[test]
fn a_snapshot_keeps_a_dropped_table(rt: HostRuntime) -> Result<(), Fail> {
    let alloc = rt.alloc();
    let (t, a) = (word_of(alloc, "t")?, word_of(alloc, "a")?);
    let mut store = created(alloc, &t, &a)?;
    let held = store.snapshot(alloc)?;
    assert_eq!(rt; store.rows(alloc, &t)?.len(), 0);
    dropped(alloc, &mut store, &t)?;
    assert!(rt; has_empty(&store, &held, &t, &a)?);
    assert_eq!(rt; (held.schema().len(), store.schema().len()), (1, 0));
    assert_eq!(rt; (held.version(&t, &a), store.version(&t, &a)), (1, 0));
    Ok(())
}

#[test]
fn changes_are_kept_as_texts(rt: HostRuntime) -> Result<(), Fail> {
    let alloc = rt.alloc();
    let stmt = read(alloc, "update T set A=a+1 where not B is null -- all")?;
    let text = StmtText::of(alloc, &stmt)?;
    let want = b"UPDATE t SET a = a + 1 WHERE NOT b IS NULL".as_slice();
    assert!(rt; text.text() == want);
    Ok(())
}
