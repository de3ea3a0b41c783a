//! What INSERT and ALTER ask of a table, and the line of a session, by calls with enough memory. What
//! is wanted follows from the rules of the language and of the output.
use crate::made::{column, columns, one};
use answer_text::write_session_line;
use cell_core::{Cell, Column, Memory, Sequence, word_of};
use sql_changes::{rows_to_add, why_not_added};
use sql_definitions::targets;
use std::alloc::Global;
use std::test::Fail;

/// Whether these are the names of the columns.
fn are_named(columns: &[Column], names: &[&str]) -> bool {
    let mut same = columns.len() == names.len();
    for (column, name) in columns.iter().zip(names.iter()) {
        same &= column.name.text() == *name;
    }
    same
}

#[test]
fn values_have_columns(rt: HostRuntime) -> Result<(), Fail> {
    let alloc = rt.alloc();
    let columns = columns(alloc)?;
    let all = targets(alloc, columns.as_slice(), &[])?;
    assert!(rt; are_named(all.as_slice(), &["a", "b"]));
    let listed = [word_of(alloc, "b")?, word_of(alloc, "a")?];
    let turned = targets(alloc, columns.as_slice(), &listed)?;
    assert!(rt; are_named(turned.as_slice(), &["b", "a"]));
    Ok(())
}

/// A column that is added: whether it refuses Nil, how many columns and rows its table has, and the
/// words of the refusal, if any.
const ADDED: [(bool, usize, usize, &str); 5] = [
    (false, 63, 9, ""),
    (false, 64, 9, "limit columns"),
    (true, 1, 0, ""),
    (true, 1, 1, "null in not null column"),
    (true, 64, 1, "null in not null column"),
];

/// The words of the refusal, if any.
fn words_of_alter(
    alloc: Global,
    not_null: bool,
    columns: usize,
    rows: usize,
) -> Result<Vec<u8>, Memory> {
    let mut added = column(alloc, "c")?;
    added.not_null = not_null;
    let mut words = Vec::new(alloc);
    if let Some(refusal) = &why_not_added(alloc, &added, columns, rows)? {
        refusal.write_words(&mut words)?;
    }
    Ok(words)
}

#[test]
fn columns_are_added(rt: HostRuntime) -> Result<(), Fail> {
    for (not_null, columns, rows, want) in ADDED {
        let words = words_of_alter(rt.alloc(), not_null, columns, rows)?;
        assert!(rt; words.as_slice() == want.as_bytes(), "{want}");
    }
    Ok(())
}

/// Whether these are one row, of Nil and 7.
fn is_nil_and_seven(rows: &[Sequence<Cell>]) -> bool {
    match rows {
        [row] => row.as_slice() == [Cell::Nil, Cell::Int(7)].as_slice(),
        _ => false,
    }
}

/// The words of a refusal, or `added`, where a row of 7 for `b` is added to a table of so many rows as
/// Nil and 7.
fn words_of_insert(alloc: Global, rows: usize) -> Result<Vec<u8>, Memory> {
    let columns = columns(alloc)?;
    let listed = [word_of(alloc, "b")?];
    let values = one(alloc, one(alloc, Cell::Int(7))?)?;
    let mut words = Vec::new(alloc);
    match &rows_to_add(alloc, columns.as_slice(), &listed, values.as_slice(), rows)? {
        Ok(added) => {
            if is_nil_and_seven(added.as_slice()) {
                words.extend_from_slice(b"added")?;
            }
        }
        Err(refusal) => refusal.write_words(&mut words)?,
    }
    Ok(words)
}

#[test]
fn rows_are_added(rt: HostRuntime) -> Result<(), Fail> {
    for (rows, want) in [
        (0, "added"),
        (1_048_575, "added"),
        (1_048_576, "limit rows"),
    ] {
        let words = words_of_insert(rt.alloc(), rows)?;
        assert!(rt; words.as_slice() == want.as_bytes(), "{want}");
    }
    Ok(())
}

#[test]
fn sessions_have_a_line(rt: HostRuntime) -> Result<(), Fail> {
    let alloc = rt.alloc();
    let mut out = Vec::from_slice(alloc, b"session 1 a.sql\n")?;
    write_session_line(alloc, 12, "b.sql", &mut out)?;
    assert!(rt; out.as_slice() == b"session 1 a.sql\nsession 12 b.sql\n".as_slice());
    Ok(())
}
