//! The wanted results are those of an independent implementation of the language.
ghost use Rattle.sql_grammar.specs.Formed.{IsFormed};
ghost use Rattle.sql_tree.specs.Tree.{stmt_tree};

use crate::made::{columns, count_above_one, named, not_one, one, row, times_largest};
use crate::run::{Way, told};
use crate::scripts::{
    DEFAULTS, DEFAULTS_TOLD, DIGITS, DIGITS_TOLD, NULLS, NULLS_TOLD, REFUSED, REFUSED_TOLD, WIDE,
    WIDE_TOLD,
};
use cell_core::{Cell, Db, Memory, Sequence, Table, Word, word_of};
use row_values::{
    LentRow, Scope, are_rows_too_long, cell_over, column_cell, cond_overflows, constant_overflows,
    group_cell, has_null_row, holds, is_kept, overflows_over, value_over,
};
use sql_check::{CheckError, check};
use sql_definitions::{
    Called, Refusal, Resolved, Schema, Source, Typed, all_columns, column_place, find_column,
    key_place,
};
use sql_meaning::plain_answer;
use sql_parse::parse;
use sql_tree::{AggOp, ColRef, Cond, Expr, Place, Query, Stmt};
use std::alloc::Global;
use std::test::Fail;

#[test]
fn scripts_show_what_is_told_of_them(rt: HostRuntime) -> Result<(), Fail> {
    let alloc = rt.alloc();
    for (script, want) in [
        (NULLS, NULLS_TOLD),
        (DEFAULTS, DEFAULTS_TOLD),
        (REFUSED, REFUSED_TOLD),
        (WIDE, WIDE_TOLD),
        (DIGITS, DIGITS_TOLD),
    ] {
        assert!(rt; told(alloc, Way::Meaning, script)?.as_slice() == want.as_bytes());
        assert!(rt; told(alloc, Way::Plan, script)?.as_slice() == want.as_bytes());
    }
    Ok(())
}

/// A number, or Nil.
fn number(number: Option<i64>) -> Cell {
    match number {
        Some(number) => Cell::Int(number),
        None => Cell::Nil,
    }
}

/// Whether a condition is true of the row of this number and Nil.
fn keeps(alloc: Global, cond: &Option<Cond>, a: Option<i64>) -> Result<bool, Memory> {
    let source = source(alloc)?;
    let row = row(alloc, number(a), Cell::Nil)?;
    let called = [Called::new(&source.table, &source.columns)];
    is_kept(alloc, &called, cond, &[LentRow::new(&row)])
}

/// Whether an expression overflows over the row of this number and Nil.
fn overflows(alloc: Global, expr: &Expr, a: Option<i64>) -> Result<bool, Memory> {
    let source = source(alloc)?;
    let row = row(alloc, number(a), Cell::Nil)?;
    let called = [Called::new(&source.table, &source.columns)];
    overflows_over(&called, &[LentRow::new(&row)], expr)
}

#[test]
fn values_over_a_row(rt: HostRuntime) -> Result<(), Fail> {
    let alloc = rt.alloc();
    let large = times_largest(alloc, named(alloc, "a")?)?;
    for (a, want) in [(Some(1), false), (Some(2), true), (None, false)] {
        assert_eq!(rt; overflows(alloc, &large, a)?, want);
    }
    Ok(())
}

#[test]
fn conditions_over_a_row(rt: HostRuntime) -> Result<(), Fail> {
    let alloc = rt.alloc();
    let cond = not_one(alloc)?;
    for (a, want) in [(Some(1), false), (Some(2), true), (None, false)] {
        assert_eq!(rt; keeps(alloc, &cond, a)?, want);
    }
    assert!(rt; !cond_overflows(&cond)?);
    Ok(())
}

/// Whether a number times the largest overflows, and whether its cell is Nil.
fn overflows_alone(alloc: Global, number: i64) -> Result<(bool, bool), Memory> {
    let large = times_largest(alloc, Expr::Lit(Cell::Int(number)))?;
    let cell = cell_over(&[], &[], &large)?;
    let has_value = value_over(&[], &[], &large)?.is_some();
    Ok((constant_overflows(&large)?, cell.is_nil() && !has_value))
}

#[test]
fn constants(rt: HostRuntime) -> Result<(), Fail> {
    let alloc = rt.alloc();
    assert_eq!(rt; overflows_alone(alloc, -1)?, (false, false));
    assert_eq!(rt; overflows_alone(alloc, 2)?, (true, true));
    Ok(())
}

/// The cell of a column over the row of 1 and Nil.
fn cell_of_column(alloc: Global, name: &str) -> Result<Cell, Memory> {
    let source = source(alloc)?;
    let row = row(alloc, number(Some(1)), Cell::Nil)?;
    let reference = ColRef {
        table: None,
        column: word_of(alloc, name)?,
    };
    let called = [Called::new(&source.table, &source.columns)];
    column_cell(&called, &[LentRow::new(&row)], &reference)
}

#[test]
fn cells_of_columns(rt: HostRuntime) -> Result<(), Fail> {
    let alloc = rt.alloc();
    for (name, want) in [("a", number(Some(1))), ("b", Cell::Nil), ("c", Cell::Nil)] {
        let cell = cell_of_column(alloc, name)?;
        assert!(rt; cell == want);
    }
    Ok(())
}

/// The number of rows of a group of two choices, and whether `COUNT(*) > 1` holds of it.
fn counted_of_two(alloc: Global) -> Result<(Cell, bool), Memory> {
    let row = row(alloc, number(Some(1)), Cell::Nil)?;
    let mut group = one(alloc, one(alloc, LentRow::new(&row))?)?;
    group.push(one(alloc, LentRow::new(&row))?)?;
    let count = Expr::Agg {
        f: AggOp::Count,
        of: None,
    };
    let cell = group_cell(alloc, &[], group.as_slice(), &count)?;
    let is_above = holds(
        alloc,
        &[],
        &Scope::Group(group.as_slice()),
        &count_above_one(),
    )?;
    Ok((cell, is_above))
}

#[test]
fn a_group_is_counted(rt: HostRuntime) -> Result<(), Fail> {
    let alloc = rt.alloc();
    let (cell, is_above) = counted_of_two(alloc)?;
    assert!(rt; cell == Cell::Int(2));
    assert!(rt; is_above);
    Ok(())
}

#[test]
fn columns_are_found(rt: HostRuntime) -> Result<(), Fail> {
    let alloc = rt.alloc();
    let (t, u) = (word_of(alloc, "t")?, word_of(alloc, "u")?);
    let columns = columns(alloc)?;
    let called = [Called::new(&t, &columns), Called::new(&u, &columns)];
    let b = word_of(alloc, "b")?;
    assert!(rt; find_column(&called, None, &b) == Resolved::Twice);
    assert!(rt; find_column(&called, Some(&u), &b) == Resolved::At(1, 1));
    assert!(rt; find_column(&called, Some(&b), &b) == Resolved::Nowhere);
    Ok(())
}

#[test]
fn keys_name_items(rt: HostRuntime) -> Result<(), Fail> {
    let alloc = rt.alloc();
    let (name, columns) = (word_of(alloc, "t")?, columns(alloc)?);
    let called = [Called::new(&name, &columns)];
    let items = all_columns(alloc, &called)?;
    for (number, want) in [(0, None), (1, Some(0)), (2, Some(1)), (3, None)] {
        let place = key_place(&called, items.as_slice(), &Place::Position(number));
        assert_eq!(rt; place, want);
    }
    Ok(())
}

/// The table `t` without its rows.
fn source(alloc: Global) -> Result<Source, Memory> {
    Ok(Source {
        table: word_of(alloc, "t")?,
        columns: columns(alloc)?,
    })
}

/// The place of a column in the table of a DELETE, if any.
fn place_in_delete(typed: &Typed, column: &Word) -> Option<(u32, u32)> {
    let Stmt::Delete { table, .. } = &typed.stmt else {
        return None;
    };
    let [source, ..] = typed.sources.as_slice() else {
        return None;
    };
    let called = [Called::new(table, &source.columns)];
    column_place(&called, None, column)?;
    Some(typed.place(None, column))
}

/// A statement as the check accepts it over the table.
fn checked(alloc: Global, stmt: &Stmt) -> Result<Typed, CheckError>
    requires { IsFormed (stmt_tree stmt.now) }
{
    let tables = one(alloc, source(alloc)?)?;
    check(alloc, stmt, &Schema { tables })
}

/// The same of an owned DELETE.
fn checked_once(alloc: Global, stmt: Stmt) -> Result<Typed, CheckError>
    requires { IsFormed (stmt_tree stmt) }
{
    match &stmt {
        Stmt::Delete { .. } => checked(alloc, &stmt),
        _ => Err(CheckError::Memory),
    }
}

/// A DELETE from the table, as the check accepts it.
fn checked_delete(alloc: Global) -> Result<Typed, CheckError> {
    match parse(alloc, "DELETE FROM t WHERE NOT a = 1") {
        Ok(stmt) => checked_once(alloc, stmt),
        Err(_) => Err(CheckError::Memory),
    }
}

#[test]
fn columns_have_places(rt: HostRuntime) -> Result<(), Fail> {
    let alloc = rt.alloc();
    let Ok(typed) = checked_delete(alloc) else {
        return Err(Fail::from("the check refuses a DELETE"));
    };
    for (name, want) in [("a", Some((0, 0))), ("b", Some((0, 1))), ("c", None)] {
        let place = place_in_delete(&typed, &word_of(alloc, name)?);
        assert_eq!(rt; place, want);
    }
    Ok(())
}

/// The table `t` with one row, of 1 and Nil.
fn table_of_one(alloc: Global) -> Result<Table, Memory> {
    Ok(Table {
        name: word_of(alloc, "t")?,
        columns: columns(alloc)?,
        rows: one(alloc, row(alloc, number(Some(1)), Cell::Nil)?)?,
    })
}

/// The rows of a query over that table.
fn answer_of(alloc: Global, query: &Query) -> Result<Option<Sequence<Sequence<Cell>>>, Memory> {
    let tables = one(alloc, table_of_one(alloc)?)?;
    plain_answer(alloc, query, &Db { tables })
}

#[test]
fn a_query_has_its_plain_answer(rt: HostRuntime) -> Result<(), Fail> {
    let alloc = rt.alloc();
    let Ok(Stmt::Query(query)) = &parse(alloc, "SELECT b, a FROM t") else {
        return Err(Fail::from("a query is read as something else"));
    };
    let Some(rows) = answer_of(alloc, query)? else {
        return Err(Fail::from("the query overflows"));
    };
    let [first] = rows.as_slice() else {
        return Err(Fail::from("the query has no row, or more than one"));
    };
    assert!(rt; first.as_slice() == [Cell::Nil, Cell::Int(1)].as_slice());
    Ok(())
}

#[test]
fn columns_refuse_cells(rt: HostRuntime) -> Result<(), Fail> {
    let alloc = rt.alloc();
    let table = table_of_one(alloc)?;
    let (columns, rows) = (table.columns.as_slice(), table.rows.as_slice());
    assert!(rt; !are_rows_too_long(columns, rows));
    assert!(rt; !has_null_row(columns, rows));
    Ok(())
}

#[test]
fn refusals_have_words(rt: HostRuntime) -> Result<(), Fail> {
    let alloc = rt.alloc();
    let mut words = Vec::new(alloc);
    Refusal::NoTable(word_of(alloc, "No")?).write_words(&mut words)?;
    assert!(rt; words.as_slice() == b"no such table No".as_slice());
    Ok(())
}
