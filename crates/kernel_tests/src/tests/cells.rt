//! The order of cells and of cuts, and each call of `cell_core` and `cell_text` with ample memory.
use cell_core::{
    Arg, Cell, Column, Cut, Db, Instr, Kind, Memory, Op, Sequence, Span, Table, compare,
    compare_cuts, copy_columns, copy_rows, find_column, sort_rows, sort_rows_by, stated_bytes,
    word_of,
};
use cell_text::{read_day, write_cell};
use std::alloc::Global;
use std::cmp::Ordering;
use std::test::Fail;

// Nil first, then numbers by value, days, bits and oids, each with its size.
#[test]
fn cells_in_their_order(rt: HostRuntime) {
    let cells = [
        (Cell::Nil, 8),
        (Cell::Huge(i128::MIN), 16),
        (Cell::Int(-1), 8),
        (Cell::Huge(0), 16),
        (Cell::Int(7), 8),
        (Cell::Huge(9_223_372_036_854_775_808), 16),
        (Cell::Day(-1), 8),
        (Cell::Day(0), 8),
        (Cell::Bit(false), 1),
        (Cell::Bit(true), 1),
        (Cell::Oid(0), 8),
    ];
    for (i, (a, bytes)) in cells.iter().enumerate() {
        assert_eq!(rt; stated_bytes(a), *bytes, "{i}");
        for (j, (b, _)) in cells.iter().enumerate() {
            assert_eq!(rt; compare(a, b), i.cmp(&j), "{i} {j}");
        }
    }
    assert_eq!(rt; compare(&Cell::Int(5), &Cell::Huge(5)), Ordering::Equal);
    assert!(rt; Cell::Int(5) != Cell::Huge(5));
}

/// How two texts compare as cells, and whether they are equal.
fn compare_texts(alloc: Global, one: &str, other: &str) -> Result<(Ordering, bool), Memory> {
    let one = Cell::Text(word_of(alloc, one)?);
    let other = Cell::Text(word_of(alloc, other)?);
    Ok((compare(&one, &other), one == other))
}

/// The stated size of a text, and how it compares with a number and with a day.
fn place_text(alloc: Global, letters: &str) -> Result<(u64, Ordering, Ordering), Memory> {
    let text = Cell::Text(word_of(alloc, letters)?);
    Ok((
        stated_bytes(&text),
        compare(&text, &Cell::Int(1)),
        compare(&text, &Cell::Day(1)),
    ))
}

// Texts come between numbers and days, ordered by their bytes.
#[test]
fn texts_in_their_order(rt: HostRuntime) -> Result<(), Fail> {
    let texts = ["", "a", "aa", "b", "\u{e4}"];
    for (i, one) in texts.iter().enumerate() {
        let place = (16 + one.len() as u64, Ordering::Greater, Ordering::Less);
        assert!(rt; place_text(rt.alloc(), one)? == place, "{i}");
        for (j, other) in texts.iter().enumerate() {
            let told = compare_texts(rt.alloc(), one, other)?;
            assert!(rt; told == (i.cmp(&j), i == j), "{i} {j}");
        }
    }
    Ok(())
}

fn columns(alloc: Global, names: &[&str]) -> Result<Sequence<Column>, Memory> {
    let mut columns = Sequence::new(alloc);
    for name in names {
        columns.push(Column {
            name: word_of(alloc, name)?,
            kind: Kind::Int,
            width: 0,
            not_null: false,
            default: Cell::Nil,
        })?;
    }
    Ok(columns)
}

fn rows(alloc: Global, numbers: &[i64]) -> Result<Vec<Sequence<Cell>>, Memory> {
    let mut rows = Vec::new(alloc);
    for number in numbers {
        let mut row = Sequence::new(alloc);
        row.push(Cell::Int(*number))?;
        rows.push(row)?;
    }
    Ok(rows)
}

#[test]
fn columns_are_copied_and_found(rt: HostRuntime) -> Result<(), Fail> {
    let alloc = rt.alloc();
    let made = columns(alloc, &["a", "b", "b"])?;
    let copied = copy_columns(alloc, made.as_slice())?;
    for (name, want) in [("a", Some(0)), ("b", Some(1)), ("c", None)] {
        let name = word_of(alloc, name)?;
        assert_eq!(rt; find_column(copied.as_slice(), &name), want);
    }
    Ok(())
}

#[test]
fn rows_are_copied_and_sorted(rt: HostRuntime) -> Result<(), Fail> {
    let alloc = rt.alloc();
    let name = word_of(alloc, "t")?;
    let mut two = rows(alloc, &[2, 1])?;
    let mut tables = Sequence::new(alloc);
    tables.push(Table {
        name: name.share()?,
        columns: columns(alloc, &["a"])?,
        rows: copy_rows(alloc, two.as_slice())?,
    })?;
    let db = Db { tables };
    assert_eq!(rt; db.table(&name).map(|table| table.rows.len()), Some(2));
    sort_rows(&mut two)?;
    let least = two.first().and_then(|row| row.get(0));
    assert!(rt; least == Some(&Cell::Int(1)));
    Ok(())
}

#[test]
fn rows_are_sorted_by_keys(rt: HostRuntime) -> Result<(), Fail> {
    let mut three = rows(rt.alloc(), &[2, 3, 1])?;
    sort_rows_by(&mut three, &[(0, false)])?;
    let greatest = three.first().and_then(|row| row.get(0));
    assert!(rt; greatest == Some(&Cell::Int(3)));
    Ok(())
}

// Low, then before and after each number, then High; shared copies have the same order.
#[test]
fn cuts_in_their_order(rt: HostRuntime) -> Result<(), Fail> {
    let cuts = [
        Cut::Low,
        Cut::Before(Cell::Int(4)),
        Cut::After(Cell::Int(4)),
        Cut::Before(Cell::Huge(5)),
        Cut::After(Cell::Int(5)),
        Cut::High,
    ];
    for (i, a) in cuts.iter().enumerate() {
        for (j, b) in cuts.iter().enumerate() {
            assert_eq!(rt; compare_cuts(a, b), i.cmp(&j), "{i} {j}");
        }
        let shared = a.share()?;
        assert!(rt; compare_cuts(&shared, a) == Ordering::Equal);
    }
    Ok(())
}

#[test]
fn spans_are_shared(rt: HostRuntime) -> Result<(), Fail> {
    let span = Span {
        low: Cut::After(Cell::Int(4)),
        high: Cut::High,
    };
    let shared = span.share()?;
    assert!(rt; compare_cuts(&shared.low, &span.low) == Ordering::Equal);
    assert!(rt; compare_cuts(&shared.high, &span.high) == Ordering::Equal);
    Ok(())
}

#[test]
fn instructions_are_shared(rt: HostRuntime) -> Result<(), Fail> {
    let alloc = rt.alloc();
    let mut args = Sequence::new(alloc);
    args.push(Arg::Const(Cell::Text(word_of(alloc, "t")?)))?;
    args.push(Arg::Var(7))?;
    let instr = Instr { op: Op::Bind, args };
    let shared = instr.share(alloc)?;
    assert!(rt; shared == instr);
    assert!(rt; Arg::Const(Cell::Int(1)) != Arg::Const(Cell::Huge(1)));
    Ok(())
}

#[test]
fn reads_dates_of_the_calendar_alone(rt: HostRuntime) {
    for (text, day) in [
        ("0001-01-01", Some(-719_162)),
        ("1969-12-31", Some(-1)),
        ("1970-01-01", Some(0)),
        ("1994-03-16", Some(8_840)),
        ("2000-02-29", Some(11_016)),
        ("9999-12-31", Some(2_932_896)),
        ("0000-12-31", None),
        ("1900-02-29", None),
        ("2023-02-29", None),
        ("1994-04-31", None),
        ("1994-13-01", None),
        ("1994-00-01", None),
        ("1994-01-00", None),
        ("1994-3-16", None),
        ("19940316", None),
        ("1994/03/16", None),
        ("-994-03-16", None),
        ("1994-03-1x", None),
        ("1994-03-16 ", None),
        ("", None),
    ] {
        assert_eq!(rt; read_day(text), day, "at {text:?}");
    }
}

/// Whether a cell is appended as this text.
fn is_written(alloc: Global, cell: &Cell, text: &str) -> Result<bool, Memory> {
    let mut out = Vec::from_slice(alloc, b"=")?;
    write_cell(cell, &mut out)?;
    Ok(out.split_first().map(|(_, rest)| rest) == Some(text.as_bytes()))
}

#[test]
fn appends_cells_of_each_kind(rt: HostRuntime) -> Result<(), Fail> {
    for (cell, text) in [
        (Cell::Nil, "\\N"),
        (Cell::Int(i64::MIN), "-9223372036854775808"),
        (Cell::Int(0), "0"),
        (
            Cell::Huge(i128::MIN),
            "-170141183460469231731687303715884105728",
        ),
        (
            Cell::Huge(i128::MAX),
            "170141183460469231731687303715884105727",
        ),
        (Cell::Day(8_840), "1994-03-16"),
        (Cell::Day(-719_162), "0001-01-01"),
        (Cell::Day(-719_163), "-719163"),
        (Cell::Day(2_932_896), "9999-12-31"),
        (Cell::Day(2_932_897), "2932897"),
        (Cell::Bit(true), "true"),
        (Cell::Bit(false), "false"),
        (Cell::Oid(u64::MAX), "18446744073709551615@0"),
    ] {
        assert!(rt; is_written(rt.alloc(), &cell, text)?, "at {text}");
    }
    Ok(())
}

#[test]
fn appends_texts(rt: HostRuntime) -> Result<(), Fail> {
    for (letters, text) in [
        ("plain, text", "plain, text"),
        ("\\ä\\\\N", "\\\\ä\\\\\\\\N"),
        ("", ""),
    ] {
        let cell = Cell::Text(word_of(rt.alloc(), letters)?);
        assert!(rt; is_written(rt.alloc(), &cell, text)?, "at {text}");
    }
    Ok(())
}
