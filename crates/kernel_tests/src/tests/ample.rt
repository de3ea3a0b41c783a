//! Calls with enough memory that no other test makes.
use bat_core::{Cells, CellsBuilder};
use cell_core::{Arg, Cell, Memory, Sequence, Word, copy_args, copy_cells, word_of};
use mal_meaning::{Out, arrange};
use std::alloc::Global;
use std::test::Fail;

/// A column of two oids and Nil.
fn two_oids(alloc: Global) -> Result<Cells, Memory> {
    let mut cells = CellsBuilder::new(alloc);
    cells.push(alloc, Cell::Oid(7))?;
    cells.push(alloc, Cell::Oid(5))?;
    cells.push(alloc, Cell::Nil)?;
    cells.finish(alloc)
}

/// The cells of a column that lie together at its start, after Nil.
fn first_cells(alloc: Global, cells: &Cells) -> Result<Cells, Memory> {
    let mut first = CellsBuilder::new(alloc);
    first.push(alloc, Cell::Nil)?;
    if 0 < cells.len() {
        first.push_part(alloc, cells.run(0))?;
    }
    first.finish(alloc)
}

/// A copy of the cell at a place, if there is one.
fn copy_at(cells: &Cells, at: u64) -> Result<Option<Cell>, Memory> {
    if at < cells.len() {
        Ok(Some(cells.copy(at)?))
    } else {
        Ok(None)
    }
}

#[test]
fn parts_are_added(rt: HostRuntime) -> Result<(), Fail> {
    let alloc = rt.alloc();
    let cells = first_cells(alloc, &two_oids(alloc)?)?;
    for (at, want) in [
        (0, Some(Cell::Nil)),
        (1, Some(Cell::Oid(7))),
        (2, Some(Cell::Oid(5))),
        (3, Some(Cell::Nil)),
        (4, None),
    ] {
        assert!(rt; copy_at(&cells, at)? == want, "at {at}");
    }
    Ok(())
}

/// Whether copies of cells and of arguments are equal to them.
fn copies_are_equal(alloc: Global, word: Word) -> Result<bool, Memory> {
    let cells = [Cell::Int(1), Cell::Nil, Cell::Text(word.share()?)];
    let args = [Arg::Var(3), Arg::Const(Cell::Text(word))];
    Ok(
        copy_cells(alloc, &cells)?.as_slice() == cells.as_slice()
            && copy_args(alloc, &args)?.as_slice() == args.as_slice(),
    )
}

#[test]
fn cells_and_arguments_are_copied(rt: HostRuntime) -> Result<(), Fail> {
    let alloc = rt.alloc();
    assert!(rt; copies_are_equal(alloc, word_of(alloc, "a")?)?);
    Ok(())
}

/// Rows of one number each.
fn rows_of(alloc: Global, numbers: &[i64]) -> Result<Vec<Sequence<Cell>>, Memory> {
    let mut rows = Vec::new(alloc);
    for number in numbers {
        let mut row = Sequence::new(alloc);
        row.push(Cell::Int(*number))?;
        rows.push(row)?;
    }
    Ok(rows)
}

// The two largest numbers, from the largest down.
#[test]
fn rows_are_arranged(rt: HostRuntime) -> Result<(), Fail> {
    let alloc = rt.alloc();
    let mut order = Sequence::new(alloc);
    order.push((0, false))?;
    let out = Out {
        cols: Sequence::new(alloc),
        keep: None,
        order,
        limit: Some(2),
    };
    let rows = arrange(&out, rows_of(alloc, &[2, 3, 1])?)?;
    assert_eq!(rt; rows.len(), 2);
    for (place, number) in [(0, 3), (1, 2)] {
        let first = rows.get(place).and_then(|row| row.get(0));
        assert!(rt; first == Some(&Cell::Int(number)));
    }
    Ok(())
}
