//! The tables of tests.
use crate::tables::{
    ARITHMETIC, Argument, COMPARISON, Lit, ONE_ARGUMENT, RANGES, TWO_BATS, TwoRow, Val,
};
use crate::{run_one, run_select, run_two};
use bat_core::{Bat, BatBuilder, Obj, Shared};
use cell_core::{Cell, Memory, Op, RunError};
use std::alloc::Global;
use std::test::Fail;

/// The cell that a table names.
fn cell_of(lit: Lit) -> Cell {
    match lit {
        Lit::Nil => Cell::Nil,
        Lit::Int(number) => Cell::Int(number),
        Lit::Huge(number) => Cell::Huge(number),
        Lit::Bit(bit) => Cell::Bit(bit),
        Lit::Oid(oid) => Cell::Oid(oid),
        Lit::Day(day) => Cell::Day(day),
    }
}

/// The BAT of these pairs.
fn bat_of(alloc: Global, pairs: &[(Lit, Lit)]) -> Result<Bat, Memory> {
    let mut bat = BatBuilder::new(alloc);
    for (head, tail) in pairs {
        bat.append(alloc, cell_of(*head), cell_of(*tail))?;
    }
    bat.finish(alloc)
}

/// The argument that a table names.
fn obj_of(alloc: Global, val: Val) -> Result<Obj, Memory> {
    Ok(match val {
        Val::Bat(pairs) => Obj::Bat(Shared::new(alloc, bat_of(alloc, pairs)?)?),
        Val::One(lit) => Obj::One(cell_of(lit)),
        Val::Overflow => Obj::One(Cell::Nil),
    })
}

/// Whether these are the pairs of the BAT.
fn has_pairs(bat: &Bat, pairs: &[(Lit, Lit)]) -> bool {
    let mut same = bat.len() == pairs.len() as u64;
    for (i, (head, tail)) in pairs.iter().enumerate() {
        let i = i as u64;
        same = same
            && i < bat.len()
            && *bat.pair(i).0.cell() == cell_of(*head)
            && *bat.pair(i).1.cell() == cell_of(*tail);
    }
    same
}

/// Whether a run has this result.
fn gave(ran: Result<Option<Obj>, RunError>, want: Val) -> bool {
    match (ran, want) {
        (Ok(Some(Obj::Bat(shared))), Val::Bat(pairs)) => has_pairs(shared.bat(), pairs),
        (Ok(Some(Obj::One(cell))), Val::One(lit)) => cell == cell_of(lit),
        (Err(RunError::Overflow), Val::Overflow) => true,
        _ => false,
    }
}

/// Whether an operator yields this on one argument.
fn one_gives(alloc: Global, op: Op, arg: Argument, want: Val) -> Result<bool, Memory> {
    let x = obj_of(alloc, arg.1)?;
    Ok(gave(run_one(alloc, op, x, arg.0), want))
}

/// Whether an operator yields this on two arguments.
fn two_give(
    alloc: Global,
    op: Op,
    first: Argument,
    second: Argument,
    want: Val,
) -> Result<bool, Memory> {
    let x = obj_of(alloc, first.1)?;
    let y = obj_of(alloc, second.1)?;
    Ok(gave(run_two(alloc, op, x, y, (first.0, second.0)), want))
}

/// Whether a select yields this.
fn range_gives(
    alloc: Global,
    arg: Argument,
    bounds: (Lit, Lit),
    included: (Lit, Lit),
    want: Val,
) -> Result<bool, Memory> {
    let b = obj_of(alloc, arg.1)?;
    let bounds = (Obj::One(cell_of(bounds.0)), Obj::One(cell_of(bounds.1)));
    let included = (Obj::One(cell_of(included.0)), Obj::One(cell_of(included.1)));
    Ok(gave(run_select(alloc, b, bounds, included), want))
}

/// The first row of a table with another result; the table's length if there is none.
fn first_wrong(alloc: Global, rows: &[TwoRow]) -> Result<usize, Memory> {
    for (row, (op, first, second, want)) in rows.iter().enumerate() {
        if !two_give(alloc, *op, *first, *second, *want)? {
            return Ok(row);
        }
    }
    Ok(rows.len())
}

#[test]
fn operators_of_one_argument(rt: HostRuntime) -> Result<(), Fail> {
    for (row, (op, arg, want)) in ONE_ARGUMENT.iter().enumerate() {
        assert!(rt; one_gives(rt.alloc(), *op, *arg, *want)?, "row {row}");
    }
    Ok(())
}

#[test]
fn operators_of_two_arguments(rt: HostRuntime) -> Result<(), Fail> {
    assert_eq!(rt; first_wrong(rt.alloc(), &TWO_BATS)?, TWO_BATS.len());
    Ok(())
}

#[test]
fn functions_of_cells(rt: HostRuntime) -> Result<(), Fail> {
    assert_eq!(rt; first_wrong(rt.alloc(), &ARITHMETIC)?, ARITHMETIC.len());
    assert_eq!(rt; first_wrong(rt.alloc(), &COMPARISON)?, COMPARISON.len());
    Ok(())
}

#[test]
fn selects(rt: HostRuntime) -> Result<(), Fail> {
    for (row, (arg, bounds, included, want)) in RANGES.iter().enumerate() {
        assert!(rt;
            range_gives(rt.alloc(), *arg, *bounds, *included, *want)?,
            "row {row}"
        );
    }
    Ok(())
}
