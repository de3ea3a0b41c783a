//! Keys of results, with their spans, shapes and parents.
ghost use Rattle.std.specs.Prelude.{All, IfOk};
ghost use Rattle.lineage_key.specs.Keys.{IsNumbered};

use cell_core::{Arg, Cell, Cut, Instr, Memory, Op, Sequence, compare_cuts, word_of};
use lineage_key::{Key, KeyArg, Shape, key_of, shape_of, span_of};
use std::alloc::Global;
use std::test::Fail;

/// A selection from a variable, between two bounds.
fn selection(alloc: Global, low: Cell, high: Cell, li: bool, hi: bool) -> Result<Instr, Memory>
    ensures { IfOk result (λ instr. All (IsNumbered 2) instr.args) }
{
    let mut args = Vec::new(alloc);
    args.push(Arg::Var(1))?;
    args.push(Arg::Const(low))?;
    args.push(Arg::Const(high))?;
    args.push(Arg::Const(Cell::Bit(li)))?;
    args.push(Arg::Const(Cell::Bit(hi)))?;
    Ok(Instr {
        op: Op::Select,
        args: Sequence::from_vec(args),
    })
}

// An Int and a Huge of one number, another version, and another result yield different keys.
#[test]
fn keys_are_told_apart(rt: HostRuntime) -> Result<(), Fail> {
    let alloc = rt.alloc();
    let int = selection(alloc, Cell::Int(4), Cell::Nil, true, false)?;
    let huge = selection(alloc, Cell::Huge(4), Cell::Nil, true, false)?;
    let key = key_of(alloc, &int, &[8, 9], 0)?;
    assert!(rt; key == key_of(alloc, &int, &[7, 9], 0)?);
    assert!(rt; key != key_of(alloc, &int, &[9, 8], 0)?);
    assert!(rt; key != key_of(alloc, &int, &[8, 9], 1)?);
    assert!(rt; key != key_of(alloc, &huge, &[8, 9], 0)?);
    assert!(rt; key.args.get(0) == Some(&KeyArg::Id(9)));
    Ok(())
}

// From 4 on, 4 included, and below 6.
#[test]
fn a_selection_has_a_span(rt: HostRuntime) -> Result<(), Fail> {
    let alloc = rt.alloc();
    let instr = selection(alloc, Cell::Int(4), Cell::Int(6), true, false)?;
    let mut key = key_of(alloc, &instr, &[8, 9], 0)?;
    let from_4 = Cut::Before(Cell::Int(4));
    let to_6 = Cut::Before(Cell::Int(6));
    let span = span_of(&key)?;
    assert!(rt;
        span.is_some_and(|span| compare_cuts(&span.low, &from_4).is_eq()
            && compare_cuts(&span.high, &to_6).is_eq())
    );
    key.op = Op::Join;
    assert!(rt; span_of(&key)?.is_none());
    Ok(())
}

fn shape(alloc: Global, column: &str) -> Result<Shape, Memory> {
    Ok(Shape {
        op: Op::Bind,
        table: word_of(alloc, "t")?,
        column: word_of(alloc, column)?,
        args: [0; 5],
    })
}

#[test]
fn shapes_are_told_apart(rt: HostRuntime) -> Result<(), Fail> {
    let alloc = rt.alloc();
    assert!(rt; shape(alloc, "a")? == shape(alloc, "a")?);
    assert!(rt; shape(alloc, "a")? != shape(alloc, "b")?);
    Ok(())
}

// A join of 9 and 8 names both, and no other.
#[test]
fn keys_tell_their_parents(rt: HostRuntime) -> Result<(), Fail> {
    let alloc = rt.alloc();
    let mut args = Vec::new(alloc);
    args.push(KeyArg::Id(9))?;
    args.push(KeyArg::Id(8))?;
    let key = Key {
        op: Op::Join,
        args: Sequence::from_vec(args),
        version: 0,
    };
    assert_eq!(rt; key.parents().as_slice(), [9, 8].as_slice());
    assert!(rt; key.names(8) && key.names(9) && !key.names(7) && !key.is_bind());
    assert!(rt; key.table().is_empty() && key.column().is_empty());
    let shape = shape_of(alloc, &key, [2, 1, 0, 0, 0])?;
    assert_eq!(rt; shape.args.as_slice(), [2, 1, 0, 0, 0].as_slice());
    Ok(())
}
