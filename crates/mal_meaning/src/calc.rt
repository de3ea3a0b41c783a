//! The functions of cells, as plain loops over lists.
ghost use Rattle.std.specs.Prelude.{◌≡◌, ◌++◌, ◌∷◌, [], map, zip, Some, None, IfOk, OnOk};
ghost use Rattle.cell_core.specs.declared.operator.Value.TheVariants.{Bat};
ghost use Rattle.cell_core.specs.Pairs.{bats_in, shortest, cell_at, row_at, rows_of};
ghost use Rattle.cell_core.specs.Calc.{row_function, all_or_none, first_heads, calculated_at, calculated};
ghost use Rattle.mal_meaning.specs.Slow.{shorter_of};

use crate::columns::{heads, pair_up, push_cell};
use cell_calc::{apply_one, apply_two};
use cell_core::{Cell, Memory, Op, Sequence, Value};
use std::alloc::Global;

/// A function of cells over a row of arguments.
fn apply_function(op: Op, row: &[Cell]) -> Option<Cell>
    ensures { result ≡ row_function op row.now }
{
    match row {
        [x] => apply_one(op, x),
        [x, y] => apply_two(op, x, y),
        _ => None,
    }
}

/// Adds the cell of a value at a place: the tail there, or the scalar.
#[tactic(auto, using(crate::proofs::SlowLemmas::tail_past))]
fn push_cell_at(row: &mut Sequence<Cell>, value: &Value, place: usize) -> Result<(), Memory>
    ensures { OnOk result (row.new ≡ row.old ++ cell_at place value.now ∷ []) }
{
    match value {
        Value::One(cell) => push_cell(row, cell),
        Value::Bat(b) => {
            if place < b.len() {
                push_cell(row, &b.as_slice()[place].1)
            } else {
                row.push(Cell::Nil)
            }
        }
    }
}

/// The cells of the values at a place, side by side.
fn row_of(alloc: Global, values: &[Value], place: usize) -> Result<Sequence<Cell>, Memory>
    ensures { IfOk result (λ row. row ≡ row_at values.now place) }
{
    let mut row = Sequence::new(alloc);
    let mut rest = values;
    'values: while let [value, more @ ..] = rest {
        push_cell_at(&mut row, value, place)?;
        rest = more;
    }
    Ok(row)
}

/// The cells of the values at the first places.
#[tactic(auto, using(crate::proofs::SlowLemmas::rows_more))]
pub(crate) fn first_rows(
    alloc: Global,
    values: &[Value],
    count: usize,
) -> Result<Sequence<Sequence<Cell>>, Memory>
    ensures { IfOk result (λ rows. rows ≡ rows_of values.now count) }
{
    let mut rows = Sequence::new(alloc);
    for place in 0..count {
        rows.push(row_of(alloc, values, place)?)?;
    }
    Ok(rows)
}

/// A function of cells over rows of arguments, or nothing where it overflows.
fn apply_to_rows(
    alloc: Global,
    op: Op,
    rows: &[Sequence<Cell>],
) -> Result<Option<Sequence<Cell>>, Memory>
    ensures { IfOk result (λ cells. cells ≡ all_or_none (map (row_function op) rows.now)) }
{
    let mut cells = Sequence::new(alloc);
    let mut rest = rows;
    'rows: while let [row, more @ ..] = rest {
        let Some(cell) = apply_function(op, row.as_slice()) else {
            return Ok(None);
        };
        cells.push(cell)?;
        rest = more;
    }
    Ok(Some(cells))
}

/// The length of the shortest BAT, if there is one.
#[tactic(auto, using(crate::proofs::SlowLemmas::least_at_end, crate::proofs::SlowLemmas::least_step))]
pub(crate) fn shortest_bat(values: &[Value]) -> Option<usize>
    ensures { result ≡ shortest values.now }
{
    let mut least = None;
    let mut rest = values;
    'values: while let [value, more @ ..] = rest {
        least = shorter(least, value);
        rest = more;
    }
    least
}

/// The shorter of a known length and a BAT's.
fn shorter(least: Option<usize>, value: &Value) -> Option<usize>
    ensures { result ≡ shorter_of least value.now }
{
    match (value, least) {
        (Value::One(_), _) => least,
        (Value::Bat(b), None) => Some(b.len()),
        (Value::Bat(b), Some(least)) => Some(least.min(b.len())),
    }
}

/// The heads of the first BAT.
fn heads_of_first(alloc: Global, values: &[Value]) -> Result<Sequence<Cell>, Memory>
    ensures { IfOk result (λ cells. cells ≡ first_heads (bats_in values.now)) }
{
    let mut rest = values;
    'values: while let [value, more @ ..] = rest {
        if let Value::Bat(b) = value {
            return heads(alloc, b.as_slice());
        }
        rest = more;
    }
    Ok(Sequence::new(alloc))
}

/// A function over scalars.
fn calculate_one(alloc: Global, op: Op, args: &[Value]) -> Result<Option<Value>, Memory>
    ensures { IfOk result (λ value. value ≡ calculated_at None (row_function op) args.now) }
{
    let row = row_of(alloc, args, 0)?;
    Ok(match apply_function(op, row.as_slice()) {
        Some(cell) => Some(Value::One(cell)),
        None => None,
    })
}

/// These cells beside the heads of the first BAT.
fn with_heads(alloc: Global, cells: &[Cell], args: &[Value]) -> Result<Value, Memory>
    ensures { IfOk result (λ value. value ≡ Bat (zip (first_heads (bats_in args.now)) cells.now)) }
{
    let heads = heads_of_first(alloc, args)?;
    let pairs = pair_up(alloc, heads.as_slice(), cells)?;
    Ok(Value::Bat(pairs))
}

/// A function by position, over as many rows.
fn calculate_rows(
    alloc: Global,
    op: Op,
    args: &[Value],
    count: usize,
) -> Result<Option<Value>, Memory>
    ensures { IfOk result (λ value. value ≡ calculated_at (Some count) (row_function op) args.now) }
{
    let rows = first_rows(alloc, args, count)?;
    let Some(cells) = apply_to_rows(alloc, op, rows.as_slice())? else {
        return Ok(None);
    };
    Ok(Some(with_heads(alloc, cells.as_slice(), args)?))
}

/// A function over scalars, or by position up to the shortest BAT.
pub(crate) fn calculate(alloc: Global, op: Op, args: &[Value]) -> Result<Option<Value>, Memory>
    ensures { IfOk result (λ value. value ≡ calculated (row_function op) args.now) }
{
    match shortest_bat(args) {
        None => calculate_one(alloc, op, args),
        Some(count) => calculate_rows(alloc, op, args, count),
    }
}
