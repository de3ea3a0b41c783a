//! The rows of an output, from the values of a plan's instructions.
ghost use Rattle.std.specs.Prelude.{◌≡◌, ◌<◌, map, length, IfOk, IfSome};
ghost use Rattle.cell_core.specs.Pairs.{cell_at, row_at, rows_of, shortest};
ghost use Rattle.bat_core.specs.Objects.{value_of, values_of};
ghost use Rattle.mal_meaning.specs.Output.{value_in, is_shown, output_rows};
ghost use Rattle.mal_meaning.specs.Slow.{shorter_of};

use bat_core::Obj;
use cell_core::{Arg, Cell, Memory, Sequence};
use mal_meaning::{Out, arrange};
use std::alloc::Global;

/// The value of an argument, where all instructions have values.
fn arg_value(values: &[Obj], arg: &Arg) -> Result<Obj, Memory>
    ensures { IfOk result (λ obj. value_of obj ≡ value_in (values_of values.now) arg.now) }
{
    match arg {
        Arg::Const(cell) => Ok(Obj::One(cell.share()?)),
        Arg::Var(n) => match values.get(*n as usize) {
            Some(value) => value.share(),
            None => Ok(Obj::One(Cell::Nil)),
        },
    }
}

/// The values of the columns.
fn columns_at(alloc: Global, values: &[Obj], cols: &[Arg]) -> Result<Vec<Obj>, Memory>
    ensures { IfOk result (λ columns. values_of columns.items ≡ map (value_in (values_of values.now)) cols.now) }
{
    let mut columns = Vec::new(alloc);
    let mut rest = cols;
    'cols: while let [arg, more @ ..] = rest {
        columns.push(arg_value(values, arg)?)?;
        rest = more;
    }
    Ok(columns)
}

fn shows_rows(values: &[Obj], keep: &Option<Arg>) -> Result<bool, Memory>
    ensures { IfOk result (λ shown. shown ≡ is_shown (values_of values.now) keep.now) }
{
    let Some(arg) = keep else {
        return Ok(true);
    };
    Ok(match &arg_value(values, arg)? {
        Obj::One(Cell::Bit(bit)) => *bit,
        _ => false,
    })
}

/// The cell of a value at a place: the tail there, or the scalar.
fn cell_of(value: &Obj, place: u64) -> Result<Cell, Memory>
    ensures { IfOk result (λ cell. cell ≡ cell_at place (value_of value.now)) }
{
    match value {
        Obj::One(cell) => cell.share(),
        Obj::Bat(b) => {
            if place < b.bat().len() {
                b.bat().tails().copy(place)
            } else {
                Ok(Cell::Nil)
            }
        }
    }
}

/// The cells of the columns at a place, side by side.
fn row_of(alloc: Global, columns: &[Obj], place: u64) -> Result<Sequence<Cell>, Memory>
    ensures { IfOk result (λ row. row ≡ row_at (values_of columns.now) place) }
{
    let mut row = Vec::with_capacity(alloc, columns.len())?;
    let mut rest = columns;
    'columns: while let [column, more @ ..] = rest {
        row.push(cell_of(column, place)?)?;
        rest = more;
    }
    Ok(Sequence::from_vec(row))
}

/// The rows at the first places.
#[tactic(auto, using(crate::proofs::RowLemmas::rows_more))]
fn first_rows(alloc: Global, columns: &[Obj], count: u64) -> Result<Vec<Sequence<Cell>>, Memory>
    ensures { IfOk result (λ rows. rows.items ≡ rows_of (values_of columns.now) count) }
{
    let mut rows = Vec::new(alloc);
    for place in 0..count {
        rows.push(row_of(alloc, columns, place)?)?;
    }
    Ok(rows)
}

/// The shorter of a known length and a BAT's.
fn shorter(least: Option<u64>, value: &Obj) -> Option<u64>
    ensures { result ≡ shorter_of least (value_of value.now) }
{
    match (value, least) {
        (Obj::One(_), _) => least,
        (Obj::Bat(b), None) => Some(b.bat().len()),
        (Obj::Bat(b), Some(least)) => Some(least.min(b.bat().len())),
    }
}

/// The length of the shortest BAT, if there is one.
#[tactic(auto, using(mal_meaning::proofs::SlowLemmas::least_at_end, mal_meaning::proofs::SlowLemmas::least_step))]
fn shortest_bat(columns: &[Obj]) -> Option<u64>
    ensures { result ≡ shortest (values_of columns.now) }
{
    let mut least = None;
    let mut rest = columns;
    'columns: while let [column, more @ ..] = rest {
        least = shorter(least, column);
        rest = more;
    }
    least
}

/// The rows of an output: none where `keep` isn't true, else as many as the shortest BAT among the
/// columns has pairs, or one without a BAT; in the order of the keys, then of all cells; and of
/// these at most as many as the limit.
pub fn output(alloc: Global, out: &Out, values: &[Obj]) -> Result<Sequence<Sequence<Cell>>, Memory>
    ensures rows { IfOk result (λ rows. rows ≡ output_rows out.now (values_of values.now)) }
{
    if !shows_rows(values, &out.keep)? {
        return Ok(Sequence::new(alloc));
    }
    let columns = columns_at(alloc, values, out.cols.as_slice())?;
    let count = shortest_bat(columns.as_slice()).unwrap_or(1);
    let rows = first_rows(alloc, columns.as_slice(), count)?;
    arrange(out, rows)
}
