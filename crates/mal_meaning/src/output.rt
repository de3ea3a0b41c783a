//! The rows of an output: in order, and at most as many as its limit.
ghost use Rattle.std.specs.Prelude.{◌≡◌, map, Some, IfOk};
ghost use Rattle.mal_meaning.specs.Output.{limited, arranged, unordered, output_rows, value_in, is_yes, is_shown};

use crate::calc::{first_rows, shortest_bat};
use crate::plan::Out;
use crate::relations::copy_pairs;
use cell_core::{Arg, Cell, Memory, Sequence, Value, sort_rows_by};
use std::alloc::Global;

/// Sorts rows by an output's keys and then by all cells, and keeps the first ones where it has a
/// limit.
pub fn arrange(out: &Out, rows: Vec<Sequence<Cell>>) -> Result<Sequence<Sequence<Cell>>, Memory>
    ensures { IfOk result (λ arrangement. arrangement ≡ arranged out.now rows.items) }
{
    let mut rows = rows;
    sort_rows_by(&mut rows, out.order.as_slice())?;
    if let Some(limit) = out.limit {
        cut(&mut rows, limit);
    }
    Ok(Sequence::from_vec(rows))
}

/// Keeps the first rows.
fn cut(rows: &mut Vec<Sequence<Cell>>, limit: u64)
    ensures { rows.new.items ≡ limited (Some limit) rows.old.items }
{
    if limit < rows.len() as u64 {
        rows.truncate(limit as usize);
    }
}

/// An equal value, which shares the texts.
fn copy_value(alloc: Global, value: &Value) -> Result<Value, Memory>
    ensures { IfOk result (λ copy. copy ≡ value.now) }
{
    Ok(match value {
        Value::One(cell) => Value::One(cell.share()?),
        Value::Bat(b) => Value::Bat(copy_pairs(alloc, b.as_slice())?),
    })
}

/// The value of an argument, where all instructions have values.
pub(crate) fn value_of(alloc: Global, values: &[Value], arg: &Arg) -> Result<Value, Memory>
    ensures { IfOk result (λ value. value ≡ value_in values.now arg.now) }
{
    match arg {
        Arg::Const(cell) => Ok(Value::One(cell.share()?)),
        Arg::Var(n) => match values.get(*n as usize) {
            Some(value) => copy_value(alloc, value),
            None => Ok(Value::One(Cell::Nil)),
        },
    }
}

/// The values of arguments.
fn values_of(alloc: Global, values: &[Value], args: &[Arg]) -> Result<Sequence<Value>, Memory>
    ensures { IfOk result (λ columns. columns ≡ map (value_in values.now) args.now) }
{
    let mut columns = Sequence::new(alloc);
    let mut rest = args;
    'args: while let [arg, more @ ..] = rest {
        columns.push(value_of(alloc, values, arg)?)?;
        rest = more;
    }
    Ok(columns)
}

fn shows_rows(alloc: Global, values: &[Value], keep: &Option<Arg>) -> Result<bool, Memory>
    ensures { IfOk result (λ shown. shown ≡ is_shown values.now keep.now) }
{
    let Some(arg) = keep else {
        return Ok(true);
    };
    Ok(match &value_of(alloc, values, arg)? {
        Value::One(Cell::Bit(bit)) => *bit,
        _ => false,
    })
}

/// The rows of an output, as a plain loop over the values.
pub(crate) fn rows_of_output(
    alloc: Global,
    out: &Out,
    values: &[Value],
) -> Result<Sequence<Sequence<Cell>>, Memory>
    ensures { IfOk result (λ rows. rows ≡ output_rows out.now values.now) }
{
    if !shows_rows(alloc, values, &out.keep)? {
        return Ok(Sequence::new(alloc));
    }
    let columns = values_of(alloc, values, out.cols.as_slice())?;
    let count = shortest_bat(columns.as_slice()).unwrap_or(1);
    let rows = first_rows(alloc, columns.as_slice(), count)?;
    arrange(out, rows.into_vec())
}
