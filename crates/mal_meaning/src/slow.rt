//! The plain program whose contract is the meaning of a plan.
ghost use Rattle.std.specs.Prelude.{◌≡◌, ◌++◌, ◌∷◌, [], map, Some, None, Err, slice_index_or, IfOk, OnOk};
ghost use Rattle.cell_core.specs.declared.memory.RunError.TheVariants as RunError;
ghost use Rattle.cell_core.specs.declared.cell.Cell.TheVariants.{Nil};
ghost use Rattle.cell_core.specs.Pairs.{numbered};
ghost use Rattle.cell_core.specs.Relations.{column_cells};
ghost use Rattle.mal_meaning.specs.Meaning.{arg_value, arg_values, column_pairs, bind_value, instr_value, plan_rows};
ghost use Rattle.mal_meaning.specs.Runs.{run_values};

use crate::columns::{number, push_cell};
use crate::operate::run;
use crate::output::{rows_of_output, value_of as value_in};
use crate::plan::Plan;
use cell_core::{Arg, Cell, Db, Instr, Memory, Op, RunError, Sequence, Value, Word, find_column};
use std::alloc::Global;

/// Adds the cell at a place of a row, or Nil.
fn push_cell_in(cells: &mut Sequence<Cell>, row: &[Cell], place: usize) -> Result<(), Memory>
    ensures { OnOk result (cells.new ≡ cells.old ++ slice_index_or row.now place Nil ∷ []) }
{
    match row.get(place) {
        Some(cell) => push_cell(cells, cell),
        None => cells.push(Cell::Nil),
    }
}

/// The cells at a place of the rows.
fn cells_at(alloc: Global, rows: &[Sequence<Cell>], place: usize) -> Result<Sequence<Cell>, Memory>
    ensures { IfOk result (λ cells. cells ≡ column_cells place rows.now) }
{
    let mut cells = Sequence::new(alloc);
    let mut rest = rows;
    'rows: while let [row, more @ ..] = rest {
        push_cell_in(&mut cells, row.as_slice(), place)?;
        rest = more;
    }
    Ok(cells)
}

/// The cells of a column, each beside the number of its row; none where the database doesn't have
/// the column.
fn column(
    alloc: Global,
    db: &Db,
    table: &Word,
    name: &Word,
) -> Result<Sequence<(Cell, Cell)>, Memory>
    ensures { IfOk result (λ pairs. pairs ≡ column_pairs table.now name.now db.now) }
{
    let Some(table) = db.table(table) else {
        return Ok(Sequence::new(alloc));
    };
    let Some(place) = find_column(table.columns.as_slice(), name) else {
        return Ok(Sequence::new(alloc));
    };
    let cells = cells_at(alloc, table.rows.as_slice(), place)?;
    number(alloc, cells.as_slice())
}

/// The column that the arguments of a bind name.
fn bind(alloc: Global, db: &Db, args: &[Value]) -> Result<Option<Value>, Memory>
    ensures { IfOk result (λ value. value ≡ bind_value db.now args.now) }
{
    let [
        Value::One(Cell::Text(table)),
        Value::One(Cell::Text(name)),
        Value::One(Cell::Text(_kind)),
    ] = args
    else {
        return Ok(None);
    };
    Ok(Some(Value::Bat(column(alloc, db, table, name)?)))
}

/// The value of an argument, if the instruction that it names has one.
fn value_of(alloc: Global, values: &[Value], arg: &Arg) -> Result<Option<Value>, Memory>
    ensures { IfOk result (λ value. value ≡ arg_value (map Some values.now) arg.now) }
{
    match arg {
        Arg::Var(n) if *n as usize >= values.len() => Ok(None),
        _ => Ok(Some(value_in(alloc, values, arg)?)),
    }
}

/// The values of the arguments, if all have one.
fn values_of(
    alloc: Global,
    values: &[Value],
    args: &[Arg],
) -> Result<Option<Sequence<Value>>, Memory>
    ensures { IfOk result (λ found. found ≡ arg_values (map Some values.now) args.now) }
{
    let mut found = Sequence::new(alloc);
    let mut rest = args;
    'args: while let [arg, more @ ..] = rest {
        let Some(value) = value_of(alloc, values, arg)? else {
            return Ok(None);
        };
        found.push(value)?;
        rest = more;
    }
    Ok(Some(found))
}

/// The value of an instruction, if it has one.
#[tactic(auto, unfolding(crate::specs::Meaning::instr_value))]
fn run_instr(
    alloc: Global,
    db: &Db,
    values: &[Value],
    instr: &Instr,
) -> Result<Option<Value>, Memory>
    ensures { IfOk result (λ value. value ≡ instr_value db.now (map Some values.now) instr.now) }
{
    let Some(args) = values_of(alloc, values, instr.args.as_slice())? else {
        return Ok(None);
    };
    if instr.op == Op::Bind {
        bind(alloc, db, args.as_slice())
    } else {
        run(alloc, instr.op, args.as_slice())
    }
}

/// The values of the instructions, if all have one.
fn run_instrs(alloc: Global, db: &Db, instrs: &[Instr]) -> Result<Option<Sequence<Value>>, Memory>
    ensures { IfOk result (λ values. values ≡ run_values db.now instrs.now) }
{
    let mut values = Sequence::new(alloc);
    let mut rest = instrs;
    'instrs: while let [instr, more @ ..] = rest {
        let Some(value) = run_instr(alloc, db, values.as_slice(), instr)? else {
            return Ok(None);
        };
        values.push(value)?;
        rest = more;
    }
    Ok(Some(values))
}

/// The rows of a plan over a database, computed instruction by instruction over plain lists.
/// `Overflow` means an instruction without a value: one that overflows, whose arguments don't fit,
/// or that names a result which doesn't exist.
#[tactic(auto, using(crate::specs::Runs::rows_of_run))]
pub fn slow_run(alloc: Global, plan: &Plan, db: &Db) -> Result<Sequence<Sequence<Cell>>, RunError>
    ensures rows { IfOk result (λ rows. plan_rows plan.now db.now ≡ Some rows) }
    ensures overflow { result ≡ Err RunError.Overflow → plan_rows plan.now db.now ≡ None }
{
    let Some(values) = run_instrs(alloc, db, plan.instrs.as_slice())? else {
        return Err(RunError::Overflow);
    };
    Ok(rows_of_output(alloc, &plan.out, values.as_slice())?)
}
