//! Running a plan instruction by instruction.
ghost use Rattle.std.specs.Prelude.{◌≡◌, [], ◌+◌, ◌≤◌, map, slice_get, Some, None, Err, IfOk, IfSome};
ghost use Rattle.std.specs.Option.{option_map};
ghost use Rattle.cell_core.specs.declared.memory.RunError.TheVariants as RunError;
ghost use Rattle.cell_core.specs.Operators.{pairs_read};
ghost use Rattle.bat_core.specs.Objects.{value_of, values_of};
ghost use Rattle.mal_meaning.specs.Meaning.{arg_value, arg_values, bind_value, column_pairs, instr_value, value_over, work_over, instr_load, load_from, plan_rows, plan_load};
ghost use Rattle.mal_meaning.specs.Runs.{FitsHere, RunsFrom, Runs, run_values};

use crate::rows::output;
use bat_core::{Bat, Columns, Obj, Operate, Shared};
use cell_core::{Arg, Cell, Instr, Memory, Op, RunError, Sequence, Steps, Word};
use mal_meaning::Plan;
use std::alloc::Global;
use std::sync::ledger::Ledger;

/// The result of a run of a plan.
pub struct Ran {
    /// The rows of the plan's output.
    pub rows: Sequence<Sequence<Cell>>,
    /// The work of its instructions, in pairs read and made.
    pub load: u128,
}

// By a call of its own, so that proofs needn't go through its forms where one is dropped.
impl Drop for Ran {
    fn drop(self) {
        let Ran { rows: _, load: _ } = self;
    }
}

/// An instruction's result and its work.
#[derive(Drop)]
pub struct Done {
    /// The result.
    pub value: Obj,
    /// The stated work, in pairs read and made.
    pub work: u128,
}

/// The value at a place, if there is one.
fn value_at(values: &[Obj], place: u32) -> Result<Option<Obj>, Memory>
    ensures { IfOk result (λ found. option_map value_of found ≡ option_map value_of (slice_get values.now place)) }
{
    match values.get(place as usize) {
        Some(value) => {
            let value = value.share()?;
            Ok(Some(value))
        }
        None => Ok(None),
    }
}

/// The value of an argument, if the instruction that it names has one.
fn arg_at(values: &[Obj], arg: &Arg) -> Result<Option<Obj>, Memory>
    ensures { IfOk result (λ found. option_map value_of found ≡ arg_value (map Some (values_of values.now)) arg.now) }
{
    match arg {
        Arg::Const(cell) => {
            let cell = cell.share()?;
            Ok(Some(Obj::One(cell)))
        }
        Arg::Var(n) => value_at(values, *n),
    }
}

/// The values of the arguments, if all have one.
fn args_at(alloc: Global, values: &[Obj], args: &[Arg]) -> Result<Option<Vec<Obj>>, Memory>
    ensures { IfOk result (λ found. option_map (λ v. values_of v.items) found ≡ arg_values (map Some (values_of values.now)) args.now) }
{
    let mut found = Vec::with_capacity(alloc, args.len())?;
    let mut rest = args;
    'args: while let [arg, more @ ..] = rest {
        let Some(value) = arg_at(values, arg)? else {
            return Ok(None);
        };
        found.push(value)?;
        rest = more;
    }
    Ok(Some(found))
}

/// The cells of a column, each beside the number of its row; none where the database doesn't have
/// the column.
fn column_of<C: Columns>(
    alloc: Global,
    columns: &C,
    table: &Word,
    column: &Word,
) -> Result<Shared, Memory>
    ensures { IfOk result (λ shared. shared ≡ column_pairs table.now column.now (C.database columns.now)) }
{
    match columns.column(alloc, table, column)? {
        Some(shared) => Ok(shared),
        None => Shared::new(alloc, Bat::new(alloc)),
    }
}

/// The column that a bind names.
fn bind<C: Columns>(alloc: Global, columns: &C, args: &[Obj]) -> Result<Option<Obj>, Memory>
    ensures { IfOk result (λ found. option_map value_of found ≡ bind_value (C.database columns.now) (values_of args.now)) }
{
    let [
        Obj::One(Cell::Text(table)),
        Obj::One(Cell::Text(column)),
        Obj::One(Cell::Text(_kind)),
    ] = args
    else {
        return Ok(None);
    };
    Ok(Some(Obj::Bat(column_of(alloc, columns, table, column)?)))
}

/// How many pairs the values have; `Memory` where that leaves 128 bits.
fn pairs_of(values: &[Obj]) -> Result<u128, Memory>
    ensures { IfOk result (λ pairs. pairs ≡ pairs_read (values_of values.now)) }
{
    let mut pairs = 0_u128;
    let mut rest = values;
    'values: while let [value, more @ ..] = rest {
        pairs = pairs
            .checked_add(u128::from(value.pair_count()))
            .ok_or(Memory)?;
        rest = more;
    }
    Ok(pairs)
}

/// The value of an operator on arguments that fit it, and its work, by which the counter rises.
/// `Overflow` comes exactly where it has none, and then the counter rises by at most that work, and
/// doesn't fall.
pub fn run_op<C: Columns, E: Operate, L: Ledger>(
    alloc: Global,
    op: Op,
    args: &[Obj],
    columns: &C,
    kernel: &E,
    steps: &mut Steps<L>,
) -> Result<Done, RunError>
    requires { FitsHere (C.database columns.now) op (Some (values_of args.now)) }
    ensures value { IfOk result (λ done. value_over (C.database columns.now) op (values_of args.now) ≡ Some (value_of done.value)) }
    ensures work { IfOk result (λ done. done.work ≡ work_over (C.database columns.now) op (values_of args.now)) }
    ensures counted { IfOk result (λ done. steps.new ≡ steps.old + done.work) }
    ensures overflow { result ≡ Err RunError.Overflow → value_over (C.database columns.now) op (values_of args.now) ≡ None }
    ensures later { result ≡ Err RunError.Overflow → steps.old ≤ steps.new }
    ensures within { result ≡ Err RunError.Overflow → steps.new ≤ steps.old + work_over (C.database columns.now) op (values_of args.now) }
{
    if op == Op::Bind {
        let Some(value) = bind(alloc, columns, args)? else {
            unreachable!();
        };
        let work = value.pair_count();
        steps.add(work);
        return Ok(Done {
            value,
            work: u128::from(work),
        });
    }
    let read = pairs_of(args)?;
    let value = kernel.run(alloc, op, args, steps)?;
    let work = read
        .checked_add(u128::from(value.pair_count()))
        .ok_or(Memory)?;
    Ok(Done { value, work })
}

/// The value of an instruction, where those before it have these values, and its work, by which the
/// counter rises. `Overflow` comes exactly where it has none, and then the counter rises by at most
/// that work, and doesn't fall.
#[tactic(auto, unfolding(mal_meaning::specs::Meaning::instr_value))]
pub fn run_instr<C: Columns, E: Operate, L: Ledger>(
    alloc: Global,
    instr: &Instr,
    values: &[Obj],
    columns: &C,
    kernel: &E,
    steps: &mut Steps<L>,
) -> Result<Done, RunError>
    requires { FitsHere (C.database columns.now) instr.now.op (arg_values (map Some (values_of values.now)) instr.now.args) }
    ensures value { IfOk result (λ done. instr_value (C.database columns.now) (map Some (values_of values.now)) instr.now ≡ Some (value_of done.value)) }
    ensures work { IfOk result (λ done. done.work ≡ instr_load (C.database columns.now) (map Some (values_of values.now)) instr.now) }
    ensures counted { IfOk result (λ done. steps.new ≡ steps.old + done.work) }
    ensures overflow { result ≡ Err RunError.Overflow → instr_value (C.database columns.now) (map Some (values_of values.now)) instr.now ≡ None }
    ensures later { result ≡ Err RunError.Overflow → steps.old ≤ steps.new }
    ensures within { result ≡ Err RunError.Overflow → steps.new ≤ steps.old + instr_load (C.database columns.now) (map Some (values_of values.now)) instr.now }
{
    let Some(args) = args_at(alloc, values, instr.args.as_slice())? else {
        unreachable!();
    };
    run_op(alloc, instr.op, args.as_slice(), columns, kernel, steps)
}

/// The same over the results so far.
fn run_next<C: Columns, E: Operate, L: Ledger>(
    alloc: Global,
    instr: &Instr,
    values: &Sequence<Obj>,
    columns: &C,
    kernel: &E,
    steps: &mut Steps<L>,
) -> Result<Done, RunError>
    requires { FitsHere (C.database columns.now) instr.now.op (arg_values (map Some (values_of values.now)) instr.now.args) }
    ensures value { IfOk result (λ done. instr_value (C.database columns.now) (map Some (values_of values.now)) instr.now ≡ Some (value_of done.value)) }
    ensures work { IfOk result (λ done. done.work ≡ instr_load (C.database columns.now) (map Some (values_of values.now)) instr.now) }
    ensures counted { IfOk result (λ done. steps.new ≡ steps.old + done.work) }
    ensures overflow { result ≡ Err RunError.Overflow → instr_value (C.database columns.now) (map Some (values_of values.now)) instr.now ≡ None }
    ensures later { result ≡ Err RunError.Overflow → steps.old ≤ steps.new }
    ensures within { result ≡ Err RunError.Overflow → steps.new ≤ steps.old + instr_load (C.database columns.now) (map Some (values_of values.now)) instr.now }
{
    run_instr(alloc, instr, values.as_slice(), columns, kernel, steps)
}

/// Runs a plan over the columns of a database, each instruction once and in order. The counter
/// rises by exactly the plan's work. `Overflow` comes exactly where the plan has no rows, and then
/// the counter rises by at most that work, and doesn't fall.
pub fn run_plan<C: Columns, E: Operate, L: Ledger>(
    alloc: Global,
    plan: &Plan,
    columns: &C,
    kernel: &E,
    steps: &mut Steps<L>,
) -> Result<Ran, RunError>
    requires runs { Runs plan.now (C.database columns.now) }
    ensures rows { IfOk result (λ ran. plan_rows plan.now (C.database columns.now) ≡ Some ran.rows) }
    ensures load { IfOk result (λ ran. ran.load ≡ plan_load plan.now (C.database columns.now)) }
    ensures work { IfOk result (λ ran. steps.new ≡ steps.old + plan_load plan.now (C.database columns.now)) }
    ensures overflow { result ≡ Err RunError.Overflow → plan_rows plan.now (C.database columns.now) ≡ None }
    ensures later { result ≡ Err RunError.Overflow → steps.old ≤ steps.new }
    ensures within { result ≡ Err RunError.Overflow → steps.new ≤ steps.old + plan_load plan.now (C.database columns.now) }
{
    let finished = run_instrs(alloc, plan.instrs.as_slice(), columns, kernel, steps)?;
    let rows = output(alloc, &plan.out, finished.values.as_slice())?;
    Ok(Ran {
        rows,
        load: finished.load,
    })
}

/// The results of instructions and their work.
struct Finished {
    values: Sequence<Obj>,
    load: u128,
}

// By a call of its own, so that proofs needn't go through its forms where one is dropped.
impl Drop for Finished {
    fn drop(self) {
        let Finished { values: _, load: _ } = self;
    }
}

/// Runs instructions, each once and in order.
#[tactic(auto, using(crate::proofs::RowLemmas::some_more))]
fn run_instrs<C: Columns, E: Operate, L: Ledger>(
    alloc: Global,
    instrs: &[Instr],
    columns: &C,
    kernel: &E,
    steps: &mut Steps<L>,
) -> Result<Finished, RunError>
    requires runs { RunsFrom (C.database columns.now) [] instrs.now }
    ensures values { IfOk result (λ finished. run_values (C.database columns.now) instrs.now ≡ Some (values_of finished.values)) }
    ensures load { IfOk result (λ finished. finished.load ≡ load_from (C.database columns.now) [] instrs.now) }
    ensures work { IfOk result (λ finished. steps.new ≡ steps.old + load_from (C.database columns.now) [] instrs.now) }
    ensures overflow { result ≡ Err RunError.Overflow → run_values (C.database columns.now) instrs.now ≡ None }
    ensures later { result ≡ Err RunError.Overflow → steps.old ≤ steps.new }
    ensures within { result ≡ Err RunError.Overflow → steps.new ≤ steps.old + load_from (C.database columns.now) [] instrs.now }
{
    let mut values = Sequence::new(alloc);
    let mut load = 0_u128;
    let mut rest = instrs;
    'instrs: while let [instr, more @ ..] = rest {
        let done = run_next(alloc, instr, &values, columns, kernel, steps)?;
        load = load.checked_add(done.work).ok_or(Memory)?;
        values.push(done.value)?;
        rest = more;
    }
    Ok(Finished { values, load })
}
