//! Plans: their meaning, their first faults, and a run.
ghost use Rattle.std.specs.Prelude.{◌≡◌, ◌<◌, []};

use bat_core::{BatBuilder, Columns, Obj, Shared};
use bat_kernel::Kernel;
use cell_core::{
    Arg, Cell, Column, Db, Instr, Kind, Memory, Op, RunError, Sequence, Steps, Table, Word, word_of,
};
use mal_check::{PlanError, check_plan};
use mal_exec::{output, run_plan};
use mal_meaning::{Out, Plan, slow_run};
use std::alloc::Global;
use std::marker::Brand;
use std::sync::ledger::{Blank, Ledger};
use std::test::Fail;

/// A table `t` with the rows 3, 1 and 2 in its column `a`.
fn database(alloc: Global) -> Result<Db, Memory> {
    let mut columns = Sequence::new(alloc);
    columns.push(Column {
        name: word_of(alloc, "a")?,
        kind: Kind::Int,
        width: 0,
        not_null: false,
        default: Cell::Nil,
    })?;
    let mut rows = Sequence::new(alloc);
    for number in [3, 1, 2] {
        let mut row = Sequence::new(alloc);
        row.push(Cell::Int(number))?;
        rows.push(row)?;
    }
    let name = word_of(alloc, "t")?;
    let mut tables = Sequence::new(alloc);
    tables.push(Table {
        name,
        columns,
        rows,
    })?;
    Ok(Db { tables })
}

/// The bind of `t.a`.
fn bind(alloc: Global) -> Result<Instr, Memory> {
    let mut args = Sequence::new(alloc);
    for text in ["t", "a", "int"] {
        args.push(Arg::Const(Cell::Text(word_of(alloc, text)?)))?;
    }
    Ok(Instr { op: Op::Bind, args })
}

/// A plan that binds `t.a`, runs an operator on it and constants, and shows the result.
fn plan(alloc: Global, op: Op, constants: Vec<Cell>) -> Result<Plan, Memory> {
    let mut args = Sequence::new(alloc);
    args.push(Arg::Var(0))?;
    for constant in constants {
        args.push(Arg::Const(constant))?;
    }
    let mut instrs = Sequence::new(alloc);
    instrs.push(bind(alloc)?)?;
    instrs.push(Instr { op, args })?;
    let mut cols = Sequence::new(alloc);
    cols.push(Arg::Var(1))?;
    let out = Out {
        cols,
        keep: None,
        order: Sequence::new(alloc),
        limit: None,
    };
    Ok(Plan { instrs, out })
}

#[test]
fn a_range_of_rows(rt: HostRuntime) -> Result<(), Fail> {
    let alloc = rt.alloc();
    let db = database(alloc)?;
    let range = vec![in alloc;
        Cell::Int(2),
        Cell::Int(3),
        Cell::Bit(true),
        Cell::Bit(true),
    ]?;
    let rows = slow_run(alloc, &plan(alloc, Op::Select, range)?, &db);
    assert!(rt; matches!(&rows, Ok(rows) if rows.len() == 2));
    let last = vec![in alloc; Cell::Int(9_223_372_036_854_775_807)]?;
    let overflow = slow_run(alloc, &plan(alloc, Op::Times, last)?, &db);
    assert!(rt; matches!(overflow, Err(RunError::Overflow)));
    Ok(())
}

#[test]
fn plans_are_shared(rt: HostRuntime) -> Result<(), Fail> {
    let alloc = rt.alloc();
    let plan = plan(alloc, Op::Mirror, Vec::new(alloc))?;
    let shared = plan.share(alloc)?;
    assert!(rt; shared == plan);
    Ok(())
}

/// `count` arguments, each the result of that instruction.
fn results(alloc: Global, number: u32, count: u8) -> Result<Sequence<Arg>, Memory> {
    let mut args = Sequence::new(alloc);
    for _ in 0..count {
        args.push(Arg::Var(number))?;
    }
    Ok(args)
}

/// A bind, an operator on the result of an instruction, and `columns` columns of its result.
fn faulty(alloc: Global, op: Op, number: u32, columns: u8) -> Result<Plan, Memory> {
    let mut instrs = Sequence::new(alloc);
    instrs.push(bind(alloc)?)?;
    let args = results(alloc, number, 1)?;
    instrs.push(Instr { op, args })?;
    let out = Out {
        cols: results(alloc, 1, columns)?,
        keep: None,
        order: Sequence::new(alloc),
        limit: None,
    };
    Ok(Plan { instrs, out })
}

#[test]
fn first_faults(rt: HostRuntime) -> Result<(), Fail> {
    let alloc = rt.alloc();
    for (op, number, columns, fault) in [
        (Op::Mirror, 0, 1, None),
        (Op::Mirror, 0, 0, Some(PlanError::NoOutput)),
        (Op::Join, 1, 0, Some(PlanError::UnknownVar(1))),
        (Op::Join, 0, 0, Some(PlanError::WrongCount(1))),
        (Op::GroupHeads, 0, 0, Some(PlanError::KindsDiffer(1))),
    ] {
        let plan = faulty(alloc, op, number, columns)?;
        assert!(rt; check_plan(alloc, &plan).err() == fault);
    }
    Ok(())
}

/// A BAT with the tails 3, 1 and 2.
fn three(alloc: Global) -> Result<Obj, Memory> {
    let mut bat = BatBuilder::new(alloc);
    for number in [3, 1, 2] {
        bat.append(alloc, Cell::Oid(0), Cell::Int(number))?;
    }
    let bat = bat.finish(alloc)?;
    Ok(Obj::Bat(Shared::new(alloc, bat)?))
}

#[test]
fn rows_of_an_output(rt: HostRuntime) -> Result<(), Fail> {
    let alloc = rt.alloc();
    let mut cols = Sequence::new(alloc);
    cols.push(Arg::Var(0))?;
    cols.push(Arg::Const(Cell::Int(7)))?;
    let mut order = Sequence::new(alloc);
    order.push((0, false))?;
    let out = Out {
        cols,
        keep: None,
        order,
        limit: Some(2),
    };
    let values = vec![in alloc; three(alloc)?]?;
    let rows = output(alloc, &out, values.as_slice())?;
    assert_eq!(rt; rows.len(), 2);
    let first = rows.get(0).and_then(|row| row.get(0));
    assert!(rt; first == Some(&Cell::Int(3)));
    Ok(())
}

/// A database without tables.
struct NoTables;

impl Columns for NoTables {
    ghost database = { λ none. record { tables = [] } };

    fn column(
        &self,
        _alloc: Global,
        _table: &Word,
        _column: &Word,
    ) -> Result<Option<Shared>, Memory> {
        Ok(None)
    }
}

/// The number of rows of a plan without instructions, and its load.
fn ran<L: Ledger>(alloc: Global, blank: Blank) -> Result<(usize, u128), RunError>
    requires name { blank.name ≡ L.name }
    requires parts { blank.parts ≡ L.parts }
    requires some { 0 < blank.parts }
{
    let mut steps = Steps::<L>::new(blank);
    let cols = vec![in alloc; Arg::Const(Cell::Int(7))].map_err(|_| Memory)?;
    let out = Out {
        cols: Sequence::from_vec(cols),
        keep: None,
        order: Sequence::new(alloc),
        limit: None,
    };
    let plan = Plan {
        instrs: Sequence::new(alloc),
        out,
    };
    let ran = run_plan(alloc, &plan, &NoTables, &Kernel::new(), &mut steps)?;
    Ok((ran.rows.len(), ran.load))
}

#[test]
fn a_plan_without_instructions(rt: HostRuntime) {
    let ran = ran::<Brand>(rt.alloc(), Blank::new(1));
    assert!(rt; matches!(ran, Ok((1, 0))));
}
