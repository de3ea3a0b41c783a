//! Plans run with several numbers of workers.
ghost use Rattle.dataflow.specs.Plans.{NoneOut};

use crate::PlanRun;
use crate::gate::Gate;
use crate::plans::{ranges, tree};
use bat_core::{Obj, Operate};
use bat_kernel::Kernel;
use cell_core::{Cell, Db, Op, RunError, Sequence};
use dataflow::flow;
use mal_meaning::{Plan, slow_run};
use std::alloc::Global;
use std::sync::Wait;
use std::test::Fail;
use std::thread::Threads;

/// The values of a plan that is run by `workers` workers; none where it has a fault.
fn ran<R: Threads + Wait + Sync, E: Operate + Sync>(
    rt: &R,
    alloc: Global,
    plan: &Plan,
    kernel: &E,
    workers: u32,
) -> Result<Option<PlanRun>, RunError> {
    let Some(mut run) = PlanRun::new(alloc, plan.share(alloc)?)? else {
        return Ok(None);
    };
    flow(rt, alloc, &mut run, kernel, workers)?;
    Ok(Some(run))
}

/// Whether the values are the cells of the one row.
fn is_row(values: &[Option<Obj>], rows: &[Sequence<Cell>]) -> bool {
    let [row] = rows else {
        return false;
    };
    let mut cells = row.as_slice().iter();
    for value in values {
        let Some(Obj::One(found)) = value else {
            return false;
        };
        if cells.next() != Some(found) {
            return false;
        }
    }
    cells.next().is_none()
}

/// Whether a tree of `count` instructions has the values that the plain program computes.
fn agrees<R: Threads + Wait + Sync>(
    rt: &R,
    alloc: Global,
    count: u32,
    times: i64,
    workers: u32,
) -> Result<bool, RunError> {
    let plan = tree(alloc, count, times)?;
    let tables = Sequence::new(alloc);
    let rows = slow_run(alloc, &plan, &Db { tables });
    match ran(rt, alloc, &plan, &Kernel::new(), workers) {
        Ok(Some(run)) => Ok(is_row(run.values(), rows?.as_slice())),
        Ok(None) => Ok(false),
        Err(error) => Ok(rows.err() == Some(error)),
    }
}

const COUNTS: [u32; 4] = [1, 2, 50, 500];

const WORKERS: [u32; 5] = [0, 1, 2, 4, 16];

#[test]
fn each_number_of_workers_gives_the_plain_programs_values(rt: HostRuntime) {
    for count in COUNTS {
        for workers in WORKERS {
            assert!(rt; agrees(&rt, rt.alloc(), count, 3, workers) == Ok(true));
        }
    }
}

#[test]
fn each_number_of_workers_gives_the_plain_programs_overflow(rt: HostRuntime) {
    for count in COUNTS {
        for workers in WORKERS {
            assert!(rt; agrees(&rt, rt.alloc(), count, i64::MAX, workers) == Ok(true));
        }
    }
}

/// A mirror needs the other range alone; in waves it would start only after both ranges are done.
#[test]
fn a_mirror_starts_while_the_first_select_is_held(rt: HostRuntime) -> Result<(), Fail> {
    let alloc = rt.alloc();
    let gate = Gate::new(Op::Select, Op::Mirror);
    let plan = ranges(alloc)?;
    let Ok(Some(run)) = ran(&rt, alloc, &plan, &gate, 2) else {
        return Err(Fail::new("the plan isn't run"));
    };
    assert!(rt; gate.has_passed());
    assert!(rt; matches!(run.values().last(), Some(Some(Obj::Bat(_)))));
    Ok(())
}
