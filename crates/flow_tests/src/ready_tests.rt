//! Jobs that are all ready, run with several numbers of workers.
ghost use Rattle.std.specs.Prelude.{All, IfOk};
ghost use Rattle.dataflow.specs.Jobs.{CanRun};

use crate::gate::Gate;
use bat_core::{Obj, Operate};
use bat_kernel::Kernel;
use cell_core::{Cell, Memory, Op, RunError};
use dataflow::{Job, run_ready};
use std::alloc::Global;
use std::thread::Threads;

/// The sum of two numbers.
fn sum(alloc: Global, first: i64, second: i64) -> Result<Job, Memory>
    ensures { IfOk result CanRun }
{
    let mut args = Vec::new(alloc);
    args.push(Obj::One(Cell::Int(first)))?;
    args.push(Obj::One(Cell::Int(second)))?;
    Ok(Job { op: Op::Plus, args })
}

/// Whether the first is less than the second.
fn less(alloc: Global, first: i64, second: i64) -> Result<Job, Memory>
    ensures { IfOk result CanRun }
{
    let mut args = Vec::new(alloc);
    args.push(Obj::One(Cell::Int(first)))?;
    args.push(Obj::One(Cell::Int(second)))?;
    Ok(Job { op: Op::Lt, args })
}

/// A sum and a comparison, each thrice.
fn jobs(alloc: Global, first: i64) -> Result<Vec<Job>, Memory>
    ensures { IfOk result (λ jobs. All CanRun jobs.items) }
{
    let mut jobs = Vec::new(alloc);
    'jobs: for _ in 0..3 {
        jobs.push(sum(alloc, first, 1)?)?;
        jobs.push(less(alloc, first, 1)?)?;
    }
    Ok(jobs)
}

/// The number of results that are right.
fn right<R: Threads + Sync, E: Operate + Sync>(
    rt: &R,
    alloc: Global,
    kernel: &E,
    first: i64,
    workers: u32,
) -> Result<usize, RunError> {
    let jobs = jobs(alloc, first)?;
    let found = run_ready(rt, alloc, jobs, kernel, workers)?;
    let mut count = 0_usize;
    for value in found.as_slice() {
        match value {
            Obj::One(Cell::Int(3) | Cell::Bit(false)) => count = count.saturating_add(1),
            _ => return Ok(0),
        }
    }
    Ok(count)
}

#[test]
fn jobs_give_their_values(rt: HostRuntime) {
    for workers in [0, 1, 2, 4, 9] {
        let kernel = Kernel::new();
        assert!(rt; right(&rt, rt.alloc(), &kernel, 2, workers) == Ok(6));
        assert!(rt; right(&rt, rt.alloc(), &kernel, i64::MAX, workers) == Err(RunError::Overflow));
    }
}

#[test]
fn jobs_run_side_by_side(rt: HostRuntime) {
    let gate = Gate::new(Op::Plus, Op::Lt);
    assert!(rt; right(&rt, rt.alloc(), &gate, 2, 6) == Ok(6));
    assert!(rt; gate.has_passed());
}
