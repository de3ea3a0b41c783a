//! Sessions run beside one another, and so do the instructions of a query.
use crate::kernels::{NamedText, await_count, run_by};
use bat_core::{Obj, Operate};
use bat_kernel::Kernel;
use cell_core::{Memory, Op, RunError, Steps};
use std::alloc::Global;
use std::sync::Wait;
use std::sync::atomic::{AtomicU64, Ordering};
use std::sync::ledger::Ledger;
use std::test::Fail;
use std::thread::Threads;

/// What selections await.
#[derive(Clone, Copy)]
enum Awaited {
    /// So many selections, the first ones, await that all of them have started.
    Selections(u64),
    /// The first selection awaits a mirror.
    Mirror,
}

impl Awaited {
    /// How many selections are held.
    fn held(self) -> u64 {
        match self {
            Awaited::Selections(count) => count,
            Awaited::Mirror => 1,
        }
    }
}

/// The kernel, which holds the first selections until what they await has started, and counts those
/// that saw it.
#[derive(Drop)]
struct Holding {
    awaited: Awaited,
    selections: AtomicU64,
    mirrors: AtomicU64,
    met: AtomicU64,
}

impl Holding {
    fn new(awaited: Awaited) -> Holding {
        Holding {
            awaited,
            selections: AtomicU64::new(0),
            mirrors: AtomicU64::new(0),
            met: AtomicU64::new(0),
        }
    }

    /// Waits for what is awaited.
    fn hold(&self) {
        let is_met = match self.awaited {
            Awaited::Selections(count) => await_count(&self.selections, count),
            Awaited::Mirror => await_count(&self.mirrors, 1),
        };
        if is_met {
            self.met.fetch_add(1, Ordering::SeqCst);
        }
    }
}

impl Operate for Holding {
    fn run<L: Ledger>(
        &self,
        alloc: Global,
        op: Op,
        args: &[Obj],
        steps: &mut Steps<L>,
    ) -> Result<Obj, RunError> {
        if matches!(op, Op::Mirror) {
            self.mirrors.fetch_add(1, Ordering::SeqCst);
        }
        if matches!(op, Op::Select)
            && self.selections.fetch_add(1, Ordering::SeqCst) < self.awaited.held()
        {
            self.hold();
        }
        Kernel::new().run(alloc, op, args, steps)
    }
}

/// Scripts without a table in common.
const APART: &[NamedText<'static>] = &[
    (
        "a.sql",
        "CREATE TABLE t (a INT); INSERT INTO t VALUES (3); SELECT a FROM t WHERE a BETWEEN 2 AND 3;",
    ),
    (
        "b.sql",
        "CREATE TABLE u (b INT); INSERT INTO u VALUES (3); SELECT b FROM u WHERE b BETWEEN 2 AND 3;",
    ),
];

/// A query with two independent selections.
const TOGETHER: &[NamedText<'static>] = &[(
    "a.sql",
    "CREATE TABLE t (a INT); INSERT INTO t VALUES (3); CREATE TABLE u (b INT); INSERT INTO u VALUES (4); \
     SELECT a, b FROM t, u WHERE t.a < 5 AND u.b < 5;",
)];

/// A query with three independent selections.
const THREE_TOGETHER: &[NamedText<'static>] = &[(
    "a.sql",
    "CREATE TABLE t (a INT); INSERT INTO t VALUES (3); CREATE TABLE u (b INT); INSERT INTO u VALUES (4); \
     CREATE TABLE v (c INT); INSERT INTO v VALUES (2); \
     SELECT a, b, c FROM t, u, v WHERE a < 5 AND b < 5 AND c < 5;",
)];

/// What a case shows, what its selections await, its words, and its scripts.
type Case = (
    &'static str,
    Awaited,
    &'static str,
    &'static [NamedText<'static>],
);

const CASES: [Case; 5] = [
    (
        "a selection starts while another session's is held",
        Awaited::Selections(2),
        "run --workers 1 a.sql b.sql",
        APART,
    ),
    (
        "the same with the default number of workers",
        Awaited::Selections(2),
        "run a.sql b.sql",
        APART,
    ),
    (
        "a selection starts while the other one of its query is held",
        Awaited::Selections(2),
        "run --workers 2 a.sql",
        TOGETHER,
    ),
    (
        "a selection starts while the two others of its query are held",
        Awaited::Selections(3),
        "run --workers 3 a.sql",
        THREE_TOGETHER,
    ),
    (
        "a mirror starts while the first selection of its query is held",
        Awaited::Mirror,
        "run --workers 2 a.sql",
        TOGETHER,
    ),
];

/// The status of a run, and how many of its selections saw what they awaited.
fn run_held<R: Threads + Wait + Sync>(
    rt: &R,
    alloc: Global,
    awaited: Awaited,
    words: &str,
    scripts: &[NamedText<'_>],
) -> Result<(u8, u64), Memory> {
    let kernel = Holding::new(awaited);
    let done = run_by(rt, alloc, words, scripts, &kernel)?;
    Ok((done.status, kernel.met.load(Ordering::SeqCst)))
}

#[test]
fn work_starts_while_other_work_is_held(rt: HostRuntime) -> Result<(), Fail> {
    let alloc = rt.alloc();
    for (name, awaited, words, scripts) in CASES {
        let held = run_held(&rt, alloc, awaited, words, scripts)?;
        assert_eq!(rt; held, (0, awaited.held()), "{name}");
    }
    Ok(())
}
