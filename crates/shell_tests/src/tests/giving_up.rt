//! A session that meets a kernel without memory ends, and the one beside it runs to its end.
use crate::kernels::{NamedText, await_count, run_by};
use bat_core::{Obj, Operate};
use bat_kernel::Kernel;
use cell_core::{Memory, Op, RunError, Steps};
use std::alloc::Global;
use std::sync::Wait;
use std::sync::atomic::{AtomicU64, Ordering};
use std::sync::ledger::Ledger;
use std::test::Fail;
use std::thread::Threads;

/// The kernel, which gives up at a sum. It holds selections until it has, and counts the calls that
/// it serves after that.
#[derive(Drop)]
struct GivingUp {
    given_up: AtomicU64,
    served: AtomicU64,
}

impl GivingUp {
    fn new() -> GivingUp {
        GivingUp {
            given_up: AtomicU64::new(0),
            served: AtomicU64::new(0),
        }
    }

    /// Whether it has given up.
    fn has_given_up(&self) -> bool {
        self.given_up.load(Ordering::SeqCst) > 0
    }
}

impl Operate for GivingUp {
    fn run<L: Ledger>(
        &self,
        alloc: Global,
        op: Op,
        args: &[Obj],
        steps: &mut Steps<L>,
    ) -> Result<Obj, RunError> {
        if matches!(op, Op::Sum) {
            self.given_up.fetch_add(1, Ordering::SeqCst);
            return Err(RunError::Memory);
        }
        if matches!(op, Op::Select) {
            await_count(&self.given_up, 1);
        }
        if self.has_given_up() {
            self.served.fetch_add(1, Ordering::SeqCst);
        }
        Kernel::new().run(alloc, op, args, steps)
    }
}

/// Two sessions without a table in common. The first one meets the kernel that gives up. The other
/// has a query, a change and a query after that: select, mirror, markT, reverse and join; mirror,
/// markT, reverse, join and +; mirror, markT, reverse and count.
const SESSIONS: &[NamedText<'static>] = &[
    (
        "a.sql",
        "CREATE TABLE t (a INT); INSERT INTO t VALUES (3); SELECT SUM(a) FROM t;",
    ),
    (
        "b.sql",
        "CREATE TABLE u (b INT); INSERT INTO u VALUES (3); SELECT b FROM u WHERE b BETWEEN 2 AND 3; \
         UPDATE u SET b = b + 1; SELECT COUNT(*) FROM u;",
    ),
];

/// The status of a run, the length of its output, and the calls that the kernel served after it had
/// given up.
fn run_lacking<R: Threads + Wait + Sync>(
    rt: &R,
    alloc: Global,
    words: &str,
) -> Result<(u8, usize, u64), Memory> {
    let kernel = GivingUp::new();
    let done = run_by(rt, alloc, words, SESSIONS, &kernel)?;
    Ok((
        done.status,
        done.text.len(),
        kernel.served.load(Ordering::SeqCst),
    ))
}

#[test]
fn the_other_session_runs_to_its_end(rt: HostRuntime) -> Result<(), Fail> {
    let alloc = rt.alloc();
    for words in ["run --workers 1 a.sql b.sql", "run a.sql b.sql"] {
        let lacking = run_lacking(&rt, alloc, words)?;
        assert_eq!(rt; lacking, (5, 0, 14), "{words}");
    }
    Ok(())
}
