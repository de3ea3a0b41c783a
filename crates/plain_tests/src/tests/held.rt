//! A query that is held while another session drops its table and makes another one of that name. Its
//! reply is that of the table with which it began, and what it keeps in the pool serves no later query.
use super::meetings::{is_of_its_log, line_of, scripts_of};
use super::plainly::Round;
use bat_core::{Obj, Operate};
use bat_kernel::Kernel;
use cell_core::{Memory, Op, RunError, Steps};
use shell_tests::{await_count, run_by};
use std::alloc::Global;
use std::sync::Wait;
use std::sync::atomic::{AtomicU64, Ordering};
use std::sync::ledger::Ledger;
use std::test::Fail;
use std::thread::Threads;

/// The kernel. It holds the first selection until a product is computed, and sums until a selection
/// has started.
#[derive(Drop)]
struct Holding {
    selections: AtomicU64,
    products: AtomicU64,
    /// How many waits saw what they awaited.
    met: AtomicU64,
}

impl Holding {
    fn new() -> Holding {
        Holding {
            selections: AtomicU64::new(0),
            products: AtomicU64::new(0),
            met: AtomicU64::new(0),
        }
    }

    /// Waits until a count isn't 0.
    fn hold(&self, awaited: &AtomicU64) {
        if await_count(awaited, 1) {
            self.met.fetch_add(1, Ordering::SeqCst);
        }
    }
}

impl Operate for Holding {
    fn run<L: Ledger>(
        &self,
        alloc: Global,
        op: Op,
        args: &[Obj],
        steps: &mut Steps<L>,
    ) -> Result<Obj, RunError> {
        match op {
            Op::Plus => self.hold(&self.selections),
            Op::Times => {
                self.products.fetch_add(1, Ordering::SeqCst);
            }
            Op::Select => {
                if self.selections.fetch_add(1, Ordering::SeqCst) == 0 {
                    self.hold(&self.products);
                }
            }
            _ => {}
        }
        Kernel::new().run(alloc, op, args, steps)
    }
}

/// The first session's query is held until the second session has changed the table. The second
/// session waits with its sum until that query has begun.
const SESSIONS: &[Round] = &[
    &[
        "CREATE TABLE t (a INT)",
        "INSERT INTO t VALUES (3), (1), (2)",
        "SELECT a FROM t WHERE a BETWEEN 2 AND 3",
        "SELECT a FROM t WHERE a BETWEEN 2 AND 3",
        "SELECT a FROM t WHERE a > 2",
    ],
    &[
        "CREATE TABLE u (b INT)",
        "INSERT INTO u VALUES (1)",
        "SELECT b + 1 FROM u",
        "DROP TABLE t",
        "CREATE TABLE t (c INT, a INT)",
        "INSERT INTO t VALUES (2, 9)",
        "SELECT b * 2 FROM u",
    ],
];

/// The replies.
const WANTED: &str = "session 1 01.sql\n1 ok\n2 ok 3\n3 rows 2\n2\n3\n4 rows 0\n5 rows 1\n9\n\
    session 2 02.sql\n1 ok\n2 ok 1\n3 rows 1\n2\n4 ok\n5 ok\n6 ok 1\n7 rows 1\n2\nhistory 7\n";

/// What the run printed, and how many waits saw what they awaited.
fn printed<R: Threads + Wait + Sync>(
    rt: &R,
    alloc: Global,
    options: &str,
) -> Result<(String, u64), Memory> {
    let kernel = Holding::new();
    let line = line_of(alloc, options, SESSIONS)?;
    let scripts = scripts_of(alloc, SESSIONS, 1)?;
    let mut files = Vec::new(alloc);
    for (name, script) in &scripts {
        files.push((*name, script.as_str()))?;
    }
    let run = run_by(rt, alloc, line.as_str(), files.as_slice(), &kernel)?;
    let text = String::from_utf8(run.text).map_err(|_| Memory)?;
    Ok((text, kernel.met.load(Ordering::SeqCst)))
}

#[test]
fn a_held_query_keeps_the_table_that_went(rt: HostRuntime) -> Result<(), Fail> {
    let alloc = rt.alloc();
    for options in ["--workers 1", "--workers 4", "--budget 0"] {
        let (text, met) = printed(&rt, alloc, options)?;
        assert_eq!(rt; met, 2, "{options}");
        assert!(rt; text.as_str().starts_with(WANTED), "{options}");
        assert!(rt; is_of_its_log(alloc, SESSIONS, text.as_str())?, "{options}");
    }
    Ok(())
}
