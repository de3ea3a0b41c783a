//! Each operator of a plan is run once, by a session or by workers, and what the pool has is not run
//! again. A run for which there is one call too few ends without output.
use super::THREE;
use crate::kernels::{NamedText, run_by};
use bat_core::{Obj, Operate};
use bat_kernel::Kernel;
use cell_core::{Memory, Op, RunError, Steps};
use std::alloc::Global;
use std::sync::Wait;
use std::sync::atomic::{AtomicU64, Ordering};
use std::sync::ledger::Ledger;
use std::test::Fail;
use std::thread::Threads;

/// The kernel, which counts the calls of one operator or of all, and has memory for this many of
/// them.
#[derive(Drop)]
struct Counting {
    operator: Option<Op>,
    calls: AtomicU64,
    most: u64,
}

impl Counting {
    fn new(operator: Option<Op>, most: u64) -> Counting {
        Counting {
            operator,
            calls: AtomicU64::new(0),
            most,
        }
    }

    /// Whether calls of this operator are counted.
    fn counts(&self, op: Op) -> bool {
        match self.operator {
            Some(operator) => operator == op,
            None => true,
        }
    }
}

impl Operate for Counting {
    fn run<L: Ledger>(
        &self,
        alloc: Global,
        op: Op,
        args: &[Obj],
        steps: &mut Steps<L>,
    ) -> Result<Obj, RunError> {
        if self.counts(op) && self.most <= self.calls.fetch_add(1, Ordering::SeqCst) {
            let _ = self.calls.fetch_sub(1, Ordering::SeqCst);
            return Err(RunError::Memory);
        }
        Kernel::new().run(alloc, op, args, steps)
    }
}

/// The query of `THREE` once more.
const ASKED_AGAIN: &str = " SELECT a FROM t WHERE a BETWEEN 2 AND 3;";

/// The script of three rows, and its query once more.
const ASKED_TWICE: &str = "CREATE TABLE t (a INT); INSERT INTO t VALUES (3), (1), (2); \
    SELECT a FROM t WHERE a BETWEEN 2 AND 3; SELECT a FROM t WHERE a BETWEEN 2 AND 3;";

/// Its output.
const ASKED_TWICE_SERVED: &str =
    "session 1 a.sql\n1 ok\n2 ok 3\n3 rows 2\n2\n3\n4 rows 2\n2\n3\nhistory 2\n\
    1 1 1 CREATE TABLE t (a INT);\n2 1 2 INSERT INTO t VALUES (3), (1), (2);\npool\nentries 6\n\
    bytes 512\npeak 512\nlooks 12\nexact 6\nwithin 0\nacross 0\nmiss 6\ntaken 6\nthere 0\n\
    stale 0\norphan 0\nnocredit 0\nnoroom 0\nevicted 0\ndropped 0\ncarried 0\nwork 27\n\
    events 24\n";

/// The output for the script of three rows, and its query by another session.
const ONE_AFTER_THE_OTHER_SERVED: &str =
    "session 1 a.sql\n1 ok\n2 ok 3\n3 rows 2\n2\n3\nsession 2 b.sql\n1 rows 2\n2\n3\nhistory 2\n\
    1 1 1 CREATE TABLE t (a INT);\n2 1 2 INSERT INTO t VALUES (3), (1), (2);\npool\nentries 6\n\
    bytes 512\npeak 512\nlooks 12\nexact 6\nwithin 0\nacross 0\nmiss 6\ntaken 6\nthere 0\n\
    stale 0\norphan 0\nnocredit 0\nnoroom 0\nevicted 0\ndropped 0\ncarried 0\nwork 27\n\
    events 24\n";

/// A query of two independent selections, asked twice.
const TWO_SELECTIONS: &str =
    "CREATE TABLE t (a INT, b INT); INSERT INTO t VALUES (3, 1), (1, 2), (2, 5); \
    SELECT a FROM t WHERE a BETWEEN 2 AND 3 AND b < 4; \
    SELECT a FROM t WHERE a BETWEEN 2 AND 3 AND b < 4;";

/// Its output.
const TWO_SELECTIONS_SERVED: &str =
    "session 1 a.sql\n1 ok\n2 ok 3\n3 rows 1\n3\n4 rows 1\n3\nhistory 2\n\
    1 1 1 CREATE TABLE t (a INT, b INT);\n2 1 2 INSERT INTO t VALUES (3, 1), (1, 2), (2, 5);\n\
    pool\nentries 9\nbytes 688\npeak 688\nlooks 18\nexact 9\nwithin 0\nacross 0\nmiss 9\n\
    taken 9\nthere 0\nstale 0\norphan 0\nnocredit 0\nnoroom 0\nevicted 0\ndropped 0\ncarried 0\n\
    work 34\nevents 33\n";

/// Changes that run a plan.
const DELETE_AND_UPDATE: &str = "CREATE TABLE t (a INT); INSERT INTO t VALUES (3), (1), (2); \
    DELETE FROM t WHERE a BETWEEN 2 AND 3; UPDATE t SET a = a + 1;";

/// Its output.
const DELETE_AND_UPDATE_SERVED: &str =
    "session 1 a.sql\n1 ok\n2 ok 3\n3 ok 2\n4 ok 1\nhistory 4\n1 1 1 CREATE TABLE t (a INT);\n\
    2 1 2 INSERT INTO t VALUES (3), (1), (2);\n3 1 3 DELETE FROM t WHERE a BETWEEN 2 AND 3;\n\
    4 1 4 UPDATE t SET a = a + 1;\npool\nentries 0\nbytes 0\npeak 0\nlooks 0\nexact 0\n\
    within 0\nacross 0\nmiss 0\ntaken 0\nthere 0\nstale 0\norphan 0\nnocredit 0\nnoroom 0\n\
    evicted 0\ndropped 0\ncarried 0\nwork 32\nevents 4\n";

/// The words of a run, its files, its output, its work, and the calls of each operator; none stands
/// for all operators.
type Counted = (
    &'static str,
    &'static [NamedText<'static>],
    &'static str,
    u128,
    &'static [(Option<Op>, u64)],
);

/// The calls for the query over three rows. A bind is no call of the kernel.
const ONE_SELECTION_CALLS: &[(Option<Op>, u64)] = &[
    (None, 5),
    (Some(Op::Select), 1),
    (Some(Op::Mirror), 1),
    (Some(Op::MarkT), 1),
    (Some(Op::Reverse), 1),
    (Some(Op::Join), 1),
];

/// The calls for the query of two selections.
const TWO_SELECTIONS_CALLS: &[(Option<Op>, u64)] = &[
    (None, 7),
    (Some(Op::Select), 2),
    (Some(Op::Mirror), 1),
    (Some(Op::Semijoin), 1),
    (Some(Op::MarkT), 1),
    (Some(Op::Reverse), 1),
    (Some(Op::Join), 1),
];

/// The calls for the changes. DELETE: a bind of 3 pairs, then select, mirror, markT and reverse, with
/// 3 + 5 + 4 + 4 + 4 of work. UPDATE: a bind of 1 pair, then mirror, markT, reverse, join and +, with
/// 1 + 2 + 2 + 2 + 3 + 2.
const CHANGES_CALLS: &[(Option<Op>, u64)] = &[
    (None, 9),
    (Some(Op::Select), 1),
    (Some(Op::Mirror), 2),
    (Some(Op::MarkT), 2),
    (Some(Op::Reverse), 2),
    (Some(Op::Join), 1),
    (Some(Op::Plus), 1),
];

const RUNS: [Counted; 6] = [
    (
        "run --workers 1 a.sql",
        &[("a.sql", ASKED_TWICE)],
        ASKED_TWICE_SERVED,
        27,
        ONE_SELECTION_CALLS,
    ),
    (
        "run --workers 2 a.sql",
        &[("a.sql", ASKED_TWICE)],
        ASKED_TWICE_SERVED,
        27,
        ONE_SELECTION_CALLS,
    ),
    (
        "replay order a.sql b.sql",
        &[("order", ""), ("a.sql", THREE), ("b.sql", ASKED_AGAIN)],
        ONE_AFTER_THE_OTHER_SERVED,
        27,
        ONE_SELECTION_CALLS,
    ),
    (
        "run --workers 2 a.sql",
        &[("a.sql", TWO_SELECTIONS)],
        TWO_SELECTIONS_SERVED,
        34,
        TWO_SELECTIONS_CALLS,
    ),
    (
        "run --workers 4 a.sql",
        &[("a.sql", TWO_SELECTIONS)],
        TWO_SELECTIONS_SERVED,
        34,
        TWO_SELECTIONS_CALLS,
    ),
    (
        "run --workers 2 a.sql",
        &[("a.sql", DELETE_AND_UPDATE)],
        DELETE_AND_UPDATE_SERVED,
        32,
        CHANGES_CALLS,
    ),
];

/// Whether the run is done with this kernel: it has its output and its work.
fn is_done<R: Threads + Wait + Sync>(
    rt: &R,
    alloc: Global,
    run: Counted,
    kernel: &Counting,
) -> Result<bool, Memory> {
    let (words, files, output, work, _) = run;
    let done = run_by(rt, alloc, words, files, kernel)?;
    Ok(done.status == 0 && done.work == work && done.text.as_slice() == output.as_bytes())
}

/// Whether memory ends the run with this kernel, without output.
fn is_given_up<R: Threads + Wait + Sync>(
    rt: &R,
    alloc: Global,
    run: Counted,
    kernel: &Counting,
) -> Result<bool, Memory> {
    let (words, files, _, _, _) = run;
    let done = run_by(rt, alloc, words, files, kernel)?;
    Ok(done.status == 5 && done.work == 0 && done.text.is_empty())
}

/// Whether the run makes exactly so many calls of an operator: all that it is granted with as many,
/// and with one fewer it is given up.
fn makes<R: Threads + Wait + Sync>(
    rt: &R,
    alloc: Global,
    run: Counted,
    operator: Option<Op>,
    calls: u64,
) -> Result<bool, Memory> {
    let enough = Counting::new(operator, calls);
    let few = Counting::new(operator, calls.saturating_sub(1));
    let as_wanted = is_done(rt, alloc, run, &enough)? && is_given_up(rt, alloc, run, &few)?;
    Ok(
        as_wanted
            && enough.calls.load(Ordering::SeqCst) == calls
            && few.calls.load(Ordering::SeqCst) == few.most,
    )
}

/// Whether the run makes all its calls of each operator.
fn makes_all<R: Threads + Wait + Sync>(
    rt: &R,
    alloc: Global,
    run: Counted,
) -> Result<bool, Memory> {
    let (_, _, _, _, counts) = run;
    for (operator, calls) in counts {
        if !makes(rt, alloc, run, *operator, *calls)? {
            return Ok(false);
        }
    }
    Ok(true)
}

#[test]
fn each_operator_is_called_once(rt: HostRuntime) -> Result<(), Fail> {
    let alloc = rt.alloc();
    for run in RUNS {
        assert!(rt; makes_all(&rt, alloc, run)?, "{}: {}", run.0, run.2);
    }
    Ok(())
}
