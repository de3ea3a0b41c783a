//! Sessions over a pool that keeps nothing, and over one with room for one small result: replies and
//! history are compared whole, and are those of a pool with room for everything.
use super::played::run_line;
use cell_core::Memory;
use std::alloc::Global;
use std::sync::Wait;
use std::test::Fail;
use std::thread::Threads;

/// A worked session.
#[derive(Clone, Copy)]
struct Case {
    about: &'static str,
    /// The options but for the budget.
    options: &'static str,
    /// The schedule.
    order: &'static str,
    first: &'static str,
    /// The second script, or nothing.
    second: &'static str,
    /// The output up to the pool's section.
    replies: &'static str,
}

const CASES: &[Case] = &[
    Case {
        about: "spans < 5 and > 5 do not cover 4 to 6",
        options: "",
        order: "",
        first: "CREATE TABLE t (a INT); INSERT INTO t VALUES (4), (5), (6); SELECT a FROM t WHERE a < 5; SELECT a FROM t WHERE a > 5; SELECT a FROM t WHERE a BETWEEN 4 AND 6;",
        second: "",
        replies: "session 1 a.sql\n1 ok\n2 ok 3\n3 rows 1\n4\n4 rows 1\n6\n5 rows 3\n4\n5\n6\nhistory 2\n1 1 1 CREATE TABLE t (a INT);\n2 1 2 INSERT INTO t VALUES (4), (5), (6);\n",
    },
    Case {
        about: "a selection merged from two pieces",
        options: "",
        order: "",
        first: "CREATE TABLE t (a INT); INSERT INTO t VALUES (5), (1), (8), (5), (9), (3); SELECT a FROM t WHERE a BETWEEN 1 AND 6; SELECT a FROM t WHERE a BETWEEN 4 AND 9; SELECT a FROM t WHERE a BETWEEN 2 AND 8;",
        second: "",
        replies: "session 1 a.sql\n1 ok\n2 ok 6\n3 rows 4\n1\n3\n5\n5\n4 rows 4\n5\n5\n8\n9\n5 rows 4\n3\n5\n5\n8\nhistory 2\n1 1 1 CREATE TABLE t (a INT);\n2 1 2 INSERT INTO t VALUES (5), (1), (8), (5), (9), (3);\n",
    },
    Case {
        about: "a selection within another",
        options: "",
        order: "",
        first: "CREATE TABLE t (a INT); INSERT INTO t VALUES (1), (4), (6); SELECT a FROM t WHERE a < 5; SELECT a FROM t WHERE a < 3;",
        second: "",
        replies: "session 1 a.sql\n1 ok\n2 ok 3\n3 rows 2\n1\n4\n4 rows 1\n1\nhistory 2\n1 1 1 CREATE TABLE t (a INT);\n2 1 2 INSERT INTO t VALUES (1), (4), (6);\n",
    },
    Case {
        about: "a second session finds every result",
        options: "",
        order: "",
        first: "CREATE TABLE t (a INT); INSERT INTO t VALUES (3), (1), (2); SELECT a FROM t WHERE a BETWEEN 2 AND 3;",
        second: " SELECT a FROM t WHERE a BETWEEN 2 AND 3;",
        replies: "session 1 a.sql\n1 ok\n2 ok 3\n3 rows 2\n2\n3\nsession 2 b.sql\n1 rows 2\n2\n3\nhistory 2\n1 1 1 CREATE TABLE t (a INT);\n2 1 2 INSERT INTO t VALUES (3), (1), (2);\n",
    },
    Case {
        about: "an admission finds its key there",
        options: "",
        order: "1\n1\n1\n1\n2\n2\n",
        first: "CREATE TABLE t (a INT); INSERT INTO t VALUES (3), (1), (2); SELECT a FROM t WHERE a BETWEEN 2 AND 3;",
        second: " SELECT a FROM t WHERE a BETWEEN 2 AND 3;",
        replies: "session 1 a.sql\n1 ok\n2 ok 3\n3 rows 2\n2\n3\nsession 2 b.sql\n1 rows 2\n2\n3\nhistory 2\n1 1 1 CREATE TABLE t (a INT);\n2 1 2 INSERT INTO t VALUES (3), (1), (2);\n",
    },
    Case {
        about: "a carried bind has a fresh id, so the running query finds orphans",
        options: "",
        order: "1\n1\n1\n1\n1\n2\n",
        first: "CREATE TABLE t (a INT); INSERT INTO t VALUES (1), (2); SELECT a FROM t WHERE a < 5;",
        second: "INSERT INTO t VALUES (3);",
        replies: "session 1 a.sql\n1 ok\n2 ok 2\n3 rows 2\n1\n2\nsession 2 b.sql\n1 ok 1\nhistory 3\n1 1 1 CREATE TABLE t (a INT);\n2 1 2 INSERT INTO t VALUES (1), (2);\n3 2 1 INSERT INTO t VALUES (3);\n",
    },
    Case {
        about: "a bind of an old version is stale",
        options: "",
        order: "1\n1\n1\n2\n",
        first: "CREATE TABLE t (a INT); INSERT INTO t VALUES (1), (2); SELECT a FROM t WHERE a < 5;",
        second: "INSERT INTO t VALUES (3);",
        replies: "session 1 a.sql\n1 ok\n2 ok 2\n3 rows 2\n1\n2\nsession 2 b.sql\n1 ok 1\nhistory 3\n1 1 1 CREATE TABLE t (a INT);\n2 1 2 INSERT INTO t VALUES (1), (2);\n3 2 1 INSERT INTO t VALUES (3);\n",
    },
    Case {
        about: "DROP and CREATE give the table a new version",
        options: "",
        order: "",
        first: "CREATE TABLE t (a INT); INSERT INTO t VALUES (1); SELECT a FROM t WHERE a < 5; DROP TABLE t; CREATE TABLE t (a INT); INSERT INTO t VALUES (2); SELECT a FROM t WHERE a < 5;",
        second: "",
        replies: "session 1 a.sql\n1 ok\n2 ok 1\n3 rows 1\n1\n4 ok\n5 ok\n6 ok 1\n7 rows 1\n2\nhistory 5\n1 1 1 CREATE TABLE t (a INT);\n2 1 2 INSERT INTO t VALUES (1);\n3 1 4 DROP TABLE t;\n4 1 5 CREATE TABLE t (a INT);\n5 1 6 INSERT INTO t VALUES (2);\n",
    },
    Case {
        about: "INSERT carries the six entries",
        options: "",
        order: "",
        first: "CREATE TABLE t (a INT); INSERT INTO t VALUES (3), (1), (2); SELECT a FROM t WHERE a BETWEEN 2 AND 3; INSERT INTO t VALUES (2); SELECT a FROM t WHERE a BETWEEN 2 AND 3;",
        second: "",
        replies: "session 1 a.sql\n1 ok\n2 ok 3\n3 rows 2\n2\n3\n4 ok 1\n5 rows 3\n2\n2\n3\nhistory 3\n1 1 1 CREATE TABLE t (a INT);\n2 1 2 INSERT INTO t VALUES (3), (1), (2);\n3 1 4 INSERT INTO t VALUES (2);\n",
    },
    Case {
        about: "eviction by least recent use",
        options: "--evict lru",
        order: "",
        first: "CREATE TABLE u (a INT); CREATE TABLE v (a INT); CREATE TABLE w (a INT); INSERT INTO u VALUES (1), (2); INSERT INTO v VALUES (1); INSERT INTO w VALUES (1); SELECT COUNT(*) FROM u; SELECT COUNT(*) FROM v; SELECT COUNT(*) FROM w; SELECT COUNT(*) FROM u;",
        second: "",
        replies: "session 1 a.sql\n1 ok\n2 ok\n3 ok\n4 ok 2\n5 ok 1\n6 ok 1\n7 rows 1\n2\n8 rows 1\n1\n9 rows 1\n1\n10 rows 1\n2\nhistory 6\n1 1 1 CREATE TABLE u (a INT);\n2 1 2 CREATE TABLE v (a INT);\n3 1 3 CREATE TABLE w (a INT);\n4 1 4 INSERT INTO u VALUES (1), (2);\n5 1 5 INSERT INTO v VALUES (1);\n6 1 6 INSERT INTO w VALUES (1);\n",
    },
    Case {
        about: "eviction by benefit",
        options: "--evict benefit",
        order: "",
        first: "CREATE TABLE u (a INT); CREATE TABLE v (a INT); CREATE TABLE w (a INT); INSERT INTO u VALUES (1), (2); INSERT INTO v VALUES (1); INSERT INTO w VALUES (1); SELECT COUNT(*) FROM u; SELECT COUNT(*) FROM v; SELECT COUNT(*) FROM w; SELECT COUNT(*) FROM u;",
        second: "",
        replies: "session 1 a.sql\n1 ok\n2 ok\n3 ok\n4 ok 2\n5 ok 1\n6 ok 1\n7 rows 1\n2\n8 rows 1\n1\n9 rows 1\n1\n10 rows 1\n2\nhistory 6\n1 1 1 CREATE TABLE u (a INT);\n2 1 2 CREATE TABLE v (a INT);\n3 1 3 CREATE TABLE w (a INT);\n4 1 4 INSERT INTO u VALUES (1), (2);\n5 1 5 INSERT INTO v VALUES (1);\n6 1 6 INSERT INTO w VALUES (1);\n",
    },
    Case {
        about: "one credit per shape",
        options: "--admit credit --credits 1",
        order: "",
        first: "CREATE TABLE t (a INT); INSERT INTO t VALUES (4), (6); SELECT a FROM t WHERE a < 5; SELECT a FROM t WHERE a > 5; SELECT a FROM t WHERE a < 5; SELECT a FROM t WHERE a > 5;",
        second: "",
        replies: "session 1 a.sql\n1 ok\n2 ok 2\n3 rows 1\n4\n4 rows 1\n6\n5 rows 1\n4\n6 rows 1\n6\nhistory 2\n1 1 1 CREATE TABLE t (a INT);\n2 1 2 INSERT INTO t VALUES (4), (6);\n",
    },
];

/// Budgets, and how the pool's section begins.
const BUDGETS: [(&str, &str); 2] = [
    ("0", "pool\nentries 0\nbytes 0\npeak 0\n"),
    ("64", "pool\nentries "),
];

/// The status and the output of a replay of a case with a budget.
fn replayed<R: Threads + Wait + Sync>(
    rt: &R,
    alloc: Global,
    budget: &str,
    case: &Case,
) -> Result<(u8, Vec<u8>), Memory> {
    let second = if case.second.is_empty() { "" } else { "b.sql" };
    let options = case.options;
    let line = format!(in alloc; "replay --budget {budget} {options} order a.sql {second}")?;
    let files = [
        ("order", case.order.as_bytes()),
        ("a.sql", case.first.as_bytes()),
        ("b.sql", case.second.as_bytes()),
    ];
    let (status, _, text) = run_line(rt, alloc, line.as_str(), &files)?;
    Ok((status, text))
}

/// Whether a case with a budget ends with status 0, and its replies are those with room for everything.
fn is_replied<R: Threads + Wait + Sync>(
    rt: &R,
    alloc: Global,
    budget: &str,
    pool: &str,
    case: &Case,
) -> Result<bool, Memory> {
    let (status, text) = replayed(rt, alloc, budget, case)?;
    let replies = case.replies;
    let want = format!(in alloc; "{replies}{pool}")?;
    Ok(status == 0 && text.as_slice().starts_with(want.as_bytes()))
}

#[test]
fn small_pools_answer_alike(rt: HostRuntime) -> Result<(), Fail> {
    let alloc = rt.alloc();
    for case in CASES {
        for (budget, pool) in BUDGETS {
            let replied = is_replied(&rt, alloc, budget, pool, case)?;
            assert!(rt; replied, "{} with {budget}", case.about);
        }
    }
    Ok(())
}
