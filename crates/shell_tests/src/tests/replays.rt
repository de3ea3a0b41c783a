//! Replays, each compared whole: answers, changes, the pool's section, and the log where it is asked
//! for. The outputs are those of an independent implementation (`tools/oracle`).
use super::THREE;
use crate::kernels::{NamedText, run_by};
use bat_kernel::Kernel;
use cell_core::Memory;
use std::alloc::Global;
use std::test::Fail;

/// What a case shows, its words, its files, the output up to the pool's section, the numbers of that
/// section, and the log.
type Replay = (
    &'static str,
    &'static str,
    &'static [NamedText<'static>],
    &'static str,
    &'static [u64],
    &'static str,
);

/// The lines of the pool's section.
const LINES: [&str; 19] = [
    "entries", "bytes", "peak", "looks", "exact", "within", "across", "miss", "taken", "there",
    "stale", "orphan", "nocredit", "noroom", "evicted", "dropped", "carried", "work", "events",
];

/// Counts of three tables, and of the first again.
const COUNTS: &str =
    "CREATE TABLE u (a INT); CREATE TABLE v (a INT); CREATE TABLE w (a INT); INSERT INTO u VALUES \
    (1), (2); INSERT INTO v VALUES (1); INSERT INTO w VALUES (1); SELECT COUNT(*) FROM u; SELECT \
    COUNT(*) FROM v; SELECT COUNT(*) FROM w; SELECT COUNT(*) FROM u;";

/// Three tables, and a count of the first.
const FIRST_COUNT: &str =
    "CREATE TABLE u (a INT); CREATE TABLE v (a INT); CREATE TABLE w (a INT); INSERT INTO u VALUES \
    (1), (2); INSERT INTO v VALUES (1); INSERT INTO w VALUES (1); SELECT COUNT(*) FROM u;";

const REPLAYS: [Replay; 21] = [
    (
        "EXPLAIN shows a plan, and keeps nothing",
        "replay order a.sql",
        &[
            ("order", ""),
            (
                "a.sql",
                "CREATE TABLE t (a INT); INSERT INTO t VALUES (3), (1), (2); \
                EXPLAIN SELECT a FROM t WHERE a BETWEEN 2 AND 3;",
            ),
        ],
        "session 1 a.sql\n1 ok\n2 ok 3\n3 plan 9\nfunction user.main():void;\n    \
        X_1 := sql.bind(\"t\", \"a\", \"int\");\n    \
        X_2 := algebra.select(X_1, 2, 3, true, true);\n    X_3 := algebra.mirror(X_2);\n    \
        X_4 := algebra.markT(X_3, 0@0);\n    X_5 := algebra.reverse(X_4);\n    \
        X_6 := algebra.join(X_5, X_1);\n    sql.output(X_6);\nend user.main;\nhistory 2\n\
        1 1 1 CREATE TABLE t (a INT);\n2 1 2 INSERT INTO t VALUES (3), (1), (2);\n",
        &[0, 0, 0, 0, 0, 0, 0, 0, 0, 0, 0, 0, 0, 0, 0, 0, 0, 0, 4],
        "",
    ),
    (
        "the log of a query that finds nothing",
        "replay --events order a.sql",
        &[("order", ""), ("a.sql", THREE)],
        "session 1 a.sql\n1 ok\n2 ok 3\n3 rows 2\n2\n3\nhistory 2\n1 1 1 CREATE TABLE t (a INT);\n\
        2 1 2 INSERT INTO t VALUES (3), (1), (2);\n",
        &[
            6, 512, 512, 6, 0, 0, 0, 6, 6, 0, 0, 0, 0, 0, 0, 0, 0, 27, 16,
        ],
        "log 16\n1 1 1 write 0 0\n2 1 2 write 0 3\n3 1 3 begin 0\n4 1 3 look 1 miss\n\
        5 1 3 admit 1 taken 1 64 0\n6 1 3 look 2 miss\n7 1 3 admit 2 taken 2 96 0\n\
        8 1 3 look 3 miss\n9 1 3 admit 3 taken 3 96 0\n10 1 3 look 4 miss\n\
        11 1 3 admit 4 taken 4 96 0\n12 1 3 look 5 miss\n13 1 3 admit 5 taken 5 80 0\n\
        14 1 3 look 6 miss\n15 1 3 admit 6 taken 6 80 0\n16 1 3 end 0\n",
    ),
    (
        "changes of other columns leave results",
        "replay order a.sql",
        &[
            ("order", ""),
            (
                "a.sql",
                "CREATE TABLE t (a INT, b INT); INSERT INTO t VALUES (1, 10), (2, 20); \
                SELECT a FROM t WHERE a < 5; UPDATE t SET b = b + 1; SELECT a FROM t WHERE a < 5; \
                ALTER TABLE t ADD COLUMN c TEXT DEFAULT 'x' NOT NULL; SELECT a FROM t WHERE a < 5; \
                SELECT c, b FROM t WHERE a < 5;",
            ),
        ],
        "session 1 a.sql\n1 ok\n2 ok 2\n3 rows 2\n1\n2\n4 ok 2\n5 rows 2\n1\n2\n6 ok\n7 rows 2\n1\n\
        2\n8 rows 2\nx,11\nx,21\nhistory 4\n1 1 1 CREATE TABLE t (a INT, b INT);\n\
        2 1 2 INSERT INTO t VALUES (1, 10), (2, 20);\n3 1 4 UPDATE t SET b = b + 1;\n\
        4 1 6 ALTER TABLE t ADD COLUMN c TEXT NOT NULL DEFAULT 'x';\n",
        &[
            10, 770, 770, 27, 17, 0, 0, 10, 10, 0, 0, 0, 0, 0, 0, 0, 0, 66, 49,
        ],
        "",
    ),
    (
        "two sessions compute one result",
        "replay order a.sql b.sql",
        &[
            ("order", "1\n1\n1\n1\n2\n2\n"),
            ("a.sql", THREE),
            ("b.sql", " SELECT a FROM t WHERE a BETWEEN 2 AND 3;"),
        ],
        "session 1 a.sql\n1 ok\n2 ok 3\n3 rows 2\n2\n3\nsession 2 b.sql\n1 rows 2\n2\n3\nhistory 2\n\
        1 1 1 CREATE TABLE t (a INT);\n2 1 2 INSERT INTO t VALUES (3), (1), (2);\n",
        &[
            6, 512, 512, 12, 5, 0, 0, 7, 6, 1, 0, 0, 0, 0, 0, 0, 0, 30, 25,
        ],
        "",
    ),
    (
        "a bind comes back while its query is under way",
        "replay --events order a.sql b.sql",
        &[
            ("order", "1\n1\n1\n1\n1\n2\n"),
            (
                "a.sql",
                "CREATE TABLE t (a INT); INSERT INTO t VALUES (1), (2); SELECT a FROM t WHERE a < 5;",
            ),
            ("b.sql", "INSERT INTO t VALUES (3);"),
        ],
        "session 1 a.sql\n1 ok\n2 ok 2\n3 rows 2\n1\n2\nsession 2 b.sql\n1 ok 1\nhistory 3\n\
        1 1 1 CREATE TABLE t (a INT);\n2 1 2 INSERT INTO t VALUES (1), (2);\n\
        3 2 1 INSERT INTO t VALUES (3);\n",
        &[1, 64, 64, 6, 0, 0, 0, 6, 1, 0, 0, 5, 0, 0, 0, 0, 1, 24, 17],
        "log 17\n1 1 1 write 0 0\n2 1 2 write 0 2\n3 1 3 begin 0\n4 1 3 look 1 miss\n\
        5 1 3 admit 1 taken 1 64 0\n6 2 1 write 0 1\n7 1 3 look 2 miss\n8 1 3 admit 2 orphan 1\n\
        9 1 3 look 3 miss\n10 1 3 admit 3 orphan 0\n11 1 3 look 4 miss\n12 1 3 admit 4 orphan 0\n\
        13 1 3 look 5 miss\n14 1 3 admit 5 orphan 0\n15 1 3 look 6 miss\n16 1 3 admit 6 orphan 0\n\
        17 1 3 end 0\n",
    ),
    (
        "the bind of a query that began before a change is stale",
        "replay order a.sql b.sql",
        &[
            ("order", "1\n1\n1\n2\n"),
            (
                "a.sql",
                "CREATE TABLE t (a INT); INSERT INTO t VALUES (1), (2); SELECT a FROM t WHERE a < 5;",
            ),
            ("b.sql", "INSERT INTO t VALUES (3);"),
        ],
        "session 1 a.sql\n1 ok\n2 ok 2\n3 rows 2\n1\n2\nsession 2 b.sql\n1 ok 1\nhistory 3\n\
        1 1 1 CREATE TABLE t (a INT);\n2 1 2 INSERT INTO t VALUES (1), (2);\n\
        3 2 1 INSERT INTO t VALUES (3);\n",
        &[0, 0, 0, 6, 0, 0, 0, 6, 0, 0, 1, 5, 0, 0, 0, 0, 0, 24, 17],
        "",
    ),
    (
        "a table that is created again is another one",
        "replay order a.sql",
        &[
            ("order", ""),
            (
                "a.sql",
                "CREATE TABLE t (a INT); INSERT INTO t VALUES (1); SELECT a FROM t WHERE a < 5; \
                DROP TABLE t; CREATE TABLE t (a INT); INSERT INTO t VALUES (2); SELECT a FROM t WHERE a < 5;",
            ),
        ],
        "session 1 a.sql\n1 ok\n2 ok 1\n3 rows 1\n1\n4 ok\n5 ok\n6 ok 1\n7 rows 1\n2\nhistory 5\n\
        1 1 1 CREATE TABLE t (a INT);\n2 1 2 INSERT INTO t VALUES (1);\n3 1 4 DROP TABLE t;\n\
        4 1 5 CREATE TABLE t (a INT);\n5 1 6 INSERT INTO t VALUES (2);\n",
        &[
            6, 424, 424, 12, 0, 0, 0, 12, 12, 0, 0, 0, 0, 0, 0, 6, 0, 24, 33,
        ],
        "",
    ),
    (
        "all results come back with one more row",
        "replay order a.sql",
        &[
            ("order", ""),
            (
                "a.sql",
                "CREATE TABLE t (a INT); INSERT INTO t VALUES (3), (1), (2); \
                SELECT a FROM t WHERE a BETWEEN 2 AND 3; INSERT INTO t VALUES (2); \
                SELECT a FROM t WHERE a BETWEEN 2 AND 3;",
            ),
        ],
        "session 1 a.sql\n1 ok\n2 ok 3\n3 rows 2\n2\n3\n4 ok 1\n5 rows 3\n2\n2\n3\nhistory 3\n\
        1 1 1 CREATE TABLE t (a INT);\n2 1 2 INSERT INTO t VALUES (3), (1), (2);\n\
        3 1 4 INSERT INTO t VALUES (2);\n",
        &[
            6, 576, 576, 12, 6, 0, 0, 6, 6, 0, 0, 0, 0, 0, 0, 0, 6, 41, 25,
        ],
        "",
    ),
    (
        "two ranges cover a third",
        "replay order a.sql",
        &[
            ("order", ""),
            (
                "a.sql",
                "CREATE TABLE t (a INT); INSERT INTO t VALUES (5), (1), (8), (5), (9), (3); \
                SELECT a FROM t WHERE a BETWEEN 1 AND 6; SELECT a FROM t WHERE a BETWEEN 4 AND 9; \
                SELECT a FROM t WHERE a BETWEEN 2 AND 8;",
            ),
        ],
        "session 1 a.sql\n1 ok\n2 ok 6\n3 rows 4\n1\n3\n5\n5\n4 rows 4\n5\n5\n8\n9\n5 rows 4\n3\n5\n\
        5\n8\nhistory 2\n1 1 1 CREATE TABLE t (a INT);\n\
        2 1 2 INSERT INTO t VALUES (5), (1), (8), (5), (9), (3);\n",
        &[
            16, 1792, 1792, 18, 2, 0, 1, 15, 16, 0, 0, 0, 0, 0, 0, 0, 0, 156, 42,
        ],
        "",
    ),
    (
        "below and above a number do not cover it",
        "replay order a.sql",
        &[
            ("order", ""),
            (
                "a.sql",
                "CREATE TABLE t (a INT); INSERT INTO t VALUES (4), (5), (6); SELECT a FROM t WHERE a < 5; \
                SELECT a FROM t WHERE a > 5; SELECT a FROM t WHERE a BETWEEN 4 AND 6;",
            ),
        ],
        "session 1 a.sql\n1 ok\n2 ok 3\n3 rows 1\n4\n4 rows 1\n6\n5 rows 3\n4\n5\n6\nhistory 2\n\
        1 1 1 CREATE TABLE t (a INT);\n2 1 2 INSERT INTO t VALUES (4), (5), (6);\n",
        &[
            16, 1224, 1224, 18, 2, 0, 0, 16, 16, 0, 0, 0, 0, 0, 0, 0, 0, 66, 42,
        ],
        "",
    ),
    (
        "a range lies within another",
        "replay order a.sql",
        &[
            ("order", ""),
            (
                "a.sql",
                "CREATE TABLE t (a INT); INSERT INTO t VALUES (1), (4), (6); SELECT a FROM t WHERE a < 5; \
                SELECT a FROM t WHERE a < 3;",
            ),
        ],
        "session 1 a.sql\n1 ok\n2 ok 3\n3 rows 2\n1\n4\n4 rows 1\n1\nhistory 2\n\
        1 1 1 CREATE TABLE t (a INT);\n2 1 2 INSERT INTO t VALUES (1), (4), (6);\n",
        &[
            11, 824, 824, 12, 1, 1, 0, 10, 11, 0, 0, 0, 0, 0, 0, 0, 0, 41, 29,
        ],
        "",
    ),
    (
        "the cheapest cover is taken",
        "replay order a.sql",
        &[
            ("order", ""),
            (
                "a.sql",
                "CREATE TABLE t (a INT); INSERT INTO t VALUES (3), (4), (6), (9); \
                SELECT a FROM t WHERE a BETWEEN 5 AND 8; SELECT a FROM t WHERE a BETWEEN 1 AND 5; \
                SELECT a FROM t WHERE a BETWEEN 4 AND 9; SELECT a FROM t WHERE a BETWEEN 2 AND 8;",
            ),
        ],
        "session 1 a.sql\n1 ok\n2 ok 4\n3 rows 1\n6\n4 rows 2\n3\n4\n5 rows 3\n4\n6\n9\n6 rows 3\n3\n\
        4\n6\nhistory 2\n1 1 1 CREATE TABLE t (a INT);\n\
        2 1 2 INSERT INTO t VALUES (3), (4), (6), (9);\n",
        &[
            21, 1704, 1704, 24, 3, 0, 1, 20, 21, 0, 0, 0, 0, 0, 0, 0, 0, 119, 55,
        ],
        "",
    ),
    (
        "the least recently used go",
        "replay --budget 584 order a.sql",
        &[("order", ""), ("a.sql", COUNTS)],
        "session 1 a.sql\n1 ok\n2 ok\n3 ok\n4 ok 2\n5 ok 1\n6 ok 1\n7 rows 1\n2\n8 rows 1\n1\n\
        9 rows 1\n1\n10 rows 1\n2\nhistory 6\n1 1 1 CREATE TABLE u (a INT);\n\
        2 1 2 CREATE TABLE v (a INT);\n3 1 3 CREATE TABLE w (a INT);\n\
        4 1 4 INSERT INTO u VALUES (1), (2);\n5 1 5 INSERT INTO v VALUES (1);\n\
        6 1 6 INSERT INTO w VALUES (1);\n",
        &[
            8, 584, 584, 16, 0, 0, 0, 16, 16, 0, 0, 0, 0, 0, 8, 0, 0, 48, 46,
        ],
        "",
    ),
    (
        "the least benefit goes",
        "replay --budget 584 --evict benefit order a.sql",
        &[("order", ""), ("a.sql", COUNTS)],
        "session 1 a.sql\n1 ok\n2 ok\n3 ok\n4 ok 2\n5 ok 1\n6 ok 1\n7 rows 1\n2\n8 rows 1\n1\n\
        9 rows 1\n1\n10 rows 1\n2\nhistory 6\n1 1 1 CREATE TABLE u (a INT);\n\
        2 1 2 CREATE TABLE v (a INT);\n3 1 3 CREATE TABLE w (a INT);\n\
        4 1 4 INSERT INTO u VALUES (1), (2);\n5 1 5 INSERT INTO v VALUES (1);\n\
        6 1 6 INSERT INTO w VALUES (1);\n",
        &[
            8, 584, 584, 16, 4, 0, 0, 12, 12, 0, 0, 0, 0, 0, 4, 0, 0, 34, 42,
        ],
        "",
    ),
    (
        "even weights are benefit",
        "replay --budget 584 --evict weighted order a.sql",
        &[("order", ""), ("a.sql", COUNTS)],
        "session 1 a.sql\n1 ok\n2 ok\n3 ok\n4 ok 2\n5 ok 1\n6 ok 1\n7 rows 1\n2\n8 rows 1\n1\n\
        9 rows 1\n1\n10 rows 1\n2\nhistory 6\n1 1 1 CREATE TABLE u (a INT);\n\
        2 1 2 CREATE TABLE v (a INT);\n3 1 3 CREATE TABLE w (a INT);\n\
        4 1 4 INSERT INTO u VALUES (1), (2);\n5 1 5 INSERT INTO v VALUES (1);\n\
        6 1 6 INSERT INTO w VALUES (1);\n",
        &[
            8, 584, 584, 16, 4, 0, 0, 12, 12, 0, 0, 0, 0, 0, 4, 0, 0, 34, 42,
        ],
        "",
    ),
    (
        "a heavy mark outlives its child",
        "replay --budget 584 --evict weighted --weights markT=100 order a.sql",
        &[("order", ""), ("a.sql", COUNTS)],
        "session 1 a.sql\n1 ok\n2 ok\n3 ok\n4 ok 2\n5 ok 1\n6 ok 1\n7 rows 1\n2\n8 rows 1\n1\n\
        9 rows 1\n1\n10 rows 1\n2\nhistory 6\n1 1 1 CREATE TABLE u (a INT);\n\
        2 1 2 CREATE TABLE v (a INT);\n3 1 3 CREATE TABLE w (a INT);\n\
        4 1 4 INSERT INTO u VALUES (1), (2);\n5 1 5 INSERT INTO v VALUES (1);\n\
        6 1 6 INSERT INTO w VALUES (1);\n",
        &[
            8, 584, 584, 16, 3, 0, 0, 13, 13, 0, 0, 0, 0, 0, 5, 0, 0, 38, 43,
        ],
        "",
    ),
    (
        "nothing fits no budget",
        "replay --budget 0 order a.sql",
        &[("order", ""), ("a.sql", THREE)],
        "session 1 a.sql\n1 ok\n2 ok 3\n3 rows 2\n2\n3\nhistory 2\n1 1 1 CREATE TABLE t (a INT);\n\
        2 1 2 INSERT INTO t VALUES (3), (1), (2);\n",
        &[0, 0, 0, 6, 0, 0, 0, 6, 0, 0, 0, 5, 0, 1, 0, 0, 0, 27, 16],
        "",
    ),
    (
        "a bind alone fits",
        "replay --budget 64 order a.sql",
        &[("order", ""), ("a.sql", THREE)],
        "session 1 a.sql\n1 ok\n2 ok 3\n3 rows 2\n2\n3\nhistory 2\n1 1 1 CREATE TABLE t (a INT);\n\
        2 1 2 INSERT INTO t VALUES (3), (1), (2);\n",
        &[1, 64, 64, 6, 0, 0, 0, 6, 1, 0, 0, 4, 0, 1, 0, 0, 0, 27, 16],
        "",
    ),
    (
        "credits decide",
        "replay --admit credit --credits 1 order a.sql",
        &[
            ("order", ""),
            (
                "a.sql",
                "CREATE TABLE t (a INT); INSERT INTO t VALUES (4), (6); SELECT a FROM t WHERE a < 5; \
                SELECT a FROM t WHERE a > 5; SELECT a FROM t WHERE a < 5; SELECT a FROM t WHERE a > 5;",
            ),
        ],
        "session 1 a.sql\n1 ok\n2 ok 2\n3 rows 1\n4\n4 rows 1\n6\n5 rows 1\n4\n6 rows 1\n6\n\
        history 2\n1 1 1 CREATE TABLE t (a INT);\n2 1 2 INSERT INTO t VALUES (4), (6);\n",
        &[
            11, 784, 784, 24, 8, 0, 0, 16, 11, 0, 0, 4, 1, 0, 0, 0, 0, 41, 50,
        ],
        "",
    ),
    (
        "foreign uses pay back at the end",
        "replay --budget 584 --admit credit --credits 1 order a.sql b.sql c.sql",
        &[
            ("order", ""),
            ("a.sql", FIRST_COUNT),
            (
                "b.sql",
                "SELECT COUNT(*) FROM u; SELECT COUNT(*) FROM v; SELECT COUNT(*) FROM w;",
            ),
            (
                "c.sql",
                "SELECT COUNT(*) FROM v; SELECT COUNT(*) FROM u; SELECT COUNT(*) FROM v;",
            ),
        ],
        "session 1 a.sql\n1 ok\n2 ok\n3 ok\n4 ok 2\n5 ok 1\n6 ok 1\n7 rows 1\n2\nsession 2 b.sql\n\
        1 rows 1\n2\n2 rows 1\n1\n3 rows 1\n1\nsession 3 c.sql\n1 rows 1\n1\n2 rows 1\n2\n3 rows 1\n\
        1\nhistory 6\n1 1 1 CREATE TABLE u (a INT);\n2 1 2 CREATE TABLE v (a INT);\n\
        3 1 3 CREATE TABLE w (a INT);\n4 1 4 INSERT INTO u VALUES (1), (2);\n\
        5 1 5 INSERT INTO v VALUES (1);\n6 1 6 INSERT INTO w VALUES (1);\n",
        &[
            8, 584, 584, 28, 12, 0, 0, 16, 16, 0, 0, 0, 0, 0, 8, 0, 0, 52, 64,
        ],
        "",
    ),
    (
        "own credits are gone",
        "replay --budget 584 --admit credit --credits 1 order a.sql b.sql c.sql d.sql",
        &[
            ("order", ""),
            ("a.sql", FIRST_COUNT),
            (
                "b.sql",
                "SELECT COUNT(*) FROM u; SELECT COUNT(*) FROM v; SELECT COUNT(*) FROM w;",
            ),
            (
                "c.sql",
                "SELECT COUNT(*) FROM v; SELECT COUNT(*) FROM u; SELECT COUNT(*) FROM v;",
            ),
            ("d.sql", "SELECT COUNT(*) FROM w;"),
        ],
        "session 1 a.sql\n1 ok\n2 ok\n3 ok\n4 ok 2\n5 ok 1\n6 ok 1\n7 rows 1\n2\nsession 2 b.sql\n\
        1 rows 1\n2\n2 rows 1\n1\n3 rows 1\n1\nsession 3 c.sql\n1 rows 1\n1\n2 rows 1\n2\n3 rows 1\n\
        1\nsession 4 d.sql\n1 rows 1\n1\nhistory 6\n1 1 1 CREATE TABLE u (a INT);\n\
        2 1 2 CREATE TABLE v (a INT);\n3 1 3 CREATE TABLE w (a INT);\n\
        4 1 4 INSERT INTO u VALUES (1), (2);\n5 1 5 INSERT INTO v VALUES (1);\n\
        6 1 6 INSERT INTO w VALUES (1);\n",
        &[
            8, 584, 584, 32, 12, 0, 0, 20, 16, 0, 0, 3, 1, 0, 8, 0, 0, 60, 74,
        ],
        "",
    ),
];

/// The output with these answers and changes, the pool's numbers, and the log.
fn output_of(alloc: Global, answers: &str, numbers: &[u64], log: &str) -> Result<String, Memory> {
    let mut text = format!(in alloc; "{answers}pool\n")?;
    for (name, number) in LINES.iter().zip(numbers) {
        let line = format!(in alloc; "{name} {number}\n")?;
        text.push_str(line.as_str())?;
    }
    text.push_str(log)?;
    Ok(text)
}

#[test]
fn replays_are_written_whole(rt: HostRuntime) -> Result<(), Fail> {
    let alloc = rt.alloc();
    for (name, words, files, answers, numbers, log) in REPLAYS {
        let want = output_of(alloc, answers, numbers, log)?;
        let done = run_by(&rt, alloc, words, files, &Kernel::new())?;
        assert_eq!(rt; (done.status, done.at), (0, 0), "{name}");
        assert!(rt; done.text.as_slice() == want.as_bytes(), "{name}: {want}");
    }
    Ok(())
}

#[test]
fn a_schedule_whose_second_line_is_bad(rt: HostRuntime) -> Result<(), Fail> {
    let alloc = rt.alloc();
    let files = [("order", "1\n2\n"), ("a.sql", THREE)];
    let done = run_by(&rt, alloc, "replay order a.sql", &files, &Kernel::new())?;
    assert_eq!(rt; (done.status, done.at, done.text.len()), (7, 2, 0));
    Ok(())
}
