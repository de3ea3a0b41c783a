//! The largest statements, names and scripts, and each by one larger.
use super::NOTHING_SERVED;
use super::played::run_line;
use cell_core::Memory;
use std::alloc::Global;
use std::sync::Wait;
use std::test::Fail;
use std::thread::Threads;

/// Parts of a text, each with how often it comes.
type Parts = &'static [(&'static str, usize)];

/// What is tried, the script, and the output from its first byte, up to the pool or to the number of
/// changes; for the largest file it is all of it.
type Case = (&'static str, Parts, Parts);

const TEXT_TABLE: (&str, usize) = ("CREATE TABLE t (a TEXT); INSERT INTO t VALUES ('", 1);

const LARGE_SCRIPTS: &[Case] = &[
    (
        "a statement of 65,536 bytes",
        &[TEXT_TABLE, ("x", 65_511), ("')", 1)],
        &[
            (
                "session 1 a.sql\n1 ok\n2 ok 1\nhistory 2\n1 1 1 CREATE TABLE t (a TEXT);\n2 1 2 INSERT INTO t VALUES ('",
                1,
            ),
            ("x", 65_511),
            ("');\npool\n", 1),
        ],
    ),
    (
        "a statement of 65,537 bytes",
        &[TEXT_TABLE, ("x", 65_512), ("')", 1)],
        &[(
            "session 1 a.sql\n1 ok\n2 refused 11 limit statement\nhistory 1\n",
            1,
        )],
    ),
    (
        "1,048,576 spaces",
        &[(" ", 1_048_576)],
        &[(NOTHING_SERVED, 1)],
    ),
    (
        "a name of 64 bytes",
        &[("CREATE TABLE ", 1), ("n", 64), (" (a INT)", 1)],
        &[
            ("session 1 a.sql\n1 ok\nhistory 1\n1 1 1 CREATE TABLE ", 1),
            ("n", 64),
            (" (a INT);\npool\n", 1),
        ],
    ),
    (
        "a name of 65 bytes",
        &[("CREATE TABLE ", 1), ("n", 65), (" (a INT)", 1)],
        &[("session 1 a.sql\n1 refused 11 limit name\nhistory 0\n", 1)],
    ),
    (
        "512 levels",
        &[ONE_ROW, ("(", 512), ("a = 1", 1), (")", 512)],
        &[("session 1 a.sql\n1 ok\n2 ok 2\n3 rows 1\n1\nhistory 2\n", 1)],
    ),
    (
        "513 levels",
        &[ONE_ROW, ("(", 513), ("a = 1", 1), (")", 513)],
        &[(
            "session 1 a.sql\n1 ok\n2 ok 2\n3 refused 11 limit nesting\nhistory 2\n",
            1,
        )],
    ),
];

const ONE_ROW: (&str, usize) = (
    "CREATE TABLE t (a INT); INSERT INTO t VALUES (1), (2); SELECT a FROM t WHERE ",
    1,
);

/// Four tables of two rows each, and a query that begins.
const FOUR_TABLES: (&str, usize) = (
    "CREATE TABLE t (a INT); CREATE TABLE u (b INT); CREATE TABLE v (c INT); CREATE TABLE w (d INT); \
     INSERT INTO t VALUES (1), (2); INSERT INTO u VALUES (3), (4); INSERT INTO v VALUES (5), (6); \
     INSERT INTO w VALUES (7), (8); SELECT ",
    1,
);

/// The replies to the tables and their rows, and the number of the reply to the query.
const EIGHT_REPLIES: (&str, usize) = (
    "session 1 a.sql\n1 ok\n2 ok\n3 ok\n4 ok\n5 ok 2\n6 ok 2\n7 ok 2\n8 ok 2\n9 ",
    1,
);

/// Items of 63 columns and operators, the most that are no more than 64: an item has an odd number of
/// them. The aggregate isn't one.
const SUM: &str =
    "SUM(a + b + c + d + a + b + c + d + a + b + c + d + a + b + c + d + a + b + c + d + a + b + c + d + a + b + c + d + a + b + c + d), ";

const MOST: &str =
    "MAX(a + b + c + d + a + b + c + d + a + b + c + d + a + b + c + d + a + b + c + d + a + b + c + d + a + b + c + d + a + b + c + d), ";

const COUNT: &str =
    "COUNT(a + b + c + d + a + b + c + d + a + b + c + d + a + b + c + d + a + b + c + d + a + b + c + d + a + b + c + d + a + b + c + d)";

/// 65 literals, columns and operators.
const TOO_LONG: &str =
    "a + b + c + d + a + b + c + d + a + b + c + d + a + b + c + d + a + b + c + d + a + b + c + d + a + b + c + d + a + b + c + d - 1";

/// Tests and operators of a condition, but for the first two: three of these have 126.
const FIRST_TESTS: (&str, usize) = (" AND a < b", 21);

const MORE_TESTS: (&str, usize) = (" AND c < d", 21);

const LAST_TESTS: (&str, usize) = (" AND d < 8", 21);

/// The largest query, and queries that pass one limit each.
const QUERIES: &[Case] = &[
    (
        "the largest query",
        &[
            FOUR_TABLES,
            (SUM, 16),
            (MOST, 15),
            (COUNT, 1),
            (" FROM t, u, v, w WHERE NOT a = 1", 1),
            FIRST_TESTS,
            MORE_TESTS,
            LAST_TESTS,
        ],
        &[
            EIGHT_REPLIES,
            ("rows 1\n576", 1),
            (",576", 15),
            (",152", 15),
            (",4\nhistory 8\n", 1),
        ],
    ),
    (
        "a query with 33 items",
        &[
            FOUR_TABLES,
            (SUM, 17),
            (MOST, 15),
            (COUNT, 1),
            (" FROM t, u, v, w WHERE NOT a = 1", 1),
            FIRST_TESTS,
            MORE_TESTS,
            LAST_TESTS,
        ],
        &[EIGHT_REPLIES, ("refused 11 limit items\nhistory 8\n", 1)],
    ),
    (
        "a query over five tables",
        &[
            FOUR_TABLES,
            (SUM, 16),
            (MOST, 15),
            (COUNT, 1),
            (" FROM t, u, v, w, t x WHERE NOT a = 1", 1),
            FIRST_TESTS,
            MORE_TESTS,
            LAST_TESTS,
        ],
        &[EIGHT_REPLIES, ("refused 11 limit tables\nhistory 8\n", 1)],
    ),
    (
        "a query with 129 tests and operators",
        &[
            FOUR_TABLES,
            (SUM, 16),
            (MOST, 15),
            (COUNT, 1),
            (" FROM t, u, v, w WHERE NOT NOT a = 1", 1),
            FIRST_TESTS,
            MORE_TESTS,
            LAST_TESTS,
        ],
        &[
            EIGHT_REPLIES,
            ("refused 11 limit conditions\nhistory 8\n", 1),
        ],
    ),
    (
        "an item of 65 literals, columns and operators",
        &[
            FOUR_TABLES,
            (SUM, 16),
            (MOST, 15),
            (TOO_LONG, 1),
            (" FROM t, u, v, w WHERE NOT a = 1", 1),
            FIRST_TESTS,
            MORE_TESTS,
            LAST_TESTS,
        ],
        &[
            EIGHT_REPLIES,
            ("refused 11 limit expression\nhistory 8\n", 1),
        ],
    ),
];

/// The text of the parts.
fn text_of(alloc: Global, parts: &[(&str, usize)]) -> Result<Vec<u8>, Memory> {
    let mut text = Vec::new(alloc);
    for (part, times) in parts {
        for _ in 0..*times {
            text.extend_from_slice(part.as_bytes())?;
        }
    }
    Ok(text)
}

/// The status of the run of a script, and whether the output begins with this text.
fn served<R: Threads + Wait + Sync>(
    rt: &R,
    alloc: Global,
    parts: &[(&str, usize)],
    want: &[u8],
) -> Result<(u8, bool), Memory> {
    let script = text_of(alloc, parts)?;
    let (status, _, text) = run_line(rt, alloc, "run a.sql", &[("a.sql", script.as_slice())])?;
    Ok((status, text.as_slice().starts_with(want)))
}

/// The most statements that a script may have.
const MOST_STATEMENTS: &[(&str, usize)] = &[
    ("CREATE TABLE t (a INT)", 1),
    ("; INSERT INTO t VALUES (1)", 254),
    ("; SELECT COUNT(*) FROM t", 1),
];

/// Their replies, and the number of changes.
fn replies_to_most(alloc: Global) -> Result<String, Memory> {
    let mut text = format!(in alloc; "session 1 a.sql\n1 ok\n")?;
    for number in 2..256 {
        let line = format!(in alloc; "{number} ok 1\n")?;
        text.push_str(line.as_str())?;
    }
    text.push_str("256 rows 1\n254\nhistory 255\n")?;
    Ok(text)
}

#[test]
fn each_of_256_statements_has_its_reply(rt: HostRuntime) -> Result<(), Fail> {
    let alloc = rt.alloc();
    let want = replies_to_most(alloc)?;
    let served = served(&rt, alloc, MOST_STATEMENTS, want.as_bytes())?;
    assert_eq!(rt; served, (0, true));
    Ok(())
}

#[test]
fn the_largest_scripts(rt: HostRuntime) -> Result<(), Fail> {
    let alloc = rt.alloc();
    for (name, parts, want) in LARGE_SCRIPTS {
        let want = text_of(alloc, want)?;
        let served = served(&rt, alloc, parts, want.as_slice())?;
        assert_eq!(rt; served, (0, true), "{name}");
    }
    Ok(())
}

#[test]
fn the_largest_queries(rt: HostRuntime) -> Result<(), Fail> {
    let alloc = rt.alloc();
    for (name, parts, want) in QUERIES {
        let want = text_of(alloc, want)?;
        let served = served(&rt, alloc, parts, want.as_slice())?;
        assert_eq!(rt; served, (0, true), "{name}");
    }
    Ok(())
}
