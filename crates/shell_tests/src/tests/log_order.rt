//! Sessions in threads: the answers are those of the order that the printed log has.
use crate::kernels::{NamedText, run_by};
use bat_kernel::Kernel;
use cell_core::Memory;
use std::alloc::Global;
use std::sync::Wait;
use std::test::Fail;
use std::thread::Threads;

/// Two sessions, of which the second one needs the first one's table.
const SESSIONS: &[NamedText<'static>] = &[
    (
        "a.sql",
        "CREATE TABLE t (a INT); INSERT INTO t VALUES (1); SELECT a FROM t;",
    ),
    ("b.sql", "INSERT INTO t VALUES (2); SELECT a FROM t;"),
];

/// Each order of the statements, by session and number, and the output for it up to the pool's
/// section. Each is that of an independent implementation (`tools/oracle`), by a schedule in this
/// order.
const ORDERS: [(&str, &str); 10] = [
    (
        "2 1, 2 2, 1 1, 1 2, 1 3, ",
        "session 1 a.sql\n1 ok\n2 ok 1\n3 rows 1\n1\nsession 2 b.sql\n1 refused 3 no such table t\n\
        2 refused 3 no such table t\nhistory 2\n1 1 1 CREATE TABLE t (a INT);\n\
        2 1 2 INSERT INTO t VALUES (1);\npool\n",
    ),
    (
        "2 1, 1 1, 2 2, 1 2, 1 3, ",
        "session 1 a.sql\n1 ok\n2 ok 1\n3 rows 1\n1\nsession 2 b.sql\n1 refused 3 no such table t\n\
        2 rows 0\nhistory 2\n1 1 1 CREATE TABLE t (a INT);\n2 1 2 INSERT INTO t VALUES (1);\npool\n",
    ),
    (
        "2 1, 1 1, 1 2, 2 2, 1 3, ",
        "session 1 a.sql\n1 ok\n2 ok 1\n3 rows 1\n1\nsession 2 b.sql\n1 refused 3 no such table t\n\
        2 rows 1\n1\nhistory 2\n1 1 1 CREATE TABLE t (a INT);\n2 1 2 INSERT INTO t VALUES (1);\n\
        pool\n",
    ),
    (
        "2 1, 1 1, 1 2, 1 3, 2 2, ",
        "session 1 a.sql\n1 ok\n2 ok 1\n3 rows 1\n1\nsession 2 b.sql\n1 refused 3 no such table t\n\
        2 rows 1\n1\nhistory 2\n1 1 1 CREATE TABLE t (a INT);\n2 1 2 INSERT INTO t VALUES (1);\n\
        pool\n",
    ),
    (
        "1 1, 2 1, 2 2, 1 2, 1 3, ",
        "session 1 a.sql\n1 ok\n2 ok 1\n3 rows 2\n1\n2\nsession 2 b.sql\n1 ok 1\n2 rows 1\n2\n\
        history 3\n1 1 1 CREATE TABLE t (a INT);\n2 2 1 INSERT INTO t VALUES (2);\n\
        3 1 2 INSERT INTO t VALUES (1);\npool\n",
    ),
    (
        "1 1, 2 1, 1 2, 2 2, 1 3, ",
        "session 1 a.sql\n1 ok\n2 ok 1\n3 rows 2\n1\n2\nsession 2 b.sql\n1 ok 1\n2 rows 2\n1\n2\n\
        history 3\n1 1 1 CREATE TABLE t (a INT);\n2 2 1 INSERT INTO t VALUES (2);\n\
        3 1 2 INSERT INTO t VALUES (1);\npool\n",
    ),
    (
        "1 1, 2 1, 1 2, 1 3, 2 2, ",
        "session 1 a.sql\n1 ok\n2 ok 1\n3 rows 2\n1\n2\nsession 2 b.sql\n1 ok 1\n2 rows 2\n1\n2\n\
        history 3\n1 1 1 CREATE TABLE t (a INT);\n2 2 1 INSERT INTO t VALUES (2);\n\
        3 1 2 INSERT INTO t VALUES (1);\npool\n",
    ),
    (
        "1 1, 1 2, 2 1, 2 2, 1 3, ",
        "session 1 a.sql\n1 ok\n2 ok 1\n3 rows 2\n1\n2\nsession 2 b.sql\n1 ok 1\n2 rows 2\n1\n2\n\
        history 3\n1 1 1 CREATE TABLE t (a INT);\n2 1 2 INSERT INTO t VALUES (1);\n\
        3 2 1 INSERT INTO t VALUES (2);\npool\n",
    ),
    (
        "1 1, 1 2, 2 1, 1 3, 2 2, ",
        "session 1 a.sql\n1 ok\n2 ok 1\n3 rows 2\n1\n2\nsession 2 b.sql\n1 ok 1\n2 rows 2\n1\n2\n\
        history 3\n1 1 1 CREATE TABLE t (a INT);\n2 1 2 INSERT INTO t VALUES (1);\n\
        3 2 1 INSERT INTO t VALUES (2);\npool\n",
    ),
    (
        "1 1, 1 2, 1 3, 2 1, 2 2, ",
        "session 1 a.sql\n1 ok\n2 ok 1\n3 rows 1\n1\nsession 2 b.sql\n1 ok 1\n2 rows 2\n1\n2\n\
        history 3\n1 1 1 CREATE TABLE t (a INT);\n2 1 2 INSERT INTO t VALUES (1);\n\
        3 2 1 INSERT INTO t VALUES (2);\npool\n",
    ),
];

/// The session and the number of the statement whose event has its kind at this place of the words.
fn statement_at(alloc: Global, words: &[&str], kind: usize) -> Result<String, Memory> {
    match (
        words.get(kind.wrapping_sub(2)),
        words.get(kind.wrapping_sub(1)),
    ) {
        (Some(session), Some(number)) => Ok(format!(in alloc; "{session} {number}, ")?),
        _ => Err(Memory),
    }
}

/// The order in which statements met the tables: that of the log's changes and of the begins of
/// queries.
fn order_of(alloc: Global, text: &str) -> Result<String, Memory> {
    let words: Vec<&str> = text.split_whitespace().collect(alloc)?;
    let mut order = String::new(alloc);
    for (place, word) in words.iter().enumerate() {
        if *word == "write" || *word == "begin" {
            let statement = statement_at(alloc, words.as_slice(), place)?;
            order.push_str(statement.as_str())?;
        }
    }
    Ok(order)
}

/// Whether the output has the answers and the changes of this order.
fn is_answered(order: &str, text: &str) -> bool {
    for (known, answers) in ORDERS {
        if known == order {
            return text.as_bytes().starts_with(answers.as_bytes());
        }
    }
    false
}

/// The output of a run of the two sessions in threads, with its log.
fn served<R: Threads + Wait + Sync>(rt: &R, alloc: Global) -> Result<String, Memory> {
    let done = run_by(
        rt,
        alloc,
        "run --events a.sql b.sql",
        SESSIONS,
        &Kernel::new(),
    )?;
    String::from_utf8(done.text).map_err(|_| Memory)
}

#[test]
fn answers_are_those_of_the_logs_order(rt: HostRuntime) -> Result<(), Fail> {
    let alloc = rt.alloc();
    for _ in 0..8 {
        let text = served(&rt, alloc)?;
        let order = order_of(alloc, text.as_str())?;
        assert!(rt;
            is_answered(order.as_str(), text.as_str()),
            "{order}: {text}"
        );
    }
    Ok(())
}
