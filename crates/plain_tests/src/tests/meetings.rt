//! Sessions in threads that meet on one table. In which order their statements come is left to the
//! machine; the log says which it was. By the plain programs, that order has the replies and the history
//! that are printed, which are compared whole.
use super::plainly::{Place, Round, answers_in_order, output_of};
use bat_kernel::Kernel;
use cell_core::Memory;
use shell_tests::run_by;
use std::alloc::Global;
use std::sync::Wait;
use std::test::Fail;
use std::thread::Threads;

/// The names of the scripts.
const NAMES: &[&str] = &[
    "01.sql", "02.sql", "03.sql", "04.sql", "05.sql", "06.sql", "07.sql", "08.sql", "09.sql",
    "10.sql", "11.sql", "12.sql", "13.sql", "14.sql", "15.sql", "16.sql",
];

/// INSERT beside DELETE beside UPDATE, and queries of what they change.
const ROWS_CHANGE: &[Round] = &[
    &[
        "CREATE TABLE t (a INT, b INT)",
        "INSERT INTO t VALUES (1, 1), (2, 2), (3, 3), (4, 4)",
        "SELECT COUNT(*), SUM(b) FROM t WHERE a BETWEEN 2 AND 3",
        "INSERT INTO t VALUES (2, 5), (5, 6)",
    ],
    &[
        "CREATE TABLE t (a INT, b INT)",
        "DELETE FROM t WHERE a < 2",
        "SELECT COUNT(*), SUM(b) FROM t WHERE a BETWEEN 2 AND 3",
        "DELETE FROM t WHERE b BETWEEN 5 AND 9",
    ],
    &[
        "CREATE TABLE t (a INT, b INT)",
        "UPDATE t SET b = b + a WHERE a BETWEEN 2 AND 4",
        "SELECT COUNT(*), SUM(b) FROM t WHERE a BETWEEN 1 AND 4",
        "UPDATE t SET a = a - 1, b = 3 WHERE b > 6",
    ],
    &[
        "CREATE TABLE t (a INT, b INT)",
        "SELECT a, COUNT(*), SUM(b) FROM t WHERE a > 1 GROUP BY a",
        "SELECT COUNT(*), MIN(b), MAX(b) FROM t WHERE a BETWEEN 2 AND 3",
        "SELECT COUNT(*), SUM(b) FROM t WHERE a BETWEEN 1 AND 2",
    ],
];

/// ALTER beside INSERT, whose rows fit the columns of one moment alone.
const COLUMNS_ARE_ADDED: &[Round] = &[
    &[
        "CREATE TABLE t (a INT)",
        "INSERT INTO t VALUES (1), (2)",
        "INSERT INTO t VALUES (3, 4)",
        "INSERT INTO t VALUES (5, 6, 'x')",
    ],
    &[
        "CREATE TABLE t (a INT)",
        "INSERT INTO t (a) VALUES (2), (7)",
        "ALTER TABLE t ADD COLUMN b INT DEFAULT 7",
        "SELECT COUNT(*), SUM(b) FROM t WHERE a < 4",
    ],
    &[
        "CREATE TABLE t (a INT)",
        "SELECT COUNT(*), SUM(a) FROM t WHERE a < 4",
        "INSERT INTO t (b, a) VALUES (1, 2)",
        "ALTER TABLE t ADD COLUMN c TEXT DEFAULT 'd' NOT NULL",
    ],
    &[
        "CREATE TABLE t (a INT)",
        "SELECT a, COUNT(*) FROM t WHERE a < 6 GROUP BY a",
        "SELECT COUNT(c), MIN(c), MAX(b) FROM t WHERE a < 4",
        "DELETE FROM t WHERE a BETWEEN 2 AND 5",
    ],
];

/// DROP and CREATE beside queries, which keep the tables that they began with, and what the pool has of
/// these.
const TABLES_GO_AND_COME: &[Round] = &[
    &[
        "CREATE TABLE t (a INT)",
        "INSERT INTO t VALUES (3), (1), (2)",
        "SELECT a FROM t WHERE a BETWEEN 2 AND 3",
        "DROP TABLE t",
    ],
    &[
        "CREATE TABLE t (a INT)",
        "INSERT INTO t VALUES (2), (4)",
        "SELECT COUNT(*), SUM(a) FROM t WHERE a BETWEEN 1 AND 3",
        "SELECT COUNT(*), SUM(a) FROM t WHERE a BETWEEN 2 AND 3",
    ],
    &[
        "CREATE TABLE t (a INT)",
        "SELECT COUNT(*), SUM(a) FROM t WHERE a BETWEEN 2 AND 3",
        "DROP TABLE t",
        "CREATE TABLE t (b INT, a INT)",
    ],
    &[
        "SELECT COUNT(*), SUM(a) FROM t WHERE a BETWEEN 1 AND 4",
        "SELECT t.a, COUNT(*) FROM t, t u WHERE t.a = u.a AND t.a < 4 GROUP BY t.a",
        "SELECT COUNT(*), SUM(a) FROM t WHERE a BETWEEN 2 AND 3",
        "INSERT INTO t (a) VALUES (3)",
    ],
];

/// Sixteen sessions that drop one table.
const ONE_IS_DROPPED: &[Round] = &[
    &["CREATE TABLE t (a INT)", "DROP TABLE t"],
    &["DROP TABLE t"],
    &["DROP TABLE t"],
    &["DROP TABLE t"],
    &["DROP TABLE t"],
    &["DROP TABLE t"],
    &["DROP TABLE t"],
    &["DROP TABLE t"],
    &["DROP TABLE t"],
    &["DROP TABLE t"],
    &["DROP TABLE t"],
    &["DROP TABLE t"],
    &["DROP TABLE t"],
    &["DROP TABLE t"],
    &["DROP TABLE t"],
    &["DROP TABLE t"],
];

/// Sessions that meet: what they do, their rounds, and how many rounds their scripts have.
const MEETINGS: [(&str, &[Round], usize); 3] = [
    ("rows change", ROWS_CHANGE, 6),
    ("columns are added", COLUMNS_ARE_ADDED, 6),
    ("tables go and come", TABLES_GO_AND_COME, 6),
];

/// Options of a run.
const OPTIONS: [&str; 5] = [
    "--workers 1",
    "--workers 4",
    "--budget 0",
    "--budget 600 --evict benefit",
    "--admit credit --credits 1",
];

/// The script of a session.
fn script_of(alloc: Global, round: Round, rounds: usize) -> Result<String, Memory> {
    let mut script = String::new(alloc);
    for _ in 0..rounds {
        for statement in round {
            script.push_str(statement)?;
            script.push_str(";\n")?;
        }
    }
    Ok(script)
}

/// The scripts of sessions, each with its name.
pub(super) fn scripts_of(
    alloc: Global,
    sessions: &[Round],
    rounds: usize,
) -> Result<Vec<(&'static str, String)>, Memory> {
    let mut scripts = Vec::new(alloc);
    for (name, round) in NAMES.iter().zip(sessions) {
        scripts.push((*name, script_of(alloc, *round, rounds)?))?;
    }
    Ok(scripts)
}

/// The words of a run of sessions with a log.
pub(super) fn line_of(alloc: Global, options: &str, sessions: &[Round]) -> Result<String, Memory> {
    let mut line = format!(in alloc; "run --events {options}")?;
    for name in NAMES.iter().take(sessions.len()) {
        line.push_str(" ")?;
        line.push_str(name)?;
    }
    Ok(line)
}

/// What a run of sessions printed.
fn printed<R: Threads + Wait + Sync>(
    rt: &R,
    alloc: Global,
    options: &str,
    sessions: &[Round],
    rounds: usize,
) -> Result<String, Memory> {
    let line = line_of(alloc, options, sessions)?;
    let scripts = scripts_of(alloc, sessions, rounds)?;
    let mut files = Vec::new(alloc);
    for (name, script) in &scripts {
        files.push((*name, script.as_str()))?;
    }
    let run = run_by(rt, alloc, line.as_str(), files.as_slice(), &Kernel::new())?;
    String::from_utf8(run.text).map_err(|_| Memory)
}

/// The number that a word is, or 0.
fn number_of(word: &str) -> u32 {
    match word.parse::<u32>() {
        Ok(number) => number,
        Err(_) => 0,
    }
}

/// The places of the statements in the order of the log: of each its Write, or its Begin.
fn order_of(alloc: Global, log: &str) -> Result<Vec<Place>, Memory> {
    let mut order = Vec::new(alloc);
    let mut place: Place = (0, 0);
    for word in log.split_whitespace() {
        if word == "write" || word == "begin" {
            order.push(place)?;
        }
        place = (place.1, number_of(word));
    }
    Ok(order)
}

/// The replies and the history that the plain programs give in the order of a log.
fn wanted(alloc: Global, sessions: &[Round], log: &str) -> Result<Vec<u8>, Memory> {
    let order = order_of(alloc, log)?;
    let answers = answers_in_order(alloc, sessions, order.as_slice())?;
    output_of(alloc, NAMES, sessions.len(), answers.as_slice())
}

/// Whether what was printed has the replies and the history that its own log asks for.
pub(super) fn is_of_its_log(
    alloc: Global,
    sessions: &[Round],
    printed: &str,
) -> Result<bool, Memory> {
    let Some((front, log)) = printed.split_once("\nlog ") else {
        return Ok(false);
    };
    let Some((replies, _)) = front.split_once("pool\nentries ") else {
        return Ok(false);
    };
    let want = wanted(alloc, sessions, log)?;
    Ok(want.as_slice() == replies.as_bytes())
}

/// Whether a run of sessions is that of its log.
fn is_met<R: Threads + Wait + Sync>(
    rt: &R,
    alloc: Global,
    options: &str,
    sessions: &[Round],
    rounds: usize,
) -> Result<bool, Memory> {
    let printed = printed(rt, alloc, options, sessions, rounds)?;
    is_of_its_log(alloc, sessions, printed.as_str())
}

#[test]
fn sessions_meet_on_one_table(rt: HostRuntime) -> Result<(), Fail> {
    let alloc = rt.alloc();
    for (name, sessions, rounds) in MEETINGS {
        for options in OPTIONS {
            let met = is_met(&rt, alloc, options, sessions, rounds)?;
            assert!(rt; met, "{name} with {options}");
        }
    }
    Ok(())
}

/// How often a part comes in a text.
fn count_of(text: &str, part: &str) -> usize {
    let mut rest = text;
    let mut count = 0usize;
    for _ in 0..text.len() {
        let Some((_, later)) = rest.split_once(part) else {
            return count;
        };
        count = count.saturating_add(1);
        rest = later;
    }
    count
}

#[test]
fn one_of_sixteen_drops_the_table(rt: HostRuntime) -> Result<(), Fail> {
    let alloc = rt.alloc();
    for options in OPTIONS {
        let text = printed(&rt, alloc, options, ONE_IS_DROPPED, 1)?;
        assert!(rt;
            is_of_its_log(alloc, ONE_IS_DROPPED, text.as_str())?,
            "{options}"
        );
        assert_eq!(rt;
            count_of(text.as_str(), "history 2\n1 1 1 CREATE TABLE t (a INT);\n"),
            1
        );
        assert_eq!(rt; count_of(text.as_str(), "DROP TABLE t;\n"), 1);
        assert_eq!(rt; count_of(text.as_str(), " refused 3 no such table t\n"), 15);
    }
    Ok(())
}
