ghost use Rattle.std.specs.Prelude.{◌≡◌, ◌<◌};

use bat_kernel::Kernel;
use causes::{MemScripts, MemSink};
use cell_core::{Memory, Steps, Word, word_of};
use sql_shell::top;
use std::alloc::Global;
use std::marker::Brand;
use std::sync::Wait;
use std::sync::ledger::{Blank, Ledger};
use std::test::Fail;
use std::thread::Threads;

mod closures;
mod counted;
mod cuts;
mod faults;
mod gates;
mod generated;
mod giving_up;
mod largest;
mod log_order;
mod played;
mod replays;
mod replies;
mod small_pool;

use replies::Replied;

/// The status of a run, the file that it is about, and the output.
type RunOutcome = (u8, u64, Vec<u8>);

/// A run of the words over files. `failing` numbers the calls of the source and the sink that fail.
fn run_words<L: Ledger, R: Threads + Wait + Sync>(
    rt: &R,
    alloc: Global,
    texts: &[&str],
    files: Vec<(Word, Vec<u8>)>,
    failing: (u64, u64),
    blank: Blank,
) -> Result<RunOutcome, Memory>
    requires name { blank.name ≡ L.name }
    requires parts { blank.parts ≡ L.parts }
    requires some { 0 < blank.parts }
{
    let mut words = Vec::new(alloc);
    for text in texts {
        words.push(word_of(alloc, text)?)?;
    }
    let mut scripts = MemScripts::new(files, vec![in alloc; failing.0]?);
    let mut out = MemSink::new(alloc, 10, 100_000, vec![in alloc; failing.1]?)?;
    let mut steps = Steps::<L>::new(blank);
    let kernel = Kernel::new();
    let served = top(
        rt,
        alloc,
        words.as_slice(),
        &mut scripts,
        &mut out,
        &kernel,
        &mut steps,
    );
    let held = Vec::from_slice(alloc, out.held())?;
    Ok((served.status, served.at, held))
}

/// The same over one script, named `a.sql`.
fn run<R: Threads + Wait + Sync>(
    rt: &R,
    alloc: Global,
    texts: &[&str],
    script: &[u8],
    failing: (u64, u64),
) -> Result<RunOutcome, Memory> {
    let script = Vec::from_slice(alloc, script)?;
    let files = vec![in alloc; (word_of(alloc, "a.sql")?, script)]?;
    run_words::<Brand, _>(rt, alloc, texts, files, failing, Blank::new(1))
}

const THREE: &str = "CREATE TABLE t (a INT); INSERT INTO t VALUES (3), (1), (2); \
    SELECT a FROM t WHERE a BETWEEN 2 AND 3;";

const THREE_SERVED: &str = "session 1 a.sql\n1 ok\n2 ok 3\n3 rows 2\n2\n3\nhistory 2\n\
    1 1 1 CREATE TABLE t (a INT);\n2 1 2 INSERT INTO t VALUES (3), (1), (2);\n";

const NOTHING_SERVED: &str =
    "session 1 a.sql\nhistory 0\npool\nentries 0\nbytes 0\npeak 0\nlooks 0\nexact 0\n\
    within 0\nacross 0\nmiss 0\ntaken 0\nthere 0\nstale 0\norphan 0\nnocredit 0\nnoroom 0\nevicted 0\ndropped 0\n\
    carried 0\nwork 0\nevents 0\n";

/// Each kind of change, over the tables after the changes before it.
const EACH_CHANGE: &str = "CREATE TABLE m (k INT NOT NULL, n TEXT DEFAULT 'x', d DATE); \
    INSERT INTO m VALUES (1, 'a', DATE '2024-02-29'), (2, NULL, NULL), (3, 'c', DATE '1999-12-31'); \
    INSERT INTO m (k) VALUES (4); \
    SELECT k, n, d FROM m; \
    UPDATE m SET n = 'z', k = k + 10 WHERE d IS NULL; \
    DELETE FROM m WHERE k = 1; \
    ALTER TABLE m ADD COLUMN q INT DEFAULT 7; \
    UPDATE m SET q = q - k WHERE k > 10; \
    SELECT * FROM m; \
    UPDATE m SET k = NULL WHERE k = 3; \
    UPDATE m SET q = k * 9223372036854775807; \
    SELECT n, q FROM m WHERE q < 0; \
    DELETE FROM m; \
    SELECT COUNT(*) FROM m; \
    INSERT INTO m VALUES (5, 'e', NULL, 6); \
    SELECT k, q FROM m; \
    DROP TABLE m; \
    SELECT k FROM m; \
    CREATE TABLE m (k TEXT); \
    INSERT INTO m VALUES ('f'); \
    SELECT k FROM m;";

const EACH_CHANGE_SERVED: &str =
    "session 1 a.sql\n1 ok\n2 ok 3\n3 ok 1\n4 rows 4\n1,a,2024-02-29\n2,\\N,\\N\n3,c,1999-12-31\n\
    4,x,\\N\n5 ok 2\n6 ok 1\n7 ok\n8 ok 2\n9 rows 3\n3,c,1999-12-31,7\n12,z,\\N,-5\n\
    14,z,\\N,-7\n10 refused 13 null in not null column\n11 refused 10 overflow\n12 rows 2\n\
    z,-7\nz,-5\n13 ok 3\n14 rows 1\n0\n15 ok 1\n16 rows 1\n5,6\n17 ok\n\
    18 refused 3 no such table m\n19 ok\n20 ok 1\n21 rows 1\nf\nhistory 12\n\
    1 1 1 CREATE TABLE m (k INT NOT NULL, n TEXT DEFAULT 'x', d DATE);\n\
    2 1 2 INSERT INTO m VALUES (1, 'a', DATE '2024-02-29'), (2, NULL, NULL), (3, 'c', DATE '1999-12-31');\n\
    3 1 3 INSERT INTO m (k) VALUES (4);\n\
    4 1 5 UPDATE m SET n = 'z', k = k + 10 WHERE d IS NULL;\n5 1 6 DELETE FROM m WHERE k = 1;\n\
    6 1 7 ALTER TABLE m ADD COLUMN q INT DEFAULT 7;\n\
    7 1 8 UPDATE m SET q = q - k WHERE k > 10;\n8 1 13 DELETE FROM m;\n\
    9 1 15 INSERT INTO m VALUES (5, 'e', NULL, 6);\n10 1 17 DROP TABLE m;\n\
    11 1 19 CREATE TABLE m (k TEXT);\n12 1 20 INSERT INTO m VALUES ('f');\n";

/// Scripts, and their output.
const SCRIPTS: [(&str, &str); 13] = [
    ("", "session 1 a.sql\nhistory 0\n"),
    (" ;\n\t; -- ;\n/* ; */", "session 1 a.sql\nhistory 0\n"),
    (THREE, THREE_SERVED),
    (
        "CREATE TABLE t (s TEXT, k INT); INSERT INTO t VALUES ('\\N', 1), ('', 2); SELECT s, k FROM t; SELECT MIN(s), COUNT(*) FROM t WHERE k > 5;",
        "session 1 a.sql\n1 ok\n2 ok 2\n3 rows 2\n,2\n\\\\N,1\n4 rows 1\n\\N,0\nhistory 2\n1 1 1 CREATE TABLE t (s TEXT, k INT);\n2 1 2 INSERT INTO t VALUES ('\\N', 1), ('', 2);\n",
    ),
    (
        "CREATE TABLE t (a INT); INSERT INTO t VALUES (3037000500), (2); SELECT a * a FROM t WHERE a < 10; SELECT a * a FROM t;",
        "session 1 a.sql\n1 ok\n2 ok 2\n3 rows 1\n4\n4 refused 10 overflow\nhistory 2\n1 1 1 CREATE TABLE t (a INT);\n2 1 2 INSERT INTO t VALUES (3037000500), (2);\n",
    ),
    (
        "CREATE TABLE t (a INT); INSERT INTO t VALUES (-9223372036854775808); INSERT INTO t VALUES (9223372036854775808); SELECT -a FROM t;",
        "session 1 a.sql\n1 ok\n2 ok 1\n3 refused 11 limit literal\n4 refused 10 overflow\nhistory 2\n1 1 1 CREATE TABLE t (a INT);\n2 1 2 INSERT INTO t VALUES (-9223372036854775808);\n",
    ),
    (
        "CREATE TABLE t (a INT); INSERT INTO t VALUES (1); INSERT INTO t VALUES ('ab",
        "session 1 a.sql\n1 ok\n2 ok 1\n3 refused 1 syntax\nhistory 2\n1 1 1 CREATE TABLE t (a INT);\n2 1 2 INSERT INTO t VALUES (1);\n",
    ),
    (
        "CREATE TABLE p (s VARCHAR(2)); INSERT INTO p VALUES ('äb'); INSERT INTO p VALUES ('abc'); SELECT x FROM p; DROP TABLE q; CREATE TABLE p (s TEXT); INSERT INTO p VALUES (1); INSERT INTO p VALUES ('a', 'b');",
        "session 1 a.sql\n1 ok\n2 ok 1\n3 refused 9 text too long\n4 refused 5 no such column x\n5 refused 3 no such table q\n6 refused 4 table exists p\n7 refused 7 kinds differ\n8 refused 8 wrong number of values\nhistory 2\n1 1 1 CREATE TABLE p (s VARCHAR(2));\n2 1 2 INSERT INTO p VALUES ('äb');\n",
    ),
    (
        "CREATE TABLE u (k INT, v INT); CREATE TABLE w (k INT, n TEXT); INSERT INTO u VALUES (1, 10), (2, 20), (1, 30); INSERT INTO w VALUES (1, 'x'), (3, 'y'); SELECT w.n, SUM(u.v) FROM u JOIN w ON u.k = w.k GROUP BY w.n; SELECT k FROM u, w; SELECT v, COUNT(*) FROM u GROUP BY k;",
        "session 1 a.sql\n1 ok\n2 ok\n3 ok 3\n4 ok 2\n5 rows 1\nx,40\n6 refused 6 ambiguous column k\n7 refused 14 not grouped v\nhistory 4\n1 1 1 CREATE TABLE u (k INT, v INT);\n2 1 2 CREATE TABLE w (k INT, n TEXT);\n3 1 3 INSERT INTO u VALUES (1, 10), (2, 20), (1, 30);\n4 1 4 INSERT INTO w VALUES (1, 'x'), (3, 'y');\n",
    ),
    (
        "CREATE TABLE lineitem (l_orderkey BIGINT NOT NULL, l_quantity INTEGER NOT NULL, l_extendedprice BIGINT NOT NULL, l_discount INTEGER NOT NULL, l_shipdate DATE NOT NULL, l_comment VARCHAR(44));\nINSERT INTO lineitem VALUES (1, 17, 2116823, 4, DATE '1996-03-13', 'a'), (2, 20, 1000000, 6, DATE '1994-05-01', 'b'), (3, 23, 500000, 5, DATE '1994-12-31', 'c'), (4, 24, 700000, 6, DATE '1994-06-01', 'd');\nSELECT SUM(l_extendedprice * l_discount) AS revenue FROM lineitem WHERE l_shipdate >= DATE '1994-01-01' AND l_shipdate < DATE '1995-01-01' AND l_discount BETWEEN 5 AND 7 AND l_quantity < 24;\nSELECT l_discount, COUNT(*) FROM lineitem GROUP BY l_discount HAVING COUNT(*) >= 1 ORDER BY 2 DESC, 1 LIMIT 2;\nUPDATE lineitem SET l_quantity = l_quantity + 1 WHERE l_orderkey <> 1;\nDELETE FROM lineitem WHERE l_quantity IN (17, 25);\nSELECT l_orderkey, l_shipdate FROM lineitem;\n",
        "session 1 a.sql\n1 ok\n2 ok 4\n3 rows 1\n8500000\n4 rows 2\n6,2\n4,1\n5 ok 3\n6 ok 2\n7 rows 2\n2,1994-05-01\n3,1994-12-31\nhistory 4\n1 1 1 CREATE TABLE lineitem (l_orderkey INT NOT NULL, l_quantity INT NOT NULL, l_extendedprice INT NOT NULL, l_discount INT NOT NULL, l_shipdate DATE NOT NULL, l_comment VARCHAR(44));\n2 1 2 INSERT INTO lineitem VALUES (1, 17, 2116823, 4, DATE '1996-03-13', 'a'), (2, 20, 1000000, 6, DATE '1994-05-01', 'b'), (3, 23, 500000, 5, DATE '1994-12-31', 'c'), (4, 24, 700000, 6, DATE '1994-06-01', 'd');\n3 1 5 UPDATE lineitem SET l_quantity = l_quantity + 1 WHERE l_orderkey <> 1;\n4 1 6 DELETE FROM lineitem WHERE (l_quantity = 17) OR (l_quantity = 25);\n",
    ),
    (
        "CREATE TABLE t (a INT); INSERT INTO t VALUES (1); SELECT a FROM t WHERE a < 5; DROP TABLE t; CREATE TABLE t (a INT); INSERT INTO t VALUES (2); SELECT a FROM t WHERE a < 5;",
        "session 1 a.sql\n1 ok\n2 ok 1\n3 rows 1\n1\n4 ok\n5 ok\n6 ok 1\n7 rows 1\n2\nhistory 5\n1 1 1 CREATE TABLE t (a INT);\n2 1 2 INSERT INTO t VALUES (1);\n3 1 4 DROP TABLE t;\n4 1 5 CREATE TABLE t (a INT);\n5 1 6 INSERT INTO t VALUES (2);\n",
    ),
    (
        "CREATE TABLE t (a INT); EXPLAIN SELECT a FROM t; EXPLAIN SELECT b FROM t; EXPLAIN DROP TABLE t",
        "session 1 a.sql\n1 ok\n2 plan 8\nfunction user.main():void;\n    X_1 := sql.bind(\"t\", \"a\", \"int\");\n    X_2 := algebra.mirror(X_1);\n    X_3 := algebra.markT(X_2, 0@0);\n    X_4 := algebra.reverse(X_3);\n    X_5 := algebra.join(X_4, X_1);\n    sql.output(X_5);\nend user.main;\n3 refused 5 no such column b\n4 refused 1 syntax\nhistory 1\n1 1 1 CREATE TABLE t (a INT);\n",
    ),
    (EACH_CHANGE, EACH_CHANGE_SERVED),
];

#[test]
fn scripts_and_what_is_written(rt: HostRuntime) -> Result<(), Fail> {
    let alloc = rt.alloc();
    for (script, want) in SCRIPTS {
        let (status, at, text) = run(&rt, alloc, &["run", "a.sql"], script.as_bytes(), (0, 0))?;
        assert_eq!(rt; (status, at), (0, 0), "{script}");
        assert!(rt; text.as_slice().starts_with(want.as_bytes()), "{script}");
        assert!(rt;
            text.as_slice()[want.len()..].starts_with(b"pool\nentries "),
            "{script}"
        );
    }
    Ok(())
}

/// The text of a script of these statements.
fn script_of(alloc: Global, statements: &[Replied]) -> Result<Vec<u8>, Memory> {
    let mut script = Vec::new(alloc);
    for (statement, _) in statements {
        script.extend_from_slice(statement.as_bytes())?;
        script.extend_from_slice(b";\n")?;
    }
    Ok(script)
}

/// The output for the session of these statements, up to the history.
fn session_of(alloc: Global, statements: &[Replied]) -> Result<String, Memory> {
    let mut text = format!(in alloc; "session 1 a.sql\n")?;
    let mut number = 0u64;
    for (_, reply) in statements {
        number = number.saturating_add(1);
        let line = format!(in alloc; "{number} {reply}\n")?;
        text.push_str(line.as_str())?;
    }
    text.push_str("history ")?;
    Ok(text)
}

#[test]
fn each_statement_has_its_reply(rt: HostRuntime) -> Result<(), Fail> {
    let alloc = rt.alloc();
    let tables: [&[Replied]; 13] = [
        &replies::CHECKS,
        &replies::ANSWERS,
        &replies::EFFECTS,
        &replies::NO_ROWS,
        &replies::CONSTANT_OVERFLOW,
        &replies::TWO_SIDES,
        &replies::OVERLAPPING,
        &replies::CONTAINED,
        &replies::GROWN,
        &replies::LEFT_OUT,
        &replies::NULLS,
        &replies::ADDED_COLUMN,
        &replies::GUESTS,
    ];
    for statements in tables {
        let script = script_of(alloc, statements)?;
        let want = session_of(alloc, statements)?;
        let (status, _, text) = run(&rt, alloc, &["run", "a.sql"], script.as_slice(), (0, 0))?;
        assert_eq!(rt; status, 0);
        assert!(rt; text.as_slice().starts_with(want.as_bytes()), "{want}");
    }
    Ok(())
}

#[test]
fn words_have_their_status(rt: HostRuntime) -> Result<(), Fail> {
    let alloc = rt.alloc();
    let three = THREE.as_bytes();
    for (name, words, status, at) in [
        ("no words", "", 1, 0),
        ("files behind --", "run -- -", 2, 1),
        ("an option behind a file", "run a.sql -x", 1, 0),
        ("run alone", "run", 1, 0),
        ("a second file that isn't there", "run a.sql b.sql", 2, 2),
        ("an option", "run -a.sql", 1, 0),
        ("a missing file", "run b.sql", 2, 1),
        ("a replay without a script", "replay a.sql", 1, 0),
        ("a schedule that isn't there", "replay order a.sql", 2, 0),
        ("a script for a schedule", "replay a.sql a.sql", 7, 1),
        (
            "weights of no operator",
            "run --evict weighted --weights x=1 a.sql",
            1,
            0,
        ),
    ] {
        let words: Vec<&str> = words.split_whitespace().collect(alloc)?;
        let (got, about, text) = run(&rt, alloc, words.as_slice(), three, (0, 0))?;
        assert_eq!(rt; (got, about), (status, at), "{name}");
        assert_eq!(rt; text.len(), 0, "{name}");
    }
    Ok(())
}

#[test]
fn scripts_have_their_status(rt: HostRuntime) -> Result<(), Fail> {
    let alloc = rt.alloc();
    let longest = vec![in alloc; b' '; 1_048_576]?;
    let too_long = vec![in alloc; b' '; 1_048_577]?;
    let many = vec![in alloc; b'x'; 257]?;
    let mut many_pieces = Vec::new(alloc);
    for b in many {
        many_pieces.extend_from_slice(&[b, b';'])?;
    }
    let three = THREE.as_bytes();
    for (name, script, failing, status, at, written) in [
        ("a failing start", three, (1, 0), 2, 1, ""),
        ("a failing read", three, (2, 0), 2, 1, ""),
        ("a failing write", three, (0, 2), 3, 0, "session 1 "),
        (
            "the longest",
            longest.as_slice(),
            (0, 0),
            0,
            0,
            NOTHING_SERVED,
        ),
        ("too long", too_long.as_slice(), (0, 0), 4, 1, ""),
        ("no text", &[0xff], (0, 0), 6, 1, ""),
        ("257 statements", many_pieces.as_slice(), (0, 0), 4, 1, ""),
    ] {
        let (got, about, text) = run(&rt, alloc, &["run", "a.sql"], script, failing)?;
        assert_eq!(rt; (got, about), (status, at), "{name}");
        assert_eq!(rt; text.as_slice(), written.as_bytes(), "{name}");
    }
    let (status, at, text) = run(&rt, alloc, &["run", "a.sql", "b.sql"], &[0xff], (0, 0))?;
    assert_eq!(rt;
        (status, at),
        (6, 1),
        "an unfit file before one that isn't there"
    );
    assert_eq!(rt; text.len(), 0);
    Ok(())
}

#[test]
fn at_most_sixteen_files(rt: HostRuntime) -> Result<(), Fail> {
    let alloc = rt.alloc();
    let sixteen = [
        "run", "a.sql", "a.sql", "a.sql", "a.sql", "a.sql", "a.sql", "a.sql", "a.sql", "a.sql",
        "a.sql", "a.sql", "a.sql", "a.sql", "a.sql", "a.sql", "a.sql",
    ];
    let (status, _, text) = run(&rt, alloc, sixteen.as_slice(), b"", (0, 0))?;
    assert_eq!(rt; status, 0);
    let nothing = NOTHING_SERVED.len() - 16;
    assert_eq!(rt; text.len(), 9 * 16 + 7 * 17 + nothing);
    let seventeen = [
        "run", "a.sql", "a.sql", "a.sql", "a.sql", "a.sql", "a.sql", "a.sql", "a.sql", "a.sql",
        "a.sql", "a.sql", "a.sql", "a.sql", "a.sql", "a.sql", "a.sql", "a.sql",
    ];
    let (status, at, _) = run(&rt, alloc, seventeen.as_slice(), b"", (0, 0))?;
    assert_eq!(rt; (status, at), (1, 0));
    Ok(())
}
