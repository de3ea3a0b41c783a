//! The auditor's reader of texts. The wanted answers are those of an independent implementation
//! (`tools/oracle`).
use audit_read::{cut_script, read_text};
use cell_core::{Memory, word_of};
use sql_print::print_stmt;
use std::alloc::Global;
use std::test::Fail;

/// Texts with what they are answered with: a refusal's words, or the statement's canonical text.
const READ: [(&str, &str); 57] = [
    (
        "create  table T (A int,b BigInt not null, c varchar(3), d date, e text)",
        "CREATE TABLE t (a INT, b INT NOT NULL, c VARCHAR(3), d DATE, e TEXT)",
    ),
    (
        "SELECT \"A\", \"a\", \"sel\"\"ect\", \"select\" FROM \"T\"",
        "SELECT \"A\", a, \"sel\"\"ect\", \"select\" FROM \"T\"",
    ),
    (
        "SELECT a+b*c-d, (a+b)*c, -a, - 5, a - - 5, -(-a), - -5 FROM t x",
        "SELECT (a + (b * c)) - d, (a + b) * c, 0 - a, -5, a - -5, 0 - (0 - a), 0 - -5 FROM t AS x",
    ),
    (
        "SELECT DISTINCT t.a AS x, COUNT ( * ) y FROM t INNER JOIN u ON t.a=u.b, v WHERE a<5 AND b>6 OR NOT c BETWEEN 1 AND 2 GROUP BY t . a ORDER BY 1 ASC, x DESC LIMIT 007",
        "SELECT DISTINCT t.a AS x, COUNT(*) AS y FROM t, u, v WHERE t.a = u.b AND ((a < 5 AND b > 6) OR (NOT c BETWEEN 1 AND 2)) GROUP BY t.a ORDER BY 1, x DESC LIMIT 7",
    ),
    (
        "DELETE FROM t WHERE a NOT IN (1,2,3)",
        "DELETE FROM t WHERE NOT (((a = 1) OR (a = 2)) OR (a = 3))",
    ),
    (
        "DELETE FROM t WHERE a NOT BETWEEN 1 AND 2 AND s = 'it''s; -- x' -- ;\n",
        "DELETE FROM t WHERE (NOT a BETWEEN 1 AND 2) AND s = 'it''s; -- x'",
    ),
    (
        "UPDATE t SET a=-a+1, s='x' WHERE DATE '1994-01-01' <= d",
        "UPDATE t SET a = (0 - a) + 1, s = 'x' WHERE DATE '1994-01-01' <= d",
    ),
    (
        "SELECT ((a)) FROM t WHERE ((a) = (1)) AND ((b <> 2))",
        "SELECT a FROM t WHERE a = 1 AND b <> 2",
    ),
    (
        "explain select MIN(a) from t having count(*) > 1 or max(a) != -9223372036854775808",
        "EXPLAIN SELECT MIN(a) FROM t HAVING (COUNT(*) > 1) OR (MAX(a) <> -9223372036854775808)",
    ),
    (
        "INSERT INTO t (a, b) VALUES (- 1, 'x'), (2, DATE '1994-01-01')",
        "INSERT INTO t (a, b) VALUES (-1, 'x'), (2, DATE '1994-01-01')",
    ),
    ("SELECT/**/a--x\nFROM t", "SELECT a FROM t"),
    (
        "CREATE TABLE t (a INT not null default 7, b TEXT Default 'x' not null, c DATE default DATE '1994-01-01', d INT default null, e INT default null not null, f INT default - 3)",
        "CREATE TABLE t (a INT NOT NULL DEFAULT 7, b TEXT NOT NULL DEFAULT 'x', c DATE DEFAULT DATE '1994-01-01', d INT, e INT NOT NULL, f INT DEFAULT -3)",
    ),
    (
        "CREATE TABLE t (a INT DEFAULT -9223372036854775808)",
        "CREATE TABLE t (a INT DEFAULT -9223372036854775808)",
    ),
    (
        "alter table T add b VarChar(3) default 'x' not null",
        "ALTER TABLE t ADD COLUMN b VARCHAR(3) NOT NULL DEFAULT 'x'",
    ),
    (
        "ALTER TABLE t ADD COLUMN \"column\" DATE",
        "ALTER TABLE t ADD COLUMN \"column\" DATE",
    ),
    (
        "SELECT a FROM t WHERE a IS NULL and b is not null or not c is null",
        "SELECT a FROM t WHERE (a IS NULL AND (NOT b IS NULL)) OR (NOT c IS NULL)",
    ),
    (
        "SELECT a FROM t WHERE NOT a IS NOT NULL",
        "SELECT a FROM t WHERE NOT (NOT a IS NULL)",
    ),
    (
        "SELECT NULL, -NULL, NULL + 1 FROM t WHERE a IN (NULL, 1) AND a BETWEEN NULL AND 2",
        "SELECT NULL, 0 - NULL, NULL + 1 FROM t WHERE ((a = NULL) OR (a = 1)) AND a BETWEEN NULL AND 2",
    ),
    (
        "SELECT MAX(a) FROM t HAVING MAX(a) IS NULL OR SUM(a + 1) IS NOT NULL",
        "SELECT MAX(a) FROM t HAVING (MAX(a) IS NULL) OR (NOT SUM(a + 1) IS NULL)",
    ),
    ("SELECT a AS \"null\" FROM t", "SELECT a AS \"null\" FROM t"),
    (
        "INSERT INTO t VALUES (NULL, 1), (2, null)",
        "INSERT INTO t VALUES (NULL, 1), (2, NULL)",
    ),
    (
        "UPDATE t SET a = NULL, b = - null WHERE a IS NOT NULL",
        "UPDATE t SET a = NULL, b = 0 - NULL WHERE NOT a IS NULL",
    ),
    ("SELECT 1-/* */-2 FROM t", "SELECT 1 - -2 FROM t"),
    (
        "SELECT a FROM t WHERE b = '\u{e4}'",
        "SELECT a FROM t WHERE b = '\u{e4}'",
    ),
    ("", "syntax"),
    ("SELECT @", "syntax"),
    ("SELECT a FROM t /* x", "syntax"),
    ("FULL LEFT", "unsupported FULL"),
    ("EXPLAIN EXPLAIN SELECT a FROM t", "unsupported SUBQUERY"),
    ("SELECT a / b % c FROM t", "unsupported DIVISION"),
    ("SELECT a || b FROM t", "unsupported CONCAT"),
    ("SELECT t.* FROM t", "unsupported QUALIFIED STAR"),
    (
        "SELECT a FROM t WHERE a IN () AND b / 2 = 1",
        "unsupported DIVISION",
    ),
    ("SELECT", "syntax"),
    ("CREATE TABLE t ()", "syntax"),
    ("SELECT select FROM t", "unsupported SUBQUERY"),
    ("DROP TABLE 1.5", "unsupported DECIMAL"),
    ("INSERT INTO t VALUES (1 + 1)", "syntax"),
    (
        "SELECT 99999999999999999999",
        "unsupported SELECT WITHOUT FROM",
    ),
    (
        "SELECT a FROM t WHERE a + 1 < 99999999999999999999",
        "unsupported ARITHMETIC IN WHERE",
    ),
    (
        "SELECT a FROM t GROUP BY a HAVING SUM(a + 1) > 2 AND a + 1 > 2",
        "unsupported ARITHMETIC IN WHERE",
    ),
    (
        "SELECT a FROM t ORDER BY 99999999999999999999",
        "limit literal",
    ),
    ("CREATE TABLE t (a VARCHAR(0))", "limit length"),
    (
        "SELECT a, b FROM a, b, c, d, e LIMIT 9223372036854775808",
        "limit literal",
    ),
    (
        "CREATE TABLE t (a INT NOT NULL, b VARCHAR(3) NOT NULL NULL)",
        "syntax",
    ),
    (
        "CREATE TABLE t (a INT NOT NULL DEFAULT 1 NOT NULL)",
        "syntax",
    ),
    ("CREATE TABLE t (a INT DEFAULT)", "syntax"),
    (
        "ALTER TABLE t ADD COLUMN c INT NOT NULL DEFAULT -9223372036854775809",
        "limit literal",
    ),
    ("ALTER TABLE t ADD COLUMN column INT", "syntax"),
    ("ALTER TABLE t ADD c INT, d INT", "syntax"),
    ("SELECT a FROM t WHERE a IS NOT 1", "syntax"),
    ("SELECT a FROM t WHERE a IS NULL IS NULL", "syntax"),
    (
        "SELECT NULL FROM t WHERE 1 + 9223372036854775808 IS NULL",
        "limit literal",
    ),
    ("SELECT a FROM t LIMIT NULL", "syntax"),
    ("SELECT a FROM default", "syntax"),
    ("UPDATE t SET a = DEFAULT", "syntax"),
    ("SELECT \u{e4} FROM t", "syntax"),
];

/// What the auditor reads of a text, in words.
fn reread(alloc: Global, text: &str) -> Result<Vec<u8>, Memory> {
    let text = word_of(alloc, text)?;
    match read_text(alloc, &text)? {
        Ok(statement) => print_stmt(alloc, &statement),
        Err(refusal) => {
            let mut words = Vec::new(alloc);
            refusal.write_words(&mut words)?;
            Ok(words)
        }
    }
}

#[test]
fn the_auditor_reads_texts(rt: HostRuntime) -> Result<(), Fail> {
    let alloc = rt.alloc();
    for (text, want) in READ {
        let read = reread(alloc, text)?;
        assert_eq!(rt; read.as_slice(), want.as_bytes(), "{text}");
    }
    Ok(())
}

#[test]
fn the_auditor_cuts_scripts(rt: HostRuntime) -> Result<(), Fail> {
    let alloc = rt.alloc();
    for (script, count) in [
        ("", 0),
        (";;", 0),
        ("SELECT 1; -- no more", 1),
        ("a; ';' /* ; */ b; c", 3),
        ("\";\";", 1),
    ] {
        let pieces = cut_script(alloc, &word_of(alloc, script)?)?;
        assert_eq!(rt; pieces.len(), count, "{script}");
    }
    Ok(())
}
