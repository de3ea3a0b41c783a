use crate::{ParseError, SplitError, each_is_formed, one_reading, parse, split};
use cell_core::{Memory, word_of};
use sql_definitions::Refusal;
use sql_print::print_stmt;
use sql_tree::{Stmt, digits_of, printed_name, write_quoted};
use std::alloc::{AllocError, Global};
use std::fmt::Write;
use std::test::Fail;

/// Texts with what they are answered with: a refusal's words, or the statement's canonical text.
const TEXTS: [(&str, &str); 89] = [
    ("", "syntax"),
    ("-- nothing", "syntax"),
    ("SELECT @", "syntax"),
    ("SELECT 12a FROM t", "syntax"),
    ("SELECT a FROM t /* x", "syntax"),
    ("LEFT @", "syntax"),
    ("FULL LEFT", "unsupported FULL"),
    (
        "SELECT a FROM t WHERE a IN (SELECT 1) UNION",
        "unsupported SUBQUERY",
    ),
    ("EXPLAIN EXPLAIN SELECT a FROM t", "unsupported SUBQUERY"),
    ("select COUNT(distinct a) from t", "unsupported DISTINCT"),
    ("SELECT a / b % c FROM t", "unsupported DIVISION"),
    ("SELECT a % b / c FROM t", "unsupported MODULO"),
    ("SELECT a || b FROM t", "unsupported CONCAT"),
    ("SELECT t . 5 FROM t", "unsupported DECIMAL"),
    ("SELECT t.* FROM t", "unsupported QUALIFIED STAR"),
    ("DELETE FROM t WHERE \"f\"(a) = 1", "unsupported FUNCTION"),
    (
        "SELECT a FROM t WHERE a IN () AND b / 2 = 1",
        "unsupported DIVISION",
    ),
    ("SELECT a FROM t WHERE a IN ()", "syntax"),
    ("SELECT", "syntax"),
    ("SELECT DATE '1999-02-29' FROM t", "syntax"),
    ("CREATE TABLE t ()", "syntax"),
    ("SELECT a FROM t WHERE COUNT(*) = 1", "syntax"),
    ("SELECT select FROM t", "unsupported SUBQUERY"),
    ("CREATE TABLE order (a INT)", "syntax"),
    ("DROP TABLE 1.5", "unsupported DECIMAL"),
    ("SELECT a FROM t WHERE a LIKE 'x'", "unsupported LIKE"),
    ("INSERT INTO t VALUES (1 + 1)", "syntax"),
    ("SELECT a FROM t LIMIT -1", "syntax"),
    (
        "SELECT 99999999999999999999",
        "unsupported SELECT WITHOUT FROM",
    ),
    ("EXPLAIN SELECT *", "unsupported SELECT WITHOUT FROM"),
    (
        "SELECT a FROM t WHERE a + 1 < 99999999999999999999",
        "unsupported ARITHMETIC IN WHERE",
    ),
    (
        "DELETE FROM t WHERE NOT 2 > -a",
        "unsupported ARITHMETIC IN WHERE",
    ),
    (
        "SELECT a FROM t GROUP BY a HAVING SUM(a + 1) > 2 AND a + 1 > 2",
        "unsupported ARITHMETIC IN WHERE",
    ),
    ("SELECT a FROM t LIMIT 9223372036854775808", "limit literal"),
    (
        "SELECT a FROM t ORDER BY 99999999999999999999",
        "limit literal",
    ),
    ("SELECT -(9223372036854775808) FROM t", "limit literal"),
    ("CREATE TABLE t (a VARCHAR(0))", "limit length"),
    ("CREATE TABLE t (a VARCHAR(65536))", "limit length"),
    (
        "SELECT a, b FROM a, b, c, d, e LIMIT 9223372036854775808",
        "limit literal",
    ),
    (
        "create  table T (A int,b BigInt not null, c varchar(3), d date, e text)",
        "CREATE TABLE t (a INT, b INT NOT NULL, c VARCHAR(3), d DATE, e TEXT)",
    ),
    (
        "SELECT \"A\", \"a\", \"sel\"\"ect\", \"select\" FROM \"T\"",
        "SELECT \"A\", a, \"sel\"\"ect\", \"select\" FROM \"T\"",
    ),
    (
        "SELECT a+b*c-d, (a+b)*c, -a, - 5, a - - 5, -(-a), - -5 FROM t x",
        "SELECT (a + (b * c)) - d, (a + b) * c, 0 - a, -5, a - -5, 0 - (0 - a), 0 - -5 FROM t AS x",
    ),
    (
        "SELECT DISTINCT t.a AS x, COUNT ( * ) y FROM t INNER JOIN u ON t.a=u.b, v WHERE a<5 AND b>6 OR NOT c BETWEEN 1 AND 2 GROUP BY t . a ORDER BY 1 ASC, x DESC LIMIT 007",
        "SELECT DISTINCT t.a AS x, COUNT(*) AS y FROM t, u, v WHERE t.a = u.b AND ((a < 5 AND b > 6) OR (NOT c BETWEEN 1 AND 2)) GROUP BY t.a ORDER BY 1, x DESC LIMIT 7",
    ),
    (
        "DELETE FROM t WHERE a NOT IN (1,2,3)",
        "DELETE FROM t WHERE NOT (((a = 1) OR (a = 2)) OR (a = 3))",
    ),
    (
        "DELETE FROM t WHERE a NOT BETWEEN 1 AND 2 AND s = 'it''s; -- x' -- ;\n",
        "DELETE FROM t WHERE (NOT a BETWEEN 1 AND 2) AND s = 'it''s; -- x'",
    ),
    (
        "UPDATE t SET a=-a+1, s='x' WHERE DATE '1994-01-01' <= d",
        "UPDATE t SET a = (0 - a) + 1, s = 'x' WHERE DATE '1994-01-01' <= d",
    ),
    (
        "SELECT ((a)) FROM t WHERE ((a) = (1)) AND ((b <> 2))",
        "SELECT a FROM t WHERE a = 1 AND b <> 2",
    ),
    (
        "explain select MIN(a) from t having count(*) > 1 or max(a) != -9223372036854775808",
        "EXPLAIN SELECT MIN(a) FROM t HAVING (COUNT(*) > 1) OR (MAX(a) <> -9223372036854775808)",
    ),
    (
        "INSERT INTO t (a, b) VALUES (- 1, 'x'), (2, DATE '1994-01-01')",
        "INSERT INTO t (a, b) VALUES (-1, 'x'), (2, DATE '1994-01-01')",
    ),
    ("SELECT/**/a--x\nFROM t", "SELECT a FROM t"),
    ("CREATE TABLE t (a INT NULL)", "syntax"),
    (
        "CREATE TABLE t (a INT NOT NULL, b VARCHAR(3) NOT NULL NULL)",
        "syntax",
    ),
    (
        "CREATE TABLE t (a INT not null default 7, b TEXT Default 'x' not null, c DATE default DATE '1994-01-01', d INT default null, e INT default null not null, f INT default - 3)",
        "CREATE TABLE t (a INT NOT NULL DEFAULT 7, b TEXT NOT NULL DEFAULT 'x', c DATE DEFAULT DATE '1994-01-01', d INT, e INT NOT NULL, f INT DEFAULT -3)",
    ),
    ("CREATE TABLE t (a INT DEFAULT 1 DEFAULT 2)", "syntax"),
    (
        "CREATE TABLE t (a INT NOT NULL DEFAULT 1 NOT NULL)",
        "syntax",
    ),
    ("CREATE TABLE t (a INT DEFAULT 1 + 1)", "syntax"),
    ("CREATE TABLE t (a INT DEFAULT)", "syntax"),
    (
        "CREATE TABLE t (a VARCHAR(0) DEFAULT 9223372036854775808)",
        "limit literal",
    ),
    (
        "CREATE TABLE t (a INT DEFAULT -9223372036854775808)",
        "CREATE TABLE t (a INT DEFAULT -9223372036854775808)",
    ),
    (
        "alter table T add b VarChar(3) default 'x' not null",
        "ALTER TABLE t ADD COLUMN b VARCHAR(3) NOT NULL DEFAULT 'x'",
    ),
    (
        "ALTER TABLE t ADD COLUMN \"column\" DATE",
        "ALTER TABLE t ADD COLUMN \"column\" DATE",
    ),
    (
        "ALTER TABLE t ADD COLUMN c INT NOT NULL DEFAULT -9223372036854775809",
        "limit literal",
    ),
    ("ALTER TABLE t ADD c VARCHAR(65536)", "limit length"),
    ("ALTER TABLE t ADD COLUMN column INT", "syntax"),
    ("ALTER TABLE t c INT", "syntax"),
    ("ALTER TABLE t ADD c INT, d INT", "syntax"),
    ("ALTER TABLE f (a) ADD b INT", "syntax"),
    (
        "SELECT a FROM t WHERE a IS NULL and b is not null or not c is null",
        "SELECT a FROM t WHERE (a IS NULL AND (NOT b IS NULL)) OR (NOT c IS NULL)",
    ),
    (
        "SELECT a FROM t WHERE NOT a IS NOT NULL",
        "SELECT a FROM t WHERE NOT (NOT a IS NULL)",
    ),
    ("SELECT a FROM t WHERE a IS NOT 1", "syntax"),
    ("SELECT a FROM t WHERE a NOT NULL", "syntax"),
    ("SELECT a FROM t WHERE a IS NULL IS NULL", "syntax"),
    (
        "SELECT a FROM t WHERE a + 1 IS NULL",
        "unsupported ARITHMETIC IN WHERE",
    ),
    (
        "SELECT NULL, -NULL, NULL + 1 FROM t WHERE a IN (NULL, 1) AND a BETWEEN NULL AND 2",
        "SELECT NULL, 0 - NULL, NULL + 1 FROM t WHERE ((a = NULL) OR (a = 1)) AND a BETWEEN NULL AND 2",
    ),
    (
        "SELECT NULL FROM t WHERE 1 + 9223372036854775808 IS NULL",
        "limit literal",
    ),
    (
        "SELECT MAX(a) FROM t HAVING MAX(a) IS NULL OR SUM(a + 1) IS NOT NULL",
        "SELECT MAX(a) FROM t HAVING (MAX(a) IS NULL) OR (NOT SUM(a + 1) IS NULL)",
    ),
    ("SELECT a FROM t WHERE MAX(a) IS NULL", "syntax"),
    ("SELECT a FROM t LIMIT NULL", "syntax"),
    ("SELECT null null FROM t", "syntax"),
    ("SELECT a AS \"null\" FROM t", "SELECT a AS \"null\" FROM t"),
    ("SELECT a FROM default", "syntax"),
    (
        "INSERT INTO t VALUES (NULL, 1), (2, null)",
        "INSERT INTO t VALUES (NULL, 1), (2, NULL)",
    ),
    ("INSERT INTO t VALUES (-NULL)", "syntax"),
    (
        "UPDATE t SET a = NULL, b = - null WHERE a IS NOT NULL",
        "UPDATE t SET a = NULL, b = 0 - NULL WHERE NOT a IS NULL",
    ),
    ("UPDATE t SET a = DEFAULT", "syntax"),
    (
        "SELECT a FROM t WHERE f (NULL) IS NULL",
        "unsupported FUNCTION",
    ),
    ("SELECT 1-/* */-2 FROM t", "SELECT 1 - -2 FROM t"),
    (
        "SELECT a FROM t WHERE b = '\u{e4}'",
        "SELECT a FROM t WHERE b = '\u{e4}'",
    ),
    ("SELECT \u{e4} FROM t", "syntax"),
];

/// Texts in which a part is repeated so many times, and how what they are answered with begins.
const LONG: [(&str, &str, u32, &str, &str); 49] = [
    ("SELECT a", " ", 65_522, "FROM t", "SELECT "),
    ("SELECT a", " ", 65_523, "FROM t", "limit statement"),
    (
        "SELECT a FROM t LIMIT 9223372036854775807",
        "",
        0,
        "",
        "SELECT ",
    ),
    (
        "SELECT a FROM t LIMIT 9223372036854775808",
        "",
        0,
        "",
        "limit literal",
    ),
    ("CREATE TABLE t (a VARCHAR(65535))", "", 0, "", "CREATE "),
    (
        "CREATE TABLE t (a VARCHAR(65536))",
        "",
        0,
        "",
        "limit length",
    ),
    (
        "SELECT a FROM t HAVING COUNT(*) = 1",
        " OR COUNT(*) = 1",
        63,
        "",
        "SELECT ",
    ),
    ("SELECT a FROM t WHERE 1 = 1", " + 1", 31, "", "SELECT "),
    ("SELECT a", " + a", 31, " FROM t", "SELECT "),
    ("SELECT a", " + a", 32, " FROM t", "limit expression"),
    ("SELECT a FROM t WHERE ", "NOT ", 127, "a = 1", "SELECT "),
    (
        "SELECT a FROM t WHERE ",
        "NOT ",
        128,
        "a = 1",
        "limit conditions",
    ),
    (
        "SELECT a FROM t WHERE a = 1",
        " OR a = 1",
        63,
        "",
        "SELECT ",
    ),
    (
        "SELECT a FROM t WHERE a = 1",
        " AND a = 1",
        64,
        "",
        "limit conditions",
    ),
    (
        "SELECT a FROM t HAVING COUNT(*) = 1",
        " OR COUNT(*) = 1",
        64,
        "",
        "limit conditions",
    ),
    (
        "SELECT a FROM t WHERE 1 = 1",
        " + 1",
        32,
        "",
        "limit expression",
    ),
    (
        "SELECT a FROM t WHERE 1 = 1",
        " + 1",
        100,
        " + a",
        "unsupported ARITHMETIC IN WHERE",
    ),
    (
        "SELECT a FROM t WHERE a = 1",
        " OR a = 1",
        99,
        " OR a + 1 = 2",
        "unsupported ARITHMETIC IN WHERE",
    ),
    (
        "SELECT a",
        " + 1",
        99,
        " + 9223372036854775808 FROM t",
        "limit literal",
    ),
    (
        "DELETE FROM t WHERE a = 1",
        " OR a = 1",
        99,
        " OR a = 9223372036854775808",
        "limit literal",
    ),
    ("SELECT a", ", a", 31, " FROM t", "SELECT "),
    ("SELECT a", ", a", 32, " FROM t", "limit items"),
    ("SELECT a FROM t", ", t", 3, "", "SELECT "),
    ("SELECT a FROM t", ", t", 4, "", "limit tables"),
    ("SELECT a FROM t GROUP BY a", ", a", 7, "", "SELECT "),
    ("SELECT a FROM t GROUP BY a", ", a", 8, "", "limit groups"),
    ("SELECT a FROM t ORDER BY a", ", a", 7, "", "SELECT "),
    ("SELECT a FROM t ORDER BY a", ", a", 8, "", "limit keys"),
    ("CREATE TABLE t (a INT", ", a INT", 63, ")", "CREATE "),
    ("CREATE TABLE t (a INT", ", a INT", 64, ")", "limit columns"),
    ("DROP TABLE ", "a", 64, "", "DROP "),
    ("DROP TABLE ", "a", 65, "", "limit name"),
    ("SELECT ", "(", 512, "a", "syntax"),
    ("SELECT ", "(", 513, "a", "limit nesting"),
    ("SELECT ", "- ", 512, "a FROM t", "limit expression"),
    ("SELECT ", "- ", 513, "a FROM t", "limit nesting"),
    ("SELECT LIKE ", "- ", 513, "a FROM t", "unsupported LIKE"),
    (
        "SELECT a FROM t WHERE ",
        "NOT ",
        513,
        "a = 1",
        "limit nesting",
    ),
    (
        "SELECT a FROM t WHERE a IS NULL",
        " AND a IS NULL",
        63,
        "",
        "SELECT ",
    ),
    (
        "SELECT a FROM t WHERE a IS NULL",
        " AND a IS NULL",
        64,
        "",
        "limit conditions",
    ),
    (
        "SELECT a FROM t WHERE a = 1",
        " OR a IS NULL",
        100,
        " OR a + 1 IS NULL",
        "unsupported ARITHMETIC IN WHERE",
    ),
    (
        "SELECT a FROM t WHERE a = 1",
        " OR a IS NULL",
        100,
        " OR 9223372036854775808 IS NULL",
        "limit literal",
    ),
    ("SELECT NULL", " + NULL", 31, " FROM t", "SELECT "),
    ("SELECT NULL", " + NULL", 32, " FROM t", "limit expression"),
    (
        "SELECT a FROM t WHERE 1 = 1",
        " + NULL",
        99,
        " + 9223372036854775808",
        "limit literal",
    ),
    ("ALTER TABLE t ADD ", "a", 64, " INT", "ALTER "),
    ("ALTER TABLE t ADD ", "a", 65, " INT", "limit name"),
    (
        "SELECT a FROM t WHERE ",
        "NOT ",
        126,
        "a IS NOT NULL",
        "SELECT ",
    ),
    (
        "SELECT a FROM t WHERE ",
        "NOT ",
        127,
        "a IS NOT NULL",
        "limit conditions",
    ),
];

/// Scripts with their pieces, a `|` after each.
const SCRIPTS: [(&str, &str); 10] = [
    ("", ""),
    (" -- a;b\n;/* ; */", ""),
    ("a;", "a|"),
    (";;a b;; ;\n", "a b|"),
    ("a;';';\";\"", "a|';'|\";\"|"),
    ("'a'';b' ; c", "'a'';b' | c|"),
    ("a--;\nb;/*;*/c", "a--;\nb|/*;*/c|"),
    ("a;'b;c", "a|'b;c|"),
    ("a;/*/;b", "a|"),
    ("@;", "@|"),
];

/// What is printed of a refusal.
fn words(alloc: Global, refusal: &Refusal) -> Result<Vec<u8>, Memory> {
    let mut words = Vec::new(alloc);
    refusal.write_words(&mut words)?;
    Ok(words)
}

/// The canonical text of a statement, which is printed of a copy.
fn copied(alloc: Global, stmt: &Stmt) -> Result<Vec<u8>, Memory> {
    let copy = stmt.copy(alloc)?;
    print_stmt(alloc, &copy)
}

/// The words of a text's refusal, or its canonical text.
fn answer(alloc: Global, text: &str) -> Result<Vec<u8>, Memory> {
    let read = parse(alloc, text);
    match &read {
        Ok(stmt) => copied(alloc, stmt),
        Err(ParseError::Refused(refusal)) => words(alloc, refusal),
        Err(ParseError::Memory) => Err(Memory),
    }
}

/// A text in which a part is repeated so many times.
fn repeated(
    alloc: Global,
    before: &str,
    part: &str,
    times: u32,
    after: &str,
) -> Result<String, AllocError> {
    let mut text = String::from_str(alloc, before)?;
    for _ in 0..times {
        text.push_str(part)?;
    }
    text.push_str(after)?;
    Ok(text)
}

#[test]
fn texts_are_answered(rt: HostRuntime) -> Result<(), Fail> {
    one_reading();
    each_is_formed();
    let alloc = rt.alloc();
    for (text, want) in &TEXTS {
        let answer = answer(alloc, text)?;
        assert!(rt; answer.as_slice() == want.as_bytes(), "{text}");
    }
    Ok(())
}

#[test]
fn limits(rt: HostRuntime) -> Result<(), Fail> {
    let alloc = rt.alloc();
    for (before, part, times, after, want) in &LONG {
        let text = repeated(alloc, before, part, *times, after)?;
        let answer = answer(alloc, text.as_str())?;
        assert!(rt; answer.as_slice().starts_with(want.as_bytes()), "{text}");
    }
    Ok(())
}

#[test]
fn parentheses_are_levels(rt: HostRuntime) -> Result<(), Fail> {
    let alloc = rt.alloc();
    let text = repeated(alloc, "SELECT ", "(", 512, "a")?;
    let text = repeated(alloc, text.as_str(), ")", 512, " FROM t")?;
    let answer = answer(alloc, text.as_str())?;
    assert!(rt; answer.as_slice() == b"SELECT a FROM t".as_slice());
    Ok(())
}

#[test]
fn scripts_are_split(rt: HostRuntime) -> Result<(), Fail> {
    let alloc = rt.alloc();
    for (script, want) in &SCRIPTS {
        let mut found = String::new(alloc);
        for piece in split(alloc, script)?.iter() {
            write!(found, "{}|", piece.text())?;
        }
        assert_eq!(rt; found.as_str(), *want, "at {script}");
    }
    let most = "a;".repeat(alloc, 256)?;
    assert_eq!(rt; split(alloc, most.as_str())?.len(), 256);
    let more = format!(in alloc; "{}b", most.as_str())?;
    assert!(rt; matches!(split(alloc, more.as_str()), Err(SplitError::TooMany)));
    Ok(())
}

/// Names, with what is printed of them.
const NAMES: [(&str, &str); 5] = [
    ("a", "a"),
    ("a_1", "a_1"),
    ("A", "\"A\""),
    ("order", "\"order\""),
    ("a\"b", "\"a\"\"b\""),
];

#[test]
fn names_are_printed(rt: HostRuntime) -> Result<(), Fail> {
    let alloc = rt.alloc();
    for (name, want) in &NAMES {
        let printed = printed_name(alloc, &word_of(alloc, name)?)?;
        assert_eq!(rt; printed.text(), *want);
    }
    let mut quoted = Vec::new(alloc);
    write_quoted(b'\'', "it's", &mut quoted)?;
    assert!(rt; quoted.as_slice() == b"'it''s'".as_slice());
    Ok(())
}

#[test]
fn digits_are_kept(rt: HostRuntime) -> Result<(), Fail> {
    let alloc = rt.alloc();
    for (more, want) in [
        (b"".as_slice(), b"1".as_slice()),
        (b"20".as_slice(), b"120".as_slice()),
        (
            b"2345678901234567890".as_slice(),
            b"12345678901234567890".as_slice(),
        ),
        (
            b"23456789012345678901".as_slice(),
            b"123456789012345678901".as_slice(),
        ),
    ] {
        assert!(rt; digits_of(alloc, b'1', more)?.bytes() == want);
    }
    Ok(())
}
