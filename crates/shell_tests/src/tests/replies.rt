//! Scripts, each statement with its reply. The replies are those of an independent implementation,
//! which was written from the same rules in Python: put the statements of a table into a file, each
//! with a `;`, and run `tools/oracle/recycle --no-pool run FILE`.

/// A statement, and its reply without the number before it.
pub type Replied = (&'static str, &'static str);

/// Statements that the check refuses.
pub const CHECKS: [Replied; 73] = [
    ("CREATE TABLE t (a INT, b INT, c VARCHAR(3))", "ok"),
    ("CREATE TABLE u (a INT, d DATE)", "ok"),
    ("CREATE TABLE t (x INT, x INT)", "refused 4 table exists t"),
    (
        "CREATE TABLE w (x INT, y INT, y INT, x INT)",
        "refused 12 name twice y",
    ),
    ("DROP TABLE w", "refused 3 no such table w"),
    ("SELECT a FROM w", "refused 3 no such table w"),
    ("SELECT x FROM t, w", "refused 3 no such table w"),
    ("SELECT z FROM t", "refused 5 no such column z"),
    ("SELECT z, a FROM t, u", "refused 5 no such column z"),
    ("SELECT a, z FROM t, u", "refused 6 ambiguous column a"),
    (
        "SELECT b FROM t x, t y WHERE x.z = 1",
        "refused 6 ambiguous column b",
    ),
    (
        "SELECT d FROM t, u WHERE z = 1 AND a = 1",
        "refused 5 no such column z",
    ),
    (
        "SELECT d FROM t, u WHERE a = 1 AND z = 1",
        "refused 6 ambiguous column a",
    ),
    ("SELECT x.b FROM t x, u x", "refused 12 name twice x"),
    ("SELECT z FROM t x, u x", "refused 12 name twice x"),
    ("SELECT t.b FROM t x", "refused 5 no such column b"),
    ("SELECT b FROM t GROUP BY z", "refused 5 no such column z"),
    ("SELECT c + 1, z FROM t", "refused 5 no such column z"),
    ("SELECT c + 1 FROM t", "refused 7 kinds differ"),
    ("SELECT -c FROM t", "refused 7 kinds differ"),
    ("SELECT SUM(c) FROM t", "refused 7 kinds differ"),
    ("SELECT b FROM t WHERE c = 1", "refused 7 kinds differ"),
    (
        "SELECT b FROM t WHERE b BETWEEN 1 AND 'x'",
        "refused 7 kinds differ",
    ),
    (
        "SELECT b FROM t WHERE c BETWEEN 'a' AND 'b' OR d = DATE '2000-01-01'",
        "refused 5 no such column d",
    ),
    (
        "SELECT b FROM t HAVING SUM(b) > 1",
        "refused 14 not grouped b",
    ),
    (
        "SELECT b, SUM(a) FROM t GROUP BY a",
        "refused 14 not grouped b",
    ),
    (
        "SELECT a, b + 1 FROM t GROUP BY a",
        "refused 14 not grouped b",
    ),
    ("SELECT c + 1 FROM t GROUP BY a", "refused 14 not grouped c"),
    ("SELECT c + 1 FROM t GROUP BY c", "refused 7 kinds differ"),
    (
        "SELECT a FROM t GROUP BY a HAVING c = 1",
        "refused 14 not grouped c",
    ),
    (
        "SELECT COUNT(*) FROM t HAVING MIN(c) > 1",
        "refused 7 kinds differ",
    ),
    (
        "SELECT a FROM t GROUP BY t.a ORDER BY b",
        "refused 5 no such column b",
    ),
    ("SELECT a FROM t ORDER BY b", "refused 5 no such column b"),
    (
        "SELECT a AS b FROM t ORDER BY t.b",
        "refused 5 no such column b",
    ),
    ("SELECT a FROM t ORDER BY 2", "refused 5 no such column 2"),
    (
        "SELECT a FROM t ORDER BY 1, 0",
        "refused 5 no such column 0",
    ),
    (
        "SELECT b FROM t, u ORDER BY a",
        "refused 6 ambiguous column a",
    ),
    (
        "SELECT * FROM t, u ORDER BY 6",
        "refused 5 no such column 6",
    ),
    ("SELECT * FROM t GROUP BY a, b", "refused 14 not grouped c"),
    ("EXPLAIN SELECT z FROM t", "refused 5 no such column z"),
    ("INSERT INTO w VALUES (1)", "refused 3 no such table w"),
    (
        "INSERT INTO t VALUES (1, 2, 'x'), (1, 2)",
        "refused 8 wrong number of values",
    ),
    (
        "INSERT INTO t VALUES (1, 2, 'x', 4)",
        "refused 8 wrong number of values",
    ),
    ("INSERT INTO t (c, b) VALUES ('x', 2)", "ok 1"),
    (
        "INSERT INTO t (z, a, a) VALUES ('x', 2)",
        "refused 5 no such column z",
    ),
    (
        "INSERT INTO t (b, b, z) VALUES (1)",
        "refused 5 no such column z",
    ),
    (
        "INSERT INTO t (a, b, b, a) VALUES ('x')",
        "refused 12 name twice b",
    ),
    (
        "INSERT INTO t VALUES ('x', 2), (1, 2, 'x')",
        "refused 8 wrong number of values",
    ),
    (
        "INSERT INTO t VALUES (1, 2, 'x'), (1, 2, 3)",
        "refused 7 kinds differ",
    ),
    (
        "INSERT INTO u VALUES (1, '2000-01-01')",
        "refused 7 kinds differ",
    ),
    ("DELETE FROM w WHERE z = 1", "refused 3 no such table w"),
    (
        "DELETE FROM t WHERE z = 1 OR c = 1",
        "refused 5 no such column z",
    ),
    (
        "DELETE FROM t WHERE c = 1 OR z = 1",
        "refused 5 no such column z",
    ),
    ("DELETE FROM t WHERE c = 1", "refused 7 kinds differ"),
    (
        "DELETE FROM t WHERE t.c = 'x' AND u.a = 1",
        "refused 5 no such column a",
    ),
    ("UPDATE w SET a = 1", "refused 3 no such table w"),
    (
        "UPDATE t SET z = y, a = 1, a = 2",
        "refused 5 no such column z",
    ),
    ("UPDATE t SET a = y, z = 1", "refused 5 no such column z"),
    (
        "UPDATE t SET a = b, a = c WHERE z = 1",
        "refused 5 no such column z",
    ),
    (
        "UPDATE t SET a = b, b = c, a = 1",
        "refused 12 name twice a",
    ),
    ("UPDATE t SET a = b, b = c", "refused 7 kinds differ"),
    ("UPDATE t SET a = b WHERE c > 1", "refused 7 kinds differ"),
    (
        "SELECT MIN(c), MAX(d), COUNT(c) FROM t, u",
        "rows 1\n\\N,\\N,0",
    ),
    (
        "SELECT b FROM t, u WHERE c BETWEEN 'a' AND 'b' OR d = DATE '2000-01-01'",
        "rows 0",
    ),
    ("SELECT SUM(b) FROM t HAVING SUM(b) > 1", "rows 1\n2"),
    ("SELECT a AS b FROM t ORDER BY b", "rows 1\n\\N"),
    ("SELECT * FROM t, u ORDER BY 5, d DESC", "rows 0"),
    ("SELECT * FROM t GROUP BY a, b, c", "rows 1\n\\N,2,x"),
    ("CREATE TABLE w (x INT, y TEXT)", "ok"),
    ("INSERT INTO t (c, b, a) VALUES ('x', 2, 1)", "ok 1"),
    ("INSERT INTO u VALUES (1, DATE '2000-01-01')", "ok 1"),
    ("DELETE FROM t", "ok 2"),
    ("DROP TABLE t", "ok"),
];

/// Queries.
pub const ANSWERS: [Replied; 67] = [
    ("CREATE TABLE t (a INT, b INT)", "ok"),
    (
        "INSERT INTO t VALUES (1, 10), (2, 20), (1, 10), (3, 30)",
        "ok 4",
    ),
    ("CREATE TABLE u (a INT, c TEXT)", "ok"),
    ("INSERT INTO u VALUES (1, 'x'), (2, 'yy'), (2, 'x')", "ok 3"),
    ("CREATE TABLE e (a INT, c TEXT)", "ok"),
    ("CREATE TABLE l (n INT)", "ok"),
    (
        "INSERT INTO l VALUES (3037000500), (2), (-9223372036854775808)",
        "ok 3",
    ),
    ("SELECT * FROM t", "rows 4\n1,10\n1,10\n2,20\n3,30"),
    ("SELECT b, a FROM t", "rows 4\n10,1\n10,1\n20,2\n30,3"),
    ("SELECT a FROM t WHERE b > 15", "rows 2\n2\n3"),
    ("SELECT a FROM t WHERE NOT b > 15", "rows 2\n1\n1"),
    ("SELECT a FROM t WHERE b > 15 OR a = 2", "rows 2\n2\n3"),
    (
        "SELECT a, b FROM t WHERE b > 15 AND NOT a = 2",
        "rows 1\n3,30",
    ),
    (
        "SELECT a, b FROM t WHERE NOT (a = 2 AND b = 20)",
        "rows 3\n1,10\n1,10\n3,30",
    ),
    (
        "SELECT a, b FROM t WHERE NOT (a <> 2 OR b < 5)",
        "rows 1\n2,20",
    ),
    (
        "SELECT a, b FROM t WHERE b BETWEEN 10 AND 20",
        "rows 3\n1,10\n1,10\n2,20",
    ),
    (
        "SELECT a, b FROM t WHERE NOT b BETWEEN 10 AND 20",
        "rows 1\n3,30",
    ),
    ("SELECT a, b FROM t WHERE a BETWEEN 3 AND 1", "rows 0"),
    (
        "SELECT a, b FROM t WHERE a = a",
        "rows 4\n1,10\n1,10\n2,20\n3,30",
    ),
    (
        "SELECT a, b FROM t WHERE a >= 2 OR b <= 10",
        "rows 4\n1,10\n1,10\n2,20\n3,30",
    ),
    (
        "SELECT a + b, a - b, a * b FROM t",
        "rows 4\n11,-9,10\n11,-9,10\n22,-18,40\n33,-27,90",
    ),
    (
        "SELECT COUNT(*), COUNT(a), COUNT(b) FROM t",
        "rows 1\n4,4,4",
    ),
    ("SELECT SUM(a), MIN(b), MAX(b) FROM t", "rows 1\n7,10,30"),
    (
        "SELECT SUM(b), MIN(b), MAX(b), COUNT(b), COUNT(*) FROM t WHERE a = 7",
        "rows 1\n\\N,\\N,\\N,0,0",
    ),
    (
        "SELECT SUM(b) FROM t WHERE NOT a = 1 AND b > 40",
        "rows 1\n\\N",
    ),
    (
        "SELECT a, COUNT(*), SUM(b) FROM t GROUP BY a",
        "rows 3\n1,2,20\n2,1,20\n3,1,30",
    ),
    (
        "SELECT b, COUNT(a) FROM t GROUP BY b",
        "rows 3\n10,2\n20,1\n30,1",
    ),
    ("SELECT SUM(b) FROM t GROUP BY a, b", "rows 3\n20\n20\n30"),
    ("SELECT a FROM t WHERE a = 7 GROUP BY a", "rows 0"),
    (
        "SELECT a, SUM(b) FROM t GROUP BY a HAVING SUM(b) > 15",
        "rows 3\n1,20\n2,20\n3,30",
    ),
    (
        "SELECT a, SUM(b) FROM t GROUP BY a HAVING NOT SUM(b) > 25",
        "rows 2\n1,20\n2,20",
    ),
    (
        "SELECT a FROM t GROUP BY a HAVING COUNT(*) = 2 AND a < 2",
        "rows 1\n1",
    ),
    ("SELECT COUNT(*) FROM t HAVING COUNT(*) > 6", "rows 0"),
    ("SELECT COUNT(*) FROM t HAVING COUNT(*) = 6", "rows 0"),
    ("SELECT 1 FROM e HAVING COUNT(*) = 0", "rows 1\n1"),
    (
        "SELECT MIN(c), MAX(c), SUM(a), COUNT(a) FROM e",
        "rows 1\n\\N,\\N,\\N,0",
    ),
    ("SELECT DISTINCT a FROM t", "rows 3\n1\n2\n3"),
    ("SELECT DISTINCT a, b FROM t", "rows 3\n1,10\n2,20\n3,30"),
    (
        "SELECT DISTINCT b FROM t ORDER BY b DESC",
        "rows 3\n30\n20\n10",
    ),
    (
        "SELECT a, b FROM t ORDER BY a DESC",
        "rows 4\n3,30\n2,20\n1,10\n1,10",
    ),
    (
        "SELECT a, b FROM t ORDER BY b DESC, a",
        "rows 4\n3,30\n2,20\n1,10\n1,10",
    ),
    (
        "SELECT b AS a, a AS z FROM t ORDER BY a DESC",
        "rows 4\n30,3\n20,2\n10,1\n10,1",
    ),
    (
        "SELECT b AS a, a AS z FROM t ORDER BY t.a DESC, 1",
        "rows 4\n30,3\n20,2\n10,1\n10,1",
    ),
    (
        "SELECT b, a FROM t ORDER BY 2 DESC, 1 DESC",
        "rows 4\n30,3\n20,2\n10,1\n10,1",
    ),
    ("SELECT a, b FROM t LIMIT 0", "rows 0"),
    ("SELECT a, b FROM t LIMIT 1", "rows 1\n1,10"),
    (
        "SELECT a, b FROM t ORDER BY b DESC LIMIT 2",
        "rows 2\n3,30\n2,20",
    ),
    (
        "SELECT DISTINCT a FROM t ORDER BY a LIMIT 7",
        "rows 3\n1\n2\n3",
    ),
    (
        "SELECT t.a, b, c FROM t, u WHERE t.a = u.a",
        "rows 4\n1,10,x\n1,10,x\n2,20,x\n2,20,yy",
    ),
    (
        "SELECT x.a, y.a FROM u x, u y WHERE x.c = y.c",
        "rows 5\n1,1\n1,2\n2,1\n2,2\n2,2",
    ),
    (
        "SELECT x.c, y.c FROM u x JOIN u y ON x.a < y.a",
        "rows 2\nx,x\nx,yy",
    ),
    ("SELECT u.a, e.a FROM u, e", "rows 0"),
    (
        "SELECT c, COUNT(*), MIN(b) FROM t, u WHERE t.a = u.a GROUP BY c",
        "rows 2\nx,3,10\nyy,1,20",
    ),
    ("SELECT MIN(c), MAX(c) FROM u", "rows 1\nx,yy"),
    (
        "SELECT 5, 'q', DATE '1970-01-02' FROM u WHERE a = 1",
        "rows 1\n5,q,1970-01-02",
    ),
    (
        "SELECT n FROM l",
        "rows 3\n-9223372036854775808\n2\n3037000500",
    ),
    ("SELECT n * n FROM l WHERE n < 10 AND n > 0", "rows 1\n4"),
    ("SELECT n * n FROM l WHERE n > 0", "refused 10 overflow"),
    ("SELECT -n FROM l WHERE n < 0", "refused 10 overflow"),
    (
        "SELECT 1 FROM l WHERE n > 9223372036854775807 + 1",
        "refused 10 overflow",
    ),
    (
        "SELECT 9223372036854775807 + 1 FROM e",
        "refused 10 overflow",
    ),
    ("SELECT SUM(n * n) FROM l", "refused 10 overflow"),
    ("SELECT SUM(n) FROM l", "rows 1\n-9223372033817775306"),
    (
        "SELECT n FROM l HAVING SUM(n) > 1",
        "refused 14 not grouped n",
    ),
    (
        "SELECT COUNT(*) FROM l HAVING SUM(n - 1) > 0",
        "refused 10 overflow",
    ),
    (
        "SELECT COUNT(*) FROM l WHERE n > 0 HAVING SUM(n - 1) > 0",
        "rows 1\n2",
    ),
    ("SELECT COUNT(*) FROM t HAVING COUNT(*) = 4", "rows 1\n4"),
];

/// Changes, and queries that show the tables after them.
pub const EFFECTS: [Replied; 106] = [
    ("CREATE TABLE t (a INT, b INT, c VARCHAR(3))", "ok"),
    ("INSERT INTO t VALUES (1, 10, 'x'), (2, 20, 'yyy')", "ok 2"),
    ("CREATE TABLE l (n INT)", "ok"),
    ("INSERT INTO l VALUES (9223372036854775807), (1)", "ok 2"),
    ("CREATE TABLE w (x INT, y DATE)", "ok"),
    ("SELECT * FROM w", "rows 0"),
    ("DROP TABLE w", "ok"),
    ("CREATE TABLE t (x INT)", "refused 4 table exists t"),
    ("SELECT * FROM t", "rows 2\n1,10,x\n2,20,yyy"),
    ("DROP TABLE t", "ok"),
    ("SELECT * FROM t", "refused 3 no such table t"),
    ("CREATE TABLE t (a INT, b INT, c VARCHAR(3))", "ok"),
    ("INSERT INTO t VALUES (1, 10, 'x'), (2, 20, 'yyy')", "ok 2"),
    ("SELECT * FROM t", "rows 2\n1,10,x\n2,20,yyy"),
    ("DROP TABLE w", "refused 3 no such table w"),
    ("SELECT * FROM w", "refused 3 no such table w"),
    ("INSERT INTO l VALUES (7), (8)", "ok 2"),
    ("SELECT * FROM l", "rows 4\n1\n7\n8\n9223372036854775807"),
    ("DELETE FROM l", "ok 4"),
    ("INSERT INTO l VALUES (9223372036854775807), (1)", "ok 2"),
    (
        "INSERT INTO t (c, a, b) VALUES ('q', 5, 6), ('r', 7, 8)",
        "ok 2",
    ),
    ("SELECT * FROM t", "rows 4\n1,10,x\n2,20,yyy\n5,6,q\n7,8,r"),
    ("DELETE FROM t", "ok 4"),
    ("INSERT INTO t VALUES (1, 10, 'x'), (2, 20, 'yyy')", "ok 2"),
    (
        "INSERT INTO t VALUES (5, 6, 'four'), (7, 8, 'r')",
        "refused 9 text too long",
    ),
    ("SELECT * FROM t", "rows 2\n1,10,x\n2,20,yyy"),
    (
        "INSERT INTO t VALUES (5, 6, 'two'), (7, 8, 'four')",
        "refused 9 text too long",
    ),
    ("SELECT * FROM t", "rows 2\n1,10,x\n2,20,yyy"),
    ("INSERT INTO t VALUES (5, 6, 'äöü')", "ok 1"),
    ("SELECT * FROM t", "rows 3\n1,10,x\n2,20,yyy\n5,6,äöü"),
    ("DELETE FROM t", "ok 3"),
    ("INSERT INTO t VALUES (1, 10, 'x'), (2, 20, 'yyy')", "ok 2"),
    (
        "INSERT INTO t (c, b, a) VALUES ('four', 6, 5)",
        "refused 9 text too long",
    ),
    ("SELECT * FROM t", "rows 2\n1,10,x\n2,20,yyy"),
    ("DELETE FROM t", "ok 2"),
    ("SELECT * FROM t", "rows 0"),
    ("DELETE FROM t", "ok 0"),
    ("INSERT INTO t VALUES (1, 10, 'x'), (2, 20, 'yyy')", "ok 2"),
    ("DELETE FROM t WHERE b > 15", "ok 1"),
    ("SELECT * FROM t", "rows 1\n1,10,x"),
    ("DELETE FROM t", "ok 1"),
    ("INSERT INTO t VALUES (1, 10, 'x'), (2, 20, 'yyy')", "ok 2"),
    ("DELETE FROM t WHERE NOT b > 15", "ok 1"),
    ("SELECT * FROM t", "rows 1\n2,20,yyy"),
    ("DELETE FROM t", "ok 1"),
    ("INSERT INTO t VALUES (1, 10, 'x'), (2, 20, 'yyy')", "ok 2"),
    ("DELETE FROM t WHERE b > 15 OR a = 1", "ok 2"),
    ("SELECT * FROM t", "rows 0"),
    ("DELETE FROM t", "ok 0"),
    ("INSERT INTO t VALUES (1, 10, 'x'), (2, 20, 'yyy')", "ok 2"),
    ("DELETE FROM t WHERE a = 7", "ok 0"),
    ("SELECT * FROM t", "rows 2\n1,10,x\n2,20,yyy"),
    ("DELETE FROM t WHERE c = 'x' AND b = 10", "ok 1"),
    ("SELECT * FROM t", "rows 1\n2,20,yyy"),
    ("DELETE FROM t", "ok 1"),
    ("INSERT INTO t VALUES (1, 10, 'x'), (2, 20, 'yyy')", "ok 2"),
    (
        "DELETE FROM l WHERE 9223372036854775807 + 1 > n",
        "refused 10 overflow",
    ),
    ("SELECT * FROM l", "rows 2\n1\n9223372036854775807"),
    ("DELETE FROM l WHERE n = 1", "ok 1"),
    ("SELECT * FROM l", "rows 1\n9223372036854775807"),
    ("DELETE FROM l", "ok 1"),
    ("INSERT INTO l VALUES (9223372036854775807), (1)", "ok 2"),
    ("DELETE FROM w", "refused 3 no such table w"),
    ("SELECT * FROM w", "refused 3 no such table w"),
    ("UPDATE t SET a = b, b = a", "ok 2"),
    ("SELECT * FROM t", "rows 2\n10,1,x\n20,2,yyy"),
    ("DELETE FROM t", "ok 2"),
    ("INSERT INTO t VALUES (1, 10, 'x'), (2, 20, 'yyy')", "ok 2"),
    ("UPDATE t SET a = a + 1 WHERE a > 1", "ok 1"),
    ("SELECT * FROM t", "rows 2\n1,10,x\n3,20,yyy"),
    ("DELETE FROM t", "ok 2"),
    ("INSERT INTO t VALUES (1, 10, 'x'), (2, 20, 'yyy')", "ok 2"),
    ("UPDATE t SET b = 0 WHERE NOT b = 10", "ok 1"),
    ("SELECT * FROM t", "rows 2\n1,10,x\n2,0,yyy"),
    ("DELETE FROM t", "ok 2"),
    ("INSERT INTO t VALUES (1, 10, 'x'), (2, 20, 'yyy')", "ok 2"),
    (
        "UPDATE t SET c = 'new', a = 9 WHERE b = 20 OR a = 3",
        "ok 1",
    ),
    ("SELECT * FROM t", "rows 2\n1,10,x\n9,20,new"),
    ("DELETE FROM t", "ok 2"),
    ("INSERT INTO t VALUES (1, 10, 'x'), (2, 20, 'yyy')", "ok 2"),
    ("UPDATE t SET c = 'four' WHERE a = 7", "ok 0"),
    ("SELECT * FROM t", "rows 2\n1,10,x\n2,20,yyy"),
    (
        "UPDATE t SET c = 'four' WHERE a = 1",
        "refused 9 text too long",
    ),
    ("SELECT * FROM t", "rows 2\n1,10,x\n2,20,yyy"),
    (
        "UPDATE t SET c = 'four', a = 9223372036854775807 + 1 WHERE a = 1",
        "refused 9 text too long",
    ),
    ("SELECT * FROM t", "rows 2\n1,10,x\n2,20,yyy"),
    (
        "UPDATE t SET c = 'four', a = 9223372036854775807 + 1 WHERE a = 7",
        "refused 10 overflow",
    ),
    ("SELECT * FROM t", "rows 2\n1,10,x\n2,20,yyy"),
    (
        "UPDATE t SET c = 'four' WHERE 9223372036854775807 + 1 > a",
        "refused 10 overflow",
    ),
    ("SELECT * FROM t", "rows 2\n1,10,x\n2,20,yyy"),
    ("UPDATE l SET n = n + 1", "refused 10 overflow"),
    ("SELECT * FROM l", "rows 2\n1\n9223372036854775807"),
    ("UPDATE l SET n = n + 1 WHERE n < 5", "ok 1"),
    ("SELECT * FROM l", "rows 2\n2\n9223372036854775807"),
    ("DELETE FROM l", "ok 2"),
    ("INSERT INTO l VALUES (9223372036854775807), (1)", "ok 2"),
    ("UPDATE l SET n = 0 - n", "ok 2"),
    ("SELECT * FROM l", "rows 2\n-9223372036854775807\n-1"),
    ("DELETE FROM l", "ok 2"),
    ("INSERT INTO l VALUES (9223372036854775807), (1)", "ok 2"),
    ("UPDATE l SET n = n * 2 WHERE n = 7", "ok 0"),
    ("SELECT * FROM l", "rows 2\n1\n9223372036854775807"),
    ("UPDATE t SET b = b + a", "ok 2"),
    ("SELECT * FROM t", "rows 2\n1,11,x\n2,22,yyy"),
    ("DELETE FROM t", "ok 2"),
    ("INSERT INTO t VALUES (1, 10, 'x'), (2, 20, 'yyy')", "ok 2"),
];

/// Aggregates of a table without rows.
pub const NO_ROWS: [Replied; 2] = [
    ("CREATE TABLE t (a INT)", "ok"),
    (
        "SELECT SUM(a), MIN(a), COUNT(*) FROM t",
        "rows 1\n\\N,\\N,0",
    ),
];

/// A sum of constants that leaves 64 bits, with any rows.
pub const CONSTANT_OVERFLOW: [Replied; 2] = [
    ("CREATE TABLE t (a INT)", "ok"),
    (
        "SELECT a + (9223372036854775807 + 1) FROM t",
        "refused 10 overflow",
    ),
];

/// Ranges on both sides of a value, and one over both.
pub const TWO_SIDES: [Replied; 5] = [
    ("CREATE TABLE t (a INT)", "ok"),
    ("INSERT INTO t VALUES (4), (5), (6)", "ok 3"),
    ("SELECT a FROM t WHERE a < 5", "rows 1\n4"),
    ("SELECT a FROM t WHERE a > 5", "rows 1\n6"),
    ("SELECT a FROM t WHERE a BETWEEN 4 AND 6", "rows 3\n4\n5\n6"),
];

/// Ranges that overlap, over values that repeat.
pub const OVERLAPPING: [Replied; 5] = [
    ("CREATE TABLE t (a INT)", "ok"),
    ("INSERT INTO t VALUES (5), (1), (8), (5), (9), (3)", "ok 6"),
    (
        "SELECT a FROM t WHERE a BETWEEN 1 AND 6",
        "rows 4\n1\n3\n5\n5",
    ),
    (
        "SELECT a FROM t WHERE a BETWEEN 4 AND 9",
        "rows 4\n5\n5\n8\n9",
    ),
    (
        "SELECT a FROM t WHERE a BETWEEN 2 AND 8",
        "rows 4\n3\n5\n5\n8",
    ),
];

/// A range that lies in an earlier one.
pub const CONTAINED: [Replied; 4] = [
    ("CREATE TABLE t (a INT)", "ok"),
    ("INSERT INTO t VALUES (1), (4), (6)", "ok 3"),
    ("SELECT a FROM t WHERE a < 5", "rows 2\n1\n4"),
    ("SELECT a FROM t WHERE a < 3", "rows 1\n1"),
];

/// The same range before and after an INSERT.
pub const GROWN: [Replied; 5] = [
    ("CREATE TABLE t (a INT)", "ok"),
    ("INSERT INTO t VALUES (3), (1), (2)", "ok 3"),
    ("SELECT a FROM t WHERE a BETWEEN 2 AND 3", "rows 2\n2\n3"),
    ("INSERT INTO t VALUES (2)", "ok 1"),
    ("SELECT a FROM t WHERE a BETWEEN 2 AND 3", "rows 3\n2\n2\n3"),
];

/// A refusal of what the language leaves out stops nothing.
pub const LEFT_OUT: [Replied; 4] = [
    ("CREATE TABLE t (a INT)", "ok"),
    ("INSERT INTO t VALUES (1)", "ok 1"),
    (
        "SELECT t.a FROM t LEFT JOIN u ON t.a = u.a",
        "refused 2 unsupported LEFT",
    ),
    ("INSERT INTO t VALUES (2)", "ok 1"),
];

/// NULL in columns.
pub const NULLS: [Replied; 8] = [
    ("CREATE TABLE n (a INT, b INT NOT NULL)", "ok"),
    ("INSERT INTO n VALUES (NULL, 1), (2, 2)", "ok 2"),
    (
        "INSERT INTO n (a) VALUES (3)",
        "refused 13 null in not null column",
    ),
    ("SELECT a, b FROM n", "rows 2\n\\N,1\n2,2"),
    (
        "SELECT COUNT(*), COUNT(a), SUM(a) FROM n WHERE a IS NULL",
        "rows 1\n1,0,\\N",
    ),
    ("SELECT b FROM n WHERE a = NULL", "rows 0"),
    ("SELECT b FROM n WHERE NOT a < 2", "rows 1\n2"),
    ("UPDATE n SET b = a", "refused 13 null in not null column"),
];

/// A column that is added with a default.
pub const ADDED_COLUMN: [Replied; 8] = [
    ("CREATE TABLE t (a INT, b INT)", "ok"),
    ("INSERT INTO t VALUES (1, 10), (2, 20)", "ok 2"),
    ("SELECT a FROM t WHERE a < 5", "rows 2\n1\n2"),
    ("UPDATE t SET b = b + 1", "ok 2"),
    ("SELECT a FROM t WHERE a < 5", "rows 2\n1\n2"),
    ("ALTER TABLE t ADD COLUMN c TEXT DEFAULT 'x' NOT NULL", "ok"),
    ("SELECT a FROM t WHERE a < 5", "rows 2\n1\n2"),
    ("SELECT c, b FROM t WHERE a < 5", "rows 2\nx,11\nx,21"),
];

/// `examples/nulls.sql`.
pub const GUESTS: [Replied; 24] = [
    (
        "CREATE TABLE guests (name TEXT NOT NULL, room INT, nights INT DEFAULT 1, arrives DATE)",
        "ok",
    ),
    (
        "INSERT INTO guests VALUES ('Ann', 12, 3, DATE '2024-05-01'), ('Bob', NULL, 2, NULL)",
        "ok 2",
    ),
    ("INSERT INTO guests (name) VALUES ('Cid')", "ok 1"),
    (
        "SELECT * FROM guests",
        "rows 3\nAnn,12,3,2024-05-01\nBob,\\N,2,\\N\nCid,\\N,1,\\N",
    ),
    ("SELECT name FROM guests WHERE room = NULL", "rows 0"),
    ("SELECT name FROM guests WHERE room < 20", "rows 1\nAnn"),
    ("SELECT name FROM guests WHERE NOT room < 20", "rows 0"),
    (
        "SELECT name FROM guests WHERE room IS NULL",
        "rows 2\nBob\nCid",
    ),
    (
        "SELECT name FROM guests WHERE room IS NOT NULL OR nights = 1",
        "rows 2\nAnn\nCid",
    ),
    (
        "SELECT COUNT(*), COUNT(room), SUM(room), MIN(arrives) FROM guests",
        "rows 1\n3,1,12,2024-05-01",
    ),
    (
        "SELECT SUM(nights) FROM guests WHERE nights > 9",
        "rows 1\n\\N",
    ),
    (
        "SELECT room, COUNT(*) FROM guests GROUP BY room",
        "rows 2\n\\N,2\n12,1",
    ),
    (
        "SELECT DISTINCT arrives FROM guests",
        "rows 2\n\\N\n2024-05-01",
    ),
    (
        "SELECT name, room FROM guests ORDER BY room DESC, name",
        "rows 3\nAnn,12\nBob,\\N\nCid,\\N",
    ),
    (
        "SELECT COUNT(*) FROM guests GROUP BY room HAVING MAX(arrives) IS NULL",
        "rows 1\n2",
    ),
    (
        "INSERT INTO guests VALUES (NULL, 7, 1, NULL)",
        "refused 13 null in not null column",
    ),
    (
        "UPDATE guests SET name = NULL WHERE room IS NULL",
        "refused 13 null in not null column",
    ),
    (
        "ALTER TABLE guests ADD COLUMN paid VARCHAR(3) DEFAULT 'no' NOT NULL",
        "ok",
    ),
    ("ALTER TABLE guests ADD note TEXT", "ok"),
    (
        "INSERT INTO guests (name, paid) VALUES ('Dee', 'yes')",
        "ok 1",
    ),
    (
        "SELECT name, nights, paid, note FROM guests",
        "rows 4\nAnn,3,no,\\N\nBob,2,no,\\N\nCid,1,no,\\N\nDee,1,yes,\\N",
    ),
    (
        "ALTER TABLE guests ADD city TEXT NOT NULL",
        "refused 13 null in not null column",
    ),
    (
        "ALTER TABLE guests ADD floor INT DEFAULT 'two'",
        "refused 7 kinds differ",
    ),
    (
        "ALTER TABLE guests ADD tag VARCHAR(2) DEFAULT 'new'",
        "refused 9 text too long",
    ),
];
