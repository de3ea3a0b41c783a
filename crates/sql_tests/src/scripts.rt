//! Scripts, and the output of an independent implementation of the language for them.

/// A table that holds Nil: conditions, aggregates, groups, keys, doubles and joins.
pub(crate) const NULLS: &str = "CREATE TABLE n (a INT, b INT NOT NULL, c TEXT, d DATE);\n\
    INSERT INTO n VALUES (NULL, 1, 'x', NULL), (2, 2, NULL, DATE '2000-01-02'), (NULL, 3, 'x', DATE '2000-01-01'), (1, 4, NULL, NULL);\n\
    SELECT a, b, c, d FROM n;\n\
    SELECT b FROM n WHERE a = NULL;\n\
    SELECT b FROM n WHERE a <> NULL;\n\
    SELECT b FROM n WHERE NULL = NULL;\n\
    SELECT b FROM n WHERE a IS NULL;\n\
    SELECT b FROM n WHERE a IS NOT NULL;\n\
    SELECT b FROM n WHERE NULL IS NULL;\n\
    SELECT b FROM n WHERE 1 IS NULL;\n\
    SELECT b FROM n WHERE NOT a < 2;\n\
    SELECT b FROM n WHERE NOT (a < 2 OR b = 1);\n\
    SELECT b FROM n WHERE a < 2 OR b = 1;\n\
    SELECT b FROM n WHERE a < 2 AND b = 4;\n\
    SELECT b FROM n WHERE NOT (a < 2 AND b = 3);\n\
    SELECT b FROM n WHERE a BETWEEN 1 AND NULL;\n\
    SELECT b FROM n WHERE NOT a BETWEEN 2 AND NULL;\n\
    SELECT b FROM n WHERE a IN (1, NULL);\n\
    SELECT b FROM n WHERE a NOT IN (1, NULL);\n\
    SELECT b FROM n WHERE NOT c = 'x';\n\
    SELECT b FROM n WHERE (a IS NULL) AND NOT (c IS NULL) AND d IS NULL;\n\
    SELECT COUNT(*), COUNT(a), SUM(a), MIN(a), MAX(a) FROM n;\n\
    SELECT COUNT(*), COUNT(a), SUM(a), MIN(a), MAX(a) FROM n WHERE a IS NULL;\n\
    SELECT COUNT(c), MIN(c), MAX(c), COUNT(d), MIN(d), MAX(d) FROM n;\n\
    SELECT a, COUNT(*), SUM(b) FROM n GROUP BY a;\n\
    SELECT c, COUNT(a), MAX(d) FROM n GROUP BY c;\n\
    SELECT c FROM n GROUP BY c HAVING SUM(a) IS NULL;\n\
    SELECT c FROM n GROUP BY c HAVING NOT SUM(a) > 2;\n\
    SELECT c FROM n GROUP BY c HAVING c IS NULL;\n\
    SELECT DISTINCT a FROM n;\n\
    SELECT DISTINCT c, a FROM n ORDER BY a DESC;\n\
    SELECT a, b FROM n ORDER BY a DESC, b;\n\
    SELECT a, b FROM n ORDER BY a LIMIT 1;\n\
    SELECT x.b, y.b FROM n x JOIN n y ON x.a = y.a;\n\
    SELECT x.b, y.b FROM n x, n y WHERE x.c = y.c;\n\
    SELECT x.b, y.b FROM n x, n y WHERE x.a IS NULL AND y.a IS NULL;\n\
    SELECT a + 1, b * NULL, a - a FROM n;\n\
    SELECT a + 9223372036854775807 FROM n WHERE b = 1;\n\
    SELECT NULL, NULL + 1 FROM n WHERE b = 1;\n\
    UPDATE n SET a = b, c = NULL WHERE a IS NULL;\n\
    SELECT a, b, c FROM n;\n\
    DELETE FROM n WHERE NOT d < DATE '2000-01-02';\n\
    SELECT b FROM n;\n\
    UPDATE n SET d = NULL;\n\
    DELETE FROM n WHERE d IS NULL;\n\
    SELECT COUNT(*), COUNT(d) FROM n;\n";

/// Its output.
pub(crate) const NULLS_TOLD: &str = "1 ok\n\
    2 ok 4\n\
    3 rows 4\n\
    \\N,1,x,\\N\n\
    \\N,3,x,2000-01-01\n\
    1,4,\\N,\\N\n\
    2,2,\\N,2000-01-02\n\
    4 rows 0\n\
    5 rows 0\n\
    6 rows 0\n\
    7 rows 2\n\
    1\n\
    3\n\
    8 rows 2\n\
    2\n\
    4\n\
    9 rows 4\n\
    1\n\
    2\n\
    3\n\
    4\n\
    10 rows 0\n\
    11 rows 1\n\
    2\n\
    12 rows 1\n\
    2\n\
    13 rows 2\n\
    1\n\
    4\n\
    14 rows 1\n\
    4\n\
    15 rows 3\n\
    1\n\
    2\n\
    4\n\
    16 rows 0\n\
    17 rows 1\n\
    4\n\
    18 rows 1\n\
    4\n\
    19 rows 0\n\
    20 rows 0\n\
    21 rows 1\n\
    1\n\
    22 rows 1\n\
    4,2,3,1,2\n\
    23 rows 1\n\
    2,0,\\N,\\N,\\N\n\
    24 rows 1\n\
    2,x,x,2,2000-01-01,2000-01-02\n\
    25 rows 3\n\
    \\N,2,4\n\
    1,1,4\n\
    2,1,2\n\
    26 rows 2\n\
    \\N,2,2000-01-02\n\
    x,0,2000-01-01\n\
    27 rows 1\n\
    x\n\
    28 rows 0\n\
    29 rows 1\n\
    \\N\n\
    30 rows 3\n\
    \\N\n\
    1\n\
    2\n\
    31 rows 3\n\
    \\N,2\n\
    \\N,1\n\
    x,\\N\n\
    32 rows 4\n\
    2,2\n\
    1,4\n\
    \\N,1\n\
    \\N,3\n\
    33 rows 1\n\
    \\N,1\n\
    34 rows 2\n\
    2,2\n\
    4,4\n\
    35 rows 4\n\
    1,1\n\
    1,3\n\
    3,1\n\
    3,3\n\
    36 rows 4\n\
    1,1\n\
    1,3\n\
    3,1\n\
    3,3\n\
    37 rows 4\n\
    \\N,\\N,\\N\n\
    \\N,\\N,\\N\n\
    2,\\N,0\n\
    3,\\N,0\n\
    38 rows 1\n\
    \\N\n\
    39 rows 1\n\
    \\N,\\N\n\
    40 ok 2\n\
    41 rows 4\n\
    1,1,\\N\n\
    1,4,\\N\n\
    2,2,\\N\n\
    3,3,\\N\n\
    42 ok 1\n\
    43 rows 3\n\
    1\n\
    3\n\
    4\n\
    44 ok 3\n\
    45 ok 3\n\
    46 rows 1\n\
    0,0\n";

/// Defaults, and columns that are added.
pub(crate) const DEFAULTS: &str =
    "CREATE TABLE t (a INT DEFAULT 7, b VARCHAR(3) NOT NULL DEFAULT 'abc', c DATE DEFAULT DATE '2000-01-01' NOT NULL, d INT);\n\
    INSERT INTO t VALUES (1, 'x', DATE '2001-01-01', 2);\n\
    INSERT INTO t (d) VALUES (3), (4);\n\
    INSERT INTO t (c, b) VALUES (DATE '2002-02-02', 'yy');\n\
    INSERT INTO t (a) VALUES (NULL);\n\
    SELECT * FROM t;\n\
    ALTER TABLE t ADD COLUMN e INT;\n\
    SELECT a, e FROM t WHERE e IS NULL;\n\
    ALTER TABLE t ADD f TEXT DEFAULT 'new' NOT NULL;\n\
    SELECT f, d FROM t;\n\
    INSERT INTO t (f) VALUES ('own');\n\
    INSERT INTO t VALUES (1, '', DATE '2003-03-03', 5, 6, 'all');\n\
    SELECT * FROM t;\n\
    UPDATE t SET e = d + 1 WHERE d IS NOT NULL;\n\
    SELECT e, f FROM t ORDER BY 1 DESC;\n\
    DELETE FROM t WHERE f = 'new';\n\
    SELECT e, f FROM t;\n\
    CREATE TABLE u (a INT);\n\
    ALTER TABLE u ADD b INT NOT NULL;\n\
    INSERT INTO u VALUES (1, 2);\n\
    SELECT b, a FROM u;\n\
    SELECT u.b, t.f FROM u, t WHERE u.a = t.a;\n\
    DROP TABLE t;\n\
    ALTER TABLE u ADD COLUMN c INT NOT NULL DEFAULT -3;\n\
    SELECT * FROM u;\n";

/// Their output.
pub(crate) const DEFAULTS_TOLD: &str = "1 ok\n\
    2 ok 1\n\
    3 ok 2\n\
    4 ok 1\n\
    5 ok 1\n\
    6 rows 5\n\
    \\N,abc,2000-01-01,\\N\n\
    1,x,2001-01-01,2\n\
    7,abc,2000-01-01,3\n\
    7,abc,2000-01-01,4\n\
    7,yy,2002-02-02,\\N\n\
    7 ok\n\
    8 rows 5\n\
    \\N,\\N\n\
    1,\\N\n\
    7,\\N\n\
    7,\\N\n\
    7,\\N\n\
    9 ok\n\
    10 rows 5\n\
    new,\\N\n\
    new,\\N\n\
    new,2\n\
    new,3\n\
    new,4\n\
    11 ok 1\n\
    12 ok 1\n\
    13 rows 7\n\
    \\N,abc,2000-01-01,\\N,\\N,new\n\
    1,,2003-03-03,5,6,all\n\
    1,x,2001-01-01,2,\\N,new\n\
    7,abc,2000-01-01,\\N,\\N,own\n\
    7,abc,2000-01-01,3,\\N,new\n\
    7,abc,2000-01-01,4,\\N,new\n\
    7,yy,2002-02-02,\\N,\\N,new\n\
    14 ok 4\n\
    15 rows 7\n\
    6,all\n\
    5,new\n\
    4,new\n\
    3,new\n\
    \\N,new\n\
    \\N,new\n\
    \\N,own\n\
    16 ok 5\n\
    17 rows 2\n\
    \\N,own\n\
    6,all\n\
    18 ok\n\
    19 ok\n\
    20 ok 1\n\
    21 rows 1\n\
    2,1\n\
    22 rows 1\n\
    2,all\n\
    23 ok\n\
    24 ok\n\
    25 rows 1\n\
    1,2,-3\n";

/// Each refusal by the tables and the rows, and which of two comes first.
pub(crate) const REFUSED: &str = "CREATE TABLE n (a INT, b INT NOT NULL, c VARCHAR(2) NOT NULL);\n\
    INSERT INTO n VALUES (1, 1, 'x'), (NULL, 2, 'y');\n\
    CREATE TABLE n (a INT, a INT DEFAULT 'x');\n\
    CREATE TABLE m (a INT DEFAULT 'x', a INT);\n\
    CREATE TABLE m (a VARCHAR(2) DEFAULT 'xyz', b INT DEFAULT 'x');\n\
    CREATE TABLE m (b INT DEFAULT 'x');\n\
    CREATE TABLE m (b DATE DEFAULT '2000-01-01');\n\
    CREATE TABLE m (a VARCHAR(2) DEFAULT 'xyz');\n\
    CREATE TABLE m (a VARCHAR(2) NOT NULL DEFAULT NULL);\n\
    SELECT a FROM m;\n\
    ALTER TABLE p ADD a INT DEFAULT 'x';\n\
    ALTER TABLE n ADD a INT DEFAULT 'x';\n\
    ALTER TABLE n ADD d INT NOT NULL DEFAULT 'x';\n\
    ALTER TABLE n ADD d VARCHAR(2) NOT NULL DEFAULT 'xyz';\n\
    ALTER TABLE n ADD d VARCHAR(2) NOT NULL;\n\
    ALTER TABLE n ADD d VARCHAR(2) NOT NULL DEFAULT NULL;\n\
    INSERT INTO p (z, z) VALUES (1);\n\
    INSERT INTO n (z, a, a) VALUES (1);\n\
    INSERT INTO n (a, a) VALUES (1);\n\
    INSERT INTO n (a, b) VALUES (1), (1, 2, 3);\n\
    INSERT INTO n VALUES (1, 2);\n\
    INSERT INTO n VALUES ('x', 'x', NULL);\n\
    INSERT INTO n VALUES (1, NULL, 'xyz');\n\
    INSERT INTO n VALUES (1, 1, 'x'), (1, NULL, 'x');\n\
    INSERT INTO n (a) VALUES (1);\n\
    INSERT INTO n (b, a) VALUES (1, 1);\n\
    INSERT INTO n (c, b) VALUES (NULL, 1);\n\
    UPDATE n SET b = a;\n\
    UPDATE n SET b = NULL WHERE a = 2;\n\
    UPDATE n SET b = NULL WHERE a = NULL;\n\
    UPDATE n SET c = NULL;\n\
    UPDATE n SET c = 'xyz', b = NULL;\n\
    UPDATE n SET b = NULL, a = 9223372036854775807 + 1;\n\
    UPDATE n SET b = a, a = b + 9223372036854775807;\n\
    UPDATE n SET a = b + 9223372036854775807;\n\
    UPDATE n SET b = NULL + (9223372036854775807 + 1);\n\
    UPDATE n SET b = NULL WHERE a + 1 = 1;\n\
    UPDATE n SET b = NULL WHERE 9223372036854775807 + 1 IS NULL;\n\
    UPDATE n SET z = NULL;\n\
    UPDATE n SET a = 'x' WHERE a IS NULL;\n\
    DELETE FROM n WHERE z IS NULL;\n\
    DELETE FROM n WHERE (a + c) IS NULL;\n\
    DELETE FROM n WHERE 'x' + 1 IS NULL;\n\
    SELECT b FROM n WHERE z IS NULL;\n\
    SELECT b FROM n HAVING a IS NULL;\n\
    SELECT a FROM n GROUP BY a HAVING b IS NULL;\n\
    SELECT a FROM n GROUP BY a HAVING SUM(c) IS NULL;\n\
    SELECT a FROM n WHERE 1 + NULL = 'x';\n\
    SELECT a FROM n WHERE NULL + 'x' IS NULL;\n\
    SELECT SUM(NULL), MIN(NULL), COUNT(NULL) FROM n;\n\
    SELECT * FROM n;\n";

/// Their output.
pub(crate) const REFUSED_TOLD: &str = "1 ok\n\
    2 ok 2\n\
    3 refused 4 table exists n\n\
    4 refused 12 name twice a\n\
    5 refused 7 kinds differ\n\
    6 refused 7 kinds differ\n\
    7 refused 7 kinds differ\n\
    8 refused 9 text too long\n\
    9 ok\n\
    10 rows 0\n\
    11 refused 3 no such table p\n\
    12 refused 12 name twice a\n\
    13 refused 7 kinds differ\n\
    14 refused 9 text too long\n\
    15 refused 13 null in not null column\n\
    16 refused 13 null in not null column\n\
    17 refused 3 no such table p\n\
    18 refused 5 no such column z\n\
    19 refused 12 name twice a\n\
    20 refused 8 wrong number of values\n\
    21 refused 8 wrong number of values\n\
    22 refused 7 kinds differ\n\
    23 refused 9 text too long\n\
    24 refused 13 null in not null column\n\
    25 refused 13 null in not null column\n\
    26 refused 13 null in not null column\n\
    27 refused 13 null in not null column\n\
    28 refused 13 null in not null column\n\
    29 ok 0\n\
    30 ok 0\n\
    31 refused 13 null in not null column\n\
    32 refused 9 text too long\n\
    33 refused 13 null in not null column\n\
    34 refused 13 null in not null column\n\
    35 refused 10 overflow\n\
    36 refused 10 overflow\n\
    37 refused 2 unsupported ARITHMETIC IN WHERE\n\
    38 refused 10 overflow\n\
    39 refused 5 no such column z\n\
    40 refused 7 kinds differ\n\
    41 refused 5 no such column z\n\
    42 refused 2 unsupported ARITHMETIC IN WHERE\n\
    43 refused 7 kinds differ\n\
    44 refused 5 no such column z\n\
    45 refused 14 not grouped b\n\
    46 refused 14 not grouped b\n\
    47 refused 7 kinds differ\n\
    48 refused 7 kinds differ\n\
    49 refused 7 kinds differ\n\
    50 rows 1\n\
    \\N,\\N,0\n\
    51 rows 2\n\
    \\N,2,y\n\
    1,1,x\n";

/// A table of 64 columns, which gets no further one.
pub(crate) const WIDE: &str =
    "CREATE TABLE w (c1 INT, c2 INT, c3 INT, c4 INT, c5 INT, c6 INT, c7 INT, c8 INT, c9 INT, c10 INT, c11 INT, c12 INT, c13 INT, c14 INT, c15 INT, c16 INT, c17 INT, c18 INT, c19 INT, c20 INT, c21 INT, c22 INT, c23 INT, c24 INT, c25 INT, c26 INT, c27 INT, c28 INT, c29 INT, c30 INT, c31 INT, c32 INT, c33 INT, c34 INT, c35 INT, c36 INT, c37 INT, c38 INT, c39 INT, c40 INT, c41 INT, c42 INT, c43 INT, c44 INT, c45 INT, c46 INT, c47 INT, c48 INT, c49 INT, c50 INT, c51 INT, c52 INT, c53 INT, c54 INT, c55 INT, c56 INT, c57 INT, c58 INT, c59 INT, c60 INT, c61 INT, c62 INT, c63 INT, c64 INT);\n\
    ALTER TABLE w ADD c64 INT DEFAULT 'x';\n\
    ALTER TABLE w ADD c65 INT;\n\
    ALTER TABLE w ADD c65 VARCHAR(1) DEFAULT 'xy';\n\
    INSERT INTO w (c1) VALUES (1);\n\
    ALTER TABLE w ADD c65 INT NOT NULL;\n\
    ALTER TABLE w ADD c65 INT DEFAULT 1;\n\
    SELECT COUNT(*), COUNT(c1), COUNT(c64) FROM w;\n";

/// Its output.
pub(crate) const WIDE_TOLD: &str = "1 ok\n\
    2 refused 12 name twice c64\n\
    3 refused 11 limit columns\n\
    4 refused 9 text too long\n\
    5 ok 1\n\
    6 refused 13 null in not null column\n\
    7 refused 11 limit columns\n\
    8 rows 1\n\
    1,1,0\n";

/// Numbers of twenty digits and of more: most of them zeros in front, which count for nothing.
pub(crate) const DIGITS: &str = "CREATE TABLE n (a INT);\n\
    INSERT INTO n VALUES (00000000000000000007), (000000000000000000008), (0000000000000000000009223372036854775807), (-0000000000000000000009223372036854775808);\n\
    SELECT a FROM n WHERE a >= 0000000000000000000000000000000000000000000000008;\n\
    SELECT MIN(a) FROM n LIMIT 000000000000000000001;\n\
    SELECT a FROM n WHERE a = 0000000000000000000009223372036854775808;\n\
    INSERT INTO n VALUES (10000000000000000000000000000000000000000000007);\n";

/// Their output.
pub(crate) const DIGITS_TOLD: &str = "1 ok\n\
    2 ok 4\n\
    3 rows 2\n\
    8\n\
    9223372036854775807\n\
    4 rows 1\n\
    -9223372036854775808\n\
    5 refused 11 limit literal\n\
    6 refused 11 limit literal\n";
