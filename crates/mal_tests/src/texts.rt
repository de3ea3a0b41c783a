//! MAL texts, and the output of an independent implementation for them.

/// Texts with their answers: why they are refused, or the plan's canonical text.
pub(crate) const TEXTS: [(&str, &str); 20] = [
    (
        "# a block\nfunction user.q():void; # its head\n  b := sql.bind(\"t\", \"a\", \"int\");\n# \"sql.keep(true);\"\n  sql.output(b);\nend user.q;",
        "function user.main():void;\n    X_1 := sql.bind(\"t\", \"a\", \"int\");\n    sql.output(X_1);\nend user.main;\n",
    ),
    (
        " function user . q ( ) : void ; b := sql . bind ( \"t\" , \"a\" , \"int\" ) ; c := algebra . select ( b , - 5 , 007 , true , false ) ; d := calc . plus ( - 5 , 1 ) ; sql . keep ( true ) ; sql . order ( 1 , true ) ; sql . limit ( 7 ) ; sql . output ( c , 5 : hge , 3 @ 0 , \"1994-01-01\" : date , nil ) ; end user . q ; ",
        "function user.main():void;\n    X_1 := sql.bind(\"t\", \"a\", \"int\");\n    X_2 := algebra.select(X_1, -5, 7, true, false);\n    X_3 := calc.plus(-5, 1);\n    sql.keep(true);\n    sql.order(1, true);\n    sql.limit(7);\n    sql.output(X_2, 5:hge, 3@0, \"1994-01-01\":date, nil);\nend user.main;\n",
    ),
    (
        "function user.q():void; sql.output(5:hge, -170141183460469231731687303715884105728:hge, 5, \"1994-01-01\":date, \"a\\\\b\\\"c\\nd\", 18446744073709551615@0); end user.q;",
        "function user.main():void;\n    sql.output(5:hge, -170141183460469231731687303715884105728:hge, 5, \"1994-01-01\":date, \"a\\\\b\\\"c\\nd\", 18446744073709551615@0);\nend user.main;\n",
    ),
    (
        "function user.q():void; b := sql.bind(\"t\", \"a\", \"int\"); c := calc.isnil(b); d := batcalc.lt(1, 2); sql.keep(d); sql.output(c, d); end user.q;",
        "function user.main():void;\n    X_1 := sql.bind(\"t\", \"a\", \"int\");\n    X_2 := batcalc.isnil(X_1);\n    X_3 := calc.lt(1, 2);\n    sql.keep(X_3);\n    sql.output(X_2, X_3);\nend user.main;\n",
    ),
    ("", "no block"),
    (
        "function user.q():void; sql.output(\"\\x\"); end user.q;",
        "no block",
    ),
    (
        "function user.q():void; sql.output(\"a\nb\"); end user.q;",
        "no block",
    ),
    (
        "function user.q():void; sql.output(9223372036854775808); end user.q;",
        "no block",
    ),
    (
        "function user.q():void; sql.output(-1@0); end user.q;",
        "no block",
    ),
    (
        "function user.q():void; sql.output(\"1999-02-29\":date); end user.q;",
        "no block",
    ),
    (
        "function user.q():void; sql.output(1); end user.r;",
        "no block",
    ),
    (
        "function user.q():void; sql.order(0, true); sql.output(1); end user.q;",
        "no block",
    ),
    (
        "function user.q():void; X := calc.not(true); X := calc.not(false); sql.output(X); end user.q;",
        "no block",
    ),
    (
        "function user.q():void; X := aggr.avg(1); Y := no.such(2); sql.output(X); end user.q;",
        "aggr.avg",
    ),
    (
        "function user.q():void; X := Calc.plus(1, 1); sql.output(X); end user.q;",
        "Calc.plus",
    ),
    (
        "function user.q():void; X := calc.plus(Y, 1); sql.output(X); end user.q;",
        "variable",
    ),
    (
        "function user.q():void; X := calc.plus(1, \"a\"); sql.output(X); end user.q;",
        "kinds",
    ),
    (
        "function user.q():void; X := calc.plus(1); sql.output(X); end user.q;",
        "count",
    ),
    (
        "function user.q():void; X := calc.not(true); sql.output(); end user.q;",
        "output",
    ),
    ("function user.q():void; end user.q;", "output"),
];

/// A plan with a sum of constants, a bind that occurs twice, an overflow and a mirror that nothing
/// uses.
pub(crate) const GIVEN: &str =
    "function user.main():void;\n    X_1 := sql.bind(\"t\", \"a\", \"int\");\n    X_2 := calc.plus(1, 1);\n    X_3 := algebra.select(X_1, X_2, nil, false, true);\n    X_4 := sql.bind(\"t\", \"a\", \"int\");\n    X_5 := calc.times(9223372036854775807, 2);\n    X_6 := algebra.mirror(X_4);\n    X_7 := aggr.count(X_3);\n    X_8 := calc.gt(X_7, X_2);\n    sql.keep(X_8);\n    sql.output(X_3, X_4);\nend user.main;\n";

/// That plan, with its constants folded.
pub(crate) const FOLDED: &str =
    "function user.main():void;\n    X_1 := sql.bind(\"t\", \"a\", \"int\");\n    X_2 := algebra.select(X_1, 2, nil, false, true);\n    X_3 := sql.bind(\"t\", \"a\", \"int\");\n    X_4 := calc.times(9223372036854775807, 2);\n    X_5 := algebra.mirror(X_3);\n    X_6 := aggr.count(X_2);\n    X_7 := calc.gt(X_6, 2);\n    sql.keep(X_7);\n    sql.output(X_2, X_3);\nend user.main;\n";

/// That plan, with its terms shared.
pub(crate) const SHARED: &str =
    "function user.main():void;\n    X_1 := sql.bind(\"t\", \"a\", \"int\");\n    X_2 := calc.plus(1, 1);\n    X_3 := algebra.select(X_1, X_2, nil, false, true);\n    X_4 := calc.times(9223372036854775807, 2);\n    X_5 := algebra.mirror(X_1);\n    X_6 := aggr.count(X_3);\n    X_7 := calc.gt(X_6, X_2);\n    sql.keep(X_7);\n    sql.output(X_3, X_1);\nend user.main;\n";

/// That plan, without dead instructions.
pub(crate) const DROPPED: &str =
    "function user.main():void;\n    X_1 := sql.bind(\"t\", \"a\", \"int\");\n    X_2 := calc.plus(1, 1);\n    X_3 := algebra.select(X_1, X_2, nil, false, true);\n    X_4 := sql.bind(\"t\", \"a\", \"int\");\n    X_5 := calc.times(9223372036854775807, 2);\n    X_6 := aggr.count(X_3);\n    X_7 := calc.gt(X_6, X_2);\n    sql.keep(X_7);\n    sql.output(X_3, X_4);\nend user.main;\n";

/// That plan, optimised.
pub(crate) const OPTIMISED: &str =
    "function user.main():void;\n    X_1 := sql.bind(\"t\", \"a\", \"int\");\n    X_2 := algebra.select(X_1, 2, nil, false, true);\n    X_3 := calc.times(9223372036854775807, 2);\n    X_4 := aggr.count(X_2);\n    X_5 := calc.gt(X_4, 2);\n    sql.keep(X_5);\n    sql.output(X_2, X_1);\nend user.main;\n";

/// The translation of `SELECT a + b, a + b FROM t WHERE a > 1 + 1 AND b < 3`.
pub(crate) const QUERY: &str =
    "function user.main():void;\n    X_1 := sql.bind(\"t\", \"a\", \"int\");\n    X_2 := calc.plus(1, 1);\n    X_3 := algebra.select(X_1, X_2, nil, false, true);\n    X_4 := algebra.mirror(X_3);\n    X_5 := sql.bind(\"t\", \"b\", \"int\");\n    X_6 := algebra.select(X_5, nil, 3, true, false);\n    X_7 := algebra.semijoin(X_4, X_6);\n    X_8 := algebra.markT(X_7, 0@0);\n    X_9 := algebra.reverse(X_8);\n    X_10 := sql.bind(\"t\", \"a\", \"int\");\n    X_11 := algebra.join(X_9, X_10);\n    X_12 := sql.bind(\"t\", \"b\", \"int\");\n    X_13 := algebra.join(X_9, X_12);\n    X_14 := batcalc.plus(X_11, X_13);\n    X_15 := sql.bind(\"t\", \"a\", \"int\");\n    X_16 := algebra.join(X_9, X_15);\n    X_17 := sql.bind(\"t\", \"b\", \"int\");\n    X_18 := algebra.join(X_9, X_17);\n    X_19 := batcalc.plus(X_16, X_18);\n    sql.output(X_14, X_19);\nend user.main;\n";

/// That plan, optimised.
pub(crate) const QUERY_OPTIMISED: &str =
    "function user.main():void;\n    X_1 := sql.bind(\"t\", \"a\", \"int\");\n    X_2 := algebra.select(X_1, 2, nil, false, true);\n    X_3 := algebra.mirror(X_2);\n    X_4 := sql.bind(\"t\", \"b\", \"int\");\n    X_5 := algebra.select(X_4, nil, 3, true, false);\n    X_6 := algebra.semijoin(X_3, X_5);\n    X_7 := algebra.markT(X_6, 0@0);\n    X_8 := algebra.reverse(X_7);\n    X_9 := algebra.join(X_8, X_1);\n    X_10 := algebra.join(X_8, X_4);\n    X_11 := batcalc.plus(X_9, X_10);\n    sql.output(X_11, X_11);\nend user.main;\n";
