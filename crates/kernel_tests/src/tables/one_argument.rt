//! Operators of one argument.
use crate::tables::{
    BITS, DAYS, FALSE, INTS, Lit, NIL_DAYS, NIL_INTS, NIL_OIDS, NO_BIT, NO_BITS, NO_INT, NO_INTS,
    NO_OID, NO_OIDS, OIDS, ONE_BIT, ONE_OID, OneRow, THREE, TRUE, TWO, Val,
};
use Lit::{Bit, Huge, Int, Nil, Oid};
use Val::{Bat, One};
use cell_core::Op;

pub(crate) static ONE_ARGUMENT: [OneRow; 51] = [
    (Op::Reverse, NO_INTS, Bat(&[])),
    (Op::Reverse, THREE, Bat(&[(Int(3), Oid(0))])),
    (Op::Reverse, NIL_INTS, Bat(&[(Nil, Oid(0)), (Int(3), Nil)])),
    (
        Op::Reverse,
        INTS,
        Bat(&[(Int(3), Oid(0)), (Int(1), Oid(1)), (Int(3), Oid(2))]),
    ),
    (Op::Mirror, NO_INTS, Bat(&[])),
    (Op::Mirror, THREE, Bat(&[(Oid(0), Oid(0))])),
    (Op::Mirror, NIL_INTS, Bat(&[(Oid(0), Oid(0)), (Nil, Nil)])),
    (
        Op::Mirror,
        INTS,
        Bat(&[(Oid(0), Oid(0)), (Oid(1), Oid(1)), (Oid(2), Oid(2))]),
    ),
    (Op::GroupNew, NO_INTS, Bat(&[])),
    (Op::GroupNew, THREE, Bat(&[(Oid(0), Oid(0))])),
    (
        Op::GroupNew,
        NIL_INTS,
        Bat(&[(Oid(0), Oid(0)), (Nil, Oid(1))]),
    ),
    (
        Op::GroupNew,
        INTS,
        Bat(&[(Oid(0), Oid(0)), (Oid(1), Oid(1)), (Oid(2), Oid(0))]),
    ),
    (
        Op::GroupNew,
        DAYS,
        Bat(&[
            (Oid(0), Oid(0)),
            (Oid(1), Oid(1)),
            (Oid(2), Oid(0)),
            (Oid(3), Oid(2)),
            (Oid(4), Oid(0)),
        ]),
    ),
    (
        Op::GroupNew,
        NIL_DAYS,
        Bat(&[(Oid(0), Oid(0)), (Oid(1), Oid(1)), (Oid(2), Oid(0))]),
    ),
    (Op::Count, NO_INTS, One(Int(0))),
    (Op::Count, THREE, One(Int(1))),
    (Op::Count, NIL_INTS, One(Int(1))),
    (Op::Count, INTS, One(Int(3))),
    (Op::Sum, NO_INTS, One(Nil)),
    (Op::Sum, THREE, One(Huge(3))),
    (Op::Sum, NIL_INTS, One(Huge(3))),
    (Op::Sum, INTS, One(Huge(7))),
    (Op::Min, NO_INTS, One(Nil)),
    (Op::Min, THREE, One(Int(3))),
    (Op::Min, NIL_INTS, One(Int(3))),
    (Op::Min, INTS, One(Int(1))),
    (Op::Max, NO_INTS, One(Nil)),
    (Op::Max, THREE, One(Int(3))),
    (Op::Max, NIL_INTS, One(Int(3))),
    (Op::Max, INTS, One(Int(3))),
    (Op::GroupHeads, NO_OIDS, Bat(&[])),
    (Op::GroupHeads, ONE_OID, Bat(&[(Oid(0), Oid(5))])),
    (
        Op::GroupHeads,
        NIL_OIDS,
        Bat(&[(Oid(0), Oid(5)), (Oid(1), Nil)]),
    ),
    (
        Op::GroupHeads,
        OIDS,
        Bat(&[(Oid(0), Oid(5)), (Oid(1), Oid(6))]),
    ),
    (Op::Not, NO_BITS, Bat(&[])),
    (Op::Not, ONE_BIT, Bat(&[(Oid(0), Bit(false))])),
    (
        Op::Not,
        BITS,
        Bat(&[(Oid(0), Nil), (Oid(1), Bit(true)), (Oid(2), Bit(false))]),
    ),
    (Op::Not, TRUE, One(Bit(false))),
    (Op::Not, FALSE, One(Bit(true))),
    (Op::Not, NO_BIT, One(Nil)),
    (Op::IsNil, NO_INTS, Bat(&[])),
    (Op::IsNil, THREE, Bat(&[(Oid(0), Bit(false))])),
    (
        Op::IsNil,
        NIL_INTS,
        Bat(&[(Oid(0), Bit(true)), (Nil, Bit(false))]),
    ),
    (
        Op::IsNil,
        INTS,
        Bat(&[
            (Oid(0), Bit(false)),
            (Oid(1), Bit(false)),
            (Oid(2), Bit(false)),
        ]),
    ),
    (
        Op::IsNil,
        NIL_OIDS,
        Bat(&[(Oid(5), Bit(false)), (Nil, Bit(true))]),
    ),
    (
        Op::IsNil,
        BITS,
        Bat(&[
            (Oid(0), Bit(true)),
            (Oid(1), Bit(false)),
            (Oid(2), Bit(false)),
        ]),
    ),
    (Op::IsNil, TWO, One(Bit(false))),
    (Op::IsNil, NO_INT, One(Bit(true))),
    (Op::IsNil, FALSE, One(Bit(false))),
    (Op::IsNil, NO_BIT, One(Bit(true))),
    (Op::IsNil, NO_OID, One(Bit(true))),
];
