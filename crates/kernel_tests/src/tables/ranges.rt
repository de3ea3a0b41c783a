//! Selects.
use crate::tables::{INTS, Lit, NIL_INTS, NO_INTS, RangeRow, THREE, Val};
use Lit::{Bit, Int, Nil, Oid};
use Val::Bat;

pub(crate) static RANGES: [RangeRow; 20] = [
    (NO_INTS, (Int(1), Int(3)), (Bit(true), Bit(true)), Bat(&[])),
    (
        NO_INTS,
        (Int(1), Int(3)),
        (Bit(false), Bit(false)),
        Bat(&[]),
    ),
    (NO_INTS, (Nil, Int(2)), (Bit(true), Bit(true)), Bat(&[])),
    (NO_INTS, (Int(3), Nil), (Nil, Bit(true)), Bat(&[])),
    (NO_INTS, (Nil, Nil), (Bit(true), Bit(true)), Bat(&[])),
    (
        THREE,
        (Int(1), Int(3)),
        (Bit(true), Bit(true)),
        Bat(&[(Oid(0), Int(3))]),
    ),
    (THREE, (Int(1), Int(3)), (Bit(false), Bit(false)), Bat(&[])),
    (THREE, (Nil, Int(2)), (Bit(true), Bit(true)), Bat(&[])),
    (THREE, (Int(3), Nil), (Nil, Bit(true)), Bat(&[])),
    (
        THREE,
        (Nil, Nil),
        (Bit(true), Bit(true)),
        Bat(&[(Oid(0), Int(3))]),
    ),
    (
        NIL_INTS,
        (Int(1), Int(3)),
        (Bit(true), Bit(true)),
        Bat(&[(Nil, Int(3))]),
    ),
    (
        NIL_INTS,
        (Int(1), Int(3)),
        (Bit(false), Bit(false)),
        Bat(&[]),
    ),
    (NIL_INTS, (Nil, Int(2)), (Bit(true), Bit(true)), Bat(&[])),
    (NIL_INTS, (Int(3), Nil), (Nil, Bit(true)), Bat(&[])),
    (
        NIL_INTS,
        (Nil, Nil),
        (Bit(true), Bit(true)),
        Bat(&[(Nil, Int(3))]),
    ),
    (
        INTS,
        (Int(1), Int(3)),
        (Bit(true), Bit(true)),
        Bat(&[(Oid(0), Int(3)), (Oid(1), Int(1)), (Oid(2), Int(3))]),
    ),
    (INTS, (Int(1), Int(3)), (Bit(false), Bit(false)), Bat(&[])),
    (
        INTS,
        (Nil, Int(2)),
        (Bit(true), Bit(true)),
        Bat(&[(Oid(1), Int(1))]),
    ),
    (INTS, (Int(3), Nil), (Nil, Bit(true)), Bat(&[])),
    (
        INTS,
        (Nil, Nil),
        (Bit(true), Bit(true)),
        Bat(&[(Oid(0), Int(3)), (Oid(1), Int(1)), (Oid(2), Int(3))]),
    ),
];
