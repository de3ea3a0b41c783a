//! Each operator on no pairs, on one pair and on Nil, and the functions of numbers at both ends of
//! the 64-bit range. The wanted results are those of an implementation that shares no code with the
//! kernel; those over days were worked out by hand.
use crate::ArgShape;
use Lit::{Bit, Day, Int, Nil, Oid};
use Val::{Bat, One};
use cell_core::Op;

mod arithmetic;
mod comparison;
mod one_argument;
mod ranges;
mod two_bats;

pub(crate) use arithmetic::ARITHMETIC;
pub(crate) use comparison::COMPARISON;
pub(crate) use one_argument::ONE_ARGUMENT;
pub(crate) use ranges::RANGES;
pub(crate) use two_bats::TWO_BATS;

/// A cell of a table.
#[derive(Clone, Copy, PartialEq, Eq)]
pub(crate) enum Lit {
    Nil,
    Int(i64),
    Huge(i128),
    Bit(bool),
    Oid(u64),
    Day(i32),
}

/// An argument or a result of an operator.
#[derive(Clone, Copy, PartialEq, Eq)]
pub(crate) enum Val {
    Bat(&'static [(Lit, Lit)]),
    One(Lit),
    Overflow,
}

/// An argument and its shape.
pub(crate) type Argument = (ArgShape, Val);

/// An operator of one argument, and its result.
pub(crate) type OneRow = (Op, Argument, Val);

/// An operator of two arguments, and its result.
pub(crate) type TwoRow = (Op, Argument, Argument, Val);

/// A select: the BAT, its bounds, whether they are in the range, and its result.
pub(crate) type RangeRow = (Argument, (Lit, Lit), (Lit, Lit), Val);

/// No pairs of numbers.
const NO_INTS: Argument = (ArgShape::Ints, Bat(&[]));

/// One pair.
const THREE: Argument = (ArgShape::Ints, Bat(&[(Oid(0), Int(3))]));

/// A Nil tail, and a Nil head.
const NIL_INTS: Argument = (ArgShape::Ints, Bat(&[(Oid(0), Nil), (Nil, Int(3))]));

/// A number twice.
const INTS: Argument = (
    ArgShape::Ints,
    Bat(&[(Oid(0), Int(3)), (Oid(1), Int(1)), (Oid(2), Int(3))]),
);

/// Heads that aren't dense, one of them twice, one of them Nil.
const KEYED: Argument = (
    ArgShape::Ints,
    Bat(&[
        (Oid(7), Int(1)),
        (Oid(2), Int(2)),
        (Oid(7), Int(3)),
        (Nil, Int(4)),
    ]),
);

/// No pairs of oids.
const NO_OIDS: Argument = (ArgShape::Oids, Bat(&[]));

/// One pair.
const ONE_OID: Argument = (ArgShape::Oids, Bat(&[(Oid(5), Oid(0))]));

/// A Nil pair.
const NIL_OIDS: Argument = (ArgShape::Oids, Bat(&[(Oid(5), Oid(0)), (Nil, Nil)]));

/// A group twice.
const OIDS: Argument = (
    ArgShape::Oids,
    Bat(&[(Oid(5), Oid(7)), (Oid(6), Oid(2)), (Oid(8), Oid(7))]),
);

/// No pairs of bits.
const NO_BITS: Argument = (ArgShape::Bits, Bat(&[]));

/// One pair.
const ONE_BIT: Argument = (ArgShape::Bits, Bat(&[(Oid(0), Bit(true))]));

/// Nil and both bits.
const BITS: Argument = (
    ArgShape::Bits,
    Bat(&[(Oid(0), Nil), (Oid(1), Bit(false)), (Oid(2), Bit(true))]),
);

/// Two groups, each of which DAYS splits.
const TWO_GROUPS: Argument = (
    ArgShape::Oids,
    Bat(&[
        (Oid(0), Oid(0)),
        (Oid(1), Oid(0)),
        (Oid(2), Oid(1)),
        (Oid(3), Oid(1)),
        (Oid(4), Oid(0)),
    ]),
);

/// Days, of which one comes three times.
const DAYS: Argument = (
    ArgShape::Days,
    Bat(&[
        (Oid(0), Day(-1)),
        (Oid(1), Day(2_147_483_647)),
        (Oid(2), Day(-1)),
        (Oid(3), Day(0)),
        (Oid(4), Day(-1)),
    ]),
);

/// The same day around Nil.
const NIL_DAYS: Argument = (
    ArgShape::Days,
    Bat(&[(Oid(0), Day(7)), (Oid(1), Nil), (Oid(2), Day(7))]),
);

/// A number.
const TWO: Argument = (ArgShape::Int, One(Int(2)));

/// Nil as a number.
const NO_INT: Argument = (ArgShape::Int, One(Nil));

/// A bit.
const TRUE: Argument = (ArgShape::Bit, One(Bit(true)));

/// A bit.
const FALSE: Argument = (ArgShape::Bit, One(Bit(false)));

/// Nil as a bit.
const NO_BIT: Argument = (ArgShape::Bit, One(Nil));

/// Nil as an oid.
const NO_OID: Argument = (ArgShape::Oid, One(Nil));
