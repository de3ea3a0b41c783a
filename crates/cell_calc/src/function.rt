//! The functions of one cell and of two.
ghost use Rattle.std.specs.Prelude.{◌≡◌, ◌||◌, Some, ◌+ℤ◌, ◌-ℤ◌, ◌*ℤ◌};
ghost use Rattle.std.specs.Ordering.{is_eq, is_ne, is_lt, is_le, is_gt, is_ge};
ghost use Rattle.cell_core.specs.Calc.{arithmetic, as_int, comparison, conjunction, disjunction, negation, nil_test};
ghost use Rattle.cell_core.specs.Pairs.{is_nil};
ghost use Rattle.cell_core.specs.Order.{number};

use cell_core::{Cell, compare};

/// Whether one of two cells is Nil.
fn one_is_nil(x: &Cell, y: &Cell) -> bool
    ensures { result ≡ (is_nil x.now || is_nil y.now) }
{
    x.is_nil() || y.is_nil()
}

/// What a cell counts as among those of its kind.
pub(crate) fn number_of(cell: &Cell) -> i128
    ensures { result ≡ number cell.now }
{
    match cell {
        Cell::Int(number) => i128::from(*number),
        Cell::Huge(number) => *number,
        Cell::Day(day) => i128::from(*day),
        Cell::Bit(bit) => i128::from(*bit),
        Cell::Oid(oid) => i128::from(*oid),
        Cell::Nil | Cell::Text(_) => 0,
    }
}

/// A number of 64 bits as a cell; None is an overflow.
fn int_cell(number: i128) -> Option<Cell>
    ensures { result ≡ as_int number }
{
    match i64::try_from(number) {
        Ok(number) => Some(Cell::Int(number)),
        Err(_) => None,
    }
}

/// The sum of two numbers of 64 bits; None is an overflow.
fn int_sum(x: i64, y: i64) -> Option<Cell>
    ensures { result ≡ as_int (x +ℤ y) }
{
    Some(Cell::Int(x.checked_add(y)?))
}

/// The difference of two numbers of 64 bits; None is an overflow.
fn int_difference(x: i64, y: i64) -> Option<Cell>
    ensures { result ≡ as_int (x -ℤ y) }
{
    Some(Cell::Int(x.checked_sub(y)?))
}

/// The product of two numbers of 64 bits; None is an overflow.
fn int_product(x: i64, y: i64) -> Option<Cell>
    ensures { result ≡ as_int (x *ℤ y) }
{
    Some(Cell::Int(x.checked_mul(y)?))
}

/// The sum of two numbers, or Nil where one is Nil. None is an overflow of 64 bits.
pub fn sum(x: &Cell, y: &Cell) -> Option<Cell>
    ensures value { result ≡ arithmetic (λ x y. x +ℤ y) x.now y.now }
{
    if let (Cell::Int(x), Cell::Int(y)) = (x, y) {
        return int_sum(*x, *y);
    }
    if one_is_nil(x, y) {
        return Some(Cell::Nil);
    }
    int_cell(number_of(x).checked_add(number_of(y))?)
}

/// The difference of two numbers, or Nil where one is Nil. None is an overflow of 64 bits.
pub fn difference(x: &Cell, y: &Cell) -> Option<Cell>
    ensures value { result ≡ arithmetic (λ x y. x -ℤ y) x.now y.now }
{
    if let (Cell::Int(x), Cell::Int(y)) = (x, y) {
        return int_difference(*x, *y);
    }
    if one_is_nil(x, y) {
        return Some(Cell::Nil);
    }
    int_cell(number_of(x).checked_sub(number_of(y))?)
}

/// The product of two numbers, or Nil where one is Nil. None is an overflow of 64 bits.
pub fn product(x: &Cell, y: &Cell) -> Option<Cell>
    ensures value { result ≡ arithmetic (λ x y. x *ℤ y) x.now y.now }
{
    if let (Cell::Int(x), Cell::Int(y)) = (x, y) {
        return int_product(*x, *y);
    }
    if one_is_nil(x, y) {
        return Some(Cell::Nil);
    }
    int_cell(number_of(x).checked_mul(number_of(y))?)
}

/// Whether two cells are equal, or Nil where one is Nil.
pub fn is_equal(x: &Cell, y: &Cell) -> Cell
    ensures value { result ≡ comparison is_eq x.now y.now }
{
    if one_is_nil(x, y) {
        return Cell::Nil;
    }
    Cell::Bit(compare(x, y).is_eq())
}

/// Whether two cells differ, or Nil where one is Nil.
pub fn is_unequal(x: &Cell, y: &Cell) -> Cell
    ensures value { result ≡ comparison is_ne x.now y.now }
{
    if one_is_nil(x, y) {
        return Cell::Nil;
    }
    Cell::Bit(compare(x, y).is_ne())
}

/// Whether the first is below the second, or Nil where one is Nil.
pub fn is_below(x: &Cell, y: &Cell) -> Cell
    ensures value { result ≡ comparison is_lt x.now y.now }
{
    if one_is_nil(x, y) {
        return Cell::Nil;
    }
    Cell::Bit(compare(x, y).is_lt())
}

/// Whether the first is at most the second, or Nil where one is Nil.
pub fn is_at_most(x: &Cell, y: &Cell) -> Cell
    ensures value { result ≡ comparison is_le x.now y.now }
{
    if one_is_nil(x, y) {
        return Cell::Nil;
    }
    Cell::Bit(compare(x, y).is_le())
}

/// Whether the first is above the second, or Nil where one is Nil.
pub fn is_above(x: &Cell, y: &Cell) -> Cell
    ensures value { result ≡ comparison is_gt x.now y.now }
{
    if one_is_nil(x, y) {
        return Cell::Nil;
    }
    Cell::Bit(compare(x, y).is_gt())
}

/// Whether the first is at least the second, or Nil where one is Nil.
pub fn is_at_least(x: &Cell, y: &Cell) -> Cell
    ensures value { result ≡ comparison is_ge x.now y.now }
{
    if one_is_nil(x, y) {
        return Cell::Nil;
    }
    Cell::Bit(compare(x, y).is_ge())
}

/// Whether both are true, where Nil is unknown.
pub fn both(x: &Cell, y: &Cell) -> Cell
    ensures value { result ≡ conjunction x.now y.now }
{
    match (x, y) {
        (Cell::Bit(false), _) | (_, Cell::Bit(false)) => Cell::Bit(false),
        (Cell::Bit(true), Cell::Bit(true)) => Cell::Bit(true),
        _ => Cell::Nil,
    }
}

/// Whether one is true, where Nil is unknown.
pub fn either(x: &Cell, y: &Cell) -> Cell
    ensures value { result ≡ disjunction x.now y.now }
{
    match (x, y) {
        (Cell::Bit(true), _) | (_, Cell::Bit(true)) => Cell::Bit(true),
        (Cell::Bit(false), Cell::Bit(false)) => Cell::Bit(false),
        _ => Cell::Nil,
    }
}

/// The opposite, where Nil is unknown.
pub fn opposite(x: &Cell) -> Cell
    ensures value { result ≡ negation x.now }
{
    match x {
        Cell::Bit(bit) => Cell::Bit(!*bit),
        _ => Cell::Nil,
    }
}

/// Whether there is no value, true or false.
pub fn has_no_value(x: &Cell) -> Cell
    ensures value { result ≡ nil_test x.now }
{
    Cell::Bit(x.is_nil())
}
