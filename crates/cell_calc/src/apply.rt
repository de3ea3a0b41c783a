//! The functions of cells by the operators of plans.
ghost use Rattle.std.specs.Prelude.{◌≡◌, ◌∷◌, []};
ghost use Rattle.cell_core.specs.Calc.{row_function};

use crate::function::{
    both, difference, either, has_no_value, is_above, is_at_least, is_at_most, is_below, is_equal,
    is_unequal, opposite, product, sum,
};
use cell_core::{Cell, Op};

/// What an operator gives of two cells; none where it overflows, or is no function of two cells.
pub fn apply_two(op: Op, x: &Cell, y: &Cell) -> Option<Cell>
    ensures value { result ≡ row_function op (x.now ∷ y.now ∷ []) }
{
    match op {
        Op::Plus => sum(x, y),
        Op::Minus => difference(x, y),
        Op::Times => product(x, y),
        Op::Eq => Some(is_equal(x, y)),
        Op::Ne => Some(is_unequal(x, y)),
        Op::Lt => Some(is_below(x, y)),
        Op::Le => Some(is_at_most(x, y)),
        Op::Gt => Some(is_above(x, y)),
        Op::Ge => Some(is_at_least(x, y)),
        Op::And => Some(both(x, y)),
        Op::Or => Some(either(x, y)),
        _ => None,
    }
}

/// What an operator gives of one cell; none where it is no function of one cell.
pub fn apply_one(op: Op, x: &Cell) -> Option<Cell>
    ensures value { result ≡ row_function op (x.now ∷ []) }
{
    match op {
        Op::Not => Some(opposite(x)),
        Op::IsNil => Some(has_no_value(x)),
        _ => None,
    }
}
