//! The functions of two cells, by name.
ghost use Rattle.std.specs.Prelude.{◌≡◌};
ghost use Rattle.bat_calc.specs.Functions.{function_of};

use cell_calc::{
    both, difference, either, has_no_value, is_above, is_at_least, is_at_most, is_below, is_equal,
    is_unequal, opposite, product, sum,
};
use cell_core::Cell;

/// A function of two cells.
#[derive(Clone, Copy, PartialEq, Eq)]
pub(crate) enum Function {
    /// The sum.
    Plus,
    /// The difference.
    Minus,
    /// The product.
    Times,
    /// Whether both are equal.
    Eq,
    /// Whether they differ.
    Ne,
    /// Whether the first is below the second.
    Lt,
    /// Whether the first is at most the second.
    Le,
    /// Whether the first is above the second.
    Gt,
    /// Whether the first is at least the second.
    Ge,
    /// Whether both are true.
    And,
    /// Whether one is true.
    Or,
    /// Whether the first is false.
    Not,
    /// Whether the first is Nil.
    IsNil,
}

/// The function's cell; None is an overflow.
pub(crate) fn apply(function: Function, x: &Cell, y: &Cell) -> Option<Cell>
    ensures { result ≡ function_of function x.now y.now }
{
    match function {
        Function::Plus => sum(x, y),
        Function::Minus => difference(x, y),
        Function::Times => product(x, y),
        Function::Eq => Some(is_equal(x, y)),
        Function::Ne => Some(is_unequal(x, y)),
        Function::Lt => Some(is_below(x, y)),
        Function::Le => Some(is_at_most(x, y)),
        Function::Gt => Some(is_above(x, y)),
        Function::Ge => Some(is_at_least(x, y)),
        Function::And => Some(both(x, y)),
        Function::Or => Some(either(x, y)),
        Function::Not => Some(opposite(x)),
        Function::IsNil => Some(has_no_value(x)),
    }
}
