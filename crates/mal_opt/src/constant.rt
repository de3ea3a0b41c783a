//! The value of a calculation of constants.
ghost use Rattle.std.specs.Prelude.{◌≡◌, ◌∷◌, []};
ghost use Rattle.mal_opt.specs.Passes as passes;
ghost use Rattle.mal_opt.specs.Parts.{given_constants};

use cell_calc::{apply_one, apply_two};
use cell_core::{Arg, Cell, Instr, Op};

/// The value of an operator on two arguments that are constants.
#[tactic(auto, using(crate::proofs::ConstantLemmas::scalar_of_two))]
fn over_two(op: Op, x: &Arg, y: &Arg) -> Option<Cell>
    ensures { result ≡ given_constants op (x.now ∷ y.now ∷ []) }
{
    let (Arg::Const(x), Arg::Const(y)) = (x, y) else {
        return None;
    };
    apply_two(op, x, y)
}

/// The value of an operator on an argument that is a constant.
#[tactic(auto, using(crate::proofs::ConstantLemmas::scalar_of_one))]
fn over_one(op: Op, x: &Arg) -> Option<Cell>
    ensures { result ≡ given_constants op (x.now ∷ []) }
{
    let Arg::Const(x) = x else {
        return None;
    };
    apply_one(op, x)
}

/// The value of an operator on arguments that are all constants; functions of cells alone take
/// such.
fn over_constants(op: Op, args: &[Arg]) -> Option<Cell>
    ensures { result ≡ given_constants op args.now }
{
    match args {
        [x] => over_one(op, x),
        [x, y] => over_two(op, x, y),
        _ => None,
    }
}

/// The value of an instruction, where all its arguments are constants and it doesn't overflow.
#[tactic(auto, using(crate::proofs::ConstantLemmas::given_is))]
pub(crate) fn constant_value(instr: &Instr) -> Option<Cell>
    ensures { result ≡ passes.constant_value instr.now }
{
    over_constants(instr.op, instr.args.as_slice())
}
