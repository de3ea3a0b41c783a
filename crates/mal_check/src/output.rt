//! The faults of an output.
ghost use Rattle.std.specs.Prelude.{◌≡◌, length};
ghost use Rattle.std.specs.List.{list_all};
ghost use Rattle.mal_check.specs.Checked as checked;
ghost use Rattle.mal_check.specs.Types.{types_of};

use crate::error::PlanError;
use crate::kinds::{ValueKind, arg_kind};
use cell_calc::agrees;
use cell_core::{Arg, Kind};
use mal_meaning::Out;

/// The argument is a constant, or the result of an instruction.
fn is_known(kinds: &[ValueKind], arg: &Arg) -> bool
    ensures { result ≡ checked.is_known (types_of kinds.now) arg.now }
{
    arg_kind(kinds, arg).is_some()
}

/// All are constants or results of instructions.
fn are_known(kinds: &[ValueKind], args: &[Arg]) -> bool
    ensures { result ≡ list_all (checked.is_known (types_of kinds.now)) args.now }
{
    let mut rest = args;
    'args: while let [arg, more @ ..] = rest {
        if !is_known(kinds, arg) {
            return false;
        }
        rest = more;
    }
    true
}

/// The argument of `keep`, if there is one, is a constant or the result of an instruction.
fn is_keep_known(kinds: &[ValueKind], keep: &Option<Arg>) -> bool
    ensures { result ≡ checked.passes (checked.is_known (types_of kinds.now)) keep.now }
{
    match keep {
        Some(arg) => is_known(kinds, arg),
        None => true,
    }
}

/// The argument is a scalar that may be a bit.
fn is_bit(kinds: &[ValueKind], arg: &Arg) -> bool
    ensures { result ≡ checked.is_bit (types_of kinds.now) arg.now }
{
    match arg_kind(kinds, arg) {
        Some(ValueKind::One(kind)) => agrees(kind, Some(Kind::Bit)),
        _ => false,
    }
}

/// The argument of `keep`, if there is one, is a scalar that may be a bit.
fn is_keep_bit(kinds: &[ValueKind], keep: &Option<Arg>) -> bool
    ensures { result ≡ checked.passes (checked.is_bit (types_of kinds.now)) keep.now }
{
    match keep {
        Some(arg) => is_bit(kinds, arg),
        None => true,
    }
}

/// The places of an order's keys are below the number of columns.
fn are_below(order: &[(u32, bool)], count: usize) -> bool
    ensures { result ≡ checked.are_below count order.now }
{
    let mut rest = order;
    'keys: while let [key, more @ ..] = rest {
        if key.0 as usize >= count {
            return false;
        }
        rest = more;
    }
    true
}

/// The first fault of an output after instructions of these kinds, of which there are `number`.
pub(crate) fn out_fault(kinds: &[ValueKind], out: &Out, number: u32) -> Option<PlanError>
    requires { number ≡ length kinds.now }
    ensures { result ≡ checked.out_fault (types_of kinds.now) out.now }
{
    if out.cols.as_slice().is_empty() {
        Some(PlanError::NoOutput)
    } else if !(are_known(kinds, out.cols.as_slice()) && is_keep_known(kinds, &out.keep)) {
        Some(PlanError::UnknownVar(number))
    } else if !are_below(out.order.as_slice(), out.cols.len()) {
        Some(PlanError::WrongCount(number))
    } else if !is_keep_bit(kinds, &out.keep) {
        Some(PlanError::KindsDiffer(number))
    } else {
        None
    }
}
