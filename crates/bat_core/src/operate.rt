//! The operators of plans over BATs and scalars.
ghost use Rattle.std.specs.Prelude.{◌≡◌, ◌+◌, ◌≤◌, Some, None, IfOk, OnOk};
ghost use Rattle.cell_core.specs.Operators.{operate, work_of};
ghost use Rattle.cell_core.specs.Kinds.{Fits};
ghost use Rattle.bat_core.specs.Objects.{value_of, values_of};

use crate::shared::Obj;
use cell_core::{Op, RunError, Steps};
use std::alloc::Global;
use std::sync::ledger::Ledger;

/// A machine that runs the operators of plans.
pub trait Operate {
    /// The value of an operator on arguments that fit it. None fit `Op::Bind`, whose value is a
    /// column of a database. The counter rises by the stated work, and on `Overflow` by at most
    /// that.
    fn run<L: Ledger>(
        &self,
        alloc: Global,
        op: Op,
        args: &[Obj],
        steps: &mut Steps<L>,
    ) -> Result<Obj, RunError>
        requires fit { Fits op (values_of args.now) }
        ensures value { IfOk result (λ out. operate op (values_of args.now) ≡ Some (value_of out)) }
        ensures work { OnOk result (steps.new ≡ steps.old + work_of op (values_of args.now)) }

        // Overflow comes exactly where there is no value.
        ensures overflow { result ≡ Err RunError.Overflow → operate op (values_of args.now) ≡ None }
        ensures later { result ≡ Err RunError.Overflow → steps.old ≤ steps.new }
        ensures within { result ≡ Err RunError.Overflow → steps.new ≤ steps.old + work_of op (values_of args.now) };
}
