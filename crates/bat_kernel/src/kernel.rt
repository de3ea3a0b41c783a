//! The kernel.
use crate::value::value;
use bat_core::{Obj, Operate};
use cell_core::{Op, RunError, Steps};
use std::alloc::Global;
use std::sync::ledger::Ledger;

/// The machine that runs the operators of plans over BATs and scalars. It keeps nothing.
#[derive(Clone, Copy, Default, PartialEq, Eq)]
pub struct Kernel;

impl Kernel {
    /// The kernel, which takes no memory.
    pub fn new() -> Kernel {
        Kernel
    }
}

impl Operate for Kernel {
    fn run<L: Ledger>(
        &self,
        alloc: Global,
        op: Op,
        args: &[Obj],
        steps: &mut Steps<L>,
    ) -> Result<Obj, RunError> {
        value(alloc, op, args, steps)
    }
}
