//! BATs with head and tail exchanged, and heads beside themselves.
ghost use Rattle.std.specs.Prelude.{◌≡◌, ◌+◌, length, IfOk, OnErr};
ghost use Rattle.cell_core.specs.Relations.{reversed, mirrored};

use bat_core::Bat;
use cell_core::{Memory, Steps};
use std::alloc::Global;
use std::sync::ledger::Ledger;

/// Each pair with head and tail exchanged. Both columns are shared.
pub fn reverse<L: Ledger>(alloc: Global, b: &Bat, steps: &mut Steps<L>) -> Result<Bat, Memory>
    ensures value { IfOk result (λ out. out ≡ reversed b.now) }
    ensures work { IfOk result (λ out. steps.new ≡ steps.old + (length b.now + length out)) }
    ensures unchanged { OnErr result (steps.new ≡ steps.old) }
{
    let out = b.reversed(alloc)?;
    steps.add(b.len() + out.len());
    Ok(out)
}

/// Each head beside itself, in one column that is shared.
pub fn mirror<L: Ledger>(alloc: Global, b: &Bat, steps: &mut Steps<L>) -> Result<Bat, Memory>
    ensures value { IfOk result (λ out. out ≡ mirrored b.now) }
    ensures work { IfOk result (λ out. steps.new ≡ steps.old + (length b.now + length out)) }
    ensures unchanged { OnErr result (steps.new ≡ steps.old) }
{
    let out = b.mirrored(alloc)?;
    steps.add(b.len() + out.len());
    Ok(out)
}
