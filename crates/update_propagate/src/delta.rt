ghost use Rattle.std.specs.Prelude.{◌≡◌, ◌+◌, ◌<◌, ◌^◌, IfOk, length};

use bat_core::{Bat, Shared};
use cell_core::Memory;
use std::alloc::Global;

/// What follows an old value.
#[derive(Drop)]
pub(crate) struct Delta {
    /// Its pairs.
    pub(crate) value: Shared,
    /// The work of the operator that was run for it.
    pub(crate) work: u64,
}

/// What an operator made of so many pairs.
pub(crate) fn made_of(alloc: Global, read: u64, out: Bat) -> Result<Delta, Memory>
    requires { read < 2 ^ 62 }
    ensures value { IfOk result (λ delta. delta.value ≡ out) }
    ensures work { IfOk result (λ delta. delta.work ≡ read + length out) }
{
    let work = read + out.len();
    let value = Shared::new(alloc, out)?;
    Ok(Delta { value, work })
}

/// What was made by no operator.
pub(crate) fn given(alloc: Global, value: Bat) -> Result<Delta, Memory>
    ensures value { IfOk result (λ delta. delta.value ≡ value) }
    ensures work { IfOk result (λ delta. delta.work ≡ 0) }
{
    let value = Shared::new(alloc, value)?;
    Ok(Delta { value, work: 0 })
}
