ghost use Rattle.cell_core.specs.declared.memory.RunError.TheVariants.{Memory as RunMemory};
ghost use Rattle.std.specs.Prelude.{◌≡◌};

use std::alloc::{AllocError, AllocFailed};

/// Memory ran out. It is the only error that may come at any time.
#[derive(Clone, Copy, Debug, PartialEq, Eq)]
pub struct Memory;

impl From<AllocError> for Memory {
    fn from(_e: AllocError) -> Memory {
        Memory
    }
}

impl<T: Drop> From<AllocFailed<T>> for Memory {
    fn from(_e: AllocFailed<T>) -> Memory {
        Memory
    }
}

/// Why a computation has no value.
#[derive(Clone, Copy, Debug, PartialEq, Eq)]
pub enum RunError {
    /// A number leaves the signed 64-bit range.
    Overflow,
    /// Memory ran out.
    Memory,
}

impl From<Memory> for RunError {
    ghost from_gives = { λ _ e. e ≡ RunMemory };

    fn from(_e: Memory) -> RunError {
        RunError::Memory
    }
}
