ghost use Rattle.std.specs.Prelude.{◌≡◌};

use cell_core::{Memory, Word};
use mal_check::PlanError;
use std::alloc::AllocFailed;
use thiserror::Error;

/// Why a text, or a part of it, isn't read.
#[derive(Clone, Copy, PartialEq, Eq, Drop)]
pub(crate) enum BlockError {
    /// The grammar derives nothing from it.
    NoBlock,
    /// Memory ran out.
    Memory,
}

impl From<Memory> for BlockError {
    ghost use Rattle.mal_text.specs.declared.error.BlockError.TheVariants.{Memory as ReadMemory};

    ghost from_gives = { λ _ e. e ≡ ReadMemory };

    fn from(_e: Memory) -> BlockError {
        BlockError::Memory
    }
}

impl<T: Drop> From<AllocFailed<T>> for BlockError {
    ghost use Rattle.mal_text.specs.declared.error.BlockError.TheVariants.{Memory as ReadMemory};

    ghost from_gives = { λ _ e. e ≡ ReadMemory };

    fn from(_e: AllocFailed<T>) -> BlockError {
        BlockError::Memory
    }
}

/// Why a text doesn't read as a plan.
#[derive(Debug, Drop, Error)]
pub enum MalError {
    /// The grammar derives no block from it.
    #[error("no block")]
    NoBlock,
    /// This function, the first such one, is no operator's.
    #[error("an unknown function")]
    UnknownOp(Word),
    /// The plan has this fault.
    #[error("a fault of the plan")]
    Plan(PlanError),
    /// Memory ran out.
    #[error("memory ran out")]
    Memory,
}

impl From<Memory> for MalError {
    ghost use Rattle.mal_text.specs.declared.error.MalError.TheVariants.{Memory as MalMemory};

    ghost from_gives = { λ _ e. e ≡ MalMemory };

    fn from(_e: Memory) -> MalError {
        MalError::Memory
    }
}
