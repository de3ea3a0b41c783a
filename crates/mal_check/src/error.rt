ghost use Rattle.std.specs.Prelude.{◌≡◌};

use cell_core::Memory;
use thiserror::Error;

/// The first fault of a plan. An instruction is named by its number, counted from 0, and the output
/// by the number of instructions.
#[derive(Clone, Copy, Debug, PartialEq, Eq, Drop, Error)]
pub enum PlanError {
    /// An argument is a result, but of no earlier instruction.
    #[error("instruction {0} uses a result that isn't there")]
    UnknownVar(u32),
    /// The kinds of the arguments don't fit the operator, or `keep` is no bit.
    #[error("instruction {0} has arguments of other kinds")]
    KindsDiffer(u32),
    /// The operator takes another number of arguments, or a key of the order is no column.
    #[error("instruction {0} has another number of arguments")]
    WrongCount(u32),
    /// No instruction is at fault, and there is no column.
    #[error("the plan has no output")]
    NoOutput,
    /// Memory ran out, or a number of an instruction doesn't fit 32 bits.
    #[error("memory ran out")]
    Memory,
}

impl From<Memory> for PlanError {
    ghost use Rattle.mal_check.specs.declared.error.PlanError.TheVariants.{Memory as PlanMemory};

    ghost from_gives = { λ _ e. e ≡ PlanMemory };

    fn from(_e: Memory) -> PlanError {
        PlanError::Memory
    }
}
