ghost use Rattle.std.specs.Prelude.{◌≡◌};

use cell_core::Memory;
use sql_definitions::Refusal;
use thiserror::Error;

/// Why a statement isn't accepted.
#[derive(Debug, Drop, Error)]
pub enum CheckError {
    /// It is refused.
    #[error("the statement is refused")]
    Refused(Refusal),
    /// Memory ran out, or a table has 2^32 columns or more.
    #[error("memory ran out")]
    Memory,
}

impl From<Memory> for CheckError {
    ghost use Rattle.sql_check.specs.declared.error.CheckError.TheVariants.{Memory as CheckMemory};

    ghost from_gives = { λ _ e. e ≡ CheckMemory };

    fn from(_e: Memory) -> CheckError {
        CheckError::Memory
    }
}
