ghost use Rattle.std.specs.Prelude.{◌≡◌};

use cell_core::Memory;
use std::alloc::AllocFailed;
use thiserror::Error;

/// Why a text has no tokens.
#[derive(Clone, Copy, Debug, PartialEq, Eq, Drop, Error)]
pub enum MalTokensError {
    /// A character begins no token, a text in quotes isn't closed, or it has a byte that isn't
    /// allowed.
    #[error("no tokens")]
    Syntax,
    /// Memory ran out.
    #[error("memory ran out")]
    Memory,
}

impl From<Memory> for MalTokensError {
    ghost use Rattle.mal_tokens.specs.declared.error.MalTokensError.TheVariants.{Memory as TokensMemory};

    ghost from_gives = { λ _ e. e ≡ TokensMemory };

    fn from(_e: Memory) -> MalTokensError {
        MalTokensError::Memory
    }
}

impl<T: Drop> From<AllocFailed<T>> for MalTokensError {
    ghost use Rattle.mal_tokens.specs.declared.error.MalTokensError.TheVariants.{Memory as TokensMemory};

    ghost from_gives = { λ _ e. e ≡ TokensMemory };

    fn from(_e: AllocFailed<T>) -> MalTokensError {
        MalTokensError::Memory
    }
}
