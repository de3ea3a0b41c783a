ghost use Rattle.std.specs.Prelude.{◌≡◌};

use cell_core::Memory;
use sql_definitions::Refusal;
use sql_reader::TreeError;
use sql_tokens::TokensError;
use thiserror::Error;

/// Why a text isn't parsed.
#[derive(Debug, Drop, Error)]
pub enum ParseError {
    /// It is refused.
    #[error("the text is refused")]
    Refused(Refusal),
    /// Memory ran out.
    #[error("memory ran out")]
    Memory,
}

impl From<Memory> for ParseError {
    ghost use Rattle.sql_parse.specs.declared.error.ParseError.TheVariants.{Memory as ParseMemory};

    ghost from_gives = { λ _ e. e ≡ ParseMemory };

    fn from(_e: Memory) -> ParseError {
        ParseError::Memory
    }
}

impl From<TokensError> for ParseError {
    ghost use Rattle.sql_parse.specs.Errors.{error_of_tokens};

    ghost from_gives = { λ e made. made ≡ error_of_tokens e };

    fn from(e: TokensError) -> ParseError {
        match e {
            TokensError::Syntax => ParseError::Refused(Refusal::Syntax),
            TokensError::Memory => ParseError::Memory,
        }
    }
}

impl From<TreeError> for ParseError {
    ghost use Rattle.sql_parse.specs.Errors.{error_of_reading};

    ghost from_gives = { λ e made. made ≡ error_of_reading e };

    fn from(e: TreeError) -> ParseError {
        match e {
            TreeError::Syntax => ParseError::Refused(Refusal::Syntax),
            TreeError::Memory => ParseError::Memory,
        }
    }
}
