ghost use Rattle.std.specs.Prelude.{◌≡◌, ◌≤◌, ◌++◌, [], Some, None, length, drop, IfOk, OnOk, IsErrOf};
ghost use Rattle.sql_tree.specs.Tokens.{AreTokens, with_token};
ghost use Rattle.read_laws.specs.TokenLaws.{HasNoTokens};
ghost use Rattle.read_laws.specs.TokenReader as reader;

use crate::part::part;
use cell_core::{Memory, Sequence};
use sql_tree::{Placed, Token};
use std::alloc::Global;
use thiserror::Error;

/// Why a text has no tokens.
#[derive(Clone, Copy, Debug, PartialEq, Eq, Drop, Error)]
pub enum TokensError {
    /// Some character begins no token, or begins a quoted name, a string or a `/*` that never ends.
    #[error("no tokens")]
    Syntax,
    /// Memory ran out.
    #[error("memory ran out")]
    Memory,
}

impl From<Memory> for TokensError {
    ghost use Rattle.sql_tokens.specs.declared.reading.TokensError.TheVariants.{Memory as TokensMemory};

    ghost from_gives = { λ _ e. e ≡ TokensMemory };

    fn from(_e: Memory) -> TokensError {
        TokensError::Memory
    }
}

/// The tokens of a text, in order and with their places.
pub fn tokens(alloc: Global, text: &str) -> Result<Sequence<Placed>, TokensError>
    ensures tokens { IfOk result (λ tokens. AreTokens text.now tokens) }
    ensures none { IsErrOf result TokensError.Syntax → HasNoTokens text.now }
{
    match read_tokens(alloc, text) {
        Ok(tokens) => Ok(tokens),
        Err(e) => Err(e),
    }
}

fn read_tokens(alloc: Global, text: &str) -> Result<Sequence<Placed>, TokensError>
    ensures tokens { IfOk result (λ tokens. reader.tokens_after (length text.now) 0 text.now ≡ Some tokens) }
    ensures none { IsErrOf result TokensError.Syntax → reader.tokens_after (length text.now) 0 text.now ≡ None }
{
    let bytes = text.as_bytes();
    let mut tokens = Sequence::new(alloc);
    let mut rest = bytes;
    'parts: while let Some((first, after)) = rest.split_first() {
        let (token, length) = part(alloc, *first, after)?;
        let next = &after[length..];
        let (start, end) = (bytes.len() - rest.len(), bytes.len() - next.len());
        keep(&mut tokens, token, start, end)?;
        rest = next;
    }
    Ok(tokens)
}

/// Adds the token, where there is one.
fn keep(
    tokens: &mut Sequence<Placed>,
    token: Option<Token>,
    start: usize,
    end: usize,
) -> Result<(), Memory>
    ensures { OnOk result (tokens.new ≡ tokens.old ++ reader.placed start end token) }
{
    if let Some(token) = token {
        tokens.push(Placed { token, start, end })?;
    }
    Ok(())
}
