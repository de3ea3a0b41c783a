ghost use Rattle.std.specs.Prelude.{◌≡◌, ◌++◌, Some, None, IfOk, OnOk, IsErrOf};
ghost use Rattle.mal_tokens.specs.Bytes as reader;
ghost use Rattle.mal_tokens.specs.Laws.{HasNoTokens};
ghost use Rattle.mal_tokens.specs.Tokens.{AreTokens};

use crate::error::MalTokensError;
use crate::part::part;
use crate::token::MalToken;
use cell_core::{Memory, Sequence};
use std::alloc::Global;

/// The tokens of a text, in order.
pub fn tokens(alloc: Global, text: &str) -> Result<Sequence<MalToken>, MalTokensError>
    ensures tokens { IfOk result (λ tokens. AreTokens text.now tokens) }
    ensures none { IsErrOf result MalTokensError.Syntax → HasNoTokens text.now }
{
    match read_tokens(alloc, text) {
        Ok(tokens) => Ok(tokens),
        Err(e) => Err(e),
    }
}

fn read_tokens(alloc: Global, text: &str) -> Result<Sequence<MalToken>, MalTokensError>
    ensures tokens { IfOk result (λ tokens. reader.tokens_after 0 text.now ≡ Some tokens) }
    ensures none { IsErrOf result MalTokensError.Syntax → reader.tokens_after 0 text.now ≡ None }
{
    let mut tokens = Sequence::new(alloc);
    let mut rest = text.as_bytes();
    'parts: while let Some((first, after)) = rest.split_first() {
        let (token, length) = part(alloc, *first, after)?;
        keep(&mut tokens, token)?;
        rest = &after[length..];
    }
    Ok(tokens)
}

/// Adds the token, where there is one.
fn keep(tokens: &mut Sequence<MalToken>, token: Option<MalToken>) -> Result<(), Memory>
    ensures { OnOk result (tokens.new ≡ tokens.old ++ reader.listed token) }
{
    if let Some(token) = token {
        tokens.push(token)?;
    }
    Ok(())
}
