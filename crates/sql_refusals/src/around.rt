//! Tokens by their index, and what is around one.
ghost use Rattle.std.specs.Prelude.{◌≡◌, slice_get};
ghost use Rattle.std.specs.Option.{option_copied};
ghost use Rattle.sql_grammar.specs.Reads.{tokens_in};
ghost use Rattle.sql_grammar.specs.Refused as refused;

use sql_tree::{Keyword, Placed, Symbol, Token};

/// The token at an index.
pub(crate) fn token_at(tokens: &[Placed], i: usize) -> Option<&Token>
    ensures { option_copied result ≡ slice_get (tokens_in tokens.now) i }
{
    match tokens.get(i) {
        None => None,
        Some(placed) => Some(&placed.token),
    }
}

/// The token before an index.
pub(crate) fn before(tokens: &[Placed], i: usize) -> Option<&Token>
    ensures { option_copied result ≡ refused.before (tokens_in tokens.now) i }
{
    if i == 0 {
        return None;
    }
    token_at(tokens, i - 1)
}

/// Whether it is this keyword.
pub(crate) fn is_explain(token: Option<&Token>) -> bool
    ensures { result ≡ refused.is_explain (option_copied token.entry) }
{
    matches!(token, Some(Token::Key(Keyword::Explain)))
}

pub(crate) fn is_select(token: Option<&Token>) -> bool
    ensures { result ≡ refused.is_select (option_copied token.entry) }
{
    matches!(token, Some(Token::Key(Keyword::Select)))
}

pub(crate) fn is_open(token: Option<&Token>) -> bool
    ensures { result ≡ refused.is_open (option_copied token.entry) }
{
    matches!(token, Some(Token::Symbol(Symbol::Open)))
}

pub(crate) fn is_star(token: Option<&Token>) -> bool
    ensures { result ≡ refused.is_star (option_copied token.entry) }
{
    matches!(token, Some(Token::Symbol(Symbol::Star)))
}

pub(crate) fn is_digits(token: Option<&Token>) -> bool
    ensures { result ≡ refused.is_digits (option_copied token.entry) }
{
    matches!(token, Some(Token::Digits(_)))
}

/// Whether it begins a statement in which a call is refused.
pub(crate) fn has_expressions(token: Option<&Token>) -> bool
    ensures { result ≡ refused.has_expressions (option_copied token.entry) }
{
    matches!(
        token,
        Some(Token::Key(Keyword::Select | Keyword::Explain | Keyword::Delete | Keyword::Update))
    )
}

/// Whether the token at the index is the first, or the one directly after a first EXPLAIN.
pub(crate) fn leads(tokens: &[Placed], i: usize) -> bool
    ensures { result ≡ refused.leads (tokens_in tokens.now) i }
{
    i == 0 || (i == 1 && is_explain(token_at(tokens, 0)))
}
