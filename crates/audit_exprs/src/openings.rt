//! What opens a part of several parts.
ghost use Rattle.std.specs.Prelude.{◌≡◌};
ghost use Rattle.sql_grammar.specs.Reads.{tokens_in};
ghost use Rattle.read_laws.specs.Chain.{first_token, after_first};
ghost use Rattle.audit_exprs.specs.CondLevels as conds;
ghost use Rattle.audit_exprs.specs.ExprLevels as exprs;

use crate::ahead::has_test;
use crate::cursor::{TokenCursor, digits_of, first_of};
use sql_tree::{Keyword, Symbol, Token};

/// What opens a part of several parts.
#[derive(Clone, Copy)]
pub(crate) enum Opening {
    /// A `-` that is no digits' sign, or a NOT.
    Prefix,
    /// A `(`.
    Parenthesis,
}

/// What opens a factor here.
pub(crate) fn expr_opening(tokens: &TokenCursor<'_>) -> Option<Opening>
    ensures { result ≡ exprs.expr_opening (first_token (tokens_in tokens.now.rest.now))
        (after_first (tokens_in tokens.now.rest.now)) }
{
    match tokens.rest {
        [first, after @ ..] => match &first.token {
            Token::Symbol(Symbol::Open) => Some(Opening::Parenthesis),
            Token::Symbol(Symbol::Minus) => match digits_of(first_of(after)) {
                Some(_) => None,
                None => Some(Opening::Prefix),
            },
            _ => None,
        },
        [] => None,
    }
}

/// What opens a unit of a condition here.
pub(crate) fn cond_opening(tokens: &TokenCursor<'_>) -> Option<Opening>
    ensures { result ≡ conds.cond_opening (first_token (tokens_in tokens.now.rest.now))
        (after_first (tokens_in tokens.now.rest.now)) }
{
    match tokens.rest {
        [first, after @ ..] => match &first.token {
            Token::Key(Keyword::Not) => Some(Opening::Prefix),
            Token::Symbol(Symbol::Open) => {
                if has_test(after) {
                    Some(Opening::Parenthesis)
                } else {
                    None
                }
            }
            _ => None,
        },
        [] => None,
    }
}
