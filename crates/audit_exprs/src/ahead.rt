//! What a `(` opens in a condition.
ghost use Rattle.std.specs.Prelude.{◌≡◌, zero};
ghost use Rattle.sql_grammar.specs.Reads.{tokens_in};
ghost use Rattle.audit_exprs.specs.Ahead as ahead;

use sql_tree::{Keyword, Placed, Symbol, Token};

/// Whether a test's word comes before the `)` that closes what is open.
pub(crate) fn has_test(tokens: &[Placed]) -> bool
    ensures { result ≡ ahead.has_test zero (tokens_in tokens.now) }
{
    let mut inside: usize = 0;
    let mut rest = tokens;
    'tokens: while let [placed, more @ ..] = rest {
        match &placed.token {
            Token::Symbol(Symbol::Open) => inside += 1,
            Token::Symbol(Symbol::Close) => {
                if inside == 0 {
                    return false;
                }
                inside -= 1;
            }
            token => {
                if is_test_word(token) {
                    return true;
                }
            }
        }
        rest = more;
    }
    false
}

/// Whether the token is a comparison, BETWEEN, IN or IS.
fn is_test_word(token: &Token) -> bool
    ensures { result ≡ ahead.is_test_word token.now }
{
    matches!(
        token,
        Token::Symbol(
            Symbol::Equal
                | Symbol::NotEqual
                | Symbol::BangEqual
                | Symbol::Less
                | Symbol::LessEqual
                | Symbol::Greater
                | Symbol::GreaterEqual
        ) | Token::Key(Keyword::Between | Keyword::In | Keyword::Is)
    )
}
