//! A law about the levels at a token. The call computes nothing.
ghost use Rattle.sql_grammar.specs.Nesting.{DeepIsOpen};

/// Tokens are too deep exactly where more than 512 constructs are open before one of them: parentheses,
/// and each NOT and `-` directly before an open one or before the token.
pub fn deep_is_open()
    ensures { DeepIsOpen }
{}
