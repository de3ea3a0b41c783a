ghost use Rattle.std.specs.Prelude.{◌≡◌, ◌-◌, ◌<◌, ◌&&◌, IfOk, Some, length};
ghost use Rattle.sql_tree.specs.declared.token.Token.TheVariants as token;
ghost use Rattle.std.specs.Option.{option_copied};
ghost use Rattle.sql_grammar.specs.Reads.{tokens_in};
ghost use Rattle.sql_grammar.specs.Refused.{IsFirstRule};
ghost use Rattle.sql_grammar.specs.Refused as refused;

use crate::around::{
    before, has_expressions, is_digits, is_open, is_select, is_star, leads, token_at,
};
use cell_core::{Memory, Word, word_of};
use sql_tree::{Keyword, Placed, Symbol, Token};
use std::alloc::Global;

/// The name of the first token to which a rule of the profile applies: what the profile leaves out of
/// SQL, in upper case. None where no rule applies.
pub fn first_rule(alloc: Global, tokens: &[Placed]) -> Result<Option<Word>, Memory>
    ensures { IfOk result (λ name. IsFirstRule (tokens_in tokens.now) name) }
{
    'tokens: for i in 0..tokens.len() {
        let name = rule_at(alloc, tokens, i)?;
        match name {
            None => {}
            Some(name) => return Ok(Some(name)),
        }
    }
    Ok(None)
}

/// The name by the rule of one token, where one applies.
fn rule_at(alloc: Global, tokens: &[Placed], i: usize) -> Result<Option<Word>, Memory>
    requires { i < length tokens.now }
    ensures { IfOk result (λ name. name ≡ refused.rule_at (tokens_in tokens.now) i) }
{
    match &tokens[i].token {
        Token::Unsupported(word) => upper(alloc, word),
        Token::Key(keyword) => keyword_rule(alloc, tokens, i, *keyword),
        Token::Symbol(symbol) => symbol_rule(alloc, tokens, i, *symbol),
        Token::Name(_) | Token::Quoted(_) => call_rule(alloc, tokens, i),
        Token::Text(_) | Token::Digits(_) => Ok(None),
    }
}

/// A word in upper case.
fn upper(alloc: Global, word: &Word) -> Result<Option<Word>, Memory>
    ensures { IfOk result (λ name. name ≡ Some (refused.upper word.now)) }
{
    let upper = word.text().to_ascii_uppercase(alloc)?;
    Ok(Some(word_of(alloc, upper.as_str())?))
}

/// SELECT inside a statement, and DISTINCT anywhere but after a leading SELECT.
fn keyword_rule(
    alloc: Global,
    tokens: &[Placed],
    i: usize,
    keyword: Keyword,
) -> Result<Option<Word>, Memory>
    ensures { IfOk result (λ name. name ≡ refused.rule_of (tokens_in tokens.now) i (Some (token.Key keyword))) }
{
    match keyword {
        Keyword::Select if !leads(tokens, i) => named(alloc, "SUBQUERY"),
        Keyword::Distinct if !leads_distinct(tokens, i) => named(alloc, "DISTINCT"),
        _ => Ok(None),
    }
}

/// Whether a leading SELECT comes directly before the index.
fn leads_distinct(tokens: &[Placed], i: usize) -> bool
    ensures { result ≡ (refused.is_select (refused.before (tokens_in tokens.now) i) && refused.leads (tokens_in tokens.now) (i - 1)) }
{
    is_select(before(tokens, i)) && leads(tokens, i.saturating_sub(1))
}

/// The operators that are left out, and dots.
fn symbol_rule(
    alloc: Global,
    tokens: &[Placed],
    i: usize,
    symbol: Symbol,
) -> Result<Option<Word>, Memory>
    requires { i < length tokens.now }
    ensures { IfOk result (λ name. name ≡ refused.rule_of (tokens_in tokens.now) i (Some (token.Symbol symbol))) }
{
    match symbol {
        Symbol::Slash => named(alloc, "DIVISION"),
        Symbol::Percent => named(alloc, "MODULO"),
        Symbol::Bars => named(alloc, "CONCAT"),
        Symbol::Dot => dot_rule(alloc, tokens, i),
        _ => Ok(None),
    }
}

/// A dot beside digits, or before a star.
fn dot_rule(alloc: Global, tokens: &[Placed], i: usize) -> Result<Option<Word>, Memory>
    requires { i < length tokens.now }
    ensures { IfOk result (λ name. name ≡ refused.dot_rule (tokens_in tokens.now) i) }
{
    let next = token_at(tokens, i + 1);
    if is_digits(before(tokens, i)) || is_digits(next) {
        return named(alloc, "DECIMAL");
    }
    if is_star(next) {
        return named(alloc, "QUALIFIED STAR");
    }
    Ok(None)
}

/// A name that is written like a call.
fn call_rule(alloc: Global, tokens: &[Placed], i: usize) -> Result<Option<Word>, Memory>
    requires { i < length tokens.now }
    ensures { IfOk result (λ name. name ≡ refused.call_rule (tokens_in tokens.now) i) }
{
    if has_expressions(token_at(tokens, 0)) && is_open(token_at(tokens, i + 1)) {
        return named(alloc, "FUNCTION");
    }
    Ok(None)
}

/// A name.
fn named(alloc: Global, name: &str) -> Result<Option<Word>, Memory>
    ensures { IfOk result (λ word. word ≡ Some name.now) }
{
    Ok(Some(word_of(alloc, name)?))
}
