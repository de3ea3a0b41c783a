//! The first rule that applies and the levels of parentheses, in one scan.
ghost use Rattle.std.specs.Prelude.{◌≡◌, ◌<◌, ◌≤◌, ◌+◌, ◌∷◌, List, [], Some, length, slice_get, IfOk, OnOk};
ghost use Rattle.std.specs.Option.{option_copied};
ghost use Rattle.audit_read.specs.Gate.{AreLevels, IsGate, deep_from, dot_between};
ghost use Rattle.sql_grammar.specs.Reads.{tokens_in};
ghost use Rattle.sql_grammar.specs.Refused as refused;
ghost use Rattle.sql_tree.specs.declared.token.Keyword.TheVariants as word;
ghost use Rattle.sql_tree.specs.declared.token.Token.{Token as TokenSeen};
ghost use Rattle.sql_tree.specs.declared.token.Token.TheVariants as token;

use cell_core::{Memory, Word, word_of};
use sql_tree::{Keyword, Placed, Symbol, Token};
use std::alloc::Global;

/// The most levels at a token.
const MOST_LEVELS: usize = 512;

/// What a scan of tokens finds before a statement is read.
#[derive(Drop)]
pub(crate) enum Gate {
    /// No rule applies, and no token is too deep.
    Plain,
    /// The name of what is left out, by the first token to which a rule applies.
    Rule(Word),
    /// No rule applies, and some token has more than 512 levels.
    Deep,
}

/// The levels before a token.
struct Levels {
    /// The levels of each parenthesis that is open, the innermost last.
    opened: Vec<usize>,
    /// All of these together.
    total: usize,
    /// How many NOT and `-` come directly before the token.
    run: usize,
    /// Whether a token had more levels than the limit.
    deep: bool,
}

// By a call of its own, so that proofs needn't go through its parts where one is dropped.
impl Drop for Levels {
    fn drop(self) {
        let Levels {
            opened: _,
            total: _,
            run: _,
            deep: _,
        } = self;
    }
}

/// Scans tokens once, for the first rule that applies and for levels past the limit.
pub(crate) fn pass_gate(alloc: Global, tokens: &[Placed]) -> Result<Gate, Memory>
    ensures { IfOk result (λ gate. IsGate (tokens_in tokens.now) gate) }
{
    let mut levels = Levels::new(alloc);
    'tokens: for at in 0..tokens.len() {
        match rule_at(alloc, tokens, at)? {
            None => {}
            Some(name) => return Ok(Gate::Rule(name)),
        }
        levels.pass(&tokens[at].token)?;
    }
    if levels.deep {
        Ok(Gate::Deep)
    } else {
        Ok(Gate::Plain)
    }
}

impl Levels {
    /// The levels before the first token.
    fn new(alloc: Global) -> Levels
        ensures holds { AreLevels result }
        ensures from { (tokens : List TokenSeen) → deep_from result tokens ≡ refused.is_too_deep [] 0 tokens }
    {
        Levels {
            opened: Vec::new(alloc),
            total: 0,
            run: 0,
            deep: false,
        }
    }

    /// Goes on past a token. Once a token was too deep, it counts no more.
    fn pass(&mut self, token: &Token) -> Result<(), Memory>
        requires { AreLevels self.old }
        ensures holds { OnOk result (AreLevels self.new) }
        ensures from { OnOk result ((tokens : List TokenSeen) → deep_from self.new tokens ≡ deep_from self.old (token.now ∷ tokens)) }
    {
        if self.deep {
            return Ok(());
        }
        if self.total + self.run > MOST_LEVELS {
            self.deep = true;
            return Ok(());
        }
        self.count(token)
    }

    /// Counts a token with at most 512 levels.
    fn count(&mut self, token: &Token) -> Result<(), Memory>
        requires holds { AreLevels self.old }
        requires small { self.old.total + self.old.run ≤ 512 }
        ensures holds { OnOk result (AreLevels self.new) }
        ensures opened { OnOk result (self.new.opened.items ≡ refused.open_behind self.old.opened.items self.old.run token.now) }
        ensures run { OnOk result (self.new.run ≡ refused.next_run self.old.run token.now) }
        ensures deep { OnOk result (self.new.deep ≡ self.old.deep) }
    {
        match token {
            Token::Symbol(Symbol::Open) => {
                let inner = self.run + 1;
                self.opened.push(inner)?;
                self.total += inner;
                self.run = 0;
            }
            Token::Symbol(Symbol::Close) => {
                self.total -= self.opened.pop().unwrap_or(0);
                self.run = 0;
            }
            Token::Symbol(Symbol::Minus) | Token::Key(Keyword::Not) => self.run += 1,
            _ => self.run = 0,
        }
        Ok(())
    }
}

/// The name by the rule of a token, where one applies.
fn rule_at(alloc: Global, tokens: &[Placed], at: usize) -> Result<Option<Word>, Memory>
    requires { at < length tokens.now }
    ensures { IfOk result (λ name. name ≡ refused.rule_at (tokens_in tokens.now) at) }
{
    match &tokens[at].token {
        Token::Unsupported(word) => upper(alloc, word),
        Token::Key(Keyword::Select) => named(alloc, select_rule(tokens, at)),
        Token::Key(Keyword::Distinct) => named(alloc, distinct_rule(tokens, at)),
        Token::Symbol(symbol) => named(alloc, symbol_rule(tokens, at, *symbol)),
        Token::Name(_) | Token::Quoted(_) => named(alloc, call_rule(tokens, at)),
        Token::Key(_) | Token::Text(_) | Token::Digits(_) => Ok(None),
    }
}

/// A word in upper case.
fn upper(alloc: Global, word: &Word) -> Result<Option<Word>, Memory>
    ensures { IfOk result (λ name. name ≡ Some (refused.upper word.now)) }
{
    let upper = word.text().to_ascii_uppercase(alloc)?;
    Ok(Some(word_of(alloc, upper.as_str())?))
}

/// The name, where there is one.
fn named(alloc: Global, name: Option<&'static str>) -> Result<Option<Word>, Memory>
    ensures { IfOk result (λ word. word ≡ option_copied name.entry) }
{
    match name {
        Some(name) => Ok(Some(word_of(alloc, name)?)),
        None => Ok(None),
    }
}

/// A SELECT inside a statement.
fn select_rule(tokens: &[Placed], at: usize) -> Option<&'static str>
    ensures { option_copied result ≡ refused.rule_of (tokens_in tokens.now) at (Some (token.Key word.Select)) }
{
    if leads(tokens, at) {
        None
    } else {
        Some("SUBQUERY")
    }
}

/// A DISTINCT anywhere but directly after a leading SELECT.
fn distinct_rule(tokens: &[Placed], at: usize) -> Option<&'static str>
    ensures { option_copied result ≡ refused.rule_of (tokens_in tokens.now) at (Some (token.Key word.Distinct)) }
{
    match before(tokens, at) {
        Some(Token::Key(Keyword::Select)) if leads(tokens, at.saturating_sub(1)) => None,
        _ => Some("DISTINCT"),
    }
}

/// An operator that is left out, or a dot.
fn symbol_rule(tokens: &[Placed], at: usize, symbol: Symbol) -> Option<&'static str>
    requires { at < length tokens.now }
    ensures { option_copied result ≡ refused.rule_of (tokens_in tokens.now) at (Some (token.Symbol symbol)) }
{
    match symbol {
        Symbol::Slash => Some("DIVISION"),
        Symbol::Percent => Some("MODULO"),
        Symbol::Bars => Some("CONCAT"),
        Symbol::Dot => dot_rule(before(tokens, at), nth(tokens, at + 1)),
        _ => None,
    }
}

/// A dot, by the tokens before and after it.
fn dot_rule(before: Option<&Token>, after: Option<&Token>) -> Option<&'static str>
    ensures { option_copied result ≡ dot_between (option_copied before.entry) (option_copied after.entry) }
{
    match (before, after) {
        (Some(Token::Digits(_)), _) | (_, Some(Token::Digits(_))) => Some("DECIMAL"),
        (_, Some(Token::Symbol(Symbol::Star))) => Some("QUALIFIED STAR"),
        _ => None,
    }
}

/// A name that is written like a call, in a statement that has expressions.
fn call_rule(tokens: &[Placed], at: usize) -> Option<&'static str>
    requires { at < length tokens.now }
    ensures { option_copied result ≡ refused.call_rule (tokens_in tokens.now) at }
{
    match nth(tokens, at + 1) {
        Some(Token::Symbol(Symbol::Open)) if has_expressions(nth(tokens, 0)) => Some("FUNCTION"),
        _ => None,
    }
}

/// Whether a statement that begins with this token has expressions.
fn has_expressions(first: Option<&Token>) -> bool
    ensures { result ≡ refused.has_expressions (option_copied first.entry) }
{
    match first {
        Some(Token::Key(keyword)) => matches!(
            keyword,
            Keyword::Select | Keyword::Explain | Keyword::Delete | Keyword::Update
        ),
        _ => false,
    }
}

/// Whether the token is the first, or directly after a first EXPLAIN.
fn leads(tokens: &[Placed], at: usize) -> bool
    ensures { result ≡ refused.leads (tokens_in tokens.now) at }
{
    match nth(tokens, 0) {
        Some(Token::Key(Keyword::Explain)) => at <= 1,
        _ => at == 0,
    }
}

/// The token at a place.
fn nth(tokens: &[Placed], at: usize) -> Option<&Token>
    ensures { option_copied result ≡ slice_get (tokens_in tokens.now) at }
{
    match tokens.get(at) {
        Some(placed) => Some(&placed.token),
        None => None,
    }
}

/// The token before a place.
fn before(tokens: &[Placed], at: usize) -> Option<&Token>
    ensures { option_copied result ≡ refused.before (tokens_in tokens.now) at }
{
    match at.checked_sub(1) {
        Some(at) => nth(tokens, at),
        None => None,
    }
}
