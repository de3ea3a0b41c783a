ghost use Rattle.std.specs.Prelude.{◌≡◌, ◌<◌, [], length, option_copied, Some, None, Ok, Err, IfSome, IfNone, IfOk, IfErr, OnOk, IsErrOf, true, false};
ghost use Rattle.sql_grammar.specs.Reads.{tokens_in};
ghost use Rattle.read_laws.specs.Chain.{first_token, after_first};
ghost use Rattle.read_laws.specs.CondReader as conditions;
ghost use Rattle.read_laws.specs.Parts as parts;
ghost use Rattle.read_laws.specs.ExprReader as reader;

use crate::reading::TreeError;
use cell_core::Word;
use sql_tree::{AggOp, ArithOp, CmpOp, Digits, Keyword, Placed, Symbol, Token};

/// The tokens that are still to be read.
#[derive(Drop)]
pub struct Cursor<'a> {
    /// They, in order.
    pub rest: &'a [Placed],
}

impl<'a> Cursor<'a> {
    /// A cursor before the first of the tokens.
    pub fn new(tokens: &'a [Placed]) -> Cursor<'a>
        ensures { result.rest.now ≡ tokens.entry.now }
    {
        Cursor { rest: tokens }
    }

    /// How many tokens are left.
    pub fn len(&self) -> usize
        ensures { result ≡ length (tokens_in self.now.rest.now) }
    {
        self.rest.len()
    }

    /// The next token, which stays.
    pub fn peek(&self) -> Option<&'a Token>
        ensures { option_copied result ≡ first_token (tokens_in self.now.rest.now) }
    {
        match self.rest {
            [] => None,
            [placed, ..] => Some(&placed.token),
        }
    }

    /// Skips the next token.
    pub fn advance(&mut self)
        ensures { tokens_in self.new.rest.now ≡ after_first (tokens_in self.old.rest.now) }
    {
        if let [_, after @ ..] = self.rest {
            self.rest = after;
        }
    }

    /// Takes the next token.
    pub fn next(&mut self) -> Option<&'a Token>
        ensures token { option_copied result ≡ first_token (tokens_in self.old.rest.now) }
        ensures rest { tokens_in self.new.rest.now ≡ after_first (tokens_in self.old.rest.now) }
    {
        let token = self.peek();
        self.advance();
        token
    }

    /// Takes a keyword that has to come next.
    pub fn key(&mut self, word: Keyword) -> Result<(), TreeError>
        ensures rest { tokens_in self.new.rest.now ≡ after_first (tokens_in self.old.rest.now) }
        ensures found { OnOk result (parts.is_key word (first_token (tokens_in self.old.rest.now)) ≡ true) }
        ensures none { IsErrOf result TreeError.Syntax →
            parts.is_key word (first_token (tokens_in self.old.rest.now)) ≡ false }
    {
        if is_key(self.next(), word) {
            Ok(())
        } else {
            Err(TreeError::Syntax)
        }
    }

    /// Takes a symbol that has to come next.
    pub fn symbol(&mut self, symbol: Symbol) -> Result<(), TreeError>
        ensures rest { tokens_in self.new.rest.now ≡ after_first (tokens_in self.old.rest.now) }
        ensures found { OnOk result (parts.is_symbol symbol (first_token (tokens_in self.old.rest.now)) ≡ true) }
        ensures none { IsErrOf result TreeError.Syntax →
            parts.is_symbol symbol (first_token (tokens_in self.old.rest.now)) ≡ false }
    {
        if is_symbol(self.next(), symbol) {
            Ok(())
        } else {
            Err(TreeError::Syntax)
        }
    }

    /// Fails where a token is left.
    pub fn end(&self) -> Result<(), TreeError>
        ensures found { OnOk result (tokens_in self.now.rest.now ≡ []) }
        ensures none { IsErrOf result TreeError.Syntax → 0 < length (tokens_in self.now.rest.now) }
    {
        match self.rest {
            [] => Ok(()),
            _ => Err(TreeError::Syntax),
        }
    }

    /// Takes a `)` that has to come next.
    pub fn close(&mut self) -> Result<(), TreeError>
        ensures rest { tokens_in self.new.rest.now ≡ after_first (tokens_in self.old.rest.now) }
        ensures found { OnOk result (reader.is_close (first_token (tokens_in self.old.rest.now)) ≡ true) }
        ensures none { IsErrOf result TreeError.Syntax →
            reader.is_close (first_token (tokens_in self.old.rest.now)) ≡ false }
    {
        match self.next() {
            Some(Token::Symbol(Symbol::Close)) => Ok(()),
            _ => Err(TreeError::Syntax),
        }
    }

    /// What was read, where a `)` follows it, which is taken.
    pub(crate) fn closed<T: Drop>(&mut self, read: T) -> Result<T, TreeError>
        ensures rest { tokens_in self.new.rest.now ≡ after_first (tokens_in self.old.rest.now) }
        ensures found { OnOk result (reader.is_close (first_token (tokens_in self.old.rest.now)) ≡ true) }
        ensures same { IfOk result (λ back. back ≡ read) }
        ensures none { IsErrOf result TreeError.Syntax →
            reader.is_close (first_token (tokens_in self.old.rest.now)) ≡ false }
    {
        self.close()?;
        Ok(read)
    }

    /// What was read, where no token is left after it.
    pub(crate) fn ended<T: Drop>(&self, read: T) -> Result<T, TreeError>
        ensures found { OnOk result (tokens_in self.now.rest.now ≡ []) }
        ensures same { IfOk result (λ back. back ≡ read) }
        ensures none { IsErrOf result TreeError.Syntax → 0 < length (tokens_in self.now.rest.now) }
    {
        self.end()?;
        Ok(read)
    }
}

/// What is kept, beside what was made; where that failed, what is kept is dropped.
///
/// A proof goes through all forms of a tree wherever one may be dropped. This function takes things
/// of any type, which have no forms to go through.
pub(crate) fn beside<T: Drop, U: Drop, E: Drop>(kept: T, made: Result<U, E>) -> Result<(T, U), E>
    ensures both { IfOk result (λ both. (both.0 ≡ kept) × (made ≡ Ok both.1)) }
    ensures none { IfErr result (λ error. made ≡ Err error) }
{
    match made {
        Ok(made) => Ok((kept, made)),
        Err(error) => Err(error),
    }
}

/// The operator `+` or `-` that the token is.
pub(crate) fn sign(token: Option<&Token>) -> Option<ArithOp>
    ensures { result ≡ reader.sign_in (option_copied token.entry) }
{
    match token {
        Some(Token::Symbol(Symbol::Plus)) => Some(ArithOp::Plus),
        Some(Token::Symbol(Symbol::Minus)) => Some(ArithOp::Minus),
        _ => None,
    }
}

/// The operator `*` that the token is.
pub(crate) fn star(token: Option<&Token>) -> Option<ArithOp>
    ensures { result ≡ reader.star_in (option_copied token.entry) }
{
    match token {
        Some(Token::Symbol(Symbol::Star)) => Some(ArithOp::Times),
        _ => None,
    }
}

/// Whether the token is `.`.
pub(crate) fn is_dot(token: Option<&Token>) -> bool
    ensures { result ≡ reader.is_dot (option_copied token.entry) }
{
    matches!(token, Some(Token::Symbol(Symbol::Dot)))
}

/// The digits that the token is.
pub fn digits<'a>(token: Option<&'a Token>) -> Option<&'a Digits>
    ensures { option_copied result ≡ reader.digits_in (option_copied token.entry) }
{
    match token {
        Some(Token::Digits(digits)) => Some(digits),
        _ => None,
    }
}

/// The string that the token is.
pub fn text<'a>(token: Option<&'a Token>) -> Option<&'a Word>
    ensures { option_copied result ≡ reader.text_in (option_copied token.entry) }
{
    match token {
        Some(Token::Text(text)) => Some(text),
        _ => None,
    }
}

/// The name that the token is, bare or in quotes.
pub fn name<'a>(token: Option<&'a Token>) -> Option<&'a Word>
    ensures { option_copied result ≡ reader.name_in (option_copied token.entry) }
{
    match token {
        Some(Token::Name(name)) => Some(name),
        Some(Token::Quoted(name)) => Some(name),
        _ => None,
    }
}

/// Whether the token is the keyword.
#[tactic(auto, unfolding(read_laws::specs::Parts::is_key))]
pub fn is_key(token: Option<&Token>, word: Keyword) -> bool
    ensures { result ≡ parts.is_key word (option_copied token.entry) }
{
    match token {
        Some(Token::Key(found)) => *found == word,
        _ => false,
    }
}

/// Whether the token is the symbol.
#[tactic(auto, unfolding(read_laws::specs::Parts::is_symbol))]
pub fn is_symbol(token: Option<&Token>, symbol: Symbol) -> bool
    ensures { result ≡ parts.is_symbol symbol (option_copied token.entry) }
{
    match token {
        Some(Token::Symbol(found)) => *found == symbol,
        _ => false,
    }
}

/// Whether the token is `,`.
pub fn comma(token: Option<&Token>) -> Option<Symbol>
    ensures { result ≡ parts.comma_in (option_copied token.entry) }
{
    match token {
        Some(Token::Symbol(Symbol::Comma)) => Some(Symbol::Comma),
        _ => None,
    }
}

/// The keyword OR that the token is.
pub(crate) fn or(token: Option<&Token>) -> Option<Keyword>
    ensures { result ≡ conditions.or_in (option_copied token.entry) }
{
    match token {
        Some(Token::Key(Keyword::Or)) => Some(Keyword::Or),
        _ => None,
    }
}

/// The keyword AND that the token is.
pub(crate) fn and(token: Option<&Token>) -> Option<Keyword>
    ensures { result ≡ conditions.and_in (option_copied token.entry) }
{
    match token {
        Some(Token::Key(Keyword::And)) => Some(Keyword::And),
        _ => None,
    }
}

/// The comparison that the token is.
pub(crate) fn comparison(token: Option<&Token>) -> Option<CmpOp>
    ensures { result ≡ conditions.comparison_in (option_copied token.entry) }
{
    match token {
        Some(Token::Symbol(Symbol::Equal)) => Some(CmpOp::Eq),
        Some(Token::Symbol(Symbol::NotEqual)) => Some(CmpOp::Ne),
        Some(Token::Symbol(Symbol::BangEqual)) => Some(CmpOp::Ne),
        Some(Token::Symbol(Symbol::Less)) => Some(CmpOp::Lt),
        Some(Token::Symbol(Symbol::LessEqual)) => Some(CmpOp::Le),
        Some(Token::Symbol(Symbol::Greater)) => Some(CmpOp::Gt),
        Some(Token::Symbol(Symbol::GreaterEqual)) => Some(CmpOp::Ge),
        _ => None,
    }
}

/// The aggregate that the token names.
pub(crate) fn aggregate_word(token: Option<&Token>) -> Option<AggOp>
    ensures { result ≡ conditions.aggregate_in (option_copied token.entry) }
{
    match token {
        Some(Token::Key(Keyword::Count)) => Some(AggOp::Count),
        Some(Token::Key(Keyword::Sum)) => Some(AggOp::Sum),
        Some(Token::Key(Keyword::Min)) => Some(AggOp::Min),
        Some(Token::Key(Keyword::Max)) => Some(AggOp::Max),
        _ => None,
    }
}

/// Whether the token is the `*` of `COUNT(*)`.
pub(crate) fn is_all(f: AggOp, token: Option<&Token>) -> bool
    ensures { result ≡ conditions.is_all f (option_copied token.entry) }
{
    match (f, token) {
        (AggOp::Count, Some(Token::Symbol(Symbol::Star))) => true,
        _ => false,
    }
}
