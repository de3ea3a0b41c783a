//! The tokens that are still to be read, and what the next one is.
ghost use Rattle.std.specs.Prelude.{◌≡◌, length, option_copied, IfOk, OnOk, IsErrOf, true, false};
ghost use Rattle.sql_grammar.specs.Reads.{tokens_in};
ghost use Rattle.read_laws.specs.Chain.{first_token, after_first};
ghost use Rattle.read_laws.specs.CondReader as conditions;
ghost use Rattle.read_laws.specs.ExprReader as expressions;
ghost use Rattle.read_laws.specs.Parts as parts;
ghost use Rattle.read_laws.specs.StmtReader as statements;
ghost use Rattle.audit_exprs.specs.Takes.{Takes};

use cell_core::{Memory, Word};
use sql_tree::{ArithOp, Digits, Keyword, Placed, Symbol, Token};
use std::alloc::AllocFailed;

/// Why tokens are not read.
#[derive(Clone, Copy, Drop)]
pub enum NotRead {
    /// The grammar does not derive them.
    Syntax,
    /// Memory ran out.
    Memory,
}

impl From<Memory> for NotRead {
    ghost use Rattle.audit_exprs.specs.declared.cursor.NotRead.TheVariants.{Memory as ReadMemory};

    ghost from_gives = { λ _ e. e ≡ ReadMemory };

    fn from(_e: Memory) -> NotRead {
        NotRead::Memory
    }
}

impl<T: Drop> From<AllocFailed<T>> for NotRead {
    ghost use Rattle.audit_exprs.specs.declared.cursor.NotRead.TheVariants.{Memory as ReadMemory};

    ghost from_gives = { λ _ e. e ≡ ReadMemory };

    fn from(_e: AllocFailed<T>) -> NotRead {
        NotRead::Memory
    }
}

/// The tokens that are still to be read.
#[derive(Drop)]
pub struct TokenCursor<'a> {
    /// They, in order.
    pub rest: &'a [Placed],
}

impl<'a> TokenCursor<'a> {
    /// How many tokens are left.
    pub fn len(&self) -> usize
        ensures { result ≡ length (tokens_in self.now.rest.now) }
    {
        self.rest.len()
    }

    /// The next token, which stays.
    pub fn peek(&self) -> Option<&'a Token>
        ensures { option_copied result ≡ first_token (tokens_in self.now.rest.now) }
    {
        first_of(self.rest)
    }

    /// Skips the next token.
    pub fn advance(&mut self)
        ensures { tokens_in self.new.rest.now ≡ after_first (tokens_in self.old.rest.now) }
    {
        if let [_, after @ ..] = self.rest {
            self.rest = after;
        }
    }

    /// Takes the next token.
    pub fn next(&mut self) -> Option<&'a Token>
        ensures token { option_copied result ≡ first_token (tokens_in self.old.rest.now) }
        ensures rest { tokens_in self.new.rest.now ≡ after_first (tokens_in self.old.rest.now) }
    {
        let token = self.peek();
        self.advance();
        token
    }

    /// Takes the word where it is next, and returns whether it was.
    pub fn takes(&mut self, word: Keyword) -> bool
        ensures here { result ≡ parts.is_key word (first_token (tokens_in self.old.rest.now)) }
        ensures flag { statements.flag word (tokens_in self.old.rest.now)
            ≡ Some (result, tokens_in self.new.rest.now) }
    {
        let is_here = is_word(self.peek(), word);
        if is_here {
            self.advance();
        }
        is_here
    }

    /// Takes a word that has to be next.
    pub fn word(&mut self, word: Keyword) -> Result<(), NotRead>
        ensures rest { tokens_in self.new.rest.now ≡ after_first (tokens_in self.old.rest.now) }
        ensures found { OnOk result (parts.is_key word (first_token (tokens_in self.old.rest.now)) ≡ true) }
        ensures none { IsErrOf result NotRead.Syntax →
            parts.is_key word (first_token (tokens_in self.old.rest.now)) ≡ false }
    {
        if is_word(self.next(), word) {
            Ok(())
        } else {
            Err(NotRead::Syntax)
        }
    }

    /// Takes a symbol that has to be next.
    pub fn symbol(&mut self, symbol: Symbol) -> Result<(), NotRead>
        ensures rest { tokens_in self.new.rest.now ≡ after_first (tokens_in self.old.rest.now) }
        ensures found { OnOk result (parts.is_symbol symbol (first_token (tokens_in self.old.rest.now)) ≡ true) }
        ensures none { IsErrOf result NotRead.Syntax →
            parts.is_symbol symbol (first_token (tokens_in self.old.rest.now)) ≡ false }
    {
        if is_symbol(self.next(), symbol) {
            Ok(())
        } else {
            Err(NotRead::Syntax)
        }
    }

    /// Takes a `)` that has to be next.
    pub fn close(&mut self) -> Result<(), NotRead>
        ensures rest { tokens_in self.new.rest.now ≡ after_first (tokens_in self.old.rest.now) }
        ensures found { OnOk result (expressions.is_close (first_token (tokens_in self.old.rest.now)) ≡ true) }
        ensures none { IsErrOf result NotRead.Syntax →
            expressions.is_close (first_token (tokens_in self.old.rest.now)) ≡ false }
    {
        match self.next() {
            Some(Token::Symbol(Symbol::Close)) => Ok(()),
            _ => Err(NotRead::Syntax),
        }
    }

    /// Takes a name that has to be next, bare or in quotes.
    #[tactic(auto, unfolding(read_laws::specs::StmtReader::name))]
    pub fn name(&mut self) -> Result<Word, NotRead>
        ensures { Takes statements.name self.old.rest.now self.new.rest.now result }
    {
        match name_of(self.next()) {
            Some(name) => Ok(name.share()?),
            None => Err(NotRead::Syntax),
        }
    }
}

/// The first of the tokens.
pub(crate) fn first_of<'a>(tokens: &'a [Placed]) -> Option<&'a Token>
    ensures { option_copied result ≡ first_token (tokens_in tokens.entry.now) }
{
    match tokens {
        [] => None,
        [placed, ..] => Some(&placed.token),
    }
}

/// Whether the token is the word.
#[tactic(auto, unfolding(read_laws::specs::Parts::is_key))]
pub fn is_word(token: Option<&Token>, word: Keyword) -> bool
    ensures { result ≡ parts.is_key word (option_copied token.entry) }
{
    match token {
        Some(Token::Key(found)) => *found == word,
        _ => false,
    }
}

/// Whether the token is the symbol.
#[tactic(auto, unfolding(read_laws::specs::Parts::is_symbol))]
pub fn is_symbol(token: Option<&Token>, symbol: Symbol) -> bool
    ensures { result ≡ parts.is_symbol symbol (option_copied token.entry) }
{
    match token {
        Some(Token::Symbol(found)) => *found == symbol,
        _ => false,
    }
}

/// The name that the token is, bare or in quotes.
pub fn name_of<'a>(token: Option<&'a Token>) -> Option<&'a Word>
    ensures { option_copied result ≡ expressions.name_in (option_copied token.entry) }
{
    match token {
        Some(Token::Name(name) | Token::Quoted(name)) => Some(name),
        _ => None,
    }
}

/// The digits that the token is.
pub fn digits_of<'a>(token: Option<&'a Token>) -> Option<&'a Digits>
    ensures { option_copied result ≡ expressions.digits_in (option_copied token.entry) }
{
    match token {
        Some(Token::Digits(digits)) => Some(digits),
        _ => None,
    }
}

/// The string that the token is.
pub(crate) fn string_of<'a>(token: Option<&'a Token>) -> Option<&'a Word>
    ensures { option_copied result ≡ expressions.text_in (option_copied token.entry) }
{
    match token {
        Some(Token::Text(text)) => Some(text),
        _ => None,
    }
}

/// The symbol `,` that the token is.
pub fn comma(token: Option<&Token>) -> Option<Symbol>
    ensures { result ≡ parts.comma_in (option_copied token.entry) }
{
    match token {
        Some(Token::Symbol(Symbol::Comma)) => Some(Symbol::Comma),
        _ => None,
    }
}
