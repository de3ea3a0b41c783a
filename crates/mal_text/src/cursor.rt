ghost use Rattle.std.specs.Prelude.{◌≡◌, length, option_copied, slice_get, Some, None, IfOk, OnOk, IsErrOf};
ghost use Rattle.mal_text.specs.Reader as reader;
ghost use Rattle.mal_text.specs.Reader.{first_token, after_first};

use crate::error::BlockError;
use cell_core::Word;
use mal_tokens::{MalToken, Mark};

/// The tokens that are still to be read.
#[derive(Drop)]
pub(crate) struct MalCursor<'a> {
    /// They, in order.
    pub(crate) rest: &'a [MalToken],
}

impl<'a> MalCursor<'a> {
    /// A cursor before the first of the tokens.
    pub(crate) fn new(tokens: &'a [MalToken]) -> MalCursor<'a>
        ensures { result.rest.now ≡ tokens.entry.now }
    {
        MalCursor { rest: tokens }
    }

    /// How many tokens are left.
    pub(crate) fn len(&self) -> usize
        ensures { result ≡ length self.now.rest.now }
    {
        self.rest.len()
    }

    /// The next token, which stays.
    pub(crate) fn peek(&self) -> Option<&'a MalToken>
        ensures { option_copied result ≡ first_token self.now.rest.now }
    {
        match self.rest {
            [] => None,
            [token, ..] => Some(token),
        }
    }

    /// The token after so many others.
    pub(crate) fn ahead(&self, place: usize) -> Option<&'a MalToken>
        ensures { option_copied result ≡ slice_get self.now.rest.now place }
    {
        self.rest.get(place)
    }

    /// Skips the next token.
    pub(crate) fn advance(&mut self)
        ensures { self.new.rest.now ≡ after_first self.old.rest.now }
    {
        if let [_, after @ ..] = self.rest {
            self.rest = after;
        }
    }

    /// Takes the next token.
    pub(crate) fn next(&mut self) -> Option<&'a MalToken>
        ensures token { option_copied result ≡ first_token self.old.rest.now }
        ensures rest { self.new.rest.now ≡ after_first self.old.rest.now }
    {
        let token = self.peek();
        self.advance();
        token
    }

    /// Takes a word that has to come next.
    #[tactic(auto, unfolding(crate::specs::Reader::skip_word))]
    pub(crate) fn word(&mut self, word: &str) -> Result<(), BlockError>
        ensures found { OnOk result (reader.skip_word word.now self.old.rest.now ≡ Some self.new.rest.now) }
        ensures none { IsErrOf result BlockError.NoBlock → reader.skip_word word.now self.old.rest.now ≡ None }
    {
        if !is_word(self.next(), word) {
            return Err(BlockError::NoBlock);
        }
        Ok(())
    }

    /// Takes a mark that has to come next.
    #[tactic(auto, unfolding(crate::specs::Reader::skip_mark))]
    pub(crate) fn mark(&mut self, mark: Mark) -> Result<(), BlockError>
        ensures found { OnOk result (reader.skip_mark mark self.old.rest.now ≡ Some self.new.rest.now) }
        ensures none { IsErrOf result BlockError.NoBlock → reader.skip_mark mark self.old.rest.now ≡ None }
    {
        if !is_mark(self.next(), mark) {
            return Err(BlockError::NoBlock);
        }
        Ok(())
    }

    /// Takes a single `0` that has to come next.
    #[tactic(auto, unfolding(crate::specs::Reader::skip_zero))]
    pub(crate) fn zero(&mut self) -> Result<(), BlockError>
        ensures found { OnOk result (reader.skip_zero self.old.rest.now ≡ Some self.new.rest.now) }
        ensures none { IsErrOf result BlockError.NoBlock → reader.skip_zero self.old.rest.now ≡ None }
    {
        if !is_zero(self.next()) {
            return Err(BlockError::NoBlock);
        }
        Ok(())
    }

    /// Takes a word.
    #[tactic(auto, unfolding(crate::specs::Reader::name))]
    pub(crate) fn name(&mut self) -> Result<Word, BlockError>
        ensures found { IfOk result (λ word. reader.name self.old.rest.now ≡ Some (word, self.new.rest.now)) }
        ensures none { IsErrOf result BlockError.NoBlock → reader.name self.old.rest.now ≡ None }
    {
        let Some(word) = name(self.next()) else {
            return Err(BlockError::NoBlock);
        };
        Ok(word.share()?)
    }

    /// Takes digits.
    #[tactic(auto, unfolding(crate::specs::Reader::digits))]
    pub(crate) fn digits(&mut self) -> Result<Word, BlockError>
        ensures found { IfOk result (λ word. reader.digits self.old.rest.now ≡ Some (word, self.new.rest.now)) }
        ensures none { IsErrOf result BlockError.NoBlock → reader.digits self.old.rest.now ≡ None }
    {
        let Some(digits) = digits(self.next()) else {
            return Err(BlockError::NoBlock);
        };
        Ok(digits.share()?)
    }

    /// Takes `)` and `;`, which have to come next.
    #[tactic(auto, unfolding(crate::specs::Reader::closing))]
    pub(crate) fn closing(&mut self) -> Result<(), BlockError>
        ensures found { OnOk result (reader.closing self.old.rest.now ≡ Some self.new.rest.now) }
        ensures none { IsErrOf result BlockError.NoBlock → reader.closing self.old.rest.now ≡ None }
    {
        self.mark(Mark::Close)?;
        self.mark(Mark::Semicolon)?;
        Ok(())
    }

    /// Fails where a token is left.
    pub(crate) fn end(&self) -> Result<(), BlockError>
        ensures found { OnOk result (reader.nothing_left self.now.rest.now ≡ Some self.now.rest.now) }
        ensures none { IsErrOf result BlockError.NoBlock → reader.nothing_left self.now.rest.now ≡ None }
    {
        match self.rest {
            [] => Ok(()),
            _ => Err(BlockError::NoBlock),
        }
    }
}

/// The word that the token is.
fn name<'a>(token: Option<&'a MalToken>) -> Option<&'a Word>
    ensures { option_copied result ≡ reader.name_in (option_copied token.entry) }
{
    match token {
        Some(MalToken::Name(word)) => Some(word),
        _ => None,
    }
}

/// The digits that the token is.
fn digits<'a>(token: Option<&'a MalToken>) -> Option<&'a Word>
    ensures { option_copied result ≡ reader.digits_in (option_copied token.entry) }
{
    match token {
        Some(MalToken::Digits(digits)) => Some(digits),
        _ => None,
    }
}

/// Whether the token is the word.
#[tactic(auto, unfolding(crate::specs::Reader::is_word))]
pub(crate) fn is_word(token: Option<&MalToken>, word: &str) -> bool
    ensures { result ≡ reader.is_word word.now (option_copied token.entry) }
{
    match token {
        Some(MalToken::Name(found)) => found.text() == word,
        _ => false,
    }
}

/// Whether the token is the mark.
#[tactic(auto, unfolding(crate::specs::Reader::is_mark))]
pub(crate) fn is_mark(token: Option<&MalToken>, mark: Mark) -> bool
    ensures { result ≡ reader.is_mark mark (option_copied token.entry) }
{
    match token {
        Some(MalToken::Mark(found)) => *found == mark,
        _ => false,
    }
}

/// Whether the token is the single digit 0.
#[tactic(auto, unfolding(crate::specs::Reader::is_zero))]
fn is_zero(token: Option<&MalToken>) -> bool
    ensures { result ≡ reader.is_zero (option_copied token.entry) }
{
    match token {
        Some(MalToken::Digits(digits)) => digits.text() == "0",
        _ => false,
    }
}
