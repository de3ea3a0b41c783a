ghost use Rattle.std.specs.Prelude.{◌≡◌, List, Bool, Some, None, length, IfOk, IsErrOf};
ghost use Rattle.mal_text.specs.Reader as reader;
ghost use Rattle.mal_text.specs.Reader.{first_token, after_first, Parser};
ghost use Rattle.mal_tokens.specs.declared.token.MalToken.{MalToken as TokenSeen};
ghost use Rattle.mal_tokens.specs.declared.token.Mark.TheVariants as mark;

use crate::block::Term;
use crate::cursor::{MalCursor, is_mark};
use crate::error::BlockError;
use cell_core::{Sequence, Word};
use mal_tokens::{MalToken, Mark};
use std::alloc::Global;

/// What can be repeated, one after the other.
pub(crate) trait Repeatable: Drop + Sized {
    ghost goes: { List TokenSeen → Bool };

    ghost reader: { Parser Self };

    /// Whether one comes next.
    fn goes(tokens: &MalCursor<'_>) -> bool
        ensures { result ≡ goes tokens.now.rest.now };

    /// Reads one.
    fn read(alloc: Global, tokens: &mut MalCursor<'_>) -> Result<Self, BlockError>
        ensures found { IfOk result (λ part. reader tokens.old.rest.now ≡ Some (part, tokens.new.rest.now)) }
        ensures none { IsErrOf result BlockError.NoBlock → reader tokens.old.rest.now ≡ None };
}

/// Adds parts as long as one comes next.
pub(crate) fn repeated<P: Repeatable>(
    alloc: Global,
    tokens: &mut MalCursor<'_>,
    first: Sequence<P>,
) -> Result<Sequence<P>, BlockError>
    ensures found { IfOk result (λ parts. reader.repeated P.goes P.reader (length tokens.old.rest.now) first tokens.old.rest.now
        ≡ Some (parts, tokens.new.rest.now)) }
    ensures none { IsErrOf result BlockError.NoBlock →
        reader.repeated P.goes P.reader (length tokens.old.rest.now) first tokens.old.rest.now ≡ None }
{
    let mut parts = first;
    'parts: for turn in 0..tokens.len() {
        if !P::goes(tokens) {
            return Ok(parts);
        }
        let next = P::read(alloc, tokens)?;
        parts.push(next)?;
    }
    Ok(parts)
}

/// An argument after a comma.
impl Repeatable for Term {
    ghost goes = { reader.goes_further };

    ghost reader = { reader.further };

    fn goes(tokens: &MalCursor<'_>) -> bool {
        is_mark(tokens.peek(), Mark::Comma)
    }

    #[tactic(auto, unfolding(crate::specs::Reader::further))]
    fn read(_alloc: Global, tokens: &mut MalCursor<'_>) -> Result<Term, BlockError> {
        tokens.mark(Mark::Comma)?;
        term(tokens)
    }
}

/// Arguments up to a `)`, with commas between them.
#[tactic(auto, unfolding(crate::specs::Reader::terms))]
pub(crate) fn terms(alloc: Global, tokens: &mut MalCursor<'_>) -> Result<Sequence<Term>, BlockError>
    ensures found { IfOk result (λ terms. reader.terms tokens.old.rest.now ≡ Some (terms, tokens.new.rest.now)) }
    ensures none { IsErrOf result BlockError.NoBlock → reader.terms tokens.old.rest.now ≡ None }
{
    let mut parts = Sequence::new(alloc);
    if is_mark(tokens.peek(), Mark::Close) {
        return Ok(parts);
    }
    let first = term(tokens)?;
    parts.push(first)?;
    repeated(alloc, tokens, parts)
}

/// An argument.
#[tactic(auto, unfolding(crate::specs::Reader::term_of))]
pub(crate) fn term(tokens: &mut MalCursor<'_>) -> Result<Term, BlockError>
    ensures found { IfOk result (λ term. reader.term_of tokens.old.rest.now ≡ Some (term, tokens.new.rest.now)) }
    ensures none { IsErrOf result BlockError.NoBlock → reader.term_of tokens.old.rest.now ≡ None }
{
    match tokens.next() {
        Some(MalToken::Name(word)) => Ok(Term::Name(word.share()?)),
        Some(MalToken::Text(text)) => text_after(text, tokens),
        Some(MalToken::Digits(digits)) => digits_after(digits, tokens),
        Some(MalToken::Mark(Mark::Minus)) => negative_after(tokens),
        _ => Err(BlockError::NoBlock),
    }
}

/// What follows a text: `:` and `date`, or nothing of it.
#[tactic(auto, unfolding(crate::specs::Reader::text_after))]
fn text_after(text: &Word, tokens: &mut MalCursor<'_>) -> Result<Term, BlockError>
    ensures found { IfOk result (λ term. reader.text_after text.now tokens.old.rest.now ≡ Some (term, tokens.new.rest.now)) }
    ensures none { IsErrOf result BlockError.NoBlock → reader.text_after text.now tokens.old.rest.now ≡ None }
{
    if !is_mark(tokens.peek(), Mark::Colon) {
        return Ok(Term::Text(text.share()?));
    }
    tokens.advance();
    tokens.word("date")?;
    Ok(Term::Date(text.share()?))
}

/// What follows the digits of a number: `:` and `hge`, or nothing of it.
#[tactic(auto, unfolding(crate::specs::Reader::number_behind))]
fn number_behind(
    negative: bool,
    digits: &Word,
    tokens: &mut MalCursor<'_>,
) -> Result<Term, BlockError>
    ensures found { IfOk result (λ term. reader.number_behind negative digits.now tokens.old.rest.now ≡ Some (term, tokens.new.rest.now)) }
    ensures none { IsErrOf result BlockError.NoBlock → reader.number_behind negative digits.now tokens.old.rest.now ≡ None }
{
    if !is_mark(tokens.peek(), Mark::Colon) {
        return Ok(Term::Int(negative, digits.share()?));
    }
    tokens.advance();
    tokens.word("hge")?;
    Ok(Term::Huge(negative, digits.share()?))
}

/// What follows digits without a sign: `@` and `0`, or what may follow those of a number.
#[tactic(auto, unfolding(crate::specs::Reader::digits_after))]
fn digits_after(digits: &Word, tokens: &mut MalCursor<'_>) -> Result<Term, BlockError>
    ensures found { IfOk result (λ term. reader.digits_after digits.now tokens.old.rest.now ≡ Some (term, tokens.new.rest.now)) }
    ensures none { IsErrOf result BlockError.NoBlock → reader.digits_after digits.now tokens.old.rest.now ≡ None }
{
    if !is_mark(tokens.peek(), Mark::At) {
        return number_behind(false, digits, tokens);
    }
    tokens.advance();
    tokens.zero()?;
    Ok(Term::Oid(digits.share()?))
}

/// What follows a `-`.
#[tactic(auto, unfolding(crate::specs::Reader::negative_after))]
fn negative_after(tokens: &mut MalCursor<'_>) -> Result<Term, BlockError>
    ensures found { IfOk result (λ term. reader.negative_after tokens.old.rest.now ≡ Some (term, tokens.new.rest.now)) }
    ensures none { IsErrOf result BlockError.NoBlock → reader.negative_after tokens.old.rest.now ≡ None }
{
    let digits = tokens.digits()?;
    number_behind(true, &digits, tokens)
}
