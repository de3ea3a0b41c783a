//! The tokens of a text, in one loop over its places.
ghost use Rattle.std.specs.Prelude.{◌≡◌, ◌≤◌, ◌++◌, ◌∷◌, ℕ, List, true, false, length, map, IfOk, IfSome, OnOk, IsTrue, IsUtf8};
ghost use Rattle.std.specs.List.{list_all};
ghost use Rattle.read_laws.specs.TokenReader as reader;
ghost use Rattle.sql_tree.specs.Bytes as classes;
ghost use Rattle.sql_tree.specs.Words.{word_token as token_of_word};

use crate::bytes::{Class, Run, class_of, is_in, lowered, run_size};
use crate::marks::{between, mark_at};
use cell_core::{Memory, Sequence, Word, word_of};
use sql_tree::{Placed, Token, digits_of, is_unsupported, keyword};
use std::alloc::Global;

/// The tokens of a text, in order and with their places. None where it can't be cut into tokens.
pub(crate) fn scan(alloc: Global, text: &str) -> Result<Option<Sequence<Placed>>, Memory>
    ensures { IfOk result (λ tokens. tokens ≡ reader.tokens_after (length text.now) 0 text.now) }
{
    let bytes = text.as_bytes();
    let mut tokens = Sequence::new(alloc);
    let mut at = 0;
    'parts: while at < bytes.len() {
        let Some((token, size)) = part(alloc, bytes[at], &bytes[at + 1..])? else {
            return Ok(None);
        };
        let end = at + 1 + size;
        keep(&mut tokens, token, at, end)?;
        at = end;
    }
    Ok(Some(tokens))
}

/// Adds the token of a part, where it has one.
fn keep(
    tokens: &mut Sequence<Placed>,
    token: Option<Token>,
    start: usize,
    end: usize,
) -> Result<(), Memory>
    ensures { OnOk result (tokens.new ≡ tokens.old ++ reader.placed start end token) }
{
    match token {
        Some(token) => tokens.push(Placed { token, start, end }),
        None => Ok(()),
    }
}

/// The part that begins at a byte: its token, where it has one, and how many bytes follow its
/// first. None where none begins.
fn part(alloc: Global, first: u8, after: &[u8]) -> Result<Option<(Option<Token>, usize)>, Memory>
    requires { (before : List ℕ) × IsUtf8 (before ++ first ∷ after.now) }
    ensures part { IfOk result (λ part. part ≡ reader.part_at first after.now) }
    ensures within { IfOk result (λ part. IfSome part (λ p. p.1 ≤ length after.now)) }
{
    match class_of(first) {
        Class::Letter => word(alloc, first, after),
        Class::Digit => digits(alloc, first, after),
        Class::Blank => Ok(Some((None, 0))),
        Class::Apostrophe => text(alloc, after),
        Class::Quote => name(alloc, after),
        Class::Mark => Ok(mark_at(first, after)),
    }
}

/// A word, as a name or as the reserved word that it is.
fn word(alloc: Global, first: u8, after: &[u8]) -> Result<Option<(Option<Token>, usize)>, Memory>
    requires { classes.is_letter first ≡ true }
    ensures part { IfOk result (λ part. part ≡ reader.word_at first after.now) }
    ensures within { IfOk result (λ part. IfSome part (λ p. p.1 ≤ length after.now)) }
{
    let size = run_size(Run::Word, after);
    let word = low_word(alloc, first, &after[..size])?;
    Ok(Some((Some(word_token(word)), size)))
}

/// The token of a word in lower case.
fn word_token(word: Word) -> Token
    ensures { result ≡ token_of_word word }
{
    if let Some(keyword) = keyword(word.text()) {
        return Token::Key(keyword);
    }
    if is_unsupported(word.text()) {
        Token::Unsupported(word)
    } else {
        Token::Name(word)
    }
}

/// The word of these bytes in lower case.
fn low_word(alloc: Global, first: u8, more: &[u8]) -> Result<Word, Memory>
    requires { IsTrue (list_all classes.is_word_byte (first ∷ more.now)) }
    ensures { IfOk result (λ word. word ≡ map classes.low (first ∷ more.now)) }
{
    let low = low_bytes(alloc, first, more)?;
    match std::str::from_utf8(low.as_slice()) {
        Ok(text) => word_of(alloc, text),
        Err(_) => unreachable!(),
    }
}

fn low_bytes(alloc: Global, first: u8, more: &[u8]) -> Result<Sequence<u8>, Memory>
    ensures { IfOk result (λ low. low ≡ map classes.low (first ∷ more.now)) }
{
    let mut low = Sequence::new(alloc);
    low.push(lowered(first))?;
    'bytes: for byte in more {
        low.push(lowered(*byte))?;
    }
    Ok(low)
}

/// Digits, which no letter and no `_` follows.
fn digits(alloc: Global, first: u8, after: &[u8]) -> Result<Option<(Option<Token>, usize)>, Memory>
    ensures part { IfOk result (λ part. part ≡ reader.digits_at first after.now) }
    ensures within { IfOk result (λ part. IfSome part (λ p. p.1 ≤ length after.now)) }
{
    let size = run_size(Run::Digits, after);
    if begins_word(&after[size..]) {
        return Ok(None);
    }
    let digits = digits_of(alloc, first, &after[..size])?;
    Ok(Some((Some(Token::Digits(digits)), size)))
}

/// Whether a byte of a word is at the front.
fn begins_word(bytes: &[u8]) -> bool
    ensures { result ≡ classes.begins classes.is_word_byte bytes.now }
{
    match bytes {
        [first, ..] => is_in(Run::Word, *first),
        [] => false,
    }
}

/// A string, after its first mark.
fn text(alloc: Global, after: &[u8]) -> Result<Option<(Option<Token>, usize)>, Memory>
    requires { IsUtf8 after.now }
    ensures part { IfOk result (λ part. part ≡ reader.text_part (reader.quoted_at 39 false after.now)) }
    ensures within { IfOk result (λ part. IfSome part (λ p. p.1 ≤ length after.now)) }
{
    let Some((text, size)) = between(alloc, b'\'', after)? else {
        return Ok(None);
    };
    Ok(Some((Some(Token::Text(text)), size)))
}

/// A name in quotes, which isn't empty, after its first mark.
fn name(alloc: Global, after: &[u8]) -> Result<Option<(Option<Token>, usize)>, Memory>
    requires { IsUtf8 after.now }
    ensures part { IfOk result (λ part. part ≡ reader.name_part (reader.quoted_at 34 false after.now)) }
    ensures within { IfOk result (λ part. IfSome part (λ p. p.1 ≤ length after.now)) }
{
    let Some((name, size)) = between(alloc, b'"', after)? else {
        return Ok(None);
    };
    if name.text().is_empty() {
        return Ok(None);
    }
    Ok(Some((Some(Token::Quoted(name)), size)))
}
