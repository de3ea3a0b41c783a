ghost use Rattle.std.specs.Prelude.{◌≡◌, ◌≤◌, ◌++◌, ◌∷◌, ℕ, List, Some, None, true, false, length, map, drop, IfOk, IsErrOf, IsTrue, IsUtf8, IsAscii};
ghost use Rattle.std.specs.Char.{to_ascii_lowercase};
ghost use Rattle.std.specs.List.{list_all};
ghost use Rattle.sql_tree.specs.Bytes as classes;
ghost use Rattle.sql_tree.specs.Words as words;
ghost use Rattle.read_laws.specs.TokenReader as reader;

use crate::block::block_length;
use crate::quoted::quoted;
use crate::reading::TokensError;
use crate::symbols::{pair, single};
use cell_core::{Memory, Word, word_of};
use sql_tree::{Token, digits_of, is_unsupported, keyword};
use std::alloc::Global;
use text_bytes::{
    begins_with, begins_word_byte, digits_length, is_blank, is_digit, is_letter, line_length,
    word_length,
};

/// The part at the front: its token, where it has one, and how many bytes follow its first.
pub(crate) fn part(
    alloc: Global,
    first: u8,
    after: &[u8],
) -> Result<(Option<Token>, usize), TokensError>
    requires { (before : List ℕ) × IsUtf8 (before ++ first ∷ after.now) }
    ensures part { IfOk result (λ part. reader.part_at first after.now ≡ Some (part.0, part.1)) }
    ensures within { IfOk result (λ part. part.1 ≤ length after.now) }
    ensures none { IsErrOf result TokensError.Syntax → reader.part_at first after.now ≡ None }
{
    if is_letter(first) {
        word(alloc, first, after)
    } else if is_digit(first) {
        digits(alloc, first, after)
    } else if is_blank(first) {
        Ok((None, 0))
    } else if first == b'\'' {
        let (text, length) = quoted(alloc, b'\'', after)?;
        Ok((Some(Token::Text(text)), length))
    } else if first == b'"' {
        quoted_name(alloc, after)
    } else {
        mark(first, after)
    }
}

/// A word, as a name or as the reserved word that it is.
fn word(alloc: Global, first: u8, after: &[u8]) -> Result<(Option<Token>, usize), TokensError>
    requires { classes.is_letter first ≡ true }
    ensures part { IfOk result (λ part. reader.word_at first after.now ≡ Some (part.0, part.1)) }
    ensures within { IfOk result (λ part. part.1 ≤ length after.now) }
    ensures err { IsErrOf result TokensError.Syntax → ⊥ }
{
    let length = word_length(after);
    let word = low_word(alloc, first, &after[..length])?;
    Ok((Some(word_token(word)), length))
}

/// The token of a word in lower case.
fn word_token(word: Word) -> Token
    ensures { result ≡ words.word_token word }
{
    match keyword(word.text()) {
        Some(keyword) => Token::Key(keyword),
        None if is_unsupported(word.text()) => Token::Unsupported(word),
        None => Token::Name(word),
    }
}

/// Digits, which no letter and no `_` follows.
fn digits(alloc: Global, first: u8, after: &[u8]) -> Result<(Option<Token>, usize), TokensError>
    ensures part { IfOk result (λ part. reader.digits_at first after.now ≡ Some (part.0, part.1)) }
    ensures within { IfOk result (λ part. part.1 ≤ length after.now) }
    ensures none { IsErrOf result TokensError.Syntax → reader.digits_at first after.now ≡ None }
{
    let length = digits_length(after);
    if begins_word_byte(&after[length..]) {
        return Err(TokensError::Syntax);
    }
    let digits = digits_of(alloc, first, &after[..length])?;
    Ok((Some(Token::Digits(digits)), length))
}

/// A name in quotes, which isn't empty.
fn quoted_name(alloc: Global, after: &[u8]) -> Result<(Option<Token>, usize), TokensError>
    requires { IsUtf8 after.now }
    ensures part { IfOk result (λ part. reader.name_part (reader.quoted_at 34 false after.now) ≡ Some (part.0, part.1)) }
    ensures within { IfOk result (λ part. part.1 ≤ length after.now) }
    ensures none { IsErrOf result TokensError.Syntax → reader.name_part (reader.quoted_at 34 false after.now) ≡ None }
{
    let (name, length) = quoted(alloc, b'"', after)?;
    if name.text().is_empty() {
        return Err(TokensError::Syntax);
    }
    Ok((Some(Token::Quoted(name)), length))
}

/// A comment or a symbol.
fn mark(first: u8, after: &[u8]) -> Result<(Option<Token>, usize), TokensError>
    ensures part { IfOk result (λ part. reader.mark_at first after.now ≡ Some (part.0, part.1)) }
    ensures within { IfOk result (λ part. part.1 ≤ length after.now) }
    ensures none { IsErrOf result TokensError.Syntax → reader.mark_at first after.now ≡ None }
{
    if first == b'-' && begins_with(b'-', after) {
        return Ok((None, line_length(after)));
    }
    if first == b'/' && begins_with(b'*', after) {
        return block(after);
    }
    symbol(first, after)
}

/// A comment up to `*/`, after its `/`.
fn block(after: &[u8]) -> Result<(Option<Token>, usize), TokensError>
    requires { classes.begins_with 42 after.now ≡ true }
    ensures part { IfOk result (λ part. reader.block_part (reader.block_length 0 (drop 1 after.now)) ≡ Some (part.0, part.1)) }
    ensures within { IfOk result (λ part. part.1 ≤ length after.now) }
    ensures none { IsErrOf result TokensError.Syntax → reader.block_part (reader.block_length 0 (drop 1 after.now)) ≡ None }
{
    let [_, inside @ ..] = after else {
        return Err(TokensError::Syntax);
    };
    match block_length(inside) {
        Some(length) => Ok((None, length + 3)),
        None => Err(TokensError::Syntax),
    }
}

/// A symbol of two bytes, or else of one.
fn symbol(first: u8, after: &[u8]) -> Result<(Option<Token>, usize), TokensError>
    ensures part { IfOk result (λ part. reader.symbol_part (reader.pair_at first after.now) (reader.single_of first) ≡ Some (part.0, part.1)) }
    ensures within { IfOk result (λ part. part.1 ≤ length after.now) }
    ensures none { IsErrOf result TokensError.Syntax → reader.symbol_part (reader.pair_at first after.now) (reader.single_of first) ≡ None }
{
    if let Some(symbol) = pair(first, after) {
        return Ok((Some(Token::Symbol(symbol)), 1));
    }
    match single(first) {
        Some(symbol) => Ok((Some(Token::Symbol(symbol)), 0)),
        None => Err(TokensError::Syntax),
    }
}

/// The word of these bytes, folded to lower case.
fn low_word(alloc: Global, first: u8, more: &[u8]) -> Result<Word, Memory>
    requires { IsTrue (list_all classes.is_word_byte (first ∷ more.now)) }
    ensures { IfOk result (λ word. word ≡ map classes.low (first ∷ more.now)) }
{
    let letters = whole(alloc, first, more)?;
    let bytes = lowered(alloc, letters.as_slice())?;
    ascii_word(alloc, bytes.as_slice())
}

/// A byte and those after it.
fn whole(alloc: Global, first: u8, more: &[u8]) -> Result<Vec<u8>, Memory>
    ensures { IfOk result (λ bytes. bytes.items ≡ first ∷ more.now) }
{
    let mut bytes = Vec::new(alloc);
    bytes.push(first)?;
    bytes.extend_from_slice(more)?;
    Ok(bytes)
}

/// The bytes in lower case.
fn lowered(alloc: Global, bytes: &[u8]) -> Result<Vec<u8>, Memory>
    ensures { IfOk result (λ lowered. lowered.items ≡ map to_ascii_lowercase bytes.now) }
{
    Ok(
        bytes
            .iter()
            .map(|byte| byte.to_ascii_lowercase())
            .collect(alloc)?,
    )
}

/// The word with these bytes, which are ASCII.
fn ascii_word(alloc: Global, bytes: &[u8]) -> Result<Word, Memory>
    requires { IsAscii bytes.now }
    ensures { IfOk result (λ word. word ≡ bytes.now) }
{
    match std::str::from_utf8(bytes) {
        Ok(text) => word_of(alloc, text),
        Err(_) => unreachable!(),
    }
}
