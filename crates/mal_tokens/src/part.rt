ghost use Rattle.std.specs.Prelude.{◌≡◌, ◌≤◌, ◌++◌, ◌∷◌, ℕ, List, Some, None, true, length, IfOk, IsErrOf, IsTrue, IsUtf8, IsAscii};
ghost use Rattle.std.specs.List.{list_all};
ghost use Rattle.text_bytes.specs.Classes as classes;
ghost use Rattle.mal_tokens.specs.Bytes as reader;

use crate::error::MalTokensError;
use crate::quoted::quoted;
use crate::token::{MARKS, MalToken, Mark};
use cell_core::{Memory, Word, word_of};
use std::alloc::Global;
use text_bytes::{
    begins_with, digits_length, is_blank, is_digit, is_letter, line_length, word_length,
};

/// The part at the front: its token, where it has one, and how many bytes follow its first.
pub(crate) fn part(
    alloc: Global,
    first: u8,
    after: &[u8],
) -> Result<(Option<MalToken>, usize), MalTokensError>
    requires { (before : List ℕ) × IsUtf8 (before ++ first ∷ after.now) }
    ensures part { IfOk result (λ part. reader.part_at first after.now ≡ Some (part.0, part.1)) }
    ensures within { IfOk result (λ part. part.1 ≤ length after.now) }
    ensures none { IsErrOf result MalTokensError.Syntax → reader.part_at first after.now ≡ None }
{
    if is_letter(first) {
        word(alloc, first, after)
    } else if is_digit(first) {
        digits(alloc, first, after)
    } else if is_blank(first) {
        Ok((None, 0))
    } else if first == b'"' {
        let (text, length) = quoted(alloc, after)?;
        Ok((Some(MalToken::Text(text)), length))
    } else {
        mark(first, after)
    }
}

#[tactic(auto, using(text_bytes::proofs::ByteLemmas::word_front))]
fn word(alloc: Global, first: u8, after: &[u8]) -> Result<(Option<MalToken>, usize), MalTokensError>
    requires { classes.is_letter first ≡ true }
    ensures part { IfOk result (λ part. reader.word_at first after.now ≡ Some (part.0, part.1)) }
    ensures within { IfOk result (λ part. part.1 ≤ length after.now) }
    ensures err { IsErrOf result MalTokensError.Syntax → ⊥ }
{
    let length = word_length(after);
    let word = ascii_word(alloc, first, &after[..length])?;
    Ok((Some(MalToken::Name(word)), length))
}

#[tactic(auto, using(text_bytes::proofs::ByteLemmas::digits_front_word))]
fn digits(
    alloc: Global,
    first: u8,
    after: &[u8],
) -> Result<(Option<MalToken>, usize), MalTokensError>
    requires { classes.is_digit first ≡ true }
    ensures part { IfOk result (λ part. reader.digits_at first after.now ≡ Some (part.0, part.1)) }
    ensures within { IfOk result (λ part. part.1 ≤ length after.now) }
    ensures err { IsErrOf result MalTokensError.Syntax → ⊥ }
{
    let length = digits_length(after);
    let digits = ascii_word(alloc, first, &after[..length])?;
    Ok((Some(MalToken::Digits(digits)), length))
}

/// A comment or a mark.
fn mark(first: u8, after: &[u8]) -> Result<(Option<MalToken>, usize), MalTokensError>
    ensures part { IfOk result (λ part. reader.mark_at first after.now ≡ Some (part.0, part.1)) }
    ensures within { IfOk result (λ part. part.1 ≤ length after.now) }
    ensures none { IsErrOf result MalTokensError.Syntax → reader.mark_at first after.now ≡ None }
{
    if first == b'#' {
        return Ok((None, line_length(after)));
    }
    if first == b':' && begins_with(b'=', after) {
        return Ok((Some(MalToken::Mark(Mark::Assign)), 1));
    }
    match mark_of(first) {
        Some(mark) => Ok((Some(MalToken::Mark(mark)), 0)),
        None => Err(MalTokensError::Syntax),
    }
}

/// The mark of one byte.
#[tactic(auto, unfolding(crate::specs::Bytes::mark_of))]
fn mark_of(byte: u8) -> Option<Mark>
    ensures { result ≡ reader.mark_of byte }
{
    find_mark(&MARKS, byte)
}

fn find_mark(marks: &[(u8, Mark)], byte: u8) -> Option<Mark>
    ensures { result ≡ reader.first_mark byte marks.now }
{
    let mut rest = marks;
    'marks: while let [entry, more @ ..] = rest {
        if byte == entry.0 {
            return Some(entry.1);
        }
        rest = more;
    }
    None
}

/// The word of a byte and those after it.
fn ascii_word(alloc: Global, first: u8, more: &[u8]) -> Result<Word, Memory>
    requires { IsTrue (list_all classes.is_word_byte (first ∷ more.now)) }
    ensures { IfOk result (λ word. word ≡ first ∷ more.now) }
{
    let mut bytes = Vec::with_capacity(alloc, 1 + more.len())?;
    bytes.push(first)?;
    bytes.extend_from_slice(more)?;
    match std::str::from_utf8(&bytes) {
        Ok(text) => word_of(alloc, text),
        Err(_) => unreachable!(),
    }
}
