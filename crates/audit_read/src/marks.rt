//! What is between marks, comments, and symbols.
ghost use Rattle.std.specs.Prelude.{◌≡◌, ◌<◌, ◌≤◌, ◌+◌, length, take, drop, [], false, Some, None, IfOk, IfSome, IfNone, IsUtf8};
ghost use Rattle.audit_read.specs.Marks.{found_after};
ghost use Rattle.read_laws.specs.TokenReader as reader;

use crate::bytes::{Run, run_size};
use cell_core::{Memory, Sequence, Word, word_of};
use sql_tree::{Symbol, Token};
use std::alloc::Global;

/// The text before the first mark that isn't doubled, each doubled mark as one, and how many bytes
/// it takes, that mark included. None where no such mark follows.
pub(crate) fn between(
    alloc: Global,
    mark: u8,
    after: &[u8],
) -> Result<Option<(Word, usize)>, Memory>
    requires ascii { mark < 128 }
    requires text { IsUtf8 after.now }
    ensures found { IfOk result (λ found. found ≡ reader.quoted_at mark false after.now) }
    ensures within { IfOk result (λ found. IfSome found (λ f. f.1 ≤ length after.now)) }
{
    let Some((bytes, size)) = bytes_between(alloc, mark, after)? else {
        return Ok(None);
    };
    match std::str::from_utf8(bytes.as_slice()) {
        Ok(text) => Ok(Some((word_of(alloc, text)?, size))),
        Err(_) => unreachable!(),
    }
}

fn bytes_between(
    alloc: Global,
    mark: u8,
    after: &[u8],
) -> Result<Option<(Sequence<u8>, usize)>, Memory>
    ensures found { IfOk result (λ found. found ≡ reader.quoted_at mark false after.now) }
    ensures within { IfOk result (λ found. IfSome found (λ f. f.1 ≤ length after.now)) }
{
    let mut bytes = Sequence::new(alloc);
    let mut at = 0;
    'bytes: while at < after.len() {
        let Some(width) = width_at(mark, &after[at..]) else {
            return Ok(Some((bytes, at + 1)));
        };
        bytes.push(after[at])?;
        at += width;
    }
    Ok(None)
}

/// How many bytes write the first byte between marks: two where it is a doubled mark. None where it
/// is the mark that ends the text.
fn width_at(mark: u8, rest: &[u8]) -> Option<usize>
    requires { 0 < length rest.now }
    ensures ended { IfNone result (reader.quoted_at mark false rest.now ≡ Some ([], 1)) }
    ensures more { IfSome result (λ width. reader.quoted_at mark false rest.now
        ≡ found_after (take 1 rest.now) width (reader.quoted_at mark false (drop width rest.now))) }
    ensures least { IfSome result (λ width. 0 < width) }
    ensures within { IfSome result (λ width. width ≤ length rest.now) }
{
    match rest {
        [first, second, ..] if *first == mark && *second == mark => Some(2),
        [first, ..] if *first == mark => None,
        _ => Some(1),
    }
}

/// A comment or a symbol: its token, where it has one, and how many bytes follow its first.
pub(crate) fn mark_at(first: u8, after: &[u8]) -> Option<(Option<Token>, usize)>
    ensures found { result ≡ reader.mark_at first after.now }
    ensures within { IfSome result (λ f. f.1 ≤ length after.now) }
{
    match (first, after) {
        (b'-', [b'-', ..]) => Some((None, run_size(Run::Line, after))),
        (b'/', [b'*', inside @ ..]) => block(inside),
        _ => symbol(first, after),
    }
}

/// A comment up to `*/`, after its `/*`: how many bytes follow its `/`.
fn block(inside: &[u8]) -> Option<(Option<Token>, usize)>
    ensures found { result ≡ reader.block_part (reader.block_length 0 inside.now) }
    ensures within { IfSome result (λ f. f.1 ≤ length inside.now + 1) }
{
    'bytes: for at in 0..inside.len() {
        if let [b'*', b'/', ..] = &inside[at..] {
            return Some((None, at + 3));
        }
    }
    None
}

/// A symbol, by its first two bytes.
fn symbol(first: u8, after: &[u8]) -> Option<(Option<Token>, usize)>
    ensures found { result ≡ reader.symbol_part (reader.pair_at first after.now) (reader.single_of first) }
    ensures within { IfSome result (λ f. f.1 ≤ length after.now) }
{
    if let [second, ..] = after {
        if let Some(symbol) = pair(first, *second) {
            return Some((Some(Token::Symbol(symbol)), 1));
        }
    }
    let symbol = single(first)?;
    Some((Some(Token::Symbol(symbol)), 0))
}

/// The symbol of two bytes.
#[tactic(auto, unfolding(read_laws::specs::TokenReader::pair_of))]
fn pair(first: u8, second: u8) -> Option<Symbol>
    ensures { result ≡ reader.pair_of first second }
{
    match (first, second) {
        (b'<', b'=') => Some(Symbol::LessEqual),
        (b'<', b'>') => Some(Symbol::NotEqual),
        (b'>', b'=') => Some(Symbol::GreaterEqual),
        (b'!', b'=') => Some(Symbol::BangEqual),
        (b'|', b'|') => Some(Symbol::Bars),
        _ => None,
    }
}

/// The symbol of one byte.
#[tactic(auto, unfolding(read_laws::specs::TokenReader::single_of))]
fn single(byte: u8) -> Option<Symbol>
    ensures { result ≡ reader.single_of byte }
{
    match byte {
        b'(' => Some(Symbol::Open),
        b')' => Some(Symbol::Close),
        b',' => Some(Symbol::Comma),
        b'.' => Some(Symbol::Dot),
        b'*' => Some(Symbol::Star),
        b'+' => Some(Symbol::Plus),
        b'-' => Some(Symbol::Minus),
        b'=' => Some(Symbol::Equal),
        b'<' => Some(Symbol::Less),
        b'>' => Some(Symbol::Greater),
        b'/' => Some(Symbol::Slash),
        b'%' => Some(Symbol::Percent),
        _ => None,
    }
}
