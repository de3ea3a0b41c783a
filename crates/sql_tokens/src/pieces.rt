ghost use Rattle.std.specs.Prelude.{◌≡◌, ◌<◌, ◌≤◌, ◌+◌, ℕ, List, [], ◌∷◌, ◌++◌, length, take, drop, false, IfOk, IfSome, IfNone, IsTrue, OnOk, IsErrOf};
ghost use Rattle.sql_tree.specs.Pieces as told;
ghost use Rattle.sql_tree.specs.declared.inside.Inside.TheVariants.{Outside};
ghost use Rattle.read_laws.specs.TokenReader as reader;

use cell_core::{Memory, Word, word_of};
use sql_tree::Inside;
use std::alloc::{AllocFailed, Global};
use text_bytes::{begins_with, is_blank};
use thiserror::Error;

/// The most statements of a script.
pub const MOST_STATEMENTS: usize = 256;

/// Why a script isn't split.
#[derive(Clone, Copy, Debug, PartialEq, Eq, Drop, Error)]
pub enum SplitError {
    /// It has more than `MOST_STATEMENTS` statements.
    #[error("more than 256 statements")]
    TooMany,
    /// Memory ran out.
    #[error("memory ran out")]
    Memory,
}

impl From<Memory> for SplitError {
    ghost use Rattle.sql_tokens.specs.declared.pieces.SplitError.TheVariants.{Memory as SplitMemory};

    ghost from_gives = { λ _ e. e ≡ SplitMemory };

    fn from(_e: Memory) -> SplitError {
        SplitError::Memory
    }
}

impl<T: Drop> From<AllocFailed<T>> for SplitError {
    ghost use Rattle.sql_tokens.specs.declared.pieces.SplitError.TheVariants.{Memory as SplitMemory};

    ghost from_gives = { λ _ e. e ≡ SplitMemory };

    fn from(_e: AllocFailed<T>) -> SplitError {
        SplitError::Memory
    }
}

/// The pieces of a script, in order: the runs between its `;`, without those of only blanks and
/// comments. Strings, quoted names and comments may hold a `;`.
pub fn split(alloc: Global, script: &str) -> Result<Vec<Word>, SplitError>
    ensures pieces { IfOk result (λ found. found.items ≡ told.pieces_of script.now) }
    ensures at_most { IfOk result (λ found. length found.items ≤ told.most_statements) }
    ensures too_many { IsErrOf result SplitError.TooMany →
        told.most_statements < length (told.pieces_of script.now) }
{
    let mut pieces = Vec::new(alloc);
    let mut rest = script;
    'runs: while let Some((run, after)) = first_run(rest) {
        add_run(alloc, &mut pieces, run)?;
        rest = after;
    }
    add_run(alloc, &mut pieces, rest)?;
    Ok(pieces)
}

/// The text before the first `;` that ends a piece, and the text after it.
fn first_run(script: &str) -> Option<(&str, &str)>
    ensures cut { IfSome result (λ cut.
        told.runs_of Outside script.now ≡ cut.0.now ∷ told.runs_of Outside cut.1.now) }
    ensures shorter { IfSome result (λ cut. length cut.1.now < length script.now) }
    ensures whole { IfNone result (told.runs_of Outside script.now ≡ script.now ∷ []) }
{
    match run_length(script.as_bytes()) {
        Some(length) => Some((&script[..length], &script[length + 1..])),
        None => None,
    }
}

/// The place of the first `;` that ends a piece.
fn run_length(bytes: &[u8]) -> Option<usize>
    ensures { result ≡ reader.run_length Outside 0 bytes.now }
{
    let mut place = Inside::Outside;
    let mut length = 0;
    let mut rest = bytes;
    'bytes: while let [byte, after @ ..] = rest {
        if !goes_on(place, *byte) {
            if ends_piece(place, *byte) {
                return Some(length);
            }
            place = next_inside(place, *byte, after);
        }
        length += 1;
        rest = after;
    }
    None
}

/// Whether a byte is outside strings, quoted names and comments, and neither ends a piece nor opens
/// any of these, whatever follows it. This holds for most bytes, which are looked at first.
fn goes_on(place: Inside, byte: u8) -> bool
    ensures open { IsTrue result → told.ends_piece place byte ≡ false }
    ensures here { IsTrue result → (after : List ℕ) → told.next_inside place byte after ≡ place }
{
    matches!(place, Inside::Outside) && !matches!(byte, b';' | b'\'' | b'"' | b'-' | b'/')
}

/// Adds a run of bytes to the pieces, unless it is only blanks and comments.
fn add_run(alloc: Global, pieces: &mut Vec<Word>, run: &str) -> Result<(), SplitError>
    requires { length pieces.old.items ≤ told.most_statements }
    ensures added { OnOk result (pieces.new.items ≡ pieces.old.items ++ reader.kept_runs (run.now ∷ [])) }
    ensures at_most { OnOk result (length pieces.new.items ≤ told.most_statements) }
    ensures full { IsErrOf result SplitError.TooMany → length pieces.old.items ≡ told.most_statements }
    ensures kept { IsErrOf result SplitError.TooMany → reader.kept_runs (run.now ∷ []) ≡ run.now ∷ [] }
{
    if !says_something(run) {
        return Ok(());
    }
    if pieces.len() >= MOST_STATEMENTS {
        return Err(SplitError::TooMany);
    }
    pieces.push(word_of(alloc, run)?)?;
    Ok(())
}

/// Whether a run isn't only blanks and comments.
fn says_something(run: &str) -> bool
    ensures { result ≡ told.says_something Outside run.now }
{
    let mut place = Inside::Outside;
    let mut rest = run.as_bytes();
    'bytes: while let [byte, after @ ..] = rest {
        if is_told(place, *byte, after) {
            return true;
        }
        place = next_inside(place, *byte, after);
        rest = after;
    }
    false
}

/// Whether a byte is no blank and in no comment.
fn is_told(place: Inside, byte: u8, after: &[u8]) -> bool
    ensures { result ≡ told.is_told place byte after.now }
{
    match place {
        Inside::Outside => !(is_blank(byte) || begins_comment(byte, after)),
        Inside::InText => true,
        Inside::InName => true,
        _ => false,
    }
}

/// Whether a byte begins a comment.
fn begins_comment(byte: u8, after: &[u8]) -> bool
    ensures { result ≡ told.begins_comment byte after.now }
{
    (byte == b'-' && begins_with(b'-', after)) || (byte == b'/' && begins_with(b'*', after))
}

/// Whether a byte is a `;` that ends a piece.
fn ends_piece(place: Inside, byte: u8) -> bool
    ensures { result ≡ told.ends_piece place byte }
{
    match place {
        Inside::Outside => byte == b';',
        _ => false,
    }
}

/// Where a text is after a byte.
fn next_inside(place: Inside, byte: u8, after: &[u8]) -> Inside
    ensures { result ≡ told.next_inside place byte after.now }
{
    match place {
        Inside::Outside => opened(byte, after),
        Inside::InText if byte == b'\'' => Inside::Outside,
        Inside::InText => Inside::InText,
        Inside::InName if byte == b'"' => Inside::Outside,
        Inside::InName => Inside::InName,
        Inside::InLine if byte == b'\n' => Inside::Outside,
        Inside::InLine => Inside::InLine,
        Inside::OpensBlock => Inside::InBlock,
        Inside::InBlock if byte == b'*' && begins_with(b'/', after) => Inside::ClosesBlock,
        Inside::InBlock => Inside::InBlock,
        Inside::ClosesBlock => Inside::Outside,
    }
}

/// Where a text is after a byte outside strings, quoted names and comments.
fn opened(byte: u8, after: &[u8]) -> Inside
    ensures { result ≡ told.opened byte after.now }
{
    if byte == b'\'' {
        Inside::InText
    } else if byte == b'"' {
        Inside::InName
    } else if byte == b'-' && begins_with(b'-', after) {
        Inside::InLine
    } else if byte == b'/' && begins_with(b'*', after) {
        Inside::OpensBlock
    } else {
        Inside::Outside
    }
}
