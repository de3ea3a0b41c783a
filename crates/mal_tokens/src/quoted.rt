ghost use Rattle.std.specs.Prelude.{◌≡◌, ◌≤◌, ◌++◌, length, Some, None, false, IfOk, OnOk, IsErrOf, IsUtf8};
ghost use Rattle.mal_tokens.specs.Bytes as reader;

use crate::error::MalTokensError;
use cell_core::{Memory, Word, word_of};
use std::alloc::Global;

/// The text before the closing quote, and how many bytes that takes, the quote too.
pub(crate) fn quoted(alloc: Global, after: &[u8]) -> Result<(Word, usize), MalTokensError>
    requires { IsUtf8 after.now }
    ensures found { IfOk result (λ found. reader.quoted_at false after.now ≡ Some (found.0, found.1)) }
    ensures within { IfOk result (λ found. found.1 ≤ length after.now) }
    ensures none { IsErrOf result MalTokensError.Syntax → reader.quoted_at false after.now ≡ None }
{
    let (bytes, length) = quoted_bytes(alloc, after)?;
    match std::str::from_utf8(&bytes) {
        Ok(text) => Ok((word_of(alloc, text)?, length)),
        Err(_) => unreachable!(),
    }
}

fn quoted_bytes(alloc: Global, after: &[u8]) -> Result<(Vec<u8>, usize), MalTokensError>
    ensures found { IfOk result (λ found. reader.quoted_at false after.now ≡ Some (found.0.items, found.1)) }
    ensures within { IfOk result (λ found. found.1 ≤ length after.now) }
    ensures none { IsErrOf result MalTokensError.Syntax → reader.quoted_at false after.now ≡ None }
{
    let mut bytes = Vec::new(alloc);
    let mut is_escaped = false;
    let mut length = 0;
    let mut rest = after;
    'bytes: while let [byte, more @ ..] = rest {
        if !is_escaped && *byte == b'"' {
            return Ok((bytes, length + 1));
        }
        if is_refused(is_escaped, *byte) {
            return Err(MalTokensError::Syntax);
        }
        is_escaped = keep_byte(&mut bytes, is_escaped, *byte)?;
        length += 1;
        rest = more;
    }
    Err(MalTokensError::Syntax)
}

/// Whether no text has the byte there: after a backslash any but `\`, `"` and `n`, and else an end
/// of a line.
fn is_refused(is_escaped: bool, byte: u8) -> bool
    ensures { result ≡ reader.is_refused is_escaped byte }
{
    if is_escaped {
        !(byte == b'\\' || byte == b'"' || byte == b'n')
    } else {
        byte == b'\n'
    }
}

/// Adds what is kept of a byte, and returns whether a backslash is open after it.
fn keep_byte(bytes: &mut Vec<u8>, is_escaped: bool, byte: u8) -> Result<bool, Memory>
    ensures bytes { OnOk result (bytes.new.items ≡ bytes.old.items ++ reader.kept_byte is_escaped byte) }
    ensures opens { IfOk result (λ is_open. is_open ≡ reader.is_open is_escaped byte) }
{
    if is_escaped {
        bytes.push(if byte == b'n' { b'\n' } else { byte })?;
        return Ok(false);
    }
    if byte == b'\\' {
        return Ok(true);
    }
    bytes.push(byte)?;
    Ok(false)
}
