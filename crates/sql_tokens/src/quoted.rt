ghost use Rattle.std.specs.Prelude.{◌≡◌, ◌<◌, ◌≤◌, ◌++◌, length, Some, None, true, false, IfOk, OnOk, OnErr, IsErrOf, IsUtf8};
ghost use Rattle.read_laws.specs.TokenReader as reader;

use crate::reading::TokensError;
use cell_core::{Memory, Word, word_of};
use std::alloc::Global;

/// The text before the first mark that isn't doubled, each doubled mark as one, and how many bytes
/// it takes, that mark included.
pub(crate) fn quoted(alloc: Global, mark: u8, after: &[u8]) -> Result<(Word, usize), TokensError>
    requires ascii { mark < 128 }
    requires text { IsUtf8 after.now }
    ensures found { IfOk result (λ found. reader.quoted_at mark false after.now ≡ Some (found.0, found.1)) }
    ensures within { IfOk result (λ found. found.1 ≤ length after.now) }
    ensures none { IsErrOf result TokensError.Syntax → reader.quoted_at mark false after.now ≡ None }
{
    let (bytes, length) = quoted_bytes(alloc, mark, after)?;
    match std::str::from_utf8(&bytes) {
        Ok(text) => Ok((word_of(alloc, text)?, length)),
        Err(_) => unreachable!(),
    }
}

fn quoted_bytes(alloc: Global, mark: u8, after: &[u8]) -> Result<(Vec<u8>, usize), TokensError>
    ensures found { IfOk result (λ found. reader.quoted_at mark false after.now ≡ Some (found.0.items, found.1)) }
    ensures within { IfOk result (λ found. found.1 ≤ length after.now) }
    ensures none { IsErrOf result TokensError.Syntax → reader.quoted_at mark false after.now ≡ None }
{
    let mut bytes = Vec::new(alloc);
    let mut is_closing = false;
    let mut length = 0;
    let mut rest = after;
    'bytes: while let [byte, more @ ..] = rest {
        if is_closing && *byte != mark {
            return Ok((bytes, length));
        }
        is_closing = keep_byte(&mut bytes, mark, is_closing, *byte)?;
        length += 1;
        rest = more;
    }
    if is_closing {
        Ok((bytes, length))
    } else {
        Err(TokensError::Syntax)
    }
}

/// Adds what is kept of a byte, and returns whether a mark without its pair comes last.
fn keep_byte(bytes: &mut Vec<u8>, mark: u8, is_closing: bool, byte: u8) -> Result<bool, Memory>
    ensures bytes { OnOk result (bytes.new.items ≡ bytes.old.items ++ reader.kept_byte mark is_closing byte) }
    ensures closing { IfOk result (λ closing. closing ≡ reader.next_closing mark is_closing byte) }
{
    if byte == mark {
        if is_closing {
            bytes.push(mark)?;
        }
        return Ok(!is_closing);
    }
    bytes.push(byte)?;
    Ok(false)
}
