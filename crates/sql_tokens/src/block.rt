ghost use Rattle.std.specs.Prelude.{◌≡◌, ◌≤◌, ◌+◌, length, IfSome};
ghost use Rattle.read_laws.specs.TokenReader as reader;

use text_bytes::begins_with;

/// How many bytes come before the first `*/`.
pub(crate) fn block_length(bytes: &[u8]) -> Option<usize>
    ensures value { result ≡ reader.block_length 0 bytes.now }
    ensures within { IfSome result (λ n. n + 2 ≤ length bytes.now) }
{
    let mut length = 0;
    let mut rest = bytes;
    'bytes: while let [first, after @ ..] = rest {
        if *first == b'*' && begins_with(b'/', after) {
            return Some(length);
        }
        length += 1;
        rest = after;
    }
    None
}
