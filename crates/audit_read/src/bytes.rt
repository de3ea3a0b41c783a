//! Classes of bytes, and runs of one class.
ghost use Rattle.std.specs.Prelude.{◌≡◌, ◌≤◌, length};
ghost use Rattle.std.specs.List.{prefix_len};
ghost use Rattle.audit_read.specs.Bytes as seen;
ghost use Rattle.sql_tree.specs.Bytes as classes;
ghost use Rattle.sql_tree.specs.Pieces as defined;

/// What a byte begins.
#[derive(Clone, Copy, PartialEq, Eq)]
pub(crate) enum Class {
    /// A word.
    Letter,
    /// A number.
    Digit,
    /// No token.
    Blank,
    /// A string.
    Apostrophe,
    /// A name in quotes.
    Quote,
    /// A symbol or a comment.
    Mark,
}

/// Bytes that belong together.
#[derive(Clone, Copy, PartialEq, Eq)]
pub(crate) enum Run {
    /// Letters, digits and `_`.
    Word,
    /// Digits.
    Digits,
    /// What comes before the end of the line.
    Line,
}

/// What a byte begins.
#[tactic(auto, using(std::proofs::lemmas::Bool::Decides::nat_tests))]
pub(crate) fn class_of(byte: u8) -> Class
    ensures { result ≡ seen.class_of byte }
{
    match byte {
        b'a'..=b'z' | b'A'..=b'Z' | b'_' => Class::Letter,
        b'0'..=b'9' => Class::Digit,
        b' ' | b'\t' | b'\r' | b'\n' => Class::Blank,
        b'\'' => Class::Apostrophe,
        b'"' => Class::Quote,
        _ => Class::Mark,
    }
}

/// Whether a byte is a space, a tab, or an end of a line.
#[tactic(auto, using(std::proofs::lemmas::Bool::Decides::nat_tests))]
pub(crate) fn is_blank(byte: u8) -> bool
    ensures { result ≡ classes.is_blank byte }
{
    matches!(byte, b' ' | b'\t' | b'\r' | b'\n')
}

/// Whether a `--` or `/*` begins at a byte.
pub(crate) fn begins_comment(byte: u8, after: &[u8]) -> bool
    ensures { result ≡ defined.begins_comment byte after.now }
{
    match after {
        [b'-', ..] => byte == b'-',
        [b'*', ..] => byte == b'/',
        _ => false,
    }
}

/// Whether a byte belongs to a run.
#[tactic(auto, using(std::proofs::lemmas::Bool::Decides::nat_tests))]
pub(crate) fn is_in(run: Run, byte: u8) -> bool
    ensures { result ≡ seen.is_in run byte }
{
    match run {
        Run::Word => matches!(byte, b'a'..=b'z' | b'A'..=b'Z' | b'_' | b'0'..=b'9'),
        Run::Digits => matches!(byte, b'0'..=b'9'),
        Run::Line => byte != b'\n',
    }
}

/// How many bytes of a run are at the front.
pub(crate) fn run_size(run: Run, bytes: &[u8]) -> usize
    ensures value { result ≡ prefix_len (seen.is_in run) bytes.now }
    ensures within { result ≤ length bytes.now }
{
    'bytes: for size in 0..bytes.len() {
        if !is_in(run, bytes[size]) {
            return size;
        }
    }
    bytes.len()
}

/// A byte of a word in lower case.
#[tactic(auto, using(std::proofs::lemmas::Bool::Decides::nat_tests))]
pub(crate) fn lowered(byte: u8) -> u8
    ensures { result ≡ classes.low byte }
{
    match byte {
        b'A'..=b'Z' => byte + 32,
        _ => byte,
    }
}
