ghost use Rattle.std.specs.Prelude.{◌≡◌, ◌≤◌, ◌==◌, length};
ghost use Rattle.std.specs.List.{prefix_len};
ghost use Rattle.text_bytes.specs.Classes as classes;

/// Whether a byte is a space, a tab, a carriage return or a line feed.
pub fn is_blank(byte: u8) -> bool
    ensures { result ≡ classes.is_blank byte }
{
    byte == b' ' || byte == b'\t' || byte == b'\r' || byte == b'\n'
}

/// Whether a byte is a letter or `_`.
pub fn is_letter(byte: u8) -> bool
    ensures { result ≡ classes.is_letter byte }
{
    (b'a' <= byte && byte <= b'z') || byte == b'_' || (b'A' <= byte && byte <= b'Z')
}

/// Whether a byte is a digit.
pub fn is_digit(byte: u8) -> bool
    ensures { result ≡ classes.is_digit byte }
{
    b'0' <= byte && byte <= b'9'
}

/// Whether a byte is a letter, a digit or `_`.
fn is_word_byte(byte: u8) -> bool
    ensures { result ≡ classes.is_word_byte byte }
{
    is_letter(byte) || is_digit(byte)
}

/// Whether a comment goes on at the byte.
fn is_in_line(byte: u8) -> bool
    ensures { result ≡ classes.is_in_line byte }
{
    !(byte == b'\n')
}

/// How many bytes of a word are at the front.
pub fn word_length(bytes: &[u8]) -> usize
    ensures value { result ≡ prefix_len classes.is_word_byte bytes.now }
    ensures within { result ≤ length bytes.now }
{
    bytes.iter().take_while(|byte| is_word_byte(**byte)).count()
}

/// How many digits are at the front.
pub fn digits_length(bytes: &[u8]) -> usize
    ensures value { result ≡ prefix_len classes.is_digit bytes.now }
    ensures within { result ≤ length bytes.now }
{
    bytes.iter().take_while(|byte| is_digit(**byte)).count()
}

/// How many bytes come before the end of the line.
pub fn line_length(bytes: &[u8]) -> usize
    ensures value { result ≡ prefix_len classes.is_in_line bytes.now }
    ensures within { result ≤ length bytes.now }
{
    bytes.iter().take_while(|byte| is_in_line(**byte)).count()
}

/// Whether a byte of a word is at the front.
pub fn begins_word_byte(bytes: &[u8]) -> bool
    ensures { result ≡ classes.begins classes.is_word_byte bytes.now }
{
    match bytes {
        [] => false,
        [first, ..] => is_word_byte(*first),
    }
}

/// Whether this byte is at the front.
pub fn begins_with(byte: u8, bytes: &[u8]) -> bool
    ensures { result ≡ classes.begins_with byte bytes.now }
{
    match bytes {
        [] => false,
        [first, ..] => *first == byte,
    }
}
