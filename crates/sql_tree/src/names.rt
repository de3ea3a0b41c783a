ghost use Rattle.std.specs.Prelude.{◌≡◌, [], ◌∷◌, ◌++◌, ◌||◌, flat_map, IfOk, OnOk};
ghost use Rattle.std.specs.List.{list_all};
ghost use Rattle.sql_tree.specs.Bytes.{is_digit, is_low_letter, doubled};
ghost use Rattle.sql_tree.specs.Names.{is_low_word, is_bare_name, is_reserved_word, name_text};

use crate::words::{is_unsupported, keyword};
use cell_core::{Memory, Word, word_of};
use std::alloc::Global;

/// A name as it is printed. A word in lower case that isn't reserved is unchanged and shared; any
/// other name is put in quotes.
pub fn printed_name(alloc: Global, name: &Word) -> Result<Word, Memory>
    ensures { IfOk result (λ text. text ≡ name_text name.now) }
{
    if is_bare(name.text()) {
        return name.share();
    }
    let mut quoted = Vec::new(alloc);
    write_quoted(b'"', name.text(), &mut quoted)?;
    match std::str::from_utf8(&quoted) {
        Ok(text) => word_of(alloc, text),
        Err(_) => unreachable!(),
    }
}

/// Appends a name as it is printed. On `Memory`, `out` keeps what it had, and a part of the name may
/// follow.
pub fn write_name(name: &Word, out: &mut Vec<u8>) -> Result<(), Memory>
    ensures { OnOk result (out.new.items ≡ out.old.items ++ name_text name.now) }
{
    let text = name.text();
    if is_bare(text) {
        out.extend_from_slice(text.as_bytes())?;
        return Ok(());
    }
    write_quoted(b'"', text, out)
}

/// Appends a text between two marks, with each mark in it doubled. On `Memory`, `out` keeps what it had,
/// and a part of this may follow.
pub fn write_quoted(mark: u8, text: &str, out: &mut Vec<u8>) -> Result<(), Memory>
    ensures { OnOk result (out.new.items ≡ out.old.items ++ (mark ∷ flat_map (doubled mark) text.now ++ mark ∷ [])) }
{
    out.push(mark)?;
    for byte in text.as_bytes() {
        write_doubled(mark, *byte, out)?;
    }
    out.push(mark)?;
    Ok(())
}

/// Appends a byte, and twice where it is the mark.
fn write_doubled(mark: u8, byte: u8, out: &mut Vec<u8>) -> Result<(), Memory>
    ensures { OnOk result (out.new.items ≡ out.old.items ++ doubled mark byte) }
{
    if byte == mark {
        out.push(mark)?;
    }
    out.push(byte)?;
    Ok(())
}

/// Whether a name needs no quotes.
fn is_bare(name: &str) -> bool
    ensures { result ≡ is_bare_name name.now }
{
    is_low_word(name.as_bytes()) && !is_reserved(name)
}

/// Whether a word in lower case is reserved: one that the profile reads, or one that it leaves out.
fn is_reserved(word: &str) -> bool
    ensures { result ≡ is_reserved_word word.now }
{
    keyword(word).is_some() || is_unsupported(word)
}

/// Whether the bytes are a word in lower case.
fn is_low_word(bytes: &[u8]) -> bool
    ensures { result ≡ is_low_word bytes.now }
{
    match bytes {
        [] => false,
        [first, rest @ ..] => is_low_letter(*first) && are_low_bytes(rest),
    }
}

/// Whether each byte may be part of a word in lower case.
fn are_low_bytes(bytes: &[u8]) -> bool
    ensures { result ≡ list_all (λ b. is_low_letter b || is_digit b) bytes.now }
{
    bytes
        .iter()
        .all(|b| is_low_letter(*b) || b.is_ascii_digit())
}

/// Whether a byte is a letter of ASCII in lower case or `_`.
fn is_low_letter(b: u8) -> bool
    ensures { result ≡ is_low_letter b }
{
    b.is_ascii_lowercase() || b == b'_'
}
