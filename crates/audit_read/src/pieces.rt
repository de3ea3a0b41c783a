//! The pieces of a script, in one pass over its places.
ghost use Rattle.std.specs.Prelude.{◌≡◌, ◌++◌, ◌∷◌, [], ◌||◌, if◌then◌else◌, IfOk, OnOk};
ghost use Rattle.sql_tree.specs.Pieces as defined;
ghost use Rattle.sql_tree.specs.declared.inside.Inside.TheVariants.{Outside};

use crate::bytes::{begins_comment, is_blank};
use cell_core::{Memory, Word, word_of};
use sql_tree::Inside;
use std::alloc::Global;

/// The pieces of a script, in order: what is between those `;` that end a statement, unless it is
/// only blanks and comments.
pub fn cut_script(alloc: Global, script: &Word) -> Result<Vec<Word>, Memory>
    ensures { IfOk result (λ found. found.items ≡ defined.pieces_of script.now) }
{
    pieces_in(alloc, script.text())
}

fn pieces_in(alloc: Global, text: &str) -> Result<Vec<Word>, Memory>
    ensures { IfOk result (λ found. found.items ≡ defined.pieces_of text.now) }
{
    let bytes = text.as_bytes();
    let mut found = Vec::new(alloc);
    let mut place = Inside::Outside;
    let mut start = 0;
    let mut says = false;
    'bytes: for at in 0..bytes.len() {
        let byte = bytes[at];
        if ends(place, byte) {
            keep(alloc, &mut found, &text[start..at], says)?;
            place = Inside::Outside;
            start = at + 1;
            says = false;
            continue;
        }
        let after = &bytes[at + 1..];
        says = says_more(says, place, byte, after);
        place = next(place, byte, after);
    }
    keep(alloc, &mut found, &text[start..], says)?;
    Ok(found)
}

/// Adds a run of bytes to the pieces, if it says something.
fn keep(alloc: Global, found: &mut Vec<Word>, run: &str, says: bool) -> Result<(), Memory>
    ensures { OnOk result (found.new.items ≡ found.old.items ++ (if says then run.now ∷ [] else [])) }
{
    if says {
        found.push(word_of(alloc, run)?)?;
    }
    Ok(())
}

/// Whether a byte is a `;` that ends a piece.
fn ends(place: Inside, byte: u8) -> bool
    ensures { result ≡ defined.ends_piece place byte }
{
    matches!(place, Inside::Outside) && byte == b';'
}

/// Whether a run says something up to a byte, given whether it does before it.
fn says_more(says: bool, place: Inside, byte: u8, after: &[u8]) -> bool
    ensures { result ≡ (says || defined.is_told place byte after.now) }
{
    says || match place {
        Inside::Outside => !is_blank(byte) && !begins_comment(byte, after),
        Inside::InText | Inside::InName => true,
        Inside::InLine | Inside::OpensBlock | Inside::InBlock | Inside::ClosesBlock => false,
    }
}

/// What the text lies in after a byte that ends no piece.
fn next(place: Inside, byte: u8, after: &[u8]) -> Inside
    ensures { result ≡ defined.next_inside place byte after.now }
{
    match place {
        Inside::Outside => opened(byte, after),
        Inside::InText => until(byte == b'\'', place),
        Inside::InName => until(byte == b'"', place),
        Inside::InLine => until(byte == b'\n', place),
        Inside::OpensBlock => Inside::InBlock,
        Inside::InBlock => match after {
            [b'/', ..] if byte == b'*' => Inside::ClosesBlock,
            _ => Inside::InBlock,
        },
        Inside::ClosesBlock => Inside::Outside,
    }
}

/// Outside where it ends here, else the place as it is.
fn until(ends: bool, place: Inside) -> Inside
    ensures { result ≡ (if ends then Outside else place) }
{
    if ends { Inside::Outside } else { place }
}

/// What a byte opens that is in no string, quoted name or comment.
fn opened(byte: u8, after: &[u8]) -> Inside
    ensures { result ≡ defined.opened byte after.now }
{
    match byte {
        b'\'' => Inside::InText,
        b'"' => Inside::InName,
        _ => match after {
            [b'-', ..] if byte == b'-' => Inside::InLine,
            [b'*', ..] if byte == b'/' => Inside::OpensBlock,
            _ => Inside::Outside,
        },
    }
}
