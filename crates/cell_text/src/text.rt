ghost use Rattle.std.specs.Prelude.{◌≡◌, ◌==◌, ◌+◌, ◌^◌, ◌<◌, ◌≤◌, ◌++◌, length, count_by, vec_len, vec_capacity, codes, decimal, OnOk, OnErr};
ghost use Rattle.cell_core.specs.CellText.{cell_text, escaped_text};
ghost use Rattle.cell_core.specs.Day.{day_text};

use crate::day::{day_bytes, is_printed_day};
use cell_core::{Cell, Memory};
use itoa::{Buffer, Integer};

/// Appends the text of a cell.
///
/// Numbers are written in decimal. A day is written as its date, `YYYY-MM-DD`, and where its year
/// isn't from 0001 to 9999, as its number. No value is `\N`, and a text is itself with two
/// backslashes for one. Truth values are `true` and `false`, and the identifier `n` is `n@0`.
/// Where memory runs out, `out` stays as it was.
pub fn write_cell(cell: &Cell, out: &mut Vec<u8>) -> Result<(), Memory>
    ensures ok { OnOk result (out.new.items ≡ out.old.items ++ cell_text cell.now) }
    ensures err { OnErr result (out.new.items ≡ out.old.items) }
{
    match cell {
        Cell::Nil => write_bytes(b"\\N", out),
        Cell::Int(number) => write_number(*number, out),
        Cell::Huge(number) => write_number(*number, out),
        Cell::Text(word) => write_escaped(word.text(), out),
        Cell::Day(day) => write_day(*day, out),
        Cell::Bit(true) => write_bytes(b"true", out),
        Cell::Bit(false) => write_bytes(b"false", out),
        Cell::Oid(oid) => write_oid(*oid, out),
    }
}

fn write_bytes(bytes: &[u8], out: &mut Vec<u8>) -> Result<(), Memory>
    ensures ok { OnOk result (out.new.items ≡ out.old.items ++ bytes.now) }
    ensures err { OnErr result (out.new.items ≡ out.old.items) }
{
    out.extend_from_slice(bytes)?;
    Ok(())
}

fn write_number<I: Integer>(number: I, out: &mut Vec<u8>) -> Result<(), Memory>
    ensures ok { OnOk result (out.new.items ≡ out.old.items ++ I.text number) }
    ensures err { OnErr result (out.new.items ≡ out.old.items) }
{
    let mut buffer = Buffer::new();
    write_bytes(buffer.format(number).as_bytes(), out)
}

/// Appends a text with each backslash doubled.
fn write_escaped(text: &str, out: &mut Vec<u8>) -> Result<(), Memory>
    ensures ok { OnOk result (out.new.items ≡ out.old.items ++ escaped_text text.now) }
    ensures err { OnErr result (out.new.items ≡ out.old.items) }
{
    let bytes = text.as_bytes();
    let backslashes = count_backslashes(bytes);
    if backslashes == 0 {
        return write_bytes(bytes, out);
    }
    out.reserve(bytes.len() + backslashes)?;
    push_escaped(bytes, out);
    Ok(())
}

fn count_backslashes(bytes: &[u8]) -> usize
    ensures count { result ≡ count_by (λ byte. byte == 92) bytes.now }
    ensures fits { length bytes.now + result < 2 ^ 64 }
{
    bytes.iter().filter(|byte| **byte == b'\\').count()
}

/// Appends a text with each backslash doubled, where there is room for it.
fn push_escaped(bytes: &[u8], out: &mut Vec<u8>)
    requires { vec_len out.old + length (escaped_text bytes.now) ≤ vec_capacity out.old }
    ensures { out.new.items ≡ out.old.items ++ escaped_text bytes.now }
{
    for byte in bytes {
        if *byte == b'\\' {
            out.push_reserved(b'\\');
        }
        out.push_reserved(*byte);
    }
}

fn write_day(day: i32, out: &mut Vec<u8>) -> Result<(), Memory>
    ensures ok { OnOk result (out.new.items ≡ out.old.items ++ day_text day) }
    ensures err { OnErr result (out.new.items ≡ out.old.items) }
{
    if is_printed_day(day) {
        write_bytes(&day_bytes(day), out)
    } else {
        write_number(day, out)
    }
}

fn write_oid(oid: u64, out: &mut Vec<u8>) -> Result<(), Memory>
    ensures ok { OnOk result (out.new.items ≡ out.old.items ++ decimal oid ++ codes "@0") }
    ensures err { OnErr result (out.new.items ≡ out.old.items) }
{
    let mut buffer = Buffer::new();
    let digits = buffer.format(oid).as_bytes();
    out.reserve(digits.len() + 2)?;
    out.extend_from_slice(digits)?;
    out.extend_from_slice(b"@0")?;
    Ok(())
}
