ghost use Rattle.std.specs.Prelude.{◌≡◌, ℕ, List, [], ◌++◌, map, codes, decimal, if◌then◌else◌, OnOk};
ghost use Rattle.sql_print.specs.Canon as canon;
ghost use Rattle.sql_tree.specs.Names.{name_text};

use crate::print_expr::{write_literal, write_reference};
use cell_core::{Cell, Column, Kind, Memory, Word};
use itoa::Buffer;
use sql_tree::{ColRef, write_name};

/// Appends bytes as they are.
pub(crate) fn write_bytes(bytes: &[u8], out: &mut Vec<u8>) -> Result<(), Memory>
    ensures { OnOk result (out.new.items ≡ out.old.items ++ bytes.now) }
{
    out.extend_from_slice(bytes)?;
    Ok(())
}

/// Appends a number in decimal.
pub(crate) fn write_number(number: u64, out: &mut Vec<u8>) -> Result<(), Memory>
    ensures { OnOk result (out.new.items ≡ out.old.items ++ decimal number) }
{
    let mut buffer = Buffer::new();
    write_bytes(buffer.format(number).as_bytes(), out)
}

/// What can be listed, with a comma and a space between two.
pub(crate) trait Listed {
    ghost printed: { Self → List ℕ };

    /// Appends its text.
    fn write(&self, out: &mut Vec<u8>) -> Result<(), Memory>
        ensures { OnOk result (out.new.items ≡ out.old.items ++ printed self.now) };
}

/// Appends things with a comma and a space between two of them.
pub(crate) fn write_listed<T: Listed>(things: &[T], out: &mut Vec<u8>) -> Result<(), Memory>
    ensures { OnOk result (out.new.items ≡ out.old.items ++ canon.listed (map T.printed things.now)) }
{
    let [first, rest @ ..] = things else {
        return Ok(());
    };
    first.write(out)?;
    for thing in rest {
        write_bytes(b", ", out)?;
        thing.write(out)?;
    }
    Ok(())
}

/// Appends things with a comma and a space between two of them, in parentheses.
pub(crate) fn write_enclosed<T: Listed>(things: &[T], out: &mut Vec<u8>) -> Result<(), Memory>
    ensures { OnOk result (out.new.items ≡ out.old.items ++ canon.enclosed (canon.listed (map T.printed things.now))) }
{
    write_bytes(b"(", out)?;
    write_listed(things, out)?;
    write_bytes(b")", out)
}

/// Appends a word and things after it, where there are any.
pub(crate) fn write_listed_after<T: Listed>(
    word: &[u8],
    things: &[T],
    out: &mut Vec<u8>,
) -> Result<(), Memory>
    ensures { OnOk result (out.new.items ≡ out.old.items ++ canon.listed_behind word.now (map T.printed things.now)) }
{
    if things.is_empty() {
        return Ok(());
    }
    write_bytes(word, out)?;
    write_listed(things, out)
}

impl Listed for Word {
    ghost printed = { name_text };

    fn write(&self, out: &mut Vec<u8>) -> Result<(), Memory> {
        write_name(self, out)
    }
}

impl Listed for ColRef {
    ghost printed = { canon.reference_text };

    fn write(&self, out: &mut Vec<u8>) -> Result<(), Memory> {
        write_reference(self, out)
    }
}

impl Listed for Column {
    ghost printed = { canon.column_text };

    fn write(&self, out: &mut Vec<u8>) -> Result<(), Memory> {
        write_column(self, out)
    }
}

/// Appends a column of CREATE or ALTER.
pub(crate) fn write_column(column: &Column, out: &mut Vec<u8>) -> Result<(), Memory>
    ensures { OnOk result (out.new.items ≡ out.old.items ++ canon.column_text column.now) }
{
    write_name(&column.name, out)?;
    write_bytes(b" ", out)?;
    write_type(column.kind, column.width, out)?;
    write_not_null(column.not_null, out)?;
    write_default(&column.default, out)
}

fn write_not_null(not_null: bool, out: &mut Vec<u8>) -> Result<(), Memory>
    ensures { OnOk result (out.new.items ≡ out.old.items ++ (if not_null then codes " NOT NULL" else [])) }
{
    if not_null {
        return write_bytes(b" NOT NULL", out);
    }
    Ok(())
}

fn write_default(default: &Cell, out: &mut Vec<u8>) -> Result<(), Memory>
    ensures { OnOk result (out.new.items ≡ out.old.items ++ canon.default_text default.now) }
{
    match default {
        Cell::Nil => Ok(()),
        _ => {
            write_bytes(b" DEFAULT ", out)?;
            write_literal(default, out)
        }
    }
}

fn write_type(kind: Kind, width: u32, out: &mut Vec<u8>) -> Result<(), Memory>
    ensures { OnOk result (out.new.items ≡ out.old.items ++ canon.type_text kind width) }
{
    match kind {
        Kind::Int => write_bytes(b"INT", out),
        Kind::Huge => write_bytes(b"HUGE", out),
        Kind::Text if width == 0 => write_bytes(b"TEXT", out),
        Kind::Text => {
            write_bytes(b"VARCHAR(", out)?;
            write_number(u64::from(width), out)?;
            write_bytes(b")", out)
        }
        Kind::Day => write_bytes(b"DATE", out),
        Kind::Bit => write_bytes(b"BIT", out),
        Kind::Oid => write_bytes(b"OID", out),
    }
}
