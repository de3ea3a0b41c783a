ghost use Rattle.std.specs.Prelude.{◌≡◌, ◌++◌, OnOk, OnErr};
ghost use Rattle.sql_definitions.specs.Refusals.{refusal_number, refusal_words};

use cell_core::{Memory, Word};

/// Why a statement is refused. A refused statement changes no table.
#[derive(Debug, PartialEq, Eq)]
pub enum Refusal {
    /// 1: the text is no statement.
    Syntax,
    /// 2: a part of SQL that the profile leaves out, by its name.
    Unsupported(Word),
    /// 3: no table has this name.
    NoTable(Word),
    /// 4: a table has this name already.
    TableExists(Word),
    /// 5: no column has this name.
    NoColumn(Word),
    /// 6: two tables of FROM have this column.
    Ambiguous(Word),
    /// 7: kinds that don't fit.
    KindsDiffer,
    /// 8: a row with too many or too few values.
    WrongCount,
    /// 9: a text longer than its column allows.
    TextTooLong,
    /// 10: a number leaves the signed 64-bit range.
    Overflow,
    /// 11: the named limit is passed.
    Limit(Word),
    /// 12: a name that may occur once occurs twice.
    NameTwice(Word),
    /// 13: Nil for a column that refuses it.
    NullStored,
    /// 14: a column outside aggregates that isn't grouped by.
    NotGrouped(Word),
}

// By a call of its own, so that proofs needn't go through its forms where one is dropped.
impl Drop for Refusal {
    fn drop(self) {
        match self {
            Refusal::Syntax
            | Refusal::Unsupported(_)
            | Refusal::NoTable(_)
            | Refusal::TableExists(_)
            | Refusal::NoColumn(_)
            | Refusal::Ambiguous(_)
            | Refusal::KindsDiffer
            | Refusal::WrongCount
            | Refusal::TextTooLong
            | Refusal::Overflow
            | Refusal::Limit(_)
            | Refusal::NameTwice(_)
            | Refusal::NullStored
            | Refusal::NotGrouped(_) => {}
        }
    }
}

/// What a statement that is no query answers.
#[derive(Debug, Drop)]
pub enum Reply {
    /// Done.
    Done,
    /// Done, with this many rows inserted, deleted or updated.
    Rows(u64),
    /// Refused.
    Refused(Refusal),
}

impl Refusal {
    /// The refusal's number, from 1 to 14.
    pub fn number(&self) -> u8
        ensures { result ≡ refusal_number self.now }
    {
        match self {
            Refusal::Syntax => 1,
            Refusal::Unsupported(_) => 2,
            Refusal::NoTable(_) => 3,
            Refusal::TableExists(_) => 4,
            Refusal::NoColumn(_) => 5,
            Refusal::Ambiguous(_) => 6,
            Refusal::KindsDiffer => 7,
            Refusal::WrongCount => 8,
            Refusal::TextTooLong => 9,
            Refusal::Overflow => 10,
            Refusal::Limit(_) => 11,
            Refusal::NameTwice(_) => 12,
            Refusal::NullStored => 13,
            Refusal::NotGrouped(_) => 14,
        }
    }

    /// Appends what is printed of the refusal after its number. Where memory runs out, `out`
    /// stays as it was.
    pub fn write_words(&self, out: &mut Vec<u8>) -> Result<(), Memory>
        ensures ok { OnOk result (out.new.items ≡ out.old.items ++ refusal_words self.now) }
        ensures err { OnErr result (out.new.items ≡ out.old.items) }
    {
        match self {
            Refusal::Syntax => write_both("syntax", "", out),
            Refusal::Unsupported(name) => write_both("unsupported ", name.text(), out),
            Refusal::NoTable(name) => write_both("no such table ", name.text(), out),
            Refusal::TableExists(name) => write_both("table exists ", name.text(), out),
            Refusal::NoColumn(name) => write_both("no such column ", name.text(), out),
            Refusal::Ambiguous(name) => write_both("ambiguous column ", name.text(), out),
            Refusal::KindsDiffer => write_both("kinds differ", "", out),
            Refusal::WrongCount => write_both("wrong number of values", "", out),
            Refusal::TextTooLong => write_both("text too long", "", out),
            Refusal::Overflow => write_both("overflow", "", out),
            Refusal::Limit(which) => write_both("limit ", which.text(), out),
            Refusal::NameTwice(name) => write_both("name twice ", name.text(), out),
            Refusal::NullStored => write_both("null in not null column", "", out),
            Refusal::NotGrouped(name) => write_both("not grouped ", name.text(), out),
        }
    }
}

/// Appends words and a name, or neither.
fn write_both(words: &str, name: &str, out: &mut Vec<u8>) -> Result<(), Memory>
    ensures ok { OnOk result (out.new.items ≡ out.old.items ++ (words.now ++ name.now)) }
    ensures err { OnErr result (out.new.items ≡ out.old.items) }
{
    out.reserve(words.len() + name.len())?;
    out.extend_from_slice(words.as_bytes())?;
    out.extend_from_slice(name.as_bytes())?;
    Ok(())
}
