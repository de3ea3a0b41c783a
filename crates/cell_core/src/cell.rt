ghost use Rattle.std.specs.Prelude.{◌≡◌, IfOk};
ghost use Rattle.cell_core.specs.Pairs.{is_nil, is_true};

use crate::memory::Memory;
use crate::word::Word;

/// The kinds of cells.
#[derive(Clone, Copy, PartialEq, Eq, Hash)]
pub enum Kind {
    /// A signed number of 64 bits.
    Int,
    /// A signed number of 128 bits, as a sum has it.
    Huge,
    /// A text.
    Text,
    /// A civil day.
    Day,
    /// True or false.
    Bit,
    /// An object identifier.
    Oid,
}

/// One value of a table or of a column.
#[derive(Hash)]
pub enum Cell {
    /// No value.
    Nil,
    /// A signed number of 64 bits.
    Int(i64),
    /// A signed number of 128 bits.
    Huge(i128),
    /// A text.
    Text(Word),
    /// A civil day, counted from 1970-01-01.
    Day(i32),
    /// True or false.
    Bit(bool),
    /// An object identifier.
    Oid(u64),
}

// By a call of its own, so that proofs needn't go through its forms where one is dropped.
impl Drop for Cell {
    fn drop(self) {
        match self {
            Cell::Nil
            | Cell::Int(_)
            | Cell::Huge(_)
            | Cell::Text(_)
            | Cell::Day(_)
            | Cell::Bit(_)
            | Cell::Oid(_) => {}
        }
    }
}

impl Cell {
    /// Whether there is no value.
    pub fn is_nil(&self) -> bool
        ensures { result ≡ is_nil self.now }
    {
        matches!(self, Cell::Nil)
    }

    /// Whether it is true, and neither false nor Nil.
    pub fn is_true(&self) -> bool
        ensures { result ≡ is_true self.now }
    {
        matches!(self, Cell::Bit(true))
    }

    /// An equal cell, which shares the text.
    pub fn share(&self) -> Result<Cell, Memory>
        ensures { IfOk result (λ cell. cell ≡ self.now) }
    {
        Ok(match self {
            Cell::Nil => Cell::Nil,
            Cell::Int(number) => Cell::Int(*number),
            Cell::Huge(number) => Cell::Huge(*number),
            Cell::Text(word) => Cell::Text(word.share()?),
            Cell::Day(day) => Cell::Day(*day),
            Cell::Bit(bit) => Cell::Bit(*bit),
            Cell::Oid(oid) => Cell::Oid(*oid),
        })
    }
}

impl PartialEq for Cell {
    ghost use Rattle.std.specs.Cmp;
    ghost use Rattle.cell_core.specs.Same.{same_cell, same_equivalence};

    ghost eq = { same_cell };

    ghost laws = { Cmp.partial_equiv_from_equiv same_equivalence };

    fn eq(&self, other: &Cell) -> bool {
        match (self, other) {
            (Cell::Nil, Cell::Nil) => true,
            (Cell::Int(a), Cell::Int(b)) => a == b,
            (Cell::Huge(a), Cell::Huge(b)) => a == b,
            (Cell::Text(a), Cell::Text(b)) => a == b,
            (Cell::Day(a), Cell::Day(b)) => a == b,
            (Cell::Bit(a), Cell::Bit(b)) => a == b,
            (Cell::Oid(a), Cell::Oid(b)) => a == b,
            _ => false,
        }
    }
}

impl Eq for Cell {
    ghost use Rattle.cell_core.specs.Same.{same_equivalence};

    ghost laws = { same_equivalence };
}
