ghost use Rattle.std.specs.Prelude.{◌≡◌};

use cell_core::{Cell, Sequence};
use std::marker::Model;

/// A row of a table, lent. Contracts see its cells.
#[derive(Drop)]
pub struct LentRow<'a> {
    cells: &'a Sequence<Cell>,
}

impl<'a> Model for LentRow<'a> {
    ghost use Rattle.std.specs.Prelude.{List};
    ghost use Rattle.cell_core.specs.declared.cell.Cell.{Cell};

    ghost Value = { List Cell };

    ghost view = { λ row. row.cells.now };
}

impl<'a> LentRow<'a> {
    /// A row with these cells.
    pub fn new(cells: &'a Sequence<Cell>) -> LentRow<'a>
        ensures { result ≡ cells.now }
    {
        LentRow { cells }
    }

    /// Its cells.
    pub fn cells(&self) -> &'a [Cell]
        ensures { result.now ≡ self.now }
    {
        self.cells.as_slice()
    }

    /// The same row, lent once more.
    pub fn again(&self) -> LentRow<'a>
        ensures { result ≡ self.now }
    {
        LentRow { cells: self.cells }
    }
}
