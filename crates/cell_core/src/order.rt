ghost use Rattle.std.specs.Prelude.{◌≡◌};
ghost use Rattle.cell_core.specs.Order.{rank, cell_cmp, cell_bytes};

use crate::cell::Cell;
use std::cmp::Ordering;

/// The order of cells: Nil, then numbers by value (Int and Huge together), texts by their bytes,
/// days by number, bits (false first), oids.
pub fn compare(a: &Cell, b: &Cell) -> Ordering
    ensures { result ≡ cell_cmp a.now b.now }
{
    match (a, b) {
        (Cell::Int(x), Cell::Int(y)) => x.cmp(y),
        (Cell::Int(x), Cell::Huge(y)) => i128::from(*x).cmp(y),
        (Cell::Huge(x), Cell::Int(y)) => x.cmp(&i128::from(*y)),
        (Cell::Huge(x), Cell::Huge(y)) => x.cmp(y),
        (Cell::Text(x), Cell::Text(y)) => x.text().cmp(y.text()),
        (Cell::Day(x), Cell::Day(y)) => x.cmp(y),
        (Cell::Bit(x), Cell::Bit(y)) => x.cmp(y),
        (Cell::Oid(x), Cell::Oid(y)) => x.cmp(y),
        _ => rank_of(a).cmp(&rank_of(b)),
    }
}

/// The place of a cell's kind in the order.
fn rank_of(cell: &Cell) -> u8
    ensures { result ≡ rank cell.now }
{
    match cell {
        Cell::Nil => 0,
        Cell::Int(_) => 1,
        Cell::Huge(_) => 1,
        Cell::Text(_) => 2,
        Cell::Day(_) => 3,
        Cell::Bit(_) => 4,
        Cell::Oid(_) => 5,
    }
}

/// The stated size of a cell in bytes: 8 for Int, Day, Oid and Nil, 16 for Huge, 1 for Bit, and
/// 16 more than its length for Text.
pub fn stated_bytes(cell: &Cell) -> u64
    ensures { result ≡ cell_bytes cell.now }
{
    match cell {
        Cell::Huge(_) => 16,
        Cell::Text(word) => 16 + word.text().len() as u64,
        Cell::Bit(_) => 1,
        Cell::Nil | Cell::Int(_) | Cell::Day(_) | Cell::Oid(_) => 8,
    }
}
