//! Cells that lie together, in the form in which they are kept.
ghost use Rattle.std.specs.Prelude.{◌≡◌, ◌+◌, ◌^◌, ◌<◌, ◌≤◌, length, map, take, drop, slice_index_or, IfOk};
ghost use Rattle.chunk_core.specs.Parts.{part_cells, lent_cell};

use crate::count::Count;
use crate::kept::Packed;
use cell_core::{Cell, Memory};

/// Cells that lie together: numbers alone, days alone, oids alone, oids that rise by one each, bits
/// alone, or any cells.
#[derive(Clone, Copy)]
pub enum Part<'a> {
    /// The cells of kind Int with these numbers.
    Ints(&'a [i64]),
    /// The cells of kind Day with these numbers.
    Days(&'a [i32]),
    /// The cells of kind Oid with these numbers.
    Oids(&'a [u64]),
    /// Oids that rise by one each.
    Rising(Count),
    /// The cells of kind Bit with these values.
    Bits(&'a [bool]),
    /// Cells as they are.
    Cells(&'a [Cell]),
}

/// A cell at a place: one that is lent, or one that is made for it.
pub enum CellAt<'a> {
    /// A cell that is kept.
    Lent(&'a Cell),
    /// A cell that was made of a number.
    Made(Cell),
}

// By a call of its own, so that proofs needn't go through its forms where one is dropped.
impl<'a> Drop for CellAt<'a> {
    fn drop(self) {
        match self {
            CellAt::Lent(_) | CellAt::Made(_) => {}
        }
    }
}

impl CellAt<'_> {
    /// The cell.
    #[inline]
    pub fn cell(&self) -> &Cell
        ensures { result.now ≡ lent_cell self.now }
    {
        match self {
            CellAt::Lent(cell) => cell,
            CellAt::Made(cell) => cell,
        }
    }
}

impl<'a> Part<'a> {
    /// How many cells there are.
    #[inline]
    pub fn len(&self) -> usize
        ensures { result ≡ length (part_cells self.now) }
    {
        match self {
            Part::Ints(numbers) => numbers.len(),
            Part::Days(numbers) => numbers.len(),
            Part::Oids(numbers) => numbers.len(),
            Part::Rising(count) => count.len,
            Part::Bits(bits) => bits.len(),
            Part::Cells(cells) => cells.len(),
        }
    }

    /// The first cells.
    #[inline]
    pub fn front(&self, count: usize) -> Part<'a>
        requires { count ≤ length (part_cells self.now) }
        ensures { part_cells result ≡ take count (part_cells self.now) }
    {
        match self {
            Part::Ints(numbers) => Part::Ints(&numbers[..count]),
            Part::Days(numbers) => Part::Days(&numbers[..count]),
            Part::Oids(numbers) => Part::Oids(&numbers[..count]),
            Part::Rising(all) => Part::Rising(Count {
                first: all.first,
                len: count,
            }),
            Part::Bits(bits) => Part::Bits(&bits[..count]),
            Part::Cells(cells) => Part::Cells(&cells[..count]),
        }
    }

    /// The cell at a place.
    #[inline]
    pub fn get(&self, at: usize) -> CellAt<'a>
        requires { at < length (part_cells self.now) }
        ensures { lent_cell result ≡ slice_index_or (part_cells self.now) at (lent_cell result) }
    {
        match self {
            Part::Ints(numbers) => CellAt::Made(made_at(numbers, at)),
            Part::Days(numbers) => CellAt::Made(made_at(numbers, at)),
            Part::Oids(numbers) => CellAt::Made(made_at(numbers, at)),
            Part::Rising(all) => CellAt::Made(Cell::Oid(all.first + at as u64)),
            Part::Bits(bits) => CellAt::Made(made_at(bits, at)),
            Part::Cells(cells) => CellAt::Lent(lent_at(cells, at)),
        }
    }

    /// A cell that is equal to the one at a place.
    #[inline]
    pub fn copy(&self, at: usize) -> Result<Cell, Memory>
        requires { at < length (part_cells self.now) }
        ensures { IfOk result (λ cell. cell ≡ slice_index_or (part_cells self.now) at cell) }
    {
        let held = self.get(at);
        held.cell().share()
    }
}

/// The cell that the value kept at a place represents.
#[inline]
fn made_at<K: Packed>(kept: &[K], at: usize) -> Cell
    requires { at < length kept.now }
    ensures { result ≡ slice_index_or (map K.cell_of kept.now) at result }
{
    kept[at].cell()
}

#[inline]
fn lent_at(cells: &[Cell], at: usize) -> &Cell
    requires { at < length cells.now }
    ensures { result.now ≡ slice_index_or cells.now at result.now }
{
    &cells[at]
}
