//! Keys by which the cells of a part are grouped: numbers as they are kept, and cells where they
//! lie.
ghost use Rattle.std.specs.Prelude.{◌≡◌, ◌<◌, length, map, slice_index_or, IfSome, refl};
ghost use Rattle.cell_core.specs.declared.cell.Cell.{Cell as CellSeen};
ghost use Rattle.cell_core.specs.declared.cell.Cell.TheVariants.{Int, Day, Nil};
ghost use Rattle.cell_core.specs.Same.{same_cell};
ghost use Rattle.chunk_core.specs.Parts.{part_cells};

use crate::parts::number_at;
use cell_core::Cell;
use chunk_core::Part;
use std::hash::Hash;

/// A value that represents a cell where cells are grouped.
pub(crate) trait CellKey: Eq + Hash + Copy + Drop {
    /// The cell of a key.
    ghost cell_of: { Self → CellSeen };

    /// Keys are equal exactly where their cells are the same.
    ghost agrees: { (a b : Self) → same_cell (cell_of a) (cell_of b) ≡ Self.eq a b };
}

/// The keys of the cells in parts of one form.
pub(crate) trait PartKey<'a>: CellKey {
    /// The key of the cell at a place; None in a part of another form.
    fn key_at(part: Part<'a>, at: usize) -> Option<Self>
        requires { at < length (part_cells part) }
        ensures { IfSome result (λ key. Self.cell_of key ≡ slice_index_or (part_cells part.entry) at Nil) };
}

impl CellKey for i64 {
    ghost cell_of = { Int };

    ghost agrees = { λ a b. refl };
}

impl<'a> PartKey<'a> for i64 {
    #[inline(always)]
    fn key_at(part: Part<'a>, at: usize) -> Option<i64> {
        match part {
            Part::Ints(numbers) => Some(number_at(numbers, at)),
            _ => None,
        }
    }
}

impl CellKey for i32 {
    ghost cell_of = { Day };

    ghost agrees = { λ a b. refl };
}

impl<'a> PartKey<'a> for i32 {
    #[inline(always)]
    fn key_at(part: Part<'a>, at: usize) -> Option<i32> {
        match part {
            Part::Days(numbers) => Some(day_at(numbers, at)),
            _ => None,
        }
    }
}

impl<'a> CellKey for &'a Cell {
    ghost cell_of = { λ cell. cell.now };

    ghost agrees = { λ a b. refl };
}

impl<'a> PartKey<'a> for &'a Cell {
    #[inline(always)]
    fn key_at(part: Part<'a>, at: usize) -> Option<&'a Cell> {
        match part {
            Part::Cells(cells) => Some(lent_at(cells, at)),
            _ => None,
        }
    }
}

/// The number of the day at a place.
#[inline]
fn day_at(numbers: &[i32], at: usize) -> i32
    requires { at < length numbers.now }
    ensures { Day result ≡ slice_index_or (map Day numbers.now) at Nil }
{
    numbers[at]
}

#[inline]
fn lent_at(cells: &[Cell], at: usize) -> &Cell
    requires { at < length cells.now }
    ensures { result.now ≡ slice_index_or cells.now at Nil }
{
    &cells[at]
}
