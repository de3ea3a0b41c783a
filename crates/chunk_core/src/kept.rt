//! Numbers and bits that represent cells of one kind.
ghost use Rattle.std.specs.Prelude.{◌≡◌, ◌<◌, length, map, slice_index_or};
ghost use Rattle.cell_core.specs.declared.cell.Cell.{Cell as CellSeen};
ghost use Rattle.cell_core.specs.declared.cell.Cell.TheVariants.{Int, Oid, Bit, Day, Nil};
ghost use Rattle.chunk_core.specs.Facts.{is_below, is_next_oid};
ghost use Rattle.chunk_core.specs.Chunks.{chunk_cells};

use crate::chunk::Chunk;
use cell_core::Cell;

/// A value that represents a cell of one kind.
pub(crate) trait Packed: Copy {
    /// The cell that it represents.
    ghost cell_of: { Self → CellSeen };

    /// The cell that it represents.
    fn cell(self) -> Cell
        ensures { result ≡ cell_of self };

    /// The chunk of the cells that these represent.
    fn chunk(kept: Vec<Self>) -> Chunk
        ensures { chunk_cells result ≡ map cell_of kept.items };

    /// Whether its cell is before that of another.
    fn is_before(self, other: Self) -> bool
        ensures { result ≡ is_below (cell_of self) (cell_of other) };

    /// Whether both cells are oids, and the other's is one more.
    fn is_followed_by(self, other: Self) -> bool
        ensures { result ≡ is_next_oid (cell_of self) (cell_of other) };
}

impl Packed for i64 {
    ghost cell_of = { Int };

    #[inline]
    fn cell(self) -> Cell {
        Cell::Int(self)
    }

    #[inline]
    fn chunk(kept: Vec<i64>) -> Chunk
        ensures { chunk_cells result ≡ map Int kept.items }
    {
        Chunk::Ints(kept)
    }

    #[inline]
    fn is_before(self, other: i64) -> bool {
        self < other
    }

    #[inline]
    fn is_followed_by(self, _other: i64) -> bool {
        false
    }
}

impl Packed for u64 {
    ghost cell_of = { Oid };

    #[inline]
    fn cell(self) -> Cell {
        Cell::Oid(self)
    }

    #[inline]
    fn chunk(kept: Vec<u64>) -> Chunk
        ensures { chunk_cells result ≡ map Oid kept.items }
    {
        Chunk::Oids(kept)
    }

    #[inline]
    fn is_before(self, other: u64) -> bool {
        self < other
    }

    #[inline]
    fn is_followed_by(self, other: u64) -> bool {
        self.checked_add(1) == Some(other)
    }
}

impl Packed for bool {
    ghost cell_of = { Bit };

    #[inline]
    fn cell(self) -> Cell {
        Cell::Bit(self)
    }

    #[inline]
    fn chunk(kept: Vec<bool>) -> Chunk
        ensures { chunk_cells result ≡ map Bit kept.items }
    {
        Chunk::Bits(kept)
    }

    #[inline]
    fn is_before(self, other: bool) -> bool {
        !self && other
    }

    #[inline]
    fn is_followed_by(self, _other: bool) -> bool {
        false
    }
}

impl Packed for i32 {
    ghost cell_of = { Day };

    #[inline]
    fn cell(self) -> Cell {
        Cell::Day(self)
    }

    #[inline]
    fn chunk(kept: Vec<i32>) -> Chunk
        ensures { chunk_cells result ≡ map Day kept.items }
    {
        Chunk::Days(kept)
    }

    #[inline]
    fn is_before(self, other: i32) -> bool {
        self < other
    }

    #[inline]
    fn is_followed_by(self, _other: i32) -> bool {
        false
    }
}

#[inline]
pub(crate) fn kept_at<K: Packed>(kept: &[K], at: usize) -> K
    requires { at < length kept.now }
    ensures { K.cell_of result ≡ slice_index_or (map K.cell_of kept.now) at Nil }
{
    kept[at]
}
