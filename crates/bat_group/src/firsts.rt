//! Cells numbered by their first occurrence, as columns of group numbers mostly have them.
ghost use Rattle.std.specs.Prelude.{◌≡◌, ℕ, ◌+◌, ◌<◌, ◌≤◌, ◌^◌, [], IfOk, OnOk, IsTrue, List, length, map, slice_index_or};
ghost use Rattle.std.specs.List.{position_or_len};
ghost use Rattle.cell_core.specs.declared.cell.Cell.{Cell as CellSeen};
ghost use Rattle.cell_core.specs.declared.cell.Cell.TheVariants.{Oid, Nil};
ghost use Rattle.cell_core.specs.Same.{same_cell};
ghost use Rattle.chunk_core.specs.Filled.{oids_from};
ghost use Rattle.chunk_core.specs.Parts.{part_cells};
ghost use Rattle.bat_group.specs.Numbers.{with_first, AreFirsts, AreNumbered};

use crate::numbers::number_of;
use cell_core::{Cell, Memory};
use chunk_core::Part;
use std::alloc::Global;
use std::collections::HashMap;

/// The cells met so far. A column of group numbers meets the oids 0, 1, 2 and so on, each of which
/// is its own number: then nothing is looked up.
#[derive(Drop)]
pub(crate) enum Firsts {
    /// The oids from 0 on, as many as were met.
    Oids,
    /// Any cells, with the number of each.
    Cells(HashMap<Cell, u64>),
}

impl Firsts {
    /// The number of a cell: that of the same cell before, or else the next. After Memory nothing
    /// is known of the cells met.
    pub(crate) fn number(
        &mut self,
        alloc: Global,
        count: &mut u64,
        key: Cell,
    ) -> Result<u64, Memory>
        requires { count.old < 2 ^ 60 }
        ensures place { IfOk result (λ n. (firsts : List CellSeen) → AreFirsts self.old count.old firsts → n ≡ position_or_len (λ y. same_cell y key) firsts) }
        ensures numbered { OnOk result ((firsts : List CellSeen) → AreFirsts self.old count.old firsts → AreFirsts self.new count.new (with_first same_cell firsts key)) }
        ensures few { OnOk result (count.new ≤ count.old + 1) }
    {
        match self {
            Firsts::Cells(numbers) => number_of(numbers, count, key),
            Firsts::Oids => self.number_oid(alloc, count, key),
        }
    }

    /// True only where the cell at a place of a part is among those met; false may also mean that
    /// it isn't known. It costs next to nothing.
    #[inline(always)]
    pub(crate) fn has_met(&self, count: u64, part: Part<'_>, at: usize) -> bool
        requires { at < length (part_cells part) }
        ensures { IsTrue result → (firsts : List CellSeen) → AreFirsts self.now count firsts → position_or_len (λ y. same_cell y (slice_index_or (part_cells part.entry) at Nil)) firsts < count }
    {
        match (self, part) {
            (Firsts::Oids, Part::Oids(oids)) => oid_at(oids, at) < count,
            _ => false,
        }
    }

    /// The number of the cell at a place of a part.
    #[inline(always)]
    pub(crate) fn number_at(
        &mut self,
        alloc: Global,
        count: &mut u64,
        part: Part<'_>,
        at: usize,
    ) -> Result<u64, Memory>
        requires few { count.old < 2 ^ 60 }
        requires within { at < length (part_cells part) }
        ensures place { IfOk result (λ n. (firsts : List CellSeen) → AreFirsts self.old count.old firsts → n ≡ position_or_len (λ y. same_cell y (slice_index_or (part_cells part.entry) at Nil)) firsts) }
        ensures numbered { OnOk result ((firsts : List CellSeen) → AreFirsts self.old count.old firsts → AreFirsts self.new count.new (with_first same_cell firsts (slice_index_or (part_cells part.entry) at Nil))) }
        ensures few { OnOk result (count.new ≤ count.old + 1) }
    {
        match (&*self, part) {
            (Firsts::Oids, Part::Oids(oids)) => {
                let oid = oid_at(oids, at);
                if oid < *count {
                    Ok(oid)
                } else {
                    self.number(alloc, count, Cell::Oid(oid))
                }
            }
            _ => self.number(alloc, count, cell_at(part, at)?),
        }
    }

    /// The number of a cell where only oids from 0 on were met.
    fn number_oid(&mut self, alloc: Global, count: &mut u64, key: Cell) -> Result<u64, Memory>
        requires few { count.old < 2 ^ 60 }
        requires oids { self.old ≡ Firsts.Oids }
        ensures place { IfOk result (λ n. n ≡ position_or_len (λ y. same_cell y key) (oids_from 0 count.old)) }
        ensures numbered { OnOk result (AreFirsts self.new count.new (with_first same_cell (oids_from 0 count.old) key)) }
        ensures few { OnOk result (count.new ≤ count.old + 1) }
    {
        match &key {
            Cell::Oid(oid) if *oid < *count => Ok(*oid),
            Cell::Oid(oid) if *oid == *count => {
                *count += 1;
                Ok(*oid)
            }
            _ => {
                let mut numbers = numbered_oids(alloc, *count)?;
                let number = number_of(&mut numbers, count, key)?;
                *self = Firsts::Cells(numbers);
                Ok(number)
            }
        }
    }
}

/// The oids from 0 on, each with itself as its number.
fn numbered_oids(alloc: Global, count: u64) -> Result<HashMap<Cell, u64>, Memory>
    requires { count < 2 ^ 60 }
    ensures { IfOk result (λ numbers. AreNumbered same_cell numbers count (oids_from 0 count)) }
{
    let mut numbers = HashMap::new(alloc);
    let mut met = 0;
    for oid in 0..count {
        number_of(&mut numbers, &mut met, Cell::Oid(oid))?;
    }
    Ok(numbers)
}

#[inline]
pub(crate) fn oid_at(oids: &[u64], at: usize) -> u64
    requires { at < length oids.now }
    ensures { Oid result ≡ slice_index_or (map Oid oids.now) at Nil }
{
    oids[at]
}

/// A cell that is equal to the one at a place.
pub(crate) fn cell_at(part: Part<'_>, at: usize) -> Result<Cell, Memory>
    requires { at < length (part_cells part) }
    ensures { IfOk result (λ cell. cell ≡ slice_index_or (part_cells part.entry) at Nil) }
{
    part.copy(at)
}
