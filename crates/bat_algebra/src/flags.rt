//! Oids that lie near one another, as flags over their span.
ghost use Rattle.std.specs.Prelude.{◌≡◌, ◌+◌, ◌<◌, ◌≤◌, ◌^◌, length, map, take, ◌||◌, ◌++◌, List, slice_index_or, IfOk, IfSome, IsTrue};
ghost use Rattle.cell_core.specs.declared.cell.Cell.{Cell as CellSeen};
ghost use Rattle.cell_core.specs.declared.cell.Cell.TheVariants.{Oid, Nil};
ghost use Rattle.chunk_core.specs.Parts.{part_cells};
ghost use Rattle.cell_core.specs.Same.{same_cell};
ghost use Rattle.bat_algebra.specs.Flags.{is_flagged, is_among};

use bat_core::Cells;
use cell_core::{Cell, Memory};
use chunk_core::Part;
use std::alloc::Global;

/// Flags over the span of oids, which say which numbers are among them.
#[derive(Drop)]
pub(crate) struct Flags {
    /// The least oid.
    pub base: u64,
    /// For each number from there whether it is among them.
    pub flags: Vec<bool>,
}

/// There are fewer flags than this, which take 128 MB.
const MOST: u64 = 1 << 27;

/// The flags of cells, where these are oids that lie near one another.
pub(crate) fn flags_of(alloc: Global, cells: &Cells) -> Result<Option<Flags>, Memory>
    ensures { IfOk result (λ found. IfSome found (λ f. (cell : CellSeen) → is_among cells.now cell ≡ is_flagged f.base f.flags.items cell)) }
{
    let Some((base, span)) = span_of(cells) else {
        return Ok(None);
    };
    let mut flags = vec![in alloc; false; span as usize]?;
    let mut from = 0;
    'runs: while from < cells.len() {
        let part = cells.run(from);
        if !flag_part(part, base, &mut flags) {
            return Ok(None);
        }
        from += part.len() as u64;
    }
    Ok(Some(Flags { base, flags }))
}

/// The first of oids that rise, and how many numbers there are up to the last, where these are few.
fn span_of(cells: &Cells) -> Option<(u64, u64)> {
    if cells.len() == 0 || !cells.rises() {
        return None;
    }
    let base = oid_of(cells.get(0).cell())?;
    let last = oid_of(cells.get(cells.len() - 1).cell())?;
    let span = last.checked_sub(base)?.checked_add(1)?;
    if span < MOST {
        Some((base, span))
    } else {
        None
    }
}

/// The number of an oid.
fn oid_of(cell: &Cell) -> Option<u64> {
    match cell {
        Cell::Oid(oid) => Some(*oid),
        _ => None,
    }
}

/// Sets the flags of the cells of a part, if these are oids within the span.
fn flag_part(part: Part<'_>, base: u64, flags: &mut Vec<bool>) -> bool
    ensures { IsTrue result → (before : List CellSeen) → ((cell : CellSeen) → is_among before cell ≡ is_flagged base flags.old.items cell) → (cell : CellSeen) → is_among (before ++ part_cells part.entry) cell ≡ is_flagged base flags.new.items cell }
{
    for i in 0..part.len() {
        if !flag_at(part, i, base, flags) {
            return false;
        }
    }
    true
}

/// Sets the flag of the cell at a place, if it is an oid within the span.
#[inline]
fn flag_at(part: Part<'_>, at: usize, base: u64, flags: &mut Vec<bool>) -> bool
    requires { at < length (part_cells part) }
    ensures { IsTrue result → (cell : CellSeen) → is_flagged base flags.new.items cell ≡ (is_flagged base flags.old.items cell || same_cell (slice_index_or (part_cells part.entry) at Nil) cell) }
{
    let held = part.get(at);
    set_flag(held.cell(), base, flags)
}

/// Sets the flag of a cell, if it is an oid within the span.
#[inline]
fn set_flag(cell: &Cell, base: u64, flags: &mut Vec<bool>) -> bool
    ensures { IsTrue result → (other : CellSeen) → is_flagged base flags.new.items other ≡ (is_flagged base flags.old.items other || same_cell cell.now other) }
{
    let Cell::Oid(oid) = cell else {
        return false;
    };
    if *oid < base {
        return false;
    }
    let place = *oid - base;
    if place >= flags.len() as u64 {
        return false;
    }
    flags[place as usize] = true;
    true
}

#[inline]
pub(crate) fn cell_flagged(cell: &Cell, base: u64, flags: &[bool]) -> bool
    ensures { result ≡ is_flagged base flags.now cell.now }
{
    match cell {
        Cell::Oid(oid) => oid_flagged(*oid, base, flags),
        _ => false,
    }
}

#[inline]
fn oid_flagged(oid: u64, base: u64, flags: &[bool]) -> bool
    ensures { result ≡ is_flagged base flags.now (Oid oid) }
{
    if oid < base {
        return false;
    }
    let place = oid - base;
    if place >= flags.len() as u64 {
        return false;
    }
    flags[place as usize]
}
