//! Two columns side by side.
ghost use Rattle.std.specs.Prelude.{◌≡◌, ◌+◌, ◌++◌, ◌<◌, ◌≤◌, length, take};
ghost use Rattle.chunk_core.specs.Parts.{part_cells};

use bat_core::Cells;
use chunk_core::Part;

/// The cells of two columns from a place on, as far as both lie together, and not past another
/// place.
pub(crate) fn run_of_both<'a>(
    cells: &'a Cells,
    groups: &'a Cells,
    from: u64,
    both: u64,
) -> (Part<'a>, Part<'a>)
    requires from { from < both }
    requires cells { both ≤ length cells.now }
    requires groups { both ≤ length groups.now }
    ensures some { 0 < length (part_cells result.0) }
    ensures even { length (part_cells result.1) ≡ length (part_cells result.0) }
    ensures cells { take (from + length (part_cells result.0)) cells.now ≡ take from cells.now ++ part_cells result.0 }
    ensures groups { take (from + length (part_cells result.0)) groups.now ≡ take from groups.now ++ part_cells result.1 }
    ensures within { from + length (part_cells result.0) ≤ both }
{
    let beside = cells.run(from);
    let part = groups.run(from);
    let shorter = beside.len().min(part.len()) as u64;
    let count = (both - from).min(shorter) as usize;
    (beside.front(count), part.front(count))
}
