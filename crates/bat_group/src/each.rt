//! Cells of any kind that are numbered by their first occurrence.
ghost use Rattle.std.specs.Prelude.{◌≡◌, ◌+◌, ◌++◌, [], ◌∷◌, ◌<◌, ◌≤◌, ◌^◌, List, length, map, slice_index_or, IfOk, OnOk};
ghost use Rattle.cell_core.specs.declared.cell.Cell.{Cell as CellSeen};
ghost use Rattle.cell_core.specs.declared.cell.Cell.TheVariants.{Oid, Nil};
ghost use Rattle.cell_core.specs.Same.{same_cell};
ghost use Rattle.cell_core.specs.Groups.{group_number};
ghost use Rattle.chunk_core.specs.Parts.{part_cells};
ghost use Rattle.bat_group.specs.Keys.{AreKeys};

use crate::numbered::Numbered;
use bat_core::Cells;
use cell_core::{Cell, Memory};
use chunk_core::Part;
use std::alloc::Global;

/// The numbers of the cells, whatever they are.
pub(crate) fn number_each(alloc: Global, cells: &Cells) -> Result<Cells, Memory>
    ensures { IfOk result (λ out. out ≡ map (λ c. Oid (group_number same_cell cells.now c)) cells.now) }
{
    let mut met = Numbered::<Cell>::new(alloc);
    let mut from = 0;
    'runs: while from < cells.len() {
        let part = cells.run(from);
        meet_part(alloc, part, &mut met)?;
        from += part.len() as u64;
    }
    met.out.finish(alloc)
}

/// Gives the cells of a part their numbers.
fn meet_part(alloc: Global, part: Part<'_>, met: &mut Numbered<Cell>) -> Result<(), Memory>
    requires { met.old.count + length (part_cells part) ≤ 2 ^ 60 }
    ensures few { OnOk result (met.new.count ≤ met.old.count + length (part_cells part.entry)) }
    ensures numbered { OnOk result ((before : List CellSeen) → AreKeys same_cell met.old before → AreKeys same_cell met.new (before ++ part_cells part.entry)) }
{
    for i in 0..part.len() {
        meet_at(alloc, part, i, met)?;
    }
    Ok(())
}

/// Gives the cell at a place of a part its number.
#[inline]
fn meet_at(alloc: Global, part: Part<'_>, at: usize, met: &mut Numbered<Cell>) -> Result<(), Memory>
    requires within { at < length (part_cells part) }
    requires few { met.old.count < 2 ^ 60 }
    ensures few { OnOk result (met.new.count ≤ met.old.count + 1) }
    ensures numbered { OnOk result ((before : List CellSeen) → AreKeys same_cell met.old before → AreKeys same_cell met.new (before ++ slice_index_or (part_cells part.entry) at Nil ∷ [])) }
{
    let held = part.get(at);
    met.meet_cell(alloc, held.cell())
}
