//! Cells that are numbered by their first occurrence, with the keys of one kind.
ghost use Rattle.std.specs.Prelude.{◌≡◌, ◌+◌, ◌++◌, ◌≤◌, ◌^◌, List, length, map, IfOk, IfSome, OnOk, IsTrue};
ghost use Rattle.cell_core.specs.declared.cell.Cell.{Cell as CellSeen};
ghost use Rattle.cell_core.specs.declared.cell.Cell.TheVariants.{Oid};
ghost use Rattle.cell_core.specs.Same.{same_cell};
ghost use Rattle.cell_core.specs.Groups.{group_number};
ghost use Rattle.chunk_core.specs.Parts.{part_cells};
ghost use Rattle.bat_group.specs.Keys.{AreMade};

use crate::keys::PartKey;
use crate::numbered::Numbered;
use bat_core::Cells;
use cell_core::Memory;
use chunk_core::Part;
use std::alloc::Global;

/// The numbers of the cells; None where one has no key of this kind.
pub(crate) fn number_keys<'a, K: PartKey<'a>>(
    alloc: Global,
    cells: &'a Cells,
) -> Result<Option<Cells>, Memory>
    ensures { IfOk result (λ found. IfSome found (λ out. out ≡ map (λ c. Oid (group_number same_cell cells.now c)) cells.now)) }
{
    let mut met = Numbered::<K>::new(alloc);
    let mut from = 0;
    'runs: while from < cells.len() {
        let part = cells.run(from);
        if !meet_part(alloc, part, &mut met)? {
            return Ok(None);
        }
        from += part.len() as u64;
    }
    let out = met.out.finish(alloc)?;
    Ok(Some(out))
}

/// Gives the cells of a part their numbers; false where one has no key of this kind.
fn meet_part<'a, K: PartKey<'a>>(
    alloc: Global,
    part: Part<'a>,
    met: &mut Numbered<K>,
) -> Result<bool, Memory>
    requires { met.old.count + length (part_cells part) ≤ 2 ^ 60 }
    ensures few { OnOk result (met.new.count ≤ met.old.count + length (part_cells part.entry)) }
    ensures made { IfOk result (λ all. IsTrue all → (before : List CellSeen) → AreMade K.eq K.cell_of met.old before → AreMade K.eq K.cell_of met.new (before ++ part_cells part.entry)) }
{
    for i in 0..part.len() {
        let Some(key) = K::key_at(part, i) else {
            return Ok(false);
        };
        met.meet(alloc, key)?;
    }
    Ok(true)
}
