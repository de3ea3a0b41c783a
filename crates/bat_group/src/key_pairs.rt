//! Pairs of an oid and a cell that are numbered by their first occurrence, with the oid and the
//! cell's key.
ghost use Rattle.std.specs.Prelude.{◌≡◌, ◌+◌, ◌++◌, ◌≤◌, ◌^◌, length, map, IfOk, IfSome, OnOk, IsTrue};
ghost use Rattle.std.specs.List.{zip};
ghost use Rattle.cell_core.specs.declared.cell.Cell.TheVariants.{Oid};
ghost use Rattle.cell_core.specs.Pairs.{Pairs};
ghost use Rattle.cell_core.specs.Groups.{group_number, same_pair};
ghost use Rattle.chunk_core.specs.Parts.{part_cells};
ghost use Rattle.bat_group.specs.Keys.{AreMade, same_both, cells_of_both};

use crate::both::run_of_both;
use crate::firsts::oid_at;
use crate::keys::PartKey;
use crate::numbered::Numbered;
use bat_core::Cells;
use cell_core::Memory;
use chunk_core::Part;
use std::alloc::Global;

/// The numbers of the pairs of cells that are side by side; None where not all of the left ones are
/// kept as oids, or one of the right ones has no key of this kind.
pub(crate) fn number_key_pairs<'a, K: PartKey<'a>>(
    alloc: Global,
    left: &'a Cells,
    right: &'a Cells,
) -> Result<Option<Cells>, Memory>
    ensures { IfOk result (λ found. IfSome found (λ out. out ≡ map (λ p. Oid (group_number same_pair (zip left.now right.now) p)) (zip left.now right.now))) }
{
    let mut met = Numbered::<(u64, K)>::new(alloc);
    let both = left.len().min(right.len());
    let mut from = 0;
    'runs: while from < both {
        let (part, beside) = run_of_both(left, right, from, both);
        let Part::Oids(oids) = part else {
            return Ok(None);
        };
        if !meet_part(alloc, oids, beside, &mut met)? {
            return Ok(None);
        }
        from += oids.len() as u64;
    }
    let out = met.out.finish(alloc)?;
    Ok(Some(out))
}

/// Gives the pairs of a part their numbers; false where one of the cells has no key of this kind.
fn meet_part<'a, K: PartKey<'a>>(
    alloc: Global,
    oids: &[u64],
    beside: Part<'a>,
    met: &mut Numbered<(u64, K)>,
) -> Result<bool, Memory>
    requires even { length (part_cells beside) ≡ length oids.now }
    requires few { met.old.count + length oids.now ≤ 2 ^ 60 }
    ensures few { OnOk result (met.new.count ≤ met.old.count + length oids.now) }
    ensures made { IfOk result (λ all. IsTrue all → (before : Pairs) → AreMade (same_both K.eq) (cells_of_both K.cell_of) met.old before → AreMade (same_both K.eq) (cells_of_both K.cell_of) met.new (before ++ zip (map Oid oids.now) (part_cells beside.entry))) }
{
    for i in 0..oids.len() {
        let Some(key) = K::key_at(beside, i) else {
            return Ok(false);
        };
        met.meet(alloc, (oid_at(oids, i), key))?;
    }
    Ok(true)
}
