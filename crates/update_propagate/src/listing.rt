//! What came back, as lists.
ghost use Rattle.std.specs.Prelude.{◌≡◌, IfOk, map};
ghost use Rattle.update_propagate.specs.Views.{returns_in, total_work};

use crate::back::Back;
use cell_core::Memory;
use pool_policy::PoolEntry;
use std::alloc::Global;

/// The ids that the entries had.
pub(crate) fn old_ids(alloc: Global, backs: &[Back<'_>]) -> Result<Vec<u64>, Memory>
    ensures { IfOk result (λ ids. ids.items ≡ map (λ r. r.old.id) (returns_in backs.now)) }
{
    let mut ids = Vec::with_capacity(alloc, backs.len())?;
    'backs: for back in backs {
        ids.push(back.old.id)?;
    }
    Ok(ids)
}

/// The work of the operators that were run for the entries.
pub(crate) fn work_of_all(backs: &[Back<'_>]) -> u128
    ensures { result ≡ total_work (returns_in backs.now) }
{
    let mut total = 0;
    'backs: for i in 0..backs.len() {
        total += u128::from(backs[i].work);
    }
    total
}

/// The entries after the write.
pub(crate) fn new_entries(alloc: Global, backs: Vec<Back<'_>>) -> Result<Vec<PoolEntry>, Memory>
    ensures { IfOk result (λ entries. entries.items ≡ map (λ r. r.new) (returns_in backs.entry.items)) }
{
    let mut entries = Vec::with_capacity(alloc, backs.len())?;
    'backs: for back in backs {
        let Back { new, .. } = back;
        entries.push(new)?;
    }
    Ok(entries)
}
