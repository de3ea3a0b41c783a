//! What comes back in a write, made before anything changes.
//!
//! It builds on `pool_policy`, whose functions say what comes back, and on the operators of plans,
//! which run over what follows the old values alone. The old chunks of columns are shared.
//! `recycle_pool` takes what is made here into the pool.
#![tactic(auto)]

ghost use Rattle.std.specs.Prelude.{◌≡◌, ◌+◌, IfOk};
ghost use Rattle.recycle_pool.specs.Carries.{IsCarried};

mod back;
mod bring;
mod calculation;
mod delta;
mod forms;
mod growing;
mod joining;
mod listing;
mod rows;
mod source;
mod write;

use crate::bring::bring_all;
use crate::listing::{new_entries, old_ids, work_of_all};
use crate::write::Write;
use cell_core::{Memory, Steps};
use pool_policy::{Touched, note_touched};
use recycle_pool::{Carried, Pool};
use std::alloc::Global;
use std::sync::ledger::Ledger;

/// What comes back in a write: each touched entry with an append form, with a fresh id, a renamed
/// key, and its old value with what follows, by the operator over what its arguments grew by. The
/// counter rises by the work of these operators alone. The pool doesn't change.
pub fn carry<L: Ledger>(
    alloc: Global,
    pool: &Pool,
    touched: &Touched,
    now: u64,
    steps: &mut Steps<L>,
) -> Result<Carried, Memory>
    ensures carried { IfOk result (λ carried. IsCarried touched.now now pool.now carried) }
    ensures counted { IfOk result (λ carried. steps.new ≡ steps.old + carried.work) }
{
    let entries = pool.entries();
    let mut ids = Vec::with_capacity(alloc, entries.len())?;
    note_touched(
        &mut ids,
        entries,
        &touched.table,
        touched.columns.as_slice(),
    );
    let write = Write {
        touched,
        ids: ids.as_slice(),
        entries,
        now,
        next: pool.next_id(),
    };
    let backs = bring_all(alloc, &write, entries, steps)?;
    let ids = old_ids(alloc, backs.as_slice())?;
    let work = work_of_all(backs.as_slice());
    let entries = new_entries(alloc, backs)?;
    Ok(Carried { ids, entries, work })
}
