//! The entries that come back, made one after the other.
ghost use Rattle.std.specs.Prelude.{◌≡◌, ◌+◌, ◌∷◌, ◌++◌, ◌<◌, ◌^◌, [], IfOk, IfSome, OnOk, fold, length, map};
ghost use Rattle.std.specs.Option.{option_map_or};
ghost use Rattle.pool_policy.specs.Admits.{stated_bytes};
ghost use Rattle.pool_policy.specs.Writes.{and_returned, delta_of, delta_work, renamed, renamed_arg, returned};
ghost use Rattle.update_propagate.specs.Views.{come_back_at, growth_at, growth_over, return_in, returns_in, total_work, value_in, work_in};

use crate::back::{Back, find_back};
use crate::delta::Delta;
use crate::growing::{grow, grow_bind};
use crate::source::sources_of;
use crate::write::Write;
use bat_core::{Bat, Shared};
use cell_core::{Memory, Sequence, Steps};
use lineage_key::{Key, KeyArg};
use pool_policy::{PoolEntry, is_among};
use std::alloc::Global;
use std::sync::ledger::Ledger;

/// An argument, by the fresh id of what came back.
fn rename_arg(backs: &[Back<'_>], arg: &KeyArg) -> Result<KeyArg, Memory>
    ensures { IfOk result (λ fresh. fresh ≡ renamed_arg (returns_in backs.now) arg.now) }
{
    match arg {
        KeyArg::Const(cell) => Ok(KeyArg::Const(cell.share()?)),
        KeyArg::Id(id) => match find_back(backs, *id) {
            None => Ok(KeyArg::Id(*id)),
            Some(back) => Ok(KeyArg::Id(back.new.id)),
        },
    }
}

/// Arguments, by the fresh ids of what came back.
fn rename_args(
    alloc: Global,
    backs: &[Back<'_>],
    args: &[KeyArg],
) -> Result<Sequence<KeyArg>, Memory>
    ensures { IfOk result (λ fresh. fresh ≡ map (renamed_arg (returns_in backs.now)) args.now) }
{
    let mut fresh = Vec::with_capacity(alloc, args.len())?;
    'arguments: for arg in args {
        fresh.push(rename_arg(backs, arg)?)?;
    }
    Ok(Sequence::from_vec(fresh))
}

/// A key, by the fresh ids of what came back, and a bind at the new version.
fn rename(alloc: Global, now: u64, backs: &[Back<'_>], key: &Key) -> Result<Key, Memory>
    ensures { IfOk result (λ fresh. fresh ≡ renamed now (returns_in backs.now) key.now) }
{
    let args = rename_args(alloc, backs, key.args.as_slice())?;
    let version = if key.is_bind() { now } else { key.version };
    Ok(Key {
        op: key.op,
        args,
        version,
    })
}

/// The stated bytes of a result.
fn bytes_of(key: &Key, value: &Bat) -> u64
    ensures { result ≡ stated_bytes key.now value.now }
{
    if key.is_bind() { 64 } else { value.bytes() }
}

/// An entry as it comes back, with what follows its old value.
fn return_entry(
    alloc: Global,
    write: &Write<'_>,
    backs: &[Back<'_>],
    entry: &PoolEntry,
    delta: &Shared,
) -> Result<PoolEntry, Memory>
    requires { write.now.next < 2 ^ 62 }
    ensures { IfOk result (λ back. back ≡ returned write.entry.now.now (write.entry.now.next + length (returns_in backs.now)) (returns_in backs.now) entry.now delta.now) }
{
    let key = rename(alloc, write.now, backs, &entry.key)?;
    let bat = entry.value.bat().followed_by(alloc, delta.bat())?;
    let bytes = bytes_of(&key, &bat);
    let value = Shared::new(alloc, bat)?;
    Ok(PoolEntry {
        id: write.next + backs.len() as u64,
        key,
        value,
        bytes,
        stats: entry.stats,
        by: entry.by,
        shape: entry.shape,
        is_paid: entry.is_paid,
        is_foreign: entry.is_foreign,
        pins: [false; 17],
    })
}

/// What follows the old value of a touched entry that is no bind.
fn grow_result<L: Ledger>(
    alloc: Global,
    write: &Write<'_>,
    backs: &[Back<'_>],
    key: &Key,
    steps: &mut Steps<L>,
) -> Result<Option<Delta>, Memory>
    ensures value { IfOk result (λ found. value_in found ≡ delta_of key.now.op (growth_over write.entry.now (returns_in backs.now) key.now)) }
    ensures work { IfOk result (λ found. IfSome found (λ delta. delta.work ≡ delta_work key.now.op (growth_over write.entry.now (returns_in backs.now) key.now))) }
    ensures counted { IfOk result (λ found. steps.new ≡ steps.old + work_in found) }
{
    match sources_of(alloc, write, backs, key.args.as_slice())? {
        None => Ok(None),
        Some(sources) => grow(
            alloc,
            key.op,
            sources.as_slice(),
            write.touched.old_rows,
            steps,
        ),
    }
}

/// What follows the old value of a touched entry.
fn grow_entry<L: Ledger>(
    alloc: Global,
    write: &Write<'_>,
    backs: &[Back<'_>],
    entry: &PoolEntry,
    steps: &mut Steps<L>,
) -> Result<Option<Delta>, Memory>
    ensures value { IfOk result (λ found. value_in found ≡ delta_of entry.now.key.op (growth_at write.entry.now (returns_in backs.now) entry.now)) }
    ensures work { IfOk result (λ found. IfSome found (λ delta. delta.work ≡ delta_work entry.now.key.op (growth_at write.entry.now (returns_in backs.now) entry.now))) }
    ensures counted { IfOk result (λ found. steps.new ≡ steps.old + work_in found) }
{
    match &write.touched.added {
        None => Ok(None),
        Some(added) => {
            if entry.key.is_bind() {
                grow_bind(
                    alloc,
                    added.as_slice(),
                    entry.key.column(),
                    write.touched.old_rows,
                )
            } else {
                grow_result(alloc, write, backs, &entry.key, steps)
            }
        }
    }
}

/// A touched entry as it comes back, if it does.
fn back_of<'a, L: Ledger>(
    alloc: Global,
    write: &Write<'_>,
    backs: &[Back<'_>],
    entry: &'a PoolEntry,
    steps: &mut Steps<L>,
) -> Result<Option<Back<'a>>, Memory>
    requires { write.now.next < 2 ^ 62 }
    ensures value { IfOk result (λ found. option_map_or (λ back. returns_in backs.entry.now ++ return_in back ∷ []) found (returns_in backs.entry.now)
        ≡ and_returned write.entry.now.now write.entry.now.next (returns_in backs.entry.now) entry.entry.now (growth_at write.entry.now (returns_in backs.entry.now) entry.entry.now)) }
    ensures counted { IfOk result (λ found. steps.new ≡ steps.old + option_map_or (λ back. back.work) found 0) }
{
    match grow_entry(alloc, write, backs, entry, steps)? {
        None => Ok(None),
        Some(delta) => {
            let new = return_entry(alloc, write, backs, entry, &delta.value)?;
            let Delta { value, work } = delta;
            Ok(Some(Back {
                old: entry,
                new,
                delta: value,
                work,
            }))
        }
    }
}

/// Adds an entry to what came back so far, if it is touched and comes back.
fn bring<'a, L: Ledger>(
    alloc: Global,
    write: &Write<'_>,
    backs: &mut Vec<Back<'a>>,
    entry: &'a PoolEntry,
    steps: &mut Steps<L>,
) -> Result<(), Memory>
    requires { write.now.next < 2 ^ 62 }
    ensures backs { OnOk result (returns_in backs.new.items ≡ come_back_at write.entry.now (returns_in backs.old.items) entry.entry.now) }
    ensures counted { OnOk result (steps.new + total_work (returns_in backs.old.items) ≡ steps.old + total_work (returns_in backs.new.items)) }
{
    if !is_among(write.ids, entry.id) {
        return Ok(());
    }
    match back_of(alloc, write, backs.as_slice(), entry, steps)? {
        None => Ok(()),
        Some(back) => {
            backs.push(back)?;
            Ok(())
        }
    }
}

/// All that comes back, in order: parents before what was computed from them.
pub(crate) fn bring_all<'a, L: Ledger>(
    alloc: Global,
    write: &Write<'_>,
    entries: &'a [PoolEntry],
    steps: &mut Steps<L>,
) -> Result<Vec<Back<'a>>, Memory>
    requires { write.now.next < 2 ^ 62 }
    ensures backs { IfOk result (λ backs. returns_in backs.items ≡ fold (come_back_at write.entry.now) [] entries.entry.now) }
    ensures counted { IfOk result (λ backs. steps.new ≡ steps.old + total_work (returns_in backs.items)) }
{
    let mut backs = Vec::new(alloc);
    let mut rest = entries;
    'entries: while let [entry, more @ ..] = rest {
        bring(alloc, write, &mut backs, entry, steps)?;
        rest = more;
    }
    Ok(backs)
}
