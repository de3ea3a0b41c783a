//! What a pool keeps of parents beside the entries: under each first parent the ids of its entries,
//! and the parents of each entry, in the order of the entries.
ghost use Rattle.std.specs.Prelude.{◌≡◌, ◌+◌, ◌<◌, ◌≤◌, ◌++◌, ◌∷◌, [], List, length};
ghost use Rattle.pool_policy.specs.declared.entry.PoolEntry.{PoolEntry as EntryValue};
ghost use Rattle.pool_policy.specs.Admits.{left_without};
ghost use Rattle.recycle_pool.specs.Indexed.{AreBeside, IsIndexed, kin_of};

use pool_index::{Children, Kin, Parents};
use pool_policy::PoolEntry;

/// Adds an entry under its first parent, and its parents beside it, after the others.
pub(crate) fn add_child(children: &mut Children, parents: &mut Parents, entry: &PoolEntry)
    requires pairs { length children.old.pairs < children.old.room }
    requires kin { length parents.old.kin < parents.old.room }
    ensures indexed { (entries : List EntryValue) → IsIndexed children.old entries → IsIndexed children.new (entries ++ entry.now ∷ []) }
    ensures count { length children.new.pairs ≡ length children.old.pairs + 1 }
    ensures room { children.old.room ≤ children.new.room }
    ensures kin { parents.new.kin ≡ parents.old.kin ++ kin_of entry.now ∷ [] }
    ensures kin_room { parents.old.room ≤ parents.new.room }
{
    let [first, second] = entry.key.parents();
    children.add(first, entry.id);
    parents.add(Kin {
        id: entry.id,
        parents: [first, second],
    });
}

/// Removes the entries with these ids from under their parents, and their own parents beside them.
pub(crate) fn take_children(children: &mut Children, parents: &mut Parents, gone: &[u64])
    ensures indexed { (entries : List EntryValue) → IsIndexed children.old entries → IsIndexed children.new (left_without gone.now entries) }
    ensures room { children.old.room ≤ children.new.room }
    ensures kin { (entries : List EntryValue) → AreBeside parents.old entries → AreBeside parents.new (left_without gone.now entries) }
    ensures kin_room { parents.old.room ≤ parents.new.room }
{
    if gone.is_empty() {
        return;
    }
    children.take_out(gone);
    parents.take_out(gone);
}

/// Replaces all by these entries, each under its first parent and with its parents beside it.
pub(crate) fn renew_children(children: &mut Children, parents: &mut Parents, entries: &[PoolEntry])
    requires pairs { length entries.now ≤ children.old.room }
    requires kin { length entries.now ≤ parents.old.room }
    ensures indexed { IsIndexed children.new entries.now }
    ensures room { children.old.room ≤ children.new.room }
    ensures kin { AreBeside parents.new entries.now }
    ensures kin_room { parents.old.room ≤ parents.new.room }
{
    children.clear();
    parents.clear();
    'entries: for i in 0..entries.len() {
        add_child(children, parents, &entries[i]);
    }
}
