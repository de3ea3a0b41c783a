//! What a look finds among the entries, by the first rule that applies.
ghost use Rattle.std.specs.Prelude.{◌≡◌, [], IfOk, OnErr};
ghost use Rattle.lineage_key.specs.Spans.{span_asked};
ghost use Rattle.pool_policy.specs.Keyed.{first_parent as parent_in};
ghost use Rattle.pool_policy.specs.Looks.{across_found, container_of, cover_of, found_of, target_found, within_found};
ghost use Rattle.recycle_pool.specs.Answers.{HandsOut, told};
ghost use Rattle.recycle_pool.specs.Indexed.{IsIndexed};
ghost use Rattle.recycle_pool.specs.Placed.{AreFound};
ghost use Rattle.recycle_pool.specs.Usable.{IsLookable};

use crate::covers::{find_cover, value_at};
use crate::entries::Entries;
use crate::found::{CoverPiece, Found};
use crate::selections::{container, selections_of};
use cell_core::{Memory, Span};
use lineage_key::{Key, span_of};
use pool_index::Children;
use pool_policy::PoolEntry;

/// What serves a selection of a target: one whose range contains it, or pieces that cover it.
fn find_selection(
    children: &Children,
    entries: &[PoolEntry],
    parent: u64,
    target: &Span,
    parts: &mut Vec<CoverPiece>,
) -> Result<Found, Memory>
    requires indexed { IsIndexed children.now entries.now }
    requires lookable { IsLookable entries.now }
    requires empty { parts.old.items ≡ [] }
    ensures found { IfOk result (λ found. told found parts.new.items ≡ within_found (container_of parent target.now entries.now) (across_found (cover_of parent target.now entries.now))) }
    ensures values { IfOk result (λ found. HandsOut entries.now found parts.new.items) }
{
    let pairs = children.of(parent);
    match container(entries, pairs, parent, target)? {
        Some((id, _)) => {
            let value = value_at(entries, id)?;
            Ok(Found::Within(id, value))
        }
        None => {
            let selections = selections_of(*parts.allocator(), entries, pairs, parent)?;
            find_cover(entries, parent, target, selections.as_slice(), parts)
        }
    }
}

/// What serves a key that no entry has.
fn find_range(
    children: &Children,
    entries: &[PoolEntry],
    key: &Key,
    parts: &mut Vec<CoverPiece>,
) -> Result<Found, Memory>
    requires indexed { IsIndexed children.now entries.now }
    requires lookable { IsLookable entries.now }
    requires empty { parts.old.items ≡ [] }
    ensures found { IfOk result (λ found. told found parts.new.items ≡ target_found (parent_in key.now) entries.now (span_asked key.now)) }
    ensures values { IfOk result (λ found. HandsOut entries.now found parts.new.items) }
{
    match span_of(key)? {
        None => Ok(Found::Miss),
        Some(target) => {
            let [parent, _] = key.parents();
            find_selection(children, entries, parent, &target, parts)
        }
    }
}

impl Entries {
    /// What a look finds: an entry with the key, or what serves its range; nothing where a parent isn't
    /// pooled.
    fn find(&self, key: &Key, parts: &mut Vec<CoverPiece>) -> Result<Found, Memory>
        requires known { AreFound self.now }
        requires lookable { IsLookable self.now.all.items }
        requires empty { parts.old.items ≡ [] }
        ensures found { IfOk result (λ found. told found parts.new.items ≡ found_of self.now.all.items key.now) }
        ensures values { IfOk result (λ found. HandsOut self.now.all.items found parts.new.items) }
    {
        if key.names(0) {
            return Ok(Found::Miss);
        }
        let entries = self.all.as_slice();
        match self.keys.place(entries, key) {
            None => find_range(&self.children, entries, key, parts),
            Some(place) => {
                let value = entries[place].value.share()?;
                Ok(Found::Exact(entries[place].id, value))
            }
        }
    }

    /// The same; where memory runs out, there are no parts.
    pub(crate) fn find_whole(&self, key: &Key, parts: &mut Vec<CoverPiece>) -> Result<Found, Memory>
        requires known { AreFound self.now }
        requires lookable { IsLookable self.now.all.items }
        requires empty { parts.old.items ≡ [] }
        ensures found { IfOk result (λ found. told found parts.new.items ≡ found_of self.now.all.items key.now) }
        ensures values { IfOk result (λ found. HandsOut self.now.all.items found parts.new.items) }
        ensures err { OnErr result (parts.new.items ≡ []) }
    {
        match self.find(key, parts) {
            Ok(found) => Ok(found),
            Err(memory) => {
                parts.clear();
                Err(memory)
            }
        }
    }
}
