//! The selections from one parent, and which of them contains a range.
ghost use Rattle.std.specs.Prelude.{◌≡◌, ◌++◌, IfOk, false, map, not};
ghost use Rattle.std.specs.Option.{option_map, option_map_or};
ghost use Rattle.lineage_key.specs.Spans.{span_asked};
ghost use Rattle.subsume.specs.Cutting.{is_contained};
ghost use Rattle.pool_policy.specs.Keyed.{entry_of_id};
ghost use Rattle.pool_policy.specs.Looks.{container_of, selections_from};
ghost use Rattle.pool_entries.specs.Usable.{HaveRisingIds};
ghost use Rattle.recycle_pool.specs.Indexed.{is_lighter_than, lighter, own_selection, selection_of_id, selections_at, weight_of};

use cell_core::{Memory, Span};
use lineage_key::span_of;
use pool_entries::place_by_id;
use pool_policy::PoolEntry;
use std::alloc::Global;
use subsume::within;

/// A selection: its id, its number of pairs and its span.
pub(crate) type Selection = (u64, (u64, Span));

/// A selection by its id and its number of pairs.
type Weight = (u64, u64);

/// The entry as a selection, if it is one.
fn selection_of(entry: &PoolEntry) -> Result<Option<Selection>, Memory>
    ensures { IfOk result (λ selection. selection ≡ own_selection entry.now) }
{
    match span_of(&entry.key)? {
        None => Ok(None),
        Some(span) => Ok(Some((entry.id, (entry.value.bat().len(), span)))),
    }
}

/// The selection with this id.
fn selection_at(entries: &[PoolEntry], id: u64) -> Result<Option<Selection>, Memory>
    requires { HaveRisingIds entries.now }
    ensures { IfOk result (λ selection. selection ≡ selection_of_id entries.now id) }
{
    match place_by_id(entries, id) {
        None => Ok(None),
        Some(place) => selection_of(&entries[place]),
    }
}

/// The selections from a parent, whose pairs these are, in the order of their ids.
pub(crate) fn selections_of(
    alloc: Global,
    entries: &[PoolEntry],
    pairs: &[(u64, u64)],
    parent: u64,
) -> Result<Vec<Selection>, Memory>
    requires rising { HaveRisingIds entries.now }
    requires pairs { selections_at entries.now pairs.now ≡ selections_from parent entries.now }
    ensures { IfOk result (λ selections. selections.items ≡ selections_from parent entries.now) }
{
    let mut selections = Vec::with_capacity(alloc, pairs.len())?;
    let mut rest = pairs;
    'pairs: while let [pair, more @ ..] = rest {
        if let Some(selection) = selection_at(entries, pair.1)? {
            selections.push(selection)?;
        }
        rest = more;
    }
    Ok(selections)
}

/// Their numbers of pairs and their spans.
pub(crate) fn priced(alloc: Global, selections: &[Selection]) -> Result<Vec<(u64, Span)>, Memory>
    ensures { IfOk result (λ spans. spans.items ≡ map (λ s. s.1) selections.now) }
{
    let mut spans = Vec::with_capacity(alloc, selections.len())?;
    let mut rest = selections;
    'selections: while let [selection, more @ ..] = rest {
        spans.push(priced_span(selection)?)?;
        rest = more;
    }
    Ok(spans)
}

/// Its number of pairs and its span.
fn priced_span(selection: &Selection) -> Result<(u64, Span), Memory>
    ensures { IfOk result (λ span. span ≡ selection.now.1) }
{
    let span = selection.1.1.share()?;
    Ok((selection.1.0, span))
}

/// Whether a selection has fewer pairs than another, or as many and the lesser id.
fn is_lighter(a: Weight, b: Weight) -> bool
    ensures { result ≡ is_lighter_than a b }
{
    a.1 < b.1 || a.1 == b.1 && a.0 < b.0
}

/// Whether the best so far can't be bettered by this one.
fn is_beaten(best: Option<Weight>, mine: Weight) -> bool
    ensures { result ≡ option_map_or (λ b. not (is_lighter_than mine b)) best false }
{
    match best {
        None => false,
        Some(b) => !is_lighter(mine, b),
    }
}

/// Whether an entry is a selection that contains a target.
fn contains(entry: &PoolEntry, target: &Span) -> Result<bool, Memory>
    ensures { IfOk result (λ is. is ≡ option_map_or (λ span. is_contained target.now span) (span_asked entry.now.key) false) }
{
    match span_of(&entry.key)? {
        None => Ok(false),
        Some(span) => Ok(within(target, &span)),
    }
}

/// The better of the best so far and an entry, if that is a selection that contains the target.
fn better(best: Option<Weight>, entry: &PoolEntry, target: &Span) -> Result<Option<Weight>, Memory>
    ensures { IfOk result (λ better. better ≡ lighter target.now best entry.now) }
{
    let mine = (entry.id, entry.value.bat().len());
    if is_beaten(best, mine) {
        return Ok(best);
    }
    if contains(entry, target)? {
        Ok(Some(mine))
    } else {
        Ok(best)
    }
}

/// The better of the best so far and the entry with this id.
fn weighed(
    best: Option<Weight>,
    entries: &[PoolEntry],
    id: u64,
    target: &Span,
) -> Result<Option<Weight>, Memory>
    requires { HaveRisingIds entries.now }
    ensures { IfOk result (λ better. better ≡ option_map_or (lighter target.now best) (entry_of_id id entries.now) best) }
{
    match place_by_id(entries, id) {
        None => Ok(best),
        Some(place) => better(best, &entries[place], target),
    }
}

/// The smallest of the selections from a parent, whose pairs these are, that contain the target.
pub(crate) fn container(
    entries: &[PoolEntry],
    pairs: &[(u64, u64)],
    parent: u64,
    target: &Span,
) -> Result<Option<Weight>, Memory>
    requires rising { HaveRisingIds entries.now }
    requires pairs { selections_at entries.now pairs.now ≡ selections_from parent entries.now }
    ensures { IfOk result (λ best. best ≡ option_map weight_of (container_of parent target.now entries.now)) }
{
    let mut rest = pairs;
    let mut best = None;
    'pairs: while let [pair, more @ ..] = rest {
        best = weighed(best, entries, pair.1, target)?;
        rest = more;
    }
    Ok(best)
}
