ghost use Rattle.std.specs.Prelude.{◌≡◌, [], ◌+◌, ◌*◌, ◌^◌, ◌<◌, ◌≤◌, ℕ, length, count_by, remove, IfOk, IfSome, IsSome, slice_get, position, insert};
ghost use Rattle.std.specs.Option.{option_map};
ghost use Rattle.cell_core.specs.Sorted.{insert_sorted};
ghost use Rattle.subsume.specs.Index.{item_of, is_item_below, is_at, is_counted, Ascends};

use crate::item::CutItem;
use cell_core::{Memory, Span, Steps, compare_cuts};
use std::alloc::Global;
use std::marker::Model;
use std::sync::ledger::Ledger;

/// Selections in the order of their parents, then of the lows of their spans, then of their ids.
/// Contracts see the list of the items, and how many fit.
#[derive(Drop)]
pub struct CutIndex {
    items: Vec<CutItem>,
}

impl Model for CutIndex {
    ghost use Rattle.subsume.specs.Index.{IndexView, view_of, Ascends};

    ghost Value = { IndexView };

    ghost view = { λ i. view_of i.items };

    ghost invariant = { λ i. Ascends i.items.items };
}

impl CutIndex {
    /// An index without items, with room for so many. No other call takes memory.
    pub fn new(alloc: Global, room: u64) -> Result<CutIndex, Memory>
        ensures items { IfOk result (λ index. index.items ≡ []) }
        ensures room { IfOk result (λ index. room ≤ index.room) }
    {
        let items = Vec::with_capacity(alloc, room as usize)?;
        Ok(CutIndex { items })
    }

    /// Adds an item, in order.
    pub fn add(&mut self, parent: u64, span: Span, rows: u64, id: u64)
        requires { length self.old.items < self.old.room }
        ensures items { self.new.items ≡ insert_sorted is_item_below (item_of parent span rows id) self.old.items }
        ensures len { length self.new.items ≡ length self.old.items + 1 }
        ensures room { self.old.room ≤ self.new.room }
    {
        let item = CutItem {
            parent,
            span,
            rows,
            id,
        };
        let at = place_for(&self.items, &item);
        if self.items.insert(at, item).is_err() {
            unreachable!();
        }
    }

    /// The items, of which none is before an earlier one in their order.
    pub fn as_slice(&self) -> &[CutItem]
        ensures items { result.now ≡ self.now.items }
        ensures ordered { Ascends result.now }
    {
        self.items.as_slice()
    }

    /// Removes the item of this parent that has this id, and returns its span.
    pub fn remove(&mut self, parent: u64, id: u64) -> Span
        requires { IsSome (position (is_at parent id) self.old.items) }
        ensures items { IfSome (position (is_at parent id) self.old.items)
            (λ at. self.new.items ≡ remove self.old.items at) }
        ensures span { IfSome (position (is_at parent id) self.old.items)
            (λ at. option_map (λ item. item.span) (slice_get self.old.items at) ≡ Some result) }
        ensures room { self.new.room ≡ self.old.room }
    {
        let at = match place_of(&self.items, parent, id) {
            None => unreachable!(),
            Some(at) => at,
        };
        let CutItem {
            parent: _,
            span,
            rows: _,
            id: _,
        } = self.items.remove(at);
        span
    }

    /// How many items have a parent below the given one, or, with `after`, at most the given one.
    /// Each comparison counts as a step: for n items s steps, where 2^s is at most 2n + 1.
    pub fn bound<L: Ledger>(&self, parent: u64, after: bool, steps: &mut Steps<L>) -> u64
        ensures count { result ≡ count_by (is_counted parent after) self.now.items }
        ensures steps { (s : ℕ) × (steps.new ≡ steps.old + s) × (2 ^ s ≤ 2 * length self.now.items + 1) }
    {
        bound_in(&self.items, parent, after, steps) as u64
    }
}

/// How many items at the beginning are below the given one.
fn place_for(items: &[CutItem], item: &CutItem) -> usize
    ensures within { result ≤ length items.now }
    ensures place { insert items.now result item.now ≡ insert_sorted is_item_below item.now items.now }
{
    let mut rest = items;
    'items: while let [first, more @ ..] = rest {
        if !is_below(first, item) {
            return items.len() - rest.len();
        }
        rest = more;
    }
    items.len()
}

/// The place of the item of this parent that has this id.
fn place_of(items: &[CutItem], parent: u64, id: u64) -> Option<usize>
    ensures place { result ≡ position (is_at parent id) items.now }
    ensures within { IfSome result (λ at. at < length items.now) }
{
    items
        .iter()
        .position(|item| item.parent == parent && item.id == id)
}

/// How many items at the beginning are counted, found by halves.
fn bound_in<L: Ledger>(items: &[CutItem], parent: u64, after: bool, steps: &mut Steps<L>) -> usize
    requires { Ascends items.now }
    ensures count { result ≡ count_by (is_counted parent after) items.now }
    ensures steps { (s : ℕ) × (steps.new ≡ steps.old + s) × (2 ^ s ≤ 2 * length items.now + 1) }
{
    let mut low = 0;
    let mut high = items.len();
    'halves: while low < high {
        let middle = low + (high - low) / 2;
        steps.add(1);
        if counts(&items[middle], parent, after) {
            low = middle + 1;
        } else {
            high = middle;
        }
    }
    low
}

/// Whether an item's parent is below the given one, or, with `after`, at most the given one.
fn counts(item: &CutItem, parent: u64, after: bool) -> bool
    ensures { result ≡ is_counted parent after item.now }
{
    if after {
        item.parent <= parent
    } else {
        item.parent < parent
    }
}

/// Whether an item is before another.
fn is_below(a: &CutItem, b: &CutItem) -> bool
    ensures { result ≡ is_item_below a.now b.now }
{
    a.parent
        .cmp(&b.parent)
        .then(compare_cuts(&a.span.low, &b.span.low))
        .then(a.id.cmp(&b.id))
        .is_lt()
}
