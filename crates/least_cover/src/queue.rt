//! The places whose chains are known and that may still hold a cut, the nearest last.
ghost use Rattle.std.specs.Prelude.{◌≡◌, ◌⊎◌, ℕ, ◌+◌, ◌<◌, ◌≤◌, Some, length, slice_index, vec_len};
ghost use Rattle.std.specs.Vec.{vec_capacity};
ghost use Rattle.least_cover.specs.declared.best.Best.{Best as BestValue};
ghost use Rattle.least_cover.specs.Best.{HasPlace, IsFront, IsQueue, IsSeat, best_at};

use crate::best::{Best, is_below, is_nearer, span_of};
use cell_core::{Cut, Span};

/// The position of a place in the queue, found by halves.
fn seat_for(queue: &[u64], bests: &[Option<Best>], place: usize) -> usize
    requires queue { IsQueue bests.now queue.now }
    requires low { place < length bests.now }
    ensures { IsSeat bests.now queue.now place result }
{
    let mut low = 0;
    let mut high = queue.len();
    'halves: while low < high {
        let middle = low + (high - low) / 2;
        if is_nearer(bests, queue[middle] as usize, place) {
            high = middle;
        } else {
            low = middle + 1;
        }
    }
    low
}

/// Adds a place whose chain is known, in order.
pub(crate) fn enqueue(queue: &mut Vec<u64>, bests: &[Option<Best>], place: usize)
    requires queue { IsQueue bests.now queue.old.items }
    requires known { (best : BestValue) × (best_at bests.now place ≡ Some best) }
    requires low { place < length bests.now }
    requires room { vec_len queue.old < vec_capacity queue.old }
    ensures queue { IsQueue bests.now queue.new.items }
    ensures holds { (p : ℕ) → HasPlace queue.old.items p ⊎ (p ≡ place) → HasPlace queue.new.items p }
    ensures len { length queue.new.items ≡ length queue.old.items + 1 }
    ensures kept { vec_capacity queue.old ≤ vec_capacity queue.new }
{
    let at = seat_for(&*queue, bests, place);
    if queue.insert(at, place as u64).is_err() {
        unreachable!();
    }
}

/// Drops the places at the end whose spans begin after a cut, for good, since later cuts are before
/// it. Returns the last place that is left, which is the nearest.
pub(crate) fn front(queue: &mut Vec<u64>, spans: &[(u64, Span)], cut: &Cut) -> Option<usize>
    requires places { (i : ℕ) → i < length queue.old.items → slice_index queue.old.items i < length spans.now }
    ensures front { IsFront spans.now cut.now queue.old.items queue.new.items result }
    ensures kept { vec_capacity queue.new ≡ vec_capacity queue.old }
{
    'queue: for _ in 0..queue.len() {
        let place = queue[queue.len() - 1] as usize;
        if !is_below(cut, &span_of(spans, place).low) {
            return Some(place);
        }
        queue.pop();
    }
    None
}
