//! Solves the spans one after the other, those first that reach farthest.
ghost use Rattle.std.specs.Prelude.{◌≡◌, ℕ, ◌+◌, ◌<◌, ◌≤◌, ◌^◌, [], All, None, length, true};
ghost use Rattle.std.specs.Vec.{vec_capacity};
ghost use Rattle.cell_core.specs.Cuts.{is_cut_below};
ghost use Rattle.least_cover.specs.Best.{AreNear, AreShort, GoesOn, IsOrder, IsQueue, IsReady, Solves, Waits, best_at};
ghost use Rattle.least_cover.specs.Covers.{span_at};

use crate::best::{Best, is_below, known, rows_of, span_of};
use crate::queue::{enqueue, front};
use cell_core::{Cut, Span};

/// Of the known spans that hold a cut, the one whose chain comes first.
pub(crate) fn nearest(
    bests: &[Option<Best>],
    queue: &mut Vec<u64>,
    spans: &[(u64, Span)],
    target: &Span,
    cut: &Cut,
) -> Option<(usize, Best)>
    requires same { length bests.now ≡ length spans.now }
    requires ready { IsReady spans.now target.now bests.now queue.old.items cut.now }
    requires low { is_cut_below cut.now target.now.high ≡ true }
    ensures near { AreNear spans.now bests.now cut.now (length spans.now) result }
    ensures queue { IsQueue bests.now queue.new.items }
    ensures waits { Waits spans.now bests.now cut.now queue.new.items }
    ensures len { length queue.new.items ≤ length queue.old.items }
    ensures kept { vec_capacity queue.new ≡ vec_capacity queue.old }
{
    let _high = &target.high;
    match front(queue, spans, cut) {
        None => None,
        Some(place) => match known(bests, place) {
            None => None,
            Some(best) => Some((place, best)),
        },
    }
}

/// How the least chain that begins with the span at a place goes on. None where the target goes on
/// after its high, and no span holds that.
fn onward(
    bests: &[Option<Best>],
    queue: &mut Vec<u64>,
    spans: &[(u64, Span)],
    target: &Span,
    place: usize,
) -> Option<Best>
    requires same { length bests.now ≡ length spans.now }
    requires few { length spans.now ≤ 1024 }
    requires low { place < length spans.now }
    requires rows { All (λ e. e.0 < 2 ^ 41) spans.now }
    requires short { AreShort (length spans.now) bests.now }
    requires ready { IsReady spans.now target.now bests.now queue.old.items (span_at spans.now place).high }
    ensures goes { GoesOn spans.now target.now bests.now place result }
    ensures queue { IsQueue bests.now queue.new.items }
    ensures waits { Waits spans.now bests.now (span_at spans.now place).high queue.new.items }
    ensures len { length queue.new.items ≤ length queue.old.items }
    ensures kept { vec_capacity queue.new ≡ vec_capacity queue.old }
{
    let rows = rows_of(spans, place);
    let high = &span_of(spans, place).high;
    if !is_below(high, &target.high) {
        return Some(Best {
            cost: rows,
            length: 1,
            next: None,
        });
    }
    match nearest(bests, queue, spans, target, high) {
        None => None,
        Some((next, best)) => Some(Best {
            cost: rows + best.cost,
            length: best.length + 1,
            next: Some(next),
        }),
    }
}

/// Finds how the least chain goes on that begins with each span that ends after the target's low.
/// False where the target isn't covered.
pub(crate) fn solve(
    bests: &mut [Option<Best>],
    order: &[u64],
    queue: &mut Vec<u64>,
    spans: &[(u64, Span)],
    target: &Span,
) -> bool
    requires same { length bests.old ≡ length spans.now }
    requires few { length spans.now ≤ 1024 }
    requires rows { All (λ e. e.0 < 2 ^ 41) spans.now }
    requires blank { (p : ℕ) → best_at bests.old p ≡ None }
    requires order { IsOrder spans.now order.now }
    requires empty { queue.old.items ≡ [] }
    requires room { length spans.now ≤ vec_capacity queue.old }
    ensures solves { Solves spans.now target.now bests.new result }
    ensures ready { result ≡ true → IsReady spans.now target.now bests.new queue.new.items target.now.low }
    ensures kept { vec_capacity queue.old ≤ vec_capacity queue.new }
{
    'spans: for i in 0..spans.len() {
        let place = order[i] as usize;
        if !is_below(&target.low, &span_of(spans, place).high) {
            return true;
        }
        let best = match onward(&*bests, queue, spans, target, place) {
            None => return false,
            Some(best) => best,
        };
        bests[place] = Some(best);
        enqueue(queue, &*bests, place);
    }
    true
}
