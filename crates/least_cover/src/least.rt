ghost use Rattle.std.specs.Prelude.{◌≡◌, ◌+◌, ◌<◌, ◌≤◌, ◌^◌, [], All, IfNone, IfSome, false, true, length, map};
ghost use Rattle.std.specs.Vec.{vec_capacity};
ghost use Rattle.cell_core.specs.Cuts.{covers};
ghost use Rattle.least_cover.specs.Covers.{IsCertificate, IsChosen, IsLeastCost, cost_of};

use crate::best::is_below;
use crate::chain::follow;
use crate::labels::number_stops;
use crate::order::order_by_reach;
use crate::solve::{nearest, solve};
use cell_core::Span;

/// The most spans that `cheapest` takes.
pub const MOST_SPANS: usize = 1024;

/// The cost of the cheapest cover of a target by spans that each cost a number of rows below 2^41.
/// None where the target isn't covered, and nowhere else; then both lists stay empty.
///
/// `chain` gets the places of the chosen chain, in order. `labels` gets its certificate: the number
/// of the target's low, then for each span that of its high, 0 where this is no stop within the
/// target, and last the number of the target's high.
///
/// Takes no memory. Each of n spans is sorted once, finds its place in the queue by halves, and
/// leaves it once: some n log n comparisons. To make room for it there at most n numbers are
/// shifted.
pub fn cheapest(
    spans: &[(u64, Span)],
    target: &Span,
    chain: &mut Vec<u64>,
    labels: &mut Vec<u64>,
) -> Option<u64>
    requires few { length spans.now ≤ MOST_SPANS }
    requires rows { All (λ e. e.0 < 2 ^ 41) spans.now }
    requires chain_empty { chain.old.items ≡ [] }
    requires labels_empty { labels.old.items ≡ [] }
    requires chain_room { length spans.now ≤ vec_capacity chain.old }
    requires labels_room { length spans.now + 2 ≤ vec_capacity labels.old }
    ensures none { IfNone result (covers target.now (map (λ e. e.1) spans.now) ≡ false) }
    ensures some { IfSome result (λ cost. covers target.now (map (λ e. e.1) spans.now) ≡ true) }
    ensures chain_none { IfNone result (chain.new.items ≡ []) }
    ensures labels_none { IfNone result (labels.new.items ≡ []) }
    ensures chosen { IfSome result (λ cost. IsChosen spans.now target.now target.now.low chain.new.items) }
    ensures cost { IfSome result (λ cost. cost ≡ cost_of spans.now chain.new.items) }
    ensures certificate { IfSome result (λ cost. IsCertificate spans.now target.now cost labels.new.items) }
    ensures least { IfSome result (λ cost. IsLeastCost spans.now target.now cost) }
    ensures chain_kept { vec_capacity chain.old ≤ vec_capacity chain.new }
    ensures labels_kept { vec_capacity labels.old ≤ vec_capacity labels.new }
{
    if !is_below(&target.low, &target.high) {
        return None;
    }
    let mut store = [None; MOST_SPANS];
    let bests = &mut store[..spans.len()];
    // The caller's lists have room, so each first serves for the search.
    order_by_reach(chain, spans);
    if !solve(bests, chain.as_slice(), labels, spans, target) {
        chain.clear();
        labels.clear();
        return None;
    }
    let near = nearest(&*bests, labels, spans, target, &target.low);
    chain.clear();
    labels.clear();
    match near {
        None => None,
        Some((first, best)) => {
            follow(chain, &*bests, spans, target, first);
            number_stops(labels, &*bests, spans, target, best.cost);
            Some(best.cost)
        }
    }
}
