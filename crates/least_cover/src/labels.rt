//! The certificate: a number for each place at which a chain may stop.
ghost use Rattle.std.specs.Prelude.{◌≡◌, ◌&&◌, ◌+◌, ◌<◌, ◌≤◌, ◌^◌, [], All, length};
ghost use Rattle.std.specs.Vec.{vec_capacity};
ghost use Rattle.cell_core.specs.Cuts.{is_cut_below};
ghost use Rattle.least_cover.specs.Best.{label_for, labels_for};

use crate::best::{Best, is_below, known, rows_of, span_of};
use crate::chain::append;
use cell_core::{Cut, Span};

/// Whether a cut is strictly within a target.
fn is_inner(target: &Span, cut: &Cut) -> bool
    ensures { result ≡ (is_cut_below target.now.low cut.now && is_cut_below cut.now target.now.high) }
{
    is_below(&target.low, cut) && is_below(cut, &target.high)
}

/// The number of the high of the span at a place: how much less its chain costs from there on than
/// the whole.
fn label_of(
    bests: &[Option<Best>],
    spans: &[(u64, Span)],
    target: &Span,
    cost: u64,
    place: usize,
) -> u64
    requires same { length bests.now ≡ length spans.now }
    requires low { place < length spans.now }
    requires rows { All (λ e. e.0 < 2 ^ 41) spans.now }
    ensures { result ≡ label_for spans.now target.now cost bests.now place }
{
    if !is_inner(target, &span_of(spans, place).high) {
        return 0;
    }
    match known(bests, place) {
        None => 0,
        Some(best) => cost.saturating_sub(best.cost.saturating_sub(rows_of(spans, place))),
    }
}

/// Writes the numbers of the target's low, of the high of each span, and of the target's high.
pub(crate) fn number_stops(
    labels: &mut Vec<u64>,
    bests: &[Option<Best>],
    spans: &[(u64, Span)],
    target: &Span,
    cost: u64,
)
    requires same { length bests.now ≡ length spans.now }
    requires rows { All (λ e. e.0 < 2 ^ 41) spans.now }
    requires empty { labels.old.items ≡ [] }
    requires room { length spans.now + 2 ≤ vec_capacity labels.old }
    ensures labels { labels.new.items ≡ labels_for spans.now target.now cost bests.now }
    ensures kept { vec_capacity labels.old ≤ vec_capacity labels.new }
{
    append(labels, 0);
    'spans: for i in 0..spans.len() {
        let label = label_of(bests, spans, target, cost, i);
        append(labels, label);
    }
    append(labels, cost);
}
