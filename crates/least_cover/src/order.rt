//! The places of spans, those first that reach farthest.
ghost use Rattle.std.specs.Prelude.{◌≡◌, ◌≤◌, [], length};
ghost use Rattle.std.specs.Vec.{vec_capacity};
ghost use Rattle.cell_core.specs.declared.cut.Cut.TheVariants.{Low};
ghost use Rattle.cell_core.specs.Cuts.{cut_cmp};
ghost use Rattle.least_cover.specs.Best.{IsOrder};
ghost use Rattle.least_cover.specs.Covers.{span_at};

use crate::chain::append;
use cell_core::{Cut, Span, compare_cuts};
use std::cmp::Ordering;

/// The high of the span at a place, or `none` where there is no span.
fn high_of<'a>(spans: &'a [(u64, Span)], place: u64, none: &'a Cut) -> &'a Cut
    requires { none.now ≡ Low }
    ensures { result.now ≡ (span_at spans.now place).high }
{
    match spans.get(place as usize) {
        None => none,
        Some(span) => &span.1.high,
    }
}

/// How the spans at two places compare; the one that reaches farther is less.
fn compare_reach(spans: &[(u64, Span)], a: u64, b: u64) -> Ordering
    ensures { result ≡ cut_cmp (span_at spans.now b).high (span_at spans.now a).high }
{
    let none = Cut::Low;
    compare_cuts(high_of(spans, b, &none), high_of(spans, a, &none))
}

/// Lists the places of all spans, those first that reach farthest.
pub(crate) fn order_by_reach(order: &mut Vec<u64>, spans: &[(u64, Span)])
    requires empty { order.old.items ≡ [] }
    requires room { length spans.now ≤ vec_capacity order.old }
    ensures order { IsOrder spans.now order.new.items }
    ensures kept { vec_capacity order.old ≤ vec_capacity order.new }
{
    'spans: for i in 0..spans.len() {
        append(order, i as u64);
    }
    order.sort_unstable_by(|a, b| compare_reach(spans, *a, *b));
}
