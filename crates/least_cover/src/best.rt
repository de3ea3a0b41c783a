//! What is known of each span: how the least chain that begins with it goes on.
ghost use Rattle.std.specs.Prelude.{◌≡◌, ℕ, ◌<◌, ◌^◌, All, length};
ghost use Rattle.std.specs.Ordering.{is_lt};
ghost use Rattle.cell_core.specs.Cuts.{is_cut_below};
ghost use Rattle.least_cover.specs.Best.{best_at, is_nearer as comes_nearer, key_at};
ghost use Rattle.least_cover.specs.Covers.{rows_at, span_at};

use cell_core::{Cut, Span, compare_cuts};

/// The least chain that begins with a span.
#[derive(Clone, Copy)]
pub(crate) struct Best {
    /// The rows of all its spans.
    pub(crate) cost: u64,
    /// How many spans it has.
    pub(crate) length: usize,
    /// The place of its second span, if it has one.
    pub(crate) next: Option<usize>,
}

/// The least chain of a place of which nothing is known.
const NOTHING: Best = Best {
    cost: 0,
    length: 0,
    next: None,
};

/// Whether a cut is strictly before another.
pub(crate) fn is_below(a: &Cut, b: &Cut) -> bool
    ensures { result ≡ is_cut_below a.now b.now }
{
    compare_cuts(a, b).is_lt()
}

/// The span at a place.
pub(crate) fn span_of(spans: &[(u64, Span)], place: usize) -> &Span
    requires { place < length spans.now }
    ensures { result.now ≡ span_at spans.now place }
{
    &spans[place].1
}

/// The rows of the span at a place.
pub(crate) fn rows_of(spans: &[(u64, Span)], place: usize) -> u64
    requires low { place < length spans.now }
    requires rows { All (λ e. e.0 < 2 ^ 41) spans.now }
    ensures value { result ≡ rows_at spans.now place }
    ensures small { result < 2 ^ 41 }
{
    spans[place].0
}

/// What is known of the span at a place.
pub(crate) fn known(bests: &[Option<Best>], place: usize) -> Option<Best>
    requires { place < length bests.now }
    ensures { result ≡ best_at bests.now place }
{
    bests[place]
}

/// The least chain that begins with a place, or `NOTHING` where none is known.
fn key_of(bests: &[Option<Best>], place: usize) -> Best
    requires { place < length bests.now }
    ensures { result ≡ key_at bests.now place }
{
    match known(bests, place) {
        None => NOTHING,
        Some(best) => best,
    }
}

/// Whether the least chain that begins with a place comes before that of another.
pub(crate) fn is_nearer(bests: &[Option<Best>], i: usize, j: usize) -> bool
    requires i { i < length bests.now }
    requires j { j < length bests.now }
    ensures { result ≡ comes_nearer bests.now i j }
{
    let a = key_of(bests, i);
    let b = key_of(bests, j);
    a.cost
        .cmp(&b.cost)
        .then(a.length.cmp(&b.length))
        .then(i.cmp(&j))
        .is_lt()
}
