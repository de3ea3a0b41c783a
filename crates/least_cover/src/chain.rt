//! The chain that begins with the nearest span, listed from span to span.
ghost use Rattle.std.specs.Prelude.{◌≡◌, ◌+◌, ◌<◌, ◌≤◌, [], ◌∷◌, ◌++◌, length, true, vec_len};
ghost use Rattle.std.specs.Option.{option_and_then};
ghost use Rattle.std.specs.Vec.{vec_capacity};
ghost use Rattle.cell_core.specs.Cuts.{is_cut_below};
ghost use Rattle.least_cover.specs.declared.best.Best.{Best as BestValue};
ghost use Rattle.least_cover.specs.Best.{IsNearest, Solves, best_at};
ghost use Rattle.least_cover.specs.Covers.{IsChosen};

use crate::best::{Best, known};
use cell_core::Span;

/// Adds a number, where there is room for it.
pub(crate) fn append(numbers: &mut Vec<u64>, number: u64)
    requires { vec_len numbers.old < vec_capacity numbers.old }
    ensures items { numbers.new.items ≡ numbers.old.items ++ number ∷ [] }
    ensures kept { vec_capacity numbers.old ≤ vec_capacity numbers.new }
{
    match numbers.push(number) {
        Ok(()) => {}
        Err(_) => unreachable!(),
    }
}

/// The place that follows another in its chain.
fn following(bests: &[Option<Best>], place: usize) -> Option<usize>
    requires { place < length bests.now }
    ensures { result ≡ option_and_then (λ (best : BestValue). best.next) (best_at bests.now place) }
{
    match known(bests, place) {
        None => None,
        Some(best) => best.next,
    }
}

/// Lists the chain that begins with a place, from span to span.
pub(crate) fn follow(
    chain: &mut Vec<u64>,
    bests: &[Option<Best>],
    spans: &[(u64, Span)],
    target: &Span,
    first: usize,
)
    requires same { length bests.now ≡ length spans.now }
    requires empty { chain.old.items ≡ [] }
    requires room { length spans.now ≤ vec_capacity chain.old }
    requires some { is_cut_below target.now.low target.now.high ≡ true }
    requires solved { Solves spans.now target.now bests.now true }
    requires first { (best : BestValue) × IsNearest spans.now bests.now target.now.low (length spans.now) first best }
    ensures chosen { IsChosen spans.now target.now target.now.low chain.new.items }
    ensures kept { vec_capacity chain.old ≤ vec_capacity chain.new }
{
    let _low = &target.low;
    let mut next = Some(first);
    'spans: for _ in 0..spans.len() {
        let place = match next {
            None => return,
            Some(place) => place,
        };
        append(chain, place as u64);
        next = following(bests, place);
    }
}
