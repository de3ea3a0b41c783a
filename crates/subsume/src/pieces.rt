ghost use Rattle.std.specs.Prelude.{◌≡◌, [], ◌∷◌, ◌++◌, true, false, map, if◌then◌else◌, IfOk, OnOk, OnErr};
ghost use Rattle.std.specs.Prelude.{List};
ghost use Rattle.std.specs.List.Sorted.{IsSortedBy, IsPermutation};
ghost use Rattle.std.specs.Option.{option_copied, option_and_then, option_map_or};
ghost use Rattle.cell_core.specs.declared.cut.Span.{Span};
ghost use Rattle.cell_core.specs.Cuts.{covers, is_cut_below, is_cut_up_to};
ghost use Rattle.subsume.specs.Cutting.{is_contained, is_better, piece_of, least_cut, is_lower, Entry, IsCutting, IsPartition, CuttingsCutUp, PiecesFollow};
ghost use Rattle.subsume.specs.Greedy.{CuttingsAreFunctions};

use cell_core::{Cut, Memory, Span, compare_cuts};
use std::alloc::Global;

/// Whether the first span lies in the second: its low isn't below the other's, and its high isn't
/// above.
pub fn within(a: &Span, b: &Span) -> bool
    ensures { result ≡ is_contained a.now b.now }
{
    is_up_to(&b.low, &a.low) && is_up_to(&a.high, &b.high)
}

/// Whether a cut is before another or at the same place.
fn is_up_to(a: &Cut, b: &Cut) -> bool
    ensures { result ≡ is_cut_up_to a.now b.now }
{
    compare_cuts(a, b).is_le()
}

/// Whether a cut is strictly before another.
fn is_below(a: &Cut, b: &Cut) -> bool
    ensures { result ≡ is_cut_below a.now b.now }
{
    compare_cuts(a, b).is_lt()
}

/// Cuts a target into pieces of the given spans, which have ids. The next piece begins at the place
/// that is reached so far. It is that of the span which holds this place and reaches farthest, of
/// those the one with the least id, and it goes up to that span's high or the target's.
///
/// True exactly where the spans cover the target; then `out` has the pieces in order, each with its
/// span's id. `out` is empty on false and where memory runs out.
pub fn cover(
    spans: &[(u64, Span)],
    target: &Span,
    out: &mut Vec<(u64, Span)>,
) -> Result<bool, Memory>
    requires { out.old.items ≡ [] }
    ensures found { IfOk result (λ found. found ≡ covers target.now (map (λ e. e.1) spans.now)) }
    ensures cutting { IfOk result (λ found. found ≡ true
        → IsCutting target.now spans.now target.now.low out.new.items) }
    ensures none { IfOk result (λ found. found ≡ false → out.new.items ≡ []) }
    ensures err { OnErr result (out.new.items ≡ []) }
{
    if !is_below(&target.low, &target.high) {
        return Ok(false);
    }
    let order = by_low(*out.allocator(), spans)?;
    match sweep(order.as_slice(), target, out) {
        Ok(true) => Ok(true),
        Ok(false) => {
            out.clear();
            Ok(false)
        }
        Err(memory) => {
            out.clear();
            Err(memory)
        }
    }
}

/// The pieces of a cutting follow each other without gap from the target's low to its high, and
/// none of them is empty: they are disjoint, in order, and lie in the target.
pub fn cuttings_are_partitions()
    ensures { (target : Span) (entries pieces : List Entry)
        → IsCutting target entries target.low pieces → IsPartition target.low target.high pieces }
{}

/// The same holds of all pieces that cut up a target, however each span was chosen, and each of
/// them lies in its span. The greedy cutting cuts up its target.
pub fn pieces_follow()
    ensures greedy { CuttingsCutUp }
    ensures follow { PiecesFollow }
{}

/// Of spans with different ids, the cutting of a target that isn't empty is a function of them:
/// `cover` returns exactly that, and there is none where they don't cover the target.
pub fn cuttings_are_functions()
    ensures { CuttingsAreFunctions }
{}

/// The spans in the order of their lows.
fn by_low<'a>(alloc: Global, spans: &'a [(u64, Span)]) -> Result<Vec<&'a (u64, Span)>, Memory>
    ensures permutation { IfOk result (λ order. IsPermutation spans.entry.now (map (λ e. e.now) order.items)) }
    ensures sorted { IfOk result (λ order. IsSortedBy is_lower (map (λ e. e.now) order.items)) }
{
    let mut order = Vec::with_capacity(alloc, spans.len())?;
    'spans: for entry in spans {
        order.push(entry)?;
    }
    order.sort_unstable_by(|a, b| compare_cuts(&a.1.low, &b.1.low));
    Ok(order)
}

/// Cuts the target by spans in the order of their lows. False where a place is reached that none of
/// them holds.
fn sweep(order: &[&(u64, Span)], target: &Span, out: &mut Vec<(u64, Span)>) -> Result<bool, Memory>
    requires empty { out.old.items ≡ [] }
    requires some { is_cut_below target.now.low target.now.high ≡ true }
    requires sorted { IsSortedBy is_lower (map (λ e. e.now) order.now) }
    ensures found { IfOk result (λ found. found
        ≡ covers target.now (map (λ e. e.1) (map (λ e. e.now) order.now))) }
    ensures cutting { IfOk result (λ found. found ≡ true
        → IsCutting target.now (map (λ e. e.now) order.now) target.now.low out.new.items) }
{
    let mut cut = target.low.share()?;
    let mut best = None;
    'spans: for entry in order {
        if is_below(&cut, &entry.1.low) {
            let span = match reaching(best, &cut) {
                None => return Ok(false),
                Some(span) => span,
            };
            cut = push_piece(out, target, cut, span)?;
            if !is_below(&cut, &target.high) {
                return Ok(true);
            }
            if is_below(&cut, &entry.1.low) {
                return Ok(false);
            }
        }
        best = Some(better(best, entry));
    }
    let span = match reaching(best, &cut) {
        None => return Ok(false),
        Some(span) => span,
    };
    let end = push_piece(out, target, cut, span)?;
    Ok(!is_below(&end, &target.high))
}

/// The best span so far, where it reaches farther than a cut.
fn reaching<'a>(best: Option<&'a (u64, Span)>, cut: &Cut) -> Option<&'a (u64, Span)>
    ensures { option_copied result ≡ option_and_then
        (λ b. if is_cut_below cut.now b.1.high then Some b else None) (option_copied best.entry) }
{
    match best {
        Some(span) if is_below(cut, &span.1.high) => Some(span),
        _ => None,
    }
}

/// The better of the best span so far and another one.
fn better<'a>(best: Option<&'a (u64, Span)>, entry: &'a (u64, Span)) -> &'a (u64, Span)
    ensures { result.now ≡ option_map_or
        (λ b. if is_better entry.entry.now b then entry.entry.now else b)
        (option_copied best.entry) entry.entry.now }
{
    match best {
        Some(best) if !beats(entry, best) => best,
        _ => entry,
    }
}

/// Whether a span reaches farther than another, or as far with a lesser id.
fn beats(a: &(u64, Span), b: &(u64, Span)) -> bool
    ensures { result ≡ is_better a.now b.now }
{
    compare_cuts(&b.1.high, &a.1.high)
        .then(a.0.cmp(&b.0))
        .is_lt()
}

/// Adds the piece of a span that begins at a cut, and returns where it ends.
fn push_piece(
    out: &mut Vec<(u64, Span)>,
    target: &Span,
    low: Cut,
    span: &(u64, Span),
) -> Result<Cut, Memory>
    ensures piece { OnOk result (out.new.items ≡ out.old.items ++ piece_of target.now low span.now ∷ []) }
    ensures end { IfOk result (λ end. end ≡ least_cut span.now.1.high target.now.high) }
{
    let end = least(&span.1.high, &target.high);
    let high = end.share()?;
    out.push((span.0, Span { low, high }))?;
    end.share()
}

/// The lesser of two cuts, the first where they tie.
fn least<'a>(a: &'a Cut, b: &'a Cut) -> &'a Cut
    ensures { result.now ≡ least_cut a.now b.now }
{
    if is_below(b, a) { b } else { a }
}
