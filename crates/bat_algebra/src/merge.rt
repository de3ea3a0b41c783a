//! Parts whose heads rise, merged into one BAT.
ghost use Rattle.std.specs.Prelude.{◌≡◌, ◌≢◌, ◌+◌, ◌<◌, ◌≤◌, ◌∷◌, ◌++◌, [], true, IfOk, OnErr, OnOk, length, drop, slice_index_or};
ghost use Rattle.std.specs.List.{AllByRecursion};
ghost use Rattle.cell_core.specs.declared.cell.Cell.{Cell as CellSeen};
ghost use Rattle.cell_core.specs.Pairs.{heads_of};
ghost use Rattle.cell_core.specs.Sorted.{sorted_by};
ghost use Rattle.chunk_core.specs.Facts.{rises};
ghost use Rattle.bat_algebra.specs.Ascending.{Ascends, is_second};
ghost use Rattle.cell_core.specs.Merged.{by_head, merged};

use bat_core::{Bat, BatBuilder, Shared};
use cell_core::{Memory, Steps, compare};
use std::alloc::Global;
use std::sync::ledger::Ledger;

/// All pairs of the parts in the order of their heads, which rise in each part. Where two parts
/// have one head, the pair of the earlier part comes first. The counter rises by the pairs of the
/// result.
///
/// It merges neighbours two by two, so each pair is moved as often as the parts can be halved.
pub fn merge_by_heads<L: Ledger>(
    alloc: Global,
    parts: &[Shared],
    steps: &mut Steps<L>,
) -> Result<Bat, Memory>
    requires { AllByRecursion (λ part. rises (heads_of part) ≡ true) parts.now }
    ensures value { IfOk result (λ out. out ≡ merged parts.now) }
    ensures work { IfOk result (λ out. steps.new ≡ steps.old + length out) }
    ensures unchanged { OnErr result (steps.new ≡ steps.old) }
{
    let out = merge_all(alloc, parts)?;
    steps.add(out.len());
    Ok(out)
}

/// The parts, merged half by half.
fn merge_all(alloc: Global, parts: &[Shared]) -> Result<Bat, Memory>
    requires { AllByRecursion (λ part. rises (heads_of part) ≡ true) parts.now }
    ensures value { IfOk result (λ out. out ≡ merged parts.now) }
    ensures up { IfOk result (λ out. Ascends out) }
{
    match parts {
        [] => Ok(Bat::new(alloc)),
        [only] => share(alloc, only.bat()),
        _ => {
            let half = parts.len() / 2;
            let low = merge_all(alloc, &parts[..half])?;
            let high = merge_all(alloc, &parts[half..])?;
            merge_two(alloc, &low, &high)
        }
    }
}

/// The same pairs, in columns that are shared.
fn share(alloc: Global, b: &Bat) -> Result<Bat, Memory>
    ensures { IfOk result (λ out. out ≡ b.now) }
{
    let heads = b.heads().share(alloc)?;
    let tails = b.tails().share(alloc)?;
    Ok(Bat::from_columns(heads, tails))
}

/// The pairs of two BATs in the order of their heads, in which each ascends.
fn merge_two(alloc: Global, a: &Bat, b: &Bat) -> Result<Bat, Memory>
    requires first { Ascends a.now }
    requires second { Ascends b.now }
    ensures value { IfOk result (λ out. out ≡ sorted_by by_head (a.now ++ b.now)) }
    ensures up { IfOk result (λ out. Ascends out) }
{
    let (first, second) = (a.len(), b.len());
    let mut out = BatBuilder::new(alloc);
    let mut i = 0;
    let mut j = 0;
    'pairs: while i < first || j < second {
        if is_second_next(a, i, b, j) {
            push_pair(alloc, &mut out, b, j)?;
            j += 1;
        } else {
            push_pair(alloc, &mut out, a, i)?;
            i += 1;
        }
    }
    out.finish(alloc)
}

/// Whether the next pair is that of the second BAT, from these places on.
fn is_second_next(a: &Bat, i: u64, b: &Bat, j: u64) -> bool
    requires first { i ≤ length a.now }
    requires second { j ≤ length b.now }
    requires some { i + j < length a.now + length b.now }
    ensures next { result ≡ is_second (drop i a.now) (drop j b.now) }
    ensures second { result ≡ true → j < length b.now }
    ensures first { result ≢ true → i < length a.now }
{
    if i == a.len() {
        return true;
    }
    j < b.len() && is_head_before(b, j, a, i)
}

/// Whether the head at a place is before another.
fn is_head_before(b: &Bat, j: u64, a: &Bat, i: u64) -> bool
    requires second { j < length b.now }
    requires first { i < length a.now }
    ensures { (p q : CellSeen × CellSeen) → result ≡ by_head (slice_index_or b.now j p) (slice_index_or a.now i q) }
{
    let (left, _) = b.pair(j);
    let (right, _) = a.pair(i);
    compare(left.cell(), right.cell()).is_lt()
}

/// Adds the pair at a place.
fn push_pair(alloc: Global, out: &mut BatBuilder, b: &Bat, at: u64) -> Result<(), Memory>
    requires { at < length b.now }
    ensures { OnOk result ((p : CellSeen × CellSeen) → out.new ≡ out.old ++ slice_index_or b.now at p ∷ []) }
{
    let (head, tail) = b.pair(at);
    out.append(alloc, head.cell().share()?, tail.cell().share()?)
}
