//! The pieces that the cheapest cover cuts out of a range.
ghost use Rattle.std.specs.Prelude.{◌≡◌, ◌<◌, ◌≤◌, ◌^◌, [], All, IfOk, IsSome, length, map};
ghost use Rattle.std.specs.Option.{option_map};
ghost use Rattle.std.specs.List.{AllByRecursion};
ghost use Rattle.subsume.specs.Cutting.{least_cut, piece_of};
ghost use Rattle.least_cover.specs.Chosen.{chain_of, entry_at, pieces_from};
ghost use Rattle.pool_policy.specs.Keyed.{entry_of_id};
ghost use Rattle.pool_policy.specs.Looks.{across_found, cover_of, has_rising_heads, selections_from};
ghost use Rattle.pool_entries.specs.Usable.{HaveRisingIds};
ghost use Rattle.recycle_pool.specs.Answers.{ArePooled, HandsOut, IsPooledAs, piece_in, told};
ghost use Rattle.recycle_pool.specs.Usable.{IsLookable};

use crate::found::{CoverPiece, Found};
use crate::selections::{Selection, priced};
use bat_core::Shared;
use cell_core::{Cut, Memory, Span, compare_cuts};
use least_cover::cheapest;
use pool_entries::place_by_id;
use pool_policy::PoolEntry;
use std::alloc::Global;

/// The value of the entry with this id.
pub(crate) fn value_at(entries: &[PoolEntry], id: u64) -> Result<Shared, Memory>
    requires pooled { IsSome (entry_of_id id entries.now) }
    requires rising { HaveRisingIds entries.now }
    ensures { IfOk result (λ value. IsPooledAs entries.now id value) }
{
    match place_by_id(entries, id) {
        None => unreachable!(),
        Some(place) => entries[place].value.share(),
    }
}

/// Whether the heads of the entry with this id rise.
fn rises_at(entries: &[PoolEntry], id: u64) -> bool
    requires { HaveRisingIds entries.now }
    ensures { result ≡ has_rising_heads id entries.now }
{
    match place_by_id(entries, id) {
        None => false,
        Some(place) => entries[place].value.bat().heads_rise(),
    }
}

/// The lesser of two cuts, the first where they tie.
fn lesser_of(a: &Cut, b: &Cut) -> Result<Cut, Memory>
    ensures { IfOk result (λ cut. cut ≡ least_cut a.now b.now) }
{
    if compare_cuts(b, a).is_lt() {
        b.share()
    } else {
        a.share()
    }
}

/// The piece of a target that begins at a cut and comes from the selection at a place.
fn part_at(
    entries: &[PoolEntry],
    selections: &[Selection],
    target: &Span,
    cut: Cut,
    place: usize,
) -> Result<CoverPiece, Memory>
    requires low { place < length selections.now }
    requires pooled { IsSome (entry_of_id (entry_at selections.now place).0 entries.now) }
    requires rising { HaveRisingIds entries.now }
    ensures piece { IfOk result (λ part. piece_in part ≡ piece_of target.now cut (entry_at selections.now place)) }
    ensures value { IfOk result (λ part. IsPooledAs entries.now part.id part.value) }
{
    let selection = &selections[place];
    let high = lesser_of(&selection.1.1.high, &target.high)?;
    let value = value_at(entries, selection.0)?;
    Ok(CoverPiece {
        id: selection.0,
        span: Span { low: cut, high },
        value,
    })
}

/// Cuts a target into the pieces of a chain of selections.
fn cut_up(
    entries: &[PoolEntry],
    selections: &[Selection],
    target: &Span,
    chain: &[u64],
    parts: &mut Vec<CoverPiece>,
) -> Result<(), Memory>
    requires within { AllByRecursion (λ place. place < length selections.now) chain.now }
    requires pooled { AllByRecursion (λ s. IsSome (entry_of_id s.0 entries.now)) selections.now }
    requires rising { HaveRisingIds entries.now }
    requires empty { parts.old.items ≡ [] }
    ensures pieces { IfOk result (λ done. map piece_in parts.new.items ≡ pieces_from target.now selections.now target.now.low chain.now) }
    ensures values { IfOk result (λ done. ArePooled entries.now parts.new.items) }
{
    let mut cut = target.low.share()?;
    let mut rest = chain;
    'chain: while let [place, more @ ..] = rest {
        let part = part_at(entries, selections, target, cut, *place as usize)?;
        cut = part.span.high.share()?;
        parts.push(part)?;
        rest = more;
    }
    Ok(())
}

/// The chosen chain of selections through a target, by their places, if they cover it.
fn choose(
    alloc: Global,
    selections: &[Selection],
    target: &Span,
) -> Result<Option<Vec<u64>>, Memory>
    requires few { length selections.now ≤ 1024 }
    requires pairs { All (λ s. s.1.0 < 2 ^ 41) selections.now }
    ensures { IfOk result (λ chain. option_map (λ places. places.items) chain ≡ chain_of target.now (map (λ s. s.1) selections.now)) }
{
    let spans = priced(alloc, selections)?;
    let mut chain = Vec::with_capacity(alloc, spans.len())?;
    let mut labels = Vec::with_capacity(alloc, spans.len() + 2)?;
    match cheapest(spans.as_slice(), target, &mut chain, &mut labels) {
        None => Ok(None),
        Some(_) => Ok(Some(chain)),
    }
}

/// The pieces of the cheapest cover of a target, where the heads of the parent rise.
pub(crate) fn find_cover(
    entries: &[PoolEntry],
    parent: u64,
    target: &Span,
    selections: &[Selection],
    parts: &mut Vec<CoverPiece>,
) -> Result<Found, Memory>
    requires lookable { IsLookable entries.now }
    requires selections { selections.now ≡ selections_from parent entries.now }
    requires empty { parts.old.items ≡ [] }
    ensures found { IfOk result (λ found. told found parts.new.items ≡ across_found (cover_of parent target.now entries.now)) }
    ensures values { IfOk result (λ found. HandsOut entries.now found parts.new.items) }
{
    if !rises_at(entries, parent) {
        return Ok(Found::Miss);
    }
    match choose(*parts.allocator(), selections, target)? {
        None => Ok(Found::Miss),
        Some(chain) => {
            cut_up(entries, selections, target, chain.as_slice(), parts)?;
            Ok(Found::Across(parts.len() as u64))
        }
    }
}
