//! The numbers of groups, and their heads.
ghost use Rattle.std.specs.Prelude.{◌≡◌, ℕ, ◌+◌, ◌≤◌, length, min, map, IfOk, OnErr};
ghost use Rattle.std.specs.List.{zip};
ghost use Rattle.cell_core.specs.declared.cell.Cell.{Cell};
ghost use Rattle.cell_core.specs.Same.{same_cell};
ghost use Rattle.cell_core.specs.Pairs.{heads_of};
ghost use Rattle.cell_core.specs.Groups.{grouped, derived, group_heads_of, group_number, same_pair};

use crate::each::number_each;
use crate::heads::first_heads;
use crate::key_cells::number_keys;
use crate::key_pairs::number_key_pairs;
use crate::numbered::Numbered;
use bat_core::{Bat, Cells};
use cell_core::{Cell, Memory, Steps};
use std::alloc::Global;
use std::sync::ledger::Ledger;

/// Each head beside the number of its tail, an oid. The counter rises by the pairs of `b` and of
/// the result.
pub fn group_new<L: Ledger>(alloc: Global, b: &Bat, steps: &mut Steps<L>) -> Result<Bat, Memory>
    ensures value { IfOk result (λ out. out ≡ grouped b.now) }
    ensures work { IfOk result (λ out. steps.new ≡ steps.old + (length b.now + length out)) }
    ensures unchanged { OnErr result (steps.new ≡ steps.old) }
{
    let numbers = number_cells(alloc, b.tails())?;
    let out = b.with_tails(alloc, numbers)?;
    steps.add(b.len() + out.len());
    Ok(out)
}

/// The numbers of the cells: by their numbers where these are all ints or all days.
fn number_cells(alloc: Global, cells: &Cells) -> Result<Cells, Memory>
    ensures { IfOk result (λ out. out ≡ map (λ c. Cell.Oid (group_number same_cell cells.now c)) cells.now) }
{
    if let Some(numbers) = number_keys::<i64>(alloc, cells)? {
        return Ok(numbers);
    }
    match number_keys::<i32>(alloc, cells)? {
        Some(numbers) => Ok(numbers),
        None => number_each(alloc, cells),
    }
}

/// By position, up to the shorter: each head of `g` beside the number of the pair of tails, an oid.
/// The counter rises by the pairs of both and of the result.
pub fn group_derive<L: Ledger>(
    alloc: Global,
    g: &Bat,
    b: &Bat,
    steps: &mut Steps<L>,
) -> Result<Bat, Memory>
    ensures value { IfOk result (λ out. out ≡ derived g.now b.now) }
    ensures work { IfOk result (λ out. steps.new ≡ steps.old + (length g.now + length b.now + length out)) }
    ensures unchanged { OnErr result (steps.new ≡ steps.old) }
{
    let numbers = number_pairs(alloc, g.tails(), b.tails())?;
    let out = beside_heads(alloc, g, numbers)?;
    steps.add(g.len() + b.len() + out.len());
    Ok(out)
}

/// The numbers of the pairs of cells that are side by side: by keys where the left ones are all
/// oids and the right ones all ints, all days, or all kept as cells.
fn number_pairs(alloc: Global, left: &Cells, right: &Cells) -> Result<Cells, Memory>
    ensures { IfOk result (λ out. out ≡ map (λ p. Cell.Oid (group_number same_pair (zip left.now right.now) p)) (zip left.now right.now)) }
{
    if let Some(numbers) = number_key_pairs::<i64>(alloc, left, right)? {
        return Ok(numbers);
    }
    if let Some(numbers) = number_key_pairs::<i32>(alloc, left, right)? {
        return Ok(numbers);
    }
    match number_key_pairs::<&Cell>(alloc, left, right)? {
        Some(numbers) => Ok(numbers),
        None => number_each_pair(alloc, left, right),
    }
}

/// The numbers of the pairs of cells that are side by side, whatever their kinds.
fn number_each_pair(alloc: Global, left: &Cells, right: &Cells) -> Result<Cells, Memory>
    ensures { IfOk result (λ out. out ≡ map (λ p. Cell.Oid (group_number same_pair (zip left.now right.now) p)) (zip left.now right.now)) }
{
    let mut met = Numbered::<(Cell, Cell)>::new(alloc);
    for i in 0..left.len().min(right.len()) {
        let pair = (left.copy(i)?, right.copy(i)?);
        met.meet(alloc, pair)?;
    }
    met.out.finish(alloc)
}

/// The first heads beside these tails, of which there may be fewer than heads.
fn beside_heads(alloc: Global, g: &Bat, tails: Cells) -> Result<Bat, Memory>
    requires { length tails ≤ length g.now }
    ensures { IfOk result (λ out. out ≡ zip (heads_of g.now) tails) }
{
    let heads = g.heads().front(alloc, tails.len())?;
    Ok(Bat::from_columns(heads, tails))
}

/// The oid of each group beside the head of its first pair. The counter rises by the pairs of `g`
/// and of the result.
pub fn group_heads<L: Ledger>(alloc: Global, g: &Bat, steps: &mut Steps<L>) -> Result<Bat, Memory>
    ensures value { IfOk result (λ out. out ≡ group_heads_of g.now) }
    ensures work { IfOk result (λ out. steps.new ≡ steps.old + (length g.now + length out)) }
    ensures unchanged { OnErr result (steps.new ≡ steps.old) }
{
    let out = first_heads(alloc, g)?;
    steps.add(g.len() + out.len());
    Ok(out)
}
