//! Aggregates over the tails of a BAT, for each group of another.
ghost use Rattle.std.specs.Prelude.{◌≡◌, ◌+◌, length, IfOk, OnErr};
ghost use Rattle.cell_core.specs.Pairs.{numbered};
ghost use Rattle.cell_core.specs.Groups.{counted, summed, least, greatest, by_group};
ghost use Rattle.cell_calc.specs.Aggregates.{aggregate_of};

use crate::group_totals::group_totals;
use bat_core::{Bat, BatBuilder};
use cell_calc::Aggregate;
use cell_core::{Cell, Memory, Steps};
use std::alloc::Global;
use std::sync::ledger::Ledger;

/// For each distinct tail of `g`, by its first occurrence: an oid from 0, and how many of the tails
/// of `b` beside it aren't Nil, an Int. Tails are beside each other by position, and those past the
/// shorter BAT add nothing. The counter rises by the pairs of both and of the result.
pub fn subcount<L: Ledger>(
    alloc: Global,
    b: &Bat,
    g: &Bat,
    steps: &mut Steps<L>,
) -> Result<Bat, Memory>
    ensures value { IfOk result (λ out. out ≡ by_group counted b.now g.now) }
    ensures work { IfOk result (λ out. steps.new ≡ steps.old + (length b.now + length g.now + length out)) }
    ensures unchanged { OnErr result (steps.new ≡ steps.old) }
{
    subaggregate(alloc, Aggregate::Count, b, g, steps)
}

/// For each distinct tail of `g`, by its first occurrence: an oid from 0, and the sum of the tails
/// of `b` beside it that aren't Nil, a Huge or Nil. Tails are beside each other by position, and
/// those past the shorter BAT add nothing. It also fails with `Memory` where a sum leaves 128 bits.
/// The counter rises by the pairs of both and of the result.
pub fn subsum<L: Ledger>(
    alloc: Global,
    b: &Bat,
    g: &Bat,
    steps: &mut Steps<L>,
) -> Result<Bat, Memory>
    ensures value { IfOk result (λ out. out ≡ by_group summed b.now g.now) }
    ensures work { IfOk result (λ out. steps.new ≡ steps.old + (length b.now + length g.now + length out)) }
    ensures unchanged { OnErr result (steps.new ≡ steps.old) }
{
    subaggregate(alloc, Aggregate::Sum, b, g, steps)
}

/// For each distinct tail of `g`, by its first occurrence: an oid from 0, and the least of the
/// tails of `b` beside it that aren't Nil, or Nil. Tails are beside each other by position, and
/// those past the shorter BAT add nothing. The counter rises by the pairs of both and of the
/// result.
pub fn submin<L: Ledger>(
    alloc: Global,
    b: &Bat,
    g: &Bat,
    steps: &mut Steps<L>,
) -> Result<Bat, Memory>
    ensures value { IfOk result (λ out. out ≡ by_group least b.now g.now) }
    ensures work { IfOk result (λ out. steps.new ≡ steps.old + (length b.now + length g.now + length out)) }
    ensures unchanged { OnErr result (steps.new ≡ steps.old) }
{
    subaggregate(alloc, Aggregate::Min, b, g, steps)
}

/// For each distinct tail of `g`, by its first occurrence: an oid from 0, and the greatest of the
/// tails of `b` beside it that aren't Nil, or Nil. Tails are beside each other by position, and
/// those past the shorter BAT add nothing. The counter rises by the pairs of both and of the
/// result.
pub fn submax<L: Ledger>(
    alloc: Global,
    b: &Bat,
    g: &Bat,
    steps: &mut Steps<L>,
) -> Result<Bat, Memory>
    ensures value { IfOk result (λ out. out ≡ by_group greatest b.now g.now) }
    ensures work { IfOk result (λ out. steps.new ≡ steps.old + (length b.now + length g.now + length out)) }
    ensures unchanged { OnErr result (steps.new ≡ steps.old) }
{
    subaggregate(alloc, Aggregate::Max, b, g, steps)
}

/// An aggregate for each distinct tail of `g`.
fn subaggregate<L: Ledger>(
    alloc: Global,
    aggregate: Aggregate,
    b: &Bat,
    g: &Bat,
    steps: &mut Steps<L>,
) -> Result<Bat, Memory>
    ensures value { IfOk result (λ out. out ≡ by_group (aggregate_of aggregate) b.now g.now) }
    ensures work { IfOk result (λ out. steps.new ≡ steps.old + (length b.now + length g.now + length out)) }
    ensures unchanged { OnErr result (steps.new ≡ steps.old) }
{
    let totals = group_totals(alloc, aggregate, b.tails(), g.tails())?;
    let out = number_totals(alloc, totals.as_slice())?;
    steps.add(b.len() + g.len() + out.len());
    Ok(out)
}

/// The totals beside the oids from 0.
fn number_totals(alloc: Global, totals: &[Cell]) -> Result<Bat, Memory>
    ensures { IfOk result (λ out. out ≡ numbered totals.now) }
{
    let mut out = BatBuilder::new(alloc);
    for (i, total) in totals.iter().enumerate() {
        out.append(alloc, Cell::Oid(i as u64), total.share()?)?;
    }
    out.finish(alloc)
}
