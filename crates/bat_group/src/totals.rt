//! Aggregates over the tails of a BAT.
ghost use Rattle.std.specs.Prelude.{◌≡◌, ◌+◌, length, IfOk, OnOk, OnErr};
ghost use Rattle.cell_core.specs.Pairs.{tails_of};
ghost use Rattle.cell_core.specs.Groups.{counted, summed, least, greatest};
ghost use Rattle.cell_calc.specs.Aggregates.{aggregate_of};

use crate::parts::add_part;
use bat_core::{Bat, Cells};
use cell_calc::Aggregate;
use cell_core::{Cell, Memory, Steps};
use std::alloc::Global;
use std::sync::ledger::Ledger;

/// How many tails aren't Nil, an Int. The counter rises by the pairs of `b`.
pub fn count<L: Ledger>(_alloc: Global, b: &Bat, steps: &mut Steps<L>) -> Result<Cell, Memory>
    ensures value { IfOk result (λ cell. cell ≡ counted (tails_of b.now)) }
    ensures work { OnOk result (steps.new ≡ steps.old + length b.now) }
    ensures unchanged { OnErr result (steps.new ≡ steps.old) }
{
    let cell = aggregate_cells(Aggregate::Count, b.tails())?;
    steps.add(b.len());
    Ok(cell)
}

/// The sum of the tails that aren't Nil, a Huge; Nil is the sum of none. It also fails with
/// `Memory` where the sum leaves 128 bits. The counter rises by the pairs of `b`.
pub fn sum<L: Ledger>(_alloc: Global, b: &Bat, steps: &mut Steps<L>) -> Result<Cell, Memory>
    ensures value { IfOk result (λ cell. cell ≡ summed (tails_of b.now)) }
    ensures work { OnOk result (steps.new ≡ steps.old + length b.now) }
    ensures unchanged { OnErr result (steps.new ≡ steps.old) }
{
    let cell = aggregate_cells(Aggregate::Sum, b.tails())?;
    steps.add(b.len());
    Ok(cell)
}

/// The least tail that isn't Nil, the first of several that compare equal; Nil where there is none.
/// The counter rises by the pairs of `b`.
pub fn min<L: Ledger>(_alloc: Global, b: &Bat, steps: &mut Steps<L>) -> Result<Cell, Memory>
    ensures value { IfOk result (λ cell. cell ≡ least (tails_of b.now)) }
    ensures work { OnOk result (steps.new ≡ steps.old + length b.now) }
    ensures unchanged { OnErr result (steps.new ≡ steps.old) }
{
    let cell = aggregate_cells(Aggregate::Min, b.tails())?;
    steps.add(b.len());
    Ok(cell)
}

/// The greatest tail that isn't Nil, the first of several that compare equal; Nil where there is
/// none. The counter rises by the pairs of `b`.
pub fn max<L: Ledger>(_alloc: Global, b: &Bat, steps: &mut Steps<L>) -> Result<Cell, Memory>
    ensures value { IfOk result (λ cell. cell ≡ greatest (tails_of b.now)) }
    ensures work { OnOk result (steps.new ≡ steps.old + length b.now) }
    ensures unchanged { OnErr result (steps.new ≡ steps.old) }
{
    let cell = aggregate_cells(Aggregate::Max, b.tails())?;
    steps.add(b.len());
    Ok(cell)
}

/// The aggregate of the cells, run by run.
fn aggregate_cells(aggregate: Aggregate, cells: &Cells) -> Result<Cell, Memory>
    ensures { IfOk result (λ out. out ≡ aggregate_of aggregate cells.now) }
{
    let mut so_far = aggregate.of_none();
    let mut from = 0;
    'runs: while from < cells.len() {
        let part = cells.run(from);
        add_part(aggregate, part, &mut so_far)?;
        from += part.len() as u64;
    }
    Ok(so_far)
}
