//! Heads beside a count.
ghost use Rattle.std.specs.Prelude.{◌≡◌, ◌+◌, ◌≤◌, ◌<◌, ◌^◌, length, map, IfOk, OnErr};
ghost use Rattle.std.specs.List.{range_with_len};
ghost use Rattle.cell_core.specs.declared.cell.Cell.TheVariants.{Oid};
ghost use Rattle.cell_core.specs.Relations.{marked, counted_from};

use bat_core::{Bat, Cells, CellsBuilder};
use cell_core::{Cell, Memory, Steps};
use std::alloc::Global;
use std::sync::ledger::Ledger;

/// The head of each pair beside a count: pair i, from 0, has the oid base + i, modulo 2^64, and Nil
/// where the base is Nil. The heads are shared.
pub fn mark_t<L: Ledger>(
    alloc: Global,
    b: &Bat,
    base: &Cell,
    steps: &mut Steps<L>,
) -> Result<Bat, Memory>
    ensures value { IfOk result (λ out. out ≡ marked base.now b.now) }
    ensures work { IfOk result (λ out. steps.new ≡ steps.old + (length b.now + length out)) }
    ensures unchanged { OnErr result (steps.new ≡ steps.old) }
{
    let tails = count_from(alloc, base, b.len())?;
    let out = b.with_tails(alloc, tails)?;
    steps.add(b.len() + out.len());
    Ok(out)
}

/// The cells that count from a base on.
fn count_from(alloc: Global, base: &Cell, count: u64) -> Result<Cells, Memory>
    requires { count < 2 ^ 60 }
    ensures { IfOk result (λ cells. cells ≡ map (counted_from base.now) (range_with_len 0 count)) }
{
    match base {
        Cell::Oid(from) => match from.checked_add(count) {
            Some(_) => Cells::oids(alloc, *from, count),
            None => wrap_from(alloc, *from, count),
        },
        _ => Cells::repeated(alloc, &Cell::Nil, count),
    }
}

/// The oids from a number on, where 0 comes after the greatest.
fn wrap_from(alloc: Global, from: u64, count: u64) -> Result<Cells, Memory>
    requires few { count < 2 ^ 60 }
    requires far { 2 ^ 64 ≤ from + count }
    ensures { IfOk result (λ cells. cells ≡ map (counted_from (Oid from)) (range_with_len 0 count)) }
{
    let mut cells = CellsBuilder::new(alloc);
    for i in 0..count {
        cells.push(alloc, Cell::Oid(from.wrapping_add(i)))?;
    }
    cells.finish(alloc)
}
