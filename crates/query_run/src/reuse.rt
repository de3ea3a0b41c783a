//! The result of an instruction after a look that didn't find it.
ghost use Rattle.std.specs.Prelude.{◌≡◌, ◌+◌, ◌<◌, ◌≤◌, sum_by, ◌^◌, ◌++◌, List, [], ◌∷◌, map, length, slice_get, true, Some, None, Err, IfOk, IfSome};
ghost use Rattle.std.specs.List.{AllByRecursion};
ghost use Rattle.std.specs.Option.{option_map};
ghost use Rattle.cell_core.specs.declared.operator.Arg.TheVariants.{Var};
ghost use Rattle.bat_core.specs.Objects.{value_of};
ghost use Rattle.cell_core.specs.declared.cell.Cell.{Cell as CellSeen};
ghost use Rattle.cell_core.specs.declared.cell.Cell.TheVariants.{Nil};
ghost use Rattle.cell_core.specs.declared.memory.RunError.TheVariants as RunError;
ghost use Rattle.cell_core.specs.declared.operator.Instr.{Instr as InstrSeen};
ghost use Rattle.cell_core.specs.declared.operator.Value.{Value as ValueSeen};
ghost use Rattle.cell_core.specs.declared.operator.Value.TheVariants.{Bat as BatValue};
ghost use Rattle.cell_core.specs.Pairs.{heads_of, is_true as is_true_cell, pair_count};
ghost use Rattle.cell_core.specs.Relations.{selected};
ghost use Rattle.chunk_core.specs.Facts.{rises};
ghost use Rattle.cell_core.specs.Operators.{pairs_read};
ghost use Rattle.mal_meaning.specs.Meaning.{arg_value, arg_values, instr_load};
ghost use Rattle.reuse_laws.specs.Reuse.{high_bound as high_bound_of, low_bound as low_bound_of, selected_in};
ghost use Rattle.cell_core.specs.Merged.{merged};
ghost use Rattle.query_keys.specs.Laws.{HasBounds};
ghost use Rattle.recycle_pool.specs.declared.found.CoverPiece.{CoverPiece as PartSeen};
ghost use Rattle.mal_meaning.specs.Meaning.{plan_load};
ghost use Rattle.query_run.specs.declared.step.Offer.{Offer as OfferSeen};
ghost use Rattle.query_run.specs.declared.step.Step.TheVariants as step;
ghost use Rattle.mal_exec.specs.Results.{known_of};
ghost use Rattle.query_run.specs.Queries.{BecomesOf, HasArgs, IsAt, IsOffered, IsUnderWay, Serves, all_values, part_work, value_at, work_from};
ghost use Rattle.query_run.specs.Steps.{Counted};

use crate::query::overflow;
use crate::step::{Offer, RunningQuery, Step};
use bat_algebra::{merge_by_heads, select};
use bat_core::{Bat, Obj, Operate, Shared};
use cell_core::{Arg, Cell, Cut, Instr, Memory, RunError, Sequence, Span, Steps};
use mal_exec::Done;
use query_keys::{instrs_run, marked_are_bats};
use recycle_pool::{CoverPiece, Found};
use std::alloc::Global;
use std::sync::ledger::Ledger;

/// A result, and the stated work by which it was computed.
#[derive(Drop)]
pub(crate) struct Made {
    pub value: Shared,
    pub done: u128,
}

impl RunningQuery {
    /// Computes the result for which it asked, and offers it.
    pub(crate) fn reuse<E: Operate, L: Ledger>(
        self,
        alloc: Global,
        n: usize,
        found: Found,
        parts: Vec<CoverPiece>,
        kernel: &E,
        steps: &mut Steps<L>,
    ) -> Result<Step, Memory>
        requires under { IsUnderWay self }
        requires found { (instr : InstrSeen) × IsAt self n instr × HasArgs self instr × Serves self n instr found parts.items }
        ensures step { IfOk result (λ next. (instr : InstrSeen) → IsAt self n instr → BecomesOf self n instr found parts.items next) }
        ensures counted { IfOk result (λ next. Counted (step.Found self n found parts) next steps.old steps.new) }
    {
        match self.make(alloc, n, found, parts, kernel, steps) {
            Ok(made) => self.to_offer(alloc, n, made),
            Err(RunError::Overflow) => Ok(overflow()),
            Err(RunError::Memory) => Err(Memory),
        }
    }

    /// Computes the result for which it asked.
    fn make<E: Operate, L: Ledger>(
        &self,
        alloc: Global,
        n: usize,
        found: Found,
        parts: Vec<CoverPiece>,
        kernel: &E,
        steps: &mut Steps<L>,
    ) -> Result<Made, RunError>
        requires under { IsUnderWay self.now }
        requires found { (instr : InstrSeen) × IsAt self.now n instr × HasArgs self.now instr × Serves self.now n instr found parts.items }
        ensures value { IfOk result (λ made. value_at self.now n ≡ Some (Some (BatValue made.value))) }
        ensures done { IfOk result (λ made. (instr : InstrSeen) → IsAt self.now n instr → made.done ≡ work_from found parts.items (instr_load self.now.snap.db (all_values self.now) instr) (length made.value)) }
        ensures counted { IfOk result (λ made. steps.new ≡ steps.old + made.done) }
        ensures overflow { result ≡ Err RunError.Overflow → value_at self.now n ≡ Some None }
        ensures later { result ≡ Err RunError.Overflow → steps.old ≤ steps.new }
        ensures within { result ≡ Err RunError.Overflow → steps.new + self.now.work ≤ steps.old + plan_load self.now.plan self.now.snap.db }
    {
        match found {
            Found::Within(_, pooled) => {
                let made = select_again(alloc, self.instr(n), &pooled, steps)?;
                Ok(made)
            }
            Found::Across(_) => {
                let made = select_parts(alloc, parts.as_slice(), steps)?;
                Ok(made)
            }
            _ => self.run(alloc, n, kernel, steps),
        }
    }

    /// Computes it from its arguments.
    fn run<E: Operate, L: Ledger>(
        &self,
        alloc: Global,
        n: usize,
        kernel: &E,
        steps: &mut Steps<L>,
    ) -> Result<Made, RunError>
        requires under { IsUnderWay self.now }
        requires at { (instr : InstrSeen) × IsAt self.now n instr × HasArgs self.now instr }
        ensures value { IfOk result (λ made. value_at self.now n ≡ Some (Some (BatValue made.value))) }
        ensures done { IfOk result (λ made. (instr : InstrSeen) → IsAt self.now n instr → made.done ≡ instr_load self.now.snap.db (all_values self.now) instr) }
        ensures counted { IfOk result (λ made. steps.new ≡ steps.old + made.done) }
        ensures overflow { result ≡ Err RunError.Overflow → value_at self.now n ≡ Some None }
        ensures later { result ≡ Err RunError.Overflow → steps.old ≤ steps.new }
        ensures within { result ≡ Err RunError.Overflow → steps.new + self.now.work ≤ steps.old + plan_load self.now.plan self.now.snap.db }
    {
        marked_are_bats();
        let done = self.run_at(alloc, n, kernel, steps)?;
        let Done { value, work } = done;
        match value {
            Obj::Bat(value) => Ok(Made { value, done: work }),
            Obj::One(_) => unreachable!(),
        }
    }

    /// The step that offers the result of an instruction.
    pub(crate) fn to_offer(self, alloc: Global, n: usize, made: Made) -> Result<Step, Memory>
        requires under { IsUnderWay self }
        requires at { (instr : InstrSeen) × IsAt self n instr × HasArgs self instr }
        requires value { value_at self n ≡ Some (Some (BatValue made.value)) }
        ensures { IfOk result (λ next. (offer : OfferSeen) × (next ≡ step.Offering self n offer) × (offer.value ≡ made.value) × (offer.done ≡ made.done) × ((instr : InstrSeen) → IsAt self n instr → IsOffered self n instr offer)) }
    {
        let key = self.key_at(alloc, n)?;
        let work = self.stated_work(n, &made.value)?;
        let offer = Offer {
            key,
            value: made.value,
            work,
            done: made.done,
        };
        Ok(Step::Offering(self, n, offer))
    }

    /// The stated work of an instruction that has its arguments and this result. Work from 2^62 on
    /// counts as want of memory.
    fn stated_work(&self, n: usize, value: &Shared) -> Result<u64, Memory>
        requires under { IsUnderWay self.now }
        requires at { (instr : InstrSeen) × IsAt self.now n instr × HasArgs self.now instr }
        requires value { value_at self.now n ≡ Some (Some (BatValue value.now)) }
        ensures work { IfOk result (λ work. (instr : InstrSeen) → IsAt self.now n instr → work ≡ instr_load self.now.snap.db (all_values self.now) instr) }
        ensures small { IfOk result (λ work. work < 2 ^ 62) }
    {
        let work = self.load_of(n, value.bat().len())?;
        if work >= 1 << 62 {
            return Err(Memory);
        }
        Ok(work as u64)
    }

    /// The stated work of an instruction that has its arguments, and whose value has this many
    /// pairs.
    pub(crate) fn load_of(&self, n: usize, pairs: u64) -> Result<u128, Memory>
        requires under { IsUnderWay self.now }
        requires at { (instr : InstrSeen) × (slice_get self.now.plan.instrs n ≡ Some instr) × HasArgs self.now instr }
        requires value { (value : ValueSeen) × (value_at self.now n ≡ Some (Some value)) × (pairs ≡ pair_count value) }
        ensures { IfOk result (λ load. (instr : InstrSeen) → slice_get self.now.plan.instrs n ≡ Some instr → load ≡ instr_load self.now.snap.db (all_values self.now) instr) }
    {
        instrs_run();
        let read = pairs_named(self.values.as_slice(), self.instr(n).args.as_slice())?;
        sum(read, u128::from(pairs))
    }
}

/// The sum of two numbers. One past 128 bits counts as want of memory.
pub(crate) fn sum(one: u128, other: u128) -> Result<u128, Memory>
    ensures { IfOk result (λ sum. sum ≡ one + other) }
{
    one.checked_add(other).ok_or(Memory)
}

/// The number of pairs of the arguments, where all have values.
fn pairs_named(values: &[Option<Obj>], args: &[Arg]) -> Result<u128, Memory>
    ensures { IfOk result (λ pairs. IfSome (arg_values (known_of values.now) args.now) (λ found. pairs ≡ pairs_read found)) }
{
    let mut pairs = 0_u128;
    let mut rest = args;
    'args: while let [arg, more @ ..] = rest {
        pairs = sum(pairs, pairs_at(values, arg))?;
        rest = more;
    }
    Ok(pairs)
}

/// The number of pairs of an argument.
fn pairs_at(values: &[Option<Obj>], arg: &Arg) -> u128
    ensures { IfSome (arg_value (known_of values.now) arg.now) (λ found. result ≡ pair_count found) }
{
    match arg {
        Arg::Const(_) => 0,
        Arg::Var(n) => match known_result(values, *n) {
            Some(value) => u128::from(value.pair_count()),
            None => 0,
        },
    }
}

/// The result at a place, if any.
pub(crate) fn known_result(values: &[Option<Obj>], place: u32) -> Option<&Obj>
    ensures { option_map (λ found. value_of found.now) result ≡ arg_value (known_of values.now) (Var place) }
{
    let Some(Some(value)) = values.get(place as usize) else {
        return None;
    };
    Some(value)
}

/// A result that was computed from `read` pairs.
fn made_of(alloc: Global, read: u64, out: Bat) -> Result<Made, Memory>
    ensures value { IfOk result (λ made. made.value ≡ out) }
    ensures done { IfOk result (λ made. made.done ≡ read + length out) }
{
    let done = u128::from(read) + u128::from(out.len());
    let value = Shared::new(alloc, out)?;
    Ok(Made { value, done })
}

/// Selects from a pooled result by the instruction's own bounds.
fn select_again<L: Ledger>(
    alloc: Global,
    instr: &Instr,
    pooled: &Shared,
    steps: &mut Steps<L>,
) -> Result<Made, Memory>
    requires { (low : CellSeen) × (high : CellSeen) × (li : CellSeen) × (hi : CellSeen) × HasBounds instr.now low high li hi }
    ensures value { IfOk result (λ made. (low high li hi : CellSeen) → HasBounds instr.now low high li hi → made.value ≡ selected low high (is_true_cell li) (is_true_cell hi) pooled.now) }
    ensures done { IfOk result (λ made. made.done ≡ length pooled.now + length made.value) }
    ensures counted { IfOk result (λ made. steps.new ≡ steps.old + made.done) }
{
    match instr.args.as_slice() {
        [
            _,
            Arg::Const(low),
            Arg::Const(high),
            Arg::Const(li),
            Arg::Const(hi),
        ] => {
            let from = pooled.bat();
            let out = select(alloc, from, low, high, li.is_true(), hi.is_true(), steps)?;
            made_of(alloc, from.len(), out)
        }
        _ => unreachable!(),
    }
}

/// The selections of parts, and the stated work by which they were computed.
#[derive(Drop)]
struct Pieces {
    values: Sequence<Shared>,
    done: u128,
}

/// The selections of the parts, merged by their heads.
fn select_parts<L: Ledger>(
    alloc: Global,
    parts: &[CoverPiece],
    steps: &mut Steps<L>,
) -> Result<Made, Memory>
    requires { AllByRecursion (λ (part : PartSeen). rises (heads_of (selected_in part.span part.value)) ≡ true) parts.now }
    ensures value { IfOk result (λ made. made.value ≡ merged (map (λ (part : PartSeen). selected_in part.span part.value) parts.now)) }
    ensures done { IfOk result (λ made. made.done ≡ sum_by part_work parts.now + length made.value) }
    ensures counted { IfOk result (λ made. steps.new ≡ steps.old + made.done) }
{
    let pieces = select_each(alloc, parts, steps)?;
    let out = merge_by_heads(alloc, pieces.values.as_slice(), steps)?;
    let done = sum(pieces.done, u128::from(out.len()))?;
    let value = Shared::new(alloc, out)?;
    Ok(Made { value, done })
}

/// The selections of the parts.
fn select_each<L: Ledger>(
    alloc: Global,
    parts: &[CoverPiece],
    steps: &mut Steps<L>,
) -> Result<Pieces, Memory>
    ensures values { IfOk result (λ pieces. pieces.values ≡ map (λ (part : PartSeen). selected_in part.span part.value) parts.now) }
    ensures done { IfOk result (λ pieces. pieces.done ≡ sum_by part_work parts.now) }
    ensures counted { IfOk result (λ pieces. steps.new ≡ steps.old + pieces.done) }
{
    let mut values = Sequence::new(alloc);
    let mut done = 0_u128;
    let mut rest = parts;
    'parts: while let [part, more @ ..] = rest {
        let made = select_part(alloc, part, steps)?;
        done = sum(done, made.done)?;
        values.push(made.value)?;
        rest = more;
    }
    Ok(Pieces { values, done })
}

/// Selects a part's piece from its value.
fn select_part<L: Ledger>(
    alloc: Global,
    part: &CoverPiece,
    steps: &mut Steps<L>,
) -> Result<Made, Memory>
    ensures value { IfOk result (λ made. made.value ≡ selected_in part.now.span part.now.value) }
    ensures done { IfOk result (λ made. made.done ≡ part_work part.now) }
    ensures counted { IfOk result (λ made. steps.new ≡ steps.old + made.done) }
{
    let nil = Cell::Nil;
    let (low, li) = low_bound(&part.span.low, &nil);
    let (high, hi) = high_bound(&part.span.high, &nil);
    let from = part.value.bat();
    let out = select(alloc, from, low, high, li, hi, steps)?;
    made_of(alloc, from.len(), out)
}

/// The low bound of the selection of a span, and whether it is included.
fn low_bound<'a>(cut: &'a Cut, nil: &'a Cell) -> (&'a Cell, bool)
    requires { nil.now ≡ Nil }
    ensures bound { result.0.now ≡ (low_bound_of cut.entry.now).0 }
    ensures included { result.1 ≡ is_true_cell (low_bound_of cut.entry.now).1 }
{
    match cut {
        Cut::Before(cell) => (cell, true),
        Cut::After(cell) => (cell, false),
        Cut::Low | Cut::High => (nil, false),
    }
}

/// The high bound, and whether it is included.
fn high_bound<'a>(cut: &'a Cut, nil: &'a Cell) -> (&'a Cell, bool)
    requires { nil.now ≡ Nil }
    ensures bound { result.0.now ≡ (high_bound_of cut.entry.now).0 }
    ensures included { result.1 ≡ is_true_cell (high_bound_of cut.entry.now).1 }
{
    match cut {
        Cut::Before(cell) => (cell, false),
        Cut::After(cell) => (cell, true),
        Cut::Low | Cut::High => (nil, false),
    }
}
