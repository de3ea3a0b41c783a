//! The cells of a part, taken into a total. Numbers that lie together are taken together.
ghost use Rattle.std.specs.Prelude.{◌≡◌, ◌++◌, ◌∷◌, [], ◌<◌, List, length, map, slice_index_or, if◌then◌else◌, ◌^◌, pos, neg_ℤ, ◌≤ℤ◌, ◌+ℤ◌, IfOk, OnOk};
ghost use Rattle.std.specs.Ordering.{is_lt, is_gt};
ghost use Rattle.cell_core.specs.declared.cell.Cell.{Cell as CellSeen};
ghost use Rattle.cell_core.specs.declared.cell.Cell.TheVariants.{Int, Huge, Nil};
ghost use Rattle.chunk_core.specs.Parts.{part_cells};
ghost use Rattle.cell_core.specs.Order.{cell_cmp};
ghost use Rattle.cell_core.specs.Groups.{known, counted, summed, least, greatest};
ghost use Rattle.cell_calc.specs.Aggregates.{aggregate_of, total_in};

use cell_calc::Aggregate;
use cell_core::{Cell, Memory};
use chunk_core::Part;

/// Takes the cells of a part into a total.
pub(crate) fn add_part(aggregate: Aggregate, part: Part<'_>, total: &mut Cell) -> Result<(), Memory>
    ensures { OnOk result ((before : List CellSeen) → total.old ≡ aggregate_of aggregate before → total.new ≡ aggregate_of aggregate (before ++ part_cells part.entry)) }
{
    match (aggregate, part) {
        (Aggregate::Count, part) => count_part(part, total),
        (Aggregate::Sum, Part::Ints(numbers)) => sum_ints(numbers, total),
        (Aggregate::Min, Part::Ints(numbers)) => take_least(numbers, total),
        (Aggregate::Max, Part::Ints(numbers)) => take_greatest(numbers, total),
        (aggregate, part) => add_each(aggregate, part, total),
    }
}

/// Takes the cells of a part into a total, one after another.
fn add_each(aggregate: Aggregate, part: Part<'_>, total: &mut Cell) -> Result<(), Memory>
    ensures { OnOk result ((before : List CellSeen) → total.old ≡ aggregate_of aggregate before → total.new ≡ aggregate_of aggregate (before ++ part_cells part.entry)) }
{
    for i in 0..part.len() {
        add_at(aggregate, part, i, total)?;
    }
    Ok(())
}

/// Takes the cell at a place into a total.
#[inline(always)]
pub(crate) fn add_at(
    aggregate: Aggregate,
    part: Part<'_>,
    at: usize,
    total: &mut Cell,
) -> Result<(), Memory>
    requires { at < length (part_cells part) }
    ensures { OnOk result ((before : List CellSeen) → total.old ≡ aggregate_of aggregate before → total.new ≡ aggregate_of aggregate (before ++ slice_index_or (part_cells part.entry) at Nil ∷ [])) }
{
    match part {
        Part::Ints(numbers) => add_int(aggregate, number_at(numbers, at), total),
        part => add_held(aggregate, part, at, total),
    }
}

/// Takes the cell at a place into a total, whatever it is.
fn add_held(aggregate: Aggregate, part: Part<'_>, at: usize, total: &mut Cell) -> Result<(), Memory>
    requires { at < length (part_cells part) }
    ensures { OnOk result ((before : List CellSeen) → total.old ≡ aggregate_of aggregate before → total.new ≡ aggregate_of aggregate (before ++ slice_index_or (part_cells part.entry) at Nil ∷ [])) }
{
    let held = part.get(at);
    aggregate.add(total, held.cell())
}

/// Takes a number into a total.
#[inline(always)]
fn add_int(aggregate: Aggregate, number: i64, total: &mut Cell) -> Result<(), Memory>
    ensures { OnOk result ((before : List CellSeen) → total.old ≡ aggregate_of aggregate before → total.new ≡ aggregate_of aggregate (before ++ Int number ∷ [])) }
{
    match aggregate {
        Aggregate::Count => count_int(number, total),
        Aggregate::Sum => sum_int(number, total),
        Aggregate::Min => lower_to(number, total),
        Aggregate::Max => raise_to(number, total),
    }
}

#[inline(always)]
fn count_int(number: i64, total: &mut Cell) -> Result<(), Memory>
    ensures { OnOk result ((before : List CellSeen) → total.old ≡ counted before → total.new ≡ counted (before ++ Int number ∷ [])) }
{
    match total {
        Cell::Int(count) => match count.checked_add(1) {
            Some(all) => {
                *count = all;
                Ok(())
            }
            None => Err(Memory),
        },
        total => Aggregate::Count.add(total, &Cell::Int(number)),
    }
}

#[inline(always)]
fn sum_int(number: i64, total: &mut Cell) -> Result<(), Memory>
    ensures { OnOk result ((before : List CellSeen) → total.old ≡ summed before → total.new ≡ summed (before ++ Int number ∷ [])) }
{
    match total {
        Cell::Huge(so_far) => {
            *so_far = sum_with(*so_far, i128::from(number))?;
            Ok(())
        }
        total => Aggregate::Sum.add(total, &Cell::Int(number)),
    }
}

/// A number that is below the least so far takes its place.
#[inline(always)]
fn lower_to(number: i64, total: &mut Cell) -> Result<(), Memory>
    ensures { OnOk result ((before : List CellSeen) → total.old ≡ least before → total.new ≡ least (before ++ Int number ∷ [])) }
{
    match total {
        Cell::Int(so_far) => {
            *so_far = lower(*so_far, number);
            Ok(())
        }
        total => Aggregate::Min.add(total, &Cell::Int(number)),
    }
}

/// A number that is above the greatest so far takes its place.
#[inline(always)]
fn raise_to(number: i64, total: &mut Cell) -> Result<(), Memory>
    ensures { OnOk result ((before : List CellSeen) → total.old ≡ greatest before → total.new ≡ greatest (before ++ Int number ∷ [])) }
{
    match total {
        Cell::Int(so_far) => {
            *so_far = higher(*so_far, number);
            Ok(())
        }
        total => Aggregate::Max.add(total, &Cell::Int(number)),
    }
}

/// Adds the cells of a part that aren't Nil to a count.
fn count_part(part: Part<'_>, total: &mut Cell) -> Result<(), Memory>
    ensures { OnOk result ((before : List CellSeen) → total.old ≡ counted before → total.new ≡ counted (before ++ part_cells part.entry)) }
{
    let more = known_in(part);
    if let Cell::Int(count) = total {
        let Some(all) = count.checked_add_unsigned(more as u64) else {
            return Err(Memory);
        };
        *total = Cell::Int(all);
    }
    Ok(())
}

/// How many cells of a part aren't Nil. Where it keeps numbers these are all.
fn known_in(part: Part<'_>) -> usize
    ensures { result ≡ length (known (part_cells part.entry)) }
{
    match part {
        Part::Ints(numbers) => numbers.len(),
        Part::Days(numbers) => numbers.len(),
        Part::Oids(numbers) => numbers.len(),
        Part::Rising(count) => count.len,
        Part::Bits(bits) => bits.len(),
        Part::Cells(cells) => known_cells(cells),
    }
}

/// How many of the cells aren't Nil.
fn known_cells(cells: &[Cell]) -> usize
    ensures { result ≡ length (known cells.now) }
{
    let mut count = 0;
    for cell in cells {
        if !cell.is_nil() {
            count += 1;
        }
    }
    count
}

fn sum_ints(numbers: &[i64], total: &mut Cell) -> Result<(), Memory>
    ensures { OnOk result ((before : List CellSeen) → total.old ≡ summed before → total.new ≡ summed (before ++ map Int numbers.now)) }
{
    if numbers.is_empty() {
        return Ok(());
    }
    let sum = sum_with(sum_in(total), sum_of(numbers))?;
    *total = Cell::Huge(sum);
    Ok(())
}

/// The sum of the numbers. They are too few to leave 128 bits.
fn sum_of(numbers: &[i64]) -> i128
    ensures { (before : List CellSeen) → total_in (summed (before ++ map Int numbers.now)) ≡ total_in (summed before) +ℤ result }
{
    let mut sum = 0;
    for i in 0..numbers.len() {
        sum += wide_at(numbers, i);
    }
    sum
}

/// The number at a place, in 128 bits.
#[inline(always)]
fn wide_at(numbers: &[i64], at: usize) -> i128
    requires { at < length numbers.now }
    ensures cell { Int result ≡ slice_index_or (map Int numbers.now) at Nil }
    ensures low { neg_ℤ (pos (2 ^ 63)) ≤ℤ result }
    ensures high { result ≤ℤ pos (2 ^ 63) }
{
    i128::from(number_at(numbers, at))
}

/// The sum that a cell holds.
fn sum_in(cell: &Cell) -> i128
    ensures { result ≡ total_in cell.now }
{
    match cell {
        Cell::Huge(total) => *total,
        _ => 0,
    }
}

/// The sum of two sums.
#[inline]
fn sum_with(sum: i128, more: i128) -> Result<i128, Memory>
    ensures { IfOk result (λ all. all ≡ sum +ℤ more) }
{
    match sum.checked_add(more) {
        Some(all) => Ok(all),
        None => Err(Memory),
    }
}

/// Takes the least of the numbers into the least so far.
fn take_least(numbers: &[i64], total: &mut Cell) -> Result<(), Memory>
    ensures { OnOk result ((before : List CellSeen) → total.old ≡ least before → total.new ≡ least (before ++ map Int numbers.now)) }
{
    if numbers.is_empty() {
        return Ok(());
    }
    let best = least_of(numbers);
    Aggregate::Min.add(total, &Cell::Int(best))
}

/// The least of the numbers, which represents all of them in a least.
fn least_of(numbers: &[i64]) -> i64
    requires { 0 < length numbers.now }
    ensures { (before : List CellSeen) → least (before ++ Int result ∷ []) ≡ least (before ++ map Int numbers.now) }
{
    let mut best = number_at(numbers, 0);
    for i in 1..numbers.len() {
        best = lower(best, number_at(numbers, i));
    }
    best
}

/// Takes the greatest of the numbers into the greatest so far.
fn take_greatest(numbers: &[i64], total: &mut Cell) -> Result<(), Memory>
    ensures { OnOk result ((before : List CellSeen) → total.old ≡ greatest before → total.new ≡ greatest (before ++ map Int numbers.now)) }
{
    if numbers.is_empty() {
        return Ok(());
    }
    let best = greatest_of(numbers);
    Aggregate::Max.add(total, &Cell::Int(best))
}

/// The greatest of the numbers, which represents all of them in a greatest.
fn greatest_of(numbers: &[i64]) -> i64
    requires { 0 < length numbers.now }
    ensures { (before : List CellSeen) → greatest (before ++ Int result ∷ []) ≡ greatest (before ++ map Int numbers.now) }
{
    let mut best = number_at(numbers, 0);
    for i in 1..numbers.len() {
        best = higher(best, number_at(numbers, i));
    }
    best
}

#[inline]
pub(crate) fn number_at(numbers: &[i64], at: usize) -> i64
    requires { at < length numbers.now }
    ensures { Int result ≡ slice_index_or (map Int numbers.now) at Nil }
{
    numbers[at]
}

/// The second of two numbers where it is below the first, else the first.
#[inline]
fn lower(a: i64, b: i64) -> i64
    ensures { Int result ≡ (if is_lt (cell_cmp (Int b) (Int a)) then Int b else Int a) }
{
    if b < a { b } else { a }
}

/// The second of two numbers where it is above the first, else the first.
#[inline]
fn higher(a: i64, b: i64) -> i64
    ensures { Int result ≡ (if is_gt (cell_cmp (Int b) (Int a)) then Int b else Int a) }
{
    if b > a { b } else { a }
}
