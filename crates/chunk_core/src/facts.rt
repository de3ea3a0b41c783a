//! Facts kept about the cells of a column, so that no pass over them is needed.
ghost use Rattle.std.specs.Prelude.{◌≡◌, ◌+◌, ◌*◌, ◌∷◌, ◌++◌, ◌^◌, ◌<◌, ◌&&◌, List, [], IfSome, length, map};
ghost use Rattle.std.specs.Option.{option_copied};
ghost use Rattle.cell_core.specs.Order.{cell_bytes};
ghost use Rattle.cell_core.specs.declared.cell.Cell.{Cell};
ghost use Rattle.chunk_core.specs.Filled.{oids_from};
ghost use Rattle.chunk_core.specs.Parts.{part_cells};
ghost use Rattle.chunk_core.specs.Facts.{AreToldOf, is_dense, is_below, is_next_oid, neighbours_from, last_cell, rises_with, rises_with_all, dense_with, dense_with_all, cells_bytes};

use crate::count::Count;
use crate::kept::Packed;
use crate::part::Part;
use cell_core::{Cell, compare, stated_bytes};
use std::cmp::Ordering;

/// Facts about the cells of a column.
#[derive(Clone, Copy, PartialEq, Eq)]
pub struct Facts {
    /// The sum of their stated bytes.
    pub bytes: u64,
    /// Whether each is strictly before the next.
    pub rises: bool,
    /// Whether they are dense: oids that rise by one each.
    pub dense: bool,
}

/// The stated bytes of a column stay below this.
pub const BYTES_LIMIT: u64 = 1 << 60;

impl Facts {
    /// The facts about no cells.
    pub fn none() -> Facts
        ensures { AreToldOf result [] }
    {
        Facts {
            bytes: 0,
            rises: true,
            dense: true,
        }
    }
}

/// The facts once cells are added, where the column may still grow by them.
pub fn facts_after(facts: Facts, last: Option<&Cell>, more: Part<'_>) -> Option<Facts>
    ensures { IfSome result (λ after. (cells : List Cell) → AreToldOf facts cells → option_copied last.entry ≡ last_cell cells → AreToldOf after (cells ++ part_cells more.entry)) }
{
    let bytes = bytes_after(facts.bytes, more)?;
    Some(Facts {
        bytes,
        rises: rises_after(facts.rises, last, more),
        dense: dense_after(facts.dense, last, more),
    })
}

/// The stated bytes once the cells of a part are added, where they stay below the limit.
fn bytes_after(so_far: u64, more: Part<'_>) -> Option<u64>
    ensures sum { IfSome result (λ bytes. bytes ≡ so_far + cells_bytes (part_cells more.entry)) }
    ensures few { IfSome result (λ bytes. bytes < 2 ^ 60) }
{
    match more {
        Part::Ints(numbers) => eights_after(so_far, numbers.len()),
        Part::Days(numbers) => eights_after(so_far, numbers.len()),
        Part::Oids(numbers) => eights_after(so_far, numbers.len()),
        Part::Rising(count) => eights_after(so_far, count.len),
        Part::Bits(bits) => ones_after(so_far, bits.len()),
        Part::Cells(cells) => bytes_with_all(so_far, cells),
    }
}

/// The stated bytes once that many cells of eight bytes are added.
fn eights_after(so_far: u64, count: usize) -> Option<u64>
    ensures sum { IfSome result (λ bytes. bytes ≡ so_far + 8 * count) }
    ensures few { IfSome result (λ bytes. bytes < 2 ^ 60) }
{
    let bytes = so_far.checked_add((count as u64).checked_mul(8)?)?;
    if bytes < BYTES_LIMIT {
        Some(bytes)
    } else {
        None
    }
}

/// The stated bytes once that many cells of one byte are added.
fn ones_after(so_far: u64, count: usize) -> Option<u64>
    ensures sum { IfSome result (λ bytes. bytes ≡ so_far + count) }
    ensures few { IfSome result (λ bytes. bytes < 2 ^ 60) }
{
    let bytes = so_far.checked_add(count as u64)?;
    if bytes < BYTES_LIMIT {
        Some(bytes)
    } else {
        None
    }
}

/// Whether cells rise once those of a part follow the last.
fn rises_after(so_far: bool, last: Option<&Cell>, more: Part<'_>) -> bool
    ensures { result ≡ rises_with_all so_far (option_copied last.entry) (part_cells more.entry) }
{
    match more {
        Part::Ints(numbers) => kept_rise(so_far, last, numbers),
        Part::Days(numbers) => kept_rise(so_far, last, numbers),
        Part::Oids(numbers) => kept_rise(so_far, last, numbers),
        Part::Rising(count) => count_rises(so_far, last, count),
        Part::Bits(bits) => kept_rise(so_far, last, bits),
        Part::Cells(cells) => rises_after_all(so_far, last, cells),
    }
}

/// Whether cells are dense once those of a part follow the last.
fn dense_after(so_far: bool, last: Option<&Cell>, more: Part<'_>) -> bool
    ensures { result ≡ dense_with_all so_far (option_copied last.entry) (part_cells more.entry) }
{
    match more {
        Part::Ints(numbers) => kept_dense(so_far, last, numbers),
        Part::Days(numbers) => kept_dense(so_far, last, numbers),
        Part::Oids(numbers) => kept_dense(so_far, last, numbers),
        Part::Rising(count) => count_dense(so_far, last, count),
        Part::Bits(bits) => kept_dense(so_far, last, bits),
        Part::Cells(cells) => dense_after_all(so_far, last, cells),
    }
}

/// Whether cells rise once those of one kind follow the last.
fn kept_rise<K: Packed>(so_far: bool, last: Option<&Cell>, kept: &[K]) -> bool
    ensures { result ≡ rises_with_all so_far (option_copied last.entry) (map K.cell_of kept.now) }
{
    match kept {
        [] => none_follows(so_far, last),
        [first, rest @ ..] => rises_from(so_far, last, *first, rest),
    }
}

/// A fact about cells still holds where none follows; it holds of no cells.
fn none_follows(so_far: bool, last: Option<&Cell>) -> bool
    ensures rises { result ≡ rises_with_all so_far (option_copied last.entry) [] }
    ensures dense { result ≡ dense_with_all so_far (option_copied last.entry) [] }
{
    match last {
        None => true,
        Some(_) => so_far,
    }
}

/// Whether cells rise once one and then others of its kind follow the last.
fn rises_from<K: Packed>(so_far: bool, last: Option<&Cell>, first: K, others: &[K]) -> bool
    ensures { result ≡ (rises_with so_far (option_copied last.entry) (K.cell_of first) && neighbours_from is_below (K.cell_of first) (map K.cell_of others.now)) }
{
    rises_on(so_far, last, &first.cell()) && kept_rise_from(first, others)
}

/// Whether cells rise once one more follows the last.
fn rises_on(so_far: bool, last: Option<&Cell>, cell: &Cell) -> bool
    ensures { result ≡ rises_with so_far (option_copied last.entry) cell.now }
{
    match last {
        None => true,
        Some(last) => so_far && stands_before(last, cell),
    }
}

/// Whether a cell is before the first of others of its kind, and each of these before the next.
fn kept_rise_from<K: Packed>(first: K, others: &[K]) -> bool
    ensures { result ≡ neighbours_from is_below (K.cell_of first) (map K.cell_of others.now) }
{
    let mut before = first;
    let mut rest = others;
    'others: while let [kept, more @ ..] = rest {
        if !before.is_before(*kept) {
            return false;
        }
        before = *kept;
        rest = more;
    }
    true
}

/// Whether cells are dense once those of one kind follow the last.
fn kept_dense<K: Packed>(so_far: bool, last: Option<&Cell>, kept: &[K]) -> bool
    ensures { result ≡ dense_with_all so_far (option_copied last.entry) (map K.cell_of kept.now) }
{
    match kept {
        [] => none_follows(so_far, last),
        [first, rest @ ..] => counts_from(so_far, last, *first, rest),
    }
}

/// Whether cells are dense once one and then others of its kind follow the last.
fn counts_from<K: Packed>(so_far: bool, last: Option<&Cell>, first: K, others: &[K]) -> bool
    ensures { result ≡ (dense_with so_far (option_copied last.entry) (K.cell_of first) && neighbours_from is_next_oid (K.cell_of first) (map K.cell_of others.now)) }
{
    counts_on(so_far, last, &first.cell()) && kept_count_from(first, others)
}

/// Whether cells are dense once one more follows the last.
fn counts_on(so_far: bool, last: Option<&Cell>, cell: &Cell) -> bool
    ensures { result ≡ dense_with so_far (option_copied last.entry) cell.now }
{
    match last {
        None => matches!(cell, Cell::Oid(_)),
        Some(last) => so_far && is_next(last, cell),
    }
}

/// Whether a cell and the others are oids that rise by one each, where there are others.
fn kept_count_from<K: Packed>(first: K, others: &[K]) -> bool
    ensures { result ≡ neighbours_from is_next_oid (K.cell_of first) (map K.cell_of others.now) }
{
    let mut before = first;
    let mut rest = others;
    'others: while let [kept, more @ ..] = rest {
        if !before.is_followed_by(*kept) {
            return false;
        }
        before = *kept;
        rest = more;
    }
    true
}

/// Whether cells rise once oids that rise by one each follow the last.
fn count_rises(so_far: bool, last: Option<&Cell>, count: Count) -> bool
    ensures { result ≡ rises_with_all so_far (option_copied last.entry) (oids_from count.first count.len) }
{
    match last {
        None => true,
        Some(last) => so_far && count_is_above(last, count),
    }
}

/// Whether the first of oids that rise by one each, if there is one, is above a cell.
fn count_is_above(last: &Cell, count: Count) -> bool
    ensures { result ≡ neighbours_from is_below last.now (oids_from count.first count.len) }
{
    if count.len == 0 {
        return true;
    }
    let first = Cell::Oid(count.first);
    stands_before(last, &first)
}

/// Whether cells are dense once oids that rise by one each follow the last.
fn count_dense(so_far: bool, last: Option<&Cell>, count: Count) -> bool
    ensures { result ≡ dense_with_all so_far (option_copied last.entry) (oids_from count.first count.len) }
{
    match last {
        None => true,
        Some(last) => so_far && count_is_next(last, count),
    }
}

/// Whether the first of oids that rise by one each, if there is one, is one more than a cell.
fn count_is_next(last: &Cell, count: Count) -> bool
    ensures { result ≡ neighbours_from is_next_oid last.now (oids_from count.first count.len) }
{
    if count.len == 0 {
        return true;
    }
    let first = Cell::Oid(count.first);
    is_next(last, &first)
}

/// The stated bytes once cells are added, where they stay below the limit.
fn bytes_with_all(so_far: u64, more: &[Cell]) -> Option<u64>
    ensures sum { IfSome result (λ bytes. bytes ≡ so_far + cells_bytes more.now) }
    ensures few { IfSome result (λ bytes. bytes < 2 ^ 60) }
{
    let mut bytes = so_far;
    for cell in more {
        bytes = bytes.checked_add(stated_bytes(cell))?;
    }
    if bytes < BYTES_LIMIT {
        Some(bytes)
    } else {
        None
    }
}

/// Whether cells rise once others follow the last.
fn rises_after_all(so_far: bool, last: Option<&Cell>, more: &[Cell]) -> bool
    ensures { result ≡ rises_with_all so_far (option_copied last.entry) more.now }
{
    match (last, more) {
        (None, []) => true,
        (None, [first, rest @ ..]) => rise_from(first, rest),
        (Some(last), _) => so_far && rise_from(last, more),
    }
}

/// Whether a cell is before the first of the others, and each of these before the next.
fn rise_from(first: &Cell, others: &[Cell]) -> bool
    ensures { result ≡ neighbours_from is_below first.now others.now }
{
    let mut before = first;
    let mut rest = others;
    'others: while let [cell, more @ ..] = rest {
        if !stands_before(before, cell) {
            return false;
        }
        before = cell;
        rest = more;
    }
    true
}

/// Whether a cell is strictly before another.
#[inline]
fn stands_before(a: &Cell, b: &Cell) -> bool
    ensures { result ≡ is_below a.now b.now }
{
    match (a, b) {
        (Cell::Oid(a), Cell::Oid(b)) => a < b,
        _ => compare(a, b) == Ordering::Less,
    }
}

/// Whether cells are dense once others follow the last.
fn dense_after_all(so_far: bool, last: Option<&Cell>, more: &[Cell]) -> bool
    ensures { result ≡ dense_with_all so_far (option_copied last.entry) more.now }
{
    match (last, more) {
        (None, []) => true,
        (None, [first, rest @ ..]) => matches!(first, Cell::Oid(_)) && count_from(first, rest),
        (Some(last), _) => so_far && count_from(last, more),
    }
}

/// Whether a cell and the others are oids that rise by one each, where there are others.
fn count_from(first: &Cell, others: &[Cell]) -> bool
    ensures { result ≡ neighbours_from is_next_oid first.now others.now }
{
    let mut before = first;
    let mut rest = others;
    'others: while let [cell, more @ ..] = rest {
        if !is_next(before, cell) {
            return false;
        }
        before = cell;
        rest = more;
    }
    true
}

/// Whether both are oids, the second one more than the first.
#[inline]
fn is_next(a: &Cell, b: &Cell) -> bool
    ensures { result ≡ is_next_oid a.now b.now }
{
    match (a, b) {
        (Cell::Oid(a), Cell::Oid(b)) => a.checked_add(1) == Some(*b),
        _ => false,
    }
}
