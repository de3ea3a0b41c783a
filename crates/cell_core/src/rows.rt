ghost use Rattle.std.specs.Prelude.{◌≡◌, slice_index_or, OnOk, OnErr};
ghost use Rattle.std.specs.Ordering.{is_lt};
ghost use Rattle.cell_core.specs.Order.{cells_cmp, is_row_below};
ghost use Rattle.cell_core.specs.Keys.{key_cmp, keyed_cmp, is_keyed_below};
ghost use Rattle.cell_core.specs.Sorted.{sorted_by};

use crate::cell::Cell;
use crate::memory::Memory;
use crate::order::compare;
use crate::sequence::Sequence;
use std::cmp::Ordering;

/// Rows compare by their cells from the left, and a row that begins another comes before it.
pub fn compare_rows(a: &[Cell], b: &[Cell]) -> Ordering
    ensures { result ≡ cells_cmp a.now b.now }
{
    let (mut left, mut right) = (a, b);
    'places: while let [x, xs @ ..] = left {
        let [y, ys @ ..] = right else {
            return Ordering::Greater;
        };
        let order = compare(x, y);
        if order != Ordering::Equal {
            return order;
        }
        left = xs;
        right = ys;
    }
    if right.is_empty() {
        Ordering::Equal
    } else {
        Ordering::Less
    }
}

/// Sorts rows in ascending order; rows that tie keep their order. Where memory runs out, they stay
/// as they were.
pub fn sort_rows(rows: &mut Vec<Sequence<Cell>>) -> Result<(), Memory>
    ensures ok { OnOk result (rows.new.items ≡ sorted_by is_row_below rows.old.items) }
    ensures err { OnErr result (rows.new.items ≡ rows.old.items) }
{
    rows.sort_by(|a, b| compare_rows(a.as_slice(), b.as_slice()))?;
    Ok(())
}

/// Rows compare by the cells at some places, each ascending (true) or descending, and then by all
/// cells. A place after a row's end counts as Nil.
pub fn compare_rows_by(keys: &[(u32, bool)], a: &[Cell], b: &[Cell]) -> Ordering
    ensures { result ≡ keyed_cmp keys.now a.now b.now }
{
    let mut rest = keys;
    'keys: while let [key, others @ ..] = rest {
        let order = compare_at(*key, a, b);
        if order != Ordering::Equal {
            return order;
        }
        rest = others;
    }
    compare_rows(a, b)
}

/// The cell of a row at a place, or else this one.
fn cell_in<'c>(row: &'c [Cell], place: u32, other: &'c Cell) -> &'c Cell
    ensures { result.now ≡ slice_index_or row.entry.now place other.entry.now }
{
    match row.get(place as usize) {
        Some(cell) => cell,
        None => other,
    }
}

/// Rows compare by the cell at one place.
fn compare_at(key: (u32, bool), a: &[Cell], b: &[Cell]) -> Ordering
    ensures { result ≡ key_cmp key a.now b.now }
{
    let (place, is_ascending) = key;
    let nil = Cell::Nil;
    let left = cell_in(a, place, &nil);
    let right = cell_in(b, place, &nil);
    if is_ascending {
        compare(left, right)
    } else {
        compare(right, left)
    }
}

/// Sorts rows by keys; rows that tie keep their order. Where memory runs out, they stay as they
/// were.
pub fn sort_rows_by(rows: &mut Vec<Sequence<Cell>>, keys: &[(u32, bool)]) -> Result<(), Memory>
    ensures ok { OnOk result (rows.new.items ≡ sorted_by (is_keyed_below keys.now) rows.old.items) }
    ensures err { OnErr result (rows.new.items ≡ rows.old.items) }
{
    rows.sort_by(|a, b| compare_rows_by(keys, a.as_slice(), b.as_slice()))?;
    Ok(())
}
