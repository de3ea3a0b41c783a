//! Spans that lie in others and cover them, and the order of items in an index of spans.
ghost use Rattle.std.specs.Prelude.{◌≡◌, ◌<◌, position};
ghost use Rattle.subsume.specs.Index.{is_at};

use cell_core::{Cell, Cut, Memory, Span, Steps, compare_cuts};
use std::alloc::Global;
use std::marker::Brand;
use std::sync::ledger::{Blank, Ledger};
use std::test::Fail;
use subsume::{CutIndex, CutItem, cover, within};

/// The span from one number up to another.
fn span(low: i64, high: i64) -> Span {
    Span {
        low: Cut::Before(Cell::Int(low)),
        high: Cut::Before(Cell::Int(high)),
    }
}

/// Spans with the given ids, lows and highs.
fn entries(alloc: Global, rows: &[(u64, i64, i64)]) -> Result<Vec<(u64, Span)>, Memory> {
    let mut made = Vec::new(alloc);
    for (id, low, high) in rows {
        made.push((*id, span(*low, *high)))?;
    }
    Ok(made)
}

/// Whether two lists hold the same ids and spans.
fn are_same(a: &[(u64, Span)], b: &[(u64, Span)]) -> bool {
    a.len() == b.len()
        && a.iter().zip(b).all(|(x, y)| {
            x.0 == y.0
                && compare_cuts(&x.1.low, &y.1.low).is_eq()
                && compare_cuts(&x.1.high, &y.1.high).is_eq()
        })
}

#[test]
fn spans_lie_in_others(rt: HostRuntime) {
    assert!(rt; within(&span(2, 4), &span(2, 5)));
    assert!(rt; within(&span(2, 4), &span(2, 4)));
    assert!(rt; !within(&span(2, 5), &span(2, 4)));
    assert!(rt; !within(&span(1, 4), &span(2, 4)));
}

// 0 to 10: the farthest from 0 is 2; at 6 both 4 and 3 reach 9, and 3 is the lesser; 5 goes past 10.
#[test]
fn the_farthest_span_comes_first(rt: HostRuntime) -> Result<(), Fail> {
    let alloc = rt.alloc();
    let spans = entries(
        alloc,
        &[(1, 0, 4), (5, 9, 12), (4, 6, 9), (3, 5, 9), (2, 0, 6)],
    )?;
    let mut out = Vec::new(alloc);
    assert!(rt; cover(spans.as_slice(), &span(0, 10), &mut out)?);
    let wanted = entries(alloc, &[(2, 0, 6), (3, 6, 9), (5, 9, 10)])?;
    assert!(rt; are_same(out.as_slice(), wanted.as_slice()));
    Ok(())
}

// The spans below 5 and above 5 leave 5 out, so no target that includes 5 is covered.
#[test]
fn a_gap_is_no_cover(rt: HostRuntime) -> Result<(), Fail> {
    let alloc = rt.alloc();
    let mut spans = entries(alloc, &[(1, 0, 5)])?;
    spans.push((
        2,
        Span {
            low: Cut::After(Cell::Int(5)),
            high: Cut::High,
        },
    ))?;
    let mut out = Vec::new(alloc);
    assert!(rt; !cover(spans.as_slice(), &span(4, 7), &mut out)?);
    assert!(rt; out.is_empty());
    assert!(rt; cover(spans.as_slice(), &span(4, 5), &mut out)?);
    Ok(())
}

/// The span from a number on.
fn from(low: i64) -> Span {
    Span {
        low: Cut::Before(Cell::Int(low)),
        high: Cut::High,
    }
}

fn bounds_with<L: Ledger>(index: &CutIndex, blank: Blank) -> [u64; 4]
    requires name { blank.name ≡ L.name }
    requires parts { blank.parts ≡ L.parts }
    requires some { 0 < blank.parts }
{
    let mut steps = Steps::<L>::new(blank);
    [
        index.bound(1, false, &mut steps),
        index.bound(1, true, &mut steps),
        index.bound(2, false, &mut steps),
        index.bound(9, true, &mut steps),
    ]
}

/// The numbers of items whose parent is below 1, at most 1, below 2 and at most 9.
fn bounds(index: &CutIndex) -> [u64; 4] {
    bounds_with::<Brand>(index, Blank::new(1))
}

/// The place of the item with this parent and this id.
fn place_of(items: &[CutItem], parent: u64, id: u64) -> Option<usize>
    ensures { result ≡ position (is_at parent id) items.now }
{
    items
        .iter()
        .position(|item| item.parent == parent && item.id == id)
}

// Two items of parent 1 and one of parent 3, which came first.
#[test]
fn items_are_counted_by_parent(rt: HostRuntime) -> Result<(), Fail> {
    let mut index = CutIndex::new(rt.alloc(), 3)?;
    index.add(3, from(0), 1, 5);
    index.add(1, from(4), 1, 7);
    index.add(1, from(2), 1, 8);
    assert_eq!(rt; bounds(&index).as_slice(), [0, 2, 2, 3].as_slice());
    assert_eq!(rt; place_of(index.as_slice(), 1, 8), Some(0));
    assert_eq!(rt; index.as_slice().len(), 3);
    if place_of(index.as_slice(), 1, 7).is_some() {
        let span = index.remove(1, 7);
        assert!(rt; compare_cuts(&span.low, &Cut::Before(Cell::Int(4))).is_eq());
    }
    assert_eq!(rt; bounds(&index).as_slice(), [0, 1, 1, 2].as_slice());
    Ok(())
}
