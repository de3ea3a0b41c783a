//! Columns at the borders of chunks, and the forms in which cells are kept.
use crate::run_select;
use bat_core::{Bat, Cells, CellsBuilder, Obj, Shared};
use cell_core::{Cell, Memory};
use std::alloc::Global;
use std::test::Fail;

/// The cells of a column.
#[derive(Clone, Copy)]
enum Filling {
    /// The numbers of their places, with Nil at two.
    NilWithin,
    /// Bits, and oids from place 4,095 on.
    TwoKinds,
    /// The least and the greatest number of 64 bits by turns.
    IntEnds,
    /// The oids down from the greatest.
    OidEnds,
    /// The oids of their places.
    Rising,
    /// The days of their places, counted from day -2,048 on.
    Days,
    /// The same days, with Nil at two places.
    DaysAndNil,
}

/// The day of a place.
fn day_of(place: u32) -> i32 {
    i32::try_from(place).unwrap_or(i32::MAX) - 2_048
}

/// The cell at a place.
fn filled_with(filling: Filling, place: u32) -> Cell {
    match filling {
        Filling::NilWithin if place == 9 || place == 4_094 => Cell::Nil,
        Filling::NilWithin => Cell::Int(i64::from(place)),
        Filling::TwoKinds if place < 4_095 => Cell::Bit(place % 2 == 0),
        Filling::TwoKinds | Filling::Rising => Cell::Oid(u64::from(place)),
        Filling::IntEnds if place % 2 == 0 => Cell::Int(i64::MIN),
        Filling::IntEnds => Cell::Int(i64::MAX),
        Filling::OidEnds => Cell::Oid(u64::MAX - u64::from(place)),
        Filling::DaysAndNil if place == 9 || place == 4_094 => Cell::Nil,
        Filling::Days | Filling::DaysAndNil => Cell::Day(day_of(place)),
    }
}

/// A column of `count` such cells.
fn filled(alloc: Global, filling: Filling, count: u32) -> Result<Cells, Memory> {
    let mut cells = CellsBuilder::new(alloc);
    for place in 0..count {
        cells.push(alloc, filled_with(filling, place))?;
    }
    cells.finish(alloc)
}

/// Whether the cells from a place on are the first `count` such cells.
fn are_filled(cells: &Cells, from: u32, filling: Filling, count: u32) -> bool {
    let mut same = true;
    for place in 0..count {
        let at = u64::from(from) + u64::from(place);
        same = same && at < cells.len() && *cells.get(at).cell() == filled_with(filling, place);
    }
    same
}

/// Whether a column of such cells has them, and likewise its shared copy, its front, and a column
/// that continues it with the same cells.
fn is_kept(alloc: Global, filling: Filling, count: u32) -> Result<bool, Memory> {
    let cells = filled(alloc, filling, count)?;
    let shared = cells.share(alloc)?;
    let twice = shared.followed_by(alloc, &cells)?;
    Ok(
        are_filled(&cells, 0, filling, count)
            && are_filled(&shared, 0, filling, count)
            && shared.len() == u64::from(count)
            && are_filled(&twice, 0, filling, count)
            && are_filled(&twice, count, filling, count)
            && twice.len() == 2 * u64::from(count),
    )
}

/// Whether such columns have their cells at each border of a chunk.
fn is_kept_at_borders(alloc: Global, filling: Filling) -> Result<bool, Memory> {
    let mut all = true;
    for count in [4_095, 4_096, 4_097] {
        all = all && is_kept(alloc, filling, count)?;
    }
    Ok(all)
}

#[test]
fn cells_of_each_form(rt: HostRuntime) -> Result<(), Fail> {
    for filling in [
        Filling::NilWithin,
        Filling::TwoKinds,
        Filling::IntEnds,
        Filling::OidEnds,
        Filling::Rising,
        Filling::Days,
        Filling::DaysAndNil,
    ] {
        assert!(rt; is_kept_at_borders(rt.alloc(), filling)?);
    }
    Ok(())
}

#[test]
fn facts_past_a_border(rt: HostRuntime) -> Result<(), Fail> {
    let alloc = rt.alloc();
    let rising = filled(alloc, Filling::Rising, 4_097)?;
    assert!(rt; rising.is_dense() && rising.rises() && rising.bytes() == 32_776);
    let ends = filled(alloc, Filling::OidEnds, 4_097)?;
    assert!(rt; !ends.is_dense() && !ends.rises() && ends.bytes() == 32_776);
    let days = filled(alloc, Filling::Days, 4_097)?;
    assert!(rt; !days.is_dense() && days.rises() && days.bytes() == 32_776);
    let with_nil = filled(alloc, Filling::DaysAndNil, 4_097)?;
    assert!(rt; !with_nil.is_dense() && !with_nil.rises() && with_nil.bytes() == 32_776);
    let kinds = filled(alloc, Filling::TwoKinds, 4_097)?;
    assert!(rt; !kinds.is_dense() && kinds.bytes() == 4_095 + 2 * 8);
    Ok(())
}

/// The numbers of their places from 0, with Nil at two, past a chunk.
fn numbers(alloc: Global) -> Result<Obj, Memory> {
    let tails = filled(alloc, Filling::NilWithin, 4_100)?;
    let heads = Cells::oids(alloc, 0, 4_100)?;
    if heads.len() != tails.len() {
        return Err(Memory);
    }
    let bat = Bat::from_columns(heads, tails);
    Ok(Obj::Bat(Shared::new(alloc, bat)?))
}

/// Whether these are the heads of a BAT.
fn has_heads(obj: &Obj, heads: &[u64]) -> bool {
    let Obj::Bat(shared) = obj else {
        return false;
    };
    let mut same = shared.bat().len() == heads.len() as u64;
    for (i, head) in heads.iter().enumerate() {
        let at = i as u64;
        same = same && is_head(shared.bat(), at, *head);
    }
    same
}

/// Whether the oid is the head at a place.
fn is_head(bat: &Bat, at: u64, head: u64) -> bool {
    at < bat.len() && *bat.pair(at).0.cell() == Cell::Oid(head)
}

#[test]
fn selects_across_a_border(rt: HostRuntime) -> Result<(), Fail> {
    let alloc = rt.alloc();
    let bounds = (Obj::One(Cell::Int(4_092)), Obj::One(Cell::Int(4_097)));
    let included = (Obj::One(Cell::Bit(true)), Obj::One(Cell::Bit(true)));
    let found = run_select(alloc, numbers(alloc)?, bounds, included)?;
    let heads = [4_092, 4_093, 4_095, 4_096, 4_097];
    assert!(rt; found.is_some_and(|obj| has_heads(&obj, &heads)));
    let open = (Obj::One(Cell::Nil), Obj::One(Cell::Int(12)));
    let first = (Obj::One(Cell::Bit(true)), Obj::One(Cell::Bit(false)));
    let found = run_select(alloc, numbers(alloc)?, open, first)?;
    let heads = [0, 1, 2, 3, 4, 5, 6, 7, 8, 10, 11];
    assert!(rt; found.is_some_and(|obj| has_heads(&obj, &heads)));
    Ok(())
}
