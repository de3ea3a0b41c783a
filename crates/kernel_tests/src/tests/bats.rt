//! Each call with ample memory, past a chunk, and the facts of small BATs.
use bat_core::{Bat, BatBuilder, Cells, CellsBuilder, Obj, Shared};
use cell_core::{Cell, Memory};
use std::alloc::Global;
use std::test::Fail;

/// More pairs than two chunks have.
const MANY: u64 = 10_000;

/// Oids from 0, each paired with its number.
fn many_pairs(alloc: Global) -> Result<Bat, Memory> {
    let mut bat = BatBuilder::new(alloc);
    for place in 0..MANY {
        bat.append(alloc, Cell::Oid(place), Cell::Huge(i128::from(place)))?;
    }
    bat.finish(alloc)
}

/// Whether the pair at a place is this one.
fn has_pair(bat: &Bat, place: u64, head: &Cell, tail: &Cell) -> bool {
    place < bat.len() && *bat.pair(place).0.cell() == *head && *bat.pair(place).1.cell() == *tail
}

#[test]
fn pairs_past_a_chunk(rt: HostRuntime) -> Result<(), Fail> {
    let bat = many_pairs(rt.alloc())?;
    let reversed = bat.reversed(rt.alloc())?;
    let mirrored = bat.mirrored(rt.alloc())?;
    for place in [0, 4_095, 4_096, 8_192, 9_999] {
        let head = Cell::Oid(place);
        let tail = Cell::Huge(i128::from(place));
        assert!(rt; has_pair(&bat, place, &head, &tail));
        assert!(rt; has_pair(&reversed, place, &tail, &head));
        assert!(rt; has_pair(&mirrored, place, &head, &head));
    }
    Ok(())
}

/// The BAT of these heads, each paired with Nil.
fn beside_nil(alloc: Global, heads: &[u64]) -> Result<Bat, Memory> {
    let mut bat = BatBuilder::new(alloc);
    for head in heads {
        bat.append(alloc, Cell::Oid(*head), Cell::Nil)?;
    }
    bat.finish(alloc)
}

#[test]
fn facts_of_bats(rt: HostRuntime) -> Result<(), Fail> {
    let alloc = rt.alloc();
    let heads = [2, 3, 5, 5];
    for (count, bytes, rises) in [
        (1, 72, true),
        (2, 80, true),
        (3, 112, true),
        (4, 128, false),
    ] {
        let bat = beside_nil(alloc, &heads[..count])?;
        assert_eq!(rt; bat.bytes(), bytes);
        assert_eq!(rt; bat.heads_rise(), rises);
    }
    let dense = many_pairs(alloc)?;
    assert_eq!(rt; dense.bytes(), 64 + 160_000);
    Ok(())
}

#[test]
fn values_are_shared(rt: HostRuntime) -> Result<(), Fail> {
    let alloc = rt.alloc();
    let bat = beside_nil(alloc, &[1])?;
    let tails = Cells::repeated(alloc, &Cell::Bit(true), 1)?;
    let copy = tails.share(alloc)?;
    assert!(rt; copy.len() == 1 && bat.len() == 1);
    let other = bat.with_tails(alloc, copy)?;
    assert!(rt; has_pair(&other, 0, &Cell::Oid(1), &Cell::Bit(true)));
    let obj = Obj::Bat(Shared::new(alloc, other)?.share()?);
    let shared = obj.share()?;
    assert!(rt; matches!(&shared, Obj::Bat(inner) if inner.bat().len() == 1));
    Ok(())
}

#[test]
fn columns_made_whole(rt: HostRuntime) -> Result<(), Fail> {
    let alloc = rt.alloc();
    let oids = Cells::oids(alloc, 7, 5_000)?;
    let same = Cells::repeated(alloc, &Cell::Bit(true), 5_000)?;
    assert!(rt; oids.len() == 5_000 && oids.is_dense() && oids.rises());
    assert!(rt; same.len() == 5_000 && !same.is_dense() && !same.rises());
    assert_eq!(rt; same.bytes(), 5_000);
    for place in [0, 4_095, 4_096, 4_999] {
        assert!(rt; place < oids.len() && *oids.get(place).cell() == Cell::Oid(7 + place));
        assert!(rt; place < same.len() && *same.get(place).cell() == Cell::Bit(true));
    }
    Ok(())
}

/// Whether the BAT has these pairs past its chunks.
fn has_many(bat: &Bat) -> bool {
    let mut all = bat.len() == MANY;
    for place in [0, 4_095, 4_096, 8_192, 9_999] {
        let tail = Cell::Huge(i128::from(place));
        all = all && has_pair(bat, place, &Cell::Oid(place), &tail);
    }
    all
}

#[test]
fn pairs_built_past_a_chunk(rt: HostRuntime) -> Result<(), Fail> {
    let bat = many_pairs(rt.alloc())?;
    assert!(rt; has_many(&bat) && bat.heads_rise());
    assert_eq!(rt; bat.bytes(), 64 + 160_000);
    Ok(())
}

#[test]
fn columns_after_others(rt: HostRuntime) -> Result<(), Fail> {
    let bat = many_pairs(rt.alloc())?;
    let twice = bat.followed_by(rt.alloc(), &bat)?;
    assert!(rt; twice.len() == 2 * MANY && !twice.heads_rise());
    Ok(())
}

#[test]
fn fronts_of_columns(rt: HostRuntime) -> Result<(), Fail> {
    let oids = Cells::oids(rt.alloc(), 7, MANY)?;
    let front = oids.front(rt.alloc(), 5_000)?;
    assert!(rt; front.len() == 5_000 && front.is_dense());
    Ok(())
}

/// A column of three cells.
fn built_cells(alloc: Global) -> Result<Cells, Memory> {
    let mut cells = CellsBuilder::new(alloc);
    cells.push(alloc, Cell::Oid(1))?;
    cells.push(alloc, Cell::Oid(2))?;
    cells.push(alloc, Cell::Nil)?;
    cells.finish(alloc)
}

#[test]
fn columns_built(rt: HostRuntime) -> Result<(), Fail> {
    let few = built_cells(rt.alloc())?;
    assert!(rt; few.len() == 3 && few.bytes() == 24 && !few.rises());
    Ok(())
}
