//! Rows by their places: flags for them, and the new cells of columns.
ghost use Rattle.std.specs.Prelude.{◌≡◌, IfOk};
ghost use Rattle.store_changes.specs.Rewrites.{flags_from, is_first as is_first_of, left_behind, sets_from};

use bat_core::Cells;
use cell_core::{Cell, Memory, Sequence, Word};
use std::alloc::Global;
use table_columns::cells_at;

/// Whether this is the first of the places.
fn is_first(places: &[u64], at: u64) -> bool
    ensures { result ≡ is_first_of at places.now }
{
    match places {
        [] => false,
        [place, ..] => *place == at,
    }
}

/// The places without this one, where it is the first of them.
fn behind(places: &[u64], at: u64) -> &[u64]
    ensures { result.now ≡ left_behind at places.now }
{
    match places {
        [] => places,
        [place, more @ ..] => { if *place == at { more } else { places } }
    }
}

/// A flag for each of so many rows: whether its place, counted from 0, is among these, which are in
/// order.
pub(crate) fn flags_of(alloc: Global, places: &[u64], count: u64) -> Result<Vec<bool>, Memory>
    ensures { IfOk result (λ flags. flags.items ≡ flags_from 0 places.now count) }
{
    let mut flags = Vec::with_capacity(alloc, count as usize)?;
    let mut rest = places;
    let mut at = 0;
    'rows: while at < count {
        flags.push(is_first(rest, at))?;
        rest = behind(rest, at);
        at += 1;
    }
    Ok(flags)
}

/// The columns that are set, by name, each with its cells from these rows of new cells.
pub(crate) fn sets_of(
    alloc: Global,
    names: &[Word],
    rows: &[Sequence<Cell>],
) -> Result<Vec<(Word, Cells)>, Memory>
    ensures { IfOk result (λ sets. sets.items ≡ sets_from 0 names.now rows.now) }
{
    let mut sets = Vec::with_capacity(alloc, names.len())?;
    let mut place = 0;
    let mut rest = names;
    'names: while let [name, more @ ..] = rest {
        sets.push((name.share()?, cells_at(alloc, rows, place)?))?;
        place += 1;
        rest = more;
    }
    Ok(sets)
}
