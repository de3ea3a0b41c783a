//! The rows after the old ones.
ghost use Rattle.std.specs.Prelude.{◌≡◌, IfOk, drop};
ghost use Rattle.std.specs.List.{find};
ghost use Rattle.std.specs.Option.{option_copied};
ghost use Rattle.std.specs.Str.{bytes_eq};

use bat_core::{Bat, Cells, CellsBuilder, Shared};
use cell_core::{Memory, Word};
use std::alloc::Global;

/// The cells of a column from a place on.
fn cells_after(alloc: Global, cells: &Cells, count: u64) -> Result<Cells, Memory>
    ensures { IfOk result (λ out. out ≡ drop count cells.now) }
{
    let mut out = CellsBuilder::new(alloc);
    let mut from = count.min(cells.len());
    while from < cells.len() {
        let run = cells.run(from);
        out.push_part(alloc, run)?;
        from += run.len() as u64;
    }
    out.finish(alloc)
}

/// The pairs of a BAT from a place on.
pub(crate) fn rows_behind(alloc: Global, bat: &Bat, count: u64) -> Result<Bat, Memory>
    ensures { IfOk result (λ out. out ≡ drop count bat.now) }
{
    let heads = cells_after(alloc, bat.heads(), count)?;
    let tails = cells_after(alloc, bat.tails(), count)?;
    Ok(Bat::from_columns(heads, tails))
}

/// The column with a name.
pub(crate) fn find_column<'a>(added: &'a [(Word, Shared)], name: &str) -> Option<&'a (Word, Shared)>
    ensures { option_copied result ≡ find (λ c. bytes_eq c.0 name.now) added.entry.now }
{
    let mut rest = added;
    'columns: while let [column, more @ ..] = rest {
        if column.0.text() == name {
            return Some(column);
        }
        rest = more;
    }
    None
}
