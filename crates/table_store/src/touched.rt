//! The columns that a change touches.
ghost use Rattle.std.specs.Prelude.{◌≡◌, [], ◌∷◌, map, None, IfOk};
ghost use Rattle.table_columns.specs.Changed.{NewCells};

use bat_core::Cells;
use cell_core::{Memory, Sequence, Word};
use pool_policy::Touched;
use std::alloc::Global;

/// `Touched` for these columns of a table.
pub(crate) fn touch(table: &Word, columns: Sequence<Word>, old_rows: u64) -> Result<Touched, Memory>
    ensures { IfOk result (λ touched. touched ≡ record { table = table.now; columns = columns; old_rows = old_rows; added = None }) }
{
    Ok(Touched {
        table: table.share()?,
        columns,
        old_rows,
        added: None,
    })
}

/// A list of one name.
pub(crate) fn one_name(alloc: Global, name: &Word) -> Result<Sequence<Word>, Memory>
    ensures { IfOk result (λ names. names ≡ name.now ∷ []) }
{
    let mut names = Vec::new(alloc);
    names.push(name.share()?)?;
    Ok(Sequence::from_vec(names))
}

/// The names of the columns that are set.
pub(crate) fn set_names(alloc: Global, sets: &[(Word, Cells)]) -> Result<Sequence<Word>, Memory>
    ensures { IfOk result (λ names. names ≡ map (λ (set : NewCells). set.0) sets.now) }
{
    let mut names = Vec::with_capacity(alloc, sets.len())?;
    let mut rest = sets;
    'sets: while let [set, more @ ..] = rest {
        names.push(set.0.share()?)?;
        rest = more;
    }
    Ok(Sequence::from_vec(names))
}
