//! The columns of a table by their names.
ghost use Rattle.std.specs.Prelude.{◌≡◌, filter_map, IfOk};
ghost use Rattle.std.specs.Option.{option_copied};
ghost use Rattle.sql_definitions.specs.Check.{column_named as column_named_of, targets as targets_of};

use cell_core::{Column, Memory, Sequence, Word, copy_columns};
use std::alloc::Global;

/// The column with this name.
pub fn column_named<'a>(columns: &'a [Column], name: &Word) -> Option<&'a Column>
    ensures column { option_copied result ≡ column_named_of columns.now name.now }
{
    let mut rest = columns;
    'columns: while let [column, more @ ..] = rest {
        if column.name == *name {
            return Some(column);
        }
        rest = more;
    }
    None
}

/// Those columns with these names that exist.
fn listed_columns(
    alloc: Global,
    columns: &[Column],
    listed: &[Word],
) -> Result<Sequence<Column>, Memory>
    ensures { IfOk result (λ found. found ≡ filter_map (column_named_of columns.now) listed.now) }
{
    let mut found = Sequence::new(alloc);
    let mut rest = listed;
    'names: while let [name, more @ ..] = rest {
        if let Some(column) = column_named(columns, name) {
            found.push(column.share()?)?;
        }
        rest = more;
    }
    Ok(found)
}

/// The columns that the values of a row go to, in the order of the values: those that are listed,
/// or all of them where none is. A name without a column is left out.
pub fn targets(
    alloc: Global,
    columns: &[Column],
    listed: &[Word],
) -> Result<Sequence<Column>, Memory>
    ensures columns { IfOk result (λ found. found ≡ targets_of columns.now listed.now) }
{
    if listed.is_empty() {
        copy_columns(alloc, columns)
    } else {
        listed_columns(alloc, columns, listed)
    }
}
