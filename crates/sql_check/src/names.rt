//! Tables and columns by their names, and names that repeat.
ghost use Rattle.std.specs.Prelude.{◌≡◌, map, slice_get, IfOk};
ghost use Rattle.std.specs.List.{list_any};
ghost use Rattle.std.specs.Option.{option_copied};
ghost use Rattle.std.specs.Str.{bytes_eq};
ghost use Rattle.sql_definitions.specs.Sources.{source_named as source_named_of};
ghost use Rattle.sql_definitions.specs.Check.{repeated as repeated_of, names_twice, unknown_names};
ghost use Rattle.sql_check.specs.First.{first};

use cell_core::{Column, Memory, Sequence, Word};
use sql_definitions::{Refusal, Schema, Source, column_named};
use sql_tree::printed_name;
use std::alloc::Global;

/// The table of a schema with this name.
pub(crate) fn source_named<'a>(schema: &'a Schema, name: &Word) -> Option<&'a Source>
    ensures { option_copied result ≡ source_named_of name.now schema.now }
{
    let mut rest = schema.tables.as_slice();
    'tables: while let [source, more @ ..] = rest {
        if source.table == *name {
            return Some(source);
        }
        rest = more;
    }
    None
}

/// Whether the name is one of these.
fn is_among(name: &Word, names: &[Word]) -> bool
    ensures { result ≡ list_any (bytes_eq name.now) names.now }
{
    let mut rest = names;
    'names: while let [other, more @ ..] = rest {
        if *name == *other {
            return true;
        }
        rest = more;
    }
    false
}

/// The first name that repeats an earlier one.
fn repeated(names: &[Word]) -> Option<&Word>
    ensures { option_copied result ≡ slice_get (repeated_of names.now) 0 }
{
    let mut rest = names;
    let mut place = 0;
    'names: while let [name, more @ ..] = rest {
        if is_among(name, &names[..place]) {
            return Some(name);
        }
        place += 1;
        rest = more;
    }
    None
}

/// The refusal of names of which one repeats an earlier one.
pub(crate) fn name_twice(alloc: Global, names: &[Word]) -> Result<Option<Refusal>, Memory>
    ensures { IfOk result (λ refusal. refusal ≡ first (names_twice names.now)) }
{
    match repeated(names) {
        Some(name) => Ok(Some(Refusal::NameTwice(printed_name(alloc, name)?))),
        None => Ok(None),
    }
}

/// The refusal of the first name that no column has.
pub(crate) fn unknown_name(
    alloc: Global,
    columns: &[Column],
    names: &[Word],
) -> Result<Option<Refusal>, Memory>
    ensures { IfOk result (λ refusal. refusal ≡ first (unknown_names columns.now names.now)) }
{
    let mut rest = names;
    'names: while let [name, more @ ..] = rest {
        if column_named(columns, name).is_none() {
            return Ok(Some(Refusal::NoColumn(printed_name(alloc, name)?)));
        }
        rest = more;
    }
    Ok(None)
}

/// The columns' names.
pub(crate) fn column_names(alloc: Global, columns: &[Column]) -> Result<Sequence<Word>, Memory>
    ensures { IfOk result (λ names. names ≡ map (λ (column : Column). column.name) columns.now) }
{
    let mut names = Sequence::new(alloc);
    let mut rest = columns;
    'columns: while let [column, more @ ..] = rest {
        names.push(column.name.share()?)?;
        rest = more;
    }
    Ok(names)
}
