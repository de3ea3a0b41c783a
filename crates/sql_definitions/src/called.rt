ghost use Rattle.std.specs.Prelude.{◌≡◌, [], ◌∷◌};
ghost use Rattle.std.specs.Option.{option_copied, option_map_or};
ghost use Rattle.sql_definitions.specs.Sources.{means, places_in, places, place_of};
ghost use Rattle.sql_definitions.specs.Found.{found_of, joined};

use cell_core::{Column, Sequence, Word};
use std::marker::Model;

/// A table as a statement calls it. Contracts see its name there and its columns.
#[derive(Drop)]
pub struct Called<'a> {
    name: &'a Word,
    columns: &'a Sequence<Column>,
}

impl<'a> Model for Called<'a> {
    ghost use Rattle.sql_definitions.specs.Sources.{NamedSource};

    ghost Value = { NamedSource };

    ghost view = { λ called. record { name = called.name.now; columns = called.columns.now } };
}

/// How many columns a reference may mean.
#[derive(Clone, Copy, PartialEq, Eq)]
pub enum Resolved {
    /// None.
    Nowhere,
    /// One: the table's number and the column's, from 0.
    At(usize, usize),
    /// Two or more.
    Twice,
}

impl Resolved {
    /// What is found with one more place.
    fn with(self, table: usize, column: usize) -> Resolved
        ensures { result ≡ joined self ((table, column) ∷ []) }
    {
        match self {
            Resolved::Nowhere => Resolved::At(table, column),
            Resolved::At(_, _) | Resolved::Twice => Resolved::Twice,
        }
    }
}

impl<'a> Called<'a> {
    /// A table under a name.
    pub fn new(name: &'a Word, columns: &'a Sequence<Column>) -> Called<'a>
        ensures name { result.name ≡ name.now }
        ensures columns { result.columns ≡ columns.now }
    {
        Called { name, columns }
    }

    /// The columns.
    pub fn columns(&self) -> &'a [Column]
        ensures { result.now ≡ self.now.columns }
    {
        self.columns.as_slice()
    }

    /// The name by which the statement calls the table.
    pub fn name(&self) -> &'a Word
        ensures { result.now ≡ self.now.name }
    {
        self.name
    }

    /// Whether a reference may mean a column of the table.
    fn has(&self, table: Option<&Word>, name: &Word, column: &Column) -> bool
        ensures { result ≡ means (record { table = option_copied table.entry; column = name.now }) self.now column.now }
    {
        let is_here = match table {
            None => true,
            Some(table) => *table == *self.name,
        };
        is_here && *name == column.name
    }

    /// What is found after the columns of this table are looked at too.
    #[tactic(auto, using(crate::proofs::FoundLemmas::joined_one))]
    pub(crate) fn find_in(
        &self,
        so_far: Resolved,
        number: usize,
        table: Option<&Word>,
        name: &Word,
    ) -> Resolved
        ensures { result ≡ joined so_far (places_in (record { table = option_copied table.entry; column = name.now }) (number, self.now)) }
    {
        let mut found = so_far;
        let mut place = 0;
        let mut rest = self.columns();
        'columns: while let [column, more @ ..] = rest {
            if self.has(table, name, column) {
                found = found.with(number, place);
            }
            place += 1;
            rest = more;
        }
        found
    }
}

/// The columns that a reference may mean, of the tables that a statement names.
#[tactic(auto, using(crate::proofs::FoundLemmas::joined_more))]
pub fn find_column(sources: &[Called<'_>], table: Option<&Word>, name: &Word) -> Resolved
    ensures { result ≡ found_of (places sources.now (record { table = option_copied table.entry; column = name.now })) }
{
    let mut found = Resolved::Nowhere;
    let mut number = 0;
    let mut rest = sources;
    'sources: while let [source, more @ ..] = rest {
        found = source.find_in(found, number, table, name);
        number += 1;
        rest = more;
    }
    found
}

/// The place of the column that a reference means, where it may mean only one: the table's number
/// and the column's, from 0.
#[tactic(auto, using(crate::proofs::FoundLemmas::only_is))]
pub fn column_place(
    sources: &[Called<'_>],
    table: Option<&Word>,
    name: &Word,
) -> Option<(usize, usize)>
    ensures { result ≡ place_of sources.now (record { table = option_copied table.entry; column = name.now }) }
{
    match find_column(sources, table, name) {
        Resolved::At(source, column) => Some((source, column)),
        Resolved::Nowhere | Resolved::Twice => None,
    }
}
