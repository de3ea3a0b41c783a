//! The tables of FROM in a database.
ghost use Rattle.std.specs.Prelude.{◌≡◌, map, IfOk};
ghost use Rattle.sql_definitions.specs.Sources.{source_of, rows_of, from_tables as from_tables_of};

use cell_core::{Cell, Db, Memory, Sequence, Table, Word};
use sql_definitions::{Called, from_name};
use sql_tree::FromItem;
use std::alloc::Global;
use std::marker::Model;

/// A table as a statement calls it, lent. Contracts see its name there and the table.
#[derive(Drop)]
pub(crate) struct CalledTable<'a> {
    name: &'a Word,
    table: &'a Table,
}

impl<'a> Model for CalledTable<'a> {
    ghost use Rattle.sql_definitions.specs.Sources.{NamedTable};

    ghost Value = { NamedTable };

    ghost view = { λ named. record { name = named.name.now; table = named.table.now } };
}

impl<'a> CalledTable<'a> {
    pub(crate) fn new(name: &'a Word, table: &'a Table) -> CalledTable<'a>
        ensures name { result.name ≡ name.now }
        ensures table { result.table ≡ table.now }
    {
        CalledTable { name, table }
    }

    /// The table without its rows.
    fn called(&self) -> Called<'a>
        ensures { result ≡ source_of self.now }
    {
        Called::new(self.name, &self.table.columns)
    }

    /// The rows.
    pub(crate) fn rows(&self) -> &'a [Sequence<Cell>]
        ensures { result.now ≡ rows_of self.now }
    {
        self.table.rows.as_slice()
    }
}

/// The tables of FROM, under their FROM names.
pub(crate) fn from_tables<'a>(
    alloc: Global,
    froms: &'a [FromItem],
    db: &'a Db,
) -> Result<Vec<CalledTable<'a>>, Memory>
    ensures { IfOk result (λ tables. tables.items ≡ from_tables_of froms.now db.now) }
{
    let mut tables = Vec::new(alloc);
    let mut rest = froms;
    'froms: while let [from, more @ ..] = rest {
        if let Some(table) = db.table(&from.table) {
            tables.push(CalledTable::new(from_name(from), table))?;
        }
        rest = more;
    }
    Ok(tables)
}

/// The tables without their rows.
pub(crate) fn called_all<'a>(
    alloc: Global,
    tables: &[CalledTable<'a>],
) -> Result<Vec<Called<'a>>, Memory>
    ensures { IfOk result (λ sources. sources.items ≡ map source_of tables.now) }
{
    let mut sources = Vec::with_capacity(alloc, tables.len())?;
    let mut rest = tables;
    'tables: while let [table, more @ ..] = rest {
        sources.push(table.called())?;
        rest = more;
    }
    Ok(sources)
}
