//! The tables of a store without their rows.
ghost use Rattle.std.specs.Prelude.{◌≡◌, map, IfOk};
ghost use Rattle.sql_definitions.specs.Sources.{schema_of as schema_seen};
ghost use Rattle.store_changes.specs.Schemas.{source_in};

use cell_core::{Memory, Sequence, copy_columns};
use sql_definitions::{Schema, Source};
use std::alloc::Global;
use table_store::{Heading, Store};

/// A table without its rows, as the check has it.
fn source_of(alloc: Global, heading: &Heading) -> Result<Source, Memory>
    ensures { IfOk result (λ source. source ≡ source_in heading.now) }
{
    let columns = copy_columns(alloc, heading.columns.as_slice())?;
    Ok(Source {
        table: heading.name.share()?,
        columns,
    })
}

/// The tables without their rows, as the check has them.
fn sources_of(alloc: Global, headings: &[Heading]) -> Result<Sequence<Source>, Memory>
    ensures { IfOk result (λ sources. sources ≡ map source_in headings.now) }
{
    let mut sources = Sequence::new(alloc);
    let mut rest = headings;
    'headings: while let [heading, more @ ..] = rest {
        sources.push(source_of(alloc, heading)?)?;
        rest = more;
    }
    Ok(sources)
}

/// The tables of a store without their rows, as the check has them.
#[tactic(auto, using(crate::proofs::SourceLemmas::sources_are))]
pub fn schema_of(alloc: Global, store: &Store) -> Result<Schema, Memory>
    ensures { IfOk result (λ schema. schema ≡ schema_seen store.now.db) }
{
    let tables = sources_of(alloc, store.schema())?;
    Ok(Schema { tables })
}
