//! What a change is to do to a table, before it is done.
ghost use Rattle.std.specs.Prelude.{◌≡◌, OnOk, OnErr};
ghost use Rattle.sql_changes.specs.Plans.{rows_after, touched_by};

use crate::fate::{Fate, settle, touched};
use cell_core::{Cell, Memory, Sequence, Table};
use sql_definitions::Refusal;
use std::alloc::Global;
use std::mem;

/// What is to be done to the rows of a table.
#[derive(Drop)]
pub(crate) enum Work {
    /// These rows are added.
    Adds(Sequence<Sequence<Cell>>),
    /// Each row has its fate.
    Settles(Sequence<Fate>),
}

/// What a change is to do, or why it is refused.
#[derive(Drop)]
pub(crate) enum PlannedChange {
    /// It is refused.
    Refused(Refusal),
    /// It does this.
    Accepted(Work),
}

impl Work {
    /// How many rows it touches.
    pub(crate) fn touched(&self) -> usize
        ensures { result ≡ touched_by self.now }
    {
        match self {
            Work::Adds(rows) => rows.len(),
            Work::Settles(fates) => touched(fates.as_slice()),
        }
    }
}

/// Does the work on a table. Where memory runs out the table is as it was.
pub(crate) fn rework(alloc: Global, work: Work, table: &mut Table) -> Result<(), Memory>
    ensures done { OnOk result (table.new ≡ record table.old { rows = rows_after work table.old.rows }) }
    ensures kept { OnErr result (table.new ≡ table.old) }
{
    match work {
        Work::Adds(rows) => table.rows.append(rows),
        Work::Settles(fates) => settle_table(alloc, fates, table),
    }
}

/// Replaces the rows of a table by those after their fates.
fn settle_table(alloc: Global, fates: Sequence<Fate>, table: &mut Table) -> Result<(), Memory>
    ensures done { OnOk result (table.new ≡ record table.old { rows = rows_after (Work.Settles fates) table.old.rows }) }
    ensures kept { OnErr result (table.new ≡ table.old) }
{
    let room = Vec::with_capacity(alloc, table.rows.len())?;
    let rows = mem::replace(&mut table.rows, Sequence::new(alloc)).into_vec();
    table.rows = Sequence::from_vec(settle(rows, fates.into_vec(), room));
    Ok(())
}
