//! The rows of a table.
ghost use Rattle.std.specs.Prelude.{◌≡◌, ◌<◌, ◌+◌, ◌++◌, List, [], ◌∷◌, length, map, replicate, IfOk};
ghost use Rattle.cell_core.specs.declared.cell.Cell.{Cell as CellSeen};
ghost use Rattle.cell_core.specs.Pairs.{numbered};
ghost use Rattle.cell_core.specs.Relations.{column_cells};
ghost use Rattle.table_columns.specs.Rows.{AreWide, stamped};
ghost use Rattle.table_columns.specs.Changed.{set_rows, unflagged};

use crate::grow::followed_columns;
use crate::parts::{
    columns_and, copy_versions, empty_columns, share_at, share_columns, versions_and_zero, zeros,
};
use crate::rows::rows_of;
use crate::set::changed_columns;
use crate::shrink::{count_left, left_columns};
use crate::stamp::stamp_versions;
use bat_core::{Cells, Shared};
use cell_core::{Cell, Column, Memory, Sequence, Word};
use std::alloc::Global;
use std::marker::Model;

/// The rows of a table as columns, each a BAT whose heads are the oids from 0, and beside each
/// column its version. Contracts see the rows.
pub struct TableColumns {
    columns: Vec<Shared>,
    versions: Vec<u64>,
    count: u64,
}

// By a call of its own, so that proofs needn't go through its forms where one is dropped.
impl Drop for TableColumns {
    fn drop(self) {
        let TableColumns {
            columns: _,
            versions: _,
            count: _,
        } = self;
    }
}

impl Model for TableColumns {
    ghost use Rattle.table_columns.specs.Rows.{KeptTable, AreColumns, kept_from};

    ghost Value = { KeptTable };

    ghost view = { λ k. kept_from k.count k.columns.items k.versions.items };

    ghost invariant = { λ k. AreColumns k.count k.columns.items k.versions.items };
}

impl TableColumns {
    /// That many columns, and no rows. Each column has the version 0.
    pub fn new(alloc: Global, width: usize) -> Result<TableColumns, Memory>
        ensures { IfOk result (λ kept. kept ≡ record { width = width; rows = []; versions = replicate width 0 }) }
    {
        let columns = empty_columns(alloc, width)?;
        let versions = zeros(alloc, width)?;
        Ok(TableColumns {
            columns,
            versions,
            count: 0,
        })
    }

    /// How many rows there are.
    pub fn count(&self) -> u64
        ensures { result ≡ length self.now.rows }
    {
        self.count
    }

    /// The versions of the columns.
    pub fn versions(&self) -> &[u64]
        ensures versions { result.now ≡ self.now.versions }
        ensures beside { length self.now.versions ≡ self.now.width }
        ensures wide { AreWide self.now.width self.now.rows }
    {
        &self.versions
    }

    /// A column, each cell beside the number of its row, without a copy.
    pub fn column(&self, place: usize) -> Result<Shared, Memory>
        requires { place < self.now.width }
        ensures { IfOk result (λ column. column ≡ numbered (column_cells place self.now.rows)) }
    {
        share_at(&self.columns, place)
    }

    /// The rows, as a new list.
    pub fn rows(&self, alloc: Global) -> Result<Sequence<Sequence<Cell>>, Memory>
        ensures { IfOk result (λ rows. rows ≡ self.now.rows) }
    {
        rows_of(alloc, &self.columns, self.count)
    }

    /// The same rows, in columns that both share.
    pub fn share(&self, alloc: Global) -> Result<TableColumns, Memory>
        ensures { IfOk result (λ kept. kept ≡ self.now) }
    {
        Ok(TableColumns {
            columns: share_columns(alloc, &self.columns)?,
            versions: copy_versions(alloc, &self.versions)?,
            count: self.count,
        })
    }

    /// The same rows, in columns that both share, and at the end of each row one more cell. Its
    /// column has the version 0.
    pub fn with_column(&self, alloc: Global, cell: &Cell) -> Result<TableColumns, Memory>
        ensures { IfOk result (λ kept. kept ≡ record { width = self.now.width + 1; rows = map (λ (row : List CellSeen). row ++ cell.now ∷ []) self.now.rows; versions = self.now.versions ++ 0 ∷ [] }) }
    {
        Ok(TableColumns {
            columns: columns_and(alloc, &self.columns, cell, self.count)?,
            versions: versions_and_zero(alloc, &self.versions)?,
            count: self.count,
        })
    }

    /// The same rows, followed by more. The full chunks of the columns are shared.
    pub fn followed_by(
        &self,
        alloc: Global,
        rows: &[Sequence<Cell>],
    ) -> Result<TableColumns, Memory>
        requires { AreWide self.now.width rows.now }
        ensures { IfOk result (λ kept. kept ≡ record self.now { rows = self.now.rows ++ rows.now }) }
    {
        let Some(count) = self.count.checked_add(rows.len() as u64) else {
            return Err(Memory);
        };
        Ok(TableColumns {
            columns: followed_columns(alloc, &self.columns, rows)?,
            versions: copy_versions(alloc, &self.versions)?,
            count,
        })
    }

    /// The rows without a flag.
    pub fn without(&self, alloc: Global, gone: &[bool]) -> Result<TableColumns, Memory>
        requires { length gone.now ≡ length self.now.rows }
        ensures { IfOk result (λ kept. kept ≡ record self.now { rows = unflagged gone.now self.now.rows }) }
    {
        Ok(TableColumns {
            columns: left_columns(alloc, &self.columns, gone)?,
            versions: copy_versions(alloc, &self.versions)?,
            count: count_left(gone) as u64,
        })
    }

    /// The same rows, but those with a flag have other cells in the columns that are set: the first
    /// with a flag has the first cell of each set, and so on. Columns that aren't set are shared.
    pub fn with_cells(
        &self,
        alloc: Global,
        columns: &[Column],
        hits: &[bool],
        sets: &[(Word, Cells)],
    ) -> Result<TableColumns, Memory>
        requires columns { length columns.now ≡ self.now.width }
        requires hits { length hits.now ≡ length self.now.rows }
        ensures { IfOk result (λ kept. kept ≡ record self.now { rows = set_rows sets.now columns.now 0 hits.now self.now.rows }) }
    {
        Ok(TableColumns {
            columns: changed_columns(alloc, &self.columns, columns, hits, sets)?,
            versions: copy_versions(alloc, &self.versions)?,
            count: self.count,
        })
    }

    /// Sets the version of the columns with one of these names. It takes no memory.
    pub fn stamp(&mut self, columns: &[Column], names: &[Word], version: u64)
        requires { length columns.now ≡ self.old.width }
        ensures { self.new ≡ record self.old { versions = stamped names.now version columns.now self.old.versions } }
    {
        stamp_versions(columns, &mut self.versions, names, version);
    }
}
