//! Prepared changes.
ghost use Rattle.std.specs.Prelude.{◌≡◌};

use crate::tables::StoredTables;
use pool_policy::Touched;
use std::marker::Model;

/// A prepared change: it has all its memory, and the content after it is computed. Contracts see
/// that content, and what the change touches.
#[derive(Drop)]
pub struct Change {
    pub(crate) tables: StoredTables,
    pub(crate) touched: Touched,
}

impl Model for Change {
    ghost use Rattle.table_store.specs.Changes.{Prepared};

    ghost Value = { Prepared };

    ghost view = { λ c. record { content = c.tables; touched = c.touched } };
}

impl Change {
    /// What the change touches.
    pub fn touched(&self) -> &Touched
        ensures { result.now ≡ self.now.touched }
    {
        &self.touched
    }
}
