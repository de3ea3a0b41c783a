use cell_core::{Column, Sequence, Word};

/// A table without its rows.
pub struct Source {
    /// The table's name.
    pub table: Word,
    /// Its columns, in order.
    pub columns: Sequence<Column>,
}

// By a call of its own, so that proofs needn't go through its forms where one is dropped.
impl Drop for Source {
    fn drop(self) {
        let Source {
            table: _,
            columns: _,
        } = self;
    }
}

/// The tables that a statement is checked over.
#[derive(Drop)]
pub struct Schema {
    /// The tables, whose names differ.
    pub tables: Sequence<Source>,
}
