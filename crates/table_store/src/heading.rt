//! Tables without their rows.
use cell_core::{Column, Sequence, Word};

/// A table without its rows.
pub struct Heading {
    /// The table's name.
    pub name: Word,
    /// Its columns, in order.
    pub columns: Sequence<Column>,
}

// By a call of its own, so that proofs needn't go through its forms where one is dropped.
impl Drop for Heading {
    fn drop(self) {
        let Heading {
            name: _,
            columns: _,
        } = self;
    }
}
