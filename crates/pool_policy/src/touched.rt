use bat_core::Shared;
use cell_core::{Sequence, Word};

/// What an accepted write touched.
pub struct Touched {
    /// The table.
    pub table: Word,
    /// Those of its columns whose cells have changed: all, or those that an UPDATE sets or an ALTER
    /// adds.
    pub columns: Sequence<Word>,
    /// How many rows the table had before.
    pub old_rows: u64,
    /// Where the write only added rows, each column with its name, old rows and new ones together.
    pub added: Option<Sequence<(Word, Shared)>>,
}

// By a call of its own, so that proofs needn't go through its forms where one is dropped.
impl Drop for Touched {
    fn drop(self) {
        let Touched {
            table: _,
            columns: _,
            old_rows: _,
            added: _,
        } = self;
    }
}
