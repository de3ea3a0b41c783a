use cell_core::{Cell, Sequence, Word};
use sql_definitions::Refusal;

/// What is decided of a DELETE or an UPDATE.
#[derive(Drop)]
pub enum Decided {
    /// It is refused.
    Refused(Refusal),
    /// Rows are deleted.
    Gone {
        /// Their places in the table, counted from 0, in order.
        places: Sequence<u64>,
    },
    /// Rows get new cells.
    Set {
        /// The names of the columns that are set.
        columns: Sequence<Word>,
        /// The places of the rows in the table, counted from 0, in order.
        places: Sequence<u64>,
        /// For each of these rows its new cells, one for each of the columns.
        cells: Sequence<Sequence<Cell>>,
    },
}
