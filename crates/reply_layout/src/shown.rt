use cell_core::{Cell, Sequence};
use sql_definitions::Refusal;

/// The reply to one statement.
pub enum Shown {
    /// Done.
    Done,
    /// Done, with the number of rows inserted, deleted or updated.
    Count(u64),
    /// The rows of a query, in the order in which they are printed.
    Rows(Sequence<Sequence<Cell>>),
    /// The text of a plan, of which each line ends with LF.
    Mal(Sequence<u8>),
    /// Refused.
    Refused(Refusal),
}

// By a call of its own, so that proofs needn't go through its forms where one is dropped.
impl Drop for Shown {
    fn drop(self) {
        match self {
            Shown::Done | Shown::Count(_) | Shown::Rows(_) | Shown::Mal(_) | Shown::Refused(_) => {}
        }
    }
}
