//! The outcome of a change.

use sql_definitions::Refusal;
use table_store::Change;

/// A change that is prepared.
#[derive(Drop)]
pub struct Ready {
    /// What the store applies.
    pub change: Change,
    /// How many rows are inserted, deleted or updated; None for CREATE, DROP and ALTER.
    pub rows: Option<u64>,
}

/// The outcome of a change.
#[derive(Drop)]
pub struct Outcome {
    /// The prepared change, or why the statement is refused.
    pub ready: Result<Ready, Refusal>,
    /// The load of the plan by which a DELETE or an UPDATE is done, in pairs of cells; 0 for other
    /// statements, for one that the check refuses, and where the plan overflows.
    pub work: u128,
}
