//! The tables of a run, kept as columns.
//!
//! It is below SQL and uses `table_columns`: a database here is a list of named tables with
//! columns, rows, and a version for each column. `Store` is the present one, `Snap` the one of an
//! earlier moment. A `Change` is prepared first and then applied, which can't fail.
#![tactic(auto)]

mod change;
mod changed;
mod heading;
mod store;
mod tables;
mod touched;

pub use change::Change;
pub use heading::Heading;
pub use store::{Snap, Store};
