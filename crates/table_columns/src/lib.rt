//! One table's rows, kept as columns.
//!
//! It is below SQL: a table here has rows of a fixed number of cells, whose meaning it doesn't
//! know. `TableColumns` holds a BAT for each column, on the oids from 0, and a version beside each.
//! Contracts see the rows. A table that is made from an old `TableColumns` shares its columns, so it costs
//! as much as there are columns and new cells.
#![tactic(auto)]

mod grow;
mod kept;
mod parts;
mod rows;
mod set;
mod shrink;
mod stamp;

pub use grow::cells_at;
pub use kept::TableColumns;
