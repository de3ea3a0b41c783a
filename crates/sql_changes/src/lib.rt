//! The plain programs of what SQL changes: what a statement does to a database, in place (`change`)
//! or on a copy (`slow_effect`).
//!
//! It builds on `sql_definitions`, whose definition of the effect it computes exactly, and on
//! `row_values` for values, conditions and the cells that a column refuses. A change of a table is
//! first planned, over rows that are lent, and then carried out: all memory is taken before the
//! table changes. INSERT leaves the old rows where they are, DELETE moves those that stay, and
//! UPDATE makes new rows only where its condition is true. ALTER makes the rows of its table anew.
//!
//! What is decided without the rows of a table has calls of its own, for a store that keeps no
//! rows: the rows that an INSERT adds (`rows_to_add`), and why a column isn't added
//! (`why_not_added`).
#![tactic(auto)]

mod alter;
mod carry;
mod copy;
mod delete;
mod effect;
mod fate;
mod fault;
mod hits;
mod insert;
mod plan;
mod update;

pub use alter::why_not_added;
pub use effect::{change, slow_effect};
pub use insert::{AddedRows, rows_to_add};
