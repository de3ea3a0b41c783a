//! Changes of a store. A statement that is no query is checked, done on shared columns, and
//! prepared, so that the store can then be changed without failing.
//!
//! It builds on `table_store`, which knows no SQL, on `sql_check` for the refusals by the tables,
//! and on `change_plans` and `sql_changes` for what a change does to the rows of its table. It also
//! builds on `mal_exec`: DELETE and UPDATE run their optimised plans over the store's columns.
#![tactic(auto)]

mod define;
mod flags;
mod headings;
mod insert;
mod outcome;
mod preparing;
mod rewrite;
mod schema;

pub use outcome::{Outcome, Ready};
pub use preparing::prepare;
pub use schema::schema_of;
