//! DELETE and UPDATE by their plans, decided without the rows of their table.
//!
//! It builds on `rows_to_mal`, whose `compile_write` makes the plan of a change, and on
//! `sql_changes`. Its laws tie the two: over a table, the plan returns the rows of which the
//! condition is true, each by its oid and its new cells, in the order of the table
//! (`plans_give_hits`). From these alone follows what SQL says of the change. `decide` returns it
//! as data: a refusal, places of rows that are deleted, or places with new cells. Only where a plan
//! overflows are the rows of the table looked at, since a text that is too long or Nil comes first
//! (`refusal_over`).
#![tactic(auto)]

mod cells;
mod decided;
mod laws;
mod writes;

pub use decided::Decided;
pub use laws::{decisions_are_in_place, decisions_are_meant, plans_give_hits, writes_give_hits};
pub use writes::{decide, refusal_over};
