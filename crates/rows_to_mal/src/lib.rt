//! The rows that a query, a DELETE or an UPDATE keeps, as instructions of a plan.
//!
//! The translation is a pure definition, phrase by phrase (`specs/Candidates` to `specs/Rows`): the
//! candidates of each table by its column conditions, the tables side by side by links or as a
//! cross product, and then all other conjuncts. `specs/Laws` says what it means. Its instructions
//! compute a BAT for each table, whose tails are the oids of the rows in the choices that the
//! condition keeps, in order; and the plan of a change returns their oids and new cells
//! (`specs/Writes`). The proofs find what is known after each phrase, an overflow included, by the
//! machine of `mal_emit` and the list laws of `pick_laws`.
#![tactic(auto)]

mod candidates;
mod compile;
mod conditions;
mod joins;
mod laws;
mod parts;
mod reading;
mod rows;
mod tables;

pub use compile::{Rows, called_in_from, called_tables, compile_rows, compile_write};
pub use conditions::{comparison, is_cond_alone};
pub use joins::{all_rows, constant, spread_rows};
pub use laws::{
    numbers_are_choices, statements_keep_rows, updates_overflow, write_plans_run, writes_are_meant,
};
pub use tables::{Tables, is_alone};
