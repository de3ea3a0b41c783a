//! Whether a statement is accepted over a schema, and if not, its refusal.
//!
//! It builds on `sql_definitions`, whose definition of the check `check` computes exactly: the first
//! of a statement's refusals, in their order, or the statement with the tables that it names.
//! `refusal_of` returns the refusal alone, and `typed_over` the statement with its tables, where it
//! is known to be accepted. The only other answer is that memory ran out. Kinds are those of
//! `cell_calc`. Each part is looked at once.
#![tactic(auto)]

mod accept;
mod changes;
mod error;
mod grouped;
mod keys;
mod kinds;
mod names;
mod query;
mod references;

pub use accept::{check, refusal_of, typed_over};
pub use error::CheckError;
