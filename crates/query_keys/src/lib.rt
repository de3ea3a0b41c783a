//! What a query's instructions find in the pool, and what they may offer to it.
//!
//! A query knows the tables over which it began, the ids of its results so far, and nothing else of
//! the pool. The laws say that this is enough: what a look finds for an instruction is what the
//! instruction computes, whatever other sessions did since the query began.
#![tactic(auto)]

mod laws;

pub use laws::{found_serves, given_are_worth, instrs_run, marked_are_bats, offers_fit};
