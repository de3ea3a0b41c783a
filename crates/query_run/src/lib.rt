//! A query that runs its plan over the pool, instruction by instruction.
//!
//! A `RunningQuery` has a snapshot of the tables and the results so far, by the numbers of their
//! instructions. It asks the pool for the result of each marked instruction. A result that the pool
//! doesn't have is computed, from a pooled one or by the kernel, and offered. `Step` is a query's
//! state, and `Step::outside` goes through the plan in order. `specs/Queries` defines the facts of
//! each step: whatever is reused, a result is the value of its instruction over the snapshot.
#![tactic(auto)]

mod outside;
mod query;
mod ready;
mod reuse;
mod step;
mod turns;

pub use query::overflow;
pub use step::{Offer, RunningQuery, Step};
