//! Which entries a pool evicts to make room, and the credits of what it may admit.
//!
//! It builds on `score_hook` for scores; its proofs cite lemmas of `subsume`. `plan_evictions`
//! lists the ids that go, by the rule: again and again the free entry without dependents that has
//! the least score, then the least id. It takes no memory. The one that goes first is found in a
//! pass (`leading`), and is mostly enough. Otherwise it takes about n log n steps for n entries.
//! Those that may go are in a contest (`contest`), and an entry that goes changes only its parents,
//! which are found by their ids. `one_order` is the law that the rule is a strict total order.
//! `Ledger` keeps the credit of each numbered shape.
#![tactic(auto)]

mod board;
mod contest;
mod laws;
mod leading;
mod ledger;
mod names;
mod plan;

pub use laws::{one_order, runs_are_functions};
pub use ledger::Ledger;
pub use plan::{MOST_ROWS, Row, plan_evictions};
