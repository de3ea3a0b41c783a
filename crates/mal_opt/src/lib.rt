//! Optimisers of plans: constants are folded, equal instructions shared, and dead ones dropped.
//!
//! It uses `mal_meaning` and `mal_check`, which say what a plan means and when it has no fault.
//! Each optimiser makes exactly the plan that its definition says. That plan means the same over
//! every database, overflow included, has no fault and fits wherever the given plan fits. An
//! optimiser takes about as many steps as the plan has instructions and arguments: equal
//! instructions are found by a hash, and live ones by one pass from the back.
#![tactic(auto)]

mod constant;
mod laws;
mod living;
mod optimisers;
mod renaming;
mod steps;
mod term;

pub use laws::alive_instructions_lead;
pub use optimisers::{drop_dead, fold_constants, optimise, share_terms};
