//! Plans: what a plan is, what it means over a database, and how much work it is.
//!
//! It uses `cell_core`, whose operators say what one instruction returns, and `cell_calc` for the
//! functions and aggregates of cells. A plan's meaning is the list of its instructions' values,
//! each from those before it, and the rows that its output makes of them; an overflow anywhere is
//! an overflow of the plan. `slow_run` is the plain program whose contract is that meaning.
#![tactic(auto)]

mod calc;
mod columns;
mod groups;
mod operate;
mod output;
mod plan;
mod relations;
mod slow;

pub use output::arrange;
pub use plan::{Out, Plan, equal_plans_are_the_same};
pub use slow::slow_run;
