//! Whether a plan is well formed: which of its instructions is the first at fault, and why.
//!
//! It uses `cell_core`, which says which arguments fit an operator, `cell_calc` for kinds, and
//! `mal_meaning`, which says what a plan is. It promises that `check_plan` returns exactly a plan's
//! first fault.
#![tactic(auto)]

mod check;
mod error;
mod kinds;
mod laws;
mod output;

pub use check::check_plan;
pub use error::PlanError;
pub use laws::{checked_instrs_fit, checked_plans_run, others_have_values};
