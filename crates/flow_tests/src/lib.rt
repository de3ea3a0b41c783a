//! Plans over a database without tables, run by `dataflow` for its tests.
//!
//! It builds on `dataflow`, on `mal_check` for the fault of a plan and the law that instructions
//! fit in any order, and on `bat_kernel` for the tests. `PlanRun` is the plainest `Jobs`: a checked
//! plan with the values of its instructions. Each bind has its value from the beginning, the empty
//! column.
#![tactic(auto)]

mod args;
#[cfg(test)]
mod gate;
#[cfg(test)]
mod plans;
#[cfg(test)]
mod ready_tests;
mod run;
#[cfg(test)]
mod tests;

pub use run::PlanRun;
