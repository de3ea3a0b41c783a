//! The machine that runs the operators of plans.
//!
//! It uses the crates that compute the operators: `bat_algebra`, `bat_calc`, `bat_group` and
//! `bat_join`. It fulfils the contract of `bat_core::Operate`: the value of each operator on
//! arguments that fit it, with exactly its stated work.
#![tactic(auto)]

mod arguments;
mod kernel;
mod value;

pub use kernel::Kernel;
