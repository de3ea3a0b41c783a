//! The kernel on arguments of a few shapes, for a table of tests.
//!
//! It builds on `bat_kernel`. A call of the kernel requires arguments that fit the operator. Here
//! that is checked at run time, so that a table can have any operator with its arguments.
#![tactic(auto)]

mod run;
mod shape;
#[cfg(test)]
mod tables;
#[cfg(test)]
mod tests;

pub use run::{run_one, run_select, run_two};
pub use shape::ArgShape;
