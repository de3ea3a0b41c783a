//! Tests of the program as one call: scripts and their output, worked sessions with their pool and
//! log, statuses, the work that is counted, and memory that runs out after any call of the kernel;
//! faults at each call of the source and the sink, scripts that are cut off at each byte, the largest
//! inputs and the smallest pools. `run_by` runs the program for tests above, too, and `await_count` is
//! how their kernels wait.
#![tactic(auto)]

mod kernels;
#[cfg(test)]
mod tests;

pub use kernels::{NamedText, ProgramRun, await_count, run_by};
