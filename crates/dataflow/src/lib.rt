//! Operators of plans run by many threads.
//!
//! It builds on `bat_core` for values and the machine that runs operators, on `mal_meaning` for
//! what a plan means, and on `cell_core` for operators. It uses two queues of `crossbeam_queue`
//! under a rule, and `Backoff` of `crossbeam_utils` before a full queue.
//!
//! `run_ready` runs jobs that are all ready, and promises each job's value, in the order of the
//! jobs. `flow` runs the instructions of a plan as soon as their arguments have values. A `Jobs`
//! says what is ready, and takes the values. `flow` promises that each instruction then has the
//! value that the plan computes for it, and `Overflow` exactly where one that was handed out has
//! none, for every number of workers. `docs/threads.md` states the rule of the queues and its six
//! steps. Nothing is promised of progress: a call that waits need not return.
//! progress: a call that waits owes no return.
#![tactic(auto)]

mod alone;
mod basis;
mod bells;
mod jobs;
mod lead;
mod pending;
mod queues;
mod ready;
mod rules;
mod run;
mod task;
mod team;
mod workers;

pub use basis::Basis;
pub use jobs::Jobs;
pub use ready::{Job, run_ready};
pub use run::flow;
pub use task::Task;
