//! The program as one call, `top`: it reads scripts, runs them as sessions that share tables and a pool of
//! results, and writes the replies, the history of accepted changes, the pool's totals, and the log where it
//! is asked for.
//!
//! It builds on `command_line` for the words, on `causes` for reading and writing, on `turn_lines`
//! for the schedule, on `sample_scripts` for the scripts of `generate`, and on `answer_text` for
//! the layouts. `thread_sessions` runs sessions in threads, and `run_sessions` runs them by turns
//! on one thread. `top_by_turns` does all but a run in threads. It returns if its source, its sink
//! and its kernel do.
//!
//! The clause `served` of both is the project's headline. The log has each statement once and in
//! its session's order; under `replay` it is the log of the schedule. Each reply is the meaning of
//! its statement over the tables at its place. The totals and the work are those of the log.
#![tactic(auto)]

mod begun;
mod generate;
mod inputs;
mod numbers;
mod produce;
mod runner;
mod scripts;
mod served;
mod threaded;

pub use begun::{ByTurns, ThreadedRun, top_by_turns};
pub use run_log::{Act, Event};
pub use scripts::{
    STATUS_BAD_LINE, STATUS_MEMORY, STATUS_NOT_TEXT, STATUS_SERVED, STATUS_TOO_LONG, STATUS_UNREAD,
    STATUS_UNWRITTEN, STATUS_WORDS,
};
pub use served::{Served, top};
