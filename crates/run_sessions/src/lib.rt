//! A run of sessions on one thread.
//!
//! `play_sessions` runs a session for each script, event by event, in the order of a schedule: at
//! each turn one session does its next event, if it has one left. After the last turn the sessions
//! run to their ends, from the first to the last. `specs/Played` defines the log. Each session's
//! text is the replies to its statements over that log, in which each statement occurs once and in
//! its order (`specs/Ordered`). The totals are those of the log, and the counter of steps rises by
//! their work.
#![tactic(auto)]

mod finish;
mod replay;
mod turn;

pub use finish::{Run, finish_run};
pub use replay::play_sessions;
