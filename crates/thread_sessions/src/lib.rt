//! A run of sessions in threads.
//!
//! `serve_sessions` runs a session for each script, each on a thread of its own where one starts.
//! They take turns at one book, and the log is one that they could have made on one thread
//! (`specs/Runs`). The texts and the totals are those of that log. Nothing is promised of progress.
//!
//! It builds on `turn_hall`, `dataflow`, `book_core`, `session_run` and `run_sessions`. A `SharedBook` is
//! a book in a type that names its options. In a hall it stands for the events of its log.
//! `take_turn` computes a session's work outside turns and then does its next event in one turn.
//! The session's events are those of its script, in order, whatever other sessions do between, and
//! what it knows of the log stays true. The book is never lent. With more than one worker a query's
//! instructions are run as soon as their arguments are there: a `Crew` is the session meanwhile,
//! which does its looks and admissions in turns and hands other instructions out.
#![tactic(auto)]

mod crew;
mod end;
mod jobs;
mod kept;
mod query;
mod runner;
mod serve;
mod turn;

pub use kept::{HasOptions, SharedBook};
pub use serve::serve_sessions;
pub use turn::take_turn;
