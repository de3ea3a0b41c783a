//! What is printed of a run: replies, the history of accepted changes, the pool's totals and the log.
//!
//! Events are those of `run_log`; what statements do and show is from `reply_layout`. `specs/`
//! defines which tables a statement meets at its place in a log, and every byte that is printed.
//! `write_reply`, `write_session_line`, `write_history`, `write_totals` and `write_log` append
//! exactly these bytes, or leave the text as it was.
#![tactic(auto)]

mod events;
mod history;
mod number;
mod records;
mod reply;
mod totals;

pub use events::write_log;
pub use history::write_history;
pub use reply::{write_reply, write_session_line};
pub use totals::write_totals;
