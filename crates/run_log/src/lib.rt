//! The log of a run, and what it leads to.
//!
//! Each thing that a session does to what all sessions share is one event, and the log is the list
//! of them. `specs/Fold` says what a log leads to, event by event: the tables, the version of each
//! column, the pool, every id that was given out with its key and value, and the totals. Nothing
//! else is known of a run: where code keeps tables, a pool or counters, they are what the fold of
//! its log says. The laws say that this stays sound. Each pooled value is the worth of its id,
//! which never changes. Each pooled bind has the present version of its column and its present
//! cells. The pool keeps its bounds.
#![tactic(auto)]

mod event;
mod laws;
mod stmt_text;
mod totals;

pub use event::{ACCEPTED, Act, Event, FoundLog, Totals};
pub use laws::{logs_tell, steps_keep};
pub use stmt_text::StmtText;
