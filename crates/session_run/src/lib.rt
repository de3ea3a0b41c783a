//! Sessions: each runs the statements of one script over the book that all share, event by event.
//!
//! A `Session` computes by itself up to its next event (`outside`) and then does that event
//! (`inside`). `specs/Turns` defines that event after any log: a query begins, asks the pool for
//! the result of each marked instruction, offers the results that the pool didn't have, and ends;
//! any other statement is one event. `specs/Kept` defines what a session knows; it stays true while
//! others do their events.
#![tactic(auto)]

mod go_on;
mod session;
mod stage;
mod start;

pub use session::Session;
pub use stage::Stage;
