//! Reading a schedule: text with the number of one session a line.
//!
//! `Memory` is from `cell_core`, and numbers are from `text_bytes`. `specs/Schedule.antt` defines
//! the lines of a text, the session that a line numbers, and the schedule: its turns, or the number
//! of the first bad line. `turns_of` returns exactly that, and each turn is one of the sessions.
#![tactic(auto)]

mod turns;

pub use turns::{ScheduleError, turns_of};
