//! The texts of cells and days: written (`write_cell`) and, for days, read (`read_day`).
//! `is_printed_day` says which days have a date to write.
//!
//! They are defined in `cell_core/specs`: `CellText` and `Day`. Days use the calendar of `jiff`.
//! This is a crate of its own, so that crates which only compute with cells are proved without a
//! calendar.
#![tactic(auto)]

mod day;
mod text;

pub use day::{days_read_as_printed, is_printed_day, read_day};
pub use text::write_cell;
