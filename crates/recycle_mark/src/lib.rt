//! Which instructions of a plan a recycler looks at: the marks.
//!
//! It uses `mal_meaning` for plans. An instruction is marked where it returns a BAT and takes no
//! results but those of marked instructions. So its lineage alone determines its result: constants
//! and columns that are bound.
#![tactic(auto)]

mod bats;
mod laws;
mod marking;

pub use laws::{bats_are_typed, marks_are_by_place};
pub use marking::marks;
