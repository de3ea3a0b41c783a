//! The laws by which a pooled result serves another query, or a later one.
//!
//! They build on `cell_core` for what operators mean, on `lineage_key` for the spans of bounds and on
//! `subsume` for pieces. The public calls state laws and run nothing.
//!
//! **Selections.** A selection keeps what lies in its span. One that is selected from a containing
//! selection is the plain one. So is what the selections of a cover's pieces make, merged by their heads,
//! order included.
//!
//! **Growth.** Over BATs that have grown at their end, an operator returns its old result, followed by
//! what is new. This holds of selections, reverses, mirrors, projections and marks; of a join whose left
//! side grows, or whose right side grows by rows that nothing on the left meets; and of a calculation
//! over BATs that had one length. So a pooled result takes in new rows by work on these alone.
#![tactic(auto)]

mod growth;
mod selections;

pub use growth::{bats_grow, calculations_grow, joins_grow};
pub use selections::{bounds_are_spans, selections_across, selections_within};
