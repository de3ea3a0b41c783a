//! Which pooled selections contain a selection, and which cover it together.
//!
//! It builds on `cell_core` for cuts and spans. `within` says when one span lies in another.
//! `cover` cuts a target into pieces, each from the span that reaches farthest, exactly where the
//! spans cover it. `CutIndex` keeps spans in order by what they select from. It finds those of one
//! parent by halves, in steps that are counted.
#![tactic(auto)]

mod index;
mod item;
mod pieces;

pub use index::CutIndex;
pub use item::CutItem;
pub use pieces::{cover, cuttings_are_functions, cuttings_are_partitions, pieces_follow, within};
