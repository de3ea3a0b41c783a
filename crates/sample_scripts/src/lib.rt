//! Two scripts that are made from a number: one fills a table, and one queries ranges of it.
//!
//! Words are from `cell_core`, and the layout of lists is from `sql_tree`. `specs/Scripts.antt`
//! defines how one draw follows from another, and which statements the draws after a number make.
//! By a law these are the pieces of the scripts' texts. The scripts are work for the pool, which
//! anyone can run again from the number alone.
#![tactic(auto)]

mod draws;
mod laws;
mod scripts;

pub use laws::statements_are_pieces;
pub use scripts::{SampleScripts, sample_scripts};
