//! Groups of equal cells, and aggregates over them.
//!
//! It uses `cell_core` for cells and for the definition of each operator, `bat_core` for BATs, and
//! `cell_calc` for aggregates that take one cell after another. Each of its operators computes its
//! definition exactly, in one pass over the parts of its columns with a hash table of what was
//! seen, and with its stated work. Parts of numbers are taken as numbers: an aggregate by a loop
//! over them, groups of ints and of days by keys of a number or two, and groups that are oids from
//! 0 on by no hash at all. A group has a number by its first occurrence, and Nil is the same as Nil
//! there.
#![tactic(auto)]

mod both;
mod each;
mod firsts;
mod group_totals;
mod grouping;
mod heads;
mod key_cells;
mod key_pairs;
mod keys;
mod numbered;
mod numbers;
mod parts;
mod subtotals;
mod totals;

pub use grouping::{group_derive, group_heads, group_new};
pub use subtotals::{subcount, submax, submin, subsum};
pub use totals::{count, max, min, sum};
