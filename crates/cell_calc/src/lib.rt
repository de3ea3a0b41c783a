//! Functions and aggregates of cells, which plans over columns and the plain programs share.
//!
//! It uses `cell_core`, whose definitions say what each function returns: arithmetic, where a
//! number that leaves the signed 64-bit range is no cell, comparisons, and truth where Nil is
//! unknown. An aggregate skips Nil, and takes one cell after another or a list of them, in one
//! pass. The rules of which kinds agree are here too.
#![tactic(auto)]

mod aggregate;
mod apply;
mod function;
mod kinds;

pub use aggregate::{Aggregate, aggregate_cells};
pub use apply::{apply_one, apply_two};
pub use function::{
    both, difference, either, has_no_value, is_above, is_at_least, is_at_most, is_below, is_equal,
    is_unequal, opposite, product, sum,
};
pub use kinds::{agrees, are_comparable, both_are, is_numeric, kind_of};
