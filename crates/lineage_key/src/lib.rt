//! The lasting name of an instruction's result: the key under which a pool keeps it.
//!
//! It builds on `cell_core` for operators, instructions, cells and spans. A `Key` is an instruction
//! whose variables are the ids of results, with the version of the column that it reads. Keys are
//! equal exactly where they are the same. So equal keys name one meaning, and a map may find a
//! result by its key. A key shows its parents (the ids in it) and the table that it reads. A
//! `Shape` is a lineage without its constants. `span_of` returns the range that a selection's key
//! asks for.
#![tactic(auto)]

mod key;
mod parents;
mod shape;
mod span;

pub use key::{Key, KeyArg, equal_keys_are_the_same, key_of};
pub use parents::shape_of;
pub use shape::{Shape, equal_shapes_are_the_same};
pub use span::span_of;
