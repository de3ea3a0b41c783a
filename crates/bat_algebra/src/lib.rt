//! The operators of plans on one BAT or two, but for joins: those that keep pairs, exchange head
//! and tail, or put other cells beside heads.
//!
//! It uses `cell_core`, whose definitions say what each operator returns, and `bat_core`. Each call
//! returns exactly the pairs of its definition, in order, and its counter rises by the stated work:
//! the pairs that it reads and those of its result. Columns that don't change are shared.
#![tactic(auto)]

mod flags;
mod heads;
mod mark;
mod merge;
mod ordered;
mod places;
mod product;
mod range;
mod turn;

pub use heads::{kdifference, kunion, semijoin};
pub use mark::mark_t;
pub use merge::merge_by_heads;
pub use product::{cross, project};
pub use range::select;
pub use turn::{mirror, reverse};
