//! The indexes by which a pool finds an entry with a key, and those computed from a result, without
//! a search of all: the prints of keys with the ids under them, and ids under those of their first
//! parents. Beside these it keeps ids with their parents.
//!
//! It builds on `lineage_key` for keys and on `indexmap`. A key's print is a number that equal keys
//! have in common. `Prints` keeps an id under a print, `Children` ids under a parent, `Parents` the
//! parents of ids. All have room that is taken at the start, so that no later call takes memory.
#![tactic(auto)]

mod children;
mod parents;
mod print;
mod prints;

pub use children::Children;
pub use parents::{Kin, Parents};
pub use print::print_of;
pub use prints::Prints;
