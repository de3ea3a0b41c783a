//! The score by which an entry of a pool is evicted, computed by a closure of the caller.
//!
//! It uses no other crate. A `Scorer` keeps a boxed closure with the fact that it returns the
//! formula of its kind. A caller may rely on the formula, however the closure computes it. `less`
//! compares scores, which are fractions, exactly.
#![tactic(auto)]

mod scorer;
mod stats;

pub use scorer::{ScoreCall, Scorer};
pub use stats::{Evict, Score, Stats, formula, less, weighted_formula};
