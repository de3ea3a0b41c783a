//! Every decision of the recycler, as functions of a pool that is plain data.
//!
//! It builds on `lineage_key` for keys, on `subsume` and `least_cover` for ranges, on `reuse_laws` for
//! ranges and for results that take in new rows, and on `score_hook` and `evict_admit` for
//! evictions. Its types are the entries of a pool, its options and its answers. Its definitions are
//! what a look finds and leaves (`specs/Looks`), what an admission answers and leaves
//! (`specs/Admits`), and what a write takes, brings back and evicts (`specs/Writes`). Each rule is
//! a function of its own, by cases. Whole sessions are computed from them in
//! `proofs/ExampleSessions`.
//!
//! Its laws say what every step keeps (`specs/Keeps`), that a pooled value is always the worth of
//! its id (`specs/Worths`), that what is computed from a finding is the plain result
//! (`specs/Laws`), and that pooled binds are the present columns (`specs/Versions`,
//! `specs/Columns`). This crate says nothing of how a pool finds all this quickly.
#![tactic(auto)]

mod entry;
mod keyed;
mod laws;
mod options;
mod touched;
mod touching;

pub use entry::{PoolEntry, Who};
pub use keyed::{place_of_id, place_of_key};
pub use laws::{
    admissions_keep, columns_hold, growths_serve, looks_keep, pools_fit, reuse_is_plain,
    values_are_worths, versions_hold, writes_keep,
};
pub use options::{Admit, Admitted, PoolOptions};
pub use touched::Touched;
pub use touching::{is_among, note_touched};
