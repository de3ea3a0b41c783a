//! The pool of results: what is kept is found again, admitted and evicted by the policy.
//!
//! It builds on `pool_policy`, whose functions say all that a pool does. Contracts see a `Pool` as
//! the state of the policy, and each call returns and leaves exactly what the policy's function
//! does. It builds on `pool_entries` for what is done with the entries alone, on `lineage_key` for
//! keys, on `subsume` and `least_cover` for ranges, and on `evict_admit` for evictions. The laws of
//! `pool_policy` say what the entries mean, and that results from them are the plain ones.
//!
//! An entry with a key is found by the print of the key (`pool_index`), and one with an id by
//! halves, since ids rise. The bytes of all entries are kept. The selections from one parent are
//! found by reading only the entries that have it as first parent.
#![tactic(auto)]

mod admit;
mod carried;
mod children;
mod covers;
mod entries;
mod finding;
mod found;
mod keys;
mod lists;
mod look;
mod offer;
mod pool;
mod room;
mod selections;
mod uses;
mod write;
mod written;

pub use carried::Carried;
pub use found::{CoverPiece, Found};
pub use offer::Offered;
pub use pool::Pool;
pub use pool_policy::Touched;
