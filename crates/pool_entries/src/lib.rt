//! The entries of a pool, in the order of their ids: found by halves, used, held and released;
//! their shapes, which have numbers; and the credits of these, which are paid and paid back.
//!
//! Its calls take a list of entries, a list of shapes and a ledger, each by itself, and no pool. It
//! builds on `pool_policy`, whose definitions its contracts cite, on `lineage_key` for keys and
//! shapes, and on `evict_admit` for the ledger. Where memory runs out, all is as it was.
#![tactic(auto)]

mod by_id;
mod changes;
mod credits;
mod shapes;

pub use by_id::{first_missing, place_by_id};
pub use changes::{pin_id, total_bytes, unpin_all, use_id};
pub use credits::{is_spent, pay, pay_back_id, pay_back_if};
pub use shapes::give_number;
