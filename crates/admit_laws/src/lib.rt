//! The law of what is left by an admission that takes nothing.
//!
//! It builds on `pool_policy` for what an admission answers. A stale bind and an orphan change
//! nothing but the moment, which each event moves. An offer without a credit and one without room
//! may assign the next number to their shape, with the credit to start with. Each shape that had a
//! number keeps it, and its credit. Where the key is there already, its entry is held by the
//! session too: that is no use, and pays nothing back. Each answer is computed on a small pool in
//! `proofs/Examples`.
#![tactic(auto)]

mod laws;

pub use laws::refusals_leave;
