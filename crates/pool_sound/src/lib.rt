//! The law that the pool is sound along each lawful log.
//!
//! `specs/Lineage` evaluates the lineage of an id: a bind is its column in the tables after the
//! event at its version, and any other key its operator over what its arguments evaluate to.
//! `specs/Sound` says when a pool is sound: it keeps within its bytes and places, each parent of
//! what is pooled is pooled, each bind has the present version, and each value is what its lineage
//! evaluates to. The law (`specs/Laws`) says that the pool is sound after each event of a lawful
//! log, and that what an id evaluates to never changes.
#![tactic(auto)]

mod laws;

pub use laws::pools_stay_sound;
