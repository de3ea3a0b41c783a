//! The plan by which a query is run: its translation, optimised.
//!
//! `specs/Plans` is the one definition for what is run, logged and shown by EXPLAIN. It builds on
//! `group_to_mal` for the translation and on `mal_opt` for the optimisers.
#![tactic(auto)]

mod plan;

pub use plan::plan_query;
