//! What an honest printed run is, as definitions on plain lists.
//!
//! It builds on what text reads as (`read_laws`), on the meaning of statements (`sql_definitions`)
//! and on the layout of replies (`reply_layout`). It knows no plan, no pool and no key. `specs/Lines`
//! defines the lines of a printed log, `specs/Places` the tables that a statement meets by these
//! lines, and `specs/Honest` an honest text. `proofs/` works them on a printed run.
#![tactic(auto)]
