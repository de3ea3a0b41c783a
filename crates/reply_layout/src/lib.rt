//! What a statement does over the tables that it meets, what it shows, and how its reply is laid out.
//!
//! It builds on the meaning of statements and knows no plan, no pool and no log: the type of plans
//! is a parameter. `specs/Doings` defines what a statement does and shows, and `specs/Layout` how
//! replies, rows and accepted changes are laid out.
#![tactic(auto)]

mod shown;

pub use shown::Shown;
