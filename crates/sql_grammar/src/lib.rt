//! The grammar of SQL: which statement tokens derive, and what of SQL text is refused, and why.
//!
//! It builds on `sql_tree`. The definitions in `specs/` are what a reader has to believe. They are
//! the rules of the grammar as plain data, each with how it is written and what it stands for
//! (`Grammar`, `Statements`), the steps by which a text is refused (`Refused`), the constructs that
//! are open at a token (`Nesting`), what a text reads as (`Reads`), and what holds of each statement
//! that is read (`Formed`). `is_too_deep` says whether tokens pass the limit of levels, and a law
//! says that it counts the open constructs (`deep_is_open`).
#![tactic(auto)]

mod laws;
mod levels;

pub use laws::deep_is_open;
pub use levels::is_too_deep;
