//! The reader of SQL's statements: which statement tokens derive.
//!
//! It builds on `sql_reader`, which reads expressions and conditions, on the grammar of
//! `sql_grammar` and on the reader on plain lists of `read_laws`. `DerivedStmts` there is what a
//! reader has to believe: a statement that is read is one that the grammar's rules write with these
//! tokens, as far as it is kept. `read_stmt` returns the statement of the tokens exactly where they
//! derive one. No tokens derive two (`one_stmt`, a law of `read_laws`).
//!
//! Expressions and conditions are kept as `sql_reader` keeps them: those of more than 64 and of
//! more than 128 nodes are cut off a little past these limits, so a text of any length makes small
//! trees. The conditions of ON and WHERE are joined under the same limit. Numbers that don't fit
//! their type become a Huge or the most of the type.
#![tactic(auto)]

mod change;
mod define;
mod from;
mod part;
mod query;
mod stmt;
mod values;

pub use read_laws::one_stmt;
pub use stmt::read_stmt;
