//! The auditor's reader of SQL's statements, over its reader of expressions and conditions.
//!
//! `read_statement` returns the statement that all the tokens are, exactly where the grammar derives
//! one. Statements are read straight through (`forms`, `query`), their lists by one loop for parts
//! of any type (`list`). Private contracts cite the readers on plain lists of `read_laws`, as
//! `audit_exprs/specs/Takes` says.
#![tactic(auto)]

mod forms;
mod list;
mod query;

pub use forms::read_statement;
