//! Why SQL text is refused: the first token to which a rule applies, what is left out of a statement,
//! and the first limit that a statement passes.
//!
//! It builds on `sql_tree` and on the definitions of `sql_grammar`, and decides each of them
//! exactly: `first_rule`, `left_out`, `statement_bytes`, `first_limit`. A reader makes a Huge of a
//! number of more than 64 bits. No literal is one, and so a Huge passes the limit of literals
//! (`Unread` of `read_laws`). By `limits_as_read`, a law there, the limits of a statement are then
//! those of what was read. The only other answer is that memory ran out.
//!
//! The tests of one expression or condition (`is_large_expr`, `has_column` and those beside them)
//! are public, since a reader applies them to what it builds.
#![tactic(auto)]

mod around;
mod exprs;
mod limits;
mod nodes;
mod numbers;
mod profile;
mod rules;

pub use exprs::cond_has_unread;
pub use limits::{first_limit, statement_bytes};
pub use nodes::{is_large_cond, is_large_expr};
pub use numbers::has_unread;
pub use profile::{has_column, has_column_arithmetic, is_column_arithmetic, left_out};
pub use read_laws::limits_as_read;
pub use rules::first_rule;
