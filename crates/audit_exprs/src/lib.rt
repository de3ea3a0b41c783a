//! The auditor's reader of SQL's expressions and conditions: other code than the engine's, for the
//! same definitions.
//!
//! Contracts cite the readers on plain lists of `read_laws`, and `specs/Takes` says how: a call
//! returns a value and leaves the tokens after it exactly as such a reader does, and it returns
//! `Syntax` exactly where the reader returns None. The only other answer is that memory ran out.
//!
//! Expressions and conditions are read without recursion, by a loop over a vector of levels: one for
//! each `(` that is open. `specs/Between` says once, for both, what the open levels make of what is
//! read. A `(` in a condition opens a condition or an operand; a test's word before its `)` says
//! which (`specs/Ahead`), so no token is read twice. Trees past the limits of nodes are kept small
//! by facts of one walk (`counts`, `bounds`).
//!
//! `TokenCursor` and the readers at a cursor serve the crate of statements, `audit_statements`; the
//! facts serve the limits in `audit_read`.
#![tactic(auto)]

mod ahead;
mod bounds;
mod comparing;
mod conds;
mod counts;
mod cursor;
mod exprs;
mod level;
mod literals;
mod numbers;
mod openings;

pub use bounds::{Junction, join};
pub use comparing::value;
pub use conds::whole_cond;
pub use counts::{MOST_OF_COND, MOST_OF_EXPR, TreeFacts, cond_facts, expr_facts, is_unread};
pub use cursor::{NotRead, TokenCursor, comma, digits_of, is_symbol, is_word, name_of};
pub use exprs::whole_expr;
pub use literals::{column, literal};
pub use numbers::{count, width};
