//! The reader of SQL's expressions and conditions: which tree tokens derive.
//!
//! It builds on `sql_tree`, on the grammar of `sql_grammar`, on the tests of `sql_refusals` and on
//! the readers on plain lists of `read_laws`. `DerivedExprs` there is what a reader has to believe:
//! tokens derive an expression or a condition where the grammar's rules write them. `read_expr`,
//! `read_cond` and `read_having` return the tree of the tokens exactly where they derive one, as
//! far as it is kept. No tokens derive two (`one_expr`, `one_cond`, laws of `read_laws`).
//!
//! `Bounded` there says what is kept. A number of more than 64 bits becomes a Huge, which no
//! literal writes. An expression of 64 nodes and a condition of 128 are kept as they are written.
//! Past these limits the readers still recognise, but the tree grows only by signs of what later
//! checks ask for: a column, a Huge, arithmetic over columns. A sign is added where what is left
//! out has that and what is kept hasn't. So a text of any length makes a small tree, which is still
//! refused for the reasons for which the whole would be.
//!
//! What parentheses enclose may be an expression or a condition. It is read once as either, and
//! reading goes on from what the inner ones enclose. So a text takes time by its length, however
//! deep its parentheses are.
//!
//! `Cursor` and the readers at a cursor serve the crate of statements: their contracts are about
//! the readers on plain lists.
#![tactic(auto)]

mod conditions;
mod cursor;
mod expressions;
mod number;
mod predicates;
mod reading;
mod signs;

pub use conditions::{both, whole_cond};
pub use cursor::{Cursor, comma, digits, is_key, is_symbol, name, text};
pub use expressions::{column, day};
pub use number::{negative_number, plain_number};
pub use predicates::{value, whole_expr};
pub use read_laws::{one_cond, one_expr};
pub use reading::{TreeError, read_cond, read_expr, read_having};
