//! The canonical text of statements.
//!
//! It builds on `sql_tree` and, for cells, on `cell_text`. `specs/Canon` says what the canonical
//! text of a tree is; `print_stmt` returns it for every tree.
#![tactic(auto)]

mod print;
mod print_expr;
mod print_parts;

pub use print::print_stmt;
