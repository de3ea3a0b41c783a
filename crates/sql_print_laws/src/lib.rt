//! The text printed of a statement that was read reads as that statement again.
//!
//! It builds on `sql_tree`, whose definitions say what text is printed of a statement and what the
//! tokens of a text are, and on the grammar of `sql_grammar`. The definitions in `specs/` are which
//! statements can be printed (`Printable`), and the one derivation of each whose tokens its
//! canonical text has (`CanonRules`). Its laws: each statement that a text reads as can be printed
//! (`read_is_printable`), the derivation is one of that statement (`printed_derives`), the
//! canonical text has its tokens (`printed_tokens`), and this text, unless it is longer than a
//! statement may be, reads as the statement again (`printed_reads`). There is nothing to run.
#![tactic(auto)]

mod laws;

pub use laws::{printed_derives, printed_reads, printed_tokens, read_is_printable};
