//! From SQL text to the statement that it is, or to the reason for which it is refused.
//!
//! It builds on the crates that do one step each. `sql_tokens` finds tokens, `sql_refusals` and
//! `sql_grammar` find what is refused before and after the statement is read, and `sql_statements`
//! reads it. What a text reads as is defined in `sql_grammar`; `Answered` of `read_laws` says with
//! which statement or refusal that is answered. `parse` answers so for every text, unless memory
//! runs out. What a text reads as is formed (`each_is_formed`), by the law of `sql_print_laws`; no
//! text reads as two things (`one_reading`, a law of `read_laws`). `split`, which cuts a script
//! into pieces, is that of `sql_tokens`.
#![tactic(auto)]

mod error;
mod laws;
#[cfg(test)]
mod reader_tests;
mod steps;
#[cfg(test)]
mod tests;
mod text;

pub use error::ParseError;
pub use laws::each_is_formed;
pub use read_laws::one_reading;
pub use sql_tokens::{MOST_STATEMENTS, SplitError, split};
pub use text::parse;
