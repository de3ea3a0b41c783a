//! Plans that are read from MAL text.
//!
//! It builds on `mal_tokens` for the tokens of a text and the words of the operators, on
//! `mal_meaning` for the plan and on `mal_check` for its faults. `parse_mal` reads a plan exactly
//! where the grammar derives it, its functions are known and the plan has no fault. Else it returns
//! the first reason, or runs out of memory. No text reads as two plans (`one_reading`).
#![tactic(auto)]

mod block;
mod blocks;
mod cursor;
mod error;
mod laws;
mod numbers;
mod parse;
mod plans;
mod terms;

pub use block::{Block, Line, OrderKey, Term};
pub use error::MalError;
pub use laws::one_reading;
pub use parse::parse_mal;
