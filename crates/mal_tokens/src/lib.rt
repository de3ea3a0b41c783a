//! From MAL text to tokens, and the words of the operators.
//!
//! It uses `cell_core` and, for classes of bytes, `text_bytes`. It promises that `tokens` returns
//! the tokens of a text and refuses a text that has none, that no text has two lists of tokens
//! (`one_list`), and that `operator` returns the operator that a module and a function call.
//! `Memory` is the only other answer.
#![tactic(auto)]

mod error;
mod laws;
mod operators;
mod part;
mod quoted;
mod reading;
mod token;

pub use error::MalTokensError;
pub use laws::one_list;
pub use operators::{OPERATORS, function_word, module_word, operator};
pub use reading::tokens;
pub use token::{MalToken, Mark};
