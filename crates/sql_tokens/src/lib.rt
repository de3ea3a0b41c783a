//! From SQL text to tokens: a script's pieces, and a piece's tokens with their places.
//!
//! It builds on `sql_tree`, whose definitions say what pieces and tokens are, on the reader of
//! tokens on plain lists that `read_laws` defines, and on `cell_core`. `split` returns exactly a
//! script's pieces. `tokens` returns the tokens of a text and refuses a text that has none; no text
//! has two lists of tokens (`one_list`, a law of `read_laws`). The only other answer is that memory
//! ran out. Each byte is looked at a few times, and the rest of a text is never copied.
#![tactic(auto)]

mod block;
mod part;
mod pieces;
mod quoted;
mod reading;
mod symbols;

pub use pieces::{MOST_STATEMENTS, SplitError, split};
pub use read_laws::one_list;
pub use reading::{TokensError, tokens};
