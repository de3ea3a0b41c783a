//! SQL as trees and as tokens: what a statement, a token and a piece of a script are, and how a name
//! is printed.
//!
//! It builds on `cell_core`. The definitions in `specs/` are what a reader has to believe: where a
//! script is cut (`Pieces`), how a text is cut into tokens with their places (`Tokens`), which words
//! are reserved (`Words`, over the two lists of `words.rt`), how the code's statements are seen as
//! plain trees (`Tree`) and its digits as their bytes (`Kept`), and how a name is printed (`Names`).
//! `copy` returns an equal tree. `sql_tokens` finds pieces and tokens, and `sql_print` prints
//! statements.
#![tactic(auto)]

mod copy;
mod digits;
mod inside;
mod names;
mod token;
mod tree;
mod words;

pub use digits::{Digits, digits_of};
pub use inside::Inside;
pub use names::{printed_name, write_name, write_quoted};
pub use token::{Keyword, PAIRS, Placed, SINGLES, Symbol, Token};
pub use tree::{
    AggOp, ArithOp, CmpOp, ColRef, Cond, Expr, FromItem, Item, Place, Query, SortKey, Stmt,
};
pub use words::{KEYWORDS, UNSUPPORTED, is_unsupported, keyword};
