//! What SQL text reads as, on plain lists: readers as definitions, and laws that they agree with
//! the grammar.
//!
//! It builds on the definitions of `sql_tree`, `sql_grammar` and `sql_definitions`, and on the
//! classes of bytes of `text_bytes`; it uses no reader that runs. Its `specs/` have two kinds of
//! definitions. The first kind has to be believed: which tokens a text has (`TokenLaws`), that
//! such a text is one piece (`PieceLaws`), what tokens derive and how that is kept
//! (`DerivedExprs`, `DerivedStmts`, `Bounded`, `Unread`), what a text is answered with
//! (`Answered`, `Readings`). The second kind is compared with code while it reads: a reader of
//! tokens, of expressions, of conditions and of statements (`TokenReader`, `ExprReader`,
//! `CondReader`, `StmtReader`). `proofs/` shows that these find exactly what is derived.
//!
//! The public calls state laws and run nothing: no text has two lists of tokens (`one_list`), no `;` in a
//! text with tokens ends a piece (`pieces_by_tokens`), no tokens derive two things (`one_expr`, `one_cond`,
//! `one_stmt`), what is kept passes the limits that the statement passes (`limits_as_read`), and no text
//! reads as two things (`one_reading`).
#![tactic(auto)]

mod joint;
mod laws;

pub use joint::Joint;
pub use laws::{
    limits_as_read, one_cond, one_expr, one_list, one_reading, one_stmt, pieces_by_tokens,
};
