//! The auditor's reader of SQL text: other code than the engine's, for the same definitions.
//!
//! `cut_script` returns exactly the pieces of a script, and `read_text` what a text reads as: its
//! statement, or the first reason for which it is refused. The only other answer is that memory ran
//! out. Definitions and laws are shared with the engine's reader, code is not.
//!
//! A script is cut in one pass over its places (`pieces`). One loop over the places of a text finds
//! its tokens (`scan`, `marks`, `bytes`). One scan of these finds the first rule that applies and
//! levels past the limit (`gate`). `audit_statements` and `audit_exprs` read the statement.
//!
//! What is left out of a statement, and the first limit that it passes, is asked of the small trees
//! (`survey`).
#![tactic(auto)]

mod bytes;
mod gate;
mod marks;
mod pieces;
mod scan;
mod survey;
mod text;

pub use pieces::cut_script;
pub use text::read_text;
