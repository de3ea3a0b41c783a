//! Statements keep a database valid.
//!
//! It builds on `sql_definitions` for what statements do and for which databases are valid: names of
//! tables and of a table's columns differ, a table has at least one column, columns are of the
//! kinds that tables store, a row has a cell for each column, and cells and defaults are Nil or of
//! their column's kind. Its one public call states a law and runs nothing: every statement that
//! reading may return, accepted or refused, keeps a database valid.
#![tactic(auto)]

ghost use Rattle.std.specs.Prelude.{[]};
ghost use Rattle.sql_definitions.specs.Valid.{IsValid};
ghost use Rattle.sql_kinds.specs.Laws.{StatementsKeepValid, ReplaysAreValid};

/// A law, with nothing to run: a valid database is still valid after any formed statement. So is
/// one that formed statements build from nothing.
pub fn statements_keep_valid()
    ensures empty { IsValid (record { tables = [] }) }
    ensures kept { StatementsKeepValid }
    ensures replayed { ReplaysAreValid }
{}
