//! What a text reads as, step by step.
ghost use Rattle.std.specs.Prelude.{◌≡◌, None, IfOk};
ghost use Rattle.audit_read.specs.Readings.{answer_of, reading_tree};
ghost use Rattle.read_laws.specs.Answered.{Reads};
ghost use Rattle.read_laws.specs.AnsweredTokens.{AreAnswered};
ghost use Rattle.read_laws.specs.DerivedStmts.{IsReadStmt};
ghost use Rattle.sql_grammar.specs.Reads.{ArePlain, tokens_in};
ghost use Rattle.sql_grammar.specs.Refused as refused;
ghost use Rattle.sql_tree.specs.Tree.{stmt_tree};

use crate::gate::{Gate, pass_gate};
use crate::scan::scan;
use crate::survey::{first_limit, left_out};
use audit_exprs::NotRead;
use audit_statements::read_statement;
use cell_core::{Memory, Word, word_of};
use read_laws::limits_as_read;
use sql_definitions::Refusal;
use sql_tree::{Placed, Stmt};
use std::alloc::Global;

/// The statement that a text is, or the first reason for which it is refused.
pub fn read_text(alloc: Global, text: &Word) -> Result<Result<Stmt, Refusal>, Memory>
    ensures { IfOk result (λ reading. Reads text.now (reading_tree reading)) }
{
    match scan(alloc, text.text())? {
        Some(tokens) => read_tokens(alloc, tokens.as_slice()),
        None => Ok(Err(Refusal::Syntax)),
    }
}

fn read_tokens(alloc: Global, tokens: &[Placed]) -> Result<Result<Stmt, Refusal>, Memory>
    ensures { IfOk result (λ reading. AreAnswered tokens.now (reading_tree reading)) }
{
    match pass_gate(alloc, tokens)? {
        Gate::Plain => read_plain(alloc, tokens),
        Gate::Rule(name) => Ok(Err(Refusal::Unsupported(name))),
        Gate::Deep => Ok(Err(Refusal::Limit(word_of(alloc, "nesting")?))),
    }
}

/// The same of tokens to which no rule applies, none of them too deep.
fn read_plain(alloc: Global, tokens: &[Placed]) -> Result<Result<Stmt, Refusal>, Memory>
    requires { ArePlain (tokens_in tokens.now) }
    ensures { IfOk result (λ reading. AreAnswered tokens.now (reading_tree reading)) }
{
    match read_statement(alloc, tokens) {
        Ok(stmt) => unless_refused(alloc, tokens, stmt),
        Err(NotRead::Syntax) => Ok(Err(Refusal::Syntax)),
        Err(NotRead::Memory) => Err(Memory),
    }
}

/// A statement that was read, or why it is refused.
fn unless_refused(
    alloc: Global,
    tokens: &[Placed],
    stmt: Stmt,
) -> Result<Result<Stmt, Refusal>, Memory>
    requires plain { ArePlain (tokens_in tokens.now) }
    requires read { IsReadStmt (tokens_in tokens.now) (stmt_tree stmt) }
    ensures { IfOk result (λ reading. AreAnswered tokens.now (reading_tree reading)) }
{
    match refusal(alloc, tokens, &stmt) {
        Ok(None) => Ok(Ok(stmt)),
        Ok(Some(refusal)) => Ok(Err(refusal)),
        Err(e) => Err(e),
    }
}

/// Why a statement that was read is refused, if it is.
fn refusal(alloc: Global, tokens: &[Placed], stmt: &Stmt) -> Result<Option<Refusal>, Memory>
    requires plain { ArePlain (tokens_in tokens.now) }
    requires read { IsReadStmt (tokens_in tokens.now) (stmt_tree stmt.now) }
    ensures { IfOk result (λ refusal. AreAnswered tokens.now (answer_of (stmt_tree stmt.now) refusal)) }
{
    match left_out(stmt) {
        Some(name) => Ok(Some(Refusal::Unsupported(word_of(alloc, name)?))),
        None => passed_limit(alloc, tokens, stmt),
    }
}

/// The same of a statement that has no part that is left out.
fn passed_limit(alloc: Global, tokens: &[Placed], stmt: &Stmt) -> Result<Option<Refusal>, Memory>
    requires plain { ArePlain (tokens_in tokens.now) }
    requires read { IsReadStmt (tokens_in tokens.now) (stmt_tree stmt.now) }
    requires none { refused.left_out (stmt_tree stmt.now) ≡ None }
    ensures { IfOk result (λ refusal. AreAnswered tokens.now (answer_of (stmt_tree stmt.now) refusal)) }
{
    limits_as_read();
    match first_limit(tokens, stmt) {
        Some(limit) => Ok(Some(Refusal::Limit(word_of(alloc, limit)?))),
        None => Ok(None),
    }
}
