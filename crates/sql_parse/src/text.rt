ghost use Rattle.std.specs.Prelude.{◌≡◌, Ok, Err, IfOk, OnOk};
ghost use Rattle.sql_grammar.specs.Formed.{IsFormed};
ghost use Rattle.sql_grammar.specs.Reads.{ArePlain, tokens_in};
ghost use Rattle.read_laws.specs.DerivedStmts.{IsReadStmt};
ghost use Rattle.read_laws.specs.Answered.{Reads};
ghost use Rattle.read_laws.specs.AnsweredTokens.{AreAnswered};
ghost use Rattle.sql_parse.specs.declared.error.ParseError.TheVariants.{Refused};
ghost use Rattle.sql_definitions.specs.declared.refusal.Refusal.{Refusal as RefusalSeen};
ghost use Rattle.sql_tree.specs.Tree.{stmt_tree};

use crate::error::ParseError;
use crate::laws::each_is_formed;
use crate::steps::{check_left_out, check_levels, check_limits, check_rules};
use sql_refusals::limits_as_read;
use sql_statements::read_stmt;
use sql_tokens::tokens;
use sql_tree::{Placed, Stmt};
use std::alloc::Global;

/// The statement that the text is, or why it is refused: by the first of these that applies. It has
/// no tokens (syntax); a rule of the profile applies to a token (unsupported, by the first such
/// token); more than 512 levels are open at some token (limit nesting); the grammar derives no
/// statement (syntax); the profile leaves something out of the statement (unsupported); the
/// statement passes a limit (the first of them).
pub fn parse(alloc: Global, text: &str) -> Result<Stmt, ParseError>
    ensures read { IfOk result (λ stmt. Reads text.now (Ok (stmt_tree stmt))) }
    ensures formed { IfOk result (λ stmt. IsFormed (stmt_tree stmt)) }
    ensures refused { (refusal : RefusalSeen) → result ≡ Err (Refused refusal) → Reads text.now (Err refusal) }
{
    each_is_formed();
    let tokens = tokens(alloc, text)?;
    parse_tokens(alloc, tokens.as_slice())
}

/// The statement that tokens are, or why they are refused.
fn parse_tokens(alloc: Global, tokens: &[Placed]) -> Result<Stmt, ParseError>
    ensures read { IfOk result (λ stmt. AreAnswered tokens.now (Ok (stmt_tree stmt))) }
    ensures refused { (refusal : RefusalSeen) → result ≡ Err (Refused refusal) → AreAnswered tokens.now (Err refusal) }
{
    check_rules(alloc, tokens)?;
    check_levels(alloc, tokens)?;
    let stmt = read_stmt(alloc, tokens)?;
    match check_stmt(alloc, tokens, &stmt) {
        Ok(()) => Ok(stmt),
        Err(e) => {
            // By name, since what a `?` drops in place here is more than the checker takes.
            drop(stmt);
            Err(e)
        }
    }
}

/// Refuses a statement that passes a limit, or of which the profile leaves out a part.
fn check_stmt(alloc: Global, tokens: &[Placed], stmt: &Stmt) -> Result<(), ParseError>
    requires plain { ArePlain (tokens_in tokens.now) }
    requires read { IsReadStmt (tokens_in tokens.now) (stmt_tree stmt.now) }
    ensures read { OnOk result (AreAnswered tokens.now (Ok (stmt_tree stmt.now))) }
    ensures refused { (refusal : RefusalSeen) → result ≡ Err (Refused refusal) → AreAnswered tokens.now (Err refusal) }
{
    limits_as_read();
    check_left_out(alloc, stmt)?;
    check_limits(alloc, tokens, stmt)
}
