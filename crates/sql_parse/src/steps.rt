//! The steps at which a text is refused, but for those at which it has no tokens or derives no statement.
ghost use Rattle.std.specs.Prelude.{◌≡◌, [], false, None, Some, Err, OnOk};
ghost use Rattle.std.specs.Option.{option_map};
ghost use Rattle.sql_grammar.specs.Reads.{statement_bytes, tokens_in};
ghost use Rattle.sql_grammar.specs.Refused.{IsFirstRule, first_passed};
ghost use Rattle.sql_grammar.specs.Refused as refused;
ghost use Rattle.read_laws.specs.AnsweredTokens.{AreAnswered};
ghost use Rattle.sql_parse.specs.declared.error.ParseError.TheVariants.{Refused};
ghost use Rattle.read_laws.specs.Unread.{read_limits};
ghost use Rattle.sql_definitions.specs.declared.refusal.Refusal.{Refusal as RefusalSeen};
ghost use Rattle.sql_definitions.specs.declared.refusal.Refusal.TheVariants.{Limit, Unsupported};
ghost use Rattle.sql_tree.specs.Tree.{stmt_tree};

use crate::error::ParseError;
use cell_core::word_of;
use sql_definitions::Refusal;
use sql_grammar::is_too_deep;
use sql_refusals::{first_limit, first_rule, left_out};
use sql_tree::{Placed, Stmt};
use std::alloc::Global;

/// Refuses tokens to which a rule of the profile applies, by the first of them.
pub(crate) fn check_rules(alloc: Global, tokens: &[Placed]) -> Result<(), ParseError>
    ensures none { OnOk result (IsFirstRule (tokens_in tokens.now) None) }
    ensures refused { (refusal : RefusalSeen) → result ≡ Err (Refused refusal) → AreAnswered tokens.now (Err refusal) }
{
    match first_rule(alloc, tokens)? {
        None => Ok(()),
        Some(rule) => Err(ParseError::Refused(Refusal::Unsupported(rule))),
    }
}

/// Refuses tokens with more levels than the limit at some token, where no rule applies to any of
/// them.
pub(crate) fn check_levels(alloc: Global, tokens: &[Placed]) -> Result<(), ParseError>
    requires { IsFirstRule (tokens_in tokens.now) None }
    ensures shallow { OnOk result (refused.is_too_deep [] 0 (tokens_in tokens.now) ≡ false) }
    ensures refused { (refusal : RefusalSeen) → result ≡ Err (Refused refusal) → AreAnswered tokens.now (Err refusal) }
{
    if is_too_deep(alloc, tokens)? {
        let name = word_of(alloc, "nesting")?;
        return Err(ParseError::Refused(Refusal::Limit(name)));
    }
    Ok(())
}

/// Refuses a statement if the profile leaves out a part of it.
pub(crate) fn check_left_out(alloc: Global, stmt: &Stmt) -> Result<(), ParseError>
    ensures none { OnOk result (refused.left_out (stmt_tree stmt.now) ≡ None) }
    ensures refused { (refusal : RefusalSeen) → result ≡ Err (Refused refusal)
        → option_map Unsupported (refused.left_out (stmt_tree stmt.now)) ≡ Some refusal }
{
    match left_out(alloc, stmt)? {
        None => Ok(()),
        Some(name) => Err(ParseError::Refused(Refusal::Unsupported(name))),
    }
}

/// Refuses a statement that passes a limit, by the first of them.
pub(crate) fn check_limits(alloc: Global, tokens: &[Placed], stmt: &Stmt) -> Result<(), ParseError>
    ensures none { OnOk result (first_passed (read_limits (statement_bytes tokens.now) (tokens_in tokens.now) (stmt_tree stmt.now)) ≡ None) }
    ensures refused { (refusal : RefusalSeen) → result ≡ Err (Refused refusal)
        → option_map Limit (first_passed (read_limits (statement_bytes tokens.now) (tokens_in tokens.now) (stmt_tree stmt.now))) ≡ Some refusal }
{
    match first_limit(alloc, tokens, stmt)? {
        None => Ok(()),
        Some(limit) => Err(ParseError::Refused(Refusal::Limit(limit))),
    }
}
