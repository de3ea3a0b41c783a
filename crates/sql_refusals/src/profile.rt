ghost use Rattle.std.specs.Prelude.{◌≡◌, if◌then◌else◌, codes, IfOk, Some, None};
ghost use Rattle.std.specs.Option.{option_copied, option_map};
ghost use Rattle.sql_grammar.specs.Refused as refused;
ghost use Rattle.sql_tree.specs.Tree.{cond_tree, expr_tree, query_tree, stmt_tree};

use cell_core::{Memory, Word, word_of};
use sql_tree::{Cond, Expr, Query, Stmt};
use std::alloc::Global;

/// The name of what the profile leaves out of a statement: a SELECT without FROM, or arithmetic over
/// columns in a condition. None where nothing is left out.
pub fn left_out(alloc: Global, stmt: &Stmt) -> Result<Option<Word>, Memory>
    ensures { IfOk result (λ name. name ≡ refused.left_out (stmt_tree stmt.now)) }
{
    match stmt {
        Stmt::Query(query) => query_left_out(alloc, query),
        Stmt::Explain(query) => query_left_out(alloc, query),
        Stmt::Delete { cond, .. } => arithmetic_if(alloc, cond_left_out(cond.as_ref())),
        Stmt::Update { cond, .. } => arithmetic_if(alloc, cond_left_out(cond.as_ref())),
        Stmt::Create { .. } | Stmt::Drop { .. } | Stmt::Alter { .. } | Stmt::Insert { .. } => {
            Ok(None)
        }
    }
}

fn query_left_out(alloc: Global, query: &Query) -> Result<Option<Word>, Memory>
    ensures { IfOk result (λ name. name ≡ refused.query_left_out (query_tree query.now)) }
{
    if query.froms.as_slice().is_empty() {
        return Ok(Some(word_of(alloc, "SELECT WITHOUT FROM")?));
    }
    let found = cond_left_out(query.cond.as_ref()) || cond_left_out(query.having.as_ref());
    arithmetic_if(alloc, found)
}

/// The name of arithmetic, if there is some.
fn arithmetic_if(alloc: Global, found: bool) -> Result<Option<Word>, Memory>
    ensures { IfOk result (λ name. name ≡ (if found then Some (codes "ARITHMETIC IN WHERE") else None)) }
{
    if found {
        return Ok(Some(word_of(alloc, "ARITHMETIC IN WHERE")?));
    }
    Ok(None)
}

fn cond_left_out(cond: Option<&Cond>) -> bool
    ensures { result ≡ refused.cond_left_out (option_map cond_tree (option_copied cond.entry)) }
{
    match cond {
        None => false,
        Some(cond) => has_column_arithmetic(cond),
    }
}

/// Whether a side of a test in the condition is arithmetic over columns.
pub fn has_column_arithmetic(cond: &Cond) -> bool
    ensures { result ≡ refused.has_column_arithmetic (cond_tree cond.now) }
{
    match cond {
        Cond::Cmp { left, right, .. } => {
            is_column_arithmetic(left) || is_column_arithmetic(right)
        }
        Cond::Between { of, low, high } => {
            is_column_arithmetic(of) || is_column_arithmetic(low) || is_column_arithmetic(high)
        }
        Cond::IsNull(of) => is_column_arithmetic(of),
        Cond::Not(cond) => has_column_arithmetic(cond),
        Cond::And(left, right) => has_column_arithmetic(left) || has_column_arithmetic(right),
        Cond::Or(left, right) => has_column_arithmetic(left) || has_column_arithmetic(right),
    }
}

/// Whether it is an operator with a column below it, outside aggregates.
pub fn is_column_arithmetic(expr: &Expr) -> bool
    ensures { result ≡ refused.is_column_arithmetic (expr_tree expr.now) }
{
    match expr {
        Expr::Arith { left, right, .. } => has_column(left) || has_column(right),
        _ => false,
    }
}

/// Whether the expression has a column, outside aggregates.
pub fn has_column(expr: &Expr) -> bool
    ensures { result ≡ refused.has_column (expr_tree expr.now) }
{
    match expr {
        Expr::Lit(_) => false,
        Expr::Col(_) => true,
        Expr::Arith { left, right, .. } => has_column(left) || has_column(right),
        Expr::Agg { .. } => false,
    }
}
