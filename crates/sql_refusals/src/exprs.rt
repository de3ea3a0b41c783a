//! The expressions of a statement, and those among them that pass a limit.
ghost use Rattle.std.specs.Prelude.{◌≡◌, map};
ghost use Rattle.std.specs.List.{list_any};
ghost use Rattle.std.specs.Option.{option_copied, option_map};
ghost use Rattle.sql_tree.specs.Exprs.{cond_exprs, exprs_of_cond};
ghost use Rattle.sql_grammar.specs.Refused.{stmt_exprs};
ghost use Rattle.sql_refusals.specs.Searches.{is_sought};
ghost use Rattle.read_laws.specs.Unread.{has_literal, is_unread_cell};
ghost use Rattle.sql_tree.specs.Tree.{cond_tree, expr_tree, item_tree, query_tree, set_tree, stmt_tree};
ghost use Rattle.sql_tree.specs.Tree.StmtTree.{Select};

use crate::nodes::is_large_expr;
use crate::numbers::has_unread;
use cell_core::Word;
use sql_tree::{Cond, Expr, Item, Query, Stmt};

/// What is looked for in expressions.
#[derive(Clone, Copy)]
pub(crate) enum Sought {
    /// More than 64 nodes.
    Large,
    /// A literal that could not be read.
    Unread,
}

/// Whether some expression of a statement is one that is looked for.
pub(crate) fn any_expr(sought: Sought, stmt: &Stmt) -> bool
    ensures { result ≡ list_any (is_sought sought) (stmt_exprs (stmt_tree stmt.now)) }
{
    match stmt {
        Stmt::Query(query) | Stmt::Explain(query) => any_of_query(sought, query),
        Stmt::Delete { cond, .. } => any_of_cond(sought, cond.as_ref()),
        Stmt::Update { sets, cond, .. } => {
            any_set(sought, sets.as_slice()) || any_of_cond(sought, cond.as_ref())
        }
        Stmt::Create { .. } | Stmt::Drop { .. } | Stmt::Alter { .. } | Stmt::Insert { .. } => false,
    }
}

fn any_of_query(sought: Sought, query: &Query) -> bool
    ensures { result ≡ list_any (is_sought sought) (stmt_exprs (Select (query_tree query.now))) }
{
    any_item(sought, query.items.as_slice())
        || any_of_cond(sought, query.cond.as_ref())
        || any_of_cond(sought, query.having.as_ref())
}

fn any_item(sought: Sought, items: &[Item]) -> bool
    ensures { result ≡ list_any (is_sought sought) (map (λ item. item.expr) (map item_tree items.now)) }
{
    let mut rest = items;
    'items: while let [item, more @ ..] = rest {
        if is_found(sought, &item.expr) {
            return true;
        }
        rest = more;
    }
    false
}

fn any_set(sought: Sought, sets: &[(Word, Expr)]) -> bool
    ensures { result ≡ list_any (is_sought sought) (map (λ set. set.1) (map set_tree sets.now)) }
{
    let mut rest = sets;
    'sets: while let [set, more @ ..] = rest {
        if is_found(sought, &set.1) {
            return true;
        }
        rest = more;
    }
    false
}

fn any_of_cond(sought: Sought, cond: Option<&Cond>) -> bool
    ensures { result ≡ list_any (is_sought sought) (exprs_of_cond (option_map cond_tree (option_copied cond.entry))) }
{
    match cond {
        None => false,
        Some(cond) => any_in_cond(sought, cond),
    }
}

/// Whether a literal of the condition could not be read: a Huge, as for `has_unread` of an
/// expression.
pub fn cond_has_unread(cond: &Cond) -> bool
    ensures { result ≡ list_any (has_literal is_unread_cell) (cond_exprs (cond_tree cond.now)) }
{
    any_in_cond(Sought::Unread, cond)
}

fn any_in_cond(sought: Sought, cond: &Cond) -> bool
    ensures { result ≡ list_any (is_sought sought) (cond_exprs (cond_tree cond.now)) }
{
    match cond {
        Cond::Cmp { left, right, .. } => is_found(sought, left) || is_found(sought, right),
        Cond::Between { of, low, high } => {
            is_found(sought, of) || is_found(sought, low) || is_found(sought, high)
        }
        Cond::IsNull(of) => is_found(sought, of),
        Cond::Not(cond) => any_in_cond(sought, cond),
        Cond::And(left, right) => any_in_cond(sought, left) || any_in_cond(sought, right),
        Cond::Or(left, right) => any_in_cond(sought, left) || any_in_cond(sought, right),
    }
}

/// Whether an expression is one that is looked for.
fn is_found(sought: Sought, expr: &Expr) -> bool
    ensures { result ≡ is_sought sought (expr_tree expr.now) }
{
    match sought {
        Sought::Large => is_large_expr(expr),
        Sought::Unread => has_unread(expr),
    }
}
