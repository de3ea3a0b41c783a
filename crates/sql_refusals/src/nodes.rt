//! How many nodes expressions and conditions have, counted up to a limit.
ghost use Rattle.std.specs.Prelude.{◌≡◌, ◌+◌, ◌<◌, MatchOption, nat_lt};
ghost use Rattle.std.specs.Option.{option_copied, option_map};
ghost use Rattle.sql_grammar.specs.Refused.{cond_nodes, expr_nodes, nodes_of_cond};
ghost use Rattle.sql_tree.specs.Tree.{cond_tree, expr_tree};

use sql_tree::{Cond, Expr};

/// The most nodes of an expression.
const MOST_OF_EXPR: u32 = 64;

/// The most nodes of a condition.
const MOST_OF_COND: u32 = 128;

/// Whether an expression has more than 64 nodes.
pub fn is_large_expr(expr: &Expr) -> bool
    ensures { result ≡ nat_lt 64 (expr_nodes (expr_tree expr.now)) }
{
    match room_after_expr(expr, MOST_OF_EXPR) {
        None => true,
        Some(_) => false,
    }
}

/// Whether there is a condition that has more than 128 nodes.
pub(crate) fn any_large_cond(cond: Option<&Cond>) -> bool
    ensures { result ≡ nat_lt 128 (nodes_of_cond (option_map cond_tree (option_copied cond.entry))) }
{
    match cond {
        None => false,
        Some(cond) => is_large_cond(cond),
    }
}

/// Whether a condition has more than 128 nodes.
pub fn is_large_cond(cond: &Cond) -> bool
    ensures { result ≡ nat_lt 128 (cond_nodes (cond_tree cond.now)) }
{
    match room_after_cond(cond, MOST_OF_COND) {
        None => true,
        Some(_) => false,
    }
}

/// The room that is left after the nodes of an expression; none where it has more nodes than room.
fn room_after_expr(expr: &Expr, room: u32) -> Option<u32>
    ensures { MatchOption result (room < expr_nodes (expr_tree expr.now))
        (λ left. left + expr_nodes (expr_tree expr.now) ≡ room) }
{
    match expr {
        Expr::Lit(_) | Expr::Col(_) => room.checked_sub(1),
        Expr::Arith { left, right, .. } => {
            let behind = room_after_expr(left, room)?;
            let behind = room_after_expr(right, behind)?;
            behind.checked_sub(1)
        }
        Expr::Agg { of: None, .. } => Some(room),
        Expr::Agg { of: Some(of), .. } => room_after_expr(of, room),
    }
}

/// The room that is left after the nodes of a condition; none where it has more nodes than room.
fn room_after_cond(cond: &Cond, room: u32) -> Option<u32>
    ensures { MatchOption result (room < cond_nodes (cond_tree cond.now))
        (λ left. left + cond_nodes (cond_tree cond.now) ≡ room) }
{
    match cond {
        Cond::Cmp { .. } | Cond::Between { .. } | Cond::IsNull(_) => room.checked_sub(1),
        Cond::Not(cond) => room_after_cond(cond, room)?.checked_sub(1),
        Cond::And(left, right) => {
            let behind = room_after_cond(left, room)?;
            let behind = room_after_cond(right, behind)?;
            behind.checked_sub(1)
        }
        Cond::Or(left, right) => {
            let behind = room_after_cond(left, room)?;
            let behind = room_after_cond(right, behind)?;
            behind.checked_sub(1)
        }
    }
}
