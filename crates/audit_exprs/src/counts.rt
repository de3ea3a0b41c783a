//! What is asked of expressions and conditions as they grow: each in one walk.
ghost use Rattle.std.specs.Prelude.{◌≡◌, ◌||◌, ◌&&◌, ◌+◌, ◌-◌, ◌^◌, ◌<◌, min, not};
ghost use Rattle.sql_grammar.specs.Refused as refused;
ghost use Rattle.sql_tree.specs.Tree.{cond_tree, expr_tree};
ghost use Rattle.read_laws.specs.Bounded.{has_unread, cond_has_unread};
ghost use Rattle.read_laws.specs.Unread.{is_unread_cell};

use cell_core::Cell;
use sql_tree::{Cond, Expr};

/// The most nodes of an expression.
pub const MOST_OF_EXPR: u32 = 64;

/// The most nodes of a condition.
pub const MOST_OF_COND: u32 = 128;

/// What is asked of an expression or a condition.
#[derive(Clone, Copy)]
pub struct TreeFacts {
    /// How many nodes it has, or the first number past the most where it has that many or more.
    pub nodes: u32,
    /// Of an expression: whether it has a column outside aggregates. Of a condition: whether a side
    /// of a test is arithmetic over columns.
    pub columns: bool,
    /// Whether a literal of it could not be read.
    pub unread: bool,
}

/// The signs of what is left out.
#[derive(Clone, Copy)]
pub(crate) struct WantedSigns {
    /// Of columns, or of arithmetic over them.
    pub(crate) columns: bool,
    /// Of a literal that could not be read.
    pub(crate) unread: bool,
}

impl TreeFacts {
    /// The signs of another that it lacks.
    pub(crate) fn lacks(self, other: TreeFacts) -> WantedSigns
        ensures columns { result.columns ≡ (other.columns && not self.columns) }
        ensures unread { result.unread ≡ (other.unread && not self.unread) }
    {
        WantedSigns {
            columns: other.columns && !self.columns,
            unread: other.unread && !self.unread,
        }
    }
}

/// The facts of an expression.
pub fn expr_facts(expr: &Expr) -> TreeFacts
    ensures nodes { result.nodes ≡ min 65 (refused.expr_nodes (expr_tree expr.now)) }
    ensures columns { result.columns ≡ refused.has_column (expr_tree expr.now) }
    ensures unread { result.unread ≡ has_unread (expr_tree expr.now) }
{
    match expr {
        Expr::Lit(cell) => TreeFacts {
            nodes: 1,
            columns: false,
            unread: is_unread(cell),
        },
        Expr::Col(_) => TreeFacts {
            nodes: 1,
            columns: true,
            unread: false,
        },
        Expr::Arith { left, right, .. } => {
            let left = expr_facts(left);
            let right = expr_facts(right);
            TreeFacts {
                nodes: joined_nodes(left.nodes, right.nodes, MOST_OF_EXPR),
                columns: left.columns || right.columns,
                unread: left.unread || right.unread,
            }
        }
        Expr::Agg { of: None, .. } => TreeFacts {
            nodes: 0,
            columns: false,
            unread: false,
        },
        Expr::Agg { of: Some(of), .. } => TreeFacts {
            columns: false,
            ..expr_facts(of)
        },
    }
}

/// The nodes of two parts and of what joins them, up to the first number past the most.
fn joined_nodes(left: u32, right: u32, most: u32) -> u32
    requires { left + right + most < 2 ^ 32 - 1 }
    ensures { result ≡ min (most + 1) (left + right + 1) }
{
    let nodes = left + right + 1;
    if nodes <= most { nodes } else { most + 1 }
}

/// Whether it is a literal that could not be read.
pub fn is_unread(cell: &Cell) -> bool
    ensures { result ≡ is_unread_cell cell.now }
{
    match cell {
        Cell::Huge(_) => true,
        // Each number of 64 bits was read.
        Cell::Int(number) => !is_in_range(*number),
        _ => false,
    }
}

/// Each number of 64 bits is in their range.
fn is_in_range(number: i64) -> bool
    ensures { result ≡ not (refused.is_out_of_range number) }
{
    let _number = number;
    true
}

/// The facts of a condition.
pub fn cond_facts(cond: &Cond) -> TreeFacts
    ensures nodes { result.nodes ≡ min 129 (refused.cond_nodes (cond_tree cond.now)) }
    ensures columns { result.columns ≡ refused.has_column_arithmetic (cond_tree cond.now) }
    ensures unread { result.unread ≡ cond_has_unread (cond_tree cond.now) }
{
    match cond {
        Cond::Cmp { left, right, .. } => beside(side_facts(left), side_facts(right)),
        Cond::Between { of, low, high } => beside(
            side_facts(of),
            beside(side_facts(low), side_facts(high)),
        ),
        Cond::IsNull(of) => side_facts(of),
        Cond::Not(of) => {
            let of = cond_facts(of);
            TreeFacts {
                nodes: joined_nodes(of.nodes, 0, MOST_OF_COND),
                ..of
            }
        }
        Cond::And(left, right) | Cond::Or(left, right) => {
            let left = cond_facts(left);
            let right = cond_facts(right);
            TreeFacts {
                nodes: joined_nodes(left.nodes, right.nodes, MOST_OF_COND),
                ..beside(left, right)
            }
        }
    }
}

/// The facts of a test of one side.
pub(crate) fn side_facts(side: &Expr) -> TreeFacts
    ensures nodes { result.nodes ≡ 1 }
    ensures columns { result.columns ≡ refused.is_column_arithmetic (expr_tree side.now) }
    ensures unread { result.unread ≡ has_unread (expr_tree side.now) }
{
    let facts = expr_facts(side);
    let is_operator = matches!(side, Expr::Arith { .. });
    TreeFacts {
        nodes: 1,
        columns: is_operator && facts.columns,
        unread: facts.unread,
    }
}

/// The facts of a test of the sides of two tests.
pub(crate) fn beside(left: TreeFacts, right: TreeFacts) -> TreeFacts
    ensures nodes { result.nodes ≡ 1 }
    ensures columns { result.columns ≡ (left.columns || right.columns) }
    ensures unread { result.unread ≡ (left.unread || right.unread) }
{
    TreeFacts {
        nodes: 1,
        columns: left.columns || right.columns,
        unread: left.unread || right.unread,
    }
}
