//! Operators and joins whose sides may be past their limits.
ghost use Rattle.std.specs.Prelude.{◌≡◌, true, IfOk};
ghost use Rattle.sql_tree.specs.Tree.{cond_tree, expr_tree};
ghost use Rattle.sql_tree.specs.Tree.ExprTree.{Operator};
ghost use Rattle.sql_tree.specs.Tree.CondTree.{Compare, Either, Negation};
ghost use Rattle.sql_tree.specs.declared.tree.CmpOp.TheVariants as compare;
ghost use Rattle.read_laws.specs.Bounded.{bounded_operator, bounded_join, some_column};
ghost use Rattle.audit_exprs.specs.Signs as signs;

use crate::counts::{
    MOST_OF_COND, MOST_OF_EXPR, WantedSigns, beside, cond_facts, expr_facts, side_facts,
};
use cell_core::{Cell, Memory, word_of};
use sql_tree::{ArithOp, CmpOp, ColRef, Cond, Expr};
use std::alloc::Global;

/// The word that joins two conditions.
#[derive(Clone, Copy)]
pub enum Junction {
    /// `AND`
    And,
    /// `OR`
    Or,
}

/// An operator of two operands. Where one of them has more than 64 nodes, that one is kept for both,
/// with signs of the other.
pub(crate) fn operator(alloc: Global, op: ArithOp, left: Expr, right: Expr) -> Result<Expr, Memory>
    ensures { IfOk result (λ e. expr_tree e ≡ bounded_operator op (expr_tree left) (expr_tree right)) }
{
    let of_left = expr_facts(&left);
    let of_right = expr_facts(&right);
    if of_left.nodes > MOST_OF_EXPR {
        return signed_expr(alloc, left, of_left.lacks(of_right));
    }
    if of_right.nodes > MOST_OF_EXPR {
        return signed_expr(alloc, right, of_right.lacks(of_left));
    }
    plain_operator(alloc, op, left, right)
}

/// The expression with a column and with a Huge, where these are wanted.
fn signed_expr(alloc: Global, expr: Expr, wanted: WantedSigns) -> Result<Expr, Memory>
    ensures { IfOk result (λ e. expr_tree e ≡ signs.signed_expr wanted.columns wanted.unread (expr_tree expr)) }
{
    let mut signed = expr;
    if wanted.columns {
        signed = with_column(alloc, signed)?;
    }
    if wanted.unread {
        signed = plain_operator(alloc, ArithOp::Plus, signed, Expr::Lit(Cell::Huge(0)))?;
    }
    Ok(signed)
}

/// The expression with a column.
fn with_column(alloc: Global, expr: Expr) -> Result<Expr, Memory>
    ensures { IfOk result (λ e. expr_tree e ≡ signs.expr_and true (expr_tree expr) some_column) }
{
    let column = some_column(alloc)?;
    plain_operator(alloc, ArithOp::Plus, expr, column)
}

/// A column without a name, which no text has.
fn some_column(alloc: Global) -> Result<Expr, Memory>
    ensures { IfOk result (λ e. expr_tree e ≡ some_column) }
{
    Ok(Expr::Col(ColRef {
        table: None,
        column: word_of(alloc, "")?,
    }))
}

/// An operator of two operands, as it is.
fn plain_operator(alloc: Global, op: ArithOp, left: Expr, right: Expr) -> Result<Expr, Memory>
    ensures { IfOk result (λ e. expr_tree e ≡ Operator op (expr_tree left) (expr_tree right)) }
{
    let (left, right) = boxed(alloc, left, right)?;
    Ok(Expr::Arith { op, left, right })
}

/// Two conditions joined. Where one of them has more than 128 nodes, that one is kept for both, with
/// signs of the other.
pub fn join(alloc: Global, junction: Junction, left: Cond, right: Cond) -> Result<Cond, Memory>
    ensures { IfOk result (λ c. cond_tree c
        ≡ bounded_join (signs.junction_of junction) (cond_tree left) (cond_tree right)) }
{
    let of_left = cond_facts(&left);
    let of_right = cond_facts(&right);
    if of_left.nodes > MOST_OF_COND {
        return signed_cond(alloc, left, of_left.lacks(of_right));
    }
    if of_right.nodes > MOST_OF_COND {
        return signed_cond(alloc, right, of_right.lacks(of_left));
    }
    plain_join(alloc, junction, left, right)
}

/// The members of an IN list so far, and one more: the operand is one of them. Where those so far are
/// past the limit of a condition, the operand is not copied.
pub(crate) fn or_member(
    alloc: Global,
    of: &Expr,
    so_far: Cond,
    member: Expr,
) -> Result<Cond, Memory>
    ensures { IfOk result (λ c. cond_tree c ≡ bounded_join Either (cond_tree so_far)
        (Compare compare.Eq (expr_tree of.now) (expr_tree member))) }
{
    let of_so_far = cond_facts(&so_far);
    if of_so_far.nodes > MOST_OF_COND {
        let of_test = beside(side_facts(of), side_facts(&member));
        drop(member);
        return signed_cond(alloc, so_far, of_so_far.lacks(of_test));
    }
    let test = equality(alloc, of, member)?;
    plain_join(alloc, Junction::Or, so_far, test)
}

/// The operand is the member.
pub(crate) fn equality(alloc: Global, of: &Expr, member: Expr) -> Result<Cond, Memory>
    ensures { IfOk result (λ c. cond_tree c ≡ Compare compare.Eq (expr_tree of.now) (expr_tree member)) }
{
    Ok(Cond::Cmp {
        op: CmpOp::Eq,
        left: of.copy(alloc)?,
        right: member,
    })
}

/// The condition with arithmetic over columns and with a Huge, where these are wanted.
fn signed_cond(alloc: Global, cond: Cond, wanted: WantedSigns) -> Result<Cond, Memory>
    ensures { IfOk result (λ c. cond_tree c ≡ signs.signed_cond wanted.columns wanted.unread (cond_tree cond)) }
{
    let mut signed = cond;
    if wanted.columns {
        signed = with_arithmetic(alloc, signed)?;
    }
    if wanted.unread {
        let test = Cond::IsNull(Expr::Lit(Cell::Huge(0)));
        signed = plain_join(alloc, Junction::And, signed, test)?;
    }
    Ok(signed)
}

/// The condition with arithmetic over columns.
fn with_arithmetic(alloc: Global, cond: Cond) -> Result<Cond, Memory>
    ensures { IfOk result (λ c. cond_tree c ≡ signs.cond_and true (cond_tree cond) signs.column_test) }
{
    let test = column_test(alloc)?;
    plain_join(alloc, Junction::And, cond, test)
}

/// A test with arithmetic over columns.
fn column_test(alloc: Global) -> Result<Cond, Memory>
    ensures { IfOk result (λ c. cond_tree c ≡ signs.column_test) }
{
    let first = some_column(alloc)?;
    let left = with_column(alloc, first)?;
    let right = some_column(alloc)?;
    Ok(Cond::Cmp {
        op: CmpOp::Eq,
        left,
        right,
    })
}

/// Two conditions joined, as they are.
fn plain_join(alloc: Global, junction: Junction, left: Cond, right: Cond) -> Result<Cond, Memory>
    ensures { IfOk result (λ c. cond_tree c
        ≡ signs.junction_of junction (cond_tree left) (cond_tree right)) }
{
    let (left, right) = boxed(alloc, left, right)?;
    match junction {
        Junction::And => Ok(Cond::And(left, right)),
        Junction::Or => Ok(Cond::Or(left, right)),
    }
}

/// The negation of a condition.
pub(crate) fn negation(alloc: Global, of: Cond) -> Result<Cond, Memory>
    ensures { IfOk result (λ c. cond_tree c ≡ Negation (cond_tree of)) }
{
    Ok(Cond::Not(Box::new(alloc, of)?))
}

/// Two things, each in a box.
fn boxed<T: Drop>(alloc: Global, left: T, right: T) -> Result<(Box<T>, Box<T>), Memory>
    ensures { IfOk result (λ both. (both.0.value ≡ left) × (both.1.value ≡ right)) }
{
    let left = Box::new(alloc, left)?;
    let right = Box::new(alloc, right)?;
    Ok((left, right))
}
