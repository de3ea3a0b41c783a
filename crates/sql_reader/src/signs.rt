//! Signs of what a reader leaves out past its limits: a column, a Huge, arithmetic over columns.
ghost use Rattle.std.specs.Prelude.{◌≡◌, ◌&&◌, not, if◌then◌else◌, IfOk};
ghost use Rattle.sql_grammar.specs.Refused as refused;
ghost use Rattle.read_laws.specs.Unread.{unread_cell};
ghost use Rattle.sql_tree.specs.Tree.{cond_tree, expr_tree};
ghost use Rattle.sql_tree.specs.Tree.CondTree.{Both, Compare, IsNull};
ghost use Rattle.sql_tree.specs.Tree.ExprTree.{Literal, Operator};
ghost use Rattle.sql_tree.specs.declared.tree.ArithOp.TheVariants as arith;
ghost use Rattle.sql_tree.specs.declared.tree.CmpOp.TheVariants as compare;
ghost use Rattle.read_laws.specs.Bounded as kept;

use crate::cursor::beside;
use crate::number::unread;
use cell_core::{Memory, word_of};
use sql_refusals::{cond_has_unread, has_column, has_column_arithmetic, has_unread};
use sql_tree::{ArithOp, CmpOp, ColRef, Cond, Expr};
use std::alloc::Global;

/// The expression, with a sign of a column and of a Huge, where only the other has them.
pub(crate) fn with_signs(alloc: Global, other: &Expr, expr: Expr) -> Result<Expr, Memory>
    ensures { IfOk result (λ e. expr_tree e ≡ kept.with_signs (expr_tree other.now) (expr_tree expr)) }
{
    let expr = with_column(alloc, other, expr)?;
    with_unread(alloc, other, expr)
}

fn with_column(alloc: Global, other: &Expr, expr: Expr) -> Result<Expr, Memory>
    ensures { IfOk result (λ e. expr_tree e ≡ kept.with_column (expr_tree other.now) (expr_tree expr)) }
{
    if has_column(other) && !has_column(&expr) {
        let column = some_column(alloc)?;
        return plus(alloc, expr, column);
    }
    Ok(expr)
}

fn with_unread(alloc: Global, other: &Expr, expr: Expr) -> Result<Expr, Memory>
    ensures { IfOk result (λ e. expr_tree e ≡ kept.with_unread (expr_tree other.now) (expr_tree expr)) }
{
    if has_unread(other) && !has_unread(&expr) {
        return plus(alloc, expr, Expr::Lit(unread()));
    }
    Ok(expr)
}

/// The condition, with a sign of arithmetic over columns and of a Huge, where only the other has them.
pub(crate) fn with_cond_signs(alloc: Global, other: Cond, cond: Cond) -> Result<Cond, Memory>
    ensures { IfOk result (λ c. cond_tree c ≡ kept.with_cond_signs (cond_tree other) (cond_tree cond)) }
{
    let arithmetic = has_column_arithmetic(&other);
    let unread = cond_has_unread(&other);
    drop(other);
    let cond = with_arithmetic(alloc, arithmetic, cond)?;
    with_unread_test(alloc, unread, cond)
}

/// The condition, with arithmetic over columns where that is wanted and it has none.
pub(crate) fn with_arithmetic(alloc: Global, wanted: bool, cond: Cond) -> Result<Cond, Memory>
    ensures { IfOk result (λ c. cond_tree c ≡ (if wanted && not (refused.has_column_arithmetic (cond_tree cond))
        then Both (cond_tree cond) (Compare compare.Eq (Operator arith.Plus kept.some_column kept.some_column) kept.some_column)
        else cond_tree cond)) }
{
    if wanted && !has_column_arithmetic(&cond) {
        let (cond, test) = beside(cond, column_arithmetic(alloc))?;
        return and(alloc, cond, test);
    }
    Ok(cond)
}

/// The condition, with a Huge where that is wanted and it has none.
pub(crate) fn with_unread_test(alloc: Global, wanted: bool, cond: Cond) -> Result<Cond, Memory>
    ensures { IfOk result (λ c. cond_tree c ≡ (if wanted && not (kept.cond_has_unread (cond_tree cond))
        then Both (cond_tree cond) (IsNull (Literal unread_cell))
        else cond_tree cond)) }
{
    if wanted && !cond_has_unread(&cond) {
        return and(alloc, cond, Cond::IsNull(Expr::Lit(unread())));
    }
    Ok(cond)
}

/// A test with arithmetic over columns.
fn column_arithmetic(alloc: Global) -> Result<Cond, Memory>
    ensures { IfOk result (λ c. cond_tree c
        ≡ Compare compare.Eq (Operator arith.Plus kept.some_column kept.some_column) kept.some_column) }
{
    let first = some_column(alloc)?;
    let second = some_column(alloc)?;
    let sum = plus(alloc, first, second)?;
    let right = some_column(alloc)?;
    Ok(equal(sum, right))
}

/// A column without a name, which no text has.
fn some_column(alloc: Global) -> Result<Expr, Memory>
    ensures { IfOk result (λ e. expr_tree e ≡ kept.some_column) }
{
    let column = word_of(alloc, "")?;
    Ok(Expr::Col(ColRef {
        table: None,
        column,
    }))
}

fn plus(alloc: Global, left: Expr, right: Expr) -> Result<Expr, Memory>
    ensures { IfOk result (λ e. expr_tree e ≡ Operator arith.Plus (expr_tree left) (expr_tree right)) }
{
    let (left, right) = both_boxed(alloc, left, right)?;
    Ok(Expr::Arith {
        op: ArithOp::Plus,
        left,
        right,
    })
}

/// Two conditions joined by AND, of any size.
pub(crate) fn and(alloc: Global, left: Cond, right: Cond) -> Result<Cond, Memory>
    ensures { IfOk result (λ c. cond_tree c ≡ Both (cond_tree left) (cond_tree right)) }
{
    let (left, right) = both_boxed(alloc, left, right)?;
    Ok(Cond::And(left, right))
}

/// Two things, each in a box.
pub(crate) fn both_boxed<T: Drop, U: Drop>(
    alloc: Global,
    left: T,
    right: U,
) -> Result<(Box<T>, Box<U>), Memory>
    ensures { IfOk result (λ both. (both.0.value ≡ left) × (both.1.value ≡ right)) }
{
    let left = Box::new(alloc, left)?;
    let right = Box::new(alloc, right)?;
    Ok((left, right))
}

fn equal(left: Expr, right: Expr) -> Cond
    ensures { cond_tree result ≡ Compare compare.Eq (expr_tree left) (expr_tree right) }
{
    Cond::Cmp {
        op: CmpOp::Eq,
        left,
        right,
    }
}
