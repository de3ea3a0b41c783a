//! Tables and statements made by hand.
use cell_core::{Cell, Column, Kind, Memory, Sequence, word_of};
use sql_tree::{AggOp, ArithOp, CmpOp, ColRef, Cond, Expr};
use std::alloc::Global;

/// The sequence of one.
pub(crate) fn one<T: Drop>(alloc: Global, thing: T) -> Result<Sequence<T>, Memory> {
    let mut things = Sequence::new(alloc);
    things.push(thing)?;
    Ok(things)
}

/// A column of numbers.
pub(crate) fn column(alloc: Global, name: &str) -> Result<Column, Memory> {
    let name = word_of(alloc, name)?;
    Ok(Column {
        name,
        kind: Kind::Int,
        width: 0,
        not_null: false,
        default: Cell::Nil,
    })
}

/// The columns `a` and `b`.
pub(crate) fn columns(alloc: Global) -> Result<Sequence<Column>, Memory> {
    let mut columns = one(alloc, column(alloc, "a")?)?;
    columns.push(column(alloc, "b")?)?;
    Ok(columns)
}

/// A row of two cells.
pub(crate) fn row(alloc: Global, a: Cell, b: Cell) -> Result<Sequence<Cell>, Memory> {
    let mut row = one(alloc, a)?;
    row.push(b)?;
    Ok(row)
}

/// A column as an expression.
pub(crate) fn named(alloc: Global, name: &str) -> Result<Expr, Memory> {
    Ok(Expr::Col(ColRef {
        table: None,
        column: word_of(alloc, name)?,
    }))
}

/// An expression, times the largest number.
pub(crate) fn times_largest(alloc: Global, expr: Expr) -> Result<Expr, Memory> {
    Ok(Expr::Arith {
        op: ArithOp::Times,
        left: Box::new(alloc, expr)?,
        right: Box::new(alloc, Expr::Lit(Cell::Int(9_223_372_036_854_775_807)))?,
    })
}

/// `NOT a = 1`
pub(crate) fn not_one(alloc: Global) -> Result<Option<Cond>, Memory> {
    let equal = Cond::Cmp {
        op: CmpOp::Eq,
        left: named(alloc, "a")?,
        right: Expr::Lit(Cell::Int(1)),
    };
    Ok(Some(Cond::Not(Box::new(alloc, equal)?)))
}

/// `COUNT(*) > 1`
pub(crate) fn count_above_one() -> Option<Cond> {
    let count = Expr::Agg {
        f: AggOp::Count,
        of: None,
    };
    Some(Cond::Cmp {
        op: CmpOp::Gt,
        left: count,
        right: Expr::Lit(Cell::Int(1)),
    })
}
