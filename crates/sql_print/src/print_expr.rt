ghost use Rattle.std.specs.Prelude.{◌≡◌, ◌++◌, codes, OnOk};
ghost use Rattle.sql_print.specs.Canon as canon;
ghost use Rattle.sql_tree.specs.Tree.{cond_tree, expr_tree};

use crate::print_parts::write_bytes;
use cell_core::{Cell, Memory};
use cell_text::{is_printed_day, write_cell};
use sql_tree::{AggOp, ArithOp, CmpOp, ColRef, Cond, Expr, write_name, write_quoted};

/// Appends a condition.
#[cycle(conditions)]
pub(crate) fn write_cond(cond: &Cond, out: &mut Vec<u8>) -> Result<(), Memory>
    ensures { OnOk result (out.new.items ≡ out.old.items ++ canon.cond_text (cond_tree cond.now)) }
{
    match cond {
        Cond::Cmp { op, left, right } => write_compared(*op, left, right, out),
        Cond::Between { of, low, high } => write_within(of, low, high, out),
        Cond::IsNull(of) => write_null_test(of, out),
        Cond::Not(cond) => {
            write_bytes(b"NOT ", out)?;
            write_part(cond, out)
        }
        Cond::And(left, right) => {
            write_part(left, out)?;
            write_bytes(b" AND ", out)?;
            write_part(right, out)
        }
        Cond::Or(left, right) => {
            write_cond_enclosed(left, out)?;
            write_bytes(b" OR ", out)?;
            write_cond_enclosed(right, out)
        }
    }
}

/// Appends an operand of AND or NOT.
#[cycle(conditions)]
fn write_part(cond: &Cond, out: &mut Vec<u8>) -> Result<(), Memory>
    ensures { OnOk result (out.new.items ≡ out.old.items ++ canon.part_text (cond_tree cond.now)) }
{
    match cond {
        Cond::Cmp { op, left, right } => write_compared(*op, left, right, out),
        Cond::Between { of, low, high } => write_within(of, low, high, out),
        Cond::IsNull(of) => write_null_test(of, out),
        _ => write_cond_enclosed(cond, out),
    }
}

/// Appends a condition in parentheses.
#[cycle(conditions)]
fn write_cond_enclosed(cond: &Cond, out: &mut Vec<u8>) -> Result<(), Memory>
    ensures { OnOk result (out.new.items ≡ out.old.items ++ canon.enclosed (canon.cond_text (cond_tree cond.now))) }
{
    write_bytes(b"(", out)?;
    write_cond(cond, out)?;
    write_bytes(b")", out)
}

fn write_compared(op: CmpOp, left: &Expr, right: &Expr, out: &mut Vec<u8>) -> Result<(), Memory>
    ensures { OnOk result (out.new.items ≡ out.old.items ++ canon.compared_text op (expr_tree left.now) (expr_tree right.now)) }
{
    write_operand(left, out)?;
    write_compare(op, out)?;
    write_operand(right, out)
}

fn write_within(of: &Expr, low: &Expr, high: &Expr, out: &mut Vec<u8>) -> Result<(), Memory>
    ensures { OnOk result (out.new.items ≡ out.old.items ++ canon.within_text (expr_tree of.now) (expr_tree low.now) (expr_tree high.now)) }
{
    write_operand(of, out)?;
    write_bytes(b" BETWEEN ", out)?;
    write_operand(low, out)?;
    write_bytes(b" AND ", out)?;
    write_operand(high, out)
}

fn write_null_test(of: &Expr, out: &mut Vec<u8>) -> Result<(), Memory>
    ensures { OnOk result (out.new.items ≡ out.old.items ++ canon.null_test_text (expr_tree of.now)) }
{
    write_operand(of, out)?;
    write_bytes(b" IS NULL", out)
}

/// Appends an expression.
#[cycle(expressions)]
pub(crate) fn write_expr(expr: &Expr, out: &mut Vec<u8>) -> Result<(), Memory>
    ensures { OnOk result (out.new.items ≡ out.old.items ++ canon.expr_text (expr_tree expr.now)) }
{
    match expr {
        Expr::Lit(literal) => write_literal(literal, out),
        Expr::Col(column) => write_reference(column, out),
        Expr::Arith { op, left, right } => {
            write_operand(left, out)?;
            write_arith(*op, out)?;
            write_operand(right, out)
        }
        Expr::Agg { f, of } => {
            write_aggregate(*f, out)?;
            match of {
                None => write_bytes(b"(*)", out),
                Some(of) => write_expr_enclosed(of, out),
            }
        }
    }
}

/// Appends an operand: an operator is put in parentheses.
#[cycle(expressions)]
fn write_operand(expr: &Expr, out: &mut Vec<u8>) -> Result<(), Memory>
    ensures { OnOk result (out.new.items ≡ out.old.items ++ canon.operand_text (expr_tree expr.now)) }
{
    match expr {
        Expr::Arith { .. } => write_expr_enclosed(expr, out),
        _ => write_expr(expr, out),
    }
}

/// Appends an expression in parentheses.
#[cycle(expressions)]
fn write_expr_enclosed(expr: &Expr, out: &mut Vec<u8>) -> Result<(), Memory>
    ensures { OnOk result (out.new.items ≡ out.old.items ++ canon.enclosed (canon.expr_text (expr_tree expr.now))) }
{
    write_bytes(b"(", out)?;
    write_expr(expr, out)?;
    write_bytes(b")", out)
}

/// Appends a column, after its table where one is written.
pub(crate) fn write_reference(column: &ColRef, out: &mut Vec<u8>) -> Result<(), Memory>
    ensures { OnOk result (out.new.items ≡ out.old.items ++ canon.reference_text column.now) }
{
    if let Some(table) = &column.table {
        write_name(table, out)?;
        write_bytes(b".", out)?;
        return write_name(&column.column, out);
    }
    write_name(&column.column, out)
}

/// Appends a literal; a cell that no literal writes is appended as its text.
pub(crate) fn write_literal(literal: &Cell, out: &mut Vec<u8>) -> Result<(), Memory>
    ensures { OnOk result (out.new.items ≡ out.old.items ++ canon.literal_text literal.now) }
{
    match literal {
        Cell::Text(text) => write_quoted(b'\'', text.text(), out),
        Cell::Day(day) if is_printed_day(*day) => {
            write_bytes(b"DATE '", out)?;
            write_cell(literal, out)?;
            write_bytes(b"'", out)
        }
        Cell::Nil => write_bytes(b"NULL", out),
        _ => write_cell(literal, out),
    }
}

fn write_arith(op: ArithOp, out: &mut Vec<u8>) -> Result<(), Memory>
    ensures { OnOk result (out.new.items ≡ out.old.items ++ canon.arith_text op) }
{
    match op {
        ArithOp::Plus => write_bytes(b" + ", out),
        ArithOp::Minus => write_bytes(b" - ", out),
        ArithOp::Times => write_bytes(b" * ", out),
    }
}

fn write_aggregate(f: AggOp, out: &mut Vec<u8>) -> Result<(), Memory>
    ensures { OnOk result (out.new.items ≡ out.old.items ++ canon.aggregate_text f) }
{
    match f {
        AggOp::Count => write_bytes(b"COUNT", out),
        AggOp::Sum => write_bytes(b"SUM", out),
        AggOp::Min => write_bytes(b"MIN", out),
        AggOp::Max => write_bytes(b"MAX", out),
    }
}

fn write_compare(op: CmpOp, out: &mut Vec<u8>) -> Result<(), Memory>
    ensures { OnOk result (out.new.items ≡ out.old.items ++ canon.compare_text op) }
{
    match op {
        CmpOp::Eq => write_bytes(b" = ", out),
        CmpOp::Ne => write_bytes(b" <> ", out),
        CmpOp::Lt => write_bytes(b" < ", out),
        CmpOp::Le => write_bytes(b" <= ", out),
        CmpOp::Gt => write_bytes(b" > ", out),
        CmpOp::Ge => write_bytes(b" >= ", out),
    }
}
