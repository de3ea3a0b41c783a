//! The readers of an expression and of a condition alone, which `parse` doesn't call.
use cell_core::Cell;
use sql_reader::{TreeError, one_cond, one_expr, read_cond, read_expr, read_having};
use sql_refusals::{has_column, is_large_cond, is_large_expr};
use sql_tokens::tokens;
use sql_tree::{CmpOp, Cond, Expr};
use std::test::Fail;

#[test]
fn literals_are_read(rt: HostRuntime) -> Result<(), Fail> {
    one_expr();
    let alloc = rt.alloc();
    let rows = [
        ("5", Cell::Int(5)),
        ("- 5", Cell::Int(-5)),
        ("-9223372036854775808", Cell::Int(i64::MIN)),
        ("9223372036854775808", Cell::Huge(0)),
        ("null", Cell::Nil),
    ];
    for (text, cell) in &rows {
        let read = read_expr(alloc, tokens(alloc, text)?.as_slice())?;
        let Expr::Lit(literal) = &read else {
            return Err(Fail::from("no literal"));
        };
        assert!(rt; literal == cell);
    }
    Ok(())
}

#[test]
fn conditions_are_read(rt: HostRuntime) -> Result<(), Fail> {
    one_cond();
    let alloc = rt.alloc();
    let denied = read_cond(alloc, tokens(alloc, "NOT (a = 5 OR a IN (5))")?.as_slice())?;
    assert!(rt; matches!(&denied, Cond::Not(of) if matches!(&**of, Cond::Or(_, _))));
    let known = read_cond(alloc, tokens(alloc, "a IS NOT NULL")?.as_slice())?;
    assert!(rt; matches!(&known, Cond::Not(of) if matches!(&**of, Cond::IsNull(Expr::Col(_)))));
    let counted = read_having(alloc, tokens(alloc, "COUNT(*) > 5")?.as_slice())?;
    assert!(rt; matches!(&counted, Cond::Cmp { op: CmpOp::Gt, .. }));
    let summed = read_having(alloc, tokens(alloc, "SUM(a) IS NULL")?.as_slice())?;
    assert!(rt; matches!(&summed, Cond::IsNull(Expr::Agg { .. })));
    Ok(())
}

#[test]
fn other_texts_are_no_conditions(rt: HostRuntime) -> Result<(), Fail> {
    let alloc = rt.alloc();
    let texts = [
        "NOT (a = 5",
        "COUNT(*) > 5",
        "a NOT IS NULL",
        "a IS 5",
        "NULL",
    ];
    for text in &texts {
        let read = read_cond(alloc, tokens(alloc, text)?.as_slice());
        assert!(rt; matches!(read, Err(TreeError::Syntax)));
    }
    Ok(())
}

/// The literals, columns and operators of an expression.
fn nodes(expr: &Expr) -> usize {
    match expr {
        Expr::Arith { left, right, .. } => nodes(left).wrapping_add(nodes(right)).wrapping_add(1),
        _ => 1,
    }
}

/// The tests of a condition.
fn tests(cond: &Cond) -> usize {
    match cond {
        Cond::And(left, right) | Cond::Or(left, right) => tests(left).wrapping_add(tests(right)),
        Cond::Not(of) => tests(of),
        _ => 1,
    }
}

#[test]
fn long_texts_make_small_trees(rt: HostRuntime) -> Result<(), Fail> {
    let alloc = rt.alloc();
    let mut sum = "1 + ".repeat(alloc, 5000)?;
    sum.push_str("a")?;
    let sum = read_expr(alloc, tokens(alloc, sum.as_str())?.as_slice())?;
    assert!(rt; is_large_expr(&sum));
    assert!(rt; nodes(&sum) < 200);
    assert!(rt; has_column(&sum));
    let mut list = String::from_str(alloc, "a IN (")?;
    list.push_str("1, ".repeat(alloc, 5000)?.as_str())?;
    list.push_str("1)")?;
    let listed = read_cond(alloc, tokens(alloc, list.as_str())?.as_slice())?;
    assert!(rt; is_large_cond(&listed));
    assert!(rt; tests(&listed) < 200);
    Ok(())
}
