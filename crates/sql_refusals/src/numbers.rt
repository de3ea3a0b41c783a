//! Literals that could not be read, and numbers past 64 bits.
ghost use Rattle.std.specs.Prelude.{◌≡◌, not, pos};
ghost use Rattle.std.specs.List.{list_any};
ghost use Rattle.sql_grammar.specs.Refused.{has_wide_number, is_out_of_range, is_wide_limit, is_wide_place};
ghost use Rattle.read_laws.specs.Unread.{has_literal, is_unread_cell, stmt_has_wide_number};
ghost use Rattle.sql_tree.specs.Tree.{expr_tree, query_tree, stmt_tree};

use cell_core::{Cell, Column, Sequence};
use sql_tree::{Expr, Place, Query, SortKey, Stmt};

/// Whether it is a literal that could not be read. Each number of 64 bits is in range.
fn is_unread(cell: &Cell) -> bool
    ensures { result ≡ is_unread_cell cell.now }
{
    match cell {
        Cell::Huge(_) => true,
        Cell::Int(number) => !in_range(*number),
        _ => false,
    }
}

/// Each number of 64 bits is in range.
fn in_range(number: i64) -> bool
    ensures { result ≡ not (is_out_of_range number) }
{
    let _number = number;
    true
}

/// Whether a literal of the expression could not be read: a Huge, which stands for a number of more than
/// 64 bits.
pub fn has_unread(expr: &Expr) -> bool
    ensures { result ≡ has_literal is_unread_cell (expr_tree expr.now) }
{
    match expr {
        Expr::Lit(literal) => is_unread(literal),
        Expr::Col(_) => false,
        Expr::Arith { left, right, .. } => has_unread(left) || has_unread(right),
        Expr::Agg { of: None, .. } => false,
        Expr::Agg { of: Some(of), .. } => has_unread(of),
    }
}

/// Whether a default of the columns could not be read.
pub(crate) fn any_unread_default(columns: &[Column]) -> bool
    ensures { result ≡ list_any (λ column. is_unread_cell column.default) columns.now }
{
    let mut rest = columns;
    'columns: while let [column, more @ ..] = rest {
        if is_unread(&column.default) {
            return true;
        }
        rest = more;
    }
    false
}

/// Whether a cell of the rows could not be read.
pub(crate) fn any_unread_row(rows: &[Sequence<Cell>]) -> bool
    ensures { result ≡ list_any (list_any is_unread_cell) rows.now }
{
    let mut rest = rows;
    'rows: while let [row, more @ ..] = rest {
        if any_unread(row.as_slice()) {
            return true;
        }
        rest = more;
    }
    false
}

fn any_unread(cells: &[Cell]) -> bool
    ensures { result ≡ list_any is_unread_cell cells.now }
{
    let mut rest = cells;
    'cells: while let [cell, more @ ..] = rest {
        if is_unread(cell) {
            return true;
        }
        rest = more;
    }
    false
}

/// Whether a position or a LIMIT is past the signed 64-bit range.
pub(crate) fn has_wide(stmt: &Stmt) -> bool
    ensures { result ≡ stmt_has_wide_number (stmt_tree stmt.now) }
{
    match stmt {
        Stmt::Query(query) | Stmt::Explain(query) => is_wide_query(query),
        _ => false,
    }
}

fn is_wide_query(query: &Query) -> bool
    ensures { result ≡ has_wide_number (query_tree query.now) }
{
    any_wide_key(query.keys.as_slice()) || is_past_limit(query.limit)
}

fn any_wide_key(keys: &[SortKey]) -> bool
    ensures { result ≡ list_any (λ key. is_wide_place key.at) keys.now }
{
    let mut rest = keys;
    'keys: while let [key, more @ ..] = rest {
        if is_past_place(&key.at) {
            return true;
        }
        rest = more;
    }
    false
}

fn is_past_place(place: &Place) -> bool
    ensures { result ≡ is_wide_place place.now }
{
    match place {
        Place::Position(n) => is_past(*n),
        Place::Named(_) => false,
    }
}

fn is_past_limit(limit: Option<u64>) -> bool
    ensures { result ≡ is_wide_limit limit }
{
    match limit {
        None => false,
        Some(n) => is_past(n),
    }
}

/// Whether a number is past the greatest one of signed 64 bits.
#[tactic(auto, using(read_laws::proofs::NumberLemmas::past_range))]
fn is_past(number: u64) -> bool
    ensures { result ≡ is_out_of_range (pos number) }
{
    number > 0x7fff_ffff_ffff_ffff
}
