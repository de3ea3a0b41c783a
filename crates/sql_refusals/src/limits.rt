ghost use Rattle.std.specs.Prelude.{◌≡◌, IfOk, length, nat_lt};
ghost use Rattle.std.specs.List.{list_any};
ghost use Rattle.std.specs.Option.{option_copied};
ghost use Rattle.sql_grammar.specs.Reads.{statement_bytes as bytes_between, last_end, tokens_in};
ghost use Rattle.sql_grammar.specs.Refused.{columns_pass, first_passed, is_long_name, passes_conditions, query_passes};
ghost use Rattle.read_laws.specs.Unread.{read_limits, passes_literal_as_read};
ghost use Rattle.sql_tree.specs.Tree.{stmt_tree};

use crate::exprs::{Sought, any_expr};
use crate::nodes::any_large_cond;
use crate::numbers::{any_unread_default, any_unread_row, has_wide};
use cell_core::{Column, Memory, Word, word_of};
use sql_tree::{Placed, Query, Stmt, Token};
use std::alloc::Global;
use std::slice;

/// The most bytes of a statement.
const MOST_BYTES: usize = 65_536;

/// The most bytes of a name.
const MOST_OF_NAME: usize = 64;

/// The greatest length of VARCHAR.
const MOST_WIDTH: u32 = 65_535;

/// The most columns of a table.
const MOST_COLUMNS: usize = 64;

/// The most tables, items, columns of GROUP BY and keys of a query.
const MOST_TABLES: usize = 4;

const MOST_ITEMS: usize = 32;

const MOST_GROUPS: usize = 8;

const MOST_KEYS: usize = 8;

/// The bytes of a statement, from the first of its first token to the last of its last; 0 where it has
/// no token.
pub fn statement_bytes(tokens: &[Placed]) -> usize
    ensures { result ≡ bytes_between tokens.now }
{
    let [first, more @ ..] = tokens else {
        return 0;
    };
    end_of(first, more).saturating_sub(first.start)
}

/// The end of the last token.
fn end_of(first: &Placed, more: &[Placed]) -> usize
    ensures { result ≡ last_end first.now more.now }
{
    match more.last() {
        None => first.end,
        Some(last) => last.end,
    }
}

/// The name of the first limit that a statement passes, given its tokens. None where it passes none.
///
/// A Huge among its literals counts as a number past 64 bits, as a reader makes it; a position and
/// a
/// LIMIT are past the limit where they are past the signed numbers of 64 bits.
pub fn first_limit(alloc: Global, tokens: &[Placed], stmt: &Stmt) -> Result<Option<Word>, Memory>
    ensures { IfOk result (λ limit. limit ≡ first_passed (read_limits (bytes_between tokens.now) (tokens_in tokens.now) (stmt_tree stmt.now))) }
{
    match passed(tokens, stmt) {
        None => Ok(None),
        Some(limit) => Ok(Some(word_of(alloc, limit)?)),
    }
}

/// The name of the first limit that is passed.
fn passed(tokens: &[Placed], stmt: &Stmt) -> Option<&'static str>
    ensures { option_copied result ≡ first_passed (read_limits (bytes_between tokens.now) (tokens_in tokens.now) (stmt_tree stmt.now)) }
{
    if statement_bytes(tokens) > MOST_BYTES {
        return Some("statement");
    }
    if any_long_name(tokens) {
        return Some("name");
    }
    if is_unread(stmt) {
        return Some("literal");
    }
    if has_wide_column(stmt) {
        return Some("length");
    }
    if has_many_columns(stmt) {
        return Some("columns");
    }
    if has_many_tables(stmt) {
        return Some("tables");
    }
    if has_many_items(stmt) {
        return Some("items");
    }
    if has_many_groups(stmt) {
        return Some("groups");
    }
    if has_many_keys(stmt) {
        return Some("keys");
    }
    if has_large_cond(stmt) {
        return Some("conditions");
    }
    if any_expr(Sought::Large, stmt) {
        return Some("expression");
    }
    None
}

/// Whether a name has more than 64 bytes.
fn any_long_name(tokens: &[Placed]) -> bool
    ensures { result ≡ list_any is_long_name (tokens_in tokens.now) }
{
    let mut rest = tokens;
    'tokens: while let [placed, more @ ..] = rest {
        if is_long(&placed.token) {
            return true;
        }
        rest = more;
    }
    false
}

fn is_long(token: &Token) -> bool
    ensures { result ≡ is_long_name token.now }
{
    match token {
        Token::Name(name) | Token::Quoted(name) => name.text().len() > MOST_OF_NAME,
        _ => false,
    }
}

/// Whether a literal could not be read, or a position or a LIMIT is past the limit.
fn is_unread(stmt: &Stmt) -> bool
    ensures { result ≡ passes_literal_as_read (stmt_tree stmt.now) }
{
    let literal = match stmt {
        Stmt::Create { columns, .. } => any_unread_default(columns.as_slice()),
        Stmt::Alter { column, .. } => any_unread_default(slice::from_ref(column)),
        Stmt::Insert { rows, .. } => any_unread_row(rows.as_slice()),
        _ => any_expr(Sought::Unread, stmt),
    };
    literal || has_wide(stmt)
}

/// Whether a column that the statement defines is wider than the limit.
fn has_wide_column(stmt: &Stmt) -> bool
    ensures { result ≡ columns_pass (list_any (λ column. nat_lt 65535 column.width)) (stmt_tree stmt.now) }
{
    match stmt {
        Stmt::Create { columns, .. } => any_wide(columns.as_slice()),
        Stmt::Alter { column, .. } => any_wide(slice::from_ref(column)),
        _ => false,
    }
}

fn any_wide(columns: &[Column]) -> bool
    ensures { result ≡ list_any (λ column. nat_lt 65535 column.width) columns.now }
{
    let mut rest = columns;
    'columns: while let [column, more @ ..] = rest {
        if column.width > MOST_WIDTH {
            return true;
        }
        rest = more;
    }
    false
}

fn has_many_columns(stmt: &Stmt) -> bool
    ensures { result ≡ columns_pass (λ columns. nat_lt 64 (length columns)) (stmt_tree stmt.now) }
{
    match stmt {
        Stmt::Create { columns, .. } => columns.as_slice().len() > MOST_COLUMNS,
        _ => false,
    }
}

fn has_many_tables(stmt: &Stmt) -> bool
    ensures { result ≡ query_passes (λ query. nat_lt 4 (length query.froms)) (stmt_tree stmt.now) }
{
    match stmt {
        Stmt::Query(query) | Stmt::Explain(query) => query.froms.as_slice().len() > MOST_TABLES,
        _ => false,
    }
}

fn has_many_items(stmt: &Stmt) -> bool
    ensures { result ≡ query_passes (λ query. nat_lt 32 (length query.items)) (stmt_tree stmt.now) }
{
    match stmt {
        Stmt::Query(query) | Stmt::Explain(query) => query.items.as_slice().len() > MOST_ITEMS,
        _ => false,
    }
}

fn has_many_groups(stmt: &Stmt) -> bool
    ensures { result ≡ query_passes (λ query. nat_lt 8 (length query.groups)) (stmt_tree stmt.now) }
{
    match stmt {
        Stmt::Query(query) | Stmt::Explain(query) => query.groups.as_slice().len() > MOST_GROUPS,
        _ => false,
    }
}

fn has_many_keys(stmt: &Stmt) -> bool
    ensures { result ≡ query_passes (λ query. nat_lt 8 (length query.keys)) (stmt_tree stmt.now) }
{
    match stmt {
        Stmt::Query(query) | Stmt::Explain(query) => query.keys.as_slice().len() > MOST_KEYS,
        _ => false,
    }
}

/// Whether WHERE or HAVING has more than 128 nodes.
fn has_large_cond(stmt: &Stmt) -> bool
    ensures { result ≡ passes_conditions (stmt_tree stmt.now) }
{
    match stmt {
        Stmt::Query(query) | Stmt::Explain(query) => {
            any_large_cond(query.cond.as_ref()) || any_large_cond(query.having.as_ref())
        }
        Stmt::Delete { cond, .. } | Stmt::Update { cond, .. } => any_large_cond(cond.as_ref()),
        _ => false,
    }
}
