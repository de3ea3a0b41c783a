//! What is asked of a statement that was read: what is left out of it, and the first limit that it
//! passes.
ghost use Rattle.std.specs.Prelude.{◌≡◌, ◌||◌, map, nat_lt, pos};
ghost use Rattle.std.specs.List.{list_any};
ghost use Rattle.std.specs.Option.{option_copied, option_map};
ghost use Rattle.audit_read.specs.Survey as seen;
ghost use Rattle.read_laws.specs.Bounded.{has_unread};
ghost use Rattle.read_laws.specs.Unread.{is_unread_cell, passes_literal_as_read, read_limits, stmt_has_wide_number};
ghost use Rattle.sql_grammar.specs.Reads.{last_end, statement_bytes, tokens_in};
ghost use Rattle.sql_grammar.specs.Refused as refused;
ghost use Rattle.sql_tree.specs.Exprs.{cond_exprs, exprs_of_cond};
ghost use Rattle.sql_tree.specs.Tree.{cond_tree, expr_tree, item_tree, query_tree, set_tree, stmt_tree};
ghost use Rattle.sql_tree.specs.Tree.StmtTree.{Select};

use audit_exprs::{MOST_OF_COND, MOST_OF_EXPR, cond_facts, expr_facts, is_unread};
use cell_core::{Cell, Column, Sequence, Word};
use sql_tree::{Cond, Expr, Item, Place, Placed, Query, SortKey, Stmt, Token};

/// What is asked of the expressions of a statement, or of some of them.
#[derive(Clone, Copy)]
struct Asked {
    /// Whether a literal could not be read.
    unread: bool,
    /// Whether one has more than 64 nodes.
    large: bool,
}

/// What is asked of no expression.
const NOTHING: Asked = Asked {
    unread: false,
    large: false,
};

impl Asked {
    /// What is asked of these expressions and of others.
    fn and(self, other: Asked) -> Asked
        ensures unread { result.unread ≡ (self.unread || other.unread) }
        ensures large { result.large ≡ (self.large || other.large) }
    {
        Asked {
            unread: self.unread || other.unread,
            large: self.large || other.large,
        }
    }
}

/// What the profile leaves out of a statement.
pub(crate) fn left_out(stmt: &Stmt) -> Option<&'static str>
    ensures { option_copied result ≡ refused.left_out (stmt_tree stmt.now) }
{
    match stmt {
        Stmt::Query(query) | Stmt::Explain(query) => left_out_of_query(query),
        Stmt::Delete { cond, .. } | Stmt::Update { cond, .. } => arithmetic(cond.as_ref(), None),
        Stmt::Create { .. } | Stmt::Drop { .. } | Stmt::Alter { .. } | Stmt::Insert { .. } => None,
    }
}

fn left_out_of_query(query: &Query) -> Option<&'static str>
    ensures { option_copied result ≡ refused.query_left_out (query_tree query.now) }
{
    if query.froms.len() == 0 {
        return Some("SELECT WITHOUT FROM");
    }
    arithmetic(query.cond.as_ref(), query.having.as_ref())
}

/// The name of arithmetic over columns, if one of two conditions has some.
fn arithmetic(first: Option<&Cond>, second: Option<&Cond>) -> Option<&'static str>
    ensures { option_copied result ≡ seen.arithmetic_in
        (option_map cond_tree (option_copied first.entry)) (option_map cond_tree (option_copied second.entry)) }
{
    if has_arithmetic(first) || has_arithmetic(second) {
        Some("ARITHMETIC IN WHERE")
    } else {
        None
    }
}

fn has_arithmetic(cond: Option<&Cond>) -> bool
    ensures { result ≡ refused.cond_left_out (option_map cond_tree (option_copied cond.entry)) }
{
    match cond {
        Some(cond) => cond_facts(cond).columns,
        None => false,
    }
}

/// The first limit that a statement passes, given its tokens.
pub(crate) fn first_limit(tokens: &[Placed], stmt: &Stmt) -> Option<&'static str>
    ensures { option_copied result ≡ refused.first_passed
        (read_limits (statement_bytes tokens.now) (tokens_in tokens.now) (stmt_tree stmt.now)) }
{
    let asked = exprs_of(stmt);
    let [columns, tables, items, groups, keys] = lists_past(stmt);
    first_true(&[
        (bytes_between(tokens) > 65_536, "statement"),
        (has_long_name(tokens), "name"),
        (passes_literal(stmt, asked.unread), "literal"),
        (has_wide_column(stmt), "length"),
        (columns, "columns"),
        (tables, "tables"),
        (items, "items"),
        (groups, "groups"),
        (keys, "keys"),
        (has_large_cond(stmt), "conditions"),
        (asked.large, "expression"),
    ])
}

/// The name of the first limit that is passed.
fn first_true(limits: &[(bool, &'static str)]) -> Option<&'static str>
    ensures { option_copied result ≡ refused.first_passed (map (λ limit. (limit.0, limit.1.now)) limits.now) }
{
    let mut rest = limits;
    'limits: while let [(passed, name), more @ ..] = rest {
        if *passed {
            return Some(name);
        }
        rest = more;
    }
    None
}

/// The bytes from the first of the first token to the last of the last.
fn bytes_between(tokens: &[Placed]) -> usize
    ensures { result ≡ statement_bytes tokens.now }
{
    match tokens {
        [] => 0,
        [first, more @ ..] => last_end_of(first, more).saturating_sub(first.start),
    }
}

/// The end of the last token.
fn last_end_of(first: &Placed, more: &[Placed]) -> usize
    ensures { result ≡ last_end first.now more.now }
{
    let mut last = first;
    let mut rest = more;
    'tokens: while let [placed, after @ ..] = rest {
        last = placed;
        rest = after;
    }
    last.end
}

/// Whether a name has more than 64 bytes.
fn has_long_name(tokens: &[Placed]) -> bool
    ensures { result ≡ list_any refused.is_long_name (tokens_in tokens.now) }
{
    let mut rest = tokens;
    'tokens: while let [placed, more @ ..] = rest {
        if is_long(&placed.token) {
            return true;
        }
        rest = more;
    }
    false
}

fn is_long(token: &Token) -> bool
    ensures { result ≡ refused.is_long_name token.now }
{
    match token {
        Token::Name(name) | Token::Quoted(name) => name.text().len() > 64,
        _ => false,
    }
}

/// Whether a literal could not be read, or a position or a LIMIT has more than 63 bits, given
/// whether a literal of an expression could not be read.
fn passes_literal(stmt: &Stmt, unread: bool) -> bool
    requires { unread ≡ list_any has_unread (refused.stmt_exprs (stmt_tree stmt.now)) }
    ensures { result ≡ passes_literal_as_read (stmt_tree stmt.now) }
{
    match stmt {
        Stmt::Create { columns, .. } => has_unread_default(columns.as_slice()),
        Stmt::Alter { column, .. } => is_unread(&column.default),
        Stmt::Insert { rows, .. } => has_unread_row(rows.as_slice()),
        Stmt::Query(query) | Stmt::Explain(query) => unread || has_wide_number(query),
        Stmt::Drop { .. } | Stmt::Delete { .. } | Stmt::Update { .. } => unread,
    }
}

fn has_unread_default(columns: &[Column]) -> bool
    ensures { result ≡ list_any (λ column. is_unread_cell column.default) columns.now }
{
    let mut rest = columns;
    'columns: while let [column, more @ ..] = rest {
        if is_unread(&column.default) {
            return true;
        }
        rest = more;
    }
    false
}

fn has_unread_row(rows: &[Sequence<Cell>]) -> bool
    ensures { result ≡ list_any (list_any is_unread_cell) rows.now }
{
    let mut rest = rows;
    'rows: while let [row, more @ ..] = rest {
        if has_unread_cell(row.as_slice()) {
            return true;
        }
        rest = more;
    }
    false
}

fn has_unread_cell(row: &[Cell]) -> bool
    ensures { result ≡ list_any is_unread_cell row.now }
{
    let mut rest = row;
    'cells: while let [cell, more @ ..] = rest {
        if is_unread(cell) {
            return true;
        }
        rest = more;
    }
    false
}

/// Whether a position or the LIMIT of a query has more than 63 bits.
fn has_wide_number(query: &Query) -> bool
    ensures { result ≡ refused.has_wide_number (query_tree query.now) }
{
    has_wide_key(query.keys.as_slice()) || is_wide_limit(query.limit)
}

fn has_wide_key(keys: &[SortKey]) -> bool
    ensures { result ≡ list_any (λ key. refused.is_wide_place key.at) keys.now }
{
    let mut rest = keys;
    'keys: while let [key, more @ ..] = rest {
        if is_wide_place(&key.at) {
            return true;
        }
        rest = more;
    }
    false
}

fn is_wide_place(place: &Place) -> bool
    ensures { result ≡ refused.is_wide_place place.now }
{
    match place {
        Place::Position(number) => is_wide(*number),
        Place::Named(_) => false,
    }
}

fn is_wide_limit(limit: Option<u64>) -> bool
    ensures { result ≡ refused.is_wide_limit limit }
{
    match limit {
        Some(number) => is_wide(number),
        None => false,
    }
}

#[tactic(auto, using(read_laws::proofs::NumberLemmas::past_range))]
fn is_wide(number: u64) -> bool
    ensures { result ≡ refused.is_out_of_range (pos number) }
{
    number > 9_223_372_036_854_775_807
}

/// Whether a column that the statement defines is longer than 65535.
fn has_wide_column(stmt: &Stmt) -> bool
    ensures { result ≡ refused.columns_pass (list_any (λ column. nat_lt 65535 column.width)) (stmt_tree stmt.now) }
{
    match stmt {
        Stmt::Create { columns, .. } => any_wide_column(columns.as_slice()),
        Stmt::Alter { column, .. } => column.width > 65_535,
        _ => false,
    }
}

fn any_wide_column(columns: &[Column]) -> bool
    ensures { result ≡ list_any (λ column. nat_lt 65535 column.width) columns.now }
{
    let mut rest = columns;
    'columns: while let [column, more @ ..] = rest {
        if column.width > 65_535 {
            return true;
        }
        rest = more;
    }
    false
}

/// Whether there are too many columns, tables, items, columns of GROUP BY, keys of ORDER BY.
fn lists_past(stmt: &Stmt) -> [bool; 5]
    ensures { result ≡ seen.lists_past (stmt_tree stmt.now) }
{
    match stmt {
        Stmt::Create { columns, .. } => [columns.len() > 64, false, false, false, false],
        Stmt::Query(query) | Stmt::Explain(query) => [
            false,
            query.froms.len() > 4,
            query.items.len() > 32,
            query.groups.len() > 8,
            query.keys.len() > 8,
        ],
        _ => [false; 5],
    }
}

/// Whether WHERE or HAVING has more than 128 nodes.
fn has_large_cond(stmt: &Stmt) -> bool
    ensures { result ≡ refused.passes_conditions (stmt_tree stmt.now) }
{
    match stmt {
        Stmt::Query(query) | Stmt::Explain(query) => {
            is_large_cond(query.cond.as_ref()) || is_large_cond(query.having.as_ref())
        }
        Stmt::Delete { cond, .. } | Stmt::Update { cond, .. } => is_large_cond(cond.as_ref()),
        _ => false,
    }
}

fn is_large_cond(cond: Option<&Cond>) -> bool
    ensures { result ≡ nat_lt 128 (refused.nodes_of_cond (option_map cond_tree (option_copied cond.entry))) }
{
    match cond {
        Some(cond) => cond_facts(cond).nodes > MOST_OF_COND,
        None => false,
    }
}

/// What is asked of all expressions of a statement.
fn exprs_of(stmt: &Stmt) -> Asked
    ensures unread { result.unread ≡ list_any has_unread (refused.stmt_exprs (stmt_tree stmt.now)) }
    ensures large { result.large ≡ list_any seen.is_large (refused.stmt_exprs (stmt_tree stmt.now)) }
{
    match stmt {
        Stmt::Query(query) | Stmt::Explain(query) => exprs_of_query(query),
        Stmt::Delete { cond, .. } => conds_of(cond.as_ref()),
        Stmt::Update { sets, cond, .. } => sets_of(sets.as_slice()).and(conds_of(cond.as_ref())),
        Stmt::Create { .. } | Stmt::Drop { .. } | Stmt::Alter { .. } | Stmt::Insert { .. } => {
            NOTHING
        }
    }
}

fn exprs_of_query(query: &Query) -> Asked
    ensures unread { result.unread ≡ list_any has_unread (refused.stmt_exprs (Select (query_tree query.now))) }
    ensures large { result.large ≡ list_any seen.is_large (refused.stmt_exprs (Select (query_tree query.now))) }
{
    items_of(query.items.as_slice())
        .and(conds_of(query.cond.as_ref()))
        .and(conds_of(query.having.as_ref()))
}

fn items_of(items: &[Item]) -> Asked
    ensures unread { result.unread ≡ list_any has_unread (map (λ item. item.expr) (map item_tree items.now)) }
    ensures large { result.large ≡ list_any seen.is_large (map (λ item. item.expr) (map item_tree items.now)) }
{
    let mut asked = NOTHING;
    let mut rest = items;
    'items: while let [item, more @ ..] = rest {
        asked = asked.and(expr_of(&item.expr));
        rest = more;
    }
    asked
}

fn sets_of(sets: &[(Word, Expr)]) -> Asked
    ensures unread { result.unread ≡ list_any has_unread (map (λ set. set.1) (map set_tree sets.now)) }
    ensures large { result.large ≡ list_any seen.is_large (map (λ set. set.1) (map set_tree sets.now)) }
{
    let mut asked = NOTHING;
    let mut rest = sets;
    'sets: while let [set, more @ ..] = rest {
        asked = asked.and(expr_of(&set.1));
        rest = more;
    }
    asked
}

fn conds_of(cond: Option<&Cond>) -> Asked
    ensures unread { result.unread ≡ list_any has_unread (exprs_of_cond (option_map cond_tree (option_copied cond.entry))) }
    ensures large { result.large ≡ list_any seen.is_large (exprs_of_cond (option_map cond_tree (option_copied cond.entry))) }
{
    match cond {
        Some(cond) => cond_of(cond),
        None => NOTHING,
    }
}

fn cond_of(cond: &Cond) -> Asked
    ensures unread { result.unread ≡ list_any has_unread (cond_exprs (cond_tree cond.now)) }
    ensures large { result.large ≡ list_any seen.is_large (cond_exprs (cond_tree cond.now)) }
{
    match cond {
        Cond::Cmp { left, right, .. } => expr_of(left).and(expr_of(right)),
        Cond::Between { of, low, high } => expr_of(of).and(expr_of(low).and(expr_of(high))),
        Cond::IsNull(of) => expr_of(of),
        Cond::Not(of) => cond_of(of),
        Cond::And(left, right) | Cond::Or(left, right) => cond_of(left).and(cond_of(right)),
    }
}

fn expr_of(expr: &Expr) -> Asked
    ensures unread { result.unread ≡ has_unread (expr_tree expr.now) }
    ensures large { result.large ≡ seen.is_large (expr_tree expr.now) }
{
    let facts = expr_facts(expr);
    Asked {
        unread: facts.unread,
        large: facts.nodes > MOST_OF_EXPR,
    }
}
