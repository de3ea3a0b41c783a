ghost use Rattle.std.specs.Prelude.{◌≡◌, Some, None, option_copied, IfOk, IsErrOf};
ghost use Rattle.sql_grammar.specs.Reads.{tokens_in};
ghost use Rattle.sql_tree.specs.Tree.{expr_tree};
ghost use Rattle.read_laws.specs.Chain.{first_token, after_first};
ghost use Rattle.read_laws.specs.Bounded.{bounded, bounded_operator};
ghost use Rattle.read_laws.specs.ExprReader as reader;
ghost use Rattle.text_bytes.specs.Days.{day_named};

use crate::cursor::{Cursor, digits, is_dot, name, sign, star, text};
use crate::number::{negative_number, plain_number};
use crate::reading::TreeError;
use crate::signs::with_signs;
use cell_core::{Cell, Memory, Word};
use sql_refusals::is_large_expr;
use sql_tree::{ArithOp, ColRef, Expr, Keyword, Symbol, Token};
use std::alloc::Global;
use text_bytes::named_day;

/// An expression of at most so many levels: expr = term {("+" | "-") term}.
#[cycle(expr)]
#[tactic(auto, using(read_laws::proofs::ExprLaws::expr_goes_on, read_laws::proofs::ExprLaws::expr_none))]
pub(crate) fn expr(alloc: Global, tokens: &mut Cursor<'_>, depth: usize) -> Result<Expr, TreeError>
    ensures found { IfOk result (λ e. reader.expr bounded (reader.factor bounded depth)
        (tokens_in tokens.old.rest.now) ≡ Some (expr_tree e, tokens_in tokens.new.rest.now)) }
    ensures none { IsErrOf result TreeError.Syntax →
        reader.expr bounded (reader.factor bounded depth) (tokens_in tokens.old.rest.now) ≡ None }
{
    let first = factor(alloc, tokens, depth)?;
    expr_after(alloc, tokens, depth, first)
}

/// The rest of an expression after its first factor.
#[cycle(expr)]
#[tactic(auto, unfolding(read_laws::specs::ExprReader::expr_after))]
pub(crate) fn expr_after(
    alloc: Global,
    tokens: &mut Cursor<'_>,
    depth: usize,
    first: Expr,
) -> Result<Expr, TreeError>
    ensures found { IfOk result (λ e.
        reader.expr_after bounded (reader.factor bounded depth) (expr_tree first)
        (tokens_in tokens.old.rest.now) ≡ Some (expr_tree e, tokens_in tokens.new.rest.now)) }
    ensures none { IsErrOf result TreeError.Syntax →
        reader.expr_after bounded (reader.factor bounded depth) (expr_tree first)
        (tokens_in tokens.old.rest.now) ≡ None }
{
    let mut left = term_after(alloc, tokens, depth, first)?;
    'terms: for turn in 0..tokens.len() {
        let Some(op) = sign(tokens.peek()) else {
            return Ok(left);
        };
        tokens.advance();
        let right = term(alloc, tokens, depth)?;
        left = operator(alloc, op, left, right)?;
    }
    Ok(left)
}

/// term = factor {"*" factor}
#[cycle(expr)]
#[tactic(auto, unfolding(read_laws::specs::ExprReader::term))]
fn term(alloc: Global, tokens: &mut Cursor<'_>, depth: usize) -> Result<Expr, TreeError>
    ensures found { IfOk result (λ e. reader.term bounded (reader.factor bounded depth)
        (tokens_in tokens.old.rest.now) ≡ Some (expr_tree e, tokens_in tokens.new.rest.now)) }
    ensures none { IsErrOf result TreeError.Syntax →
        reader.term bounded (reader.factor bounded depth) (tokens_in tokens.old.rest.now) ≡ None }
{
    let first = factor(alloc, tokens, depth)?;
    term_after(alloc, tokens, depth, first)
}

/// The rest of a term after its first factor.
#[cycle(expr)]
fn term_after(
    alloc: Global,
    tokens: &mut Cursor<'_>,
    depth: usize,
    first: Expr,
) -> Result<Expr, TreeError>
    ensures found { IfOk result (λ e.
        reader.term_after bounded (reader.factor bounded depth) (expr_tree first)
        (tokens_in tokens.old.rest.now) ≡ Some (expr_tree e, tokens_in tokens.new.rest.now)) }
    ensures none { IsErrOf result TreeError.Syntax →
        reader.term_after bounded (reader.factor bounded depth) (expr_tree first)
        (tokens_in tokens.old.rest.now) ≡ None }
{
    let mut left = first;
    'factors: for turn in 0..tokens.len() {
        let Some(op) = star(tokens.peek()) else {
            return Ok(left);
        };
        tokens.advance();
        let right = factor(alloc, tokens, depth)?;
        left = operator(alloc, op, left, right)?;
    }
    Ok(left)
}

/// A factor, which takes a level.
#[cycle(expr)]
#[tactic(auto, using(read_laws::proofs::ExprLaws::factor_none, read_laws::proofs::ExprLaws::factor_inner))]
fn factor(alloc: Global, tokens: &mut Cursor<'_>, depth: usize) -> Result<Expr, TreeError>
    ensures found { IfOk result (λ e. reader.factor bounded depth
        (tokens_in tokens.old.rest.now) ≡ Some (expr_tree e, tokens_in tokens.new.rest.now)) }
    ensures none { IsErrOf result TreeError.Syntax →
        reader.factor bounded depth (tokens_in tokens.old.rest.now) ≡ None }
{
    if depth == 0 {
        return Err(TreeError::Syntax);
    }
    inner_factor(alloc, tokens, depth - 1)
}

/// A factor, in which so many levels are left: digits, a string, a day, NULL, a column, what follows a
/// `-`, or an expression in parentheses.
#[cycle(expr)]
fn inner_factor(alloc: Global, tokens: &mut Cursor<'_>, depth: usize) -> Result<Expr, TreeError>
    ensures found { IfOk result (λ e. reader.factor_at bounded (reader.factor bounded depth)
        (first_token (tokens_in tokens.old.rest.now)) (after_first (tokens_in tokens.old.rest.now))
        ≡ Some (expr_tree e, tokens_in tokens.new.rest.now)) }
    ensures none { IsErrOf result TreeError.Syntax →
        reader.factor_at bounded (reader.factor bounded depth)
        (first_token (tokens_in tokens.old.rest.now)) (after_first (tokens_in tokens.old.rest.now))
        ≡ None }
{
    match tokens.next() {
        Some(Token::Digits(digits)) => Ok(Expr::Lit(plain_number(digits.bytes()))),
        Some(Token::Text(text)) => Ok(Expr::Lit(Cell::Text(text.share()?))),
        Some(Token::Key(Keyword::Date)) => date(tokens),
        Some(Token::Key(Keyword::Null)) => Ok(Expr::Lit(Cell::Nil)),
        Some(Token::Name(name)) => Ok(Expr::Col(column(name, tokens)?)),
        Some(Token::Quoted(name)) => Ok(Expr::Col(column(name, tokens)?)),
        Some(Token::Symbol(Symbol::Minus)) => negative(alloc, tokens, depth),
        Some(Token::Symbol(Symbol::Open)) => {
            let inner = expr(alloc, tokens, depth)?;
            tokens.close()?;
            Ok(inner)
        }
        _ => Err(TreeError::Syntax),
    }
}

/// What follows a `-`: digits, of which it is the sign, or an operand that is subtracted from 0.
#[cycle(expr)]
#[tactic(auto, unfolding(read_laws::specs::ExprReader::negative))]
fn negative(alloc: Global, tokens: &mut Cursor<'_>, depth: usize) -> Result<Expr, TreeError>
    ensures found { IfOk result (λ e. reader.negative bounded (reader.factor bounded depth)
        (tokens_in tokens.old.rest.now) ≡ Some (expr_tree e, tokens_in tokens.new.rest.now)) }
    ensures none { IsErrOf result TreeError.Syntax →
        reader.negative bounded (reader.factor bounded depth)
        (tokens_in tokens.old.rest.now) ≡ None }
{
    if let Some(digits) = digits(tokens.peek()) {
        let literal = negative_number(digits.bytes());
        tokens.advance();
        return Ok(Expr::Lit(literal));
    }
    let operand = factor(alloc, tokens, depth)?;
    Ok(operator(alloc, ArithOp::Minus, Expr::Lit(Cell::Int(0)), operand)?)
}

/// An operator of two operands. Where one of them has more than 64 nodes, that one stands for both, with
/// signs of the other.
fn operator(alloc: Global, op: ArithOp, left: Expr, right: Expr) -> Result<Expr, Memory>
    ensures { IfOk result (λ e. expr_tree e ≡ bounded_operator op (expr_tree left) (expr_tree right)) }
{
    if is_large_expr(&left) {
        return with_signs(alloc, &right, left);
    }
    if is_large_expr(&right) {
        return with_signs(alloc, &left, right);
    }
    Ok(Expr::Arith {
        op,
        left: Box::new(alloc, left)?,
        right: Box::new(alloc, right)?,
    })
}

/// What follows DATE: a string that names a day.
#[tactic(auto, unfolding(read_laws::specs::ExprReader::date))]
fn date(tokens: &mut Cursor<'_>) -> Result<Expr, TreeError>
    ensures found { IfOk result (λ e. reader.date (tokens_in tokens.old.rest.now)
        ≡ Some (expr_tree e, tokens_in tokens.new.rest.now)) }
    ensures none { IsErrOf result TreeError.Syntax →
        reader.date (tokens_in tokens.old.rest.now) ≡ None }
{
    let Some(text) = text(tokens.next()) else {
        return Err(TreeError::Syntax);
    };
    match day(text) {
        Some(day) => Ok(Expr::Lit(Cell::Day(day))),
        None => Err(TreeError::Syntax),
    }
}

/// The day that a text names.
pub fn day(text: &Word) -> Option<i32>
    ensures { result ≡ day_named text.now }
{
    named_day(text.text())
}

/// A column that begins with the name: `column` or `table.column`. On an error, `Memory` too, the cursor
/// may have passed some of its tokens.
#[tactic(auto, unfolding(read_laws::specs::ExprReader::column))]
pub fn column(first: &Word, tokens: &mut Cursor<'_>) -> Result<ColRef, TreeError>
    ensures found { IfOk result (λ column. reader.column first.now (tokens_in tokens.old.rest.now)
        ≡ Some (column, tokens_in tokens.new.rest.now)) }
    ensures none { IsErrOf result TreeError.Syntax →
        reader.column first.now (tokens_in tokens.old.rest.now) ≡ None }
{
    if !is_dot(tokens.peek()) {
        let column = first.share()?;
        return Ok(ColRef {
            table: None,
            column,
        });
    }
    tokens.advance();
    let Some(second) = name(tokens.next()) else {
        return Err(TreeError::Syntax);
    };
    let table = first.share()?;
    let column = second.share()?;
    Ok(ColRef {
        table: Some(table),
        column,
    })
}
