//! The tests of a condition: comparisons, BETWEEN, IN and IS NULL.
ghost use Rattle.std.specs.Prelude.{◌≡◌, option_copied, IfOk, IsErrOf, Some, None};
ghost use Rattle.sql_grammar.specs.Reads.{tokens_in};
ghost use Rattle.sql_tree.specs.Tree.{cond_tree, expr_tree};
ghost use Rattle.read_laws.specs.Bounded.{bounded};
ghost use Rattle.read_laws.specs.CondReader as reader;
ghost use Rattle.audit_exprs.specs.CondLevels.{member_after, range_after};
ghost use Rattle.audit_exprs.specs.Takes.{TakesAs};

use crate::bounds::{equality, negation, or_member};
use crate::cursor::{NotRead, TokenCursor, comma};
use crate::exprs::whole_expr;
use cell_core::Memory;
use sql_tree::{AggOp, CmpOp, Cond, Expr, Keyword, Symbol, Token};
use std::alloc::Global;

/// An expression or an aggregate.
#[tactic(auto, unfolding(read_laws::specs::CondReader::value))]
pub fn value(alloc: Global, tokens: &mut TokenCursor<'_>) -> Result<Expr, NotRead>
    ensures { TakesAs expr_tree (reader.value bounded) tokens.old.rest.now tokens.new.rest.now result }
{
    match aggregate_of(tokens.peek()) {
        Some(f) => {
            tokens.advance();
            tokens.symbol(Symbol::Open)?;
            argument(alloc, tokens, f)
        }
        None => whole_expr(alloc, tokens),
    }
}

/// The argument of an aggregate, with its `)`.
#[tactic(auto, unfolding(read_laws::specs::CondReader::argument))]
fn argument(alloc: Global, tokens: &mut TokenCursor<'_>, f: AggOp) -> Result<Expr, NotRead>
    ensures { TakesAs expr_tree (reader.argument bounded f) tokens.old.rest.now tokens.new.rest.now result }
{
    if is_all(f, tokens.peek()) {
        tokens.advance();
        tokens.close()?;
        return Ok(Expr::Agg { f, of: None });
    }
    let of = whole_expr(alloc, tokens)?;
    tokens.close()?;
    Ok(Expr::Agg {
        f,
        of: Some(Box::new(alloc, of)?),
    })
}

/// An operand of a test: an expression, or an aggregate too.
fn operand(alloc: Global, tokens: &mut TokenCursor<'_>, aggregates: bool) -> Result<Expr, NotRead>
    ensures { TakesAs expr_tree (reader.operand bounded aggregates)
        tokens.old.rest.now tokens.new.rest.now result }
{
    if aggregates {
        value(alloc, tokens)
    } else {
        whole_expr(alloc, tokens)
    }
}

/// A test.
#[tactic(auto, unfolding(read_laws::specs::CondReader::any_test))]
pub(crate) fn test(
    alloc: Global,
    tokens: &mut TokenCursor<'_>,
    aggregates: bool,
) -> Result<Cond, NotRead>
    ensures { TakesAs cond_tree (reader.any_test bounded (reader.operand bounded aggregates))
        tokens.old.rest.now tokens.new.rest.now result }
{
    let of = operand(alloc, tokens, aggregates)?;
    test_after(alloc, tokens, aggregates, of)
}

/// What follows the first operand of a test.
#[tactic(auto, unfolding(read_laws::specs::CondReader::test_behind, read_laws::specs::CondReader::word_test))]
fn test_after(
    alloc: Global,
    tokens: &mut TokenCursor<'_>,
    aggregates: bool,
    of: Expr,
) -> Result<Cond, NotRead>
    ensures { TakesAs cond_tree
        (reader.test_behind bounded (reader.operand bounded aggregates) (expr_tree of))
        tokens.old.rest.now tokens.new.rest.now result }
{
    if let Some(op) = comparison_of(tokens.peek()) {
        tokens.advance();
        let right = operand(alloc, tokens, aggregates)?;
        return Ok(Cond::Cmp {
            op,
            left: of,
            right,
        });
    }
    if tokens.takes(Keyword::Is) {
        return null_test(alloc, tokens, of);
    }
    range(alloc, tokens, aggregates, of)
}

/// [NOT] NULL, after an operand and IS.
#[tactic(auto, unfolding(read_laws::specs::CondReader::null_test))]
fn null_test(alloc: Global, tokens: &mut TokenCursor<'_>, of: Expr) -> Result<Cond, NotRead>
    ensures { TakesAs cond_tree (reader.null_test (expr_tree of))
        tokens.old.rest.now tokens.new.rest.now result }
{
    let is_denied = tokens.takes(Keyword::Not);
    tokens.word(Keyword::Null)?;
    let test = Cond::IsNull(of);
    if is_denied {
        return Ok(negation(alloc, test)?);
    }
    Ok(test)
}

/// [NOT] BETWEEN or [NOT] IN, after an operand.
#[tactic(auto, unfolding(read_laws::specs::CondReader::range))]
fn range(
    alloc: Global,
    tokens: &mut TokenCursor<'_>,
    aggregates: bool,
    of: Expr,
) -> Result<Cond, NotRead>
    ensures { TakesAs cond_tree
        (reader.range bounded (reader.operand bounded aggregates) (expr_tree of))
        tokens.old.rest.now tokens.new.rest.now result }
{
    if tokens.takes(Keyword::Not) {
        let test = plain_range(alloc, tokens, aggregates, of)?;
        return Ok(negation(alloc, test)?);
    }
    plain_range(alloc, tokens, aggregates, of)
}

/// BETWEEN or IN, after an operand.
fn plain_range(
    alloc: Global,
    tokens: &mut TokenCursor<'_>,
    aggregates: bool,
    of: Expr,
) -> Result<Cond, NotRead>
    ensures { TakesAs cond_tree (range_after (reader.operand bounded aggregates) (expr_tree of))
        tokens.old.rest.now tokens.new.rest.now result }
{
    match tokens.next() {
        Some(Token::Key(Keyword::Between)) => between(alloc, tokens, aggregates, of),
        Some(Token::Key(Keyword::In)) => listed(alloc, tokens, aggregates, &of),
        _ => Err(NotRead::Syntax),
    }
}

/// The two bounds after BETWEEN.
#[tactic(auto, unfolding(read_laws::specs::CondReader::within))]
fn between(
    alloc: Global,
    tokens: &mut TokenCursor<'_>,
    aggregates: bool,
    of: Expr,
) -> Result<Cond, NotRead>
    ensures { TakesAs cond_tree
        (reader.within bounded (reader.operand bounded aggregates) (expr_tree of))
        tokens.old.rest.now tokens.new.rest.now result }
{
    let low = operand(alloc, tokens, aggregates)?;
    tokens.word(Keyword::And)?;
    let high = operand(alloc, tokens, aggregates)?;
    Ok(Cond::Between { of, low, high })
}

/// The list after IN, in parentheses.
#[tactic(auto, unfolding(read_laws::specs::CondReader::listed))]
fn listed(
    alloc: Global,
    tokens: &mut TokenCursor<'_>,
    aggregates: bool,
    of: &Expr,
) -> Result<Cond, NotRead>
    ensures { TakesAs cond_tree
        (reader.listed bounded (reader.operand bounded aggregates) (expr_tree of.now))
        tokens.old.rest.now tokens.new.rest.now result }
{
    tokens.symbol(Symbol::Open)?;
    let members = members(alloc, tokens, aggregates, of)?;
    tokens.close()?;
    Ok(members)
}

/// The members of a list after IN: the operand is one of them.
#[tactic(auto, unfolding(read_laws::specs::CondReader::members))]
fn members(
    alloc: Global,
    tokens: &mut TokenCursor<'_>,
    aggregates: bool,
    of: &Expr,
) -> Result<Cond, NotRead>
    ensures found { IfOk result (λ c.
        reader.members bounded (reader.operand bounded aggregates) (expr_tree of.now)
        (tokens_in tokens.old.rest.now) ≡ Some (cond_tree c, tokens_in tokens.new.rest.now)) }
    ensures none { IsErrOf result NotRead.Syntax →
        reader.members bounded (reader.operand bounded aggregates) (expr_tree of.now)
        (tokens_in tokens.old.rest.now) ≡ None }
{
    let first = operand(alloc, tokens, aggregates)?;
    let mut so_far = equality(alloc, of, first)?;
    'members: for turn in 0..tokens.len() {
        let Some(_) = comma(tokens.peek()) else {
            return Ok(so_far);
        };
        tokens.advance();
        so_far = member_after(alloc, tokens, aggregates, of, so_far)?;
    }
    Ok(so_far)
}

/// The members of a list after IN so far, and the next one.
fn member_after(
    alloc: Global,
    tokens: &mut TokenCursor<'_>,
    aggregates: bool,
    of: &Expr,
    so_far: Cond,
) -> Result<Cond, NotRead>
    ensures { TakesAs cond_tree
        (member_after (reader.operand bounded aggregates) (expr_tree of.now) (cond_tree so_far))
        tokens.old.rest.now tokens.new.rest.now result }
{
    let member = operand(alloc, tokens, aggregates)?;
    Ok(or_member(alloc, of, so_far, member)?)
}

/// The comparison that the token is.
fn comparison_of(token: Option<&Token>) -> Option<CmpOp>
    ensures { result ≡ reader.comparison_in (option_copied token.entry) }
{
    match token {
        Some(Token::Symbol(Symbol::Equal)) => Some(CmpOp::Eq),
        Some(Token::Symbol(Symbol::NotEqual | Symbol::BangEqual)) => Some(CmpOp::Ne),
        Some(Token::Symbol(Symbol::Less)) => Some(CmpOp::Lt),
        Some(Token::Symbol(Symbol::LessEqual)) => Some(CmpOp::Le),
        Some(Token::Symbol(Symbol::Greater)) => Some(CmpOp::Gt),
        Some(Token::Symbol(Symbol::GreaterEqual)) => Some(CmpOp::Ge),
        _ => None,
    }
}

/// The aggregate that the token names.
fn aggregate_of(token: Option<&Token>) -> Option<AggOp>
    ensures { result ≡ reader.aggregate_in (option_copied token.entry) }
{
    match token {
        Some(Token::Key(Keyword::Count)) => Some(AggOp::Count),
        Some(Token::Key(Keyword::Sum)) => Some(AggOp::Sum),
        Some(Token::Key(Keyword::Min)) => Some(AggOp::Min),
        Some(Token::Key(Keyword::Max)) => Some(AggOp::Max),
        _ => None,
    }
}

/// Whether the token is the `*` of `COUNT(*)`.
fn is_all(f: AggOp, token: Option<&Token>) -> bool
    ensures { result ≡ reader.is_all f (option_copied token.entry) }
{
    match (f, token) {
        (AggOp::Count, Some(Token::Symbol(Symbol::Star))) => true,
        _ => false,
    }
}
