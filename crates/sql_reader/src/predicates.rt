ghost use Rattle.std.specs.Prelude.{◌≡◌, Some, None, true, false, option_copied, IfOk, IsErrOf};
ghost use Rattle.sql_grammar.specs.Reads.{tokens_in};
ghost use Rattle.sql_grammar.specs.Refused.{has_column_arithmetic};
ghost use Rattle.sql_tree.specs.Tree.{cond_tree, expr_tree};
ghost use Rattle.sql_tree.specs.Tree.CondTree.{Compare, Either};
ghost use Rattle.sql_tree.specs.declared.tree.CmpOp.TheVariants as compare;
ghost use Rattle.read_laws.specs.Chain.{first_token, after_first};
ghost use Rattle.read_laws.specs.Bounded.{bounded, bounded_join, cond_has_unread};
ghost use Rattle.read_laws.specs.CondReader as reader;

use crate::conditions::{either, negation};
use crate::cursor::{Cursor, aggregate_word, beside, comma, comparison, is_all, is_key};
use crate::expressions::expr;
use crate::reading::TreeError;
use crate::signs::{with_arithmetic, with_unread_test};
use cell_core::Memory;
use sql_refusals::{has_unread, is_column_arithmetic, is_large_cond};
use sql_tree::{AggOp, CmpOp, Cond, Expr, Keyword, Symbol, Token};
use std::alloc::Global;

/// An expression, with as many levels as there are tokens. On an error, `Memory` too, the cursor may
/// have passed some of its tokens.
#[tactic(auto, unfolding(read_laws::specs::CondReader::whole_expr))]
pub fn whole_expr(alloc: Global, tokens: &mut Cursor<'_>) -> Result<Expr, TreeError>
    ensures found { IfOk result (λ e. reader.whole_expr bounded
        (tokens_in tokens.old.rest.now) ≡ Some (expr_tree e, tokens_in tokens.new.rest.now)) }
    ensures none { IsErrOf result TreeError.Syntax →
        reader.whole_expr bounded (tokens_in tokens.old.rest.now) ≡ None }
{
    let levels = tokens.len();
    expr(alloc, tokens, levels)
}

/// An expression or an aggregate. On an error, `Memory` too, the cursor may have passed some of its
/// tokens.
#[tactic(auto, unfolding(read_laws::specs::CondReader::value))]
pub fn value(alloc: Global, tokens: &mut Cursor<'_>) -> Result<Expr, TreeError>
    ensures found { IfOk result (λ e. reader.value bounded
        (tokens_in tokens.old.rest.now) ≡ Some (expr_tree e, tokens_in tokens.new.rest.now)) }
    ensures none { IsErrOf result TreeError.Syntax →
        reader.value bounded (tokens_in tokens.old.rest.now) ≡ None }
{
    let Some(f) = aggregate_word(tokens.peek()) else {
        return whole_expr(alloc, tokens);
    };
    tokens.advance();
    tokens.symbol(Symbol::Open)?;
    argument(alloc, tokens, f)
}

/// The argument of an aggregate, up to its `)`.
#[tactic(auto, unfolding(read_laws::specs::CondReader::argument))]
fn argument(alloc: Global, tokens: &mut Cursor<'_>, f: AggOp) -> Result<Expr, TreeError>
    ensures found { IfOk result (λ e. reader.argument bounded f
        (tokens_in tokens.old.rest.now) ≡ Some (expr_tree e, tokens_in tokens.new.rest.now)) }
    ensures none { IsErrOf result TreeError.Syntax →
        reader.argument bounded f (tokens_in tokens.old.rest.now) ≡ None }
{
    if is_all(f, tokens.peek()) {
        tokens.advance();
        tokens.close()?;
        return Ok(Expr::Agg { f, of: None });
    }
    let of = whole_expr(alloc, tokens)?;
    tokens.close()?;
    Ok(Expr::Agg {
        f,
        of: Some(Box::new(alloc, of)?),
    })
}

/// An operand of a test: an expression, or an aggregate too.
fn operand(alloc: Global, tokens: &mut Cursor<'_>, aggregates: bool) -> Result<Expr, TreeError>
    ensures found { IfOk result (λ e. reader.operand bounded aggregates
        (tokens_in tokens.old.rest.now) ≡ Some (expr_tree e, tokens_in tokens.new.rest.now)) }
    ensures none { IsErrOf result TreeError.Syntax →
        reader.operand bounded aggregates (tokens_in tokens.old.rest.now) ≡ None }
{
    if aggregates {
        value(alloc, tokens)
    } else {
        whole_expr(alloc, tokens)
    }
}

/// A test: a comparison, [NOT] BETWEEN, [NOT] IN or IS [NOT] NULL.
#[tactic(auto, unfolding(read_laws::specs::CondReader::any_test))]
pub(crate) fn test(
    alloc: Global,
    tokens: &mut Cursor<'_>,
    aggregates: bool,
) -> Result<Cond, TreeError>
    ensures found { IfOk result (λ c. reader.any_test bounded (reader.operand bounded aggregates)
        (tokens_in tokens.old.rest.now) ≡ Some (cond_tree c, tokens_in tokens.new.rest.now)) }
    ensures none { IsErrOf result TreeError.Syntax →
        reader.any_test bounded (reader.operand bounded aggregates) (tokens_in tokens.old.rest.now) ≡ None }
{
    let of = operand(alloc, tokens, aggregates)?;
    test_behind(alloc, tokens, aggregates, of)
}

/// The rest of a test after its first operand.
#[tactic(auto, unfolding(read_laws::specs::CondReader::test_behind))]
pub(crate) fn test_behind(
    alloc: Global,
    tokens: &mut Cursor<'_>,
    aggregates: bool,
    of: Expr,
) -> Result<Cond, TreeError>
    ensures found { IfOk result (λ c.
        reader.test_behind bounded (reader.operand bounded aggregates) (expr_tree of)
        (tokens_in tokens.old.rest.now) ≡ Some (cond_tree c, tokens_in tokens.new.rest.now)) }
    ensures none { IsErrOf result TreeError.Syntax →
        reader.test_behind bounded (reader.operand bounded aggregates) (expr_tree of)
        (tokens_in tokens.old.rest.now) ≡ None }
{
    let Some(op) = comparison(tokens.peek()) else {
        return word_test(alloc, tokens, aggregates, of);
    };
    tokens.advance();
    let right = operand(alloc, tokens, aggregates)?;
    Ok(Cond::Cmp {
        op,
        left: of,
        right,
    })
}

/// A test that begins with a word, after the operand.
#[tactic(auto, unfolding(read_laws::specs::CondReader::word_test))]
fn word_test(
    alloc: Global,
    tokens: &mut Cursor<'_>,
    aggregates: bool,
    of: Expr,
) -> Result<Cond, TreeError>
    ensures found { IfOk result (λ c.
        reader.word_test bounded (reader.operand bounded aggregates) (expr_tree of)
        (tokens_in tokens.old.rest.now) ≡ Some (cond_tree c, tokens_in tokens.new.rest.now)) }
    ensures none { IsErrOf result TreeError.Syntax →
        reader.word_test bounded (reader.operand bounded aggregates) (expr_tree of)
        (tokens_in tokens.old.rest.now) ≡ None }
{
    if is_key(tokens.peek(), Keyword::Is) {
        tokens.advance();
        return null_test(alloc, tokens, of);
    }
    range(alloc, tokens, aggregates, of)
}

/// [NOT] NULL, after the operand and IS.
#[tactic(auto, unfolding(read_laws::specs::CondReader::null_test))]
fn null_test(alloc: Global, tokens: &mut Cursor<'_>, of: Expr) -> Result<Cond, TreeError>
    ensures found { IfOk result (λ c. reader.null_test (expr_tree of)
        (tokens_in tokens.old.rest.now) ≡ Some (cond_tree c, tokens_in tokens.new.rest.now)) }
    ensures none { IsErrOf result TreeError.Syntax →
        reader.null_test (expr_tree of) (tokens_in tokens.old.rest.now) ≡ None }
{
    if is_key(tokens.peek(), Keyword::Not) {
        tokens.advance();
        tokens.key(Keyword::Null)?;
        return Ok(negation(alloc, Cond::IsNull(of))?);
    }
    tokens.key(Keyword::Null)?;
    Ok(Cond::IsNull(of))
}

/// [NOT] BETWEEN or [NOT] IN, after the operand.
#[tactic(auto, unfolding(read_laws::specs::CondReader::range))]
fn range(
    alloc: Global,
    tokens: &mut Cursor<'_>,
    aggregates: bool,
    of: Expr,
) -> Result<Cond, TreeError>
    ensures found { IfOk result (λ c.
        reader.range bounded (reader.operand bounded aggregates) (expr_tree of)
        (tokens_in tokens.old.rest.now) ≡ Some (cond_tree c, tokens_in tokens.new.rest.now)) }
    ensures none { IsErrOf result TreeError.Syntax →
        reader.range bounded (reader.operand bounded aggregates) (expr_tree of)
        (tokens_in tokens.old.rest.now) ≡ None }
{
    if is_key(tokens.peek(), Keyword::Not) {
        tokens.advance();
        let range = plain_range(alloc, tokens, aggregates, of)?;
        return Ok(negation(alloc, range)?);
    }
    plain_range(alloc, tokens, aggregates, of)
}

/// BETWEEN or IN, after the operand.
fn plain_range(
    alloc: Global,
    tokens: &mut Cursor<'_>,
    aggregates: bool,
    of: Expr,
) -> Result<Cond, TreeError>
    ensures found { IfOk result (λ c.
        reader.range_at bounded (reader.operand bounded aggregates) (expr_tree of)
        (first_token (tokens_in tokens.old.rest.now)) (after_first (tokens_in tokens.old.rest.now))
        ≡ Some (cond_tree c, tokens_in tokens.new.rest.now)) }
    ensures none { IsErrOf result TreeError.Syntax →
        reader.range_at bounded (reader.operand bounded aggregates) (expr_tree of)
        (first_token (tokens_in tokens.old.rest.now)) (after_first (tokens_in tokens.old.rest.now))
        ≡ None }
{
    match tokens.next() {
        Some(Token::Key(Keyword::Between)) => within(alloc, tokens, aggregates, of),
        Some(Token::Key(Keyword::In)) => listed(alloc, tokens, aggregates, of),
        _ => Err(TreeError::Syntax),
    }
}

/// The two bounds after BETWEEN.
#[tactic(auto, unfolding(read_laws::specs::CondReader::within))]
fn within(
    alloc: Global,
    tokens: &mut Cursor<'_>,
    aggregates: bool,
    of: Expr,
) -> Result<Cond, TreeError>
    ensures found { IfOk result (λ c.
        reader.within bounded (reader.operand bounded aggregates) (expr_tree of)
        (tokens_in tokens.old.rest.now) ≡ Some (cond_tree c, tokens_in tokens.new.rest.now)) }
    ensures none { IsErrOf result TreeError.Syntax →
        reader.within bounded (reader.operand bounded aggregates) (expr_tree of)
        (tokens_in tokens.old.rest.now) ≡ None }
{
    let low = operand(alloc, tokens, aggregates)?;
    tokens.key(Keyword::And)?;
    let high = operand(alloc, tokens, aggregates)?;
    Ok(Cond::Between { of, low, high })
}

/// The list after IN.
fn listed(
    alloc: Global,
    tokens: &mut Cursor<'_>,
    aggregates: bool,
    of: Expr,
) -> Result<Cond, TreeError>
    ensures found { IfOk result (λ c.
        reader.listed bounded (reader.operand bounded aggregates) (expr_tree of)
        (tokens_in tokens.old.rest.now) ≡ Some (cond_tree c, tokens_in tokens.new.rest.now)) }
    ensures none { IsErrOf result TreeError.Syntax →
        reader.listed bounded (reader.operand bounded aggregates) (expr_tree of)
        (tokens_in tokens.old.rest.now) ≡ None }
{
    let read = list_after(alloc, tokens, aggregates, &of);
    drop(of);
    read
}

/// The list after IN, of an operand that is lent.
#[tactic(auto, unfolding(read_laws::specs::CondReader::listed))]
fn list_after(
    alloc: Global,
    tokens: &mut Cursor<'_>,
    aggregates: bool,
    of: &Expr,
) -> Result<Cond, TreeError>
    ensures found { IfOk result (λ c.
        reader.listed bounded (reader.operand bounded aggregates) (expr_tree of.now)
        (tokens_in tokens.old.rest.now) ≡ Some (cond_tree c, tokens_in tokens.new.rest.now)) }
    ensures none { IsErrOf result TreeError.Syntax →
        reader.listed bounded (reader.operand bounded aggregates) (expr_tree of.now)
        (tokens_in tokens.old.rest.now) ≡ None }
{
    tokens.symbol(Symbol::Open)?;
    let members = members(alloc, tokens, aggregates, of)?;
    tokens.closed(members)
}

/// The members of a list after IN, as the condition that the operand is one of them.
#[tactic(auto, unfolding(read_laws::specs::CondReader::members))]
fn members(
    alloc: Global,
    tokens: &mut Cursor<'_>,
    aggregates: bool,
    of: &Expr,
) -> Result<Cond, TreeError>
    ensures found { IfOk result (λ c.
        reader.members bounded (reader.operand bounded aggregates) (expr_tree of.now)
        (tokens_in tokens.old.rest.now) ≡ Some (cond_tree c, tokens_in tokens.new.rest.now)) }
    ensures none { IsErrOf result TreeError.Syntax →
        reader.members bounded (reader.operand bounded aggregates) (expr_tree of.now)
        (tokens_in tokens.old.rest.now) ≡ None }
{
    let first = operand(alloc, tokens, aggregates)?;
    let mut left = equality(alloc, of, first)?;
    'members: for turn in 0..tokens.len() {
        let Some(_) = comma(tokens.peek()) else {
            return Ok(left);
        };
        tokens.advance();
        let (so_far, member) = beside(left, operand(alloc, tokens, aggregates))?;
        left = or_member(alloc, of, so_far, member)?;
    }
    Ok(left)
}

/// The condition that the operand is one of the members so far, or equals the next. Where those so
/// far are past the limit of a condition, the operand isn't copied.
fn or_member(alloc: Global, of: &Expr, so_far: Cond, member: Expr) -> Result<Cond, Memory>
    ensures { IfOk result (λ c. cond_tree c ≡ bounded_join Either (cond_tree so_far)
        (Compare compare.Eq (expr_tree of.now) (expr_tree member))) }
{
    if is_large_cond(&so_far) {
        let arithmetic = has_arithmetic(of, &member);
        let unread = are_unread(of, &member);
        drop(member);
        let so_far = with_arithmetic(alloc, arithmetic, so_far)?;
        return with_unread_test(alloc, unread, so_far);
    }
    let (so_far, next) = beside(so_far, equality(alloc, of, member))?;
    either(alloc, so_far, next)
}

/// Whether the equality of operand and member would have arithmetic over columns.
fn has_arithmetic(of: &Expr, member: &Expr) -> bool
    ensures { result ≡ has_column_arithmetic (Compare compare.Eq (expr_tree of.now) (expr_tree member.now)) }
{
    is_column_arithmetic(of) || is_column_arithmetic(member)
}

/// Whether that equality would have a literal that could not be read.
fn are_unread(of: &Expr, member: &Expr) -> bool
    ensures { result ≡ cond_has_unread (Compare compare.Eq (expr_tree of.now) (expr_tree member.now)) }
{
    has_unread(of) || has_unread(member)
}

/// The condition that the operand equals the member.
fn equality(alloc: Global, of: &Expr, member: Expr) -> Result<Cond, Memory>
    ensures { IfOk result (λ c. cond_tree c ≡ Compare compare.Eq (expr_tree of.now) (expr_tree member)) }
{
    Ok(Cond::Cmp {
        op: CmpOp::Eq,
        left: of.copy(alloc)?,
        right: member,
    })
}
