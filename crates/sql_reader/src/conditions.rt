ghost use Rattle.std.specs.Prelude.{◌≡◌, nat_lt, if◌then◌else◌, Some, None, IfOk, IsErrOf};
ghost use Rattle.sql_grammar.specs.Refused.{cond_nodes};
ghost use Rattle.sql_grammar.specs.Reads.{tokens_in};
ghost use Rattle.sql_tree.specs.Tree.{expr_tree, cond_tree};
ghost use Rattle.sql_tree.specs.Tree.CondTree.{Negation, Both, Either};
ghost use Rattle.read_laws.specs.Bounded as kept;
ghost use Rattle.read_laws.specs.Bounded.{bounded, bounded_join};
ghost use Rattle.read_laws.specs.CondReader as reader;
ghost use Rattle.sql_reader.specs.Inside.{IsInside};

use crate::cursor::{Cursor, and, beside, is_key, is_symbol, or};
use crate::expressions::expr_after;
use crate::predicates::{test, test_behind, whole_expr};
use crate::reading::TreeError;
use crate::signs::{self, both_boxed, with_cond_signs};
use cell_core::Memory;
use sql_refusals::is_large_cond;
use sql_tree::{Cond, Expr, Keyword, Symbol};
use std::alloc::Global;

/// A condition, with as many levels as there are tokens. On an error, `Memory` too, the cursor may have
/// passed some of its tokens.
#[tactic(auto, unfolding(read_laws::specs::CondReader::whole_cond))]
pub fn whole_cond(
    alloc: Global,
    tokens: &mut Cursor<'_>,
    aggregates: bool,
) -> Result<Cond, TreeError>
    ensures found { IfOk result (λ c. reader.whole_cond bounded (reader.operand bounded aggregates)
        (tokens_in tokens.old.rest.now) ≡ Some (cond_tree c, tokens_in tokens.new.rest.now)) }
    ensures none { IsErrOf result TreeError.Syntax →
        reader.whole_cond bounded (reader.operand bounded aggregates) (tokens_in tokens.old.rest.now)
        ≡ None }
{
    let levels = tokens.len();
    cond(alloc, tokens, aggregates, levels)
}

/// A condition of at most so many levels, over expressions, or over these and aggregates:
/// cond = conj {OR conj}.
#[cycle(unit)]
#[tactic(auto, using(read_laws::proofs::CondLaws::condition_goes_on, read_laws::proofs::CondLaws::condition_none))]
pub(crate) fn cond(
    alloc: Global,
    tokens: &mut Cursor<'_>,
    aggregates: bool,
    depth: usize,
) -> Result<Cond, TreeError>
    ensures found { IfOk result (λ c.
        reader.condition bounded (reader.unit bounded (reader.operand bounded aggregates) depth)
        (tokens_in tokens.old.rest.now) ≡ Some (cond_tree c, tokens_in tokens.new.rest.now)) }
    ensures none { IsErrOf result TreeError.Syntax →
        reader.condition bounded (reader.unit bounded (reader.operand bounded aggregates) depth)
        (tokens_in tokens.old.rest.now) ≡ None }
{
    let first = unit(alloc, tokens, aggregates, depth)?;
    cond_after(alloc, tokens, aggregates, depth, first)
}

/// The rest of a condition after its first unit.
#[cycle(unit)]
#[tactic(auto, unfolding(read_laws::specs::CondReader::condition_after))]
fn cond_after(
    alloc: Global,
    tokens: &mut Cursor<'_>,
    aggregates: bool,
    depth: usize,
    first: Cond,
) -> Result<Cond, TreeError>
    ensures found { IfOk result (λ c.
        reader.condition_after bounded (reader.unit bounded (reader.operand bounded aggregates) depth)
        (cond_tree first) (tokens_in tokens.old.rest.now)
        ≡ Some (cond_tree c, tokens_in tokens.new.rest.now)) }
    ensures none { IsErrOf result TreeError.Syntax →
        reader.condition_after bounded (reader.unit bounded (reader.operand bounded aggregates) depth)
        (cond_tree first) (tokens_in tokens.old.rest.now) ≡ None }
{
    let mut left = conj_after(alloc, tokens, aggregates, depth, first)?;
    'conjs: for turn in 0..tokens.len() {
        let Some(_) = or(tokens.peek()) else {
            return Ok(left);
        };
        tokens.advance();
        let (so_far, right) = beside(left, conj(alloc, tokens, aggregates, depth))?;
        left = either(alloc, so_far, right)?;
    }
    Ok(left)
}

/// conj = unit {AND unit}
#[cycle(unit)]
#[tactic(auto, unfolding(read_laws::specs::CondReader::conjunction))]
fn conj(
    alloc: Global,
    tokens: &mut Cursor<'_>,
    aggregates: bool,
    depth: usize,
) -> Result<Cond, TreeError>
    ensures found { IfOk result (λ c.
        reader.conjunction bounded (reader.unit bounded (reader.operand bounded aggregates) depth)
        (tokens_in tokens.old.rest.now) ≡ Some (cond_tree c, tokens_in tokens.new.rest.now)) }
    ensures none { IsErrOf result TreeError.Syntax →
        reader.conjunction bounded (reader.unit bounded (reader.operand bounded aggregates) depth)
        (tokens_in tokens.old.rest.now) ≡ None }
{
    let first = unit(alloc, tokens, aggregates, depth)?;
    conj_after(alloc, tokens, aggregates, depth, first)
}

/// The rest of a conjunction after its first unit.
#[cycle(unit)]
fn conj_after(
    alloc: Global,
    tokens: &mut Cursor<'_>,
    aggregates: bool,
    depth: usize,
    first: Cond,
) -> Result<Cond, TreeError>
    ensures found { IfOk result (λ c.
        reader.conjunction_after bounded (reader.unit bounded (reader.operand bounded aggregates) depth)
        (cond_tree first) (tokens_in tokens.old.rest.now)
        ≡ Some (cond_tree c, tokens_in tokens.new.rest.now)) }
    ensures none { IsErrOf result TreeError.Syntax →
        reader.conjunction_after bounded (reader.unit bounded (reader.operand bounded aggregates) depth)
        (cond_tree first) (tokens_in tokens.old.rest.now) ≡ None }
{
    let mut left = first;
    'units: for turn in 0..tokens.len() {
        let Some(_) = and(tokens.peek()) else {
            return Ok(left);
        };
        tokens.advance();
        let (so_far, right) = beside(left, unit(alloc, tokens, aggregates, depth))?;
        left = both(alloc, so_far, right)?;
    }
    Ok(left)
}

/// A unit, which takes a level.
#[cycle(unit)]
#[tactic(auto, using(read_laws::proofs::CondLaws::unit_none, read_laws::proofs::CondLaws::unit_inner))]
fn unit(
    alloc: Global,
    tokens: &mut Cursor<'_>,
    aggregates: bool,
    depth: usize,
) -> Result<Cond, TreeError>
    ensures found { IfOk result (λ c.
        reader.unit bounded (reader.operand bounded aggregates) depth
        (tokens_in tokens.old.rest.now) ≡ Some (cond_tree c, tokens_in tokens.new.rest.now)) }
    ensures none { IsErrOf result TreeError.Syntax →
        reader.unit bounded (reader.operand bounded aggregates) depth
        (tokens_in tokens.old.rest.now) ≡ None }
{
    if depth == 0 {
        return Err(TreeError::Syntax);
    }
    inner_unit(alloc, tokens, aggregates, depth - 1)
}

/// A unit, in which so many levels are left: the negation of one, a test, or a condition in
/// parentheses. What these enclose may also be the first operand of a test.
#[cycle(unit)]
#[tactic(auto, using(crate::proofs::InsideLaws::unit_test, crate::proofs::InsideLaws::unit_enclosed, crate::proofs::InsideLaws::unit_from))]
fn inner_unit(
    alloc: Global,
    tokens: &mut Cursor<'_>,
    aggregates: bool,
    depth: usize,
) -> Result<Cond, TreeError>
    ensures found { IfOk result (λ c.
        reader.unit_of bounded (reader.operand bounded aggregates)
        (reader.unit bounded (reader.operand bounded aggregates) depth)
        (tokens_in tokens.old.rest.now) ≡ Some (cond_tree c, tokens_in tokens.new.rest.now)) }
    ensures none { IsErrOf result TreeError.Syntax →
        reader.unit_of bounded (reader.operand bounded aggregates)
        (reader.unit bounded (reader.operand bounded aggregates) depth)
        (tokens_in tokens.old.rest.now) ≡ None }
{
    if is_key(tokens.peek(), Keyword::Not) {
        tokens.advance();
        let of = unit(alloc, tokens, aggregates, depth)?;
        return Ok(negation(alloc, of)?);
    }
    if !is_symbol(tokens.peek(), Symbol::Open) {
        return test(alloc, tokens, aggregates);
    }
    let levels = tokens.len();
    tokens.advance();
    match enclosed(alloc, tokens, aggregates, depth)? {
        Parenthesised::Operand(first) => test_from(alloc, tokens, aggregates, levels, first),
        Parenthesised::Condition(condition) => Ok(condition),
    }
}

/// What parentheses enclose.
#[derive(Drop)]
enum Parenthesised {
    /// An expression.
    Operand(Expr),
    /// A condition.
    Condition(Cond),
}

/// What follows a `(`, and its `)`: an expression, or else a condition. No token is read more than
/// twice, however deep parentheses are nested: reading goes on from what the inner ones enclose.
#[cycle(unit)]
fn enclosed(
    alloc: Global,
    tokens: &mut Cursor<'_>,
    aggregates: bool,
    depth: usize,
) -> Result<Parenthesised, TreeError>
    ensures found { IfOk result (λ inside. IsInside
        (reader.operand_inside bounded (tokens_in tokens.old.rest.now))
        (reader.condition_inside bounded (reader.unit bounded (reader.operand bounded aggregates) depth)
        (tokens_in tokens.old.rest.now)) inside (tokens_in tokens.new.rest.now)) }
    ensures no_operand { IsErrOf result TreeError.Syntax →
        reader.operand_inside bounded (tokens_in tokens.old.rest.now) ≡ None }
    ensures no_condition { IsErrOf result TreeError.Syntax →
        reader.condition_inside bounded (reader.unit bounded (reader.operand bounded aggregates) depth)
        (tokens_in tokens.old.rest.now) ≡ None }
{
    if depth == 0 {
        return first_inside(alloc, tokens, aggregates, depth);
    }
    if !is_symbol(tokens.peek(), Symbol::Open) {
        return first_inside(alloc, tokens, aggregates, depth);
    }
    let levels = tokens.len();
    tokens.advance();
    match enclosed(alloc, tokens, aggregates, depth - 1)? {
        Parenthesised::Operand(first) => inside_from(
            alloc, tokens, aggregates, depth, levels, first,
        ),
        Parenthesised::Condition(first) => {
            let condition = closed_cond(alloc, tokens, aggregates, depth, first)?;
            Ok(Parenthesised::Condition(condition))
        }
    }
}

/// What follows a `(`, read as an expression first.
#[cycle(unit)]
fn first_inside(
    alloc: Global,
    tokens: &mut Cursor<'_>,
    aggregates: bool,
    depth: usize,
) -> Result<Parenthesised, TreeError>
    ensures found { IfOk result (λ inside. IsInside
        (reader.operand_inside bounded (tokens_in tokens.old.rest.now))
        (reader.condition_inside bounded (reader.unit bounded (reader.operand bounded aggregates) depth)
        (tokens_in tokens.old.rest.now)) inside (tokens_in tokens.new.rest.now)) }
    ensures no_operand { IsErrOf result TreeError.Syntax →
        reader.operand_inside bounded (tokens_in tokens.old.rest.now) ≡ None }
    ensures no_condition { IsErrOf result TreeError.Syntax →
        reader.condition_inside bounded (reader.unit bounded (reader.operand bounded aggregates) depth)
        (tokens_in tokens.old.rest.now) ≡ None }
{
    let start = tokens.rest;
    match closed_expr(alloc, tokens) {
        Ok(operand) => Ok(Parenthesised::Operand(operand)),
        Err(TreeError::Memory) => Err(TreeError::Memory),
        Err(TreeError::Syntax) => {
            tokens.rest = start;
            let condition = cond(alloc, tokens, aggregates, depth)?;
            let condition = tokens.closed(condition)?;
            Ok(Parenthesised::Condition(condition))
        }
    }
}

/// What follows a `(` and its first factor, which has so many levels.
#[cycle(unit)]
fn inside_from(
    alloc: Global,
    tokens: &mut Cursor<'_>,
    aggregates: bool,
    depth: usize,
    levels: usize,
    first: Expr,
) -> Result<Parenthesised, TreeError>
    ensures found { IfOk result (λ inside. IsInside
        (reader.operand_from bounded levels (expr_tree first) (tokens_in tokens.old.rest.now))
        (reader.condition_from bounded (reader.operand bounded aggregates)
        (reader.unit bounded (reader.operand bounded aggregates) depth) levels (expr_tree first)
        (tokens_in tokens.old.rest.now)) inside (tokens_in tokens.new.rest.now)) }
    ensures no_operand { IsErrOf result TreeError.Syntax →
        reader.operand_from bounded levels (expr_tree first) (tokens_in tokens.old.rest.now) ≡ None }
    ensures no_condition { IsErrOf result TreeError.Syntax →
        reader.condition_from bounded (reader.operand bounded aggregates)
        (reader.unit bounded (reader.operand bounded aggregates) depth) levels (expr_tree first)
        (tokens_in tokens.old.rest.now) ≡ None }
{
    let operand = expr_after(alloc, tokens, levels, first)?;
    if is_symbol(tokens.peek(), Symbol::Close) {
        tokens.advance();
        return Ok(Parenthesised::Operand(operand));
    }
    let unit = test_behind(alloc, tokens, aggregates, operand)?;
    let condition = closed_cond(alloc, tokens, aggregates, depth, unit)?;
    Ok(Parenthesised::Condition(condition))
}

/// The rest of a condition after its first unit, and the `)` after it.
#[cycle(unit)]
fn closed_cond(
    alloc: Global,
    tokens: &mut Cursor<'_>,
    aggregates: bool,
    depth: usize,
    first: Cond,
) -> Result<Cond, TreeError>
    ensures found { IfOk result (λ c.
        reader.closed_condition bounded (reader.unit bounded (reader.operand bounded aggregates) depth)
        (cond_tree first) (tokens_in tokens.old.rest.now)
        ≡ Some (cond_tree c, tokens_in tokens.new.rest.now)) }
    ensures none { IsErrOf result TreeError.Syntax →
        reader.closed_condition bounded (reader.unit bounded (reader.operand bounded aggregates) depth)
        (cond_tree first) (tokens_in tokens.old.rest.now) ≡ None }
{
    let condition = cond_after(alloc, tokens, aggregates, depth, first)?;
    tokens.closed(condition)
}

/// An expression, and the `)` after it.
fn closed_expr(alloc: Global, tokens: &mut Cursor<'_>) -> Result<Expr, TreeError>
    ensures found { IfOk result (λ e. reader.operand_inside bounded
        (tokens_in tokens.old.rest.now) ≡ Some (expr_tree e, tokens_in tokens.new.rest.now)) }
    ensures none { IsErrOf result TreeError.Syntax →
        reader.operand_inside bounded (tokens_in tokens.old.rest.now) ≡ None }
{
    let operand = whole_expr(alloc, tokens)?;
    tokens.closed(operand)
}

/// A test whose first operand has so many levels, after the first factor of that operand.
#[tactic(auto, unfolding(read_laws::specs::CondReader::test_from))]
fn test_from(
    alloc: Global,
    tokens: &mut Cursor<'_>,
    aggregates: bool,
    levels: usize,
    first: Expr,
) -> Result<Cond, TreeError>
    ensures found { IfOk result (λ c.
        reader.test_from bounded (reader.operand bounded aggregates) levels (expr_tree first)
        (tokens_in tokens.old.rest.now) ≡ Some (cond_tree c, tokens_in tokens.new.rest.now)) }
    ensures none { IsErrOf result TreeError.Syntax →
        reader.test_from bounded (reader.operand bounded aggregates) levels (expr_tree first)
        (tokens_in tokens.old.rest.now) ≡ None }
{
    let operand = expr_after(alloc, tokens, levels, first)?;
    test_behind(alloc, tokens, aggregates, operand)
}

/// The negation of a condition.
pub(crate) fn negation(alloc: Global, of: Cond) -> Result<Cond, Memory>
    ensures { IfOk result (λ c. cond_tree c ≡ Negation (cond_tree of)) }
{
    Ok(Cond::Not(Box::new(alloc, of)?))
}

/// Two conditions joined by AND. Where one of them has more than 128 nodes, that one stands for both, with
/// signs of the other.
pub fn both(alloc: Global, left: Cond, right: Cond) -> Result<Cond, Memory>
    ensures { IfOk result (λ c. cond_tree c ≡ bounded_join Both (cond_tree left) (cond_tree right)) }
{
    if is_large_cond(&left) || is_large_cond(&right) {
        return larger(alloc, left, right);
    }
    signs::and(alloc, left, right)
}

/// Two conditions joined by OR, as `both` joins them by AND.
pub(crate) fn either(alloc: Global, left: Cond, right: Cond) -> Result<Cond, Memory>
    ensures { IfOk result (λ c. cond_tree c ≡ bounded_join Either (cond_tree left) (cond_tree right)) }
{
    if is_large_cond(&left) || is_large_cond(&right) {
        return larger(alloc, left, right);
    }
    disjunction(alloc, left, right)
}

/// The first of two conditions that has more than 128 nodes, or else the second, with signs of the other.
fn larger(alloc: Global, left: Cond, right: Cond) -> Result<Cond, Memory>
    ensures { IfOk result (λ c. cond_tree c ≡ (if nat_lt 128 (cond_nodes (cond_tree left))
        then kept.with_cond_signs (cond_tree right) (cond_tree left)
        else kept.with_cond_signs (cond_tree left) (cond_tree right))) }
{
    if is_large_cond(&left) {
        with_cond_signs(alloc, right, left)
    } else {
        with_cond_signs(alloc, left, right)
    }
}

/// Two conditions joined by OR, of any size.
fn disjunction(alloc: Global, left: Cond, right: Cond) -> Result<Cond, Memory>
    ensures { IfOk result (λ c. cond_tree c ≡ Either (cond_tree left) (cond_tree right)) }
{
    let (left, right) = both_boxed(alloc, left, right)?;
    Ok(Cond::Or(left, right))
}
