//! Expressions, by a loop over the levels that are open.
ghost use Rattle.std.specs.Prelude.{◌≡◌, ◌+◌, ◌^◌, ◌<◌, length, IfOk, IsErrOf};
ghost use Rattle.sql_grammar.specs.Reads.{tokens_in};
ghost use Rattle.sql_tree.specs.Tree.{expr_tree};
ghost use Rattle.read_laws.specs.Bounded.{bounded};
ghost use Rattle.read_laws.specs.CondReader as reader;
ghost use Rattle.read_laws.specs.ExprReader.{sign_in, star_in};
ghost use Rattle.std.specs.Option.{option_copied};
ghost use Rattle.audit_exprs.specs.ExprLevels as exprs;
ghost use Rattle.audit_exprs.specs.ExprLevels.{ExprGoesOn, ExprStops};
ghost use Rattle.audit_exprs.specs.Takes.{TakesAs};
ghost use Rattle.audit_exprs.specs.declared.exprs.ExprStep.TheVariants as step;

use crate::cursor::{NotRead, TokenCursor, name_of};
use crate::level::ExprLevel;
use crate::literals::{column, literal};
use crate::openings::{Opening, expr_opening};
use sql_tree::{ArithOp, Expr, Symbol, Token};
use std::alloc::Global;
use std::mem;

/// The open levels of an expression.
pub(crate) struct ExprLevels {
    /// The innermost, in which is read.
    pub(crate) level: ExprLevel,
    /// Those outside of it, the outermost first.
    pub(crate) outer: Vec<ExprLevel>,
}

// By a call of its own, so that proofs needn't go through its forms where one is dropped.
impl Drop for ExprLevels {
    fn drop(self) {
        let ExprLevels { level: _, outer: _ } = self;
    }
}

/// What comes next.
#[derive(Drop)]
pub(crate) enum ExprStep {
    /// A factor has to be here.
    Factor,
    /// A factor was read.
    Was(Expr),
    /// The whole expression was read.
    Done(Expr),
}

/// An expression. On an error, the cursor may have passed some of its tokens.
pub fn whole_expr(alloc: Global, tokens: &mut TokenCursor<'_>) -> Result<Expr, NotRead>
    ensures { TakesAs expr_tree (reader.whole_expr bounded) tokens.old.rest.now tokens.new.rest.now result }
{
    // Only `-` among the tokens are counted, whose number is a usize.
    let _most = tokens.len();
    let mut levels = ExprLevels {
        level: ExprLevel::new(),
        outer: Vec::new(alloc),
    };
    let mut step = ExprStep::Factor;
    'steps: loop {
        step = match step {
            ExprStep::Factor => levels.want(tokens)?,
            ExprStep::Was(factor) => levels.settle(alloc, tokens, factor)?,
            ExprStep::Done(expr) => return Ok(expr),
        };
    }
}

impl ExprLevels {
    /// Takes a `-`, a `(` or a factor of one part, where a factor has to be.
    fn want(&mut self, tokens: &mut TokenCursor<'_>) -> Result<ExprStep, NotRead>
        requires { self.old.level.minuses + length (tokens_in tokens.old.rest.now) < 2 ^ 64 }
        ensures found { IfOk result (λ next. ExprGoesOn self.old step.Factor (tokens_in tokens.old.rest.now)
            self.new next (tokens_in tokens.new.rest.now)) }
        ensures none { IsErrOf result NotRead.Syntax →
            ExprStops self.old step.Factor (tokens_in tokens.old.rest.now) }
    {
        match expr_opening(tokens) {
            Some(Opening::Prefix) => {
                tokens.advance();
                self.level.minuses += 1;
                Ok(ExprStep::Factor)
            }
            Some(Opening::Parenthesis) => {
                tokens.advance();
                let outside = mem::replace(&mut self.level, ExprLevel::new());
                self.outer.push(outside)?;
                Ok(ExprStep::Factor)
            }
            None => Ok(ExprStep::Was(atom(tokens)?)),
        }
    }

    /// Goes on after a factor that was read.
    fn settle(
        &mut self,
        alloc: Global,
        tokens: &mut TokenCursor<'_>,
        factor: Expr,
    ) -> Result<ExprStep, NotRead>
        ensures found { IfOk result (λ next. ExprGoesOn self.old (step.Was factor)
            (tokens_in tokens.old.rest.now) self.new next (tokens_in tokens.new.rest.now)) }
        ensures none { IsErrOf result NotRead.Syntax →
            ExprStops self.old (step.Was factor) (tokens_in tokens.old.rest.now) }
    {
        let product = self.level.take_factor(alloc, factor)?;
        if let Some(_) = star(tokens.peek()) {
            tokens.advance();
            self.level.product = Some(product);
            return Ok(ExprStep::Factor);
        }
        let sum = self.level.take_term(alloc, product)?;
        if let Some(op) = sign(tokens.peek()) {
            tokens.advance();
            self.level.sum = Some((op, sum));
            return Ok(ExprStep::Factor);
        }
        match self.outer.pop() {
            Some(outside) => {
                tokens.close()?;
                self.level = outside;
                Ok(ExprStep::Was(sum))
            }
            None => Ok(ExprStep::Done(sum)),
        }
    }
}

/// A factor of one part: a column, or a literal.
#[tactic(auto, unfolding(crate::specs::ExprLevels::atom))]
fn atom(tokens: &mut TokenCursor<'_>) -> Result<Expr, NotRead>
    ensures { TakesAs expr_tree (exprs.atom bounded) tokens.old.rest.now tokens.new.rest.now result }
{
    match name_of(tokens.peek()) {
        Some(_) => Ok(Expr::Col(column(tokens)?)),
        None => Ok(Expr::Lit(literal(tokens)?)),
    }
}

/// The operator `+` or `-` that the token is.
fn sign(token: Option<&Token>) -> Option<ArithOp>
    ensures { result ≡ sign_in (option_copied token.entry) }
{
    match token {
        Some(Token::Symbol(Symbol::Plus)) => Some(ArithOp::Plus),
        Some(Token::Symbol(Symbol::Minus)) => Some(ArithOp::Minus),
        _ => None,
    }
}

/// The operator `*` that the token is.
fn star(token: Option<&Token>) -> Option<ArithOp>
    ensures { result ≡ star_in (option_copied token.entry) }
{
    match token {
        Some(Token::Symbol(Symbol::Star)) => Some(ArithOp::Times),
        _ => None,
    }
}
