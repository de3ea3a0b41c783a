//! Conditions, by a loop over the levels that are open.
ghost use Rattle.std.specs.Prelude.{◌≡◌, ◌+◌, ◌^◌, ◌<◌, length, option_copied, None, IfOk, IsErrOf};
ghost use Rattle.sql_grammar.specs.Reads.{tokens_in};
ghost use Rattle.sql_tree.specs.Tree.{cond_tree};
ghost use Rattle.sql_tree.specs.Tree.CondTree.{Negation};
ghost use Rattle.read_laws.specs.Bounded.{bounded};
ghost use Rattle.read_laws.specs.CondReader as reader;
ghost use Rattle.audit_exprs.specs.Between.{prefixed};
ghost use Rattle.audit_exprs.specs.CondLevels.{joined, CondGoesOn, CondStops};
ghost use Rattle.audit_exprs.specs.Takes.{TakesAs};
ghost use Rattle.audit_exprs.specs.declared.conds.CondStep.TheVariants as step;

use crate::bounds::{Junction, join, negation};
use crate::comparing::test;
use crate::cursor::{NotRead, TokenCursor};
use crate::openings::{Opening, cond_opening};
use cell_core::Memory;
use sql_tree::{Cond, Keyword, Token};
use std::alloc::Global;
use std::mem;

/// What waits in a level of a condition for its next unit.
pub(crate) struct CondLevel {
    /// The left side of an OR.
    pub(crate) disjunction: Option<Cond>,
    /// The left side of an AND.
    pub(crate) conjunction: Option<Cond>,
    /// How many NOT come directly before the unit.
    pub(crate) nots: usize,
}

// By a call of its own, so that proofs needn't go through its forms where one is dropped.
impl Drop for CondLevel {
    fn drop(self) {
        let CondLevel {
            disjunction: _,
            conjunction: _,
            nots: _,
        } = self;
    }
}

impl CondLevel {
    /// A level in which no part was read.
    fn new() -> CondLevel
        ensures disjunction { result.disjunction ≡ None }
        ensures conjunction { result.conjunction ≡ None }
        ensures nots { result.nots ≡ 0 }
    {
        CondLevel {
            disjunction: None,
            conjunction: None,
            nots: 0,
        }
    }

    /// What the NOT and the AND before a unit make of it. They wait no longer.
    fn take_unit(&mut self, alloc: Global, unit: Cond) -> Result<Cond, Memory>
        ensures conjunction { IfOk result (λ c. cond_tree c
            ≡ joined bounded.both self.old.conjunction (prefixed Negation self.old.nots (cond_tree unit))) }
        ensures none { self.new.conjunction ≡ None }
        ensures disjunction { self.new.disjunction ≡ self.old.disjunction }
        ensures nots { self.new.nots ≡ 0 }
    {
        let nots = self.nots;
        self.nots = 0;
        let left = self.conjunction.take();
        let unit = denied(alloc, nots, unit)?;
        match left {
            Some(left) => join(alloc, Junction::And, left, unit),
            None => Ok(unit),
        }
    }

    /// What the OR before a conjunction makes of it. It waits no longer.
    fn take_conjunction(&mut self, alloc: Global, conjunction: Cond) -> Result<Cond, Memory>
        ensures disjunction { IfOk result (λ c. cond_tree c
            ≡ joined bounded.either self.old.disjunction (cond_tree conjunction)) }
        ensures none { self.new.disjunction ≡ None }
        ensures conjunction { self.new.conjunction ≡ self.old.conjunction }
        ensures nots { self.new.nots ≡ self.old.nots }
    {
        match self.disjunction.take() {
            Some(left) => join(alloc, Junction::Or, left, conjunction),
            None => Ok(conjunction),
        }
    }
}

/// A unit, denied so many times.
fn denied(alloc: Global, nots: usize, unit: Cond) -> Result<Cond, Memory>
    ensures { IfOk result (λ c. cond_tree c ≡ prefixed Negation nots (cond_tree unit)) }
{
    let mut denied = unit;
    'nots: for turn in 0..nots {
        denied = negation(alloc, denied)?;
    }
    Ok(denied)
}

/// The open levels of a condition.
pub(crate) struct CondLevels {
    /// The innermost, in which is read.
    pub(crate) level: CondLevel,
    /// Those outside of it, the outermost first.
    pub(crate) outer: Vec<CondLevel>,
}

// By a call of its own, so that proofs needn't go through its forms where one is dropped.
impl Drop for CondLevels {
    fn drop(self) {
        let CondLevels { level: _, outer: _ } = self;
    }
}

/// What comes next.
#[derive(Drop)]
pub(crate) enum CondStep {
    /// A unit has to be here.
    Unit,
    /// A unit was read.
    Was(Cond),
    /// The whole condition was read.
    Done(Cond),
}

/// A condition over expressions, or over aggregates too. On an error, the cursor may have passed some
/// of its tokens.
pub fn whole_cond(
    alloc: Global,
    tokens: &mut TokenCursor<'_>,
    aggregates: bool,
) -> Result<Cond, NotRead>
    ensures { TakesAs cond_tree (reader.whole_cond bounded (reader.operand bounded aggregates))
        tokens.old.rest.now tokens.new.rest.now result }
{
    // Only NOT among the tokens are counted, whose number is a usize.
    let _most = tokens.len();
    let mut levels = CondLevels {
        level: CondLevel::new(),
        outer: Vec::new(alloc),
    };
    let mut step = CondStep::Unit;
    'steps: loop {
        step = match step {
            CondStep::Unit => levels.want(alloc, tokens, aggregates)?,
            CondStep::Was(unit) => levels.settle(alloc, tokens, aggregates, unit)?,
            CondStep::Done(cond) => return Ok(cond),
        };
    }
}

impl CondLevels {
    /// Takes a NOT, a `(` or a test, where a unit has to be.
    fn want(
        &mut self,
        alloc: Global,
        tokens: &mut TokenCursor<'_>,
        aggregates: bool,
    ) -> Result<CondStep, NotRead>
        requires { self.old.level.nots + length (tokens_in tokens.old.rest.now) < 2 ^ 64 }
        ensures found { IfOk result (λ next. CondGoesOn aggregates self.old step.Unit
            (tokens_in tokens.old.rest.now) self.new next (tokens_in tokens.new.rest.now)) }
        ensures none { IsErrOf result NotRead.Syntax →
            CondStops aggregates self.old step.Unit (tokens_in tokens.old.rest.now) }
    {
        match cond_opening(tokens) {
            Some(Opening::Prefix) => {
                tokens.advance();
                self.level.nots += 1;
                Ok(CondStep::Unit)
            }
            Some(Opening::Parenthesis) => {
                tokens.advance();
                let outside = mem::replace(&mut self.level, CondLevel::new());
                self.outer.push(outside)?;
                Ok(CondStep::Unit)
            }
            None => Ok(CondStep::Was(test(alloc, tokens, aggregates)?)),
        }
    }

    /// Goes on after a unit that was read.
    fn settle(
        &mut self,
        alloc: Global,
        tokens: &mut TokenCursor<'_>,
        aggregates: bool,
        unit: Cond,
    ) -> Result<CondStep, NotRead>
        ensures found { IfOk result (λ next. CondGoesOn aggregates self.old (step.Was unit)
            (tokens_in tokens.old.rest.now) self.new next (tokens_in tokens.new.rest.now)) }
        ensures none { IsErrOf result NotRead.Syntax →
            CondStops aggregates self.old (step.Was unit) (tokens_in tokens.old.rest.now) }
    {
        let conjunction = self.level.take_unit(alloc, unit)?;
        if let Some(_) = and_of(tokens.peek()) {
            tokens.advance();
            self.level.conjunction = Some(conjunction);
            return Ok(CondStep::Unit);
        }
        let cond = self.level.take_conjunction(alloc, conjunction)?;
        if let Some(_) = or_of(tokens.peek()) {
            tokens.advance();
            self.level.disjunction = Some(cond);
            return Ok(CondStep::Unit);
        }
        match self.outer.pop() {
            Some(outside) => {
                tokens.close()?;
                self.level = outside;
                Ok(CondStep::Was(cond))
            }
            None => Ok(CondStep::Done(cond)),
        }
    }
}

/// The word AND that the token is.
fn and_of(token: Option<&Token>) -> Option<Keyword>
    ensures { result ≡ reader.and_in (option_copied token.entry) }
{
    match token {
        Some(Token::Key(Keyword::And)) => Some(Keyword::And),
        _ => None,
    }
}

/// The word OR that the token is.
fn or_of(token: Option<&Token>) -> Option<Keyword>
    ensures { result ≡ reader.or_in (option_copied token.entry) }
{
    match token {
        Some(Token::Key(Keyword::Or)) => Some(Keyword::Or),
        _ => None,
    }
}
