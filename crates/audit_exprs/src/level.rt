//! An open level of an expression.
ghost use Rattle.std.specs.Prelude.{◌≡◌, None, IfOk};
ghost use Rattle.sql_tree.specs.Tree.{expr_tree};
ghost use Rattle.read_laws.specs.Bounded.{bounded};
ghost use Rattle.audit_exprs.specs.Between.{prefixed};
ghost use Rattle.audit_exprs.specs.ExprLevels.{minus, times, added};

use crate::bounds::operator;
use cell_core::{Cell, Memory};
use sql_tree::{ArithOp, Expr};
use std::alloc::Global;

/// What waits in a level for its next factor.
pub(crate) struct ExprLevel {
    /// The left side of a `+` or `-`, with it.
    pub(crate) sum: Option<(ArithOp, Expr)>,
    /// The left side of a `*`.
    pub(crate) product: Option<Expr>,
    /// How many `-` come directly before the factor.
    pub(crate) minuses: usize,
}

// By a call of its own, so that proofs needn't go through its forms where one is dropped.
impl Drop for ExprLevel {
    fn drop(self) {
        let ExprLevel {
            sum: _,
            product: _,
            minuses: _,
        } = self;
    }
}

impl ExprLevel {
    /// A level in which no part was read.
    pub(crate) fn new() -> ExprLevel
        ensures sum { result.sum ≡ None }
        ensures product { result.product ≡ None }
        ensures minuses { result.minuses ≡ 0 }
    {
        ExprLevel {
            sum: None,
            product: None,
            minuses: 0,
        }
    }

    /// What the `-` and the `*` before a factor make of it. They wait no longer.
    pub(crate) fn take_factor(&mut self, alloc: Global, factor: Expr) -> Result<Expr, Memory>
        ensures product { IfOk result (λ e. expr_tree e
            ≡ times bounded self.old.product (prefixed (minus bounded) self.old.minuses (expr_tree factor))) }
        ensures none { self.new.product ≡ None }
        ensures sum { self.new.sum ≡ self.old.sum }
        ensures minuses { self.new.minuses ≡ 0 }
    {
        let minuses = self.minuses;
        self.minuses = 0;
        let left = self.product.take();
        let factor = negated(alloc, minuses, factor)?;
        match left {
            Some(left) => operator(alloc, ArithOp::Times, left, factor),
            None => Ok(factor),
        }
    }

    /// What the `+` or `-` before a term makes of it. It waits no longer.
    pub(crate) fn take_term(&mut self, alloc: Global, term: Expr) -> Result<Expr, Memory>
        ensures sum { IfOk result (λ e. expr_tree e ≡ added bounded self.old.sum (expr_tree term)) }
        ensures none { self.new.sum ≡ None }
        ensures product { self.new.product ≡ self.old.product }
        ensures minuses { self.new.minuses ≡ self.old.minuses }
    {
        match self.sum.take() {
            Some((op, left)) => operator(alloc, op, left, term),
            None => Ok(term),
        }
    }
}

/// A factor, subtracted from 0 so many times.
fn negated(alloc: Global, minuses: usize, factor: Expr) -> Result<Expr, Memory>
    ensures { IfOk result (λ e. expr_tree e ≡ prefixed (minus bounded) minuses (expr_tree factor)) }
{
    let mut negated = factor;
    'minuses: for turn in 0..minuses {
        negated = operator(alloc, ArithOp::Minus, Expr::Lit(Cell::Int(0)), negated)?;
    }
    Ok(negated)
}
