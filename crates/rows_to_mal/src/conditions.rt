//! The truth of conditions over the rows so far, and the rows that they keep.
ghost use Rattle.std.specs.Prelude.{◌≡◌, [], ◌∷◌, true, IfOk};
ghost use Rattle.cell_core.specs.declared.cell.Cell.TheVariants.{Bit};
ghost use Rattle.cell_core.specs.declared.operator.Arg.TheVariants.{Const, Var};
ghost use Rattle.sql_tree.specs.Tree.{expr_tree, cond_tree};
ghost use Rattle.sql_tree.specs.Tree.CondTree.{Within};
ghost use Rattle.mal_emit.specs.Emitters.{emits, followed};
ghost use Rattle.mal_emit.specs.Phrases.{variables, selects, keep as keep_of};
ghost use Rattle.rows_to_mal.specs.Conjuncts.{expr_value, comparison_of, cond_value as cond_value_of, is_cond_alone as is_cond_alone_tree, spread_value as spread_value_of, keep_true as keep_true_of};

use crate::tables::{Tables, is_alone, row_at};
use cell_core::{Arg, Cell, Instr, Memory, Op, Sequence};
use mal_emit::{counted, emit, gather, one, two};
use sql_tree::{CmpOp, Cond, Expr};
use std::alloc::Global;

/// The operator that computes a comparison.
pub fn comparison(operator: CmpOp) -> Op
    ensures { result ≡ comparison_of operator }
{
    match operator {
        CmpOp::Eq => Op::Eq,
        CmpOp::Ne => Op::Ne,
        CmpOp::Lt => Op::Lt,
        CmpOp::Le => Op::Le,
        CmpOp::Gt => Op::Gt,
        CmpOp::Ge => Op::Ge,
    }
}

/// Whether a condition has no column.
pub fn is_cond_alone(cond: &Cond) -> bool
    ensures { result ≡ is_cond_alone_tree (cond_tree cond.now) }
{
    match cond {
        Cond::Cmp { left, right, .. } => is_alone(left) && is_alone(right),
        Cond::Between { of, low, high } => is_alone(of) && is_alone(low) && is_alone(high),
        Cond::IsNull(of) => is_alone(of),
        Cond::Not(of) => is_cond_alone(of),
        Cond::And(left, right) | Cond::Or(left, right) => {
            is_cond_alone(left) && is_cond_alone(right)
        }
    }
}

/// Adds a truth for each row so far, where a single one holds for all of them.
fn spread_value(
    alloc: Global,
    instrs: &mut Sequence<Instr>,
    rows: &[u32],
    alone: bool,
    value: Arg,
) -> Result<Arg, Memory>
    ensures { IfOk result (λ arg. (instrs.new, arg) ≡ (spread_value_of (variables rows.now) alone value).run instrs.old) }
{
    if alone {
        two(alloc, instrs, Op::Project, row_at(rows, 0), value)
    } else {
        Ok(value)
    }
}

/// Adds the pairs of a BAT whose tail is true.
fn selected(alloc: Global, instrs: &mut Sequence<Instr>, value: Arg) -> Result<u32, Memory>
    ensures { IfOk result (λ number. (instrs.new, Var number) ≡ (selects value (Const (Bit true)) (Const (Bit true)) true true).run instrs.old) }
{
    let low = Arg::Const(Cell::Bit(true));
    let high = Arg::Const(Cell::Bit(true));
    let li = Arg::Const(Cell::Bit(true));
    let hi = Arg::Const(Cell::Bit(true));
    emit(
        instrs,
        Op::Select,
        vec![in alloc; value, low, high, li, hi]?,
    )
}

/// Adds the rows so far whose value is true.
fn keep(
    alloc: Global,
    instrs: &mut Sequence<Instr>,
    value: Arg,
    rows: &[u32],
) -> Result<Vec<u32>, Memory>
    ensures { IfOk result (λ kept. (instrs.new, variables kept.items) ≡ (keep_of value (variables rows.now)).run instrs.old) }
{
    let kept = selected(alloc, instrs, value)?;
    let by = counted(alloc, instrs, kept)?;
    gather(alloc, instrs, by, rows)
}

impl<'a> Tables<'a> {
    /// Adds an operator of the values of two expressions.
    fn both(
        &self,
        alloc: Global,
        instrs: &mut Sequence<Instr>,
        rows: &[u32],
        op: Op,
        left: &Expr,
        right: &Expr,
    ) -> Result<Arg, Memory>
        ensures { IfOk result (λ arg. (instrs.new, arg) ≡ (followed (expr_value self.now (variables rows.now) (expr_tree left.now)) (λ x. followed (expr_value self.now (variables rows.now) (expr_tree right.now)) (λ y. emits op (x ∷ y ∷ [])))).run instrs.old) }
    {
        let x = self.expr_value(alloc, instrs, rows, left)?;
        self.with_value(alloc, instrs, rows, op, x, right)
    }

    /// Adds whether a value lies between two others, both included.
    fn between(
        &self,
        alloc: Global,
        instrs: &mut Sequence<Instr>,
        rows: &[u32],
        of: &Expr,
        low: &Expr,
        high: &Expr,
    ) -> Result<Arg, Memory>
        ensures { IfOk result (λ arg. (instrs.new, arg) ≡ (cond_value_of self.now (variables rows.now) (Within (expr_tree of.now) (expr_tree low.now) (expr_tree high.now))).run instrs.old) }
    {
        let above = self.both(alloc, instrs, rows, Op::Ge, of, low)?;
        let below = self.both(alloc, instrs, rows, Op::Le, of, high)?;
        two(alloc, instrs, Op::And, above, below)
    }

    /// Adds an operator of a truth and the truth of a condition.
    #[cycle(cond_value)]
    fn with_truth(
        &self,
        alloc: Global,
        instrs: &mut Sequence<Instr>,
        rows: &[u32],
        op: Op,
        left: Arg,
        right: &Cond,
    ) -> Result<Arg, Memory>
        ensures { IfOk result (λ arg. (instrs.new, arg) ≡ (followed (cond_value_of self.now (variables rows.now) (cond_tree right.now)) (λ y. emits op (left ∷ y ∷ []))).run instrs.old) }
    {
        let right = self.cond_value(alloc, instrs, rows, right)?;
        two(alloc, instrs, op, left, right)
    }

    /// Adds the truth of a condition for each row so far, or one for all of them. On `Memory`, `instrs`
    /// keeps what it had, and the first of its new instructions may follow.
    #[cycle(cond_value)]
    pub fn cond_value(
        &self,
        alloc: Global,
        instrs: &mut Sequence<Instr>,
        rows: &[u32],
        cond: &Cond,
    ) -> Result<Arg, Memory>
        ensures { IfOk result (λ arg. (instrs.new, arg) ≡ (cond_value_of self.now (variables rows.now) (cond_tree cond.now)).run instrs.old) }
    {
        match cond {
            Cond::Cmp { op, left, right } => {
                self.both(alloc, instrs, rows, comparison(*op), left, right)
            }
            Cond::Between { of, low, high } => self.between(alloc, instrs, rows, of, low, high),
            Cond::IsNull(of) => {
                let x = self.expr_value(alloc, instrs, rows, of)?;
                one(alloc, instrs, Op::IsNil, x)
            }
            Cond::Not(of) => {
                let x = self.cond_value(alloc, instrs, rows, of)?;
                one(alloc, instrs, Op::Not, x)
            }
            Cond::And(left, right) => {
                let x = self.cond_value(alloc, instrs, rows, left)?;
                self.with_truth(alloc, instrs, rows, Op::And, x, right)
            }
            Cond::Or(left, right) => {
                let x = self.cond_value(alloc, instrs, rows, left)?;
                self.with_truth(alloc, instrs, rows, Op::Or, x, right)
            }
        }
    }

    /// Adds the rows so far for which a conjunct is true. On `Memory`, `instrs` keeps what it had, and
    /// the first of its new instructions may follow.
    pub fn keep_true(
        &self,
        alloc: Global,
        instrs: &mut Sequence<Instr>,
        rows: &[u32],
        cond: &Cond,
    ) -> Result<Vec<u32>, Memory>
        ensures { IfOk result (λ kept. (instrs.new, variables kept.items) ≡ (keep_true_of self.now (variables rows.now) (cond_tree cond.now)).run instrs.old) }
    {
        let value = self.cond_value(alloc, instrs, rows, cond)?;
        let value = spread_value(alloc, instrs, rows, is_cond_alone(cond), value)?;
        keep(alloc, instrs, value, rows)
    }
}
