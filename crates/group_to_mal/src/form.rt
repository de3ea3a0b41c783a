//! The values of items and of tests, over rows, over all of them, or over their groups.
ghost use Rattle.std.specs.Prelude.{◌≡◌, [], ◌∷◌, IfOk};
ghost use Rattle.cell_core.specs.declared.operator.Arg.TheVariants.{Var};
ghost use Rattle.sql_tree.specs.Tree.{expr_tree, cond_tree};
ghost use Rattle.sql_tree.specs.Tree.CondTree.{Within, IsNull};
ghost use Rattle.mal_emit.specs.Emitters.{emits, followed};
ghost use Rattle.mal_emit.specs.Phrases.{variables};
ghost use Rattle.group_to_mal.specs.Values.{total_of, sub_of, first_of, argument as argument_of, whole_value as whole_value_of, group_value as group_value_of, of_first, is_grouped as is_grouped_tree, both_by, test_by, test_bat};
ghost use Rattle.group_to_mal.specs.Forms.{value_over, is_bat_over};

use crate::columns::{ItemValue, spread};
use cell_core::{Arg, Cell, Instr, Memory, Op, Sequence};
use mal_emit::{one, two};
use rows_to_mal::{Tables, comparison, is_alone};
use sql_tree::{AggOp, Cond, Expr};
use std::alloc::Global;

/// What values are over.
pub enum Grouping {
    /// Each row so far.
    Rows,
    /// All rows so far at once.
    Whole,
    /// The groups of the rows.
    Groups {
        /// The groups' numbers.
        groups: Arg,
        /// Their first rows.
        heads: u32,
    },
}

// By a call of its own, so that proofs needn't go through its forms where one is dropped.
impl Drop for Grouping {
    fn drop(self) {
        match self {
            Grouping::Rows
            | Grouping::Whole
            | Grouping::Groups {
                groups: _,
                heads: _,
            } => {}
        }
    }
}

/// The aggregate of all values of a BAT.
fn total(f: AggOp) -> Op
    ensures { result ≡ total_of f }
{
    match f {
        AggOp::Count => Op::Count,
        AggOp::Sum => Op::Sum,
        AggOp::Min => Op::Min,
        AggOp::Max => Op::Max,
    }
}

/// The aggregate of the values of each group.
fn sub(f: AggOp) -> Op
    ensures { result ≡ sub_of f }
{
    match f {
        AggOp::Count => Op::Subcount,
        AggOp::Sum => Op::Subsum,
        AggOp::Min => Op::Submin,
        AggOp::Max => Op::Submax,
    }
}

/// The oids of the first table's rows.
pub(crate) fn first_rows(rows: &[u32]) -> Arg
    ensures { result ≡ first_of (variables rows.now) }
{
    match rows.get(0) {
        Some(row) => Arg::Var(*row),
        None => Arg::Const(Cell::Nil),
    }
}

/// Adds an aggregate's argument, with a cell for each row so far.
fn argument(
    alloc: Global,
    instrs: &mut Sequence<Instr>,
    tables: &Tables<'_>,
    rows: &[u32],
    of: &Expr,
) -> Result<Arg, Memory>
    ensures { IfOk result (λ arg. (instrs.new, arg) ≡ (argument_of tables.now (variables rows.now) (expr_tree of.now)).run instrs.old) }
{
    let arg = tables.expr_value(alloc, instrs, rows, of)?;
    let value = ItemValue {
        arg,
        is_bat: !is_alone(of),
    };
    spread(alloc, instrs, first_rows(rows), value)
}

/// Adds a value over all rows so far.
fn whole_value(
    alloc: Global,
    instrs: &mut Sequence<Instr>,
    tables: &Tables<'_>,
    rows: &[u32],
    expr: &Expr,
) -> Result<Arg, Memory>
    ensures { IfOk result (λ arg. (instrs.new, arg) ≡ (whole_value_of tables.now (variables rows.now) (expr_tree expr.now)).run instrs.old) }
{
    match expr {
        Expr::Agg { of: None, .. } => one(alloc, instrs, Op::Count, first_rows(rows)),
        Expr::Agg { f, of: Some(of) } => {
            let arg = argument(alloc, instrs, tables, rows, of)?;
            one(alloc, instrs, total(*f), arg)
        }
        Expr::Lit(_) | Expr::Col(_) | Expr::Arith { .. } => {
            tables.expr_value(alloc, instrs, rows, expr)
        }
    }
}

/// Adds an aggregate over each group.
fn grouped(
    alloc: Global,
    instrs: &mut Sequence<Instr>,
    op: Op,
    of: Arg,
    groups: &Arg,
) -> Result<Arg, Memory>
    ensures { IfOk result (λ arg. (instrs.new, arg) ≡ (emits op (of ∷ groups.now ∷ [])).run instrs.old) }
{
    let groups = groups.share()?;
    two(alloc, instrs, op, of, groups)
}

/// Adds the cells of each group's first row; a scalar stays.
fn of_firsts(
    alloc: Global,
    instrs: &mut Sequence<Instr>,
    heads: u32,
    alone: bool,
    value: Arg,
) -> Result<Arg, Memory>
    ensures { IfOk result (λ arg. (instrs.new, arg) ≡ (of_first (Var heads) alone value).run instrs.old) }
{
    if alone {
        Ok(value)
    } else {
        two(alloc, instrs, Op::Join, Arg::Var(heads), value)
    }
}

/// Adds a value over each group.
fn group_value(
    alloc: Global,
    instrs: &mut Sequence<Instr>,
    tables: &Tables<'_>,
    rows: &[u32],
    groups: &Arg,
    heads: u32,
    expr: &Expr,
) -> Result<Arg, Memory>
    ensures { IfOk result (λ arg. (instrs.new, arg) ≡ (group_value_of tables.now (variables rows.now) groups.now (Var heads) (expr_tree expr.now)).run instrs.old) }
{
    match expr {
        Expr::Agg { of: None, .. } => {
            grouped(alloc, instrs, Op::Subcount, first_rows(rows), groups)
        }
        Expr::Agg { f, of: Some(of) } => {
            let arg = argument(alloc, instrs, tables, rows, of)?;
            grouped(alloc, instrs, sub(*f), arg, groups)
        }
        Expr::Lit(_) | Expr::Col(_) | Expr::Arith { .. } => {
            let arg = tables.expr_value(alloc, instrs, rows, expr)?;
            of_firsts(alloc, instrs, heads, is_alone(expr), arg)
        }
    }
}

/// Whether an expression over groups has a cell for each of them.
fn is_grouped(expr: &Expr) -> bool
    ensures { result ≡ is_grouped_tree (expr_tree expr.now) }
{
    match expr {
        Expr::Agg { of: None, .. } => true,
        Expr::Agg { of: Some(_), .. } => true,
        Expr::Lit(_) | Expr::Col(_) | Expr::Arith { .. } => !is_alone(expr),
    }
}

impl Grouping {
    /// Adds the value of an expression.
    pub(crate) fn value(
        &self,
        alloc: Global,
        instrs: &mut Sequence<Instr>,
        tables: &Tables<'_>,
        rows: &[u32],
        expr: &Expr,
    ) -> Result<Arg, Memory>
        ensures { IfOk result (λ arg. (instrs.new, arg) ≡ (value_over tables.now (variables rows.now) self.now (expr_tree expr.now)).run instrs.old) }
    {
        match self {
            Grouping::Rows => tables.expr_value(alloc, instrs, rows, expr),
            Grouping::Whole => whole_value(alloc, instrs, tables, rows, expr),
            Grouping::Groups { groups, heads } => {
                group_value(alloc, instrs, tables, rows, groups, *heads, expr)
            }
        }
    }

    /// Whether the value of an expression is a BAT.
    pub(crate) fn is_bat(&self, expr: &Expr) -> bool
        ensures { result ≡ is_bat_over self.now (expr_tree expr.now) }
    {
        match self {
            Grouping::Rows => !is_alone(expr),
            Grouping::Whole => false,
            Grouping::Groups { .. } => is_grouped(expr),
        }
    }

    /// Adds two values, and an operator of them.
    fn both(
        &self,
        alloc: Global,
        instrs: &mut Sequence<Instr>,
        tables: &Tables<'_>,
        rows: &[u32],
        operator: Op,
        left: &Expr,
        right: &Expr,
    ) -> Result<Arg, Memory>
        ensures { IfOk result (λ arg. (instrs.new, arg) ≡ (both_by (value_over tables.now (variables rows.now) self.now) (expr_tree left.now) (expr_tree right.now) operator).run instrs.old) }
    {
        let x = self.value(alloc, instrs, tables, rows, left)?;
        let y = self.value(alloc, instrs, tables, rows, right)?;
        two(alloc, instrs, operator, x, y)
    }

    /// Adds whether a value lies between two others, both included.
    fn between(
        &self,
        alloc: Global,
        instrs: &mut Sequence<Instr>,
        tables: &Tables<'_>,
        rows: &[u32],
        of: &Expr,
        low: &Expr,
        high: &Expr,
    ) -> Result<Arg, Memory>
        ensures { IfOk result (λ arg. (instrs.new, arg) ≡ (test_by (value_over tables.now (variables rows.now) self.now) (Within (expr_tree of.now) (expr_tree low.now) (expr_tree high.now))).run instrs.old) }
    {
        let above = self.both(alloc, instrs, tables, rows, Op::Ge, of, low)?;
        let below = self.both(alloc, instrs, tables, rows, Op::Le, of, high)?;
        two(alloc, instrs, Op::And, above, below)
    }

    /// Adds whether a value is NULL.
    fn is_null(
        &self,
        alloc: Global,
        instrs: &mut Sequence<Instr>,
        tables: &Tables<'_>,
        rows: &[u32],
        of: &Expr,
    ) -> Result<Arg, Memory>
        ensures { IfOk result (λ arg. (instrs.new, arg) ≡ (test_by (value_over tables.now (variables rows.now) self.now) (IsNull (expr_tree of.now))).run instrs.old) }
    {
        let value = self.value(alloc, instrs, tables, rows, of)?;
        one(alloc, instrs, Op::IsNil, value)
    }

    /// Adds an operator of a truth and the truth of a condition.
    #[cycle(truths)]
    fn with_test(
        &self,
        alloc: Global,
        instrs: &mut Sequence<Instr>,
        tables: &Tables<'_>,
        rows: &[u32],
        operator: Op,
        left: Arg,
        right: &Cond,
    ) -> Result<Arg, Memory>
        ensures { IfOk result (λ arg. (instrs.new, arg) ≡ (followed (test_by (value_over tables.now (variables rows.now) self.now) (cond_tree right.now)) (λ y. emits operator (left ∷ y ∷ []))).run instrs.old) }
    {
        let right = self.test(alloc, instrs, tables, rows, right)?;
        two(alloc, instrs, operator, left, right)
    }

    /// Adds the truth of a condition.
    #[cycle(truths)]
    pub(crate) fn test(
        &self,
        alloc: Global,
        instrs: &mut Sequence<Instr>,
        tables: &Tables<'_>,
        rows: &[u32],
        cond: &Cond,
    ) -> Result<Arg, Memory>
        ensures { IfOk result (λ arg. (instrs.new, arg) ≡ (test_by (value_over tables.now (variables rows.now) self.now) (cond_tree cond.now)).run instrs.old) }
    {
        match cond {
            Cond::Cmp { op, left, right } => {
                self.both(alloc, instrs, tables, rows, comparison(*op), left, right)
            }
            Cond::Between { of, low, high } => {
                self.between(alloc, instrs, tables, rows, of, low, high)
            }
            Cond::IsNull(of) => self.is_null(alloc, instrs, tables, rows, of),
            Cond::Not(of) => {
                let x = self.test(alloc, instrs, tables, rows, of)?;
                one(alloc, instrs, Op::Not, x)
            }
            Cond::And(left, right) => {
                let x = self.test(alloc, instrs, tables, rows, left)?;
                self.with_test(alloc, instrs, tables, rows, Op::And, x, right)
            }
            Cond::Or(left, right) => {
                let x = self.test(alloc, instrs, tables, rows, left)?;
                self.with_test(alloc, instrs, tables, rows, Op::Or, x, right)
            }
        }
    }

    /// Whether the truth of a condition is a BAT.
    pub(crate) fn is_test_bat(&self, cond: &Cond) -> bool
        ensures { result ≡ test_bat (is_bat_over self.now) (cond_tree cond.now) }
    {
        match cond {
            Cond::Cmp { left, right, .. } => self.is_bat(left) || self.is_bat(right),
            Cond::Between { of, low, high } => {
                (self.is_bat(of) || self.is_bat(low)) || (self.is_bat(of) || self.is_bat(high))
            }
            Cond::IsNull(of) => self.is_bat(of),
            Cond::Not(of) => self.is_test_bat(of),
            Cond::And(left, right) => self.is_test_bat(left) || self.is_test_bat(right),
            Cond::Or(left, right) => self.is_test_bat(left) || self.is_test_bat(right),
        }
    }
}
