//! The rows of one table for which its column conditions are true.
ghost use Rattle.std.specs.Prelude.{◌≡◌, ℕ, List, [], ◌∷◌, map, Some, None, ◌==◌, if◌then◌else◌, IfOk, IsSome};
ghost use Rattle.cell_core.specs.declared.operator.Arg.TheVariants.{Var};
ghost use Rattle.std.specs.Option.{option_map, option_and_then};
ghost use Rattle.cell_core.specs.declared.operator.Op.TheVariants as op;
ghost use Rattle.sql_tree.specs.Tree.{CondTree, expr_tree, cond_tree};
ghost use Rattle.mal_emit.specs.Emitters.{emits, followed};
ghost use Rattle.rows_to_mal.specs.Candidates.{ColumnCond, select_leaf as select_leaf_of, leaf_tests as leaf_rows_of, cond_rows as cond_rows_of, narrowed as narrowed_of, candidates as candidates_of};
ghost use Rattle.rows_to_mal.specs.Candidates.ColumnCond.{Within, Outside};
ghost use Rattle.rows_to_mal.specs.Parts.{conds_of};
ghost use Rattle.rows_to_mal.specs.Lent.{leaf_of, placed_leaf, is_ranged, candidates_from};
ghost use Rattle.rows_to_mal.specs.Reading.{placed, read_test, read_cond};

use crate::joins::{all_rows, constant};
use crate::reading::ColumnRange;
use crate::tables::{Tables, bind};
use cell_core::{Arg, Cell, Instr, Memory, Op, Sequence};
use mal_emit::{emit, selects};
use sql_definitions::Source;
use sql_tree::{CmpOp, Cond, Expr};
use std::alloc::Global;

/// Adds the pairs of a bind that lie in a range.
fn select_range(
    alloc: Global,
    instrs: &mut Sequence<Instr>,
    column: u32,
    range: ColumnRange<'_>,
) -> Result<u32, Memory>
    ensures { IfOk result (λ number. (instrs.new, Var number) ≡ (select_leaf_of (Var column) (leaf_of range.entry)).run instrs.old) }
{
    match range {
        ColumnRange::Least(of, included) => {
            let low = constant(alloc, instrs, of)?;
            let open = Arg::Const(Cell::Nil);
            selects(alloc, instrs, column, low, open, included, true)
        }
        ColumnRange::Most(of, included) => {
            let high = constant(alloc, instrs, of)?;
            let open = Arg::Const(Cell::Nil);
            selects(alloc, instrs, column, open, high, true, included)
        }
        ColumnRange::Same(of) => {
            let same = constant(alloc, instrs, of)?;
            selects(alloc, instrs, column, same.share()?, same, true, true)
        }
        ColumnRange::Between(low, high) => {
            let low = constant(alloc, instrs, low)?;
            let high = constant(alloc, instrs, high)?;
            selects(alloc, instrs, column, low, high, true, true)
        }
    }
}

/// Adds the pairs of a column that lie in a range.
fn range_rows(
    alloc: Global,
    instrs: &mut Sequence<Instr>,
    source: &Source,
    place: usize,
    range: ColumnRange<'_>,
) -> Result<u32, Memory>
    ensures { IfOk result (λ number. (instrs.new, Var number) ≡ (leaf_rows_of source.now place (leaf_of range.entry)).run instrs.old) }
{
    let column = bind(alloc, instrs, source, place)?;
    select_range(alloc, instrs, column, range)
}

/// Adds the pairs of a column whose cells are there and lie outside a range.
fn outside_rows(
    alloc: Global,
    instrs: &mut Sequence<Instr>,
    source: &Source,
    place: usize,
    range: ColumnRange<'_>,
) -> Result<u32, Memory>
    ensures { IfOk result (λ number. (instrs.new, Var number) ≡ (cond_rows_of source.now place (Outside (leaf_of range.entry))).run instrs.old) }
{
    let column = bind(alloc, instrs, source, place)?;
    let all = selects(
        alloc,
        instrs,
        column,
        Arg::Const(Cell::Nil),
        Arg::Const(Cell::Nil),
        true,
        true,
    )?;
    let inside = range_rows(alloc, instrs, source, place, range)?;
    emit(
        instrs,
        Op::Kdifference,
        vec![in alloc; Arg::Var(all), Arg::Var(inside)]?,
    )
}

/// Adds the pairs of a column that lie in the range that was found.
fn inside(
    alloc: Global,
    instrs: &mut Sequence<Instr>,
    source: &Source,
    place: usize,
    found: Option<((usize, usize), ColumnRange<'_>)>,
) -> Result<u32, Memory>
    requires { IsSome (option_map (placed Within) (option_map placed_leaf found)) }
    ensures { IfOk result (λ number. (at : (ℕ × ℕ) × ColumnCond) → option_map (placed Within) (option_map placed_leaf found.entry) ≡ Some at → (instrs.new, Var number) ≡ (cond_rows_of source.now place at.1).run instrs.old) }
{
    match found {
        Some((_, range)) => range_rows(alloc, instrs, source, place, range),
        None => unreachable!(),
    }
}

/// Adds the pairs of a column whose cells are there and lie outside the range that was found.
fn outside(
    alloc: Global,
    instrs: &mut Sequence<Instr>,
    source: &Source,
    place: usize,
    found: Option<((usize, usize), ColumnRange<'_>)>,
) -> Result<u32, Memory>
    requires { IsSome (option_map (placed Outside) (option_map placed_leaf found)) }
    ensures { IfOk result (λ number. (at : (ℕ × ℕ) × ColumnCond) → option_map (placed Outside) (option_map placed_leaf found.entry) ≡ Some at → (instrs.new, Var number) ≡ (cond_rows_of source.now place at.1).run instrs.old) }
{
    match found {
        Some((_, range)) => outside_rows(alloc, instrs, source, place, range),
        None => unreachable!(),
    }
}

impl<'a> Tables<'a> {
    /// Adds the pairs of a column for which a comparison with a constant is true.
    fn compared_rows(
        &self,
        alloc: Global,
        instrs: &mut Sequence<Instr>,
        source: &Source,
        place: usize,
        op: CmpOp,
        left: &Expr,
        right: &Expr,
    ) -> Result<u32, Memory>
        requires { IsSome (read_test self.now.called op (expr_tree left.now) (expr_tree right.now)) }
        ensures { IfOk result (λ number. (at : (ℕ × ℕ) × ColumnCond) → read_test self.now.called op (expr_tree left.now) (expr_tree right.now) ≡ Some at → (instrs.new, Var number) ≡ (cond_rows_of source.now place at.1).run instrs.old) }
    {
        match op {
            CmpOp::Ne => {
                let found = self.compared(CmpOp::Eq, left, right);
                outside(alloc, instrs, source, place, found)
            }
            CmpOp::Eq | CmpOp::Lt | CmpOp::Le | CmpOp::Gt | CmpOp::Ge => {
                let found = self.compared(op, left, right);
                inside(alloc, instrs, source, place, found)
            }
        }
    }

    /// Adds pairs of a column, and those for which a condition of it is true.
    #[cycle(cond_rows)]
    fn or_rows(
        &self,
        alloc: Global,
        instrs: &mut Sequence<Instr>,
        source: &Source,
        place: usize,
        pairs: u32,
        cond: &Cond,
    ) -> Result<u32, Memory>
        requires { IsSome (read_cond self.now.called (cond_tree cond.now)) }
        ensures { IfOk result (λ number. (at : (ℕ × ℕ) × ColumnCond) → read_cond self.now.called (cond_tree cond.now) ≡ Some at → (instrs.new, Var number) ≡ (followed (cond_rows_of source.now place at.1) (λ b. emits op.Kunion (Var pairs ∷ b ∷ []))).run instrs.old) }
    {
        let more = self.cond_rows(alloc, instrs, source, place, cond)?;
        emit(
            instrs,
            Op::Kunion,
            vec![in alloc; Arg::Var(pairs), Arg::Var(more)]?,
        )
    }

    /// Adds the pairs of a column for which a condition of one column is true.
    #[cycle(cond_rows)]
    pub(crate) fn cond_rows(
        &self,
        alloc: Global,
        instrs: &mut Sequence<Instr>,
        source: &Source,
        place: usize,
        cond: &Cond,
    ) -> Result<u32, Memory>
        requires { IsSome (read_cond self.now.called (cond_tree cond.now)) }
        ensures { IfOk result (λ number. (at : (ℕ × ℕ) × ColumnCond) → read_cond self.now.called (cond_tree cond.now) ≡ Some at → (instrs.new, Var number) ≡ (cond_rows_of source.now place at.1).run instrs.old) }
    {
        match cond {
            Cond::Cmp { op, left, right } => {
                self.compared_rows(alloc, instrs, source, place, *op, left, right)
            }
            Cond::Between { .. } => inside(alloc, instrs, source, place, self.range(cond)),
            Cond::Not(of) => outside(alloc, instrs, source, place, self.range(of)),
            Cond::Or(left, right) => {
                let pairs = self.cond_rows(alloc, instrs, source, place, left)?;
                self.or_rows(alloc, instrs, source, place, pairs, right)
            }
            Cond::IsNull(_) | Cond::And(_, _) => unreachable!(),
        }
    }

    /// The place of the column that a conjunct is a condition of, where that is one of this table.
    pub(crate) fn place_for(&self, table: usize, cond: &Cond) -> Option<usize>
        ensures { result ≡ option_and_then (λ at. if at.0.0 == table then Some at.0.1 else None) (read_cond self.now.called (cond_tree cond.now)) }
    {
        match self.cond_place(cond) {
            Some((number, place)) if number == table => Some(place),
            _ => None,
        }
    }

    /// Adds those of the candidates for which a condition of one column is true.
    fn semijoin(
        &self,
        alloc: Global,
        instrs: &mut Sequence<Instr>,
        source: &Source,
        place: usize,
        candidates: u32,
        cond: &Cond,
    ) -> Result<u32, Memory>
        requires { IsSome (read_cond self.now.called (cond_tree cond.now)) }
        ensures { IfOk result (λ number. (at : (ℕ × ℕ) × ColumnCond) → read_cond self.now.called (cond_tree cond.now) ≡ Some at → (instrs.new, Var number) ≡ (followed (cond_rows_of source.now place at.1) (λ s. emits op.Semijoin (Var candidates ∷ s ∷ []))).run instrs.old) }
    {
        let rows = self.cond_rows(alloc, instrs, source, place, cond)?;
        emit(
            instrs,
            Op::Semijoin,
            vec![in alloc; Arg::Var(candidates), Arg::Var(rows)]?,
        )
    }

    /// Adds the rows for which a condition of one column is true.
    fn mirrored(
        &self,
        alloc: Global,
        instrs: &mut Sequence<Instr>,
        source: &Source,
        place: usize,
        cond: &Cond,
    ) -> Result<u32, Memory>
        requires { IsSome (read_cond self.now.called (cond_tree cond.now)) }
        ensures { IfOk result (λ number. (at : (ℕ × ℕ) × ColumnCond) → read_cond self.now.called (cond_tree cond.now) ≡ Some at → (instrs.new, Var number) ≡ (followed (cond_rows_of source.now place at.1) (λ s. emits op.Mirror (s ∷ []))).run instrs.old) }
    {
        let rows = self.cond_rows(alloc, instrs, source, place, cond)?;
        emit(instrs, Op::Mirror, vec![in alloc; Arg::Var(rows)]?)
    }

    /// Adds the candidates of a table whose first column condition is this one.
    fn first_candidates(
        &self,
        alloc: Global,
        instrs: &mut Sequence<Instr>,
        source: &Source,
        place: usize,
        cond: &Cond,
    ) -> Result<u32, Memory>
        requires { IsSome (read_cond self.now.called (cond_tree cond.now)) }
        ensures { IfOk result (λ number. (at : (ℕ × ℕ) × ColumnCond) (more : List (ℕ × ColumnCond)) → read_cond self.now.called (cond_tree cond.now) ≡ Some at → (narrowed_of source.now (Var number) more).run instrs.new ≡ (candidates_of source.now ((place, at.1) ∷ more)).run instrs.old) }
    {
        if is_range(cond) {
            self.mirrored(alloc, instrs, source, place, cond)
        } else {
            let all = all_rows(alloc, instrs, source)?;
            self.semijoin(alloc, instrs, source, place, all, cond)
        }
    }

    /// Adds the candidates of a table after one more conjunct. There are none as long as none of
    /// its column conditions was met.
    fn next_candidates(
        &self,
        alloc: Global,
        instrs: &mut Sequence<Instr>,
        table: usize,
        source: &Source,
        so_far: Option<u32>,
        cond: &Cond,
    ) -> Result<Option<u32>, Memory>
        ensures { IfOk result (λ next. (more : List CondTree) → (candidates_from source.now next (conds_of self.now table more)).run instrs.new ≡ (candidates_from source.now so_far (conds_of self.now table (cond_tree cond.now ∷ more))).run instrs.old) }
    {
        let Some(place) = self.place_for(table, cond) else {
            return Ok(so_far);
        };
        let next = match so_far {
            Some(number) => self.semijoin(alloc, instrs, source, place, number, cond)?,
            None => self.first_candidates(alloc, instrs, source, place, cond)?,
        };
        Ok(Some(next))
    }

    /// Adds the oids of the rows of a table for which its column conditions among these are true.
    pub(crate) fn candidates(
        &self,
        alloc: Global,
        instrs: &mut Sequence<Instr>,
        table: usize,
        source: &Source,
        conjuncts: &[&Cond],
    ) -> Result<u32, Memory>
        ensures { IfOk result (λ number. (instrs.new, Var number) ≡ (candidates_of source.now (conds_of self.now table (map (λ c. cond_tree c.now) conjuncts.now))).run instrs.old) }
    {
        let mut found = None;
        let mut rest = conjuncts;
        'conjuncts: while let [cond, more @ ..] = rest {
            found = self.next_candidates(alloc, instrs, table, source, found, cond)?;
            rest = more;
        }
        match found {
            Some(number) => Ok(number),
            None => all_rows(alloc, instrs, source),
        }
    }
}

/// Whether a column condition is a range itself, and no NOT or OR.
fn is_range(cond: &Cond) -> bool
    ensures { result ≡ is_ranged (cond_tree cond.now) }
{
    match cond {
        Cond::Cmp { op, .. } => match op {
            CmpOp::Ne => false,
            CmpOp::Eq | CmpOp::Lt | CmpOp::Le | CmpOp::Gt | CmpOp::Ge => true,
        },
        Cond::Between { .. } => true,
        Cond::IsNull(_) | Cond::Not(_) | Cond::And(_, _) | Cond::Or(_, _) => false,
    }
}
