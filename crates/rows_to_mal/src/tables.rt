//! The tables of a statement, and the values of expressions over their rows so far.
ghost use Rattle.std.specs.Prelude.{◌≡◌, [], ◌∷◌, get_or, IfOk};
ghost use Rattle.cell_core.specs.declared.cell.Cell.TheVariants.{Nil, Text};
ghost use Rattle.cell_core.specs.declared.operator.Op.TheVariants as op;
ghost use Rattle.cell_core.specs.declared.operator.Arg.TheVariants.{Const, Var};
ghost use Rattle.sql_tree.specs.Tree.{expr_tree};
ghost use Rattle.sql_tree.specs.Tree.ExprTree.{ColumnOf};
ghost use Rattle.sql_definitions.specs.Found.{place_found};
ghost use Rattle.sql_definitions.specs.Sources.{place_of};
ghost use Rattle.mal_emit.specs.Emitters.{emits, followed};
ghost use Rattle.mal_emit.specs.Phrases.{variables};
ghost use Rattle.rows_to_mal.specs.Candidates.{kind_word, bind as bind_of, calc_of};
ghost use Rattle.rows_to_mal.specs.Joins.{column_value as column_value_of};
ghost use Rattle.rows_to_mal.specs.Conjuncts.{no_source, place_value as place_value_of, expr_value as expr_value_of, is_alone as is_alone_tree};

use cell_core::{Arg, Cell, Column, Instr, Kind, Memory, Op, Sequence, Word, word_of};
use mal_emit::{emit, two};
use sql_definitions::{Called, Resolved, Source, find_column};
use sql_tree::{ArithOp, ColRef, Expr};
use std::alloc::Global;
use std::marker::Model;

/// The tables that a statement names: under the names by which it calls them, and as the database
/// has them. Contracts see the scope of the translation.
#[derive(Drop)]
pub struct Tables<'a> {
    called: &'a [Called<'a>],
    sources: &'a [Source],
}

impl<'a> Model for Tables<'a> {
    ghost use Rattle.rows_to_mal.specs.Conjuncts.{Scope};

    ghost Value = { Scope };

    ghost view = { λ tables. record { called = tables.called.now; sources = tables.sources.now } };
}

impl<'a> Tables<'a> {
    /// Tables under the names by which a statement calls them, and as the database has them.
    pub fn new(called: &'a [Called<'a>], sources: &'a [Source]) -> Tables<'a>
        ensures called { result.called ≡ called.now }
        ensures sources { result.sources ≡ sources.now }
    {
        Tables { called, sources }
    }

    /// The tables as the database has them.
    pub(crate) fn sources(&self) -> &'a [Source]
        ensures { result.now ≡ self.now.sources }
    {
        self.sources
    }

    /// The place of the column that a reference means.
    #[tactic(auto, using(crate::proofs::OnlyLemmas::only_found))]
    pub(crate) fn place(&self, column: &ColRef) -> Option<(usize, usize)>
        ensures { result ≡ place_of self.now.called column.now }
    {
        match find_column(self.called, column.table.as_ref(), &column.column) {
            Resolved::At(source, place) => Some((source, place)),
            Resolved::Nowhere | Resolved::Twice => None,
        }
    }

    /// Adds a column's value for each row so far.
    pub(crate) fn place_value(
        &self,
        alloc: Global,
        instrs: &mut Sequence<Instr>,
        rows: &[u32],
        place: Option<(usize, usize)>,
    ) -> Result<Arg, Memory>
        ensures { IfOk result (λ arg. (instrs.new, arg) ≡ (place_value_of self.now (variables rows.now) place).run instrs.old) }
    {
        let Some((number, column)) = place else {
            return Ok(Arg::Const(Cell::Nil));
        };
        let found = match self.sources.get(number) {
            Some(source) => column_value(alloc, instrs, rows, number, source, column)?,
            None => missing_value(alloc, instrs, rows, number, column)?,
        };
        Ok(Arg::Var(found))
    }

    /// Adds the value of a column for each row so far. On `Memory`, `instrs` keeps what it had, and the
    /// first of its new instructions may follow.
    pub fn column(
        &self,
        alloc: Global,
        instrs: &mut Sequence<Instr>,
        rows: &[u32],
        column: &ColRef,
    ) -> Result<Arg, Memory>
        ensures { IfOk result (λ arg. (instrs.new, arg) ≡ (expr_value_of self.now (variables rows.now) (ColumnOf column.now)).run instrs.old) }
    {
        self.place_value(alloc, instrs, rows, self.place(column))
    }

    /// Adds an operator of a value and the value of an expression.
    #[cycle(expr_value)]
    pub(crate) fn with_value(
        &self,
        alloc: Global,
        instrs: &mut Sequence<Instr>,
        rows: &[u32],
        op: Op,
        left: Arg,
        right: &Expr,
    ) -> Result<Arg, Memory>
        ensures { IfOk result (λ arg. (instrs.new, arg) ≡ (followed (expr_value_of self.now (variables rows.now) (expr_tree right.now)) (λ y. emits op (left ∷ y ∷ []))).run instrs.old) }
    {
        let right = self.expr_value(alloc, instrs, rows, right)?;
        two(alloc, instrs, op, left, right)
    }

    /// Adds an expression's value for each row so far, or one for all of them. On `Memory`, `instrs` keeps
    /// what it had, and the first of its new instructions may follow.
    #[cycle(expr_value)]
    pub fn expr_value(
        &self,
        alloc: Global,
        instrs: &mut Sequence<Instr>,
        rows: &[u32],
        expr: &Expr,
    ) -> Result<Arg, Memory>
        ensures { IfOk result (λ arg. (instrs.new, arg) ≡ (expr_value_of self.now (variables rows.now) (expr_tree expr.now)).run instrs.old) }
    {
        match expr {
            Expr::Lit(cell) => Ok(Arg::Const(cell.share()?)),
            Expr::Col(column) => self.column(alloc, instrs, rows, column),
            Expr::Arith { op, left, right } => {
                let x = self.expr_value(alloc, instrs, rows, left)?;
                self.with_value(alloc, instrs, rows, calc(*op), x, right)
            }
            Expr::Agg { of: None, .. } => Ok(Arg::Const(Cell::Nil)),
            Expr::Agg { of: Some(_), .. } => Ok(Arg::Const(Cell::Nil)),
        }
    }
}

/// Adds a column of a table that isn't there, which no checked statement has.
fn missing_value(
    alloc: Global,
    instrs: &mut Sequence<Instr>,
    rows: &[u32],
    number: usize,
    place: usize,
) -> Result<u32, Memory>
    ensures { IfOk result (λ found. (instrs.new, Var found) ≡ (column_value_of (variables rows.now) number no_source place).run instrs.old) }
{
    let nothing = Source {
        table: word_of(alloc, "")?,
        columns: Sequence::from_vec(Vec::new(alloc)),
    };
    column_value(alloc, instrs, rows, number, &nothing, place)
}

/// The word of a kind.
fn word_for(alloc: Global, kind: Kind) -> Result<Word, Memory>
    ensures { IfOk result (λ word. word ≡ kind_word kind) }
{
    match kind {
        Kind::Text => word_of(alloc, "str"),
        Kind::Day => word_of(alloc, "date"),
        Kind::Int | Kind::Huge | Kind::Bit | Kind::Oid => word_of(alloc, "int"),
    }
}

/// Adds the bind of a column of this name and kind.
fn bind_named(
    alloc: Global,
    instrs: &mut Sequence<Instr>,
    table: &Word,
    column: Word,
    kind: Kind,
) -> Result<u32, Memory>
    ensures { IfOk result (λ number. (instrs.new, Var number) ≡ (emits op.Bind (Const (Text table.now) ∷ Const (Text column) ∷ Const (Text (kind_word kind)) ∷ [])).run instrs.old) }
{
    let table = Arg::Const(Cell::Text(table.share()?));
    let kind = Arg::Const(Cell::Text(word_for(alloc, kind)?));
    let column = Arg::Const(Cell::Text(column));
    emit(instrs, Op::Bind, vec![in alloc; table, column, kind]?)
}

/// Adds the bind of the column at a place.
pub(crate) fn bind(
    alloc: Global,
    instrs: &mut Sequence<Instr>,
    source: &Source,
    place: usize,
) -> Result<u32, Memory>
    ensures { IfOk result (λ number. (instrs.new, Var number) ≡ (bind_of source.now place).run instrs.old) }
{
    match source.columns.as_slice().get(place) {
        Some(column) => bind_named(
            alloc,
            instrs,
            &source.table,
            column.name.share()?,
            column.kind,
        ),
        None => bind_named(alloc, instrs, &source.table, word_of(alloc, "")?, Kind::Int),
    }
}

/// The BAT of the rows so far of the table with this number.
pub(crate) fn row_at(rows: &[u32], number: usize) -> Arg
    ensures { result ≡ get_or (variables rows.now) number (Const Nil) }
{
    match rows.get(number) {
        Some(row) => Arg::Var(*row),
        None => Arg::Const(Cell::Nil),
    }
}

/// Adds a column of the table with this number, by the rows so far.
fn column_value(
    alloc: Global,
    instrs: &mut Sequence<Instr>,
    rows: &[u32],
    number: usize,
    source: &Source,
    place: usize,
) -> Result<u32, Memory>
    ensures { IfOk result (λ found. (instrs.new, Var found) ≡ (column_value_of (variables rows.now) number source.now place).run instrs.old) }
{
    let column = bind(alloc, instrs, source, place)?;
    let row = row_at(rows, number);
    emit(instrs, Op::Join, vec![in alloc; row, Arg::Var(column)]?)
}

/// The operator of plans that computes an arithmetic operator.
pub(crate) fn calc(operator: ArithOp) -> Op
    ensures { result ≡ calc_of operator }
{
    match operator {
        ArithOp::Plus => Op::Plus,
        ArithOp::Minus => Op::Minus,
        ArithOp::Times => Op::Times,
    }
}

/// Whether an expression has no column.
pub fn is_alone(expr: &Expr) -> bool
    ensures { result ≡ is_alone_tree (expr_tree expr.now) }
{
    match expr {
        Expr::Lit(_) => true,
        Expr::Col(_) => false,
        Expr::Arith { left, right, .. } => is_alone(left) && is_alone(right),
        Expr::Agg { of: None, .. } => true,
        Expr::Agg { of: Some(_), .. } => true,
    }
}
