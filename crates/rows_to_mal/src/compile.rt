//! From a checked statement to the instructions of its rows, and to the plan of a change.
ghost use Rattle.std.specs.Prelude.{◌≡◌, [], ◌∷◌, ◌++◌, length, map, true, IfOk};
ghost use Rattle.std.specs.Option.{option_copied, option_map};
ghost use Rattle.cell_core.specs.declared.table.Db.{Db};
ghost use Rattle.sql_tree.specs.Tree.{cond_tree, set_tree, stmt_tree};
ghost use Rattle.mal_meaning.specs.Meaning.{plan_rows};
ghost use Rattle.rows_to_mal.specs.Choices.{kept_numbers};
ghost use Rattle.rows_to_mal.specs.Laws.{HoldsTables, RunsOver, rows_in, values_after, oids_of_tables};
ghost use Rattle.sql_definitions.specs.Sources.{from_name as from_name_of, called_sources};
ghost use Rattle.sql_definitions.specs.Typed.{typed_sources};
ghost use Rattle.mal_emit.specs.Phrases.{variables};
ghost use Rattle.rows_to_mal.specs.Rows.{condition_of, keeps_rows, statement_rows};
ghost use Rattle.rows_to_mal.specs.Writes.{is_write, expr_values as expr_values_of, new_values, write_columns, write_plan, written_rows};

use crate::laws::{statements_keep_rows, write_plans_run, writes_are_meant};
use crate::tables::Tables;
use cell_core::{Arg, Instr, Memory, Sequence, Word};
use mal_check::checked_plans_run;
use mal_meaning::{Out, Plan};
use sql_definitions::{Called, Source, Typed, from_name};
use sql_tree::{Cond, Expr, FromItem, Stmt};
use std::alloc::Global;

/// The rows that a statement keeps.
pub struct Rows {
    /// The instructions.
    pub instrs: Sequence<Instr>,
    /// For each table of the statement, the number of the instruction that computes the oids of its
    /// rows.
    pub rows: Vec<u32>,
}

// By a call of its own, so that proofs needn't go through its forms where one is dropped.
impl Drop for Rows {
    fn drop(self) {
        let Rows { instrs: _, rows: _ } = self;
    }
}

/// The tables of FROM, under the names by which the query calls them.
pub fn called_in_from<'a>(
    alloc: Global,
    froms: &'a [FromItem],
    sources: &'a [Source],
) -> Result<Vec<Called<'a>>, Memory>
    ensures { IfOk result (λ called. called.items ≡ called_sources (map from_name_of froms.now) sources.now) }
{
    let mut called = Vec::new(alloc);
    let (mut names, mut rest) = (froms, sources);
    'froms: while let [from, others @ ..] = names {
        let [source, more @ ..] = rest else {
            return Ok(called);
        };
        called.push(Called::new(from_name(from), &source.columns))?;
        names = others;
        rest = more;
    }
    Ok(called)
}

/// The one table of a change, under its own name.
fn called_itself<'a>(
    alloc: Global,
    own: &'a Word,
    sources: &'a [Source],
) -> Result<Vec<Called<'a>>, Memory>
    ensures { IfOk result (λ called. called.items ≡ called_sources (own.now ∷ []) sources.now) }
{
    match sources {
        [] => Ok(Vec::new(alloc)),
        [source, ..] => Ok(vec![in alloc; Called::new(own, &source.columns)]?),
    }
}

/// The tables of a checked statement, under the names by which it calls them.
pub fn called_tables<'a>(alloc: Global, typed: &'a Typed) -> Result<Vec<Called<'a>>, Memory>
    ensures { IfOk result (λ called. called.items ≡ typed_sources typed.now) }
{
    let sources = typed.sources.as_slice();
    match &typed.stmt {
        Stmt::Query(query) | Stmt::Explain(query) => {
            called_in_from(alloc, query.froms.as_slice(), sources)
        }
        Stmt::Create { .. } => Ok(Vec::new(alloc)),
        Stmt::Drop { table }
        | Stmt::Alter { table, .. }
        | Stmt::Insert { table, .. }
        | Stmt::Delete { table, .. }
        | Stmt::Update { table, .. } => called_itself(alloc, table, sources),
    }
}

/// The condition of a statement.
fn condition(stmt: &Stmt) -> Option<&Cond>
    ensures { option_map cond_tree (option_copied result) ≡ condition_of (stmt_tree stmt.now) }
{
    match stmt {
        Stmt::Query(query) | Stmt::Explain(query) => query.cond.as_ref(),
        Stmt::Delete { cond, .. } | Stmt::Update { cond, .. } => cond.as_ref(),
        Stmt::Create { .. } | Stmt::Drop { .. } | Stmt::Alter { .. } | Stmt::Insert { .. } => None,
    }
}

/// Adds the rows that a checked statement keeps.
fn add_rows(alloc: Global, instrs: &mut Sequence<Instr>, typed: &Typed) -> Result<Vec<u32>, Memory>
    ensures { IfOk result (λ rows. (instrs.new, variables rows.items) ≡ (statement_rows (stmt_tree typed.now.stmt) typed.now.sources).run instrs.old) }
{
    let called = called_tables(alloc, typed)?;
    let tables = Tables::new(&called, typed.sources.as_slice());
    tables.kept_rows(alloc, instrs, condition(&typed.stmt))
}

/// The rows of a statement, as the definition has them.
fn statement_kept(alloc: Global, typed: &Typed) -> Result<Rows, Memory>
    ensures { IfOk result (λ rows. (rows.instrs, variables rows.rows.items) ≡ (statement_rows (stmt_tree typed.now.stmt) typed.now.sources).run []) }
{
    let mut instrs = Sequence::new(alloc);
    let rows = add_rows(alloc, &mut instrs, typed)?;
    Ok(Rows { instrs, rows })
}

/// The instructions of the rows that a SELECT, EXPLAIN, DELETE or UPDATE keeps.
///
/// Over every valid database that has the statement's tables, they compute for each table the oids
/// of its rows in the choices that the condition keeps, in order; they have no value exactly where
/// the condition overflows.
pub fn compile_rows(alloc: Global, typed: &Typed) -> Result<Rows, Memory>
    requires { keeps_rows (stmt_tree typed.now.stmt) ≡ true }
    ensures rows { IfOk result (λ rows. (rows.instrs, variables rows.rows.items) ≡ (statement_rows (stmt_tree typed.now.stmt) typed.now.sources).run []) }
    ensures meaning { IfOk result (λ rows. (db : Db) → HoldsTables (stmt_tree typed.now.stmt) typed.now.sources db
        → values_after db rows.instrs (variables rows.rows.items) ≡ option_map (oids_of_tables (length typed.now.sources)) (kept_numbers (typed_sources typed.now) (condition_of (stmt_tree typed.now.stmt)) (map (rows_in db) typed.now.sources))) }
{
    statements_keep_rows();
    statement_kept(alloc, typed)
}

/// The results of these instructions as arguments, and then others.
fn and_args(alloc: Global, rows: &[u32], values: &[Arg]) -> Result<Vec<Arg>, Memory>
    ensures { IfOk result (λ args. args.items ≡ variables rows.now ++ values.now) }
{
    let mut args = Vec::new(alloc);
    for row in rows {
        args.push(Arg::Var(*row))?;
    }
    for value in values {
        args.push(value.share()?)?;
    }
    Ok(args)
}

impl<'a> Tables<'a> {
    /// Adds the values that columns are set to.
    fn set_values(
        &self,
        alloc: Global,
        instrs: &mut Sequence<Instr>,
        rows: &[u32],
        sets: &[(Word, Expr)],
    ) -> Result<Vec<Arg>, Memory>
        ensures { IfOk result (λ values. (instrs.new, values.items) ≡ (expr_values_of self.now (variables rows.now) (map (λ set. set.1) (map set_tree sets.now))).run instrs.old) }
    {
        let mut values = Vec::new(alloc);
        let mut rest = sets;
        'sets: while let [set, more @ ..] = rest {
            values.push(self.expr_value(alloc, instrs, rows, &set.1)?)?;
            rest = more;
        }
        Ok(values)
    }
}

/// The columns that an UPDATE sets, with their values; none for another statement.
fn sets(stmt: &Stmt) -> &[(Word, Expr)]
    ensures { map (λ set. set.1) (map set_tree result.now) ≡ new_values (stmt_tree stmt.now) }
{
    match stmt {
        Stmt::Update { sets, .. } => sets.as_slice(),
        Stmt::Query(_) | Stmt::Explain(_) => &[],
        Stmt::Create { .. }
        | Stmt::Drop { .. }
        | Stmt::Alter { .. }
        | Stmt::Insert { .. }
        | Stmt::Delete { .. } => &[],
    }
}

/// Adds the oids of the rows that a change keeps, and their new cells.
fn add_columns(
    alloc: Global,
    instrs: &mut Sequence<Instr>,
    typed: &Typed,
) -> Result<Vec<Arg>, Memory>
    ensures { IfOk result (λ cols. (instrs.new, cols.items) ≡ (write_columns (stmt_tree typed.now.stmt) typed.now.sources).run instrs.old) }
{
    let called = called_tables(alloc, typed)?;
    let tables = Tables::new(&called, typed.sources.as_slice());
    let rows = tables.kept_rows(alloc, instrs, condition(&typed.stmt))?;
    let values = tables.set_values(alloc, instrs, &rows, sets(&typed.stmt))?;
    and_args(alloc, &rows, &values)
}

/// The plan of a change, as the definition has it.
fn change_plan(alloc: Global, typed: &Typed) -> Result<Plan, Memory>
    ensures { IfOk result (λ plan. plan ≡ write_plan (stmt_tree typed.now.stmt) typed.now.sources) }
{
    let mut instrs = Sequence::new(alloc);
    let cols = add_columns(alloc, &mut instrs, typed)?;
    let out = Out {
        cols: Sequence::from_vec(cols),
        keep: None,
        order: Sequence::new(alloc),
        limit: None,
    };
    Ok(Plan { instrs, out })
}

/// The plan of a DELETE or an UPDATE.
///
/// Over every valid database that has the statement's table, the plan has no fault, fits its
/// columns and can be run. For each row of which the condition is true, it returns the row's oid
/// and the cells of the values that columns are set to; or it overflows.
pub fn compile_write(alloc: Global, typed: &Typed) -> Result<Plan, Memory>
    requires { is_write (stmt_tree typed.now.stmt) ≡ true }
    ensures plan { IfOk result (λ plan. plan ≡ write_plan (stmt_tree typed.now.stmt) typed.now.sources) }
    ensures meaning { IfOk result (λ plan. (db : Db) → HoldsTables (stmt_tree typed.now.stmt) typed.now.sources db
        → plan_rows plan db ≡ written_rows (typed_sources typed.now) (condition_of (stmt_tree typed.now.stmt)) (new_values (stmt_tree typed.now.stmt)) (map (rows_in db) typed.now.sources)) }
    ensures runs { IfOk result (λ plan. (db : Db) → HoldsTables (stmt_tree typed.now.stmt) typed.now.sources db → RunsOver plan db) }
{
    writes_are_meant();
    write_plans_run();
    checked_plans_run();
    change_plan(alloc, typed)
}
