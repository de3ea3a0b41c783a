//! From a checked query to its plan.
ghost use Rattle.std.specs.Prelude.{◌≡◌, map, Some, None, IfOk, IsSome};
ghost use Rattle.std.specs.Option.{option_map};
ghost use Rattle.cell_core.specs.declared.table.Db.{Db};
ghost use Rattle.sql_tree.specs.Tree.{query_tree, stmt_tree};
ghost use Rattle.sql_definitions.specs.Sources.{from_name as from_name_of, called_sources};
ghost use Rattle.sql_definitions.specs.Answer.{query_of, answer_of_stmt};
ghost use Rattle.mal_meaning.specs.Meaning.{plan_rows};
ghost use Rattle.mal_meaning.specs.Runs.{Runs};
ghost use Rattle.mal_check.specs.Checked.{plan_fault};
ghost use Rattle.mal_check.specs.Runnable.{FitsDb};
ghost use Rattle.rows_to_mal.specs.Laws.{HoldsTables};
ghost use Rattle.rows_to_mal.specs.Rows.{statement_scope};
ghost use Rattle.group_to_mal.specs.QueryPlan.{query_plan};

use crate::laws::{plans_mean_answers, query_plans_run};
use crate::plan::plan_after;
use cell_core::{Memory, Sequence};
use mal_check::checked_plans_run;
use mal_meaning::Plan;
use rows_to_mal::{Tables, called_in_from};
use sql_definitions::{Source, Typed};
use sql_tree::{Query, Stmt};
use std::alloc::Global;

/// The plan of a query over these tables.
fn compile_over(alloc: Global, query: &Query, sources: &[Source]) -> Result<Plan, Memory>
    ensures { IfOk result (λ plan. plan ≡ query_plan (record { called = called_sources (map from_name_of query.now.froms) sources.now; sources = sources.now }) (query_tree query.now)) }
{
    let called = called_in_from(alloc, query.froms.as_slice(), sources)?;
    let tables = Tables::new(&called, sources);
    let mut instrs = Sequence::new(alloc);
    let rows = tables.kept_rows(alloc, &mut instrs, query.cond.as_ref())?;
    plan_after(alloc, instrs, &tables, &called, &rows, query)
}

/// The plan of a SELECT or an EXPLAIN.
fn compile_select(alloc: Global, typed: &Typed) -> Result<Plan, Memory>
    requires query { IsSome (query_of (stmt_tree typed.now.stmt)) }
    ensures { IfOk result (λ plan. option_map (query_plan (statement_scope (stmt_tree typed.now.stmt) typed.now.sources)) (query_of (stmt_tree typed.now.stmt)) ≡ Some plan) }
{
    match &typed.stmt {
        Stmt::Query(query) => compile_over(alloc, query, typed.sources.as_slice()),
        Stmt::Explain(query) => compile_over(alloc, query, typed.sources.as_slice()),
        Stmt::Create { .. }
        | Stmt::Drop { .. }
        | Stmt::Alter { .. }
        | Stmt::Insert { .. }
        | Stmt::Delete { .. }
        | Stmt::Update { .. } => unreachable!(),
    }
}

/// The plan of a checked query, a SELECT or an EXPLAIN.
///
/// Over every valid database that has the query's tables, the plan has no fault, fits the columns
/// and can be run, and its meaning is the query's answer: none exactly where the query overflows.
pub fn compile_query(alloc: Global, typed: &Typed) -> Result<Plan, Memory>
    requires query { IsSome (query_of (stmt_tree typed.now.stmt)) }
    ensures plan { IfOk result (λ plan. option_map (query_plan (statement_scope (stmt_tree typed.now.stmt) typed.now.sources)) (query_of (stmt_tree typed.now.stmt)) ≡ Some plan) }
    ensures checked { IfOk result (λ plan. (db : Db) → HoldsTables (stmt_tree typed.now.stmt) typed.now.sources db → plan_fault plan ≡ None) }
    ensures fits { IfOk result (λ plan. (db : Db) → HoldsTables (stmt_tree typed.now.stmt) typed.now.sources db → FitsDb plan db) }
    ensures meaning { IfOk result (λ plan. (db : Db) → HoldsTables (stmt_tree typed.now.stmt) typed.now.sources db → plan_rows plan db ≡ answer_of_stmt (stmt_tree typed.now.stmt) db) }
    ensures runs { IfOk result (λ plan. (db : Db) → HoldsTables (stmt_tree typed.now.stmt) typed.now.sources db → Runs plan db) }
{
    checked_plans_run();
    plans_mean_answers();
    query_plans_run();
    compile_select(alloc, typed)
}
