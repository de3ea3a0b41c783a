ghost use Rattle.std.specs.Prelude.{◌≡◌, Some, None, IfOk, IsSome};
ghost use Rattle.std.specs.Option.{option_map};
ghost use Rattle.cell_core.specs.declared.table.Db.{Db as DbSeen};
ghost use Rattle.mal_check.specs.Checked.{plan_fault};
ghost use Rattle.mal_check.specs.Runnable.{FitsDb};
ghost use Rattle.mal_meaning.specs.Meaning.{plan_rows};
ghost use Rattle.mal_meaning.specs.Runs.{Runs};
ghost use Rattle.rows_to_mal.specs.Laws.{HoldsTables};
ghost use Rattle.rows_to_mal.specs.Rows.{statement_scope};
ghost use Rattle.sql_definitions.specs.Answer.{answer_of_stmt, query_of};
ghost use Rattle.sql_tree.specs.Tree.{stmt_tree};
ghost use Rattle.plan_queries.specs.Plans.{optimised_plan};

use cell_core::Memory;
use group_to_mal::compile_query;
use mal_check::checked_plans_run;
use mal_meaning::Plan;
use mal_opt::optimise;
use sql_definitions::Typed;
use std::alloc::Global;

/// The plan by which a checked query is run: its translation, optimised. `typed` is a SELECT or an
/// EXPLAIN, over the tables of some valid database. The plan has no fault; it fits each such
/// database, over which it can be run, and its meaning is the query's answer.
pub fn plan_query(alloc: Global, typed: &Typed) -> Result<Plan, Memory>
    requires query { IsSome (query_of (stmt_tree typed.now.stmt)) }
    requires held { (db : DbSeen) × HoldsTables (stmt_tree typed.now.stmt) typed.now.sources db }
    ensures plan { IfOk result (λ plan. option_map (optimised_plan (statement_scope (stmt_tree typed.now.stmt) typed.now.sources)) (query_of (stmt_tree typed.now.stmt)) ≡ Some plan) }
    ensures checked { IfOk result (λ plan. plan_fault plan ≡ None) }
    ensures fits { IfOk result (λ plan. (db : DbSeen) → HoldsTables (stmt_tree typed.now.stmt) typed.now.sources db → FitsDb plan db) }
    ensures meaning { IfOk result (λ plan. (db : DbSeen) → HoldsTables (stmt_tree typed.now.stmt) typed.now.sources db → plan_rows plan db ≡ answer_of_stmt (stmt_tree typed.now.stmt) db) }
    ensures runs { IfOk result (λ plan. (db : DbSeen) → HoldsTables (stmt_tree typed.now.stmt) typed.now.sources db → Runs plan db) }
{
    checked_plans_run();
    let plan = compile_query(alloc, typed)?;
    optimise(alloc, &plan)
}
