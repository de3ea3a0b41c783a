//! The plan of a query over the tables of a store.
ghost use Rattle.std.specs.Prelude.{◌≡◌, Some, None, IfOk};
ghost use Rattle.mal_check.specs.Checked.{plan_fault};
ghost use Rattle.mal_check.specs.Runnable.{FitsDb};
ghost use Rattle.mal_meaning.specs.Meaning.{plan_rows};
ghost use Rattle.mal_meaning.specs.Runs.{Runs};
ghost use Rattle.plan_queries.specs.Plans.{plan_over, refusal_over};
ghost use Rattle.sql_grammar.specs.Formed.{IsFormed};
ghost use Rattle.sql_definitions.specs.Answer.{answer_of_stmt, query_of};
ghost use Rattle.sql_definitions.specs.Valid.{IsValid};
ghost use Rattle.sql_tree.specs.Tree.{query_tree, stmt_tree};
ghost use Rattle.book_core.specs.Begins.{code_in, logged_plan as logged_plan_of, marks_in, unless_refused};

use cell_core::Memory;
use mal_meaning::Plan;
use plan_queries::plan_query;
use recycle_mark::marks;
use run_log::ACCEPTED;
use sql_check::{CheckError, check};
use sql_definitions::Refusal;
use sql_tree::{Query, Stmt};
use std::alloc::Global;
use store_changes::schema_of;
use table_store::Store;

/// The plan of a query over the tables of a store, or its refusal by them. `stmt` is its statement.
pub(crate) fn plan_or_refusal(
    alloc: Global,
    store: &Store,
    stmt: &Stmt,
    query: &Query,
) -> Result<Result<Plan, Refusal>, Memory>
    requires query { query_of (stmt_tree stmt.now) ≡ Some (query_tree query.now) }
    requires formed { IsFormed (stmt_tree stmt.now) }
    requires valid { IsValid store.now.db }
    ensures outcome { IfOk result (λ outcome. outcome ≡ unless_refused (refusal_over store.now.db (stmt_tree stmt.now)) (plan_over store.now.db (query_tree query.now))) }
    ensures checked { IfOk result (λ outcome. IfOk outcome (λ plan. plan_fault plan ≡ None)) }
    ensures fits { IfOk result (λ outcome. IfOk outcome (λ plan. FitsDb plan store.now.db)) }
    ensures runs { IfOk result (λ outcome. IfOk outcome (λ plan. Runs plan store.now.db)) }
    ensures meaning { IfOk result (λ outcome. IfOk outcome (λ plan. plan_rows plan store.now.db ≡ answer_of_stmt (stmt_tree stmt.now) store.now.db)) }
{
    let schema = schema_of(alloc, store)?;
    match check(alloc, stmt, &schema) {
        Ok(typed) => Ok(Ok(plan_query(alloc, &typed)?)),
        Err(CheckError::Refused(refusal)) => Ok(Err(refusal)),
        Err(CheckError::Memory) => Err(Memory),
    }
}

/// The marks of a plan; none for a refusal.
pub(crate) fn marks_of_outcome(
    alloc: Global,
    outcome: &Result<Plan, Refusal>,
) -> Result<Vec<bool>, Memory>
    ensures { IfOk result (λ made. made.items ≡ marks_in outcome.now) }
{
    match outcome {
        Ok(plan) => marks(alloc, plan),
        Err(_) => Ok(Vec::new(alloc)),
    }
}

/// The plan that is logged: that of a SELECT, not of an EXPLAIN.
pub(crate) fn plan_to_log(
    alloc: Global,
    stmt: &Stmt,
    outcome: &Result<Plan, Refusal>,
) -> Result<Option<Plan>, Memory>
    ensures { IfOk result (λ plan. plan ≡ logged_plan_of (stmt_tree stmt.now) outcome.now) }
{
    match (stmt, outcome) {
        (Stmt::Query(_), Ok(plan)) => Ok(Some(plan.share(alloc)?)),
        _ => Ok(None),
    }
}

/// 0, or the number of the refusal.
pub(crate) fn code_of(outcome: &Result<Plan, Refusal>) -> u8
    ensures { result ≡ code_in outcome.now }
{
    match outcome {
        Ok(_) => ACCEPTED,
        Err(refusal) => refusal.number(),
    }
}
