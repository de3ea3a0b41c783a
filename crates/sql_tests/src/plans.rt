//! The plans of random queries, optimised, printed and read again.
ghost use Rattle.std.specs.Prelude.{◌≡◌, IsSome, None, IfOk};
ghost use Rattle.mal_check.specs.Checked.{plan_fault};
ghost use Rattle.sql_grammar.specs.Formed.{IsFormed};
ghost use Rattle.sql_definitions.specs.Answer.{query_of};
ghost use Rattle.sql_tree.specs.Tree.{stmt_tree};

use crate::queries::{Dice, TABLES, next_query};
use crate::run::schema_of;
use cell_core::{Db, Memory, Sequence};
use group_to_mal::compile_query;
use mal_check::check_plan;
use mal_meaning::Plan;
use mal_opt::optimise;
use mal_print::print_mal;
use mal_text::parse_mal;
use sql_changes::change;
use sql_check::check;
use sql_definitions::{Reply, Schema, Typed};
use sql_parse::parse;
use sql_tree::Stmt;
use std::alloc::Global;
use std::test::Fail;

/// The number of plans that are tried.
const PLANS: usize = 1_000;

/// Does an accepted change.
fn done(alloc: Global, text: &str, db: &mut Db) -> Result<(), Memory> {
    let stmt = parse(alloc, text).map_err(|_| Memory)?;
    match change(alloc, &stmt, db)? {
        Reply::Done => Ok(()),
        _ => Err(Memory),
    }
}

/// The tables that are queried, without rows.
fn tables(alloc: Global) -> Result<Schema, Memory> {
    let mut db = Db {
        tables: Sequence::new(alloc),
    };
    for text in TABLES {
        done(alloc, text, &mut db)?;
    }
    schema_of(alloc, &db)
}

/// A plan, after another check.
fn looked_at(alloc: Global, plan: Plan) -> Result<Plan, Memory>
    ensures { IfOk result (λ plan. plan_fault plan ≡ None) }
{
    match check_plan(alloc, &plan) {
        Ok(()) => Ok(plan),
        Err(_) => Err(Memory),
    }
}

/// The plan by which a checked query is run.
fn compiled(alloc: Global, typed: &Typed) -> Result<Plan, Memory>
    requires { IsSome (query_of (stmt_tree typed.now.stmt)) }
    ensures { IfOk result (λ plan. plan_fault plan ≡ None) }
{
    let plan = looked_at(alloc, compile_query(alloc, typed)?)?;
    optimise(alloc, &plan)
}

/// The plan of a query that nothing refuses.
fn plan_of(alloc: Global, stmt: &Stmt, schema: &Schema) -> Result<Plan, Memory>
    requires formed { IsFormed (stmt_tree stmt.now) }
    requires asks { IsSome (query_of (stmt_tree stmt.now)) }
    ensures { IfOk result (λ plan. plan_fault plan ≡ None) }
{
    let found = check(alloc, stmt, schema);
    match &found {
        Ok(typed) => compiled(alloc, typed),
        Err(_) => Err(Memory),
    }
}

/// Whether a plan's text reads as the plan again.
fn reads_again(alloc: Global, plan: &Plan) -> Result<bool, Memory>
    requires { plan_fault plan.now ≡ None }
{
    let bytes = print_mal(alloc, plan)?;
    let text = String::from_utf8(bytes).map_err(|_| Memory)?;
    match parse_mal(alloc, text.as_str()) {
        Ok(read) => Ok(read == *plan),
        Err(_) => Ok(false),
    }
}

/// Whether the plan of a query does. A text that is no query, or is refused, counts as want of
/// memory.
fn query_reads_again(alloc: Global, bytes: Vec<u8>, schema: &Schema) -> Result<bool, Memory> {
    let text = String::from_utf8(bytes).map_err(|_| Memory)?;
    let stmt = parse(alloc, text.as_str()).map_err(|_| Memory)?;
    match &stmt {
        Stmt::Query(_) => {
            let plan = plan_of(alloc, &stmt, schema)?;
            reads_again(alloc, &plan)
        }
        _ => Err(Memory),
    }
}

#[test]
fn a_thousand_plans_are_printed_and_read_again(rt: HostRuntime) -> Result<(), Fail> {
    let alloc = rt.alloc();
    let schema = tables(alloc)?;
    let mut dice = Dice::new();
    for _ in 0..PLANS {
        let query = next_query(alloc, &mut dice)?;
        assert!(rt; query_reads_again(alloc, query, &schema)?);
    }
    Ok(())
}
