//! Checks and prepares changes.
ghost use Rattle.std.specs.Prelude.{◌≡◌, true, None, IfOk};
ghost use Rattle.rows_to_mal.specs.Writes.{is_write as is_write_of};
ghost use Rattle.run_log.specs.Fold.{change_load, load_where, write_load};
ghost use Rattle.run_log.specs.Touches.{touched_by};
ghost use Rattle.sql_grammar.specs.Formed.{IsFormed};
ghost use Rattle.sql_definitions.specs.Check.{check_refusal};
ghost use Rattle.sql_definitions.specs.Effect.{effect};
ghost use Rattle.sql_definitions.specs.Sources.{schema_of as schema_seen};
ghost use Rattle.sql_definitions.specs.Valid.{IsValid};
ghost use Rattle.sql_tree.specs.Tree.{stmt_tree};
ghost use Rattle.store_changes.specs.Outcomes.{is_change, outcome_over};
ghost use Rattle.store_changes.specs.Rewrites.{ComesTo};
ghost use Rattle.store_changes.specs.Work.{Counts, change_lost, write_lost};
ghost use Rattle.table_store.specs.Changes.{IsPrepared};

use crate::define::{alter, create, drop_table};
use crate::insert::insert;
use crate::outcome::Outcome;
use crate::rewrite::rewrite;
use crate::schema::schema_of;
use bat_core::Operate;
use cell_core::{Memory, Steps};
use sql_check::{refusal_of, typed_over};
use sql_definitions::Schema;
use sql_tree::Stmt;
use std::alloc::Global;
use std::sync::ledger::Ledger;
use table_store::Store;

/// The outcome of a DELETE or an UPDATE that the check accepts.
fn accept_write<E: Operate, L: Ledger>(
    alloc: Global,
    store: &Store,
    stmt: &Stmt,
    schema: &Schema,
    kernel: &E,
    steps: &mut Steps<L>,
) -> Result<Outcome, Memory>
    requires write { is_write_of (stmt_tree stmt.now) ≡ true }
    requires formed { IsFormed (stmt_tree stmt.now) }
    requires valid { IsValid store.now.db }
    requires schema { schema.now ≡ schema_seen store.now.db }
    requires accepted { check_refusal (stmt_tree stmt.now) (schema_seen store.now.db) ≡ None }
    ensures comes { IfOk result (λ outcome. ComesTo (stmt_tree stmt.now) store.now outcome.ready) }
    ensures work { IfOk result (λ outcome. outcome.work ≡ change_load (stmt_tree stmt.now) store.now.db) }
    ensures counted { IfOk result (λ outcome. Counts steps.old steps.new outcome.work (change_lost (stmt_tree stmt.now) store.now.db)) }
{
    let typed = typed_over(alloc, stmt, schema)?;
    let outcome = rewrite(alloc, store, &typed, kernel, steps)?;
    Ok(outcome)
}

/// The outcome of a change that the check accepts.
fn accept<E: Operate, L: Ledger>(
    alloc: Global,
    store: &Store,
    stmt: &Stmt,
    schema: &Schema,
    kernel: &E,
    steps: &mut Steps<L>,
) -> Result<Outcome, Memory>
    requires change { is_change (stmt_tree stmt.now) ≡ true }
    requires formed { IsFormed (stmt_tree stmt.now) }
    requires valid { IsValid store.now.db }
    requires schema { schema.now ≡ schema_seen store.now.db }
    requires accepted { check_refusal (stmt_tree stmt.now) (schema_seen store.now.db) ≡ None }
    ensures comes { IfOk result (λ outcome. ComesTo (stmt_tree stmt.now) store.now outcome.ready) }
    ensures work { IfOk result (λ outcome. outcome.work ≡ load_where (is_write_of (stmt_tree stmt.now)) None (change_load (stmt_tree stmt.now) store.now.db)) }
    ensures counted { IfOk result (λ outcome. Counts steps.old steps.new outcome.work (load_where (is_write_of (stmt_tree stmt.now)) None (change_lost (stmt_tree stmt.now) store.now.db))) }
{
    let ready = match stmt {
        Stmt::Create { table, columns } => create(alloc, store, table, columns.as_slice())?,
        Stmt::Drop { table } => drop_table(alloc, store, table)?,
        Stmt::Alter { table, column } => alter(alloc, store, table, column)?,
        Stmt::Insert {
            table,
            columns,
            rows,
        } => insert(alloc, store, table, columns.as_slice(), rows.as_slice())?,
        Stmt::Delete { .. } | Stmt::Update { .. } => {
            return accept_write(alloc, store, stmt, schema, kernel, steps);
        }
        Stmt::Query(_) | Stmt::Explain(_) => unreachable!(),
    };
    Ok(Outcome { ready, work: 0 })
}

/// Checks a statement that is neither a query nor an EXPLAIN over the tables of a store. Prepares
/// what it does to them, or returns why it is refused. Nothing changes yet: `Store::apply` makes
/// the change then, and can't fail. DELETE and UPDATE run their optimised plan on the kernel.
pub fn prepare<E: Operate, L: Ledger>(
    alloc: Global,
    store: &Store,
    stmt: &Stmt,
    kernel: &E,
    steps: &mut Steps<L>,
) -> Result<Outcome, Memory>
    requires change { is_change (stmt_tree stmt.now) ≡ true }
    requires formed { IsFormed (stmt_tree stmt.now) }
    requires valid { IsValid store.now.db }
    ensures effect { IfOk result (λ outcome. effect (stmt_tree stmt.now) store.now.db ≡ outcome_over outcome.ready store.now.db) }
    ensures prepared { IfOk result (λ outcome. IfOk outcome.ready (λ ready. IsPrepared ready.change store.now)) }
    ensures touched { IfOk result (λ outcome. IfOk outcome.ready (λ ready. ready.change.touched ≡ touched_by (stmt_tree stmt.now) store.now.db)) }
    ensures work { IfOk result (λ outcome. outcome.work ≡ write_load (stmt_tree stmt.now) store.now.db) }
    ensures counted { IfOk result (λ outcome. Counts steps.old steps.new outcome.work (write_lost (stmt_tree stmt.now) store.now.db)) }
{
    let schema = schema_of(alloc, store)?;
    match refusal_of(alloc, stmt, &schema)? {
        Some(refusal) => Ok(Outcome {
            ready: Err(refusal),
            work: 0,
        }),
        None => accept(alloc, store, stmt, &schema, kernel, steps),
    }
}
