//! DELETE and UPDATE, by their plans.
ghost use Rattle.std.specs.Prelude.{◌≡◌, true, Some, None, IfOk};
ghost use Rattle.cell_core.specs.declared.table.Db.{Db as DbSeen};
ghost use Rattle.cell_core.specs.Tables.{row_count};
ghost use Rattle.mal_meaning.specs.Meaning.{plan_rows};
ghost use Rattle.mal_meaning.specs.Runs.{Runs};
ghost use Rattle.mal_opt.specs.Optimisers.{optimise as optimised};
ghost use Rattle.rows_to_mal.specs.Laws.{HoldsTables};
ghost use Rattle.rows_to_mal.specs.Writes.{is_write, write_plan};
ghost use Rattle.run_log.specs.Fold.{change_load};
ghost use Rattle.sql_definitions.specs.Effect.{effect};
ghost use Rattle.sql_definitions.specs.declared.refusal.Reply.TheVariants.{Refused};
ghost use Rattle.sql_tree.specs.Tree.{stmt_tree};
ghost use Rattle.change_plans.specs.Decisions.{rises};
ghost use Rattle.change_plans.specs.Hits.{changed_table};
ghost use Rattle.table_store.specs.Changes.{NamesDiffer};
ghost use Rattle.store_changes.specs.Rewrites.{ComesTo, Removes, Sets, are_placed};
ghost use Rattle.store_changes.specs.Work.{Counts, change_lost};

use crate::flags::{flags_of, sets_of};
use crate::headings::find_heading;
use crate::outcome::{Outcome, Ready};
use bat_core::Operate;
use cell_core::{Cell, Memory, RunError, Sequence, Steps, Table, Word, copy_columns};
use change_plans::{Decided, decide, refusal_over};
use mal_check::checked_plans_run;
use mal_exec::run_plan;
use mal_meaning::Plan;
use mal_opt::optimise;
use rows_to_mal::compile_write;
use sql_definitions::{Refusal, Typed};
use sql_tree::Stmt;
use std::alloc::Global;
use std::sync::ledger::Ledger;
use table_store::Store;

/// The table that a DELETE or an UPDATE changes.
fn table_of(stmt: &Stmt) -> &Word
    requires { is_write (stmt_tree stmt.now) ≡ true }
    ensures { result.now ≡ changed_table (stmt_tree stmt.now) }
{
    match stmt {
        Stmt::Delete { table, .. } | Stmt::Update { table, .. } => table,
        _ => unreachable!(),
    }
}

/// The plan by which a checked DELETE or UPDATE is done: its translation, optimised.
fn plan_write(alloc: Global, typed: &Typed) -> Result<Plan, Memory>
    requires write { is_write (stmt_tree typed.now.stmt) ≡ true }
    requires held { (db : DbSeen) × HoldsTables (stmt_tree typed.now.stmt) typed.now.sources db }
    ensures plan { IfOk result (λ plan. plan ≡ optimised (write_plan (stmt_tree typed.now.stmt) typed.now.sources)) }
    ensures meaning { IfOk result (λ plan. (db : DbSeen) → plan_rows plan db ≡ plan_rows (write_plan (stmt_tree typed.now.stmt) typed.now.sources) db) }
    ensures runs { IfOk result (λ plan. (db : DbSeen) → HoldsTables (stmt_tree typed.now.stmt) typed.now.sources db → Runs plan db) }
{
    checked_plans_run();
    let plan = compile_write(alloc, typed)?;
    let better = optimise(alloc, &plan)?;
    Ok(better)
}

/// Prepares the removal of the rows at these places.
fn remove(alloc: Global, store: &Store, table: &Word, places: &[u64]) -> Result<Ready, Memory>
    requires differ { NamesDiffer store.now.db }
    requires rise { rises 0 (row_count table.now store.now.db) places.now ≡ true }
    ensures { IfOk result (Removes table.now places.now store.now) }
{
    let flags = flags_of(alloc, places, store.row_count(table))?;
    let change = store.drop_flagged_rows(alloc, table, &flags)?;
    Ok(Ready {
        change,
        rows: Some(places.len() as u64),
    })
}

/// Prepares new cells in these columns for the rows at these places.
fn set(
    alloc: Global,
    store: &Store,
    table: &Word,
    names: &[Word],
    places: &[u64],
    cells: &[Sequence<Cell>],
) -> Result<Ready, Memory>
    requires differ { NamesDiffer store.now.db }
    requires placed { are_placed (row_count table.now store.now.db) names.now places.now cells.now ≡ true }
    ensures { IfOk result (Sets table.now names.now places.now cells.now store.now) }
{
    let flags = flags_of(alloc, places, store.row_count(table))?;
    let sets = sets_of(alloc, names, cells)?;
    let change = store.set_cells(alloc, table, &flags, &sets)?;
    Ok(Ready {
        change,
        rows: Some(places.len() as u64),
    })
}

/// Prepares a DELETE or an UPDATE by the rows of its plan.
fn carry_out(
    alloc: Global,
    store: &Store,
    typed: &Typed,
    rows: &[Sequence<Cell>],
) -> Result<Result<Ready, Refusal>, Memory>
    requires write { is_write (stmt_tree typed.now.stmt) ≡ true }
    requires held { HoldsTables (stmt_tree typed.now.stmt) typed.now.sources store.now.db }
    requires rows { plan_rows (write_plan (stmt_tree typed.now.stmt) typed.now.sources) store.now.db ≡ Some rows.now }
    ensures { IfOk result (ComesTo (stmt_tree typed.now.stmt) store.now) }
{
    let table = table_of(&typed.stmt);
    match decide(alloc, typed, rows)? {
        Decided::Refused(refusal) => Ok(Err(refusal)),
        Decided::Gone { places } => Ok(Ok(remove(alloc, store, table, places.as_slice())?)),
        Decided::Set {
            columns,
            places,
            cells,
        } => Ok(Ok(set(
            alloc,
            store,
            table,
            columns.as_slice(),
            places.as_slice(),
            cells.as_slice(),
        )?)),
    }
}

/// Why a DELETE or an UPDATE is refused whose plan overflows.
fn refusal_after(alloc: Global, store: &Store, typed: &Typed) -> Result<Refusal, Memory>
    requires write { is_write (stmt_tree typed.now.stmt) ≡ true }
    requires held { HoldsTables (stmt_tree typed.now.stmt) typed.now.sources store.now.db }
    requires overflows { plan_rows (write_plan (stmt_tree typed.now.stmt) typed.now.sources) store.now.db ≡ None }
    ensures { IfOk result (λ refusal. effect (stmt_tree typed.now.stmt) store.now.db ≡ (store.now.db, Refused refusal)) }
{
    let name = table_of(&typed.stmt);
    let Some(heading) = find_heading(store.schema(), name) else {
        unreachable!();
    };
    let table = Table {
        name: heading.name.share()?,
        columns: copy_columns(alloc, heading.columns.as_slice())?,
        rows: store.rows(alloc, name)?,
    };
    let refusal = refusal_over(alloc, typed, table)?;
    Ok(refusal)
}

/// The outcome of a checked DELETE or UPDATE: its plan runs over the columns of the store, and its
/// rows say which rows go or get which cells.
pub(crate) fn rewrite<E: Operate, L: Ledger>(
    alloc: Global,
    store: &Store,
    typed: &Typed,
    kernel: &E,
    steps: &mut Steps<L>,
) -> Result<Outcome, Memory>
    requires write { is_write (stmt_tree typed.now.stmt) ≡ true }
    requires held { HoldsTables (stmt_tree typed.now.stmt) typed.now.sources store.now.db }
    ensures comes { IfOk result (λ outcome. ComesTo (stmt_tree typed.now.stmt) store.now outcome.ready) }
    ensures work { IfOk result (λ outcome. outcome.work ≡ change_load (stmt_tree typed.now.stmt) store.now.db) }
    ensures counted { IfOk result (λ outcome. Counts steps.old steps.new outcome.work (change_lost (stmt_tree typed.now.stmt) store.now.db)) }
{
    let plan = plan_write(alloc, typed)?;
    let snap = store.snapshot(alloc)?;
    match run_plan(alloc, &plan, &snap, kernel, steps) {
        Ok(ran) => {
            let ready = carry_out(alloc, store, typed, ran.rows.as_slice())?;
            Ok(Outcome {
                ready,
                work: ran.load,
            })
        }
        Err(RunError::Overflow) => {
            let refusal = refusal_after(alloc, store, typed)?;
            Ok(Outcome {
                ready: Err(refusal),
                work: 0,
            })
        }
        Err(RunError::Memory) => Err(Memory),
    }
}
