//! The plan of a query, after the rows that its condition keeps.
ghost use Rattle.std.specs.Prelude.{◌≡◌, map, IfOk};
ghost use Rattle.sql_tree.specs.Tree.{item_tree, query_tree};
ghost use Rattle.sql_definitions.specs.References.{items_of};
ghost use Rattle.mal_emit.specs.Phrases.{variables};
ghost use Rattle.group_to_mal.specs.QueryPlan.{plan_of, shown_items as shown_items_of};

use crate::shown::shown_items;
use cell_core::{Instr, Memory, Sequence};
use mal_meaning::{Out, Plan};
use rows_to_mal::Tables;
use sql_definitions::{Called, all_columns, sort_keys};
use sql_tree::{Item, Query};
use std::alloc::Global;

/// The plan with these items, after the instructions of its rows.
fn plan_with_items(
    alloc: Global,
    mut instrs: Sequence<Instr>,
    tables: &Tables<'_>,
    called: &[Called<'_>],
    rows: &[u32],
    query: &Query,
    items: &[Item],
) -> Result<Plan, Memory>
    requires called { tables.now.called ≡ called.now }
    requires items { map item_tree items.now ≡ items_of called.now (query_tree query.now) }
    ensures { IfOk result (λ plan. plan ≡ plan_of tables.now (query_tree query.now) ((shown_items_of tables.now (query_tree query.now) (variables rows.now)).run instrs)) }
{
    let shown = shown_items(alloc, &mut instrs, tables, rows, query, items)?;
    let order = sort_keys(alloc, called, items, query.keys.as_slice())?;
    Ok(Plan {
        instrs,
        out: Out {
            cols: Sequence::from_vec(shown.columns),
            keep: shown.test,
            order: Sequence::from_vec(order),
            limit: query.limit,
        },
    })
}

/// The plan of a query, after the instructions of the rows that its condition keeps.
pub fn plan_after(
    alloc: Global,
    instrs: Sequence<Instr>,
    tables: &Tables<'_>,
    called: &[Called<'_>],
    rows: &[u32],
    query: &Query,
) -> Result<Plan, Memory>
    requires called { tables.now.called ≡ called.now }
    ensures plan { IfOk result (λ plan. plan ≡ plan_of tables.now (query_tree query.now) ((shown_items_of tables.now (query_tree query.now) (variables rows.now)).run instrs)) }
{
    if query.items.len() == 0 {
        let items = all_columns(alloc, called)?;
        plan_with_items(alloc, instrs, tables, called, rows, query, items.as_slice())
    } else {
        let items = query.items.as_slice();
        plan_with_items(alloc, instrs, tables, called, rows, query, items)
    }
}
