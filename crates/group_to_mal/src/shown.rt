//! What a query shows of the rows that its condition keeps, emitted as the definitions say.
ghost use Rattle.std.specs.Prelude.{◌≡◌, None, IfOk};
ghost use Rattle.std.specs.Option.{option_copied, option_map};
ghost use Rattle.sql_tree.specs.Tree.{cond_tree, query_tree};
ghost use Rattle.sql_definitions.specs.References.{item_exprs};
ghost use Rattle.mal_emit.specs.Phrases.{variables};
ghost use Rattle.group_to_mal.specs.Columns.{values_by};
ghost use Rattle.group_to_mal.specs.Values.{test_by, whole_value, whole_test as whole_test_of};
ghost use Rattle.group_to_mal.specs.QueryPlan.{always as always_of, group_items as group_items_of, row_items as row_items_of, whole_items as whole_items_of, shown_items as shown_items_of};
ghost use Rattle.group_to_mal.specs.ItemValues.{args_of};
ghost use Rattle.sql_definitions.specs.Exprs.{exprs_of};

use crate::columns::ItemValue;
use crate::form::{Grouping, first_rows};
use crate::items::{group_items, items_by, values};
use cell_core::{Arg, Instr, Memory, Sequence};
use rows_to_mal::Tables;
use sql_definitions::is_grouped;
use sql_tree::{ColRef, Cond, Item, Query};
use std::alloc::Global;

/// What a plan shows: its columns, and a test of whether it shows any row.
#[derive(Drop)]
pub struct ShownColumns {
    /// The columns.
    pub columns: Vec<Arg>,
    /// The test, where there is one.
    pub test: Option<Arg>,
}

/// The arguments of columns.
fn args(alloc: Global, columns: &[ItemValue]) -> Result<Vec<Arg>, Memory>
    ensures { IfOk result (λ args. args.items ≡ args_of columns.now) }
{
    let mut args = Vec::new(alloc);
    for column in columns {
        args.push(column.arg.share()?)?;
    }
    Ok(args)
}

/// Columns that are always shown.
fn always(alloc: Global, columns: &[ItemValue]) -> Result<ShownColumns, Memory>
    ensures columns { IfOk result (λ shown. shown.columns.items ≡ args_of columns.now) }
    ensures test { IfOk result (λ shown. shown.test ≡ None) }
{
    let columns = args(alloc, columns)?;
    Ok(ShownColumns {
        columns,
        test: None,
    })
}

/// Adds the items for each row so far.
fn row_items(
    alloc: Global,
    instrs: &mut Sequence<Instr>,
    tables: &Tables<'_>,
    rows: &[u32],
    distinct: bool,
    items: &[Item],
) -> Result<Vec<ItemValue>, Memory>
    ensures { IfOk result (λ shown. (instrs.new, args_of shown.items) ≡ (row_items_of tables.now (variables rows.now) distinct (exprs_of items.now)).run instrs.old) }
{
    let form = Grouping::Rows;
    let beside = first_rows(rows);
    items_by(
        alloc, instrs, tables, rows, &form, beside, None, distinct, items,
    )
}

/// Adds the values of items over all rows so far.
fn whole_values(
    alloc: Global,
    instrs: &mut Sequence<Instr>,
    tables: &Tables<'_>,
    rows: &[u32],
    items: &[Item],
) -> Result<Vec<ItemValue>, Memory>
    ensures { IfOk result (λ found. (instrs.new, args_of found.items) ≡ (values_by (whole_value tables.now (variables rows.now)) (exprs_of items.now)).run instrs.old) }
{
    values(alloc, instrs, tables, rows, &Grouping::Whole, items)
}

/// Adds the truth of a condition over all rows so far.
fn test_of_all(
    alloc: Global,
    instrs: &mut Sequence<Instr>,
    tables: &Tables<'_>,
    rows: &[u32],
    cond: &Cond,
) -> Result<Arg, Memory>
    ensures { IfOk result (λ arg. (instrs.new, arg) ≡ (test_by (whole_value tables.now (variables rows.now)) (cond_tree cond.now)).run instrs.old) }
{
    Grouping::Whole.test(alloc, instrs, tables, rows, cond)
}

/// Adds the truth of HAVING over all rows so far.
fn whole_test(
    alloc: Global,
    instrs: &mut Sequence<Instr>,
    tables: &Tables<'_>,
    rows: &[u32],
    having: Option<&Cond>,
) -> Result<Option<Arg>, Memory>
    ensures { IfOk result (λ test. (instrs.new, test) ≡ (whole_test_of tables.now (variables rows.now) (option_map cond_tree (option_copied having.entry))).run instrs.old) }
{
    let Some(cond) = having else {
        return Ok(None);
    };
    let test = test_of_all(alloc, instrs, tables, rows, cond)?;
    Ok(Some(test))
}

/// Adds one row of scalars over all rows so far, and the test of whether it is shown.
fn whole_items(
    alloc: Global,
    instrs: &mut Sequence<Instr>,
    tables: &Tables<'_>,
    rows: &[u32],
    having: Option<&Cond>,
    items: &[Item],
) -> Result<ShownColumns, Memory>
    ensures { IfOk result (λ shown. (instrs.new, (shown.columns.items, shown.test)) ≡ (whole_items_of tables.now (variables rows.now) (option_map cond_tree (option_copied having.entry)) (exprs_of items.now)).run instrs.old) }
{
    let found = whole_values(alloc, instrs, tables, rows, items)?;
    let columns = args(alloc, &found)?;
    let test = whole_test(alloc, instrs, tables, rows, having)?;
    Ok(ShownColumns { columns, test })
}

/// Adds the items for each group of the rows so far, as they are shown.
fn shown_groups(
    alloc: Global,
    instrs: &mut Sequence<Instr>,
    tables: &Tables<'_>,
    rows: &[u32],
    columns: &[ColRef],
    having: Option<&Cond>,
    distinct: bool,
    items: &[Item],
) -> Result<ShownColumns, Memory>
    ensures { IfOk result (λ shown. (instrs.new, (shown.columns.items, shown.test)) ≡ (always_of (group_items_of tables.now (variables rows.now) columns.now (option_map cond_tree (option_copied having.entry)) distinct (exprs_of items.now))).run instrs.old) }
{
    let found = group_items(
        alloc, instrs, tables, rows, columns, having, distinct, items,
    )?;
    always(alloc, &found)
}

/// Adds what a query with these items shows of the rows so far.
pub(crate) fn shown_items(
    alloc: Global,
    instrs: &mut Sequence<Instr>,
    tables: &Tables<'_>,
    rows: &[u32],
    query: &Query,
    items: &[Item],
) -> Result<ShownColumns, Memory>
    requires items { exprs_of items.now ≡ item_exprs tables.now.called (query_tree query.now) }
    ensures emitted { IfOk result (λ shown. (instrs.new, (shown.columns.items, shown.test)) ≡ (shown_items_of tables.now (query_tree query.now) (variables rows.now)).run instrs.old) }
{
    let distinct = query.distinct;
    let having = query.having.as_ref();
    if !is_grouped(query) {
        let columns = row_items(alloc, instrs, tables, rows, distinct, items)?;
        always(alloc, &columns)
    } else if query.groups.len() == 0 {
        whole_items(alloc, instrs, tables, rows, having, items)
    } else {
        let groups = query.groups.as_slice();
        shown_groups(alloc, instrs, tables, rows, groups, having, distinct, items)
    }
}
