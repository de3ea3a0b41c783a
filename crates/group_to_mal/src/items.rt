//! The items of a query, emitted as the definitions say.
ghost use Rattle.std.specs.Prelude.{◌≡◌, ◌∷◌, map, not, ◌||◌, IfOk};
ghost use Rattle.std.specs.Option.{option_copied, option_map};
ghost use Rattle.sql_tree.specs.Tree.{cond_tree};
ghost use Rattle.sql_tree.specs.Tree.ExprTree.{ColumnOf};
ghost use Rattle.rows_to_mal.specs.Conjuncts.{expr_value};
ghost use Rattle.mal_emit.specs.Emitters.{followed};
ghost use Rattle.mal_emit.specs.Phrases.{variables};
ghost use Rattle.group_to_mal.specs.QueryPlan.{kept_columns as kept_columns_of, items_by as items_by_of, group_items as group_items_of};
ghost use Rattle.group_to_mal.specs.Columns.{heads as heads_of, values_by, any_bat, with_bat, spread_by, spread_first as spread_first_of};
ghost use Rattle.group_to_mal.specs.Values.{is_grouped, group_value};
ghost use Rattle.group_to_mal.specs.Forms.{value_over, is_bat_over};
ghost use Rattle.group_to_mal.specs.ItemValues.{args_of, bats_in};
ghost use Rattle.sql_definitions.specs.Exprs.{exprs_of};

use crate::columns::{ItemValue, groups, heads, keep_bats, spread, undoubled};
use crate::form::Grouping;
use cell_core::{Arg, Instr, Memory, Op, Sequence};
use rows_to_mal::Tables;
use sql_tree::{ColRef, Cond, Item};
use std::alloc::Global;

/// Adds the values of items, one after the other.
pub(crate) fn values(
    alloc: Global,
    instrs: &mut Sequence<Instr>,
    tables: &Tables<'_>,
    rows: &[u32],
    form: &Grouping,
    items: &[Item],
) -> Result<Vec<ItemValue>, Memory>
    ensures emitted { IfOk result (λ found. (instrs.new, args_of found.items) ≡ (values_by (value_over tables.now (variables rows.now) form.now) (exprs_of items.now)).run instrs.old) }
    ensures bats { IfOk result (λ found. bats_in found.items ≡ map (is_bat_over form.now) (exprs_of items.now)) }
{
    let mut found = Vec::new(alloc);
    for item in items {
        let arg = form.value(alloc, instrs, tables, rows, &item.expr)?;
        let is_bat = form.is_bat(&item.expr);
        found.push(ItemValue { arg, is_bat })?;
    }
    Ok(found)
}

/// Whether one of the columns is a BAT.
fn has_bat(columns: &[ItemValue]) -> bool
    ensures { result ≡ any_bat (bats_in columns.now) }
{
    for column in columns {
        if column.is_bat {
            return true;
        }
    }
    false
}

/// Adds a scalar beside each head for the first column, where none is a BAT.
fn spread_first(
    alloc: Global,
    instrs: &mut Sequence<Instr>,
    heads: Arg,
    columns: Vec<ItemValue>,
) -> Result<Vec<ItemValue>, Memory>
    ensures emitted { IfOk result (λ spread. (instrs.new, args_of spread.items) ≡ (spread_first_of heads (bats_in columns.items) (args_of columns.items)).run instrs.old) }
    ensures bats { IfOk result (λ spread. bats_in spread.items ≡ with_bat (bats_in columns.items)) }
{
    match columns.as_slice() {
        [] => Ok(columns),
        [first, more @ ..] => {
            let one = first_column(alloc, instrs, heads, first, has_bat(more))?;
            with_first(alloc, one, more)
        }
    }
}

/// The first column, which becomes a BAT where no other is one.
fn first_column(
    alloc: Global,
    instrs: &mut Sequence<Instr>,
    heads: Arg,
    first: &ItemValue,
    others: bool,
) -> Result<ItemValue, Memory>
    ensures emitted { IfOk result (λ one. (instrs.new, one.arg) ≡ (spread_by heads (first.now.is_bat || others) first.now.arg).run instrs.old) }
    ensures bat { IfOk result (λ one. one.is_bat ≡ (first.now.is_bat || not others)) }
{
    let arg = first.arg.share()?;
    let value = ItemValue {
        arg,
        is_bat: first.is_bat || others,
    };
    let arg = spread(alloc, instrs, heads, value)?;
    Ok(ItemValue {
        arg,
        is_bat: first.is_bat || !others,
    })
}

/// Puts a column before others.
fn with_first(alloc: Global, first: ItemValue, more: &[ItemValue]) -> Result<Vec<ItemValue>, Memory>
    ensures { IfOk result (λ all. all.items ≡ first ∷ more.now) }
{
    let mut all = Vec::new(alloc);
    all.push(first)?;
    for column in more {
        all.push(column.share()?)?;
    }
    Ok(all)
}

/// Adds the columns for the rows of which HAVING is true.
fn kept_columns(
    alloc: Global,
    instrs: &mut Sequence<Instr>,
    tables: &Tables<'_>,
    rows: &[u32],
    form: &Grouping,
    heads: Arg,
    having: Option<&Cond>,
    columns: Vec<ItemValue>,
) -> Result<Vec<ItemValue>, Memory>
    ensures emitted { IfOk result (λ kept. (instrs.new, args_of kept.items) ≡ (kept_columns_of (value_over tables.now (variables rows.now) form.now) (is_bat_over form.now) heads (option_map cond_tree (option_copied having.entry)) (bats_in columns.items) (args_of columns.items)).run instrs.old) }
    ensures bats { IfOk result (λ kept. bats_in kept.items ≡ bats_in columns.items) }
{
    let Some(cond) = having else {
        return Ok(columns);
    };
    let arg = form.test(alloc, instrs, tables, rows, cond)?;
    let value = ItemValue {
        arg,
        is_bat: form.is_test_bat(cond),
    };
    let test = spread(alloc, instrs, heads, value)?;
    keep_bats(alloc, instrs, test, columns.as_slice())
}

/// Adds the items by these values, of which one at least becomes a BAT: for the rows of which
/// HAVING is true, and without doubled ones where that is asked for.
pub(crate) fn items_by(
    alloc: Global,
    instrs: &mut Sequence<Instr>,
    tables: &Tables<'_>,
    rows: &[u32],
    form: &Grouping,
    heads: Arg,
    having: Option<&Cond>,
    distinct: bool,
    items: &[Item],
) -> Result<Vec<ItemValue>, Memory>
    ensures { IfOk result (λ columns. (instrs.new, args_of columns.items) ≡ (items_by_of (value_over tables.now (variables rows.now) form.now) (is_bat_over form.now) heads (option_map cond_tree (option_copied having.entry)) distinct (exprs_of items.now)).run instrs.old) }
{
    let found = values(alloc, instrs, tables, rows, form, items)?;
    let spread = spread_first(alloc, instrs, heads.share()?, found)?;
    let kept = kept_columns(alloc, instrs, tables, rows, form, heads, having, spread)?;
    undoubled(alloc, instrs, distinct, kept)
}

/// Adds the values of the columns of GROUP BY.
fn keys(
    alloc: Global,
    instrs: &mut Sequence<Instr>,
    tables: &Tables<'_>,
    rows: &[u32],
    columns: &[ColRef],
) -> Result<Vec<Arg>, Memory>
    ensures { IfOk result (λ args. (instrs.new, args.items) ≡ (values_by (expr_value tables.now (variables rows.now)) (map ColumnOf columns.now)).run instrs.old) }
{
    let mut args = Vec::new(alloc);
    for column in columns {
        let arg = tables.column(alloc, instrs, rows, column)?;
        args.push(arg)?;
    }
    Ok(args)
}

/// Adds the groups of the rows so far, and the items for each of them.
pub(crate) fn group_items(
    alloc: Global,
    instrs: &mut Sequence<Instr>,
    tables: &Tables<'_>,
    rows: &[u32],
    columns: &[ColRef],
    having: Option<&Cond>,
    distinct: bool,
    items: &[Item],
) -> Result<Vec<ItemValue>, Memory>
    ensures { IfOk result (λ shown. (instrs.new, args_of shown.items) ≡ (group_items_of tables.now (variables rows.now) columns.now (option_map cond_tree (option_copied having.entry)) distinct (exprs_of items.now)).run instrs.old) }
{
    let keys = keys(alloc, instrs, tables, rows, columns)?;
    let numbers = groups(alloc, instrs, keys.as_slice())?;
    items_of_groups(
        alloc, instrs, tables, rows, numbers, having, distinct, items,
    )
}

/// Adds the items for each of these groups.
fn items_of_groups(
    alloc: Global,
    instrs: &mut Sequence<Instr>,
    tables: &Tables<'_>,
    rows: &[u32],
    groups: Arg,
    having: Option<&Cond>,
    distinct: bool,
    items: &[Item],
) -> Result<Vec<ItemValue>, Memory>
    ensures { IfOk result (λ shown. (instrs.new, args_of shown.items) ≡ (followed (heads_of groups) (λ h. items_by_of (group_value tables.now (variables rows.now) groups h) is_grouped h (option_map cond_tree (option_copied having.entry)) distinct (exprs_of items.now))).run instrs.old) }
{
    let firsts = heads(alloc, instrs, groups.share()?)?;
    let form = Grouping::Groups {
        groups,
        heads: firsts,
    };
    let beside = Arg::Var(firsts);
    items_by(
        alloc, instrs, tables, rows, &form, beside, having, distinct, items,
    )
}
