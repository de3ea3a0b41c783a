ghost use Rattle.std.specs.Prelude.{◌≡◌, ◌++◌, [], ◌∷◌, filter_map, map, position, IfOk, OnOk};
ghost use Rattle.std.specs.List.{list_any};
ghost use Rattle.std.specs.Option.{option_map};
ghost use Rattle.sql_tree.specs.Tree.{ItemTree, expr_tree, item_tree, query_tree};
ghost use Rattle.sql_definitions.specs.References.{has_aggregate as has_aggregate_of, column_item, all_columns as all_columns_of, is_grouped as is_grouped_of};
ghost use Rattle.sql_definitions.specs.Answer.{is_called, is_column, item_at, item_named, key_place as key_place_of};

use crate::called::{Called, column_place};
use cell_core::{Column, Memory, Sequence, Word};
use sql_tree::{ColRef, Expr, Item, Place, Query, SortKey};
use std::alloc::Global;

/// Whether an aggregate occurs in an expression.
pub fn has_aggregate(expr: &Expr) -> bool
    ensures { result ≡ has_aggregate_of (expr_tree expr.now) }
{
    match expr {
        Expr::Lit(_) | Expr::Col(_) => false,
        Expr::Arith { left, right, .. } => has_aggregate(left) || has_aggregate(right),
        Expr::Agg { of: None, .. } => true,
        Expr::Agg { of: Some(_), .. } => true,
    }
}

/// Whether a query is grouped: GROUP BY, HAVING and aggregates make it so.
pub fn is_grouped(query: &Query) -> bool
    ensures { result ≡ is_grouped_of (query_tree query.now) }
{
    query.groups.len() != 0 || query.having.is_some() || has_aggregates(query.items.as_slice())
}

/// Whether one of the items is or holds an aggregate.
fn has_aggregates(items: &[Item]) -> bool
    ensures { result ≡ list_any (λ (item : ItemTree). has_aggregate_of item.expr) (map item_tree items.now) }
{
    let mut rest = items;
    'items: while let [item, more @ ..] = rest {
        if has_aggregate(&item.expr) {
            return true;
        }
        rest = more;
    }
    false
}

/// A column as an item that names it.
fn item_of(name: &Word, column: &Column) -> Result<Item, Memory>
    ensures { IfOk result (λ item. item_tree item ≡ column_item name.now column.now) }
{
    let reference = ColRef {
        table: Some(name.share()?),
        column: column.name.share()?,
    };
    Ok(Item {
        expr: Expr::Col(reference),
        alias: None,
    })
}

/// Adds the columns of a table as items.
fn add_columns(source: &Called<'_>, items: &mut Sequence<Item>) -> Result<(), Memory>
    ensures { OnOk result (map item_tree items.new ≡ map item_tree items.old ++ map (column_item source.now.name) source.now.columns) }
{
    let mut rest = source.columns();
    'columns: while let [column, more @ ..] = rest {
        items.push(item_of(source.name(), column)?)?;
        rest = more;
    }
    Ok(())
}

/// All columns of all tables as items, which is what `*` stands for.
pub fn all_columns(alloc: Global, sources: &[Called<'_>]) -> Result<Sequence<Item>, Memory>
    ensures { IfOk result (λ items. map item_tree items ≡ all_columns_of sources.now) }
{
    let mut items = Sequence::new(alloc);
    let mut rest = sources;
    'sources: while let [source, more @ ..] = rest {
        add_columns(source, &mut items)?;
        rest = more;
    }
    Ok(items)
}

/// Whether an item has the alias that a key names.
fn has_alias(reference: &ColRef, item: &Item) -> bool
    ensures { result ≡ is_called reference.now (item_tree item.now) }
{
    match (&reference.table, &item.alias) {
        (None, Some(alias)) => reference.column == *alias,
        _ => false,
    }
}

/// Whether an item is the column at a place.
fn is_at(sources: &[Called<'_>], place: Option<(usize, usize)>, item: &Item) -> bool
    ensures { result ≡ is_column sources.now place (item_tree item.now).expr }
{
    let Expr::Col(column) = &item.expr else {
        return false;
    };
    match (
        place,
        column_place(sources, column.table.as_ref(), &column.column),
    ) {
        (Some(a), Some(b)) => a.0 == b.0 && a.1 == b.1,
        _ => false,
    }
}

/// The first item with the alias that a key names.
fn find_alias(reference: &ColRef, items: &[Item]) -> Option<usize>
    ensures { result ≡ position (is_called reference.now) (map item_tree items.now) }
{
    let mut rest = items;
    'items: while let [item, more @ ..] = rest {
        if has_alias(reference, item) {
            return Some(items.len() - rest.len());
        }
        rest = more;
    }
    None
}

/// The first item that is the column at a place.
fn find_at(sources: &[Called<'_>], place: Option<(usize, usize)>, items: &[Item]) -> Option<usize>
    ensures { result ≡ position (λ (item : ItemTree). is_column sources.now place item.expr) (map item_tree items.now) }
{
    let mut rest = items;
    'items: while let [item, more @ ..] = rest {
        if is_at(sources, place, item) {
            return Some(items.len() - rest.len());
        }
        rest = more;
    }
    None
}

/// The item that a key names, from 0: the first with that alias, or else the first that is that
/// column.
fn find_item(sources: &[Called<'_>], items: &[Item], reference: &ColRef) -> Option<usize>
    ensures { result ≡ item_named sources.now (map item_tree items.now) reference.now }
{
    match find_alias(reference, items) {
        Some(at) => Some(at),
        None => {
            let place = column_place(sources, reference.table.as_ref(), &reference.column);
            find_at(sources, place, items)
        }
    }
}

/// The item that a key of ORDER BY sorts by, from 0, if there is one.
pub fn key_place(sources: &[Called<'_>], items: &[Item], place: &Place) -> Option<usize>
    ensures { result ≡ key_place_of sources.now (map item_tree items.now) place.now }
{
    match place {
        Place::Position(number) => position_of(items.len(), *number),
        Place::Named(reference) => find_item(sources, items, reference),
    }
}

/// The place of the item at a position, which is counted from 1.
fn position_of(count: usize, number: u64) -> Option<usize>
    ensures { result ≡ item_at count number }
{
    if number >= 1 && number <= count as u64 {
        Some((number - 1) as usize)
    } else {
        None
    }
}

/// The keys of ORDER BY as places of items, each with whether low cells come first.
pub fn sort_keys(
    alloc: Global,
    sources: &[Called<'_>],
    items: &[Item],
    keys: &[SortKey],
) -> Result<Vec<(u32, bool)>, Memory>
    ensures { IfOk result (λ places. places.items ≡ filter_map (λ (key : SortKey). option_map (λ n. (n, key.ascending)) (key_place_of sources.now (map item_tree items.now) key.at)) keys.now) }
{
    let mut places = Vec::new(alloc);
    let mut rest = keys;
    'keys: while let [key, more @ ..] = rest {
        if let Some(place) = key_place(sources, items, &key.at) {
            let place = u32::try_from(place).map_err(|_| Memory)?;
            places.push((place, key.ascending))?;
        }
        rest = more;
    }
    Ok(places)
}
