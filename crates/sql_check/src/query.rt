//! The refusals of queries.
ghost use Rattle.std.specs.Prelude.{◌≡◌, map, IfOk};
ghost use Rattle.std.specs.Option.{option_or as option_or_of};
ghost use Rattle.sql_tree.specs.Tree.{item_tree, query_tree};
ghost use Rattle.sql_definitions.specs.Sources.{from_name as from_name_of, from_sources as from_sources_of};
ghost use Rattle.sql_definitions.specs.References.{items_of};
ghost use Rattle.sql_definitions.specs.Check.{missing_tables, refused_if, not_grouped as not_grouped_of, is_misfit_query as is_misfit_query_of, column_refusals, query_refusals};
ghost use Rattle.sql_definitions.specs.declared.refusal.Refusal.TheVariants.{KindsDiffer};
ghost use Rattle.sql_check.specs.First.{first};

use crate::grouped::{ungrouped_in_cond, ungrouped_in_items};
use crate::keys::bad_keys;
use crate::kinds::{are_items_misfit, is_cond_misfit};
use crate::names::{name_twice, source_named};
use crate::references::{bad_in_cond, bad_in_items, bad_references};
use cell_core::{Memory, Sequence, Word};
use sql_definitions::{Called, Refusal, Schema, all_columns, from_name, is_grouped};
use sql_tree::{FromItem, Item, Query, printed_name};
use std::alloc::Global;

/// The first of two refusals.
pub(crate) fn either(a: Option<Refusal>, b: Option<Refusal>) -> Option<Refusal>
    ensures { result ≡ option_or_of a b }
{
    match a {
        Some(refusal) => Some(refusal),
        None => b,
    }
}

/// The refusal of kinds, where they don't fit.
pub(crate) fn kinds_differ(is_misfit: bool) -> Option<Refusal>
    ensures { result ≡ first (refused_if is_misfit KindsDiffer) }
{
    if is_misfit {
        Some(Refusal::KindsDiffer)
    } else {
        None
    }
}

/// The refusal of the first table of FROM that doesn't exist.
fn missing_table(
    alloc: Global,
    froms: &[FromItem],
    schema: &Schema,
) -> Result<Option<Refusal>, Memory>
    ensures { IfOk result (λ refusal. refusal ≡ first (missing_tables froms.now schema.now)) }
{
    let mut rest = froms;
    'froms: while let [from, more @ ..] = rest {
        if source_named(schema, &from.table).is_none() {
            return Ok(Some(Refusal::NoTable(printed_name(alloc, &from.table)?)));
        }
        rest = more;
    }
    Ok(None)
}

/// The FROM names.
fn from_names(alloc: Global, froms: &[FromItem]) -> Result<Sequence<Word>, Memory>
    ensures { IfOk result (λ names. names ≡ map from_name_of froms.now) }
{
    let mut names = Sequence::new(alloc);
    let mut rest = froms;
    'froms: while let [from, more @ ..] = rest {
        names.push(from_name(from).share()?)?;
        rest = more;
    }
    Ok(names)
}

/// The tables of FROM that exist, under their FROM names.
fn from_sources<'a>(
    alloc: Global,
    froms: &'a [FromItem],
    schema: &'a Schema,
) -> Result<Vec<Called<'a>>, Memory>
    ensures { IfOk result (λ sources. sources.items ≡ from_sources_of froms.now schema.now) }
{
    let mut sources = Vec::new(alloc);
    let mut rest = froms;
    'froms: while let [from, more @ ..] = rest {
        if let Some(source) = source_named(schema, &from.table) {
            sources.push(Called::new(from_name(from), &source.columns))?;
        }
        rest = more;
    }
    Ok(sources)
}

/// The first refusal of a column that a grouped query isn't grouped by.
fn not_grouped(
    alloc: Global,
    sources: &[Called<'_>],
    items: &[Item],
    query: &Query,
) -> Result<Option<Refusal>, Memory>
    requires { map item_tree items.now ≡ items_of sources.now (query_tree query.now) }
    ensures { IfOk result (λ refusal. refusal ≡ first (not_grouped_of sources.now (query_tree query.now))) }
{
    if !is_grouped(query) {
        return Ok(None);
    }
    let groups = query.groups.as_slice();
    let in_items = ungrouped_in_items(alloc, sources, groups, items)?;
    let in_having = ungrouped_in_cond(alloc, sources, groups, &query.having)?;
    let refusal = either(in_items, in_having);
    Ok(refusal)
}

/// Whether kinds don't fit somewhere in a query.
#[tactic(auto, using(crate::proofs::QueryLemmas::misfit_is))]
fn is_misfit_query(sources: &[Called<'_>], items: &[Item], query: &Query) -> bool
    requires { map item_tree items.now ≡ items_of sources.now (query_tree query.now) }
    ensures { result ≡ is_misfit_query_of sources.now (query_tree query.now) }
{
    are_items_misfit(sources, items)
        || is_cond_misfit(sources, &query.cond)
        || is_cond_misfit(sources, &query.having)
}

/// The first refusal of a query whose tables exist, with these items.
fn refusal_with(
    alloc: Global,
    sources: &[Called<'_>],
    items: &[Item],
    query: &Query,
) -> Result<Option<Refusal>, Memory>
    requires { map item_tree items.now ≡ items_of sources.now (query_tree query.now) }
    ensures { IfOk result (λ refusal. refusal ≡ first (column_refusals sources.now (query_tree query.now))) }
{
    let in_items = bad_in_items(alloc, sources, items)?;
    let in_cond = bad_in_cond(alloc, sources, &query.cond)?;
    let in_groups = bad_references(alloc, sources, query.groups.as_slice())?;
    let in_having = bad_in_cond(alloc, sources, &query.having)?;
    let in_keys = bad_keys(alloc, sources, items, query.keys.as_slice())?;
    let ungrouped = not_grouped(alloc, sources, items, query)?;
    let kinds = kinds_differ(is_misfit_query(sources, items, query));
    let shown = either(in_items, in_cond);
    let grouped = either(shown, in_groups);
    let having = either(grouped, in_having);
    let references = either(having, in_keys);
    let columns = either(references, ungrouped);
    let refusal = either(columns, kinds);
    Ok(refusal)
}

/// The first refusal of a query whose tables exist.
fn column_refusal(
    alloc: Global,
    sources: &[Called<'_>],
    query: &Query,
) -> Result<Option<Refusal>, Memory>
    ensures { IfOk result (λ refusal. refusal ≡ first (column_refusals sources.now (query_tree query.now))) }
{
    if query.items.len() == 0 {
        let items = all_columns(alloc, sources)?;
        refusal_with(alloc, sources, items.as_slice(), query)
    } else {
        refusal_with(alloc, sources, query.items.as_slice(), query)
    }
}

/// The first refusal of a query.
pub(crate) fn query_refusal(
    alloc: Global,
    query: &Query,
    schema: &Schema,
) -> Result<Option<Refusal>, Memory>
    ensures { IfOk result (λ refusal. refusal ≡ first (query_refusals (query_tree query.now) schema.now)) }
{
    let froms = query.froms.as_slice();
    let missing = missing_table(alloc, froms, schema)?;
    let names = from_names(alloc, froms)?;
    let twice = name_twice(alloc, names.as_slice())?;
    let sources = from_sources(alloc, froms, schema)?;
    let column = column_refusal(alloc, &sources, query)?;
    let tables = either(missing, twice);
    let refusal = either(tables, column);
    Ok(refusal)
}
