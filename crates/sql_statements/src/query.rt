ghost use Rattle.std.specs.Prelude.{◌≡◌, map, Some, None, IfOk, IsErrOf};
ghost use Rattle.std.specs.Option.{option_map};
ghost use Rattle.sql_grammar.specs.Grammar.{number_of};
ghost use Rattle.sql_grammar.specs.Reads.{tokens_in};
ghost use Rattle.sql_tree.specs.Tree.{cond_tree, item_tree, query_tree};
ghost use Rattle.sql_tree.specs.declared.token.Keyword.TheVariants as word;
ghost use Rattle.read_laws.specs.Bounded.{bounded};
ghost use Rattle.read_laws.specs.DerivedStmts.{count_64};
ghost use Rattle.read_laws.specs.StmtReader as reader;

use crate::change::where_cond;
use crate::from::{alias, also, sources};
use crate::part::{ListItem, column, listed_by, takes};
use cell_core::Sequence;
use sql_reader::{Cursor, TreeError, comma, digits, is_key, is_symbol, value, whole_cond};
use sql_tree::{Cond, Digits, Item, Keyword, Place, Query, SortKey, Symbol};
use std::alloc::Global;
use text_bytes::number_64;

/// What follows SELECT.
#[tactic(auto, unfolding(read_laws::specs::StmtReader::query))]
pub(crate) fn query(alloc: Global, tokens: &mut Cursor<'_>) -> Result<Query, TreeError>
    ensures found { IfOk result (λ query. reader.query bounded count_64
        (tokens_in tokens.old.rest.now) ≡ Some (query_tree query, tokens_in tokens.new.rest.now)) }
    ensures none { IsErrOf result TreeError.Syntax →
        reader.query bounded count_64 (tokens_in tokens.old.rest.now) ≡ None }
{
    let distinct = takes(tokens, Keyword::Distinct);
    let items = items(alloc, tokens)?;
    optional_from(alloc, tokens, distinct, items)
}

/// The query of its items and its FROM, or without.
#[tactic(auto, unfolding(read_laws::specs::StmtReader::optional_from))]
fn optional_from(
    alloc: Global,
    tokens: &mut Cursor<'_>,
    distinct: bool,
    items: Sequence<Item>,
) -> Result<Query, TreeError>
    ensures found { IfOk result (λ query.
        reader.optional_from bounded count_64 distinct (map item_tree items)
        (tokens_in tokens.old.rest.now) ≡ Some (query_tree query, tokens_in tokens.new.rest.now)) }
    ensures none { IsErrOf result TreeError.Syntax →
        reader.optional_from bounded count_64 distinct (map item_tree items)
        (tokens_in tokens.old.rest.now) ≡ None }
{
    if takes(tokens, Keyword::From) {
        return from(alloc, tokens, distinct, items);
    }
    Ok(Query {
        distinct,
        items,
        froms: Sequence::new(alloc),
        cond: None,
        groups: Sequence::new(alloc),
        having: None,
        keys: Sequence::new(alloc),
        limit: None,
    })
}

/// The query of what follows FROM.
#[tactic(auto, unfolding(read_laws::specs::StmtReader::from))]
fn from(
    alloc: Global,
    tokens: &mut Cursor<'_>,
    distinct: bool,
    items: Sequence<Item>,
) -> Result<Query, TreeError>
    ensures found { IfOk result (λ query.
        reader.from bounded count_64 distinct (map item_tree items)
        (tokens_in tokens.old.rest.now) ≡ Some (query_tree query, tokens_in tokens.new.rest.now)) }
    ensures none { IsErrOf result TreeError.Syntax →
        reader.from bounded count_64 distinct (map item_tree items)
        (tokens_in tokens.old.rest.now) ≡ None }
{
    let (froms, on) = sources(alloc, tokens)?;
    let cond = where_cond(alloc, tokens)?;
    let groups = listed_by(alloc, tokens, Keyword::Group)?;
    let having = having(alloc, tokens)?;
    let keys = listed_by(alloc, tokens, Keyword::Order)?;
    let limit = limit(tokens)?;
    let cond = also(alloc, on, cond)?;
    Ok(Query {
        distinct,
        items,
        froms,
        cond,
        groups,
        having,
        keys,
        limit,
    })
}

/// The items, none for `*`.
#[tactic(auto, unfolding(read_laws::specs::StmtReader::items))]
fn items(alloc: Global, tokens: &mut Cursor<'_>) -> Result<Sequence<Item>, TreeError>
    ensures found { IfOk result (λ items. reader.items bounded (tokens_in tokens.old.rest.now)
        ≡ Some (map item_tree items, tokens_in tokens.new.rest.now)) }
    ensures none { IsErrOf result TreeError.Syntax →
        reader.items bounded (tokens_in tokens.old.rest.now) ≡ None }
{
    if is_symbol(tokens.peek(), Symbol::Star) {
        tokens.advance();
        return Ok(Sequence::new(alloc));
    }
    some_items(alloc, tokens)
}

/// One item or more, with commas between them.
#[tactic(auto, unfolding(read_laws::specs::StmtReader::listed), using(read_laws::proofs::ListLemmas::map_one))]
fn some_items(alloc: Global, tokens: &mut Cursor<'_>) -> Result<Sequence<Item>, TreeError>
    ensures found { IfOk result (λ items. reader.listed (reader.item bounded)
        (tokens_in tokens.old.rest.now)
        ≡ Some (map item_tree items, tokens_in tokens.new.rest.now)) }
    ensures none { IsErrOf result TreeError.Syntax →
        reader.listed (reader.item bounded) (tokens_in tokens.old.rest.now) ≡ None }
{
    let first = item(alloc, tokens)?;
    let mut items = Sequence::new(alloc);
    items.push(first)?;
    'items: for turn in 0..tokens.len() {
        let Some(_) = comma(tokens.peek()) else {
            return Ok(items);
        };
        tokens.advance();
        let next = item(alloc, tokens)?;
        items.push(next)?;
    }
    Ok(items)
}

/// An item, with a name or without.
#[tactic(auto, unfolding(read_laws::specs::StmtReader::item))]
fn item(alloc: Global, tokens: &mut Cursor<'_>) -> Result<Item, TreeError>
    ensures found { IfOk result (λ item. reader.item bounded (tokens_in tokens.old.rest.now)
        ≡ Some (item_tree item, tokens_in tokens.new.rest.now)) }
    ensures none { IsErrOf result TreeError.Syntax →
        reader.item bounded (tokens_in tokens.old.rest.now) ≡ None }
{
    let expr = value(alloc, tokens)?;
    let alias = alias(tokens)?;
    Ok(Item { expr, alias })
}

/// The condition after HAVING, or none.
#[tactic(auto, unfolding(read_laws::specs::StmtReader::having_cond))]
fn having(alloc: Global, tokens: &mut Cursor<'_>) -> Result<Option<Cond>, TreeError>
    ensures found { IfOk result (λ cond.
        reader.optional word.Having (reader.having_cond bounded) (tokens_in tokens.old.rest.now)
        ≡ Some (option_map cond_tree cond, tokens_in tokens.new.rest.now)) }
    ensures none { IsErrOf result TreeError.Syntax →
        reader.optional word.Having (reader.having_cond bounded)
        (tokens_in tokens.old.rest.now) ≡ None }
{
    if !is_key(tokens.peek(), Keyword::Having) {
        return Ok(None);
    }
    tokens.advance();
    Ok(Some(whole_cond(alloc, tokens, true)?))
}

/// The most rows after LIMIT, or none.
#[tactic(auto, unfolding(read_laws::specs::StmtReader::counted))]
fn limit(tokens: &mut Cursor<'_>) -> Result<Option<u64>, TreeError>
    ensures found { IfOk result (λ limit. reader.optional word.Limit (reader.counted bounded count_64)
        (tokens_in tokens.old.rest.now) ≡ Some (limit, tokens_in tokens.new.rest.now)) }
    ensures none { IsErrOf result TreeError.Syntax →
        reader.optional word.Limit (reader.counted bounded count_64)
        (tokens_in tokens.old.rest.now) ≡ None }
{
    if !is_key(tokens.peek(), Keyword::Limit) {
        return Ok(None);
    }
    tokens.advance();
    let Some(digits) = digits(tokens.next()) else {
        return Err(TreeError::Syntax);
    };
    Ok(Some(count(digits)))
}

/// A key of ORDER BY.
#[tactic(auto, unfolding(read_laws::specs::StmtReader::key))]
fn sort_key(tokens: &mut Cursor<'_>) -> Result<SortKey, TreeError>
    ensures found { IfOk result (λ key. reader.key bounded count_64
        (tokens_in tokens.old.rest.now) ≡ Some (key, tokens_in tokens.new.rest.now)) }
    ensures none { IsErrOf result TreeError.Syntax →
        reader.key bounded count_64 (tokens_in tokens.old.rest.now) ≡ None }
{
    let at = place(tokens)?;
    let ascending = ascending(tokens);
    Ok(SortKey { at, ascending })
}

/// What a key sorts by: a position or a column.
#[tactic(auto, unfolding(read_laws::specs::StmtReader::place))]
fn place(tokens: &mut Cursor<'_>) -> Result<Place, TreeError>
    ensures found { IfOk result (λ place. reader.place bounded count_64
        (tokens_in tokens.old.rest.now) ≡ Some (place, tokens_in tokens.new.rest.now)) }
    ensures none { IsErrOf result TreeError.Syntax →
        reader.place bounded count_64 (tokens_in tokens.old.rest.now) ≡ None }
{
    if let Some(digits) = digits(tokens.peek()) {
        let position = count(digits);
        tokens.advance();
        return Ok(Place::Position(position));
    }
    Ok(Place::Named(column(tokens)?))
}

/// Whether low values come first, as ASC or DESC says.
#[tactic(auto, unfolding(read_laws::specs::StmtReader::ascending))]
fn ascending(tokens: &mut Cursor<'_>) -> bool
    ensures { reader.ascending (tokens_in tokens.old.rest.now)
        ≡ Some (result, tokens_in tokens.new.rest.now) }
{
    if is_key(tokens.peek(), Keyword::Desc) {
        tokens.advance();
        return false;
    }
    if is_key(tokens.peek(), Keyword::Asc) {
        tokens.advance();
    }
    true
}

/// The number that digits write, or the most of 64 bits.
fn count(digits: &Digits) -> u64
    ensures { result ≡ count_64 (number_of digits.now) }
{
    match number_64(digits.bytes()) {
        Some(number) => number,
        None => u64::MAX,
    }
}

impl ListItem for SortKey {
    ghost reader = { reader.key bounded count_64 };

    fn read(alloc: Global, tokens: &mut Cursor<'_>) -> Result<SortKey, TreeError> {
        sort_key(tokens)
    }
}
