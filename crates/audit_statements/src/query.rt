//! Queries.
ghost use Rattle.std.specs.Prelude.{◌≡◌, List, map, refl, option_copied, IfOk, IsErrOf, Some, None};
ghost use Rattle.std.specs.Option.{option_map};
ghost use Rattle.sql_grammar.specs.Reads.{tokens_in};
ghost use Rattle.sql_tree.specs.Tree.{ItemTree, cond_tree, item_tree, query_tree};
ghost use Rattle.sql_tree.specs.declared.token.Keyword.TheVariants as word;
ghost use Rattle.sql_tree.specs.declared.tree.ColRef.{ColRef as ColRefSeen};
ghost use Rattle.sql_tree.specs.declared.tree.SortKey.{SortKey as SortKeySeen};
ghost use Rattle.read_laws.proofs.ListLemmas.{map_one};
ghost use Rattle.read_laws.specs.Bounded.{bounded};
ghost use Rattle.read_laws.specs.DerivedStmts.{count_64};
ghost use Rattle.read_laws.specs.StmtReader as reader;
ghost use Rattle.audit_statements.specs.Forms.{source_tree, sources_tree};
ghost use Rattle.audit_exprs.specs.Takes.{Takes, TakesAs};

use crate::forms::where_cond;
use crate::list::{ListPart, listed, listed_by};
use audit_exprs::{
    Junction, NotRead, TokenCursor, column, count, digits_of, is_symbol, is_word, join, name_of,
    value, whole_cond,
};
use cell_core::{Memory, Sequence, Word};
use read_laws::Joint;
use sql_tree::{ColRef, Cond, FromItem, Item, Keyword, Place, Query, SortKey, Symbol, Token};
use std::alloc::Global;

/// What follows SELECT.
#[tactic(auto, unfolding(read_laws::specs::StmtReader::query))]
pub(crate) fn query(alloc: Global, tokens: &mut TokenCursor<'_>) -> Result<Query, NotRead>
    ensures { TakesAs query_tree (reader.query bounded count_64)
        tokens.old.rest.now tokens.new.rest.now result }
{
    let distinct = tokens.takes(Keyword::Distinct);
    let items = items(alloc, tokens)?;
    query_of(alloc, tokens, distinct, items)
}

/// The query of its items, with what follows FROM or without.
#[tactic(auto, unfolding(read_laws::specs::StmtReader::optional_from))]
fn query_of(
    alloc: Global,
    tokens: &mut TokenCursor<'_>,
    distinct: bool,
    items: Sequence<Item>,
) -> Result<Query, NotRead>
    ensures { TakesAs query_tree (reader.optional_from bounded count_64 distinct (map item_tree items))
        tokens.old.rest.now tokens.new.rest.now result }
{
    if is_word(tokens.peek(), Keyword::From) {
        tokens.advance();
        return from(alloc, tokens, distinct, items);
    }
    Ok(Query {
        distinct,
        items,
        froms: Sequence::new(alloc),
        cond: None,
        groups: Sequence::new(alloc),
        having: None,
        keys: Sequence::new(alloc),
        limit: None,
    })
}

/// The query of what follows FROM.
#[tactic(auto, unfolding(read_laws::specs::StmtReader::from))]
fn from(
    alloc: Global,
    tokens: &mut TokenCursor<'_>,
    distinct: bool,
    items: Sequence<Item>,
) -> Result<Query, NotRead>
    ensures { TakesAs query_tree (reader.from bounded count_64 distinct (map item_tree items))
        tokens.old.rest.now tokens.new.rest.now result }
{
    let (froms, on) = sources(alloc, tokens)?;
    let cond = where_cond(alloc, tokens)?;
    let groups = listed_by(alloc, tokens, Keyword::Group)?;
    let having = having(alloc, tokens)?;
    let keys = listed_by(alloc, tokens, Keyword::Order)?;
    let limit = limit(tokens)?;
    let cond = also(alloc, on, cond)?;
    Ok(Query {
        distinct,
        items,
        froms,
        cond,
        groups,
        having,
        keys,
        limit,
    })
}

/// The items, none for `*`.
#[tactic(auto, unfolding(read_laws::specs::StmtReader::items))]
fn items(alloc: Global, tokens: &mut TokenCursor<'_>) -> Result<Sequence<Item>, NotRead>
    ensures { TakesAs (map item_tree) (reader.items bounded)
        tokens.old.rest.now tokens.new.rest.now result }
{
    if is_symbol(tokens.peek(), Symbol::Star) {
        tokens.advance();
        return Ok(Sequence::new(alloc));
    }
    listed(alloc, tokens)
}

/// An item, with a name or without.
#[tactic(auto, unfolding(read_laws::specs::StmtReader::item))]
fn item(alloc: Global, tokens: &mut TokenCursor<'_>) -> Result<Item, NotRead>
    ensures { TakesAs item_tree (reader.item bounded) tokens.old.rest.now tokens.new.rest.now result }
{
    let expr = value(alloc, tokens)?;
    let alias = alias(tokens)?;
    Ok(Item { expr, alias })
}

/// The name after a table or an item, with AS or without, or none.
#[tactic(auto, unfolding(read_laws::specs::StmtReader::alias))]
fn alias(tokens: &mut TokenCursor<'_>) -> Result<Option<Word>, NotRead>
    ensures { Takes reader.alias tokens.old.rest.now tokens.new.rest.now result }
{
    if is_word(tokens.peek(), Keyword::As) {
        tokens.advance();
        return Ok(Some(tokens.name()?));
    }
    let Some(alias) = name_of(tokens.peek()) else {
        return Ok(None);
    };
    tokens.advance();
    Ok(Some(alias.share()?))
}

/// The tables of FROM, and the conditions of ON, joined by AND.
#[tactic(auto, unfolding(read_laws::specs::StmtReader::sources))]
fn sources(
    alloc: Global,
    tokens: &mut TokenCursor<'_>,
) -> Result<(Sequence<FromItem>, Option<Cond>), NotRead>
    ensures found { IfOk result (λ sources. reader.sources bounded (tokens_in tokens.old.rest.now)
        ≡ Some (sources_tree sources, tokens_in tokens.new.rest.now)) }
    ensures none { IsErrOf result NotRead.Syntax →
        reader.sources bounded (tokens_in tokens.old.rest.now) ≡ None }
{
    let first = source(tokens)?;
    let mut froms = Sequence::new(alloc);
    froms.push(first)?;
    let mut cond = None;
    'joins: for turn in 0..tokens.len() {
        let Some(joint) = joint_of(tokens.peek()) else {
            return Ok((froms, cond));
        };
        tokens.advance();
        let (source, on) = joined(alloc, tokens, joint)?;
        froms.push(source)?;
        cond = also(alloc, cond, on)?;
    }
    Ok((froms, cond))
}

/// What joins the next source, where the token does.
fn joint_of(token: Option<&Token>) -> Option<Joint>
    ensures { result ≡ reader.joint_in (option_copied token.entry) }
{
    match token {
        Some(Token::Symbol(Symbol::Comma)) => Some(Joint::Comma),
        Some(Token::Key(Keyword::Inner)) => Some(Joint::Inner),
        Some(Token::Key(Keyword::Join)) => Some(Joint::Join),
        _ => None,
    }
}

/// A source after what joins it, and the condition of its ON.
#[tactic(auto, unfolding(read_laws::specs::StmtReader::joined))]
fn joined(
    alloc: Global,
    tokens: &mut TokenCursor<'_>,
    joint: Joint,
) -> Result<(FromItem, Option<Cond>), NotRead>
    ensures { TakesAs source_tree (reader.joined bounded joint)
        tokens.old.rest.now tokens.new.rest.now result }
{
    match joint {
        Joint::Comma => Ok((source(tokens)?, None)),
        Joint::Inner => {
            tokens.word(Keyword::Join)?;
            source_on(alloc, tokens)
        }
        Joint::Join => source_on(alloc, tokens),
    }
}

/// A source, ON and its condition.
#[tactic(auto, unfolding(read_laws::specs::StmtReader::source_on, read_laws::specs::StmtReader::where_cond))]
fn source_on(
    alloc: Global,
    tokens: &mut TokenCursor<'_>,
) -> Result<(FromItem, Option<Cond>), NotRead>
    ensures { TakesAs source_tree (reader.source_on bounded)
        tokens.old.rest.now tokens.new.rest.now result }
{
    let source = source(tokens)?;
    tokens.word(Keyword::On)?;
    let cond = whole_cond(alloc, tokens, false)?;
    Ok((source, Some(cond)))
}

/// A table, with a name of its own or without.
#[tactic(auto, unfolding(read_laws::specs::StmtReader::source))]
fn source(tokens: &mut TokenCursor<'_>) -> Result<FromItem, NotRead>
    ensures { Takes reader.source tokens.old.rest.now tokens.new.rest.now result }
{
    let table = tokens.name()?;
    let alias = alias(tokens)?;
    Ok(FromItem { table, alias })
}

/// The conditions so far and one more or none, joined by AND.
fn also(alloc: Global, so_far: Option<Cond>, next: Option<Cond>) -> Result<Option<Cond>, Memory>
    ensures { IfOk result (λ all. option_map cond_tree all
        ≡ reader.also bounded (option_map cond_tree so_far) (option_map cond_tree next)) }
{
    match (so_far, next) {
        (so_far, None) => Ok(so_far),
        (None, Some(next)) => Ok(Some(next)),
        (Some(left), Some(right)) => Ok(Some(join(alloc, Junction::And, left, right)?)),
    }
}

/// The condition after HAVING, or none.
#[tactic(auto, unfolding(read_laws::specs::StmtReader::having_cond))]
fn having(alloc: Global, tokens: &mut TokenCursor<'_>) -> Result<Option<Cond>, NotRead>
    ensures { TakesAs (option_map cond_tree) (reader.optional word.Having (reader.having_cond bounded))
        tokens.old.rest.now tokens.new.rest.now result }
{
    if !is_word(tokens.peek(), Keyword::Having) {
        return Ok(None);
    }
    tokens.advance();
    Ok(Some(whole_cond(alloc, tokens, true)?))
}

/// The most rows after LIMIT, or none.
#[tactic(auto, unfolding(read_laws::specs::StmtReader::counted))]
fn limit(tokens: &mut TokenCursor<'_>) -> Result<Option<u64>, NotRead>
    ensures { Takes (reader.optional word.Limit (reader.counted bounded count_64))
        tokens.old.rest.now tokens.new.rest.now result }
{
    if !is_word(tokens.peek(), Keyword::Limit) {
        return Ok(None);
    }
    tokens.advance();
    match digits_of(tokens.next()) {
        Some(digits) => Ok(Some(count(digits))),
        None => Err(NotRead::Syntax),
    }
}

/// A key of ORDER BY.
#[tactic(auto, unfolding(read_laws::specs::StmtReader::key))]
fn sort_key(tokens: &mut TokenCursor<'_>) -> Result<SortKey, NotRead>
    ensures { Takes (reader.key bounded count_64) tokens.old.rest.now tokens.new.rest.now result }
{
    let at = place(tokens)?;
    let ascending = ascending(tokens);
    Ok(SortKey { at, ascending })
}

/// What a key sorts by: a position or a column.
#[tactic(auto, unfolding(read_laws::specs::StmtReader::place))]
fn place(tokens: &mut TokenCursor<'_>) -> Result<Place, NotRead>
    ensures { Takes (reader.place bounded count_64) tokens.old.rest.now tokens.new.rest.now result }
{
    match digits_of(tokens.peek()) {
        Some(digits) => {
            tokens.advance();
            Ok(Place::Position(count(digits)))
        }
        None => Ok(Place::Named(column(tokens)?)),
    }
}

/// Whether low values come first, as ASC or DESC says.
#[tactic(auto, unfolding(read_laws::specs::StmtReader::ascending))]
fn ascending(tokens: &mut TokenCursor<'_>) -> bool
    ensures { reader.ascending (tokens_in tokens.old.rest.now)
        ≡ Some (result, tokens_in tokens.new.rest.now) }
{
    if is_word(tokens.peek(), Keyword::Desc) {
        tokens.advance();
        return false;
    }
    if is_word(tokens.peek(), Keyword::Asc) {
        tokens.advance();
    }
    true
}

impl ListPart for Item {
    ghost Tree = { ItemTree };

    ghost tree = { item_tree };

    ghost trees = { map item_tree };

    ghost reader = { reader.item bounded };

    fn take(alloc: Global, tokens: &mut TokenCursor<'_>) -> Result<Item, NotRead> {
        item(alloc, tokens)
    }

    ghost none = { refl };

    ghost more = { map_one item_tree };
}

impl ListPart for ColRef {
    ghost Tree = { ColRefSeen };

    ghost tree = { λ column. column };

    ghost trees = { λ columns. columns };

    ghost reader = { reader.column };

    fn take(alloc: Global, tokens: &mut TokenCursor<'_>) -> Result<ColRef, NotRead> {
        column(tokens)
    }

    ghost none = { refl };

    ghost more = { λ _ _. refl };
}

impl ListPart for SortKey {
    ghost Tree = { SortKeySeen };

    ghost tree = { λ key. key };

    ghost trees = { λ keys. keys };

    ghost reader = { reader.key bounded count_64 };

    fn take(alloc: Global, tokens: &mut TokenCursor<'_>) -> Result<SortKey, NotRead> {
        sort_key(tokens)
    }

    ghost none = { refl };

    ghost more = { λ _ _. refl };
}
