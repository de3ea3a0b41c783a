ghost use Rattle.std.specs.Prelude.{◌≡◌, map, Some, None, IfOk, IsErrOf};
ghost use Rattle.std.specs.Option.{option_map};
ghost use Rattle.sql_grammar.specs.Reads.{tokens_in};
ghost use Rattle.sql_tree.specs.Tree.{cond_tree, set_tree, stmt_tree};
ghost use Rattle.sql_tree.specs.declared.token.Keyword.TheVariants as word;
ghost use Rattle.read_laws.specs.Bounded.{bounded};
ghost use Rattle.read_laws.specs.StmtReader as reader;

use crate::part::name;
use cell_core::{Sequence, Word};
use sql_reader::{Cursor, TreeError, comma, is_key, whole_cond, whole_expr};
use sql_tree::{Cond, Expr, Keyword, Stmt, Symbol};
use std::alloc::Global;

/// What follows DELETE: FROM, a table and a condition or none.
#[tactic(auto, unfolding(read_laws::specs::StmtReader::delete))]
pub(crate) fn delete(alloc: Global, tokens: &mut Cursor<'_>) -> Result<Stmt, TreeError>
    ensures found { IfOk result (λ statement. reader.delete bounded
        (tokens_in tokens.old.rest.now) ≡ Some (stmt_tree statement, tokens_in tokens.new.rest.now)) }
    ensures none { IsErrOf result TreeError.Syntax →
        reader.delete bounded (tokens_in tokens.old.rest.now) ≡ None }
{
    tokens.key(Keyword::From)?;
    let table = name(tokens)?;
    let cond = where_cond(alloc, tokens)?;
    Ok(Stmt::Delete { table, cond })
}

/// What follows UPDATE: a table, SET, what is set, and a condition or none.
#[tactic(auto, unfolding(read_laws::specs::StmtReader::update))]
pub(crate) fn update(alloc: Global, tokens: &mut Cursor<'_>) -> Result<Stmt, TreeError>
    ensures found { IfOk result (λ statement. reader.update bounded
        (tokens_in tokens.old.rest.now) ≡ Some (stmt_tree statement, tokens_in tokens.new.rest.now)) }
    ensures none { IsErrOf result TreeError.Syntax →
        reader.update bounded (tokens_in tokens.old.rest.now) ≡ None }
{
    let table = name(tokens)?;
    tokens.key(Keyword::Set)?;
    let sets = sets(alloc, tokens)?;
    let cond = where_cond(alloc, tokens)?;
    Ok(Stmt::Update { table, sets, cond })
}

/// One set or more, with commas between them.
#[tactic(auto, unfolding(read_laws::specs::StmtReader::listed), using(read_laws::proofs::ListLemmas::map_one))]
fn sets(alloc: Global, tokens: &mut Cursor<'_>) -> Result<Sequence<(Word, Expr)>, TreeError>
    ensures found { IfOk result (λ sets. reader.listed (reader.set bounded)
        (tokens_in tokens.old.rest.now) ≡ Some (map set_tree sets, tokens_in tokens.new.rest.now)) }
    ensures none { IsErrOf result TreeError.Syntax →
        reader.listed (reader.set bounded) (tokens_in tokens.old.rest.now) ≡ None }
{
    let first = set(alloc, tokens)?;
    let mut sets = Sequence::new(alloc);
    sets.push(first)?;
    'sets: for turn in 0..tokens.len() {
        let Some(_) = comma(tokens.peek()) else {
            return Ok(sets);
        };
        tokens.advance();
        let next = set(alloc, tokens)?;
        sets.push(next)?;
    }
    Ok(sets)
}

/// A column, `=` and its value.
#[tactic(auto, unfolding(read_laws::specs::StmtReader::set))]
fn set(alloc: Global, tokens: &mut Cursor<'_>) -> Result<(Word, Expr), TreeError>
    ensures found { IfOk result (λ set. reader.set bounded (tokens_in tokens.old.rest.now)
        ≡ Some (set_tree set, tokens_in tokens.new.rest.now)) }
    ensures none { IsErrOf result TreeError.Syntax →
        reader.set bounded (tokens_in tokens.old.rest.now) ≡ None }
{
    let column = name(tokens)?;
    tokens.symbol(Symbol::Equal)?;
    let value = whole_expr(alloc, tokens)?;
    Ok((column, value))
}

/// The condition after WHERE, or none.
#[tactic(auto, unfolding(read_laws::specs::StmtReader::where_cond))]
pub(crate) fn where_cond(alloc: Global, tokens: &mut Cursor<'_>) -> Result<Option<Cond>, TreeError>
    ensures found { IfOk result (λ cond. reader.optional word.Where (reader.where_cond bounded)
        (tokens_in tokens.old.rest.now)
        ≡ Some (option_map cond_tree cond, tokens_in tokens.new.rest.now)) }
    ensures none { IsErrOf result TreeError.Syntax →
        reader.optional word.Where (reader.where_cond bounded)
        (tokens_in tokens.old.rest.now) ≡ None }
{
    if !is_key(tokens.peek(), Keyword::Where) {
        return Ok(None);
    }
    tokens.advance();
    Ok(Some(whole_cond(alloc, tokens, false)?))
}
