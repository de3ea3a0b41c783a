ghost use Rattle.std.specs.Prelude.{◌≡◌, ◌∷◌, [], List, Some, None, option_copied, IfOk, IsErrOf};
ghost use Rattle.std.specs.Option.{option_map};
ghost use Rattle.sql_grammar.specs.Reads.{tokens_in};
ghost use Rattle.sql_tree.specs.Tree.{cond_tree};
ghost use Rattle.read_laws.specs.Bounded.{bounded};
ghost use Rattle.read_laws.specs.StmtReader as reader;

use crate::part::name;
use cell_core::{Memory, Sequence, Word};
use read_laws::Joint;
use sql_reader::{Cursor, TreeError, both, is_key, whole_cond};
use sql_tree::{Cond, FromItem, Keyword, Symbol, Token};
use std::alloc::Global;

/// The tables of FROM, and the conditions of ON, joined by AND.
#[tactic(auto, unfolding(read_laws::specs::StmtReader::sources))]
pub(crate) fn sources(
    alloc: Global,
    tokens: &mut Cursor<'_>,
) -> Result<(Sequence<FromItem>, Option<Cond>), TreeError>
    ensures found { IfOk result (λ sources. reader.sources bounded
        (tokens_in tokens.old.rest.now)
        ≡ Some ((sources.0, option_map cond_tree sources.1), tokens_in tokens.new.rest.now)) }
    ensures none { IsErrOf result TreeError.Syntax →
        reader.sources bounded (tokens_in tokens.old.rest.now) ≡ None }
{
    let first = source(tokens)?;
    let mut froms = Sequence::new(alloc);
    froms.push(first)?;
    let mut cond = None;
    'joins: for turn in 0..tokens.len() {
        let Some(joint) = joint_of(tokens.peek()) else {
            return Ok((froms, cond));
        };
        tokens.advance();
        let (source, on) = joined(alloc, tokens, joint)?;
        froms.push(source)?;
        cond = also(alloc, cond, on)?;
    }
    Ok((froms, cond))
}

/// What joins the next source, where the token does.
fn joint_of(token: Option<&Token>) -> Option<Joint>
    ensures { result ≡ reader.joint_in (option_copied token.entry) }
{
    match token {
        Some(Token::Symbol(Symbol::Comma)) => Some(Joint::Comma),
        Some(Token::Key(Keyword::Inner)) => Some(Joint::Inner),
        Some(Token::Key(Keyword::Join)) => Some(Joint::Join),
        _ => None,
    }
}

/// A source after what joins it, and the condition of its ON.
#[tactic(auto, unfolding(read_laws::specs::StmtReader::joined))]
fn joined(
    alloc: Global,
    tokens: &mut Cursor<'_>,
    joint: Joint,
) -> Result<(FromItem, Option<Cond>), TreeError>
    ensures found { IfOk result (λ next. reader.joined bounded joint
        (tokens_in tokens.old.rest.now)
        ≡ Some ((next.0, option_map cond_tree next.1), tokens_in tokens.new.rest.now)) }
    ensures none { IsErrOf result TreeError.Syntax →
        reader.joined bounded joint (tokens_in tokens.old.rest.now) ≡ None }
{
    match joint {
        Joint::Comma => {
            let source = source(tokens)?;
            Ok((source, None))
        }
        Joint::Inner => {
            tokens.key(Keyword::Join)?;
            source_on(alloc, tokens)
        }
        Joint::Join => source_on(alloc, tokens),
    }
}

/// A source, ON and its condition.
#[tactic(auto, unfolding(read_laws::specs::StmtReader::source_on, read_laws::specs::StmtReader::where_cond))]
fn source_on(alloc: Global, tokens: &mut Cursor<'_>) -> Result<(FromItem, Option<Cond>), TreeError>
    ensures found { IfOk result (λ next. reader.source_on bounded
        (tokens_in tokens.old.rest.now)
        ≡ Some ((next.0, option_map cond_tree next.1), tokens_in tokens.new.rest.now)) }
    ensures none { IsErrOf result TreeError.Syntax →
        reader.source_on bounded (tokens_in tokens.old.rest.now) ≡ None }
{
    let source = source(tokens)?;
    tokens.key(Keyword::On)?;
    let cond = whole_cond(alloc, tokens, false)?;
    Ok((source, Some(cond)))
}

/// A table, with a name of its own or without.
#[tactic(auto, unfolding(read_laws::specs::StmtReader::source))]
fn source(tokens: &mut Cursor<'_>) -> Result<FromItem, TreeError>
    ensures found { IfOk result (λ source. reader.source (tokens_in tokens.old.rest.now)
        ≡ Some (source, tokens_in tokens.new.rest.now)) }
    ensures none { IsErrOf result TreeError.Syntax →
        reader.source (tokens_in tokens.old.rest.now) ≡ None }
{
    let table = name(tokens)?;
    let alias = alias(tokens)?;
    Ok(FromItem { table, alias })
}

/// The name after a table or an item, with AS or without, or none.
#[tactic(auto, unfolding(read_laws::specs::StmtReader::alias))]
pub(crate) fn alias(tokens: &mut Cursor<'_>) -> Result<Option<Word>, TreeError>
    ensures found { IfOk result (λ alias. reader.alias (tokens_in tokens.old.rest.now)
        ≡ Some (alias, tokens_in tokens.new.rest.now)) }
    ensures none { IsErrOf result TreeError.Syntax →
        reader.alias (tokens_in tokens.old.rest.now) ≡ None }
{
    if is_key(tokens.peek(), Keyword::As) {
        tokens.advance();
        return Ok(Some(name(tokens)?));
    }
    let Some(alias) = sql_reader::name(tokens.peek()) else {
        return Ok(None);
    };
    tokens.advance();
    Ok(Some(alias.share()?))
}

/// The conditions so far and one more or none, joined by AND.
pub(crate) fn also(
    alloc: Global,
    so_far: Option<Cond>,
    next: Option<Cond>,
) -> Result<Option<Cond>, Memory>
    ensures { IfOk result (λ all. option_map cond_tree all
        ≡ reader.also bounded (option_map cond_tree so_far) (option_map cond_tree next)) }
{
    match (so_far, next) {
        (so_far, None) => Ok(so_far),
        (None, Some(next)) => Ok(Some(next)),
        (Some(left), Some(right)) => Ok(Some(both(alloc, left, right)?)),
    }
}
