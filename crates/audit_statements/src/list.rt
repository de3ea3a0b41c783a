//! Lists with a comma between two parts.
ghost use Rattle.std.specs.Prelude.{◌≡◌, List, [], ◌∷◌, ◌++◌, IfOk, IsErrOf, Some, None};
ghost use Rattle.sql_grammar.specs.Reads.{tokens_in};
ghost use Rattle.read_laws.specs.Chain.{Parser};
ghost use Rattle.read_laws.specs.StmtReader as reader;
ghost use Rattle.audit_exprs.specs.Takes.{TakesAs};

use audit_exprs::{NotRead, TokenCursor, comma, is_word};
use cell_core::Sequence;
use sql_tree::{Keyword, Symbol};
use std::alloc::Global;

/// What can be listed, with a comma between two.
pub(crate) trait ListPart: Drop + Sized {
    // What a part is seen as.
    ghost Tree: { Type 0 };

    ghost tree: { Self → Tree };

    // What parts in a list are seen as.
    ghost trees: { List Self → List Tree };

    ghost reader: { Parser Tree };

    /// Takes one part.
    fn take(alloc: Global, tokens: &mut TokenCursor<'_>) -> Result<Self, NotRead>
        ensures { TakesAs tree reader tokens.old.rest.now tokens.new.rest.now result };

    ghost none: { trees [] ≡ [] };

    ghost more: { (xs : List Self) (x : Self) → trees (xs ++ x ∷ []) ≡ trees xs ++ tree x ∷ [] };
}

/// One part or more, with commas between them.
#[tactic(auto, unfolding(read_laws::specs::StmtReader::listed))]
pub(crate) fn listed<P: ListPart>(
    alloc: Global,
    tokens: &mut TokenCursor<'_>,
) -> Result<Sequence<P>, NotRead>
    ensures found { IfOk result (λ parts. reader.listed P.reader (tokens_in tokens.old.rest.now)
        ≡ Some (P.trees parts, tokens_in tokens.new.rest.now)) }
    ensures none { IsErrOf result NotRead.Syntax →
        reader.listed P.reader (tokens_in tokens.old.rest.now) ≡ None }
{
    let first = P::take(alloc, tokens)?;
    let mut parts = Sequence::new(alloc);
    parts.push(first)?;
    'parts: for turn in 0..tokens.len() {
        let Some(_) = comma(tokens.peek()) else {
            return Ok(parts);
        };
        tokens.advance();
        let next = P::take(alloc, tokens)?;
        parts.push(next)?;
    }
    Ok(parts)
}

/// One part or more in parentheses, with commas between them.
#[tactic(auto, unfolding(read_laws::specs::StmtReader::enclosed))]
pub(crate) fn enclosed<P: ListPart>(
    alloc: Global,
    tokens: &mut TokenCursor<'_>,
) -> Result<Sequence<P>, NotRead>
    ensures { TakesAs P.trees (reader.enclosed P.reader) tokens.old.rest.now tokens.new.rest.now result }
{
    tokens.symbol(Symbol::Open)?;
    let parts = listed(alloc, tokens)?;
    tokens.close()?;
    Ok(parts)
}

/// A list after a word and BY; no parts where the word is not next.
#[tactic(auto, unfolding(read_laws::specs::StmtReader::listed_by))]
pub(crate) fn listed_by<P: ListPart>(
    alloc: Global,
    tokens: &mut TokenCursor<'_>,
    word: Keyword,
) -> Result<Sequence<P>, NotRead>
    ensures { TakesAs P.trees (reader.listed_by word P.reader) tokens.old.rest.now tokens.new.rest.now result }
{
    if !is_word(tokens.peek(), word) {
        return Ok(Sequence::new(alloc));
    }
    tokens.advance();
    tokens.word(Keyword::By)?;
    listed(alloc, tokens)
}
