ghost use Rattle.std.specs.Prelude.{◌≡◌, [], Some, None, IfOk, IsErrOf};
ghost use Rattle.sql_grammar.specs.Reads.{tokens_in};
ghost use Rattle.read_laws.specs.Chain.{Parser};
ghost use Rattle.read_laws.specs.StmtReader as reader;

use cell_core::{Sequence, Word};
use sql_reader::{Cursor, TreeError, comma, is_key};
use sql_tree::{ColRef, Keyword, Symbol};
use std::alloc::Global;

/// What can be listed, with a comma between two.
pub(crate) trait ListItem: Drop + Sized {
    ghost reader: { Parser Self };

    /// Reads one.
    fn read(alloc: Global, tokens: &mut Cursor<'_>) -> Result<Self, TreeError>
        ensures found { IfOk result (λ part. reader (tokens_in tokens.old.rest.now)
            ≡ Some (part, tokens_in tokens.new.rest.now)) }
        ensures none { IsErrOf result TreeError.Syntax →
            reader (tokens_in tokens.old.rest.now) ≡ None };
}

/// One part or more, with commas between them.
#[tactic(auto, unfolding(read_laws::specs::StmtReader::listed))]
pub(crate) fn listed<P: ListItem>(
    alloc: Global,
    tokens: &mut Cursor<'_>,
) -> Result<Sequence<P>, TreeError>
    ensures found { IfOk result (λ parts. reader.listed P.reader (tokens_in tokens.old.rest.now)
        ≡ Some (parts, tokens_in tokens.new.rest.now)) }
    ensures none { IsErrOf result TreeError.Syntax →
        reader.listed P.reader (tokens_in tokens.old.rest.now) ≡ None }
{
    let first = P::read(alloc, tokens)?;
    let mut parts = Sequence::new(alloc);
    parts.push(first)?;
    'parts: for turn in 0..tokens.len() {
        let Some(_) = comma(tokens.peek()) else {
            return Ok(parts);
        };
        tokens.advance();
        let next = P::read(alloc, tokens)?;
        parts.push(next)?;
    }
    Ok(parts)
}

/// One part or more in parentheses, with commas between them.
#[tactic(auto, unfolding(read_laws::specs::StmtReader::enclosed))]
pub(crate) fn enclosed<P: ListItem>(
    alloc: Global,
    tokens: &mut Cursor<'_>,
) -> Result<Sequence<P>, TreeError>
    ensures found { IfOk result (λ parts. reader.enclosed P.reader (tokens_in tokens.old.rest.now)
        ≡ Some (parts, tokens_in tokens.new.rest.now)) }
    ensures none { IsErrOf result TreeError.Syntax →
        reader.enclosed P.reader (tokens_in tokens.old.rest.now) ≡ None }
{
    tokens.symbol(Symbol::Open)?;
    let parts = listed(alloc, tokens)?;
    tokens.close()?;
    Ok(parts)
}

/// A list after a word and BY; no parts where the word doesn't come next.
#[tactic(auto, unfolding(read_laws::specs::StmtReader::listed_by))]
pub(crate) fn listed_by<P: ListItem>(
    alloc: Global,
    tokens: &mut Cursor<'_>,
    word: Keyword,
) -> Result<Sequence<P>, TreeError>
    ensures found { IfOk result (λ parts. reader.listed_by word P.reader
        (tokens_in tokens.old.rest.now) ≡ Some (parts, tokens_in tokens.new.rest.now)) }
    ensures none { IsErrOf result TreeError.Syntax →
        reader.listed_by word P.reader (tokens_in tokens.old.rest.now) ≡ None }
{
    if !is_key(tokens.peek(), word) {
        return Ok(Sequence::new(alloc));
    }
    tokens.advance();
    tokens.key(Keyword::By)?;
    listed(alloc, tokens)
}

/// Takes the word where it comes next, and returns whether it did.
pub(crate) fn takes(tokens: &mut Cursor<'_>, word: Keyword) -> bool
    ensures { reader.flag word (tokens_in tokens.old.rest.now)
        ≡ Some (result, tokens_in tokens.new.rest.now) }
{
    if is_key(tokens.peek(), word) {
        tokens.advance();
        true
    } else {
        false
    }
}

/// A name, bare or in quotes.
#[tactic(auto, unfolding(read_laws::specs::StmtReader::name))]
pub(crate) fn name(tokens: &mut Cursor<'_>) -> Result<Word, TreeError>
    ensures found { IfOk result (λ name. reader.name (tokens_in tokens.old.rest.now)
        ≡ Some (name, tokens_in tokens.new.rest.now)) }
    ensures none { IsErrOf result TreeError.Syntax →
        reader.name (tokens_in tokens.old.rest.now) ≡ None }
{
    let Some(name) = sql_reader::name(tokens.next()) else {
        return Err(TreeError::Syntax);
    };
    Ok(name.share()?)
}

/// A column: `column` or `table.column`.
#[tactic(auto, unfolding(read_laws::specs::StmtReader::column))]
pub(crate) fn column(tokens: &mut Cursor<'_>) -> Result<ColRef, TreeError>
    ensures found { IfOk result (λ column. reader.column (tokens_in tokens.old.rest.now)
        ≡ Some (column, tokens_in tokens.new.rest.now)) }
    ensures none { IsErrOf result TreeError.Syntax →
        reader.column (tokens_in tokens.old.rest.now) ≡ None }
{
    let Some(name) = sql_reader::name(tokens.next()) else {
        return Err(TreeError::Syntax);
    };
    sql_reader::column(name, tokens)
}

impl ListItem for Word {
    ghost reader = { reader.name };

    fn read(alloc: Global, tokens: &mut Cursor<'_>) -> Result<Word, TreeError> {
        name(tokens)
    }
}

impl ListItem for ColRef {
    ghost reader = { reader.column };

    fn read(alloc: Global, tokens: &mut Cursor<'_>) -> Result<ColRef, TreeError> {
        column(tokens)
    }
}
