ghost use Rattle.std.specs.Prelude.{◌≡◌, codes, Some, None, IfOk, OnOk, IsErrOf};
ghost use Rattle.mal_text.specs.Reader as reader;

use crate::block::{Block, Line, OrderKey, Term};
use crate::cursor::{MalCursor, is_mark, is_word};
use crate::error::BlockError;
use crate::terms::{Repeatable, repeated, term, terms};
use cell_core::{Sequence, Word};
use mal_tokens::Mark;
use std::alloc::Global;

/// A block, which all the tokens are.
#[tactic(auto, unfolding(crate::specs::Reader::block))]
pub(crate) fn block(alloc: Global, tokens: &mut MalCursor<'_>) -> Result<Block, BlockError>
    ensures found { IfOk result (λ block. reader.block tokens.old.rest.now ≡ Some (block, tokens.new.rest.now)) }
    ensures none { IsErrOf result BlockError.NoBlock → reader.block tokens.old.rest.now ≡ None }
{
    let name = header(tokens)?;
    let lines = lines(alloc, tokens)?;
    let keep = keep(tokens)?;
    let order = keys(alloc, tokens)?;
    let limit = limit(tokens)?;
    let output = output(alloc, tokens)?;
    ending(&name, tokens)?;
    Ok(Block {
        name,
        lines,
        keep,
        order,
        limit,
        output,
    })
}

/// `function user.NAME():void;`
#[tactic(auto, unfolding(crate::specs::Reader::header))]
fn header(tokens: &mut MalCursor<'_>) -> Result<Word, BlockError>
    ensures found { IfOk result (λ name. reader.header tokens.old.rest.now ≡ Some (name, tokens.new.rest.now)) }
    ensures none { IsErrOf result BlockError.NoBlock → reader.header tokens.old.rest.now ≡ None }
{
    let name = named("function", tokens)?;
    void(tokens)?;
    Ok(name)
}

/// A word, `user.` and a name.
#[tactic(auto, unfolding(crate::specs::Reader::named))]
fn named(word: &str, tokens: &mut MalCursor<'_>) -> Result<Word, BlockError>
    ensures found { IfOk result (λ name. reader.named word.now tokens.old.rest.now ≡ Some (name, tokens.new.rest.now)) }
    ensures none { IsErrOf result BlockError.NoBlock → reader.named word.now tokens.old.rest.now ≡ None }
{
    tokens.word(word)?;
    tokens.word("user")?;
    tokens.mark(Mark::Dot)?;
    tokens.name()
}

/// `():void;`
#[tactic(auto, unfolding(crate::specs::Reader::void))]
fn void(tokens: &mut MalCursor<'_>) -> Result<(), BlockError>
    ensures found { OnOk result (reader.void tokens.old.rest.now ≡ Some tokens.new.rest.now) }
    ensures none { IsErrOf result BlockError.NoBlock → reader.void tokens.old.rest.now ≡ None }
{
    tokens.mark(Mark::Open)?;
    tokens.mark(Mark::Close)?;
    tokens.mark(Mark::Colon)?;
    tokens.word("void")?;
    tokens.mark(Mark::Semicolon)
}

/// `end user.NAME;` of this name, with nothing after it.
#[tactic(auto, unfolding(crate::specs::Reader::ending))]
fn ending(name: &Word, tokens: &mut MalCursor<'_>) -> Result<(), BlockError>
    ensures found { OnOk result (reader.ending name.now tokens.old.rest.now ≡ Some tokens.new.rest.now) }
    ensures none { IsErrOf result BlockError.NoBlock → reader.ending name.now tokens.old.rest.now ≡ None }
{
    let found = named("end", tokens)?;
    if found.text() != name.text() {
        return Err(BlockError::NoBlock);
    }
    tokens.mark(Mark::Semicolon)?;
    tokens.end()
}

/// The instructions.
#[tactic(auto, unfolding(crate::specs::Reader::lines))]
fn lines(alloc: Global, tokens: &mut MalCursor<'_>) -> Result<Sequence<Line>, BlockError>
    ensures found { IfOk result (λ lines. reader.lines tokens.old.rest.now ≡ Some (lines, tokens.new.rest.now)) }
    ensures none { IsErrOf result BlockError.NoBlock → reader.lines tokens.old.rest.now ≡ None }
{
    repeated(alloc, tokens, Sequence::new(alloc))
}

/// The keys of the order.
#[tactic(auto, unfolding(crate::specs::Reader::keys))]
fn keys(alloc: Global, tokens: &mut MalCursor<'_>) -> Result<Sequence<OrderKey>, BlockError>
    ensures found { IfOk result (λ keys. reader.keys tokens.old.rest.now ≡ Some (keys, tokens.new.rest.now)) }
    ensures none { IsErrOf result BlockError.NoBlock → reader.keys tokens.old.rest.now ≡ None }
{
    repeated(alloc, tokens, Sequence::new(alloc))
}

/// An instruction: `VAR := module.function(arguments);`
impl Repeatable for Line {
    ghost goes = { reader.goes_line };

    ghost reader = { reader.line };

    fn goes(tokens: &MalCursor<'_>) -> bool {
        is_mark(tokens.ahead(1), Mark::Assign)
    }

    #[tactic(auto, unfolding(crate::specs::Reader::line))]
    fn read(alloc: Global, tokens: &mut MalCursor<'_>) -> Result<Line, BlockError> {
        let name = tokens.name()?;
        tokens.mark(Mark::Assign)?;
        let (of_module, function) = path(tokens)?;
        let args = terms(alloc, tokens)?;
        tokens.closing()?;
        Ok(Line {
            name,
            of_module,
            function,
            args,
        })
    }
}

/// `module.function(`
#[tactic(auto, unfolding(crate::specs::Reader::path))]
fn path(tokens: &mut MalCursor<'_>) -> Result<(Word, Word), BlockError>
    ensures found { IfOk result (λ path. reader.path tokens.old.rest.now ≡ Some (path, tokens.new.rest.now)) }
    ensures none { IsErrOf result BlockError.NoBlock → reader.path tokens.old.rest.now ≡ None }
{
    let of_module = tokens.name()?;
    tokens.mark(Mark::Dot)?;
    let function = tokens.name()?;
    tokens.mark(Mark::Open)?;
    Ok((of_module, function))
}

/// A key of the order: `sql.order(place, bit);`
impl Repeatable for OrderKey {
    ghost goes = { reader.goes_call (codes "order") };

    ghost reader = { reader.key };

    fn goes(tokens: &MalCursor<'_>) -> bool {
        goes_call("order", tokens)
    }

    #[tactic(auto, unfolding(crate::specs::Reader::key))]
    fn read(_alloc: Global, tokens: &mut MalCursor<'_>) -> Result<OrderKey, BlockError> {
        opening("order", tokens)?;
        let place = tokens.digits()?;
        tokens.mark(Mark::Comma)?;
        let ascending = bit(tokens)?;
        tokens.closing()?;
        Ok(OrderKey { place, ascending })
    }
}

/// `true` or `false`
#[tactic(auto, unfolding(crate::specs::Reader::bit))]
fn bit(tokens: &mut MalCursor<'_>) -> Result<bool, BlockError>
    ensures found { IfOk result (λ found. reader.bit tokens.old.rest.now ≡ Some (found, tokens.new.rest.now)) }
    ensures none { IsErrOf result BlockError.NoBlock → reader.bit tokens.old.rest.now ≡ None }
{
    let word = tokens.name()?;
    match bit_named(word.text()) {
        Some(found) => Ok(found),
        None => Err(BlockError::NoBlock),
    }
}

/// The bit that a word is.
pub(crate) fn bit_named(word: &str) -> Option<bool>
    ensures { result ≡ reader.bit_named word.now }
{
    if word == "true" {
        Some(true)
    } else if word == "false" {
        Some(false)
    } else {
        None
    }
}

/// Whether the call that comes next, if any, is that of this name of `sql`.
fn goes_call(name: &str, tokens: &MalCursor<'_>) -> bool
    ensures { result ≡ reader.goes_call name.now tokens.now.rest.now }
{
    is_word(tokens.ahead(2), name)
}

/// `sql.NAME(`
#[tactic(auto, unfolding(crate::specs::Reader::opening))]
fn opening(name: &str, tokens: &mut MalCursor<'_>) -> Result<(), BlockError>
    ensures found { OnOk result (reader.opening name.now tokens.old.rest.now ≡ Some tokens.new.rest.now) }
    ensures none { IsErrOf result BlockError.NoBlock → reader.opening name.now tokens.old.rest.now ≡ None }
{
    tokens.word("sql")?;
    tokens.mark(Mark::Dot)?;
    tokens.word(name)?;
    tokens.mark(Mark::Open)
}

/// The argument of `sql.keep`, where it comes next.
#[tactic(auto, unfolding(crate::specs::Reader::optional))]
fn keep(tokens: &mut MalCursor<'_>) -> Result<Option<Term>, BlockError>
    ensures found { IfOk result (λ found. reader.optional (codes "keep") reader.term_of tokens.old.rest.now ≡ Some (found, tokens.new.rest.now)) }
    ensures none { IsErrOf result BlockError.NoBlock → reader.optional (codes "keep") reader.term_of tokens.old.rest.now ≡ None }
{
    if !goes_call("keep", tokens) {
        return Ok(None);
    }
    opening("keep", tokens)?;
    let found = term(tokens)?;
    tokens.closing()?;
    Ok(Some(found))
}

/// The digits of `sql.limit`, where it comes next.
#[tactic(auto, unfolding(crate::specs::Reader::optional))]
fn limit(tokens: &mut MalCursor<'_>) -> Result<Option<Word>, BlockError>
    ensures found { IfOk result (λ found. reader.optional (codes "limit") reader.digits tokens.old.rest.now ≡ Some (found, tokens.new.rest.now)) }
    ensures none { IsErrOf result BlockError.NoBlock → reader.optional (codes "limit") reader.digits tokens.old.rest.now ≡ None }
{
    if !goes_call("limit", tokens) {
        return Ok(None);
    }
    opening("limit", tokens)?;
    let found = tokens.digits()?;
    tokens.closing()?;
    Ok(Some(found))
}

/// The arguments of `sql.output`, where it comes next.
#[tactic(auto, unfolding(crate::specs::Reader::optional))]
fn output(alloc: Global, tokens: &mut MalCursor<'_>) -> Result<Option<Sequence<Term>>, BlockError>
    ensures found { IfOk result (λ found. reader.optional (codes "output") reader.terms tokens.old.rest.now ≡ Some (found, tokens.new.rest.now)) }
    ensures none { IsErrOf result BlockError.NoBlock → reader.optional (codes "output") reader.terms tokens.old.rest.now ≡ None }
{
    if !goes_call("output", tokens) {
        return Ok(None);
    }
    opening("output", tokens)?;
    let found = terms(alloc, tokens)?;
    tokens.closing()?;
    Ok(Some(found))
}
