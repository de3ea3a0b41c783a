ghost use Rattle.std.specs.Prelude.{◌≡◌, ℕ, Some, None, IfOk, IsErrOf};
ghost use Rattle.sql_grammar.specs.Grammar.{number_of};
ghost use Rattle.sql_grammar.specs.Reads.{tokens_in};
ghost use Rattle.sql_grammar.specs.Statements.{length_of};
ghost use Rattle.sql_tree.specs.Tree.{stmt_tree};
ghost use Rattle.read_laws.specs.Bounded.{bounded};
ghost use Rattle.read_laws.specs.Chain.{first_token, after_first};
ghost use Rattle.read_laws.specs.DerivedStmts.{length_32};
ghost use Rattle.read_laws.specs.StmtReader as reader;

use crate::part::{ListItem, enclosed, name, takes};
use crate::values::literal;
use cell_core::{Cell, Column, Kind};
use sql_reader::{Cursor, TreeError, digits, is_key};
use sql_tree::{Digits, Keyword, Stmt, Symbol, Token};
use std::alloc::Global;
use text_bytes::number_64;

/// The width that stands for VARCHAR(0), past the most that is allowed: 0 would be no limit.
const PAST_WIDTHS: u32 = 65536;

/// What follows CREATE: TABLE, a name and column definitions.
#[tactic(auto, unfolding(read_laws::specs::StmtReader::create))]
pub(crate) fn create(alloc: Global, tokens: &mut Cursor<'_>) -> Result<Stmt, TreeError>
    ensures found { IfOk result (λ statement. reader.create length_32 bounded
        (tokens_in tokens.old.rest.now) ≡ Some (stmt_tree statement, tokens_in tokens.new.rest.now)) }
    ensures none { IsErrOf result TreeError.Syntax →
        reader.create length_32 bounded (tokens_in tokens.old.rest.now) ≡ None }
{
    tokens.key(Keyword::Table)?;
    let table = name(tokens)?;
    let columns = enclosed(alloc, tokens)?;
    Ok(Stmt::Create { table, columns })
}

/// What follows DROP: TABLE and a name.
#[tactic(auto, unfolding(read_laws::specs::StmtReader::drop_table))]
pub(crate) fn drop_table(tokens: &mut Cursor<'_>) -> Result<Stmt, TreeError>
    ensures found { IfOk result (λ statement. reader.drop_table (tokens_in tokens.old.rest.now)
        ≡ Some (stmt_tree statement, tokens_in tokens.new.rest.now)) }
    ensures none { IsErrOf result TreeError.Syntax →
        reader.drop_table (tokens_in tokens.old.rest.now) ≡ None }
{
    tokens.key(Keyword::Table)?;
    let table = name(tokens)?;
    Ok(Stmt::Drop { table })
}

/// What follows ALTER: TABLE, a name, ADD, perhaps COLUMN, and a column definition.
#[tactic(auto, unfolding(read_laws::specs::StmtReader::alter))]
pub(crate) fn alter(tokens: &mut Cursor<'_>) -> Result<Stmt, TreeError>
    ensures found { IfOk result (λ statement. reader.alter length_32 bounded
        (tokens_in tokens.old.rest.now) ≡ Some (stmt_tree statement, tokens_in tokens.new.rest.now)) }
    ensures none { IsErrOf result TreeError.Syntax →
        reader.alter length_32 bounded (tokens_in tokens.old.rest.now) ≡ None }
{
    tokens.key(Keyword::Table)?;
    let table = name(tokens)?;
    tokens.key(Keyword::Add)?;
    let _written = takes(tokens, Keyword::Column);
    let column = coldef(tokens)?;
    Ok(Stmt::Alter { table, column })
}

/// A column definition: a name, a type, and what follows the type.
#[tactic(auto, unfolding(read_laws::specs::StmtReader::coldef))]
fn coldef(tokens: &mut Cursor<'_>) -> Result<Column, TreeError>
    ensures found { IfOk result (λ column. reader.coldef length_32 bounded (tokens_in tokens.old.rest.now)
        ≡ Some (column, tokens_in tokens.new.rest.now)) }
    ensures none { IsErrOf result TreeError.Syntax →
        reader.coldef length_32 bounded (tokens_in tokens.old.rest.now) ≡ None }
{
    let name = name(tokens)?;
    let (kind, width) = column_type(tokens)?;
    let (not_null, default) = column_end(tokens)?;
    Ok(Column {
        name,
        kind,
        width,
        not_null,
        default,
    })
}

/// The kind that the words of a type name, and the most characters or 0.
fn column_type(tokens: &mut Cursor<'_>) -> Result<(Kind, u32), TreeError>
    ensures found { IfOk result (λ type. reader.type_at length_32
        (first_token (tokens_in tokens.old.rest.now)) (after_first (tokens_in tokens.old.rest.now))
        ≡ Some (type, tokens_in tokens.new.rest.now)) }
    ensures none { IsErrOf result TreeError.Syntax →
        reader.type_at length_32 (first_token (tokens_in tokens.old.rest.now))
        (after_first (tokens_in tokens.old.rest.now)) ≡ None }
{
    match tokens.next() {
        Some(Token::Key(Keyword::Int)) => Ok((Kind::Int, 0)),
        Some(Token::Key(Keyword::Integer)) => Ok((Kind::Int, 0)),
        Some(Token::Key(Keyword::Bigint)) => Ok((Kind::Int, 0)),
        Some(Token::Key(Keyword::Text)) => Ok((Kind::Text, 0)),
        Some(Token::Key(Keyword::Date)) => Ok((Kind::Day, 0)),
        Some(Token::Key(Keyword::Varchar)) => varchar(tokens),
        _ => Err(TreeError::Syntax),
    }
}

/// The length after VARCHAR, in parentheses.
#[tactic(auto, unfolding(read_laws::specs::StmtReader::varchar))]
fn varchar(tokens: &mut Cursor<'_>) -> Result<(Kind, u32), TreeError>
    ensures found { IfOk result (λ type. reader.varchar length_32 (tokens_in tokens.old.rest.now)
        ≡ Some (type, tokens_in tokens.new.rest.now)) }
    ensures none { IsErrOf result TreeError.Syntax →
        reader.varchar length_32 (tokens_in tokens.old.rest.now) ≡ None }
{
    tokens.symbol(Symbol::Open)?;
    let Some(digits) = digits(tokens.next()) else {
        return Err(TreeError::Syntax);
    };
    tokens.close()?;
    Ok((Kind::Text, width(digits)))
}

/// The width that digits write; the most of its type where they write more.
#[tactic(auto, using(read_laws::proofs::NumberLemmas::great_length, read_laws::proofs::NumberLemmas::small_length))]
fn width(digits: &Digits) -> u32
    ensures { result ≡ length_32 (length_of (number_of digits.now)) }
{
    match number_64(digits.bytes()) {
        Some(0) => PAST_WIDTHS,
        Some(length) => narrow(length),
        None => u32::MAX,
    }
}

/// The number, or the most of 32 bits.
fn narrow(number: u64) -> u32
    ensures { result ≡ length_32 number }
{
    if number <= u64::from(u32::MAX) {
        number as u32
    } else {
        u32::MAX
    }
}

/// Whether NOT NULL follows a type, and the default, which is Nil where none is written. NOT NULL
/// may come before DEFAULT and its literal or after these.
#[tactic(auto, unfolding(read_laws::specs::StmtReader::column_end))]
fn column_end(tokens: &mut Cursor<'_>) -> Result<(bool, Cell), TreeError>
    ensures found { IfOk result (λ ends. reader.column_end bounded (tokens_in tokens.old.rest.now)
        ≡ Some (ends, tokens_in tokens.new.rest.now)) }
    ensures none { IsErrOf result TreeError.Syntax →
        reader.column_end bounded (tokens_in tokens.old.rest.now) ≡ None }
{
    let required = not_null(tokens)?;
    if !is_key(tokens.peek(), Keyword::Default) {
        return Ok((required, Cell::Nil));
    }
    tokens.advance();
    let default = literal(tokens)?;
    if required {
        return Ok((true, default));
    }
    let required = not_null(tokens)?;
    Ok((required, default))
}

/// Whether an optional NOT NULL comes next.
#[tactic(auto, unfolding(read_laws::specs::StmtReader::not_null))]
fn not_null(tokens: &mut Cursor<'_>) -> Result<bool, TreeError>
    ensures found { IfOk result (λ required. reader.not_null (tokens_in tokens.old.rest.now)
        ≡ Some (required, tokens_in tokens.new.rest.now)) }
    ensures none { IsErrOf result TreeError.Syntax →
        reader.not_null (tokens_in tokens.old.rest.now) ≡ None }
{
    if !is_key(tokens.peek(), Keyword::Not) {
        return Ok(false);
    }
    tokens.advance();
    tokens.key(Keyword::Null)?;
    Ok(true)
}

impl ListItem for Column {
    ghost reader = { reader.coldef length_32 bounded };

    fn read(alloc: Global, tokens: &mut Cursor<'_>) -> Result<Column, TreeError> {
        coldef(tokens)
    }
}
