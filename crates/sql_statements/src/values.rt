ghost use Rattle.std.specs.Prelude.{◌≡◌, Some, None, IfOk, IsErrOf};
ghost use Rattle.sql_grammar.specs.Reads.{tokens_in};
ghost use Rattle.sql_tree.specs.Tree.{stmt_tree};
ghost use Rattle.read_laws.specs.Bounded.{bounded};
ghost use Rattle.read_laws.specs.StmtReader as reader;

use crate::part::{ListItem, enclosed, listed, name};
use cell_core::{Cell, Sequence, Word};
use sql_reader::{Cursor, TreeError, day, digits, is_symbol, negative_number, plain_number, text};
use sql_tree::{Keyword, Stmt, Symbol, Token};
use std::alloc::Global;

/// What follows INSERT: INTO, a table, its columns or none, VALUES and rows.
#[tactic(auto, unfolding(read_laws::specs::StmtReader::insert))]
pub(crate) fn insert(alloc: Global, tokens: &mut Cursor<'_>) -> Result<Stmt, TreeError>
    ensures found { IfOk result (λ statement. reader.insert bounded
        (tokens_in tokens.old.rest.now) ≡ Some (stmt_tree statement, tokens_in tokens.new.rest.now)) }
    ensures none { IsErrOf result TreeError.Syntax →
        reader.insert bounded (tokens_in tokens.old.rest.now) ≡ None }
{
    tokens.key(Keyword::Into)?;
    let table = name(tokens)?;
    let columns = names(alloc, tokens)?;
    tokens.key(Keyword::Values)?;
    let rows = listed(alloc, tokens)?;
    Ok(Stmt::Insert {
        table,
        columns,
        rows,
    })
}

/// The columns in parentheses, or none.
#[tactic(auto, unfolding(read_laws::specs::StmtReader::names))]
fn names(alloc: Global, tokens: &mut Cursor<'_>) -> Result<Sequence<Word>, TreeError>
    ensures found { IfOk result (λ names. reader.names (tokens_in tokens.old.rest.now)
        ≡ Some (names, tokens_in tokens.new.rest.now)) }
    ensures none { IsErrOf result TreeError.Syntax →
        reader.names (tokens_in tokens.old.rest.now) ≡ None }
{
    if !is_symbol(tokens.peek(), Symbol::Open) {
        return Ok(Sequence::new(alloc));
    }
    enclosed(alloc, tokens)
}

/// A row: literals in parentheses.
#[tactic(auto, unfolding(read_laws::specs::StmtReader::row))]
fn row(alloc: Global, tokens: &mut Cursor<'_>) -> Result<Sequence<Cell>, TreeError>
    ensures found { IfOk result (λ row. reader.row bounded (tokens_in tokens.old.rest.now)
        ≡ Some (row, tokens_in tokens.new.rest.now)) }
    ensures none { IsErrOf result TreeError.Syntax →
        reader.row bounded (tokens_in tokens.old.rest.now) ≡ None }
{
    enclosed(alloc, tokens)
}

/// A literal: digits, digits after a `-`, a string, NULL, or DATE and a string that names a day.
#[tactic(auto, unfolding(read_laws::specs::StmtReader::literal))]
pub(crate) fn literal(tokens: &mut Cursor<'_>) -> Result<Cell, TreeError>
    ensures found { IfOk result (λ literal. reader.literal bounded
        (tokens_in tokens.old.rest.now) ≡ Some (literal, tokens_in tokens.new.rest.now)) }
    ensures none { IsErrOf result TreeError.Syntax →
        reader.literal bounded (tokens_in tokens.old.rest.now) ≡ None }
{
    match tokens.next() {
        Some(Token::Digits(digits)) => Ok(plain_number(digits.bytes())),
        Some(Token::Text(text)) => Ok(Cell::Text(text.share()?)),
        Some(Token::Key(Keyword::Null)) => Ok(Cell::Nil),
        Some(Token::Key(Keyword::Date)) => day_literal(tokens),
        Some(Token::Symbol(Symbol::Minus)) => negative_literal(tokens),
        _ => Err(TreeError::Syntax),
    }
}

/// The digits after a `-`.
#[tactic(auto, unfolding(read_laws::specs::StmtReader::negative_literal))]
fn negative_literal(tokens: &mut Cursor<'_>) -> Result<Cell, TreeError>
    ensures found { IfOk result (λ literal. reader.negative_literal bounded
        (tokens_in tokens.old.rest.now) ≡ Some (literal, tokens_in tokens.new.rest.now)) }
    ensures none { IsErrOf result TreeError.Syntax →
        reader.negative_literal bounded (tokens_in tokens.old.rest.now) ≡ None }
{
    let Some(digits) = digits(tokens.next()) else {
        return Err(TreeError::Syntax);
    };
    Ok(negative_number(digits.bytes()))
}

/// What follows DATE: a string that names a day.
#[tactic(auto, unfolding(read_laws::specs::StmtReader::day_literal))]
fn day_literal(tokens: &mut Cursor<'_>) -> Result<Cell, TreeError>
    ensures found { IfOk result (λ literal. reader.day_literal (tokens_in tokens.old.rest.now)
        ≡ Some (literal, tokens_in tokens.new.rest.now)) }
    ensures none { IsErrOf result TreeError.Syntax →
        reader.day_literal (tokens_in tokens.old.rest.now) ≡ None }
{
    let Some(text) = text(tokens.next()) else {
        return Err(TreeError::Syntax);
    };
    match day(text) {
        Some(day) => Ok(Cell::Day(day)),
        None => Err(TreeError::Syntax),
    }
}

impl ListItem for Cell {
    ghost reader = { reader.literal bounded };

    fn read(alloc: Global, tokens: &mut Cursor<'_>) -> Result<Cell, TreeError> {
        literal(tokens)
    }
}

impl ListItem for Sequence<Cell> {
    ghost reader = { reader.row bounded };

    fn read(alloc: Global, tokens: &mut Cursor<'_>) -> Result<Sequence<Cell>, TreeError> {
        row(alloc, tokens)
    }
}
