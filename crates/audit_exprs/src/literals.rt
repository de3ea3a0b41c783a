//! Literals and columns.
ghost use Rattle.std.specs.Prelude.{◌≡◌, Some, option_copied, IfOk};
ghost use Rattle.read_laws.specs.Bounded.{bounded};
ghost use Rattle.read_laws.specs.ExprReader as expressions;
ghost use Rattle.read_laws.specs.StmtReader as statements;
ghost use Rattle.audit_exprs.specs.Takes.{Takes};

use crate::cursor::{NotRead, TokenCursor, digits_of, name_of, string_of};
use crate::numbers::{day, negative_cell, plain_cell};
use cell_core::{Cell, Memory, Word};
use sql_tree::{ColRef, Keyword, Symbol, Token};

/// A literal: digits, digits after a `-`, a string, NULL, or DATE and a string that names a day.
#[tactic(auto, unfolding(read_laws::specs::StmtReader::literal))]
pub fn literal(tokens: &mut TokenCursor<'_>) -> Result<Cell, NotRead>
    ensures { Takes (statements.literal bounded) tokens.old.rest.now tokens.new.rest.now result }
{
    match tokens.next() {
        Some(Token::Digits(digits)) => Ok(plain_cell(digits)),
        Some(Token::Symbol(Symbol::Minus)) => negative_literal(tokens),
        Some(Token::Text(text)) => Ok(Cell::Text(text.share()?)),
        Some(Token::Key(Keyword::Date)) => day_literal(tokens),
        Some(Token::Key(Keyword::Null)) => Ok(Cell::Nil),
        _ => Err(NotRead::Syntax),
    }
}

/// The digits after a `-`.
#[tactic(auto, unfolding(read_laws::specs::StmtReader::negative_literal))]
fn negative_literal(tokens: &mut TokenCursor<'_>) -> Result<Cell, NotRead>
    ensures { Takes (statements.negative_literal bounded) tokens.old.rest.now tokens.new.rest.now result }
{
    match digits_of(tokens.next()) {
        Some(digits) => Ok(negative_cell(digits)),
        None => Err(NotRead::Syntax),
    }
}

/// The string after DATE, which has to name a day.
#[tactic(auto, unfolding(read_laws::specs::StmtReader::day_literal))]
fn day_literal(tokens: &mut TokenCursor<'_>) -> Result<Cell, NotRead>
    ensures { Takes statements.day_literal tokens.old.rest.now tokens.new.rest.now result }
{
    let Some(text) = string_of(tokens.next()) else {
        return Err(NotRead::Syntax);
    };
    match day(text.text()) {
        Some(day) => Ok(Cell::Day(day)),
        None => Err(NotRead::Syntax),
    }
}

/// A column: `column` or `table.column`.
#[tactic(auto, unfolding(read_laws::specs::StmtReader::column))]
pub fn column(tokens: &mut TokenCursor<'_>) -> Result<ColRef, NotRead>
    ensures { Takes statements.column tokens.old.rest.now tokens.new.rest.now result }
{
    match name_of(tokens.next()) {
        Some(name) => column_after(name, tokens),
        None => Err(NotRead::Syntax),
    }
}

/// A column whose first name was read: the second one after a `.`, where that is next.
#[tactic(auto, unfolding(read_laws::specs::ExprReader::column))]
fn column_after(first: &Word, tokens: &mut TokenCursor<'_>) -> Result<ColRef, NotRead>
    ensures { Takes (expressions.column first.now) tokens.old.rest.now tokens.new.rest.now result }
{
    if !is_dot(tokens.peek()) {
        return Ok(ColRef {
            table: None,
            column: first.share()?,
        });
    }
    tokens.advance();
    match name_of(tokens.next()) {
        Some(second) => Ok(qualified(first, second)?),
        None => Err(NotRead::Syntax),
    }
}

/// The column of a table, by both names.
fn qualified(table: &Word, column: &Word) -> Result<ColRef, Memory>
    ensures { IfOk result (λ found. found ≡ record { table = Some table.now; column = column.now }) }
{
    let table = table.share()?;
    let column = column.share()?;
    Ok(ColRef {
        table: Some(table),
        column,
    })
}

/// Whether the token is `.`.
fn is_dot(token: Option<&Token>) -> bool
    ensures { result ≡ expressions.is_dot (option_copied token.entry) }
{
    matches!(token, Some(Token::Symbol(Symbol::Dot)))
}
