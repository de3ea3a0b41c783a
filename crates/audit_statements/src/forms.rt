//! The forms of statements.
ghost use Rattle.std.specs.Prelude.{◌≡◌, ℕ, List, map, refl, IfOk, IsErrOf};
ghost use Rattle.read_laws.proofs.ListLemmas.{map_one};
ghost use Rattle.std.specs.Option.{option_map};
ghost use Rattle.cell_core.specs.declared.cell.Cell.{Cell as CellSeen};
ghost use Rattle.cell_core.specs.declared.table.Column.{Column as ColumnSeen};
ghost use Rattle.sql_tree.specs.Tree.{ExprTree, StmtTree, cond_tree, query_tree, set_tree, stmt_tree};
ghost use Rattle.sql_tree.specs.declared.token.Keyword.TheVariants as word;
ghost use Rattle.sql_grammar.specs.Reads.{tokens_in};
ghost use Rattle.sql_grammar.specs.Statements.{Derives};
ghost use Rattle.read_laws.specs.Bounded.{bounded};
ghost use Rattle.read_laws.specs.DerivedStmts.{IsReadStmt, count_64, length_32};
ghost use Rattle.read_laws.specs.StmtReader as reader;
ghost use Rattle.audit_exprs.specs.Takes.{Takes, TakesAs};
ghost use Rattle.audit_statements.specs.Forms.{type_here};

use crate::list::{ListPart, enclosed, listed};
use crate::query::query;
use audit_exprs::{
    NotRead, TokenCursor, digits_of, is_symbol, is_word, literal, whole_cond, whole_expr, width,
};
use cell_core::{Cell, Column, Kind, Sequence, Word};
use sql_tree::{Cond, Expr, Keyword, Placed, Stmt, Symbol, Token};
use std::alloc::Global;

/// The statement that the tokens are, all of them.
///
/// A number outside the signed 64-bit range becomes a Huge, which no literal writes. A position, a
/// LIMIT or a length that doesn't fit becomes the most of its type. An expression of more than 64
/// nodes and a condition of more than 128 are cut off a little past these limits.
pub fn read_statement(alloc: Global, tokens: &[Placed]) -> Result<Stmt, NotRead>
    ensures statement { IfOk result (λ s. IsReadStmt (tokens_in tokens.now) (stmt_tree s)) }
    ensures none { IsErrOf result NotRead.Syntax →
        (s : StmtTree) → Derives (tokens_in tokens.now) s → ⊥ }
{
    let mut cursor = TokenCursor { rest: tokens };
    let read = statement(alloc, &mut cursor)?;
    match cursor.peek() {
        None => Ok(read),
        Some(_) => {
            drop(read);
            Err(NotRead::Syntax)
        }
    }
}

/// A statement. On an error, the cursor may have passed some of its tokens.
#[tactic(auto, unfolding(read_laws::specs::StmtReader::stmt))]
pub(crate) fn statement(alloc: Global, tokens: &mut TokenCursor<'_>) -> Result<Stmt, NotRead>
    ensures { TakesAs stmt_tree (reader.stmt bounded count_64 length_32)
        tokens.old.rest.now tokens.new.rest.now result }
{
    match tokens.next() {
        Some(Token::Key(Keyword::Select)) => Ok(Stmt::Query(query(alloc, tokens)?)),
        Some(Token::Key(Keyword::Insert)) => insert(alloc, tokens),
        Some(Token::Key(Keyword::Update)) => update(alloc, tokens),
        Some(Token::Key(Keyword::Delete)) => delete(alloc, tokens),
        Some(Token::Key(Keyword::Create)) => create(alloc, tokens),
        Some(Token::Key(Keyword::Drop)) => drop_table(tokens),
        Some(Token::Key(Keyword::Alter)) => alter(tokens),
        Some(Token::Key(Keyword::Explain)) => explain(alloc, tokens),
        _ => Err(NotRead::Syntax),
    }
}

/// What follows EXPLAIN: a query.
#[tactic(auto, unfolding(read_laws::specs::StmtReader::explain))]
fn explain(alloc: Global, tokens: &mut TokenCursor<'_>) -> Result<Stmt, NotRead>
    ensures { TakesAs stmt_tree (reader.explain bounded count_64)
        tokens.old.rest.now tokens.new.rest.now result }
{
    tokens.word(Keyword::Select)?;
    Ok(Stmt::Explain(query(alloc, tokens)?))
}

/// What follows CREATE: TABLE, a name and column definitions.
#[tactic(auto, unfolding(read_laws::specs::StmtReader::create))]
fn create(alloc: Global, tokens: &mut TokenCursor<'_>) -> Result<Stmt, NotRead>
    ensures { TakesAs stmt_tree (reader.create length_32 bounded)
        tokens.old.rest.now tokens.new.rest.now result }
{
    tokens.word(Keyword::Table)?;
    let table = tokens.name()?;
    let columns = enclosed(alloc, tokens)?;
    Ok(Stmt::Create { table, columns })
}

/// What follows DROP: TABLE and a name.
#[tactic(auto, unfolding(read_laws::specs::StmtReader::drop_table))]
fn drop_table(tokens: &mut TokenCursor<'_>) -> Result<Stmt, NotRead>
    ensures { TakesAs stmt_tree reader.drop_table tokens.old.rest.now tokens.new.rest.now result }
{
    tokens.word(Keyword::Table)?;
    let table = tokens.name()?;
    Ok(Stmt::Drop { table })
}

/// What follows ALTER: TABLE, a name, ADD, perhaps COLUMN, and a column definition.
#[tactic(auto, unfolding(read_laws::specs::StmtReader::alter))]
fn alter(tokens: &mut TokenCursor<'_>) -> Result<Stmt, NotRead>
    ensures { TakesAs stmt_tree (reader.alter length_32 bounded)
        tokens.old.rest.now tokens.new.rest.now result }
{
    tokens.word(Keyword::Table)?;
    let table = tokens.name()?;
    tokens.word(Keyword::Add)?;
    let _is_written = tokens.takes(Keyword::Column);
    let column = coldef(tokens)?;
    Ok(Stmt::Alter { table, column })
}

/// What follows INSERT: INTO, a table, its columns or none, VALUES and rows.
#[tactic(auto, unfolding(read_laws::specs::StmtReader::insert))]
fn insert(alloc: Global, tokens: &mut TokenCursor<'_>) -> Result<Stmt, NotRead>
    ensures { TakesAs stmt_tree (reader.insert bounded) tokens.old.rest.now tokens.new.rest.now result }
{
    tokens.word(Keyword::Into)?;
    let table = tokens.name()?;
    let columns = names(alloc, tokens)?;
    tokens.word(Keyword::Values)?;
    let rows = listed(alloc, tokens)?;
    Ok(Stmt::Insert {
        table,
        columns,
        rows,
    })
}

/// The columns in parentheses, or none.
#[tactic(auto, unfolding(read_laws::specs::StmtReader::names))]
fn names(alloc: Global, tokens: &mut TokenCursor<'_>) -> Result<Sequence<Word>, NotRead>
    ensures { Takes reader.names tokens.old.rest.now tokens.new.rest.now result }
{
    if is_symbol(tokens.peek(), Symbol::Open) {
        return enclosed(alloc, tokens);
    }
    Ok(Sequence::new(alloc))
}

/// What follows DELETE: FROM, a table and a condition or none.
#[tactic(auto, unfolding(read_laws::specs::StmtReader::delete))]
fn delete(alloc: Global, tokens: &mut TokenCursor<'_>) -> Result<Stmt, NotRead>
    ensures { TakesAs stmt_tree (reader.delete bounded) tokens.old.rest.now tokens.new.rest.now result }
{
    tokens.word(Keyword::From)?;
    let table = tokens.name()?;
    let cond = where_cond(alloc, tokens)?;
    Ok(Stmt::Delete { table, cond })
}

/// What follows UPDATE: a table, SET, what is set, and a condition or none.
#[tactic(auto, unfolding(read_laws::specs::StmtReader::update))]
fn update(alloc: Global, tokens: &mut TokenCursor<'_>) -> Result<Stmt, NotRead>
    ensures { TakesAs stmt_tree (reader.update bounded) tokens.old.rest.now tokens.new.rest.now result }
{
    let table = tokens.name()?;
    tokens.word(Keyword::Set)?;
    let sets = listed(alloc, tokens)?;
    let cond = where_cond(alloc, tokens)?;
    Ok(Stmt::Update { table, sets, cond })
}

/// The condition after WHERE, or none.
#[tactic(auto, unfolding(read_laws::specs::StmtReader::where_cond))]
pub(crate) fn where_cond(
    alloc: Global,
    tokens: &mut TokenCursor<'_>,
) -> Result<Option<Cond>, NotRead>
    ensures { TakesAs (option_map cond_tree) (reader.optional word.Where (reader.where_cond bounded))
        tokens.old.rest.now tokens.new.rest.now result }
{
    if !is_word(tokens.peek(), Keyword::Where) {
        return Ok(None);
    }
    tokens.advance();
    Ok(Some(whole_cond(alloc, tokens, false)?))
}

/// A column, `=` and its value.
#[tactic(auto, unfolding(read_laws::specs::StmtReader::set))]
fn set(alloc: Global, tokens: &mut TokenCursor<'_>) -> Result<(Word, Expr), NotRead>
    ensures { TakesAs set_tree (reader.set bounded) tokens.old.rest.now tokens.new.rest.now result }
{
    let column = tokens.name()?;
    tokens.symbol(Symbol::Equal)?;
    let value = whole_expr(alloc, tokens)?;
    Ok((column, value))
}

/// A row: literals in parentheses.
#[tactic(auto, unfolding(read_laws::specs::StmtReader::row))]
fn row(alloc: Global, tokens: &mut TokenCursor<'_>) -> Result<Sequence<Cell>, NotRead>
    ensures { Takes (reader.row bounded) tokens.old.rest.now tokens.new.rest.now result }
{
    enclosed(alloc, tokens)
}

/// A column definition: a name, a type, and what follows the type.
#[tactic(auto, unfolding(read_laws::specs::StmtReader::coldef))]
fn coldef(tokens: &mut TokenCursor<'_>) -> Result<Column, NotRead>
    ensures { Takes (reader.coldef length_32 bounded) tokens.old.rest.now tokens.new.rest.now result }
{
    let name = tokens.name()?;
    let (kind, width) = column_type(tokens)?;
    let (not_null, default) = column_end(tokens)?;
    Ok(Column {
        name,
        kind,
        width,
        not_null,
        default,
    })
}

/// The kind that a type names, and the most characters or 0.
fn column_type(tokens: &mut TokenCursor<'_>) -> Result<(Kind, u32), NotRead>
    ensures { Takes type_here tokens.old.rest.now tokens.new.rest.now result }
{
    match tokens.next() {
        Some(Token::Key(Keyword::Int | Keyword::Integer | Keyword::Bigint)) => Ok((Kind::Int, 0)),
        Some(Token::Key(Keyword::Text)) => Ok((Kind::Text, 0)),
        Some(Token::Key(Keyword::Date)) => Ok((Kind::Day, 0)),
        Some(Token::Key(Keyword::Varchar)) => varchar(tokens),
        _ => Err(NotRead::Syntax),
    }
}

/// The length after VARCHAR, in parentheses.
#[tactic(auto, unfolding(read_laws::specs::StmtReader::varchar))]
fn varchar(tokens: &mut TokenCursor<'_>) -> Result<(Kind, u32), NotRead>
    ensures { Takes (reader.varchar length_32) tokens.old.rest.now tokens.new.rest.now result }
{
    tokens.symbol(Symbol::Open)?;
    let Some(digits) = digits_of(tokens.next()) else {
        return Err(NotRead::Syntax);
    };
    tokens.close()?;
    Ok((Kind::Text, width(digits)))
}

/// Whether NOT NULL follows a type, and the default, which is Nil where none is written. NOT NULL
/// may come before DEFAULT and its literal or after these.
#[tactic(auto, unfolding(read_laws::specs::StmtReader::column_end))]
fn column_end(tokens: &mut TokenCursor<'_>) -> Result<(bool, Cell), NotRead>
    ensures { Takes (reader.column_end bounded) tokens.old.rest.now tokens.new.rest.now result }
{
    let required = not_null(tokens)?;
    if !is_word(tokens.peek(), Keyword::Default) {
        return Ok((required, Cell::Nil));
    }
    tokens.advance();
    let default = literal(tokens)?;
    if required {
        return Ok((true, default));
    }
    let required = not_null(tokens)?;
    Ok((required, default))
}

/// Whether an optional NOT NULL is next.
#[tactic(auto, unfolding(read_laws::specs::StmtReader::not_null))]
fn not_null(tokens: &mut TokenCursor<'_>) -> Result<bool, NotRead>
    ensures { Takes reader.not_null tokens.old.rest.now tokens.new.rest.now result }
{
    if !is_word(tokens.peek(), Keyword::Not) {
        return Ok(false);
    }
    tokens.advance();
    tokens.word(Keyword::Null)?;
    Ok(true)
}

impl ListPart for Word {
    ghost Tree = { List ℕ };

    ghost tree = { λ name. name };

    ghost trees = { λ names. names };

    ghost reader = { reader.name };

    fn take(alloc: Global, tokens: &mut TokenCursor<'_>) -> Result<Word, NotRead> {
        tokens.name()
    }

    ghost none = { refl };

    ghost more = { λ _ _. refl };
}

impl ListPart for Column {
    ghost Tree = { ColumnSeen };

    ghost tree = { λ column. column };

    ghost trees = { λ columns. columns };

    ghost reader = { reader.coldef length_32 bounded };

    fn take(alloc: Global, tokens: &mut TokenCursor<'_>) -> Result<Column, NotRead> {
        coldef(tokens)
    }

    ghost none = { refl };

    ghost more = { λ _ _. refl };
}

impl ListPart for Cell {
    ghost Tree = { CellSeen };

    ghost tree = { λ cell. cell };

    ghost trees = { λ cells. cells };

    ghost reader = { reader.literal bounded };

    fn take(alloc: Global, tokens: &mut TokenCursor<'_>) -> Result<Cell, NotRead> {
        literal(tokens)
    }

    ghost none = { refl };

    ghost more = { λ _ _. refl };
}

impl ListPart for Sequence<Cell> {
    ghost Tree = { List CellSeen };

    ghost tree = { λ row. row };

    ghost trees = { λ rows. rows };

    ghost reader = { reader.row bounded };

    fn take(alloc: Global, tokens: &mut TokenCursor<'_>) -> Result<Sequence<Cell>, NotRead> {
        row(alloc, tokens)
    }

    ghost none = { refl };

    ghost more = { λ _ _. refl };
}

impl ListPart for (Word, Expr) {
    ghost Tree = { List ℕ × ExprTree };

    ghost tree = { set_tree };

    ghost trees = { map set_tree };

    ghost reader = { reader.set bounded };

    fn take(alloc: Global, tokens: &mut TokenCursor<'_>) -> Result<(Word, Expr), NotRead> {
        set(alloc, tokens)
    }

    ghost none = { refl };

    ghost more = { map_one set_tree };
}
