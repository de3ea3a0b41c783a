ghost use Rattle.std.specs.Prelude.{◌≡◌, ◌<◌, [], length, Some, None, IfOk, OnOk, IsErrOf};
ghost use Rattle.sql_grammar.specs.Reads.{tokens_in};
ghost use Rattle.sql_grammar.specs.Statements.{Derives};
ghost use Rattle.sql_tree.specs.Tree.{StmtTree, stmt_tree};
ghost use Rattle.read_laws.specs.Bounded.{bounded};
ghost use Rattle.read_laws.specs.DerivedStmts.{IsReadStmt, count_64, length_32};
ghost use Rattle.read_laws.specs.StmtReader as reader;

use crate::change::{delete, update};
use crate::define::{alter, create, drop_table};
use crate::query::query;
use crate::values::insert;
use sql_reader::{Cursor, TreeError};
use sql_tree::{Keyword, Placed, Stmt, Token};
use std::alloc::Global;

/// The statement that the tokens are, all of them.
///
/// A number outside the signed 64-bit range becomes a Huge, which no literal writes. A position of
/// ORDER BY, a LIMIT or a length that doesn't fit becomes the most of its type. An expression of
/// more than 64 nodes and a condition of more than 128 are cut off a little past these limits, with
/// a sign of each of these in what is left out: a column, a Huge, arithmetic over columns. The
/// limits of all these are a step of their own.
pub fn read_stmt(alloc: Global, tokens: &[Placed]) -> Result<Stmt, TreeError>
    ensures statement { IfOk result (λ s. IsReadStmt (tokens_in tokens.now) (stmt_tree s)) }
    ensures none { IsErrOf result TreeError.Syntax →
        (s : StmtTree) → Derives (tokens_in tokens.now) s → ⊥ }
{
    let mut rest = Cursor::new(tokens);
    let read = stmt(alloc, &mut rest)?;
    alone(&rest, read)
}

/// The statement, where no token is left after it.
fn alone(rest: &Cursor<'_>, read: Stmt) -> Result<Stmt, TreeError>
    ensures same { IfOk result (λ s. stmt_tree s ≡ stmt_tree read) }
    ensures found { OnOk result (tokens_in rest.now.rest.now ≡ []) }
    ensures none { IsErrOf result TreeError.Syntax → 0 < length (tokens_in rest.now.rest.now) }
{
    match rest.end() {
        Ok(()) => Ok(read),
        Err(e) => {
            // By name, since what a `?` drops in place here is more than the checker takes.
            drop(read);
            Err(e)
        }
    }
}

/// A statement.
#[tactic(auto, unfolding(read_laws::specs::StmtReader::stmt))]
fn stmt(alloc: Global, tokens: &mut Cursor<'_>) -> Result<Stmt, TreeError>
    ensures found { IfOk result (λ s. reader.stmt bounded count_64 length_32
        (tokens_in tokens.old.rest.now) ≡ Some (stmt_tree s, tokens_in tokens.new.rest.now)) }
    ensures none { IsErrOf result TreeError.Syntax →
        reader.stmt bounded count_64 length_32 (tokens_in tokens.old.rest.now) ≡ None }
{
    match tokens.next() {
        Some(Token::Key(Keyword::Create)) => create(alloc, tokens),
        Some(Token::Key(Keyword::Drop)) => drop_table(tokens),
        Some(Token::Key(Keyword::Alter)) => alter(tokens),
        Some(Token::Key(Keyword::Insert)) => insert(alloc, tokens),
        Some(Token::Key(Keyword::Delete)) => delete(alloc, tokens),
        Some(Token::Key(Keyword::Update)) => update(alloc, tokens),
        Some(Token::Key(Keyword::Select)) => Ok(Stmt::Query(query(alloc, tokens)?)),
        Some(Token::Key(Keyword::Explain)) => explain(alloc, tokens),
        _ => Err(TreeError::Syntax),
    }
}

/// What follows EXPLAIN: a query.
#[tactic(auto, unfolding(read_laws::specs::StmtReader::explain))]
fn explain(alloc: Global, tokens: &mut Cursor<'_>) -> Result<Stmt, TreeError>
    ensures found { IfOk result (λ s. reader.explain bounded count_64
        (tokens_in tokens.old.rest.now) ≡ Some (stmt_tree s, tokens_in tokens.new.rest.now)) }
    ensures none { IsErrOf result TreeError.Syntax →
        reader.explain bounded count_64 (tokens_in tokens.old.rest.now) ≡ None }
{
    tokens.key(Keyword::Select)?;
    Ok(Stmt::Explain(query(alloc, tokens)?))
}
