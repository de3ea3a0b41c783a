ghost use Rattle.std.specs.Prelude.{◌≡◌, ℤ, [], Some, true, false, IfOk, IsErrOf};
ghost use Rattle.sql_grammar.specs.Reads.{tokens_in};
ghost use Rattle.sql_tree.specs.Tree.{ExprTree, CondTree, expr_tree, cond_tree};
ghost use Rattle.read_laws.specs.Bounded.{bounded};
ghost use Rattle.read_laws.specs.CondReader as reader;
ghost use Rattle.read_laws.specs.DerivedExprs.{IsExpr, IsReadExpr, IsCond, IsHaving, IsReadCond};

use crate::conditions::whole_cond;
use crate::cursor::Cursor;
use crate::expressions::expr;
use cell_core::Memory;
use sql_tree::{Cond, Expr, Placed};
use std::alloc::{AllocFailed, Global};

/// Why tokens have no tree.
#[derive(Clone, Copy, Debug, PartialEq, Eq, Drop)]
pub enum TreeError {
    /// The grammar doesn't derive them.
    Syntax,
    /// Memory ran out.
    Memory,
}

impl From<Memory> for TreeError {
    ghost use Rattle.sql_reader.specs.declared.reading.TreeError.TheVariants.{Memory as ReadMemory};

    ghost from_gives = { λ _ e. e ≡ ReadMemory };

    fn from(_e: Memory) -> TreeError {
        TreeError::Memory
    }
}

impl<T: Drop> From<AllocFailed<T>> for TreeError {
    ghost use Rattle.sql_reader.specs.declared.reading.TreeError.TheVariants.{Memory as ReadMemory};

    ghost from_gives = { λ _ e. e ≡ ReadMemory };

    fn from(_e: AllocFailed<T>) -> TreeError {
        TreeError::Memory
    }
}

/// The expression that the tokens are, all of them.
///
/// A number outside the signed 64-bit range becomes a Huge, which no literal writes. An expression
/// of up to 64 nodes is kept as it is written. A larger one is cut off a little past that limit,
/// with a column and a Huge where what is left out has one and the rest hasn't. The limits of
/// literals and expressions are steps of their own.
pub fn read_expr(alloc: Global, tokens: &[Placed]) -> Result<Expr, TreeError>
    ensures expr { IfOk result (λ e. IsReadExpr (tokens_in tokens.now) (expr_tree e)) }
    ensures none { IsErrOf result TreeError.Syntax →
        (e : ExprTree) → IsExpr (tokens_in tokens.now) e → ⊥ }
{
    let mut rest = Cursor::new(tokens);
    let levels = rest.len();
    let read = expr(alloc, &mut rest, levels)?;
    rest.end()?;
    Ok(read)
}

/// The condition of WHERE or ON that the tokens are, all of them.
///
/// Its expressions are kept as those of `read_expr` are. A condition of up to 128 nodes is kept as
/// it is written. A larger one is cut off a little past that limit, with arithmetic over columns
/// and a Huge where what is left out has them and the rest hasn't. The limit of conditions is a
/// step of its own.
pub fn read_cond(alloc: Global, tokens: &[Placed]) -> Result<Cond, TreeError>
    ensures cond { IfOk result (λ c. IsReadCond (IsCond (tokens_in tokens.now)) (cond_tree c)) }
    ensures none { IsErrOf result TreeError.Syntax →
        (c : CondTree) → IsCond (tokens_in tokens.now) c → ⊥ }
{
    all_cond(alloc, tokens, false)
}

/// The condition of HAVING that the tokens are, all of them: its operands may be aggregates.
///
/// It is cut off as that of `read_cond` is.
pub fn read_having(alloc: Global, tokens: &[Placed]) -> Result<Cond, TreeError>
    ensures cond { IfOk result (λ c. IsReadCond (IsHaving (tokens_in tokens.now)) (cond_tree c)) }
    ensures none { IsErrOf result TreeError.Syntax →
        (c : CondTree) → IsHaving (tokens_in tokens.now) c → ⊥ }
{
    all_cond(alloc, tokens, true)
}

/// The condition that the tokens are, all of them.
fn all_cond(alloc: Global, tokens: &[Placed], aggregates: bool) -> Result<Cond, TreeError>
    ensures found { IfOk result (λ c. reader.whole_cond bounded (reader.operand bounded aggregates)
        (tokens_in tokens.now) ≡ Some (cond_tree c, [])) }
    ensures none { IsErrOf result TreeError.Syntax →
        (c : CondTree) → reader.whole_cond bounded (reader.operand bounded aggregates)
        (tokens_in tokens.now) ≡ Some (c, []) → ⊥ }
{
    let mut rest = Cursor::new(tokens);
    let read = whole_cond(alloc, &mut rest, aggregates)?;
    rest.ended(read)
}
