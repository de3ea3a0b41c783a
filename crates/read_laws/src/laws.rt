ghost use Rattle.read_laws.specs.Answered.{EachReadsAsOne};
ghost use Rattle.read_laws.specs.DerivedExprs.{EachIsOneExpr, EachIsOneCond, EachIsOneHaving};
ghost use Rattle.read_laws.specs.DerivedStmts.{EachIsOneStmt};
ghost use Rattle.read_laws.specs.LimitLaws.{LimitsAsRead};
ghost use Rattle.read_laws.specs.PieceLaws.{PiecesByTokens};
ghost use Rattle.read_laws.specs.TokenLaws.{OneList};

/// A text has one list of tokens at most.
pub fn one_list()
    ensures { OneList }
{}

/// A text that can be cut into tokens says something exactly where it has any, and no `;` in it ends a
/// piece.
pub fn pieces_by_tokens()
    ensures { PiecesByTokens }
{}

/// No tokens derive two expressions.
pub fn one_expr()
    ensures { EachIsOneExpr }
{}

/// No tokens derive two conditions, of WHERE or of HAVING.
pub fn one_cond()
    ensures cond { EachIsOneCond }
    ensures having { EachIsOneHaving }
{}

/// No tokens derive two statements.
pub fn one_stmt()
    ensures { EachIsOneStmt }
{}

/// The limits of a statement that tokens derive, whatever its numbers, are those of what a reader
/// returns for it.
pub fn limits_as_read()
    ensures { LimitsAsRead }
{}

/// No text reads as two things.
pub fn one_reading()
    ensures { EachReadsAsOne }
{
    one_list();
    one_stmt();
}
