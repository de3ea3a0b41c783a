//! Which conditions are column conditions: of one column, with constants.
ghost use Rattle.std.specs.Prelude.{◌≡◌, ◌&&◌, ◌==◌, if◌then◌else◌, Some, None};
ghost use Rattle.std.specs.Option.{option_map};
ghost use Rattle.sql_tree.specs.Tree.{expr_tree, cond_tree};
ghost use Rattle.rows_to_mal.specs.Lent.{leaf_of, placed_leaf};
ghost use Rattle.rows_to_mal.specs.Reading.{both, column_of, is_known as is_known_tree, left_leaf, right_leaf, read_compare, read_leaf, read_test, read_cond};

use crate::tables::Tables;
use cell_core::Cell;
use sql_tree::{CmpOp, Cond, Expr};

/// A range of a column.
#[derive(Clone, Copy)]
pub(crate) enum ColumnRange<'a> {
    /// From a constant on, which is included or not.
    Least(&'a Expr, bool),
    /// Up to a constant, which is included or not.
    Most(&'a Expr, bool),
    /// The cells that equal a constant.
    Same(&'a Expr),
    /// From one constant up to another, both included.
    Between(&'a Expr, &'a Expr),
}

/// Whether an expression has no column, no aggregate and no NULL.
fn is_known(expr: &Expr) -> bool
    ensures { result ≡ is_known_tree (expr_tree expr.now) }
{
    match expr {
        Expr::Lit(Cell::Nil) => false,
        Expr::Lit(_) => true,
        Expr::Arith { left, right, .. } => is_known(left) && is_known(right),
        Expr::Col(_) => false,
        Expr::Agg { of: None, .. } => false,
        Expr::Agg { of: Some(_), .. } => false,
    }
}

/// The range of a column on the left of a constant.
fn left_range(op: CmpOp, of: &Expr) -> Option<ColumnRange<'_>>
    ensures { option_map leaf_of result ≡ left_leaf op (expr_tree of.now) }
{
    match op {
        CmpOp::Eq => Some(ColumnRange::Same(of)),
        CmpOp::Ne => None,
        CmpOp::Lt => Some(ColumnRange::Most(of, false)),
        CmpOp::Le => Some(ColumnRange::Most(of, true)),
        CmpOp::Gt => Some(ColumnRange::Least(of, false)),
        CmpOp::Ge => Some(ColumnRange::Least(of, true)),
    }
}

/// The range of a column on the right of a constant.
fn right_range(op: CmpOp, of: &Expr) -> Option<ColumnRange<'_>>
    ensures { option_map leaf_of result ≡ right_leaf op (expr_tree of.now) }
{
    match op {
        CmpOp::Eq => Some(ColumnRange::Same(of)),
        CmpOp::Ne => None,
        CmpOp::Lt => Some(ColumnRange::Least(of, false)),
        CmpOp::Le => Some(ColumnRange::Least(of, true)),
        CmpOp::Gt => Some(ColumnRange::Most(of, false)),
        CmpOp::Ge => Some(ColumnRange::Most(of, true)),
    }
}

impl<'a> Tables<'a> {
    /// The place of an expression that is a column.
    pub(crate) fn column_at(&self, expr: &Expr) -> Option<(usize, usize)>
        ensures { result ≡ column_of self.now.called (expr_tree expr.now) }
    {
        match expr {
            Expr::Col(column) => self.place(column),
            Expr::Lit(_) | Expr::Arith { .. } => None,
            Expr::Agg { of: None, .. } => None,
            Expr::Agg { of: Some(_), .. } => None,
        }
    }

    /// The column and the range of a comparison of a column with a constant.
    pub(crate) fn compared<'e>(
        &self,
        op: CmpOp,
        left: &'e Expr,
        right: &'e Expr,
    ) -> Option<((usize, usize), ColumnRange<'e>)>
        ensures { option_map placed_leaf result ≡ read_compare self.now.called op (expr_tree left.now) (expr_tree right.now) }
    {
        if is_known(right) {
            beside(self.column_at(left), left_range(op, right))
        } else if is_known(left) {
            beside(self.column_at(right), right_range(op, left))
        } else {
            None
        }
    }

    /// The column and the range of a comparison or a BETWEEN of a column with constants.
    pub(crate) fn range<'e>(&self, cond: &'e Cond) -> Option<((usize, usize), ColumnRange<'e>)>
        ensures { option_map placed_leaf result ≡ read_leaf self.now.called (cond_tree cond.now) }
    {
        match cond {
            Cond::Cmp { op, left, right } => self.compared(*op, left, right),
            Cond::Between { of, low, high } => {
                if is_known(low) && is_known(high) {
                    beside(self.column_at(of), Some(ColumnRange::Between(low, high)))
                } else {
                    None
                }
            }
            Cond::IsNull(_) | Cond::Not(_) | Cond::And(_, _) | Cond::Or(_, _) => None,
        }
    }

    /// The column of such a comparison or BETWEEN.
    fn range_place(&self, cond: &Cond) -> Option<(usize, usize)>
        ensures { result ≡ option_map (λ at. at.0) (read_leaf self.now.called (cond_tree cond.now)) }
    {
        only_place(self.range(cond))
    }

    /// The column of a comparison with a constant, also of `<>`.
    fn compared_place(&self, op: CmpOp, left: &Expr, right: &Expr) -> Option<(usize, usize)>
        ensures { result ≡ option_map (λ at. at.0) (read_test self.now.called op (expr_tree left.now) (expr_tree right.now)) }
    {
        match op {
            CmpOp::Ne => only_place(self.compared(CmpOp::Eq, left, right)),
            CmpOp::Eq | CmpOp::Lt | CmpOp::Le | CmpOp::Gt | CmpOp::Ge => {
                only_place(self.compared(op, left, right))
            }
        }
    }

    /// The column that a condition is of, where it is of one column with constants.
    pub(crate) fn cond_place(&self, cond: &Cond) -> Option<(usize, usize)>
        ensures { result ≡ option_map (λ at. at.0) (read_cond self.now.called (cond_tree cond.now)) }
    {
        match cond {
            Cond::Cmp { op, left, right } => self.compared_place(*op, left, right),
            Cond::Between { .. } => self.range_place(cond),
            Cond::Not(of) => self.range_place(of),
            Cond::Or(left, right) => same_place(self.cond_place(left)?, self.cond_place(right)?),
            Cond::IsNull(_) | Cond::And(_, _) => None,
        }
    }
}

/// A column and its range, where both are there.
fn beside<'e>(
    place: Option<(usize, usize)>,
    range: Option<ColumnRange<'e>>,
) -> Option<((usize, usize), ColumnRange<'e>)>
    ensures { option_map placed_leaf result ≡ both place (option_map leaf_of range.entry) }
{
    Some((place?, range?))
}

/// The column alone.
fn only_place(found: Option<((usize, usize), ColumnRange<'_>)>) -> Option<(usize, usize)>
    ensures { result ≡ option_map (λ at. at.0) (option_map placed_leaf found.entry) }
{
    match found {
        Some((place, _)) => Some(place),
        None => None,
    }
}

/// The place, where both are the same.
fn same_place(left: (usize, usize), right: (usize, usize)) -> Option<(usize, usize)>
    ensures { result ≡ (if (left.0 == right.0) && (left.1 == right.1) then Some left else None) }
{
    if left.0 == right.0 && left.1 == right.1 {
        Some(left)
    } else {
        None
    }
}
