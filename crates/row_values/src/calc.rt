//! The functions and the aggregates of cells, by the operators of SQL.
ghost use Rattle.std.specs.Prelude.{◌≡◌, pos, IfOk};
ghost use Rattle.cell_core.specs.declared.cell.Cell.TheVariants.{Int};
ghost use Rattle.sql_definitions.specs.Truth.{compared};
ghost use Rattle.sql_definitions.specs.Values.{aggregated, result_of};

use cell_calc::{
    Aggregate, aggregate_cells, difference, is_above, is_at_least, is_at_most, is_below, is_equal,
    is_unequal, product, sum,
};
use cell_core::{Cell, Memory};
use sql_tree::{AggOp, ArithOp, CmpOp};

/// The result of an operator: Nil where an operand is Nil, none where it leaves the signed 64-bit
/// range.
pub(crate) fn calculate(op: ArithOp, x: &Cell, y: &Cell) -> Option<Cell>
    ensures { result ≡ result_of op x.now y.now }
{
    match op {
        ArithOp::Plus => sum(x, y),
        ArithOp::Minus => difference(x, y),
        ArithOp::Times => product(x, y),
    }
}

/// A comparison of two cells, which is unknown where one of them is Nil.
pub(crate) fn compare_by(op: CmpOp, x: &Cell, y: &Cell) -> Cell
    ensures { result ≡ compared op x.now y.now }
{
    match op {
        CmpOp::Eq => is_equal(x, y),
        CmpOp::Ne => is_unequal(x, y),
        CmpOp::Lt => is_below(x, y),
        CmpOp::Le => is_at_most(x, y),
        CmpOp::Gt => is_above(x, y),
        CmpOp::Ge => is_at_least(x, y),
    }
}

/// The aggregate of cells, which skips those that are Nil.
pub(crate) fn aggregate(which: AggOp, cells: &[Cell]) -> Result<Cell, Memory>
    ensures { IfOk result (λ cell. cell ≡ aggregated which cells.now) }
{
    match which {
        AggOp::Count => aggregate_cells(Aggregate::Count, cells),
        AggOp::Sum => aggregate_cells(Aggregate::Sum, cells),
        AggOp::Min => aggregate_cells(Aggregate::Min, cells),
        AggOp::Max => aggregate_cells(Aggregate::Max, cells),
    }
}

/// A count as a cell.
pub(crate) fn count(count: usize) -> Result<Cell, Memory>
    ensures { IfOk result (λ cell. cell ≡ Int (pos count)) }
{
    let count = i64::try_from(count).map_err(|_| Memory)?;
    Ok(Cell::Int(count))
}
