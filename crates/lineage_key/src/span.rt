ghost use Rattle.std.specs.Prelude.{◌≡◌, IfOk};
ghost use Rattle.lineage_key.specs.Spans.{span_asked, span_between, span_of_bounds, low_cut, high_cut};

use crate::key::{Key, KeyArg};
use cell_core::{Cell, Cut, Memory, Op, Span};

/// The span of cells that a selection asks for. None exactly where the key is no selection whose
/// four arguments after the first are constants.
pub fn span_of(key: &Key) -> Result<Option<Span>, Memory>
    ensures { IfOk result (λ span. span ≡ span_asked key.now) }
{
    if key.op == Op::Select {
        range_of(key.args.as_slice())
    } else {
        Ok(None)
    }
}

/// The span of a selection with these arguments.
fn range_of(args: &[KeyArg]) -> Result<Option<Span>, Memory>
    ensures { IfOk result (λ span. span ≡ span_between args.now) }
{
    match args {
        [_, low, high, li, hi] => bounded_by(low, high, li, hi),
        _ => Ok(None),
    }
}

/// The span between two bounds, where all four arguments are constants.
fn bounded_by(low: &KeyArg, high: &KeyArg, li: &KeyArg, hi: &KeyArg) -> Result<Option<Span>, Memory>
    ensures { IfOk result (λ span. span ≡ span_of_bounds low.now high.now li.now hi.now) }
{
    match (low, high, li, hi) {
        (KeyArg::Const(low), KeyArg::Const(high), KeyArg::Const(li), KeyArg::Const(hi)) => {
            let low = low_of(low, li)?;
            let high = high_of(high, hi)?;
            Ok(Some(Span { low, high }))
        }
        _ => Ok(None),
    }
}

/// Where a selection begins.
fn low_of(low: &Cell, li: &Cell) -> Result<Cut, Memory>
    ensures { IfOk result (λ cut. cut ≡ low_cut low.now li.now) }
{
    Ok(match (low, li) {
        (Cell::Nil, _) => Cut::Low,
        (cell, Cell::Bit(true)) => Cut::Before(cell.share()?),
        (cell, _) => Cut::After(cell.share()?),
    })
}

/// Where a selection ends.
fn high_of(high: &Cell, hi: &Cell) -> Result<Cut, Memory>
    ensures { IfOk result (λ cut. cut ≡ high_cut high.now hi.now) }
{
    Ok(match (high, hi) {
        (Cell::Nil, _) => Cut::High,
        (cell, Cell::Bit(true)) => Cut::After(cell.share()?),
        (cell, _) => Cut::Before(cell.share()?),
    })
}
