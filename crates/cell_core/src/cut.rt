ghost use Rattle.std.specs.Prelude.{◌≡◌, IfOk};
ghost use Rattle.cell_core.specs.Cuts.{cut_rank, cut_cmp};

use crate::cell::Cell;
use crate::memory::Memory;
use crate::order::compare;
use std::cmp::Ordering;

/// A place between cells, where their order can be cut in two.
pub enum Cut {
    /// Before all cells.
    Low,
    /// Before the cells that compare equal to this one.
    Before(Cell),
    /// After the cells that compare equal to this one.
    After(Cell),
    /// After all cells.
    High,
}

// By a call of its own, so that proofs needn't go through its forms where one is dropped.
impl Drop for Cut {
    fn drop(self) {
        match self {
            Cut::Low | Cut::Before(_) | Cut::After(_) | Cut::High => {}
        }
    }
}

/// The cells between two cuts.
pub struct Span {
    /// Where the span begins.
    pub low: Cut,
    /// Where it ends.
    pub high: Cut,
}

// By a call of its own, so that proofs needn't go through its forms where one is dropped.
impl Drop for Span {
    fn drop(self) {
        let Span { low: _, high: _ } = self;
    }
}

impl Cut {
    /// An equal cut, which shares the text.
    pub fn share(&self) -> Result<Cut, Memory>
        ensures { IfOk result (λ cut. cut ≡ self.now) }
    {
        Ok(match self {
            Cut::Low => Cut::Low,
            Cut::Before(cell) => Cut::Before(cell.share()?),
            Cut::After(cell) => Cut::After(cell.share()?),
            Cut::High => Cut::High,
        })
    }
}

impl Span {
    /// An equal span, which shares the texts.
    pub fn share(&self) -> Result<Span, Memory>
        ensures { IfOk result (λ span. span ≡ self.now) }
    {
        let low = self.low.share()?;
        let high = self.high.share()?;
        Ok(Span { low, high })
    }
}

/// The order of cuts: Low, then those before and after each cell, by the order of cells, then High.
pub fn compare_cuts(a: &Cut, b: &Cut) -> Ordering
    ensures { result ≡ cut_cmp a.now b.now }
{
    match (a, b) {
        (Cut::Before(x), Cut::Before(y)) => compare(x, y),
        (Cut::Before(x), Cut::After(y)) => compare(x, y).then(Ordering::Less),
        (Cut::After(x), Cut::Before(y)) => compare(x, y).then(Ordering::Greater),
        (Cut::After(x), Cut::After(y)) => compare(x, y),
        _ => rank_of(a).cmp(&rank_of(b)),
    }
}

/// The place of a cut's case in the order.
fn rank_of(cut: &Cut) -> u8
    ensures { result ≡ cut_rank cut.now }
{
    match cut {
        Cut::Low => 0,
        Cut::Before(_) | Cut::After(_) => 1,
        Cut::High => 2,
    }
}
