//! Numbers that represent cells of one kind, in the same order.
ghost use Rattle.std.specs.Prelude.{◌≡◌, Bool, IfSome, true};
ghost use Rattle.cell_core.specs.declared.cell.Cell.{Cell as CellSeen};
ghost use Rattle.cell_core.specs.declared.cell.Cell.TheVariants.{Int, Day};
ghost use Rattle.cell_core.specs.Calc.{fits_int};
ghost use Rattle.cell_core.specs.Relations.{is_within, is_ordered};
ghost use Rattle.bat_algebra.specs.Spans.{IsFirst, IsLast, IsSpan, fits_day};

use cell_core::Cell;

/// A number that represents a cell of one kind; numbers have the order of their cells.
pub(crate) trait Ordered: Copy {
    /// The cell of a number.
    ghost cell_of: { Self → CellSeen };

    /// Whether it is a number of the type.
    ghost is_one: { Self → Bool };

    /// The first and the last of the numbers that lie between two bounds; a Nil bound doesn't
    /// restrict. None where a bound is a cell of another kind, or where no number of the type lies
    /// beyond it.
    fn span(low: &Cell, high: &Cell, li: bool, hi: bool) -> Option<(Self, Self)>
        ensures { IfSome result (λ span. IsSpan cell_of is_one span.0 span.1 low.now high.now li hi) };

    /// Whether a number is one of those from a first to a last.
    fn is_between(self, first: Self, last: Self) -> bool
        ensures between { result ≡ is_within (cell_of first) (cell_of last) true true (cell_of self) }
        ensures one { is_one self ≡ true };
}

impl Ordered for i64 {
    ghost cell_of = { Int };

    ghost is_one = { fits_int };

    fn span(low: &Cell, high: &Cell, li: bool, hi: bool) -> Option<(i64, i64)> {
        let first = first_int(low, li)?;
        let last = last_int(high, hi)?;
        Some((first, last))
    }

    #[inline]
    fn is_between(self, first: i64, last: i64) -> bool {
        is_at_most(first, self) & is_at_most(self, last)
    }
}

impl Ordered for i32 {
    ghost cell_of = { Day };

    ghost is_one = { fits_day };

    fn span(low: &Cell, high: &Cell, li: bool, hi: bool) -> Option<(i32, i32)> {
        let first = first_day(low, li)?;
        let last = last_day(high, hi)?;
        Some((first, last))
    }

    #[inline]
    fn is_between(self, first: i32, last: i32) -> bool {
        is_at_most(i64::from(first), i64::from(self)) & is_at_most(i64::from(self), i64::from(last))
    }
}

/// The first Int after a low bound, or the bound itself where it is included.
fn first_int(low: &Cell, li: bool) -> Option<i64>
    ensures { IfSome result (λ first. IsFirst Int fits_int first low.now li) }
{
    match low {
        Cell::Nil => Some(i64::MIN),
        Cell::Int(low) if li => Some(*low),
        Cell::Int(low) => low.checked_add(1),
        _ => None,
    }
}

/// The last Int before a high bound, or the bound itself where it is included.
fn last_int(high: &Cell, hi: bool) -> Option<i64>
    ensures { IfSome result (λ last. IsLast Int fits_int last high.now hi) }
{
    match high {
        Cell::Nil => Some(i64::MAX),
        Cell::Int(high) if hi => Some(*high),
        Cell::Int(high) => high.checked_sub(1),
        _ => None,
    }
}

/// The first day after a low bound, or the bound itself where it is included.
fn first_day(low: &Cell, li: bool) -> Option<i32>
    ensures { IfSome result (λ first. IsFirst Day fits_day first low.now li) }
{
    match low {
        Cell::Nil => Some(i32::MIN),
        Cell::Day(low) if li => Some(*low),
        Cell::Day(low) => low.checked_add(1),
        _ => None,
    }
}

/// The last day before a high bound, or the bound itself where it is included.
fn last_day(high: &Cell, hi: bool) -> Option<i32>
    ensures { IfSome result (λ last. IsLast Day fits_day last high.now hi) }
{
    match high {
        Cell::Nil => Some(i32::MAX),
        Cell::Day(high) if hi => Some(*high),
        Cell::Day(high) => high.checked_sub(1),
        _ => None,
    }
}

/// Whether a number is at most another.
#[inline]
fn is_at_most(a: i64, b: i64) -> bool
    ensures ints { result ≡ is_ordered true (Int a) (Int b) }
    ensures days { result ≡ is_ordered true (Day a) (Day b) }
{
    a <= b
}
