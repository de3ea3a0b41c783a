//! The kinds of cells, and which of them agree.
ghost use Rattle.std.specs.Prelude.{◌≡◌};
ghost use Rattle.cell_core.specs.Kinds as kinds;

use cell_core::{Cell, Kind};

/// The kind of a cell; that of Nil is none.
pub fn kind_of(cell: &Cell) -> Option<Kind>
    ensures kind { result ≡ kinds.kind_of cell.now }
{
    match cell {
        Cell::Nil => None,
        Cell::Int(_) => Some(Kind::Int),
        Cell::Huge(_) => Some(Kind::Huge),
        Cell::Text(_) => Some(Kind::Text),
        Cell::Day(_) => Some(Kind::Day),
        Cell::Bit(_) => Some(Kind::Bit),
        Cell::Oid(_) => Some(Kind::Oid),
    }
}

fn is_same(a: Kind, b: Kind) -> bool
    ensures { result ≡ kinds.same_kind a b }
{
    a == b
}

/// Whether two kinds are equal, or one of them is that of Nil.
pub fn agrees(a: Option<Kind>, b: Option<Kind>) -> bool
    ensures agree { result ≡ kinds.agrees a b }
{
    match (a, b) {
        (Some(a), Some(b)) => is_same(a, b),
        _ => true,
    }
}

/// Whether both agree with a kind.
pub fn both_are(kind: Kind, a: Option<Kind>, b: Option<Kind>) -> bool
    ensures both { result ≡ kinds.both_are kind a b }
{
    agrees(a, Some(kind)) && agrees(b, Some(kind))
}

/// Whether it is that of a number, of which Nil may be one.
pub fn is_numeric(kind: Option<Kind>) -> bool
    ensures numeric { result ≡ kinds.is_numeric kind }
{
    agrees(kind, Some(Kind::Int)) || agrees(kind, Some(Kind::Huge))
}

/// Whether cells of these kinds compare: numbers with numbers, other cells with those of their
/// kind.
pub fn are_comparable(a: Option<Kind>, b: Option<Kind>) -> bool
    ensures comparable { result ≡ kinds.are_comparable a b }
{
    agrees(a, b) || (is_numeric(a) && is_numeric(b))
}
