//! The shapes of arguments.
ghost use Rattle.std.specs.Prelude.{◌≡◌, ◌<◌, [], ◌∷◌, Some, IsTrue, IsSome, length, slice_index_or};
ghost use Rattle.std.specs.List.{list_all};
ghost use Rattle.cell_core.specs.declared.cell.Cell.TheVariants.{Nil};
ghost use Rattle.cell_core.specs.Kinds.{is_of_kind as is_of_kind_cell, is_of_type, result_type};
ghost use Rattle.bat_core.specs.Objects.{value_of};
ghost use Rattle.kernel_tests.specs.Types.{type_of, is_pair_of as is_pair_of_kind};
ghost use Rattle.kernel_tests.specs.declared.shape.ArgShape.TheVariants.{Ints, Oids, Int};

use bat_core::{Bat, Obj};
use cell_core::{Cell, Kind, Op};

/// The shape of an argument. The heads of BATs are oids, and Nil is of each kind.
#[derive(Clone, Copy, PartialEq, Eq)]
pub enum ArgShape {
    /// A BAT of numbers.
    Ints,
    /// A BAT of oids.
    Oids,
    /// A BAT of bits.
    Bits,
    /// A BAT of days.
    Days,
    /// A number.
    Int,
    /// An oid.
    Oid,
    /// A bit.
    Bit,
}

/// Whether a value has a shape.
pub(crate) fn has_shape(obj: &Obj, shape: ArgShape) -> bool
    ensures { result ≡ is_of_type (value_of obj.now) (type_of shape) }
{
    match (obj, shape) {
        (Obj::Bat(b), ArgShape::Ints) => has_tails(b.bat(), Kind::Int),
        (Obj::Bat(b), ArgShape::Oids) => has_tails(b.bat(), Kind::Oid),
        (Obj::Bat(b), ArgShape::Bits) => has_tails(b.bat(), Kind::Bit),
        (Obj::Bat(b), ArgShape::Days) => has_tails(b.bat(), Kind::Day),
        (Obj::One(cell), ArgShape::Int) => is_of_kind(cell, Kind::Int),
        (Obj::One(cell), ArgShape::Oid) => is_of_kind(cell, Kind::Oid),
        (Obj::One(cell), ArgShape::Bit) => is_of_kind(cell, Kind::Bit),
        _ => false,
    }
}

/// Whether the heads are oids and the tails of a kind.
fn has_tails(b: &Bat, kind: Kind) -> bool
    ensures { result ≡ list_all (is_pair_of_kind kind) b.now }
{
    let mut all = true;
    for i in 0..b.len() {
        all = all && is_pair_of(b, i, kind);
    }
    all
}

/// Whether the pair at a place is an oid with a cell of a kind.
fn is_pair_of(b: &Bat, at: u64, kind: Kind) -> bool
    requires { at < length b.now }
    ensures { result ≡ is_pair_of_kind kind (slice_index_or b.now at (Nil, Nil)) }
{
    let (head, tail) = b.pair(at);
    is_of_kind(head.cell(), Kind::Oid) && is_of_kind(tail.cell(), kind)
}

/// Whether a cell is of a kind, as Nil is of each.
fn is_of_kind(cell: &Cell, kind: Kind) -> bool
    ensures { result ≡ is_of_kind_cell (Some kind) cell.now }
{
    match (cell, kind) {
        (Cell::Nil, _)
        | (Cell::Int(_), Kind::Int)
        | (Cell::Huge(_), Kind::Huge)
        | (Cell::Text(_), Kind::Text)
        | (Cell::Day(_), Kind::Day)
        | (Cell::Bit(_), Kind::Bit)
        | (Cell::Oid(_), Kind::Oid) => true,
        _ => false,
    }
}

/// Whether an argument of a shape is known to fit an operator.
pub(crate) fn fits_one(op: Op, x: ArgShape) -> bool
    ensures { IsTrue result → IsSome (result_type op (type_of x ∷ [])) }
{
    match (op, x) {
        (
            Op::Reverse | Op::Mirror | Op::GroupNew | Op::Count | Op::Sum | Op::Min | Op::Max,
            ArgShape::Ints,
        ) => true,
        (Op::GroupNew, ArgShape::Days) => true,
        (Op::GroupHeads, ArgShape::Oids) => true,
        (Op::Not, ArgShape::Bits | ArgShape::Bit) => true,
        (Op::IsNil, _) => true,
        _ => false,
    }
}

/// Whether two arguments of these shapes are known to fit an operator.
pub(crate) fn fits_two(op: Op, x: ArgShape, y: ArgShape) -> bool
    ensures { IsTrue result → IsSome (result_type op (type_of x ∷ type_of y ∷ [])) }
{
    match (x, y) {
        (ArgShape::Ints, ArgShape::Ints) => takes_bats(op) || calculates(op),
        (ArgShape::Ints, ArgShape::Oids) => takes_groups(op),
        (ArgShape::Oids, ArgShape::Ints) => matches!(op, Op::Join | Op::GroupDerive),
        (ArgShape::Oids, ArgShape::Days) => matches!(op, Op::GroupDerive),
        (ArgShape::Ints, ArgShape::Oid) => matches!(op, Op::MarkT),
        (ArgShape::Ints, ArgShape::Int) => matches!(op, Op::Project) || calculates(op),
        (ArgShape::Int, ArgShape::Ints | ArgShape::Int) => calculates(op),
        (ArgShape::Bits | ArgShape::Bit, ArgShape::Bits | ArgShape::Bit) => matches!(
            op,
            Op::And | Op::Or
        ),
        _ => false,
    }
}

/// The operators on two BATs whose heads are of one kind, and whose tails are of one kind.
fn takes_bats(op: Op) -> bool
    ensures { IsTrue result → IsSome (result_type op (type_of Ints ∷ type_of Ints ∷ [])) }
{
    matches!(op, Op::Semijoin | Op::Kdifference | Op::Kunion | Op::Cross)
}

/// The aggregates for each group.
fn takes_groups(op: Op) -> bool
    ensures { IsTrue result → IsSome (result_type op (type_of Ints ∷ type_of Oids ∷ [])) }
{
    matches!(op, Op::Subcount | Op::Subsum | Op::Submin | Op::Submax)
}

/// The functions of numbers.
fn calculates(op: Op) -> bool
    ensures bats { IsTrue result → IsSome (result_type op (type_of Ints ∷ type_of Ints ∷ [])) }
    ensures left { IsTrue result → IsSome (result_type op (type_of Ints ∷ type_of Int ∷ [])) }
    ensures right { IsTrue result → IsSome (result_type op (type_of Int ∷ type_of Ints ∷ [])) }
    ensures cells { IsTrue result → IsSome (result_type op (type_of Int ∷ type_of Int ∷ [])) }
{
    match op {
        Op::Plus | Op::Minus | Op::Times => true,
        Op::Eq | Op::Ne | Op::Lt | Op::Le | Op::Gt | Op::Ge => true,
        _ => false,
    }
}
