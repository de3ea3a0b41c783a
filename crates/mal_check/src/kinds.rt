//! The kinds of values, and the kind of an operator's result from those of its arguments.
ghost use Rattle.std.specs.Prelude.{◌≡◌, ◌∷◌, [], slice_get};
ghost use Rattle.std.specs.Bool.{then_some};
ghost use Rattle.std.specs.Option.{option_map};
ghost use Rattle.cell_core.specs.declared.cell.Kind.TheVariants as kind;
ghost use Rattle.cell_core.specs.declared.operator.Op.TheVariants as operator;
ghost use Rattle.cell_core.specs.declared.form.Form.TheVariants as form;
ghost use Rattle.cell_core.specs.Forms.{form_of};
ghost use Rattle.cell_core.specs.Kinds as kinds;
ghost use Rattle.cell_core.specs.Kinds.{OneOf, BatOf, result_type, bind_type, from_one, from_any, from_two, from_range};
ghost use Rattle.mal_check.specs.Checked.{arg_type};
ghost use Rattle.mal_check.specs.Types.{type_of, types_of};

use cell_calc::{agrees, are_comparable, both_are, kind_of};
use cell_core::{Arg, Cell, Form, Kind, Op, Word};

/// What is known of a value before its plan is run. A kind `None` is that of Nil.
#[derive(Clone, Copy, PartialEq, Eq)]
pub(crate) enum ValueKind {
    /// A scalar of a kind.
    One(Option<Kind>),
    /// A BAT.
    Bat(BatKind),
}

/// The kinds of a BAT's heads and of its tails.
#[derive(Clone, Copy, PartialEq, Eq)]
pub(crate) struct BatKind {
    head: Option<Kind>,
    tail: Option<Kind>,
}

const INT: Option<Kind> = Some(Kind::Int);

const HUGE: Option<Kind> = Some(Kind::Huge);

const BIT: Option<Kind> = Some(Kind::Bit);

const OID: Option<Kind> = Some(Kind::Oid);

/// A BAT of these kinds.
fn bat(head: Option<Kind>, tail: Option<Kind>) -> ValueKind
    ensures { type_of result ≡ BatOf head tail }
{
    ValueKind::Bat(BatKind { head, tail })
}

/// The kind of the cells that a function of cells takes from a value.
fn cells_kind(value: ValueKind) -> Option<Kind>
    ensures { result ≡ kinds.cells_kind (type_of value) }
{
    match value {
        ValueKind::One(kind) => kind,
        ValueKind::Bat(b) => b.tail,
    }
}

/// The kind of a function's result: a scalar, or a BAT with the head kind of the first BAT.
fn calculated_kind(kind: Kind, args: &[ValueKind]) -> ValueKind
    ensures { type_of result ≡ kinds.calculated_type kind (types_of args.now) }
{
    let mut rest = args;
    'args: while let [arg, more @ ..] = rest {
        if let ValueKind::Bat(b) = arg {
            return bat(b.head, Some(kind));
        }
        rest = more;
    }
    ValueKind::One(Some(kind))
}

/// The kind that a sum, a difference or a product has.
fn arithmetic_kind(args: &[ValueKind]) -> Option<ValueKind>
    ensures { option_map type_of result ≡ from_two (kinds.both_are kind.Int) kind.Int (types_of args.now) }
{
    let [x, y] = args else {
        return None;
    };
    if both_are(Kind::Int, cells_kind(*x), cells_kind(*y)) {
        Some(calculated_kind(Kind::Int, args))
    } else {
        None
    }
}

fn comparison_kind(args: &[ValueKind]) -> Option<ValueKind>
    ensures { option_map type_of result ≡ from_two kinds.are_comparable kind.Bit (types_of args.now) }
{
    let [x, y] = args else {
        return None;
    };
    if are_comparable(cells_kind(*x), cells_kind(*y)) {
        Some(calculated_kind(Kind::Bit, args))
    } else {
        None
    }
}

/// The kind that a conjunction or a disjunction has.
fn junction_kind(args: &[ValueKind]) -> Option<ValueKind>
    ensures { option_map type_of result ≡ from_two (kinds.both_are kind.Bit) kind.Bit (types_of args.now) }
{
    let [x, y] = args else {
        return None;
    };
    if both_are(Kind::Bit, cells_kind(*x), cells_kind(*y)) {
        Some(calculated_kind(Kind::Bit, args))
    } else {
        None
    }
}

fn negation_kind(args: &[ValueKind]) -> Option<ValueKind>
    ensures { option_map type_of result ≡ from_one kind.Bit kind.Bit (types_of args.now) }
{
    let [x] = args else {
        return None;
    };
    if agrees(cells_kind(*x), Some(Kind::Bit)) {
        Some(calculated_kind(Kind::Bit, args))
    } else {
        None
    }
}

/// The kind that a test for Nil has.
fn nil_test_kind(args: &[ValueKind]) -> Option<ValueKind>
    ensures { option_map type_of result ≡ from_any kind.Bit (types_of args.now) }
{
    match args {
        [_] => Some(calculated_kind(Kind::Bit, args)),
        _ => None,
    }
}

/// The kind of the result of a function of two cells.
fn kind_from_two(op: Op, args: &[ValueKind]) -> Option<ValueKind>
    requires { form_of op ≡ form.TwoCells }
    ensures { option_map type_of result ≡ result_type op (types_of args.now) }
{
    match op {
        Op::Plus | Op::Minus | Op::Times => arithmetic_kind(args),
        Op::Eq | Op::Ne | Op::Lt | Op::Le | Op::Gt | Op::Ge => comparison_kind(args),
        Op::And | Op::Or => junction_kind(args),
        _ => unreachable!(),
    }
}

/// The kind of the result of a function of one cell.
fn kind_from_one(op: Op, args: &[ValueKind]) -> Option<ValueKind>
    requires { form_of op ≡ form.OneCell }
    ensures { option_map type_of result ≡ result_type op (types_of args.now) }
{
    match op {
        Op::Not => negation_kind(args),
        Op::IsNil => nil_test_kind(args),
        _ => unreachable!(),
    }
}

/// The kind, where a test is passed.
fn given(test: bool, kind: ValueKind) -> Option<ValueKind>
    ensures { option_map type_of result ≡ then_some test (type_of kind) }
{
    if test { Some(kind) } else { None }
}

/// The kind of the BAT that an operator makes of one BAT.
fn kind_from_bat(op: Op, b: BatKind) -> Option<ValueKind>
    requires { form_of op ≡ form.OneBat }
    ensures { option_map type_of result ≡ result_type op (BatOf b.head b.tail ∷ []) }
{
    match op {
        Op::Reverse => Some(bat(b.tail, b.head)),
        Op::Mirror => Some(bat(b.head, b.head)),
        Op::GroupNew => Some(bat(b.head, OID)),
        Op::GroupHeads => given(agrees(b.tail, OID), bat(OID, b.head)),
        _ => unreachable!(),
    }
}

/// The kind of the scalar that an operator makes of one BAT.
fn total_kind(op: Op, b: BatKind) -> Option<ValueKind>
    requires { form_of op ≡ form.Total }
    ensures { option_map type_of result ≡ result_type op (BatOf b.head b.tail ∷ []) }
{
    match op {
        Op::Count => Some(ValueKind::One(INT)),
        Op::Sum => given(agrees(b.tail, INT), ValueKind::One(HUGE)),
        Op::Min | Op::Max => Some(ValueKind::One(b.tail)),
        _ => unreachable!(),
    }
}

/// The kind of the result of an operator of a BAT and a cell.
fn kind_from_cell(op: Op, b: BatKind, cell: Option<Kind>) -> Option<ValueKind>
    requires { form_of op ≡ form.BatAndCell }
    ensures { option_map type_of result ≡ result_type op (BatOf b.head b.tail ∷ OneOf cell ∷ []) }
{
    match op {
        Op::MarkT => given(agrees(cell, OID), bat(b.head, OID)),
        Op::Project => Some(bat(b.head, cell)),
        _ => unreachable!(),
    }
}

/// The kind of the result of an operator of two BATs.
fn kind_from_bats(op: Op, l: BatKind, r: BatKind) -> Option<ValueKind>
    requires { form_of op ≡ form.TwoBats }
    ensures { option_map type_of result ≡ result_type op (BatOf l.head l.tail ∷ BatOf r.head r.tail ∷ []) }
{
    match op {
        Op::Semijoin | Op::Kdifference => given(agrees(l.head, r.head), bat(l.head, l.tail)),
        Op::Kunion => given(
            agrees(l.head, r.head) && agrees(l.tail, r.tail),
            bat(l.head.or(r.head), l.tail.or(r.tail)),
        ),
        Op::Cross => Some(bat(l.head, r.head)),
        Op::Join => given(agrees(l.tail, r.head), bat(l.head, r.tail)),
        Op::GroupDerive => given(agrees(l.tail, OID), bat(l.head, OID)),
        Op::Subcount => given(agrees(r.tail, OID), bat(OID, INT)),
        Op::Subsum => given(agrees(r.tail, OID) && agrees(l.tail, INT), bat(OID, HUGE)),
        Op::Submin | Op::Submax => given(agrees(r.tail, OID), bat(OID, l.tail)),
        _ => unreachable!(),
    }
}

/// The kind of a select's result: its bounds are of the tails' kind, and the two others are bits.
fn range_kind(args: &[ValueKind]) -> Option<ValueKind>
    ensures { option_map type_of result ≡ from_range (types_of args.now) }
{
    let [
        ValueKind::Bat(b),
        ValueKind::One(low),
        ValueKind::One(high),
        ValueKind::One(li),
        ValueKind::One(hi),
    ] = args
    else {
        return None;
    };
    let bounds_fit = agrees(*low, b.tail) && agrees(*high, b.tail);
    let bits_fit = agrees(*li, BIT) && agrees(*hi, BIT);
    given(bounds_fit && bits_fit, ValueKind::Bat(*b))
}

/// The kind of an operator's result, where the kinds of its arguments fit it. Bind has its own
/// rule.
pub(crate) fn result_kind(op: Op, args: &[ValueKind]) -> Option<ValueKind>
    ensures { option_map type_of result ≡ result_type op (types_of args.now) }
{
    match op.form() {
        Form::Bind => None,
        Form::Range => range_kind(args),
        Form::OneBat => {
            let [ValueKind::Bat(b)] = args else {
                return None;
            };
            kind_from_bat(op, *b)
        }
        Form::Total => {
            let [ValueKind::Bat(b)] = args else {
                return None;
            };
            total_kind(op, *b)
        }
        Form::BatAndCell => {
            let [ValueKind::Bat(b), ValueKind::One(cell)] = args else {
                return None;
            };
            kind_from_cell(op, *b, *cell)
        }
        Form::TwoBats => {
            let [ValueKind::Bat(l), ValueKind::Bat(r)] = args else {
                return None;
            };
            kind_from_bats(op, *l, *r)
        }
        Form::TwoCells => kind_from_two(op, args),
        Form::OneCell => kind_from_one(op, args),
    }
}

/// The kind that a bind names.
fn named_kind(word: &Word) -> Option<Kind>
    ensures { result ≡ kinds.named_kind word.now }
{
    let text = word.text();
    if text == "int" {
        Some(Kind::Int)
    } else if text == "str" {
        Some(Kind::Text)
    } else if text == "date" {
        Some(Kind::Day)
    } else {
        None
    }
}

/// The kind of the column that a bind names: its arguments are the texts of a table, a column and
/// a kind.
pub(crate) fn bind_kind(args: &[Arg]) -> Option<ValueKind>
    ensures { option_map type_of result ≡ bind_type args.now }
{
    let [
        Arg::Const(Cell::Text(_table)),
        Arg::Const(Cell::Text(_column)),
        Arg::Const(Cell::Text(word)),
    ] = args
    else {
        return None;
    };
    let kind = named_kind(word)?;
    Some(bat(OID, Some(kind)))
}

/// The kind at a place, counted from 0, if there is one.
fn kind_at(kinds: &[ValueKind], place: usize) -> Option<ValueKind>
    ensures { result ≡ slice_get kinds.now place }
{
    kinds.get(place).copied()
}

/// The kind of an argument, unless it names an instruction that isn't among those of these kinds.
#[tactic(auto, using(crate::proofs::KindLemmas::type_at_place))]
pub(crate) fn arg_kind(kinds: &[ValueKind], arg: &Arg) -> Option<ValueKind>
    ensures { option_map type_of result ≡ arg_type (types_of kinds.now) arg.now }
{
    match arg {
        Arg::Const(cell) => Some(ValueKind::One(kind_of(cell))),
        Arg::Var(n) => kind_at(kinds, *n as usize),
    }
}
