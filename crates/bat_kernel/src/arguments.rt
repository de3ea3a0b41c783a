//! The arguments of operators by their forms.
ghost use Rattle.std.specs.Prelude.{◌≡◌, [], ◌∷◌, IsTrue};
ghost use Rattle.cell_core.specs.declared.operator.Value.TheVariants.{Bat as BatValue, One as OneValue};
ghost use Rattle.bat_core.specs.Objects.{value_of, values_of};
ghost use Rattle.bat_kernel.specs.Shapes.{is_bat, is_two_bats, is_bat_and_cell, is_range, is_two, is_one};

use bat_core::{Bat, Obj};
use cell_core::Cell;

pub(crate) fn one_bat(args: &[Obj]) -> &Bat
    requires { IsTrue (is_bat (values_of args.now)) }
    ensures { values_of args.now ≡ BatValue result.now ∷ [] }
{
    match args {
        [Obj::Bat(b)] => b.bat(),
        [] | [Obj::One(..)] | [_, _, ..] => unreachable!(),
    }
}

pub(crate) fn two_bats(args: &[Obj]) -> (&Bat, &Bat)
    requires { IsTrue (is_two_bats (values_of args.now)) }
    ensures { values_of args.now ≡ BatValue result.0.now ∷ BatValue result.1.now ∷ [] }
{
    match args {
        [Obj::Bat(l), Obj::Bat(r)] => (l.bat(), r.bat()),
        _ => unreachable!(),
    }
}

pub(crate) fn two_values(args: &[Obj]) -> (&Obj, &Obj)
    requires { IsTrue (is_two (values_of args.now)) }
    ensures { values_of args.now ≡ value_of result.0.now ∷ value_of result.1.now ∷ [] }
{
    match args {
        [x, y] => (x, y),
        _ => unreachable!(),
    }
}

pub(crate) fn one_value(args: &[Obj]) -> &Obj
    requires { IsTrue (is_one (values_of args.now)) }
    ensures { values_of args.now ≡ value_of result.now ∷ [] }
{
    match args {
        [x] => x,
        _ => unreachable!(),
    }
}

pub(crate) fn bat_and_cell(args: &[Obj]) -> (&Bat, &Cell)
    requires { IsTrue (is_bat_and_cell (values_of args.now)) }
    ensures { values_of args.now ≡ BatValue result.0.now ∷ OneValue result.1.now ∷ [] }
{
    match args {
        [Obj::Bat(b), Obj::One(cell)] => (b.bat(), cell),
        _ => unreachable!(),
    }
}

/// A BAT, two bounds of a range, and whether the bounds are in it.
pub(crate) fn range(args: &[Obj]) -> (&Bat, &Cell, &Cell, &Cell, &Cell)
    requires { IsTrue (is_range (values_of args.now)) }
    ensures { values_of args.now ≡ BatValue result.0.now ∷ OneValue result.1.now ∷ OneValue result.2.now ∷ OneValue result.3.now ∷ OneValue result.4.now ∷ [] }
{
    match args {
        [
            Obj::Bat(b),
            Obj::One(low),
            Obj::One(high),
            Obj::One(li),
            Obj::One(hi),
        ] => { (b.bat(), low, high, li, hi) }
        _ => unreachable!(),
    }
}
