ghost use Rattle.std.specs.Prelude.{◌≡◌};
ghost use Rattle.std.specs.List.{list_any};
ghost use Rattle.cell_core.specs.Forms as forms;
ghost use Rattle.cell_core.specs.Forms.{form_of};

use crate::operator::{Arg, Op};

/// What an operator takes and returns.
#[derive(Clone, Copy, PartialEq, Eq)]
pub enum Form {
    /// The column of a database that three texts name.
    Bind,
    /// A BAT from a BAT, two bounds and two bits.
    Range,
    /// A BAT from a BAT.
    OneBat,
    /// A scalar from a BAT.
    Total,
    /// A BAT from two BATs.
    TwoBats,
    /// A BAT from a BAT and a scalar.
    BatAndCell,
    /// A function of two cells, over scalars and BATs.
    TwoCells,
    /// A function of one cell, over a scalar or a BAT.
    OneCell,
}

impl Op {
    /// What the operator takes and returns.
    pub fn form(self) -> Form
        ensures { result ≡ form_of self }
    {
        use Op::*;
        match self {
            Bind => Form::Bind,
            Select => Form::Range,
            Reverse | Mirror | GroupNew | GroupHeads => Form::OneBat,
            Count | Sum | Min | Max => Form::Total,
            MarkT | Project => Form::BatAndCell,
            Semijoin
            | Kdifference
            | Kunion
            | Cross
            | Join
            | GroupDerive
            | Subcount
            | Subsum
            | Submin
            | Submax => Form::TwoBats,
            Plus | Minus | Times | Eq | Ne | Lt | Le | Gt | Ge | And | Or => Form::TwoCells,
            Not | IsNil => Form::OneCell,
        }
    }

    /// Whether the operator is a function of cells, which takes scalars as well as BATs.
    pub fn is_calc(self) -> bool
        ensures { result ≡ forms.is_calc self }
    {
        matches!(self.form(), Form::TwoCells | Form::OneCell)
    }

    /// Whether the operator may overflow.
    pub fn may_overflow(self) -> bool
        ensures { result ≡ forms.may_overflow self }
    {
        matches!(self, Op::Plus | Op::Minus | Op::Times)
    }
}

impl Form {
    /// Whether an operator of this form gives a BAT, by whether it takes one.
    pub fn gives_bat(self, takes_bat: bool) -> bool
        ensures { result ≡ forms.gives_bat self takes_bat }
    {
        match self {
            Form::Total => false,
            Form::TwoCells | Form::OneCell => takes_bat,
            Form::Bind | Form::Range | Form::OneBat | Form::TwoBats | Form::BatAndCell => true,
        }
    }
}

/// Whether the argument is a result that is a BAT.
fn is_bat(bats: &[bool], arg: &Arg) -> bool
    ensures { result ≡ forms.is_bat bats.now arg.now }
{
    match arg {
        Arg::Const(_) => false,
        Arg::Var(number) => bats.get(*number as usize).copied().unwrap_or(false),
    }
}

/// Whether one of the arguments is a result that is a BAT, where `bats` says it of each result.
pub fn takes_bat(bats: &[bool], args: &[Arg]) -> bool
    ensures { result ≡ list_any (forms.is_bat bats.now) args.now }
{
    let mut rest = args;
    'args: while let [arg, more @ ..] = rest {
        if is_bat(bats, arg) {
            return true;
        }
        rest = more;
    }
    false
}
