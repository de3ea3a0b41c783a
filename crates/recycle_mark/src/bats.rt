//! Flags of the results that arguments name.
ghost use Rattle.std.specs.Prelude.{◌≡◌, get_or, false};
ghost use Rattle.std.specs.List.{list_all};
ghost use Rattle.cell_core.specs.Forms.{is_bat_result};
ghost use Rattle.recycle_mark.specs.Marks as marks;

use cell_core::{Arg, Instr, takes_bat};

/// The flag of a result; false where there is none.
fn flag_at(flags: &[bool], place: usize) -> bool
    ensures { result ≡ get_or flags.now place false }
{
    flags.get(place).copied().unwrap_or(false)
}

/// Whether the result of an instruction is a BAT, where `bats` says it of the results before it.
pub(crate) fn gives_bat(bats: &[bool], instr: &Instr) -> bool
    ensures { result ≡ is_bat_result bats.now instr.now }
{
    instr
        .op
        .form()
        .gives_bat(takes_bat(bats, instr.args.as_slice()))
}

/// Whether the argument is a constant or the result of a marked instruction.
fn is_marked(marked: &[bool], arg: &Arg) -> bool
    ensures { result ≡ marks.is_marked marked.now arg.now }
{
    match arg {
        Arg::Const(_) => true,
        Arg::Var(number) => flag_at(marked, *number as usize),
    }
}

/// Whether all arguments are constants or results of marked instructions.
pub(crate) fn all_marked(marked: &[bool], args: &[Arg]) -> bool
    ensures { result ≡ list_all (marks.is_marked marked.now) args.now }
{
    let mut rest = args;
    'args: while let [arg, more @ ..] = rest {
        if !is_marked(marked, arg) {
            return false;
        }
        rest = more;
    }
    true
}
