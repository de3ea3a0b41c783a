//! Arguments and outputs whose results are replaced.
ghost use Rattle.std.specs.Prelude.{◌≡◌, map, IfOk};
ghost use Rattle.std.specs.Option.{option_map};
ghost use Rattle.mal_opt.specs.Passes.{renamed, renamed_instr, renamed_out};

use cell_core::{Arg, Instr, Memory, Sequence};
use mal_meaning::Out;
use std::alloc::Global;

/// The replacement of an argument, where `places` has that of each result so far.
fn rename(places: &[Arg], arg: &Arg) -> Result<Arg, Memory>
    ensures { IfOk result (λ named. named ≡ renamed places.now arg.now) }
{
    match arg {
        Arg::Const(_) => arg.share(),
        Arg::Var(number) => match places.get(*number as usize) {
            Some(place) => place.share(),
            None => arg.share(),
        },
    }
}

/// The same for several arguments.
fn rename_all(alloc: Global, places: &[Arg], args: &[Arg]) -> Result<Sequence<Arg>, Memory>
    ensures { IfOk result (λ named. named ≡ map (renamed places.now) args.now) }
{
    let mut named = Vec::with_capacity(alloc, args.len())?;
    'args: for arg in args {
        named.push(rename(places, arg)?)?;
    }
    Ok(Sequence::from_vec(named))
}

/// An instruction over the replacements of its arguments.
pub(crate) fn rename_instr(alloc: Global, places: &[Arg], instr: &Instr) -> Result<Instr, Memory>
    ensures { IfOk result (λ named. named ≡ renamed_instr places.now instr.now) }
{
    let args = rename_all(alloc, places, instr.args.as_slice())?;
    Ok(Instr { op: instr.op, args })
}

/// The replacement of the argument of `keep`, if there is one.
fn rename_keep(places: &[Arg], keep: &Option<Arg>) -> Result<Option<Arg>, Memory>
    ensures { IfOk result (λ named. named ≡ option_map (renamed places.now) keep.now) }
{
    Ok(match keep {
        Some(arg) => Some(rename(places, arg)?),
        None => None,
    })
}

/// An output over the replacements of its arguments.
pub(crate) fn rename_out(alloc: Global, places: &[Arg], out: &Out) -> Result<Out, Memory>
    ensures { IfOk result (λ named. named ≡ renamed_out places.now out.now) }
{
    let mut named = out.share(alloc)?;
    named.cols = rename_all(alloc, places, out.cols.as_slice())?;
    named.keep = rename_keep(places, &out.keep)?;
    Ok(named)
}
