//! The arguments of an instruction among results of which some may not be known yet.
ghost use Rattle.std.specs.Prelude.{◌≡◌, IfOk};
ghost use Rattle.std.specs.Option.{option_map};
ghost use Rattle.bat_core.specs.Objects.{value_of, values_of};
ghost use Rattle.cell_core.specs.declared.operator.Arg.TheVariants.{Var};
ghost use Rattle.mal_meaning.specs.Meaning.{arg_value, arg_values};
ghost use Rattle.mal_exec.specs.Results.{known_of};

use bat_core::Obj;
use cell_core::{Arg, Memory};
use std::alloc::Global;

/// The value at a place, if it is known.
fn known_at(results: &[Option<Obj>], place: u32) -> Result<Option<Obj>, Memory>
    ensures { IfOk result (λ found. option_map value_of found ≡ arg_value (known_of results.now) (Var place)) }
{
    let Some(Some(value)) = results.get(place as usize) else {
        return Ok(None);
    };
    let value = value.share()?;
    Ok(Some(value))
}

/// The value of an argument, if it is known.
fn known_arg(results: &[Option<Obj>], arg: &Arg) -> Result<Option<Obj>, Memory>
    ensures { IfOk result (λ found. option_map value_of found ≡ arg_value (known_of results.now) arg.now) }
{
    match arg {
        Arg::Const(cell) => {
            let cell = cell.share()?;
            Ok(Some(Obj::One(cell)))
        }
        Arg::Var(n) => known_at(results, *n),
    }
}

/// The values of arguments among the results of instructions by their numbers, if all are known.
pub fn known_args(
    alloc: Global,
    results: &[Option<Obj>],
    args: &[Arg],
) -> Result<Option<Vec<Obj>>, Memory>
    ensures { IfOk result (λ found. option_map (λ v. values_of v.items) found ≡ arg_values (known_of results.now) args.now) }
{
    // Nothing is allocated where the first argument isn't known, as with most that wait.
    let mut found = Vec::new(alloc);
    let mut rest = args;
    'parts: while let [arg, more @ ..] = rest {
        let Some(value) = known_arg(results, arg)? else {
            return Ok(None);
        };
        found.push(value)?;
        rest = more;
    }
    Ok(Some(found))
}
