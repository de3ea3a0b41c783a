//! The arguments of touched entries, as far as they came back or aren't touched.
ghost use Rattle.std.specs.Prelude.{◌≡◌, IfOk, map};
ghost use Rattle.std.specs.Option.{option_map};
ghost use Rattle.cell_core.specs.Calc.{all_or_none};
ghost use Rattle.pool_policy.specs.Keyed.{entry_of_id};
ghost use Rattle.pool_policy.specs.Writes.{return_of};
ghost use Rattle.pool_policy.specs.Writes.Source.{Grown as GrownSource, Same as SameSource};
ghost use Rattle.update_propagate.specs.Views.{returns_in, source_at, source_in};

use crate::back::{Back, find_back};
use crate::write::Write;
use bat_core::Shared;
use cell_core::{Cell, Memory};
use lineage_key::KeyArg;
use pool_policy::{PoolEntry, is_among, place_of_id};
use std::alloc::Global;

/// An argument: a constant, a value that isn't touched, or an entry that came back.
#[derive(Clone, Copy)]
pub(crate) enum ArgSource<'a> {
    Plain(&'a Cell),
    Same(&'a Shared),
    Grown(&'a Back<'a>),
}

/// The entry with an id as an argument, where it came back.
fn grown_of<'a>(backs: &'a [Back<'a>], id: u64) -> Option<ArgSource<'a>>
    ensures { option_map source_in result ≡ option_map GrownSource (return_of (returns_in backs.entry.now) id) }
{
    match find_back(backs, id) {
        None => None,
        Some(back) => Some(ArgSource::Grown(back)),
    }
}

/// The value of the entry with an id as an argument.
fn same_of<'a>(entries: &'a [PoolEntry], id: u64) -> Option<ArgSource<'a>>
    ensures { option_map source_in result ≡ option_map (λ e. SameSource e.value) (entry_of_id id entries.entry.now) }
{
    match place_of_id(entries, id) {
        None => None,
        Some(place) => Some(ArgSource::Same(&entries[place].value)),
    }
}

/// An argument of a touched entry; none where it didn't come back.
fn source_of<'a>(write: &Write<'a>, backs: &'a [Back<'a>], arg: &'a KeyArg) -> Option<ArgSource<'a>>
    ensures { option_map source_in result ≡ source_at write.entry.now (returns_in backs.entry.now) arg.entry.now }
{
    match arg {
        KeyArg::Const(cell) => Some(ArgSource::Plain(cell)),
        KeyArg::Id(id) => {
            if is_among(write.ids, *id) {
                grown_of(backs, *id)
            } else {
                same_of(write.entries, *id)
            }
        }
    }
}

/// The arguments of a touched entry; none where one of them didn't come back.
pub(crate) fn sources_of<'a>(
    alloc: Global,
    write: &Write<'a>,
    backs: &'a [Back<'a>],
    args: &'a [KeyArg],
) -> Result<Option<Vec<ArgSource<'a>>>, Memory>
    ensures { IfOk result (λ found. option_map (λ sources. map source_in sources.items) found ≡ all_or_none (map (source_at write.entry.now (returns_in backs.entry.now)) args.entry.now)) }
{
    let mut sources = Vec::with_capacity(alloc, args.len())?;
    let mut rest = args;
    'arguments: while let [arg, more @ ..] = rest {
        match source_of(write, backs, arg) {
            None => return Ok(None),
            Some(source) => sources.push(source)?,
        }
        rest = more;
    }
    Ok(Some(sources))
}
