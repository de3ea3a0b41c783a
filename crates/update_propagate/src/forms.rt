//! Which arguments have an append form, and what the operator is run over for it.
ghost use Rattle.std.specs.Prelude.{◌≡◌, ◌∷◌, [], IfOk, IfSome, map};
ghost use Rattle.std.specs.Option.{option_copied, option_map_or};
ghost use Rattle.cell_core.specs.declared.operator.Value.TheVariants.{Bat as BatValue, One as OneValue};
ghost use Rattle.bat_core.specs.Objects.{value_of};
ghost use Rattle.pool_policy.specs.Writes.{of_calculation, of_mark, of_projection, of_selection, of_sole};
ghost use Rattle.pool_policy.specs.Writes.Growth.{NoForm, Runs};
ghost use Rattle.reuse_laws.specs.Grown.{HasBat, raised};
ghost use Rattle.update_propagate.specs.Views.{source_in};

use crate::back::Back;
use crate::source::ArgSource;
use bat_core::{Obj, Shared};
use cell_core::{Cell, Memory};

/// What follows an argument that came back.
fn delta_in<'a>(source: &'a ArgSource<'a>) -> Option<&'a Shared>
    ensures { of_sole (source_in source.entry.now ∷ []) ≡ option_map_or (λ delta. Runs (BatValue delta ∷ [])) (option_copied result) NoForm }
{
    match source {
        ArgSource::Grown(back) => Some(&back.delta),
        ArgSource::Plain(_) | ArgSource::Same(_) => None,
    }
}

/// What follows a BAT that came back, alone.
pub(crate) fn sole_form<'a>(sources: &'a [ArgSource<'a>]) -> Option<&'a Shared>
    ensures { of_sole (map source_in sources.entry.now) ≡ option_map_or (λ delta. Runs (BatValue delta ∷ [])) (option_copied result) NoForm }
{
    match sources {
        [x] => delta_in(x),
        _ => None,
    }
}

/// What a range is selected from.
#[derive(Clone, Copy)]
pub(crate) struct RangeArgs<'a> {
    pub(crate) delta: &'a Shared,
    pub(crate) low: &'a Cell,
    pub(crate) high: &'a Cell,
    pub(crate) li: &'a Cell,
    pub(crate) hi: &'a Cell,
}

/// What follows a BAT that came back, in a range of these.
fn range_in<'a>(
    b: &'a ArgSource<'a>,
    low: &'a ArgSource<'a>,
    high: &'a ArgSource<'a>,
    li: &'a ArgSource<'a>,
    hi: &'a ArgSource<'a>,
) -> Option<RangeArgs<'a>>
    ensures { of_selection (source_in b.entry.now ∷ source_in low.entry.now ∷ source_in high.entry.now ∷ source_in li.entry.now ∷ source_in hi.entry.now ∷ []) ≡ option_map_or (λ r. Runs (BatValue r.delta.now ∷ OneValue r.low.now ∷ OneValue r.high.now ∷ OneValue r.li.now ∷ OneValue r.hi.now ∷ [])) result NoForm }
{
    match (b, low, high, li, hi) {
        (
            ArgSource::Grown(back),
            ArgSource::Plain(low),
            ArgSource::Plain(high),
            ArgSource::Plain(li),
            ArgSource::Plain(hi),
        ) => {
            Some(RangeArgs {
                delta: &back.delta,
                low,
                high,
                li,
                hi,
            })
        }
        _ => None,
    }
}

/// What follows a BAT that came back, in a range.
pub(crate) fn range_form<'a>(sources: &'a [ArgSource<'a>]) -> Option<RangeArgs<'a>>
    ensures { of_selection (map source_in sources.entry.now) ≡ option_map_or (λ r. Runs (BatValue r.delta.now ∷ OneValue r.low.now ∷ OneValue r.high.now ∷ OneValue r.li.now ∷ OneValue r.hi.now ∷ [])) result NoForm }
{
    match sources {
        [b, low, high, li, hi] => range_in(b, low, high, li, hi),
        _ => None,
    }
}

/// What follows a BAT that came back, beside this cell.
fn projection_in<'a>(
    b: &'a ArgSource<'a>,
    cell: &'a ArgSource<'a>,
) -> Option<(&'a Shared, &'a Cell)>
    ensures { of_projection (source_in b.entry.now ∷ source_in cell.entry.now ∷ []) ≡ option_map_or (λ p. Runs (BatValue p.0.now ∷ OneValue p.1.now ∷ [])) result NoForm }
{
    match (b, cell) {
        (ArgSource::Grown(back), ArgSource::Plain(cell)) => Some((&back.delta, cell)),
        _ => None,
    }
}

/// What follows a BAT that came back, beside a cell.
pub(crate) fn projection_form<'a>(sources: &'a [ArgSource<'a>]) -> Option<(&'a Shared, &'a Cell)>
    ensures { of_projection (map source_in sources.entry.now) ≡ option_map_or (λ p. Runs (BatValue p.0.now ∷ OneValue p.1.now ∷ [])) result NoForm }
{
    match sources {
        [b, cell] => projection_in(b, cell),
        _ => None,
    }
}

/// The base of a mark that goes on after so many pairs.
fn raise(base: &Cell, count: u64) -> Result<Cell, Memory>
    ensures { IfOk result (λ cell. cell ≡ raised base.now count) }
{
    match base {
        Cell::Oid(oid) => Ok(Cell::Oid(oid.wrapping_add(count))),
        _ => Ok(base.share()?),
    }
}

/// What follows a BAT that came back, and the base from which its mark goes on.
fn mark_in<'a>(
    b: &'a ArgSource<'a>,
    base: &'a ArgSource<'a>,
) -> Result<Option<(&'a Shared, Cell)>, Memory>
    ensures { IfOk result (λ found. of_mark (source_in b.entry.now ∷ source_in base.entry.now ∷ []) ≡ option_map_or (λ p. Runs (BatValue p.0.now ∷ OneValue p.1 ∷ [])) found NoForm) }
{
    match (b, base) {
        (ArgSource::Grown(back), ArgSource::Plain(base)) => {
            let base = raise(base, back.old.value.bat().len())?;
            Ok(Some((&back.delta, base)))
        }
        _ => Ok(None),
    }
}

/// What follows a BAT that came back, and the base from which its mark goes on.
pub(crate) fn mark_form<'a>(
    sources: &'a [ArgSource<'a>],
) -> Result<Option<(&'a Shared, Cell)>, Memory>
    ensures { IfOk result (λ found. of_mark (map source_in sources.entry.now) ≡ option_map_or (λ p. Runs (BatValue p.0.now ∷ OneValue p.1 ∷ [])) found NoForm) }
{
    match sources {
        [b, base] => mark_in(b, base),
        _ => Ok(None),
    }
}

/// What follows two values that had one length, or one of them and a cell.
pub(crate) fn pair_form(x: &ArgSource<'_>, y: &ArgSource<'_>) -> Result<Option<(Obj, Obj)>, Memory>
    ensures bat { IfOk result (λ found. IfSome found (λ p. HasBat (value_of p.0 ∷ value_of p.1 ∷ []))) }
    ensures form { IfOk result (λ found. of_calculation (source_in x.now ∷ source_in y.now ∷ []) ≡ option_map_or (λ p. Runs (value_of p.0 ∷ value_of p.1 ∷ [])) found NoForm) }
{
    match (x, y) {
        (ArgSource::Grown(l), ArgSource::Grown(r)) => {
            if l.old.value.bat().len() == r.old.value.bat().len() {
                Ok(Some((Obj::Bat(l.delta.share()?), Obj::Bat(r.delta.share()?))))
            } else {
                Ok(None)
            }
        }
        (ArgSource::Grown(l), ArgSource::Plain(cell)) => {
            Ok(Some((Obj::Bat(l.delta.share()?), Obj::One(cell.share()?))))
        }
        (ArgSource::Plain(cell), ArgSource::Grown(r)) => {
            Ok(Some((Obj::One(cell.share()?), Obj::Bat(r.delta.share()?))))
        }
        _ => Ok(None),
    }
}

/// What follows a value that came back, alone.
pub(crate) fn single_form(x: &ArgSource<'_>) -> Result<Option<Obj>, Memory>
    ensures bat { IfOk result (λ found. IfSome found (λ o. HasBat (value_of o ∷ []))) }
    ensures form { IfOk result (λ found. of_calculation (source_in x.now ∷ []) ≡ option_map_or (λ o. Runs (value_of o ∷ [])) found NoForm) }
{
    match x {
        ArgSource::Grown(back) => Ok(Some(Obj::Bat(back.delta.share()?))),
        _ => Ok(None),
    }
}
