//! Calculations over what follows values of one length.
ghost use Rattle.std.specs.Prelude.{◌≡◌, ◌+◌, ◌∷◌, [], IfOk, IfSome, map};
ghost use Rattle.cell_core.specs.declared.form.Form.TheVariants as form;
ghost use Rattle.cell_core.specs.Forms.{form_of};
ghost use Rattle.cell_core.specs.Operators.{work_of};
ghost use Rattle.reuse_laws.specs.Grown.{HasBat};
ghost use Rattle.bat_core.specs.Objects.{value_of};
ghost use Rattle.pool_policy.specs.Writes.{delta_of, delta_work, of_calculation, of_single, of_two};
ghost use Rattle.pool_policy.specs.Writes.Growth.{Runs};
ghost use Rattle.update_propagate.specs.Views.{source_in, value_in, work_in};

use crate::delta::Delta;
use crate::forms::{pair_form, single_form};
use crate::source::ArgSource;
use bat_calc::{over_one, over_two};
use bat_core::Obj;
use cell_core::{Memory, Op, RunError, Steps};
use std::alloc::Global;
use std::sync::ledger::Ledger;

/// What follows the result of a calculation, over what follows its two values, of which one is a
/// BAT.
fn delta_of_two<L: Ledger>(
    alloc: Global,
    op: Op,
    x: &Obj,
    y: &Obj,
    steps: &mut Steps<L>,
) -> Result<Option<Delta>, Memory>
    requires op { form_of op ≡ form.TwoCells }
    requires some { HasBat (value_of x.now ∷ value_of y.now ∷ []) }
    ensures value { IfOk result (λ found. value_in found ≡ delta_of op (Runs (value_of x.now ∷ value_of y.now ∷ []))) }
    ensures work { IfOk result (λ found. IfSome found (λ delta. delta.work ≡ work_of op (value_of x.now ∷ value_of y.now ∷ []))) }
    ensures counted { IfOk result (λ found. steps.new ≡ steps.old + work_in found) }
{
    match over_two(alloc, op, x, y, steps) {
        Ok(Obj::Bat(value)) => {
            let work = x.pair_count() + y.pair_count() + value.bat().len();
            Ok(Some(Delta { value, work }))
        }
        Ok(Obj::One(_)) => unreachable!(),
        Err(RunError::Overflow) => Ok(None),
        Err(RunError::Memory) => Err(Memory),
    }
}

/// What follows the result of a calculation, over what follows its value, which is a BAT.
fn delta_of_one<L: Ledger>(
    alloc: Global,
    op: Op,
    x: &Obj,
    steps: &mut Steps<L>,
) -> Result<Option<Delta>, Memory>
    requires op { form_of op ≡ form.OneCell }
    requires some { HasBat (value_of x.now ∷ []) }
    ensures value { IfOk result (λ found. value_in found ≡ delta_of op (Runs (value_of x.now ∷ []))) }
    ensures work { IfOk result (λ found. IfSome found (λ delta. delta.work ≡ work_of op (value_of x.now ∷ []))) }
    ensures counted { IfOk result (λ found. steps.new ≡ steps.old + work_in found) }
{
    match over_one(alloc, op, x, steps) {
        Ok(Obj::Bat(value)) => {
            let work = x.pair_count() + value.bat().len();
            Ok(Some(Delta { value, work }))
        }
        Ok(Obj::One(_)) => unreachable!(),
        Err(RunError::Overflow) => Ok(None),
        Err(RunError::Memory) => Err(Memory),
    }
}

/// What follows the result of a calculation of two values.
fn grow_pair<L: Ledger>(
    alloc: Global,
    op: Op,
    x: &ArgSource<'_>,
    y: &ArgSource<'_>,
    steps: &mut Steps<L>,
) -> Result<Option<Delta>, Memory>
    requires { form_of op ≡ form.TwoCells }
    ensures value { IfOk result (λ found. value_in found ≡ delta_of op (of_calculation (source_in x.now ∷ source_in y.now ∷ []))) }
    ensures work { IfOk result (λ found. IfSome found (λ delta. delta.work ≡ delta_work op (of_calculation (source_in x.now ∷ source_in y.now ∷ [])))) }
    ensures counted { IfOk result (λ found. steps.new ≡ steps.old + work_in found) }
{
    match pair_form(x, y)? {
        None => Ok(None),
        Some((a, b)) => delta_of_two(alloc, op, &a, &b, steps),
    }
}

/// What follows the result of a calculation of one value.
fn grow_single<L: Ledger>(
    alloc: Global,
    op: Op,
    x: &ArgSource<'_>,
    steps: &mut Steps<L>,
) -> Result<Option<Delta>, Memory>
    requires { form_of op ≡ form.OneCell }
    ensures value { IfOk result (λ found. value_in found ≡ delta_of op (of_calculation (source_in x.now ∷ []))) }
    ensures work { IfOk result (λ found. IfSome found (λ delta. delta.work ≡ delta_work op (of_calculation (source_in x.now ∷ [])))) }
    ensures counted { IfOk result (λ found. steps.new ≡ steps.old + work_in found) }
{
    match single_form(x)? {
        None => Ok(None),
        Some(a) => delta_of_one(alloc, op, &a, steps),
    }
}

/// What follows the result of a calculation of two arguments.
pub(crate) fn grow_two<L: Ledger>(
    alloc: Global,
    op: Op,
    sources: &[ArgSource<'_>],
    steps: &mut Steps<L>,
) -> Result<Option<Delta>, Memory>
    requires { form_of op ≡ form.TwoCells }
    ensures value { IfOk result (λ found. value_in found ≡ delta_of op (of_two (map source_in sources.now))) }
    ensures work { IfOk result (λ found. IfSome found (λ delta. delta.work ≡ delta_work op (of_two (map source_in sources.now)))) }
    ensures counted { IfOk result (λ found. steps.new ≡ steps.old + work_in found) }
{
    match sources {
        [x, y] => grow_pair(alloc, op, x, y, steps),
        _ => Ok(None),
    }
}

/// What follows the result of a calculation of one argument.
pub(crate) fn grow_one<L: Ledger>(
    alloc: Global,
    op: Op,
    sources: &[ArgSource<'_>],
    steps: &mut Steps<L>,
) -> Result<Option<Delta>, Memory>
    requires { form_of op ≡ form.OneCell }
    ensures value { IfOk result (λ found. value_in found ≡ delta_of op (of_single (map source_in sources.now))) }
    ensures work { IfOk result (λ found. IfSome found (λ delta. delta.work ≡ delta_work op (of_single (map source_in sources.now)))) }
    ensures counted { IfOk result (λ found. steps.new ≡ steps.old + work_in found) }
{
    match sources {
        [x] => grow_single(alloc, op, x, steps),
        _ => Ok(None),
    }
}
