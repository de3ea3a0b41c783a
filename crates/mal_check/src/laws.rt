//! Laws about plans without a fault. The calls compute nothing.
ghost use Rattle.mal_check.specs.Pointwise.{CheckedInstrsFit, OthersHaveValues};
ghost use Rattle.mal_check.specs.Runnable.{CheckedPlansRun};

/// A plan without a fault can be run over every database whose columns are of the kinds that the
/// plan binds: each instruction that is reached has arguments that fit it. A column that doesn't
/// exist is empty, and fits.
pub fn checked_plans_run()
    ensures { CheckedPlansRun }
{}

/// The same instruction by instruction, whether or not the others have values: the value of each is
/// that of its operator on the values of its arguments; where these exist, they fit; and where it
/// has a value, that is of the type which the check finds for it.
pub fn checked_instrs_fit()
    ensures { CheckedInstrsFit }
{}

/// An operator other than plus, minus and times has a value on arguments that fit it.
pub fn others_have_values()
    ensures { OthersHaveValues }
{}
