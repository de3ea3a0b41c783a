//! The laws of this crate. The calls compute nothing.
ghost use Rattle.query_keys.specs.Laws.{FoundServes, GivenAreWorth, InstrsRun, MarkedAreBats, OffersFit};

/// Each instruction of a plan without a fault has its value by those that its arguments name, which
/// are before it and fit it.
pub fn instrs_run()
    ensures { InstrsRun }
{}

/// The value of a marked instruction is a BAT.
pub fn marked_are_bats()
    ensures { MarkedAreBats }
{}

/// What a look finds for a marked instruction serves it: as it is, by its bounds, or piece by
/// piece.
pub fn found_serves()
    ensures { FoundServes }
{}

/// What is computed for a marked instruction may be offered to the pool.
pub fn offers_fit()
    ensures { OffersFit }
{}

/// The id that an admission returns is worth the value that was offered.
pub fn given_are_worth()
    ensures { GivenAreWorth }
{}
