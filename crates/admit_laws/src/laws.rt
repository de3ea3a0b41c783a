//! The law of refused admissions. The call computes nothing.
ghost use Rattle.admit_laws.specs.Laws.{RefusalsLeave};

/// A refused admission changes no entry, with its uses and who holds it, nor the next id. A shape
/// that was known before keeps its number and its credit. Where the key is there already, only the
/// moment changes, and its entry is held by the session too.
pub fn refusals_leave()
    ensures { RefusalsLeave }
{}
