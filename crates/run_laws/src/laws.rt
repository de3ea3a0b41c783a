//! The laws of whole logs. The calls compute nothing.
ghost use Rattle.run_laws.specs.Laws.{OneLog, SeesOwn};

use read_laws::one_reading;

/// In an ordered log the commits that a statement meets include all that its session had met or committed
/// by its earlier statements.
pub fn sees_own()
    ensures { SeesOwn }
{}

/// Options, scripts and schedule have at most one log, and with the names at most one printed text.
pub fn one_log()
    ensures { OneLog }
{
    one_reading();
}
