//! The law of served runs. The call computes nothing.
ghost use Rattle.audit_laws.specs.Laws.{ServedIsHonest};

/// Where a run is served with `--events` and no piece of its scripts reads as an EXPLAIN, its text is
/// honest.
pub fn served_is_honest()
    ensures { ServedIsHonest }
{}
