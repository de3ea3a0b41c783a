//! What operators return for BATs that have grown.
ghost use Rattle.reuse_laws.specs.GrowthLaws.{BatsGrow, CalculationsGrow, JoinsGrow};

/// Selections, reverses, mirrors, projections and marks of a BAT and what follows it.
pub fn bats_grow()
    ensures { BatsGrow }
{}

/// Joins, of which the left side grew, or the right side by rows that no old tail on the left meets.
pub fn joins_grow()
    ensures { JoinsGrow }
{}

/// Calculations over BATs that had one length, whatever each of them grew by.
pub fn calculations_grow()
    ensures { CalculationsGrow }
{}
