ghost use Rattle.pool_policy.specs.Columns.{ColumnsHold};
ghost use Rattle.pool_policy.specs.Fits.{PoolsFit};
ghost use Rattle.pool_policy.specs.Laws.{AdmissionsKeep, LooksKeep, ReuseIsPlain, ValuesAreWorths};
ghost use Rattle.pool_policy.specs.Versions.{VersionsHold};
ghost use Rattle.pool_policy.specs.WriteLaws.{GrowthsServe, WritesKeep};

/// A pool begins well: ids rise below the next one, keys differ, parents are pooled and older, and
/// bytes and places are within their limits. Each value is its operator over its parents' values,
/// and each shape's credit with what its entries owe is at most the start. A look, the end of a
/// statement and a forget leave it so.
pub fn looks_keep()
    ensures { LooksKeep }
{}

/// An admission leaves it so, where the offered value is its operator over the values of its
/// parents.
pub fn admissions_keep()
    ensures { AdmissionsKeep }
{}

/// Each pooled value is the worth of its id: the value under which the id was assigned. It is its
/// operator over the worths of its parents, and never changes.
pub fn values_are_worths()
    ensures { ValuesAreWorths }
{}

/// What is computed from what a look finds is what the instruction computes: an exact result as it
/// is, a selection from a selection whose range contains it, and the selections of the pieces of a
/// cover, merged by their heads. The lists are equal, order included.
pub fn reuse_is_plain()
    ensures { ReuseIsPlain }
{}

/// An entry that comes back in a write that only adds rows has the value of its operator over its
/// arguments after the write, by work on what follows their old values alone.
pub fn growths_serve()
    ensures { GrowthsServe }
{}

/// A write leaves a pool well: what is touched leaves, what comes back is last under fresh ids, and
/// the last run of evictions always ends within the budget. Pooled values stay worths.
pub fn writes_keep()
    ensures { WritesKeep }
{}

/// Each pooled bind has the present version of its column, before and after each step: a look, the
/// end of a statement, an admission of a bind with the present version, and a write, which moves
/// the versions of the columns that it touches.
pub fn versions_hold()
    ensures { VersionsHold }
{}

/// The value of each pooled bind is its present column, before and after each step, also where it
/// came back in a write with the new rows after the old ones.
pub fn columns_hold()
    ensures { ColumnsHold }
{}

/// A pool of at most 1,024 places and 2^40 bytes meets what the calls below require: few selections
/// of few pairs for the one that finds a cover, and few rows with ids of their own and stats in
/// range for the one that plans evictions.
pub fn pools_fit()
    ensures { PoolsFit }
{}
