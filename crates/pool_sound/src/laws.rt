//! The law of lawful logs. The call computes nothing.
ghost use Rattle.pool_sound.specs.Laws.{PoolsStaySound};

/// Along a lawful log the pool is sound: after each event it is within its bytes and places, has
/// each parent of what is pooled, and each value in it is what its lineage evaluates to over the
/// tables of the versions that it names.
pub fn pools_stay_sound()
    ensures { PoolsStaySound }
{}
