ghost use Rattle.std.specs.Prelude.{◌≡◌};
ghost use Rattle.std.specs.Option.{option_copied, option_map};
ghost use Rattle.pool_policy.specs.Writes.{return_of};
ghost use Rattle.update_propagate.specs.Views.{return_in, returns_in};

use bat_core::Shared;
use pool_policy::PoolEntry;

/// An entry that comes back.
#[derive(Drop)]
pub(crate) struct Back<'a> {
    /// The entry before the write.
    pub(crate) old: &'a PoolEntry,
    /// The entry after the write.
    pub(crate) new: PoolEntry,
    /// What follows its old value.
    pub(crate) delta: Shared,
    /// The work of the operator that was run for it.
    pub(crate) work: u64,
}

/// The one that had this id.
pub(crate) fn find_back<'a>(backs: &'a [Back<'a>], id: u64) -> Option<&'a Back<'a>>
    ensures { option_map return_in (option_copied result) ≡ return_of (returns_in backs.entry.now) id }
{
    let mut rest = backs;
    'backs: while let [back, more @ ..] = rest {
        if back.old.id == id {
            return Some(back);
        }
        rest = more;
    }
    None
}
