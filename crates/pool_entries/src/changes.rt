//! Uses and pins of entries, and their bytes.
ghost use Rattle.std.specs.Prelude.{◌≡◌, ◌<◌, ◌^◌, [], ◌∷◌, map};
ghost use Rattle.std.specs.List.{AllByRecursion};
ghost use Rattle.std.specs.Vec.{vec_capacity};
ghost use Rattle.pool_policy.specs.Pool.{pool_bytes};
ghost use Rattle.pool_policy.specs.Looks.{at_ids, pinned, used};
ghost use Rattle.pool_policy.specs.Admits.{unpinned};
ghost use Rattle.pool_entries.specs.Usable.{CanUse, HaveRisingIds};

use crate::by_id::place_by_id;
use pool_policy::{PoolEntry, Who};

/// The stated bytes of the entries.
pub fn total_bytes(entries: &[PoolEntry]) -> u64
    requires { pool_bytes entries.now < 2 ^ 62 }
    ensures { result ≡ pool_bytes entries.now }
{
    let mut total = 0;
    'entries: for i in 0..entries.len() {
        total += entries[i].bytes;
    }
    total
}

/// Notes a use of the entry with this id.
pub fn use_id(entries: &mut Vec<PoolEntry>, id: u64, who: Who, now: u64)
    requires rising { HaveRisingIds entries.old.items }
    requires usable { AllByRecursion CanUse entries.old.items }
    ensures entries { entries.new.items ≡ at_ids (id ∷ []) (used who now) entries.old.items }
    ensures room { vec_capacity entries.new ≡ vec_capacity entries.old }
{
    match place_by_id(entries.as_slice(), id) {
        None => {}
        Some(place) => entries[place].use_by(who, now),
    }
}

/// Notes that a session holds the entry with this id.
pub fn pin_id(entries: &mut Vec<PoolEntry>, id: u64, who: Who)
    requires session { who.session < 17 }
    requires rising { HaveRisingIds entries.old.items }
    ensures entries { entries.new.items ≡ at_ids (id ∷ []) (pinned who) entries.old.items }
    ensures room { vec_capacity entries.new ≡ vec_capacity entries.old }
{
    match place_by_id(entries.as_slice(), id) {
        None => {}
        Some(place) => entries[place].pin(who),
    }
}

/// Notes that a session no longer holds any entry.
pub fn unpin_all(entries: &mut Vec<PoolEntry>, session: u32)
    requires { session < 17 }
    ensures entries { entries.new.items ≡ map (unpinned session) entries.old.items }
    ensures room { vec_capacity entries.new ≡ vec_capacity entries.old }
{
    'entries: for i in 0..entries.len() {
        entries[i].unpin(session);
    }
}
