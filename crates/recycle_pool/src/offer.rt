//! What is checked of an offer before there is room for it.
ghost use Rattle.std.specs.Prelude.{◌≡◌, ◌<◌, ◌^◌};
ghost use Rattle.pool_policy.specs.Keyed.{class_of};
ghost use Rattle.pool_policy.specs.Admits.{is_other_version, new_entry as entry_of, offer_bytes, stated_bytes};
ghost use Rattle.recycle_pool.specs.Answers.{offer_in};

use bat_core::Shared;
use cell_core::Op;
use lineage_key::Key;
use pool_policy::{PoolEntry, Who};
use score_hook::Stats;

/// A result that is to be admitted.
#[derive(Drop)]
pub struct Offered {
    /// Its key.
    pub key: Key,
    /// Its value.
    pub value: Shared,
    /// The stated work of its instruction, below 2^62.
    pub work: u64,
    /// The present version of its column, where it is a bind.
    pub present: u64,
}

/// The stated bytes of a result.
pub(crate) fn bytes_of(key: &Key, value: &Shared) -> u64
    ensures bytes { result ≡ stated_bytes key.now value.now }
    ensures small { result < 2 ^ 62 }
{
    if key.is_bind() {
        64
    } else {
        value.bat().bytes()
    }
}

/// Whether the key is a bind of another version than the present one.
pub(crate) fn is_stale(key: &Key, present: u64) -> bool
    ensures { result ≡ is_other_version key.now present }
{
    key.is_bind() && key.version != present
}

/// The class of an operator.
fn class(op: Op) -> u32
    ensures { result ≡ class_of op }
{
    op as u32
}

/// The entry of an offer.
pub(crate) fn new_entry(
    id: u64,
    shape: u32,
    offered: Offered,
    bytes: u64,
    who: Who,
    now: u64,
) -> PoolEntry
    requires session { who.session < 17 }
    requires bytes { bytes ≡ offer_bytes (offer_in offered) }
    ensures { result ≡ entry_of who now id shape (offer_in offered) }
{
    let mut pins = [false; 17];
    pins[who.session as usize] = true;
    PoolEntry {
        id,
        bytes,
        stats: Stats {
            class: class(offered.key.op),
            work: offered.work,
            reuses: 0,
            others: 0,
            admitted_at: now,
            used_at: now,
        },
        key: offered.key,
        value: offered.value,
        by: who,
        shape,
        is_paid: false,
        is_foreign: false,
        pins,
    }
}
