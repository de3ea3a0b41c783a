//! Finds entries by key or by id, in one pass over all.
ghost use Rattle.std.specs.Prelude.{◌≡◌, ◌<◌, IfSome, length};
ghost use Rattle.std.specs.List.{slice_get};
ghost use Rattle.std.specs.Option.{option_and_then};
ghost use Rattle.pool_policy.specs.Keyed.{entry_of_id, entry_of_key};

use crate::entry::PoolEntry;
use lineage_key::Key;

/// The place of the first entry with this key.
pub fn place_of_key(entries: &[PoolEntry], key: &Key) -> Option<usize>
    ensures found { option_and_then (λ p. slice_get entries.now p) result ≡ entry_of_key key.now entries.now }
    ensures within { IfSome result (λ p. p < length entries.now) }
{
    let mut rest = entries;
    let mut place = 0;
    'entries: while let [entry, more @ ..] = rest {
        if entry.key == *key {
            return Some(place);
        }
        rest = more;
        place += 1;
    }
    None
}

/// The place of the first entry with this id.
pub fn place_of_id(entries: &[PoolEntry], id: u64) -> Option<usize>
    ensures found { option_and_then (λ p. slice_get entries.now p) result ≡ entry_of_id id entries.now }
    ensures within { IfSome result (λ p. p < length entries.now) }
{
    let mut rest = entries;
    let mut place = 0;
    'entries: while let [entry, more @ ..] = rest {
        if entry.id == id {
            return Some(place);
        }
        rest = more;
        place += 1;
    }
    None
}
