//! The places of entries, by their ids, which rise; and the parents that aren't there.
ghost use Rattle.std.specs.Prelude.{◌≡◌, ◌<◌, IfSome, length};
ghost use Rattle.std.specs.List.{filter_map, find, slice_get};
ghost use Rattle.std.specs.Option.{option_and_then};
ghost use Rattle.lineage_key.specs.Parents.{id_in, parents_of};
ghost use Rattle.pool_policy.specs.Keyed.{entry_of_id, is_missing, is_pooled};
ghost use Rattle.pool_entries.specs.Usable.{HaveRisingIds};

use lineage_key::{Key, KeyArg};
use pool_policy::PoolEntry;

/// The place of the entry with this id, found by halves.
pub fn place_by_id(entries: &[PoolEntry], id: u64) -> Option<usize>
    requires { HaveRisingIds entries.now }
    ensures found { option_and_then (λ p. slice_get entries.now p) result ≡ entry_of_id id entries.now }
    ensures within { IfSome result (λ p. p < length entries.now) }
{
    let mut low = 0;
    let mut high = entries.len();
    'halves: while low < high {
        let middle = low + (high - low) / 2;
        let there = entries[middle].id;
        if there == id {
            return Some(middle);
        }
        if there < id {
            low = middle + 1;
        } else {
            high = middle;
        }
    }
    None
}

/// The first parent of the key that isn't pooled.
pub fn first_missing(entries: &[PoolEntry], key: &Key) -> Option<u64>
    requires { HaveRisingIds entries.now }
    ensures { result ≡ find (is_missing entries.now) (parents_of key.now) }
{
    missing_among(entries, key.args.as_slice())
}

/// The first of the ids in these arguments that isn't pooled.
fn missing_among(entries: &[PoolEntry], args: &[KeyArg]) -> Option<u64>
    requires { HaveRisingIds entries.now }
    ensures { result ≡ find (is_missing entries.now) (filter_map id_in args.now) }
{
    let mut rest = args;
    'arguments: while let [arg, more @ ..] = rest {
        if let KeyArg::Id(id) = arg {
            if !is_there(entries, *id) {
                return Some(*id);
            }
        }
        rest = more;
    }
    None
}

/// Whether an entry has this id.
fn is_there(entries: &[PoolEntry], id: u64) -> bool
    requires { HaveRisingIds entries.now }
    ensures { result ≡ is_pooled entries.now id }
{
    place_by_id(entries, id).is_some()
}
