//! The index by which the entry with a key is found without a search of all: the ids of entries
//! under the prints of their keys.
ghost use Rattle.std.specs.Prelude.{◌≡◌, ◌+◌, ◌*◌, ◌<◌, ◌≤◌, ◌++◌, ◌∷◌, ◌&&◌, [], IfOk, IfSome, false, length, not, true};
ghost use Rattle.std.specs.List.{AllByRecursion, slice_get};
ghost use Rattle.std.specs.Option.{is_some, option_and_then, option_map_or};
ghost use Rattle.lineage_key.specs.Same.{same_key};
ghost use Rattle.pool_index.specs.Named.{id_under};
ghost use Rattle.pool_policy.specs.Keyed.{entry_of_id, entry_of_key};
ghost use Rattle.pool_entries.specs.Usable.{HaveRisingIds};
ghost use Rattle.recycle_pool.specs.Named.{IsNamed};

use cell_core::Memory;
use lineage_key::Key;
use pool_entries::place_by_id;
use pool_index::{Prints, print_of};
use pool_policy::{PoolEntry, place_of_id, place_of_key};
use std::alloc::Global;

/// The ids of entries under the prints of their keys. Ids of entries that left may be among them.
pub(crate) struct Keys {
    pub(crate) prints: Prints,
    /// Whether no two entries had one print; where they had, each entry is read.
    pub(crate) is_sure: bool,
}

// By a call of its own, so that proofs needn't go through its forms where one is dropped.
impl Drop for Keys {
    fn drop(self) {
        let Keys {
            prints: _,
            is_sure: _,
        } = self;
    }
}

impl Keys {
    /// No keys yet, and room for twice as many as there are places.
    pub(crate) fn new(alloc: Global, places: usize) -> Result<Keys, Memory>
        requires { places ≤ 1024 }
        ensures named { IfOk result (λ keys. IsNamed keys []) }
        ensures room { IfOk result (λ keys. 2 * places ≤ keys.prints.room) }
    {
        let prints = Prints::new(alloc, 2 * places)?;
        Ok(Keys {
            prints,
            is_sure: true,
        })
    }

    /// The place of the entry with a key.
    pub(crate) fn place(&self, entries: &[PoolEntry], key: &Key) -> Option<usize>
        requires named { IsNamed self.now entries.now }
        requires rising { HaveRisingIds entries.now }
        ensures found { option_and_then (λ p. slice_get entries.now p) result ≡ entry_of_key key.now entries.now }
        ensures within { IfSome result (λ p. p < length entries.now) }
    {
        if !self.is_sure {
            return place_of_key(entries, key);
        }
        match self.prints.get(print_of(key)) {
            None => None,
            Some(id) => place_with(entries, id, key),
        }
    }

    /// Adds the id of an entry that comes after these.
    pub(crate) fn add(&mut self, entries: &[PoolEntry], entry: &PoolEntry)
        requires named { IsNamed self.old entries.now }
        requires room { length entries.now < self.old.prints.room }
        ensures named { IsNamed self.new (entries.now ++ entry.now ∷ []) }
        ensures room { self.old.prints.room ≤ self.new.prints.room }
    {
        self.make_place(entries);
        self.put(entries, entry);
    }

    /// Makes room for one more id.
    fn make_place(&mut self, entries: &[PoolEntry])
        requires named { IsNamed self.old entries.now }
        requires room { length entries.now < self.old.prints.room }
        ensures named { IsNamed self.new entries.now }
        ensures place { length self.new.prints.names < self.new.prints.room }
        ensures room { self.old.prints.room ≤ self.new.prints.room }
    {
        if self.prints.is_full() {
            self.renew(entries);
        }
    }

    /// Replaces all ids by those of these entries.
    pub(crate) fn renew(&mut self, entries: &[PoolEntry])
        requires { length entries.now ≤ self.old.prints.room }
        ensures named { IsNamed self.new entries.now }
        ensures count { length self.new.prints.names ≤ length entries.now }
        ensures room { self.old.prints.room ≤ self.new.prints.room }
    {
        self.prints.clear();
        self.is_sure = true;
        'entries: for i in 0..entries.len() {
            self.put(&entries[..i], &entries[i]);
        }
    }

    /// Adds the id of an entry that comes after these, where there is room.
    fn put(&mut self, entries: &[PoolEntry], entry: &PoolEntry)
        requires { length self.old.prints.names < self.old.prints.room }
        ensures named { IsNamed self.old entries.now → IsNamed self.new (entries.now ++ entry.now ∷ []) }
        ensures count { length self.new.prints.names ≤ length self.old.prints.names + 1 }
        ensures room { self.old.prints.room ≤ self.new.prints.room }
    {
        let print = print_of(&entry.key);
        self.is_sure = self.stays_sure(entries, print);
        self.prints.put(print, entry.id);
    }

    /// Whether the prints are still sure after another entry with this print.
    fn stays_sure(&self, entries: &[PoolEntry], print: u64) -> bool
        ensures { result ≡ (self.now.is_sure && not (option_map_or (λ id. is_some (entry_of_id id entries.now)) (id_under self.now.prints print) false)) }
    {
        self.is_sure && !self.is_taken(entries, print)
    }

    /// Whether the id of one of these entries is under a print.
    fn is_taken(&self, entries: &[PoolEntry], print: u64) -> bool
        ensures { result ≡ option_map_or (λ id. is_some (entry_of_id id entries.now)) (id_under self.now.prints print) false }
    {
        match self.prints.get(print) {
            None => false,
            Some(id) => place_of_id(entries, id).is_some(),
        }
    }
}

/// The place of the entry with a key, where none but the one with this id may have it.
fn place_with(entries: &[PoolEntry], id: u64, key: &Key) -> Option<usize>
    requires rising { HaveRisingIds entries.now }
    requires only { AllByRecursion (λ e. same_key e.key key.now ≡ true → e.id ≡ id) entries.now }
    ensures found { option_and_then (λ p. slice_get entries.now p) result ≡ entry_of_key key.now entries.now }
    ensures within { IfSome result (λ p. p < length entries.now) }
{
    match place_by_id(entries, id) {
        None => None,
        Some(place) => {
            if entries[place].key == *key {
                Some(place)
            } else {
                place_of_key(entries, key)
            }
        }
    }
}
