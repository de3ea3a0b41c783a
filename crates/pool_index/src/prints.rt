ghost use Rattle.std.specs.Prelude.{◌≡◌, ◌+◌, ◌<◌, ◌≤◌, ◌==◌, ℕ, [], IfOk, IsTrue, Some, if◌then◌else◌, length, nat_le};
ghost use Rattle.pool_index.specs.Named.{id_under};

use cell_core::Memory;
use indexmap::IndexMap;
use std::alloc::Global;
use std::marker::Model;

/// Ids under prints, one under each.
#[derive(Drop)]
pub struct Prints {
    ids: IndexMap<u64, u64>,
}

impl Model for Prints {
    ghost use Rattle.pool_index.specs.Named.{PrintsView, view_of};

    ghost Value = { PrintsView };

    ghost view = { λ p. view_of p.ids };
}

impl Prints {
    /// No prints yet, and room for so many. No other call takes memory.
    pub fn new(alloc: Global, room: usize) -> Result<Prints, Memory>
        ensures names { IfOk result (λ prints. prints.names ≡ []) }
        ensures room { IfOk result (λ prints. room ≤ prints.room) }
    {
        let ids = IndexMap::with_capacity(alloc, room)?;
        Ok(Prints { ids })
    }

    /// The id under a print.
    pub fn get(&self, print: u64) -> Option<u64>
        ensures { result ≡ id_under self.now print }
    {
        self.ids.get(&print).copied()
    }

    /// Whether there is no room for another print.
    pub fn is_full(&self) -> bool
        ensures { result ≡ nat_le self.now.room (length self.now.names) }
    {
        self.ids.capacity() <= self.ids.len()
    }

    /// Puts an id under a print, in place of one that is there.
    pub fn put(&mut self, print: u64, id: u64)
        requires { length self.old.names < self.old.room }
        ensures names { (other : ℕ) → id_under self.new other ≡ (if print == other then Some id else id_under self.old other) }
        ensures count { length self.new.names ≤ length self.old.names + 1 }
        ensures room { self.old.room ≤ self.new.room }
    {
        match self.ids.get_mut(&print) {
            Some(old) => *old = id,
            None => {
                if self.ids.insert(print, id).is_err() {
                    unreachable!();
                }
            }
        }
    }

    /// Removes all ids, and keeps the room.
    pub fn clear(&mut self)
        ensures names { self.new.names ≡ [] }
        ensures room { self.old.room ≤ self.new.room }
    {
        self.ids.clear();
    }
}
