ghost use Rattle.std.specs.Prelude.{◌≡◌, ◌<◌, ◌≤◌, ◌^◌, IfOk, Some, length};
ghost use Rattle.std.specs.List.{slice_get};
ghost use Rattle.pool_policy.specs.Pool.{empty_pool, pool_bytes};
ghost use Rattle.pool_policy.specs.Admits.{release_of};

use crate::entries::Entries;
use crate::lists::Lists;
use bat_core::Shared;
use cell_core::Memory;
use lineage_key::{Key, Shape};
use pool_entries::unpin_all;
use pool_policy::{PoolEntry, PoolOptions};
use std::alloc::Global;
use std::marker::Model;

/// Kept results. Contracts see them as the state of the policy.
pub struct Pool {
    pub(crate) options: PoolOptions,
    pub(crate) entries: Entries,
    pub(crate) next: u64,
    pub(crate) moment: u64,
    pub(crate) shapes: Vec<Shape>,
    pub(crate) lists: Lists,
}

// By a call of its own, so that proofs needn't go through its forms where one is dropped.
impl Drop for Pool {
    fn drop(self) {
        let Pool {
            options: _,
            entries: _,
            next: _,
            moment: _,
            shapes: _,
            lists: _,
        } = self;
    }
}

impl Model for Pool {
    ghost use Rattle.pool_policy.specs.Pool.{PoolState};

    ghost Value = { PoolState };

    ghost use Rattle.recycle_pool.specs.Views.{pool_shown, IsKept};

    ghost view = { pool_shown };

    ghost invariant = { IsKept };
}

impl Pool {
    /// An empty pool, with room for all its places.
    pub fn new(alloc: Global, options: PoolOptions) -> Result<Pool, Memory>
        requires places { options.places ≤ 1024 }
        requires budget { options.budget ≤ 2 ^ 40 }
        ensures { IfOk result (λ pool. pool ≡ empty_pool options) }
    {
        let entries = Entries::new(alloc, options.places, options.credits)?;
        let lists = Lists::new(alloc, options.places as usize)?;
        Ok(Pool {
            options,
            entries,
            next: 1,
            moment: 0,
            shapes: Vec::new(alloc),
            lists,
        })
    }

    /// Ends a statement: the session holds no entry any more. Takes no memory.
    pub fn release(&mut self, session: u32)
        requires { session < 17 }
        ensures { self.new ≡ release_of session self.old }
    {
        unpin_all(&mut self.entries.all, session);
    }

    /// How many entries there are, and how many stated bytes they have. Takes no memory.
    pub fn totals(&self) -> (u64, u64)
        ensures entries { result.0 ≡ length self.now.entries }
        ensures bytes { result.1 ≡ pool_bytes self.now.entries }
    {
        (self.entries.all.len() as u64, self.entries.bytes)
    }

    /// The entries, in the order of their ids. Takes no memory.
    pub fn entries(&self) -> &[PoolEntry]
        ensures entries { result.now ≡ self.now.entries }
        ensures few { length result.now ≤ 1024 }
    {
        self.entries.all.as_slice()
    }

    /// The id that the next entry gets. Takes no memory.
    pub fn next_id(&self) -> u64
        ensures id { result ≡ self.now.next }
        ensures few { result < 2 ^ 62 }
    {
        self.next
    }

    /// The entry at a place in the order of ids, counted from 0. Takes no memory.
    pub fn entry(&self, place: u64) -> &PoolEntry
        requires { place < length self.now.entries }
        ensures { slice_get self.now.entries place ≡ Some result.now }
    {
        &self.entries.all[place as usize]
    }
}
