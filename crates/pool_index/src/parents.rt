ghost use Rattle.std.specs.Prelude.{◌≡◌, ◌++◌, ◌∷◌, ◌<◌, ◌≤◌, [], IfOk, filter, length, not};
ghost use Rattle.pool_index.specs.Under.{is_in};

use cell_core::Memory;
use std::alloc::Global;
use std::marker::Model;

/// An id and its two parents, 0 where there is none.
#[derive(Clone, Copy)]
pub struct Kin {
    /// The id.
    pub id: u64,
    /// The ids of its first and its second parent.
    pub parents: [u64; 2],
}

/// Ids with their parents, in the order in which they were added. The parents of all are read in
/// one pass over a plain list.
#[derive(Drop)]
pub struct Parents {
    kin: Vec<Kin>,
}

impl Model for Parents {
    ghost use Rattle.pool_index.specs.Beside.{ParentsView, parents_in};

    ghost Value = { ParentsView };

    ghost view = { λ p. parents_in p.kin };
}

impl Parents {
    /// No ids yet, and room for so many. No other call takes memory.
    pub fn new(alloc: Global, room: usize) -> Result<Parents, Memory>
        ensures kin { IfOk result (λ parents. parents.kin ≡ []) }
        ensures room { IfOk result (λ parents. room ≤ parents.room) }
    {
        let kin = Vec::with_capacity(alloc, room)?;
        Ok(Parents { kin })
    }

    /// All ids with their parents.
    pub fn all(&self) -> &[Kin]
        ensures { result.now ≡ self.now.kin }
    {
        self.kin.as_slice()
    }

    /// Adds an id with its parents, after those that are there.
    pub fn add(&mut self, kin: Kin)
        requires { length self.old.kin < self.old.room }
        ensures kin { self.new.kin ≡ self.old.kin ++ kin ∷ [] }
        ensures room { self.old.room ≤ self.new.room }
    {
        if self.kin.push(kin).is_err() {
            unreachable!();
        }
    }

    /// Removes these ids. The others stay in their order.
    pub fn take_out(&mut self, gone: &[u64])
        ensures kin { self.new.kin ≡ filter (λ k. not (is_in gone.now k.id)) self.old.kin }
        ensures room { self.new.room ≡ self.old.room }
    {
        self.kin.retain(
            |kin| -> bool
                ensures { result ≡ not (is_in gone.entry.now kin.entry.now.id) }
            { !gone.contains(&kin.id) },
        );
    }

    /// Removes all ids, and keeps the room.
    pub fn clear(&mut self)
        ensures kin { self.new.kin ≡ [] }
        ensures room { self.new.room ≡ self.old.room }
    {
        self.kin.clear();
    }
}
