ghost use Rattle.std.specs.Prelude.{◌≡◌, ◌+◌, ◌++◌, ◌∷◌, ◌<◌, ◌≤◌, ℕ, [], IfOk, false, filter, length, nat_le, nat_lt, not, true};
ghost use Rattle.std.specs.List.Sorted.{IsNonDecreasingBy, IsPartitionPoint};
ghost use Rattle.pool_index.specs.Under.{is_in, under};

use cell_core::Memory;
use std::alloc::Global;
use std::marker::Model;

/// Ids under those of their first parents, as pairs of both. Those of one parent are together, in
/// the order in which they were added.
#[derive(Drop)]
pub struct Children {
    pairs: Vec<(u64, u64)>,
}

impl Model for Children {
    ghost use Rattle.std.specs.List.Sorted.{IsNonDecreasingBy};
    ghost use Rattle.pool_index.specs.Under.{ChildrenView, children_in};

    ghost Value = { ChildrenView };

    ghost view = { λ c. children_in c.pairs };

    ghost invariant = { λ c. IsNonDecreasingBy (λ p. p.0) c.pairs.items };
}

impl Children {
    /// No pairs yet, and room for so many. No other call takes memory.
    pub fn new(alloc: Global, room: usize) -> Result<Children, Memory>
        ensures pairs { IfOk result (λ children. children.pairs ≡ []) }
        ensures room { IfOk result (λ children. room ≤ children.room) }
    {
        let pairs = Vec::with_capacity(alloc, room)?;
        Ok(Children { pairs })
    }

    /// The pairs of a parent, found by halves.
    pub fn of(&self, parent: u64) -> &[(u64, u64)]
        ensures { result.now ≡ under parent self.now.pairs }
    {
        let pairs = self.pairs.as_slice();
        let from = &pairs[count_below(pairs, parent)..];
        &from[..count_up_to(from, parent)]
    }

    /// Adds an id under its parent, after those that are there.
    pub fn add(&mut self, parent: u64, id: u64)
        requires { length self.old.pairs < self.old.room }
        ensures pairs { (other : ℕ) → under other self.new.pairs ≡ under other (self.old.pairs ++ (parent, id) ∷ []) }
        ensures count { length self.new.pairs ≡ length self.old.pairs + 1 }
        ensures room { self.old.room ≤ self.new.room }
    {
        let at = count_up_to(self.pairs.as_slice(), parent);
        if self.pairs.insert(at, (parent, id)).is_err() {
            unreachable!();
        }
    }

    /// Removes the pairs of these ids.
    pub fn take_out(&mut self, gone: &[u64])
        ensures pairs { self.new.pairs ≡ filter (λ p. not (is_in gone.now p.1)) self.old.pairs }
        ensures room { self.new.room ≡ self.old.room }
    {
        self.pairs.retain(
            |pair| -> bool
                ensures { result ≡ not (is_in gone.entry.now pair.entry.now.1) }
            { !gone.contains(&pair.1) },
        );
    }

    /// Removes all pairs, and keeps the room.
    pub fn clear(&mut self)
        ensures pairs { self.new.pairs ≡ [] }
        ensures room { self.new.room ≡ self.old.room }
    {
        self.pairs.clear();
    }
}

/// How many pairs have a parent below this one.
fn count_below(pairs: &[(u64, u64)], parent: u64) -> usize
    requires { IsNonDecreasingBy (λ p. p.0) pairs.now }
    ensures within { result ≤ length pairs.now }
    ensures point { IsPartitionPoint (λ p. nat_lt p.0 parent ≡ true) (λ p. nat_lt p.0 parent ≡ false) pairs.now result }
{
    pairs.partition_point(|pair| pair.0 < parent)
}

/// How many pairs have at most this parent.
fn count_up_to(pairs: &[(u64, u64)], parent: u64) -> usize
    requires { IsNonDecreasingBy (λ p. p.0) pairs.now }
    ensures within { result ≤ length pairs.now }
    ensures point { IsPartitionPoint (λ p. nat_le p.0 parent ≡ true) (λ p. nat_le p.0 parent ≡ false) pairs.now result }
{
    pairs.partition_point(|pair| pair.0 <= parent)
}
