//! The entries of a pool with all that is kept beside them: what of these changes where entries leave and
//! others come.
ghost use Rattle.std.specs.Prelude.{◌≡◌, ◌==◌, ◌+◌, ◌<◌, ◌≤◌, ◌++◌, ◌∷◌, ◌&&◌, [], ℕ, IfOk, false, filter, length, not, vec_len};
ghost use Rattle.evict_admit.specs.Runs.{is_one_of};
ghost use Rattle.pool_policy.specs.Looks.{paid_back};
ghost use Rattle.pool_policy.specs.Admits.{credit_of, left_without, one_less, pays_at_end};
ghost use Rattle.pool_entries.specs.Usable.{IsOwed};
ghost use Rattle.recycle_pool.specs.Placed.{AreFound, HavePlaces};

use crate::carried::Carried;
use crate::children::{add_child, renew_children, take_children};
use crate::keys::Keys;
use crate::room::{enter, leave};
use crate::written::{enter_all, take_touched};
use cell_core::Memory;
use evict_admit::Ledger;
use pool_entries::pay;
use pool_index::{Children, Parents};
use pool_policy::PoolEntry;
use std::alloc::Global;

/// The entries of a pool, what each is found by, and the credits of their shapes.
pub(crate) struct Entries {
    /// The entries, in the order of their ids.
    pub(crate) all: Vec<PoolEntry>,
    /// The credits of their shapes.
    pub(crate) ledger: Ledger,
    /// Their ids under the prints of their keys.
    pub(crate) keys: Keys,
    /// Their ids under those of their first parents.
    pub(crate) children: Children,
    /// The parents of each, in the order of the entries.
    pub(crate) parents: Parents,
    /// The stated bytes of all, as last counted.
    pub(crate) bytes: u64,
}

// By a call of its own, so that proofs needn't go through its forms where one is dropped.
impl Drop for Entries {
    fn drop(self) {
        let Entries {
            all: _,
            ledger: _,
            keys: _,
            children: _,
            parents: _,
            bytes: _,
        } = self;
    }
}

impl Entries {
    /// No entries, with room for so many. Shapes to come start with this credit.
    pub(crate) fn new(alloc: Global, places: u64, credits: u64) -> Result<Entries, Memory>
        requires { places ≤ 1024 }
        ensures none { IfOk result (λ entries. entries.all.items ≡ []) }
        ensures each { IfOk result (λ entries. entries.ledger.each ≡ []) }
        ensures start { IfOk result (λ entries. entries.ledger.start ≡ credits) }
        ensures bytes { IfOk result (λ entries. entries.bytes ≡ 0) }
        ensures found { IfOk result (λ entries. AreFound entries) }
        ensures room { IfOk result (λ entries. HavePlaces places entries) }
    {
        let all = Vec::with_capacity(alloc, places as usize)?;
        let keys = Keys::new(alloc, places as usize)?;
        let children = Children::new(alloc, places as usize)?;
        let parents = Parents::new(alloc, places as usize)?;
        Ok(Entries {
            all,
            ledger: Ledger::new(alloc, credits),
            keys,
            children,
            parents,
            bytes: 0,
        })
    }

    /// The entries whose ids are among these leave.
    pub(crate) fn give_up(&mut self, gone: &[u64])
        requires owed { IsOwed self.old.ledger self.old.all.items }
        requires found { AreFound self.old }
        ensures entries { self.new.all.items ≡ left_without gone.now self.old.all.items }
        ensures each { self.new.ledger.each ≡ paid_back self.old.ledger.each (filter (λ e. is_one_of gone.now e.id && pays_at_end e) self.old.all.items) }
        ensures start { self.new.ledger.start ≡ self.old.ledger.start }
        ensures found { AreFound self.new }
        ensures room { (places : ℕ) → HavePlaces places self.old → HavePlaces places self.new }
    {
        leave(&mut self.all, &mut self.ledger, gone);
        take_children(&mut self.children, &mut self.parents, gone);
    }

    /// The entries whose ids are among these leave for a new one, which pays a credit of its shape.
    pub(crate) fn exchange(&mut self, gone: &[u64], entry: PoolEntry)
        requires owed { IsOwed self.old.ledger self.old.all.items }
        requires last { entry.shape ≤ length self.old.ledger.each }
        requires first { 0 < length self.old.ledger.each → 0 < entry.shape }
        requires some { 0 < entry.shape → (credit_of entry.shape self.old.ledger.each == 0) ≡ false }
        requires found { AreFound self.old }
        requires place { HavePlaces (length (left_without gone.now self.old.all.items) + 1) self.old }
        ensures entries { self.new.all.items ≡ left_without gone.now self.old.all.items ++ entry ∷ [] }
        ensures each { self.new.ledger.each ≡ one_less (paid_back self.old.ledger.each (filter (λ e. is_one_of gone.now e.id && pays_at_end e) self.old.all.items)) entry.shape }
        ensures start { self.new.ledger.start ≡ self.old.ledger.start }
        ensures found { AreFound self.new }
        ensures room { (places : ℕ) → HavePlaces places self.old → HavePlaces places self.new }
    {
        self.give_up(gone);
        pay(&mut self.ledger, entry.shape);
        self.keys.add(self.all.as_slice(), &entry);
        add_child(&mut self.children, &mut self.parents, &entry);
        enter(&mut self.all, entry);
    }

    /// What is touched leaves, and what was carried comes back in its place.
    pub(crate) fn bring_back(&mut self, touched: &[u64], carried: Carried)
        requires owed { IsOwed self.old.ledger self.old.all.items }
        requires places { HavePlaces (length (left_without touched.now self.old.all.items) + vec_len carried.entries) self.old }
        ensures entries { self.new.all.items ≡ left_without touched.now self.old.all.items ++ carried.entries.items }
        ensures each { self.new.ledger.each ≡ paid_back self.old.ledger.each (filter (λ e. (is_one_of touched.now e.id && not (is_one_of carried.ids.items e.id)) && pays_at_end e) self.old.all.items) }
        ensures start { self.new.ledger.start ≡ self.old.ledger.start }
        ensures found { AreFound self.new }
        ensures room { (places : ℕ) → HavePlaces places self.old → HavePlaces places self.new }
    {
        let Carried {
            ids,
            entries: back,
            work: _,
        } = carried;
        take_touched(&mut self.all, &mut self.ledger, touched, ids.as_slice());
        enter_all(&mut self.all, back);
        self.keys.renew(self.all.as_slice());
        renew_children(&mut self.children, &mut self.parents, self.all.as_slice());
    }
}
