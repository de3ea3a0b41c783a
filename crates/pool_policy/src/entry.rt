ghost use Rattle.std.specs.Prelude.{◌≡◌, ◌<◌, ◌^◌, []};
ghost use Rattle.pool_policy.specs.Admits.{is_held, pays_at_end, row_of, unpinned};
ghost use Rattle.pool_policy.specs.Looks.{is_own, pays_back, pinned, used};

use bat_core::Shared;
use evict_admit::Row;
use lineage_key::Key;
use score_hook::Stats;

/// A session, and which of its statements.
#[derive(Clone, Copy, PartialEq, Eq)]
pub struct Who {
    /// The session, from 1 to 16.
    pub session: u32,
    /// The statement, from 1.
    pub statement: u32,
}

/// An entry of a pool.
pub struct PoolEntry {
    /// Its id, from 1.
    pub id: u64,
    /// Its key.
    pub key: Key,
    /// Its value.
    pub value: Shared,
    /// Its stated bytes.
    pub bytes: u64,
    /// What is known of its use.
    pub stats: Stats,
    /// Who admitted it.
    pub by: Who,
    /// The number of its shape, from 1; 0 where there are no credits.
    pub shape: u32,
    /// Whether its credit was paid back.
    pub is_paid: bool,
    /// Whether another session has used it.
    pub is_foreign: bool,
    /// Whether each session holds it, by the number of the session.
    pub pins: [bool; 17],
}

// By a call of its own, so that proofs needn't go through its forms where one is dropped.
impl Drop for PoolEntry {
    fn drop(self) {
        let PoolEntry {
            id: _,
            key: _,
            value: _,
            bytes: _,
            stats: _,
            by: _,
            shape: _,
            is_paid: _,
            is_foreign: _,
            pins: _,
        } = self;
    }
}

impl PoolEntry {
    /// Whether this session admitted it.
    pub fn is_own(&self, who: Who) -> bool
        ensures { result ≡ is_own who self.now }
    {
        self.by.session == who.session
    }

    /// Whether a use by this session pays its credit back.
    pub fn pays_back(&self, who: Who) -> bool
        ensures { result ≡ pays_back who self.now }
    {
        self.is_own(who) && !self.is_paid
    }

    /// Whether it pays its credit back where it leaves.
    pub fn pays_at_end(&self) -> bool
        ensures { result ≡ pays_at_end self.now }
    {
        self.is_foreign && !self.is_paid
    }

    /// Notes one more use.
    pub fn use_by(&mut self, who: Who, now: u64)
        requires reuses { self.old.stats.reuses < 2 ^ 32 }
        requires others { self.old.stats.others < 2 ^ 32 }
        ensures { self.new ≡ used who now self.old }
    {
        let own = self.is_own(who);
        let same = own && self.by.statement == who.statement;
        self.stats.reuses += 1;
        self.stats.others += if same { 0 } else { 1 };
        self.stats.used_at = now;
        self.is_paid = self.is_paid || own;
        self.is_foreign = self.is_foreign || !own;
    }

    /// Notes that a session holds it.
    pub fn pin(&mut self, who: Who)
        requires { who.session < 17 }
        ensures { self.new ≡ pinned who self.old }
    {
        self.pins[who.session as usize] = true;
    }

    /// Notes that a session no longer holds it.
    pub fn unpin(&mut self, session: u32)
        requires { session < 17 }
        ensures { self.new ≡ unpinned session self.old }
    {
        self.pins[session as usize] = false;
    }

    /// Whether some session holds it.
    pub fn is_held(&self) -> bool
        ensures { result ≡ is_held self.now }
    {
        self.pins.iter().any(|pin| *pin)
    }

    /// Its row for the plan of evictions, where no parent has to be kept.
    pub fn row_alone(&self) -> Row
        ensures { result ≡ row_of [] self.now }
    {
        Row {
            id: self.id,
            bytes: self.bytes,
            free: !self.is_held(),
            parents: self.key.parents(),
            stats: self.stats,
        }
    }
}
