use cell_core::Sequence;
use score_hook::Evict;

/// Which results are admitted.
#[derive(Clone, Copy, PartialEq, Eq)]
pub enum Admit {
    /// All that there is room for.
    All,
    /// Those whose shape has a credit left.
    Credit,
}

/// The options of a pool.
pub struct PoolOptions {
    /// How many entries there can be, at most 1,024.
    pub places: u64,
    /// How many stated bytes they can have, at most 2^40.
    pub budget: u64,
    /// Which entry is evicted first.
    pub evict: Evict,
    /// The weights of the 35 operators, where eviction uses them; else none.
    pub weights: Sequence<u64>,
    /// Which results are admitted.
    pub admit: Admit,
    /// The credit that a shape starts with, where shapes have credits.
    pub credits: u64,
}

// By a call of its own, so that proofs needn't go through its forms where one is dropped.
impl Drop for PoolOptions {
    fn drop(self) {
        let PoolOptions {
            places: _,
            budget: _,
            evict: _,
            weights: _,
            admit: _,
            credits: _,
        } = self;
    }
}

/// What an admission answers.
#[derive(Clone, Copy, PartialEq, Eq)]
pub enum Admitted {
    /// The result is an entry now.
    Taken {
        /// Its id.
        id: u64,
        /// Its stated bytes.
        bytes: u64,
        /// How many entries were evicted for it.
        gone: u64,
    },
    /// An entry with this id has its key.
    There(u64),
    /// It is a bind, and this is the present version of its column.
    Stale(u64),
    /// This is the first of its parents that isn't pooled.
    Orphan(u64),
    /// The shape with this number has no credit.
    NoCredit(u32),
    /// There is no room: so many bytes stay after all that can go is evicted.
    NoRoom(u64),
}
