use pool_policy::{PoolEntry, Touched};

/// A write: what it does, what it touches, and the pool before it.
#[derive(Clone, Copy)]
pub(crate) struct Write<'a> {
    /// What it does.
    pub(crate) touched: &'a Touched,
    /// The ids of what it touches.
    pub(crate) ids: &'a [u64],
    /// The entries of the pool.
    pub(crate) entries: &'a [PoolEntry],
    /// When it happens.
    pub(crate) now: u64,
    /// The first fresh id.
    pub(crate) next: u64,
}
