use pool_policy::PoolEntry;

/// The entries that come back in a write, which `update_propagate::carry` makes.
#[derive(Drop)]
pub struct Carried {
    /// The ids that they had, in order.
    pub ids: Vec<u64>,
    /// The entries as they come back, in the same order: with fresh ids, renamed keys and grown
    /// values.
    pub entries: Vec<PoolEntry>,
    /// The work of the operators that were run for them.
    pub work: u128,
}
