ghost use Rattle.std.specs.Prelude.{◌≤◌, IfOk};
ghost use Rattle.std.specs.Vec.{vec_capacity};

use cell_core::Memory;
use evict_admit::Row;
use std::alloc::Global;

/// Lists that a step fills. Their room is taken at the start, so that a write takes no memory.
pub(crate) struct Lists {
    /// The ids of what is touched.
    pub(crate) touched: Vec<u64>,
    /// The ids of what is evicted.
    pub(crate) gone: Vec<u64>,
    /// The entries as rows of the plan of evictions.
    pub(crate) rows: Vec<Row>,
}

// By a call of its own, so that proofs needn't go through its forms where one is dropped.
impl Drop for Lists {
    fn drop(self) {
        let Lists {
            touched: _,
            gone: _,
            rows: _,
        } = self;
    }
}

impl Lists {
    /// Empty lists with room for so many elements.
    pub(crate) fn new(alloc: Global, places: usize) -> Result<Lists, Memory>
        ensures touched { IfOk result (λ lists. places ≤ vec_capacity lists.touched) }
        ensures gone { IfOk result (λ lists. places ≤ vec_capacity lists.gone) }
        ensures rows { IfOk result (λ lists. places ≤ vec_capacity lists.rows) }
    {
        let touched = Vec::with_capacity(alloc, places)?;
        let gone = Vec::with_capacity(alloc, places)?;
        let rows = Vec::with_capacity(alloc, places)?;
        Ok(Lists {
            touched,
            gone,
            rows,
        })
    }
}
