//! Cells that lie together, each chunk of them in the smallest form that holds it.
//!
//! It uses `cell_core` for cells, their order and their stated size. A `Chunk` keeps numbers, days,
//! oids or bits alone as such, oids that rise by one each as the first and their number, and any
//! others cell by cell; it finds its form by itself. A `Part` lends cells of a chunk in that form.
//! Contracts see the lists of cells alone. `Facts` are kept about the cells, so that no pass over
//! them is needed.
#![tactic(auto)]

mod chunk;
mod count;
mod facts;
mod kept;
mod part;

pub use chunk::Chunk;
pub use count::Count;
pub use facts::{BYTES_LIMIT, Facts, facts_after};
pub use part::{CellAt, Part};
