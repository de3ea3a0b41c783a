//! Binary association tables (BATs): lists of pairs of cells, kept as two columns.
//!
//! It uses `cell_core` for cells and `chunk_core` for chunks of them. A column (`Cells`) is made by
//! a builder and doesn't change from then on, so several columns share its chunks: a BAT that is
//! reversed, mirrored or given other tails copies no cell. Contracts see a `Bat` as its list of
//! pairs and a column as its list of cells, and nothing of the chunks. A BAT's stated bytes and
//! whether its heads rise are kept as it grows, and cost no pass.
#![tactic(auto)]

mod bat;
mod builder;
mod cells;
mod columns;
mod filled;
mod operate;
mod pile;
mod shared;

pub use bat::Bat;
pub use builder::{BatBuilder, CellsBuilder};
pub use cells::Cells;
pub use columns::Columns;
pub use operate::Operate;
pub use shared::{Obj, Shared};
