//! Cells, texts, tables and databases: the values that every other crate of the project uses.
//!
//! It uses no other crate. It promises the one order of cells (`compare`), their stated size
//! (`stated_bytes`), and values that are shared and not copied (`Word::share`, `Cell::share`).
//! `Steps` counts stated work.
//!
//! Its definitions say what each operator of a plan (`Op`) returns, when it overflows, how much
//! work it is, and which arguments fit it; a BAT is a list of pairs of cells there. A span of cells
//! lies between two cuts of their order (`Cut`, `Span`), and spans may cover another. The texts of
//! cells and days are defined here, too (`CellText`, `Day`); `cell_text` reads and writes them.
#![tactic(auto)]

mod cell;
mod cut;
mod form;
mod memory;
mod operator;
mod order;
mod rows;
mod sequence;
mod steps;
mod table;
mod word;

pub use cell::{Cell, Kind};
pub use cut::{Cut, Span, compare_cuts};
pub use form::{Form, takes_bat};
pub use memory::{Memory, RunError};
pub use operator::{Arg, Instr, Op, Value, copy_args, equal_instrs_are_the_same};
pub use order::{compare, stated_bytes};
pub use rows::{compare_rows, compare_rows_by, sort_rows, sort_rows_by};
pub use sequence::Sequence;
pub use steps::Steps;
pub use table::{Column, Db, Table, copy_cells, copy_columns, copy_rows, find_column};
pub use word::{Word, word_of};
