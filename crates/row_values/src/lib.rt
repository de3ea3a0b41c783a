//! The values of expressions and the truth of conditions over rows, and the cells that a column refuses.
//!
//! It builds on `sql_definitions`, whose definitions it computes exactly, and on `cell_calc` for the
//! functions and aggregates of cells. An expression is evaluated over a choice of rows, one of each
//! table, or over a group of choices. The rows are lent (`LentRow`), and none is copied.
//! `sql_meaning` computes the answers of queries over these values, and `sql_changes` what changes
//! do.
#![tactic(auto)]

mod calc;
mod conditions;
mod row;
mod scope;
mod stored;
mod value;

pub use conditions::{cond_overflows, is_kept};
pub use row::LentRow;
pub use scope::{Scope, group_cell, holds};
pub use stored::{are_rows_too_long, has_long_default, has_null_row, is_null_refused, is_too_long};
pub use value::{cell_over, column_cell, constant_overflows, overflows_over, value_over};
