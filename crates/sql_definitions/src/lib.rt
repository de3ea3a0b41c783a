//! What SQL means: which statements are refused over a schema and why, what a query answers over a
//! database, and what the other statements do to it.
//!
//! It builds on `cell_core` and on the trees of `sql_tree`. The definitions in `specs/` are what a
//! reader has to believe: which column a name means (`Sources`, `References`), kinds (`Kinds`),
//! values of expressions (`Values`), truth (`Truth`), the choices of rows that a condition keeps
//! (`Kept`), the rows of a query (`Rows`), its answer (`Answer`), what a change does (`Effect`),
//! and the refusals in their order (`Check`, `Refusals`). They know no plan, no column store and no
//! order of work. The crates above compute them and share what is here: refusals and replies,
//! tables without rows, a checked statement (`Typed`), `find_column`, which finds the place of a
//! column reference, and `targets`, the columns that the values of an INSERT go to.
#![tactic(auto)]

mod called;
mod columns;
mod items;
mod refusal;
mod source;
mod typed;

pub use called::{Called, Resolved, column_place, find_column};
pub use columns::{column_named, targets};
pub use items::{all_columns, has_aggregate, is_grouped, key_place, sort_keys};
pub use refusal::{Refusal, Reply};
pub use source::{Schema, Source};
pub use typed::{Typed, from_name};
