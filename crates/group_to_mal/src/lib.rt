//! From a query to its plan: items, aggregates, groups, HAVING, DISTINCT, order and limit.
//!
//! The plan is a pure definition (`specs/QueryPlan`), over the rows that the condition keeps
//! (`rows_to_mal`). Items are values for each row, or for each group of them, or scalars over all
//! rows. In each form, columns are values over picks that have one cell for each pick, or one for
//! all. The first becomes a BAT where none is one, HAVING keeps some picks, and DISTINCT keeps the
//! first of each group of equal rows. `specs/Laws` says what that means: over each database that
//! has the tables of a checked query, the plan's meaning is the query's answer, an overflow
//! included.
#![tactic(auto)]

mod columns;
mod compile;
mod form;
mod items;
mod laws;
mod plan;
mod shown;

pub use columns::ItemValue;
pub use compile::compile_query;
pub use form::Grouping;
pub use laws::{plans_mean_answers, query_plans_run};
pub use plan::plan_after;
pub use shown::ShownColumns;
