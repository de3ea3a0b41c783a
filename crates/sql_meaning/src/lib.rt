//! The plain program of what a query answers over a database: as rows, or none where it overflows
//! (`plain_answer`); and of a checked statement (`slow_answer`).
//!
//! It builds on `sql_definitions`, whose definition of the answer it computes exactly, and on
//! `row_values` for the values of expressions and the truth of conditions. It is loops over choices
//! of rows and groups, without columns, hashes or plans. A choice holds rows that are lent, and no
//! row is copied before it is shown.
#![tactic(auto)]

mod answer;
mod groups;
mod kept;
mod overflow;
mod rows;
mod tables;

pub use answer::{plain_answer, slow_answer};
