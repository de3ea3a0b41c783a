//! The tests of the crates of columns and plans.
mod ample;
mod bats;
mod cells;
mod chunks;
mod plans;
mod rows;
