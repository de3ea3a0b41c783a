//! The functions of cells of plans: arithmetic, comparisons, truth where Nil is unknown, and the
//! test for Nil.
//!
//! It uses `cell_core`, whose definitions say what each function returns, `cell_calc` for the
//! functions of single cells, and `bat_core` for columns. A function goes over two scalars, or over
//! BATs place by place, up to the shortest BAT, and then has the heads of the first. Each call
//! returns exactly the value of its operator, and its counter rises by the stated work; `Overflow`
//! comes exactly where a number leaves the signed 64-bit range. Runs of numbers alone, or of bits
//! alone, have loops of their own; any others go cell by cell. `over_two` and `over_one` choose the
//! function by its operator.
#![tactic(auto)]

mod bits;
mod calculate;
mod function;
mod general;
mod numbers;
mod operators;

pub use operators::{
    bit_and, bit_not, bit_or, eq, ge, gt, is_nil, le, lt, minus, ne, over_one, over_two, plus,
    times,
};
