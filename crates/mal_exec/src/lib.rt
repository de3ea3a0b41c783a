//! Plans run over shared columns, by any machine that runs operators.
//!
//! It uses `bat_core` for columns and operators and `mal_meaning` for plans. `run_plan` returns the
//! rows of a plan's meaning and counts exactly its work. `run_instr` returns one instruction's
//! value, for callers that run a plan step by step, and `run_op` that of an operator. `known_args`
//! finds arguments among results that come in any order. `output` makes the rows of an output from
//! the values of a plan's instructions.
#![tactic(auto)]

mod results;
mod rows;
mod run;

pub use results::known_args;
pub use rows::output;
pub use run::{Done, Ran, run_instr, run_op, run_plan};
