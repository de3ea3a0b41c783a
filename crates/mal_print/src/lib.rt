//! The canonical text of a plan.
//!
//! It uses `mal_tokens` for the words of the operators, `mal_meaning` for the plan and `mal_check`
//! for its faults. It promises that `print_mal` returns exactly the canonical text of a plan
//! without a fault. `Memory` is the only other answer.
#![tactic(auto)]

mod print;

pub use print::print_mal;
