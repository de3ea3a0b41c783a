//! Bytes of texts: their classes, the fronts of one class, and the numbers and days that they write.
//!
//! It builds on `cell_text` for days and on `jiff_core` for the calendar. It has what is read of
//! SQL and of MAL alike: each call returns what its definition in `specs/` says. The lemmas on
//! fronts, texts, numbers and days are for the crates above. It takes no memory.
#![tactic(auto)]

mod classes;
mod days;
mod numbers;

pub use classes::{
    begins_with, begins_word_byte, digits_length, is_blank, is_digit, is_letter, line_length,
    word_length,
};
pub use days::named_day;
pub use numbers::{number_64, number_128};
