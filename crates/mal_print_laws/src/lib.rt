//! What is printed of a plan reads as that plan again.
//!
//! It uses the public contracts and the definitions of `mal_print` and `mal_text`. It promises that
//! the canonical text of a plan without a fault, each of whose days has a text, is a text of
//! characters and reads as that plan (`printed_reads`), that `days_have_text` says whether each day
//! has one, and that a plan which is printed and read again is the same plan (`print_and_read`).
#![tactic(auto)]

mod again;
mod days;
mod laws;

pub use again::print_and_read;
pub use days::days_have_text;
pub use laws::printed_reads;
